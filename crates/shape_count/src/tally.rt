//! How many shapes there are, and the most nodes.

ghost use Rattle.std.specs.Prelude.{◌≡◌};
ghost use Rattle.shape_count.specs.Tally as spec;

/// Where numbers end.
pub const MOST: u32 = 1_000_000;

/// How many shapes there are, and how many nodes a derivation has at most.
#[derive(Clone, Copy)]
pub struct Tally {
    pub count: u32,
    pub nodes: u32,
}

impl Tally {
    /// These numbers.
    pub fn of(count: u32, nodes: u32) -> Tally
        ensures { result ≡ spec.tally count nodes }
    {
        Tally { count, nodes }
    }

    /// Those of the one or the other.
    pub fn either(self, other: Tally) -> Tally
        ensures { result ≡ spec.either self other }
    {
        Tally {
            count: MOST.min(self.count.saturating_add(other.count)),
            nodes: self.nodes.max(other.nodes),
        }
    }

    /// Those of the one beside the other.
    pub fn both(self, other: Tally) -> Tally
        ensures { result ≡ spec.both self other }
    {
        Tally {
            count: MOST.min(self.count.saturating_mul(other.count)),
            nodes: MOST.min(self.nodes.saturating_add(other.nodes)),
        }
    }

    /// Those below a node more.
    pub fn above(self) -> Tally
        ensures { result ≡ spec.above self }
    {
        Tally {
            count: self.count,
            nodes: MOST.min(self.nodes.saturating_add(1)),
        }
    }
}
