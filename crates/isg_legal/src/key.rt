//! What may happen once, and how often it does.

ghost use Rattle.std.specs.Prelude.{◌≡◌, max};
ghost use Rattle.attr_legal.specs.Key as spec;
ghost use Rattle.attr_legal.specs.Tally as tally;
ghost use Rattle.attr_legal.specs.declared.key.Key.TheVariants as key;
ghost use Rattle.isg_legal.specs.Counts.{as_key};

/// What may happen once: a write of a cell of the storage of this number, where the cell's number is known or not; a write of the
/// transitory of this number; an output; a halt; a read of the input.
#[derive(Clone, Copy)]
pub enum Key {
    Cell(u32, Option<u128>),
    Trn(u32),
    Put,
    Halt,
    Read,
}

/// 1 where the second may be one and the same as the first.
pub fn hit(a: Key, b: Key) -> u8
    ensures { result ≡ tally.hit (as_key a) (as_key b) }
{
    if meets(a, b) { 1 } else { 0 }
}

/// Whether the second may be one and the same as the first.
pub fn meets(a: Key, b: Key) -> bool
    ensures { result ≡ spec.meets (as_key a) (as_key b) }
{
    match a {
        Key::Cell(n, k) => is_write(b, n, k),
        Key::Trn(n) => is_trn(b, n),
        Key::Put => is_put(b),
        Key::Halt => is_halt(b),
        Key::Read => is_read(b),
    }
}

fn is_write(b: Key, n: u32, k: Option<u128>) -> bool
    ensures { result ≡ spec.meets (key.Cell n k) (as_key b) }
{
    match b {
        Key::Cell(m, j) => n == m && is_at(k, j),
        Key::Trn(_) => false,
        Key::Put => false,
        Key::Halt => false,
        Key::Read => false,
    }
}

/// Whether the second may be the cell that is asked for: cell 0 where the first isn't known.
pub fn is_at(k: Option<u128>, j: Option<u128>) -> bool
    ensures { result ≡ spec.is_at k j }
{
    match j {
        None => true,
        Some(m) => match k {
            None => m == 0,
            Some(n) => n == m,
        },
    }
}

fn is_trn(b: Key, n: u32) -> bool
    ensures { result ≡ spec.meets (key.Trn n) (as_key b) }
{
    match b {
        Key::Cell(_, _) => false,
        Key::Trn(m) => n == m,
        Key::Put => false,
        Key::Halt => false,
        Key::Read => false,
    }
}

fn is_put(b: Key) -> bool
    ensures { result ≡ spec.meets key.Put (as_key b) }
{
    match b {
        Key::Cell(_, _) => false,
        Key::Trn(_) => false,
        Key::Put => true,
        Key::Halt => false,
        Key::Read => false,
    }
}

fn is_halt(b: Key) -> bool
    ensures { result ≡ spec.meets key.Halt (as_key b) }
{
    match b {
        Key::Cell(_, _) => false,
        Key::Trn(_) => false,
        Key::Put => false,
        Key::Halt => true,
        Key::Read => false,
    }
}

fn is_read(b: Key) -> bool
    ensures { result ≡ spec.meets key.Read (as_key b) }
{
    match b {
        Key::Cell(_, _) => false,
        Key::Trn(_) => false,
        Key::Put => false,
        Key::Halt => false,
        Key::Read => true,
    }
}

/// 1 of what is more than once.
pub fn excess(n: u8) -> u8
    ensures { result ≡ tally.excess n }
{
    if n <= 1 { 0 } else { 1 }
}

/// What happens so often, and then so often: 2 stands for all above it.
pub fn together(a: u8, b: u8) -> u8
    ensures { result ≡ tally.together a b }
{
    a.saturating_add(b).min(2)
}

/// The greater.
pub fn greater(a: u8, b: u8) -> u8
    ensures { result ≡ max a b }
{
    if a < b { b } else { a }
}
