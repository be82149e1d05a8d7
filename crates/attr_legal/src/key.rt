//! What may happen once, and how often it does.

ghost use Rattle.std.specs.Prelude.{◌≡◌, max};
ghost use Rattle.attr_legal.specs.Key as spec;
ghost use Rattle.attr_legal.specs.Tally as tally;
ghost use Rattle.attr_legal.specs.declared.key.Key.TheVariants as key;

/// What may happen once: a write of a cell of the storage of this number, where the cell's number is known or not; a write of the
/// transitory of this number; an output; a halt; a read of the input.
#[derive(Clone, Copy)]
pub enum Key {
    Cell(usize, Option<u128>),
    Trn(usize),
    Put,
    Halt,
    Read,
}

/// Whether the second may be one and the same as the first, of which cell 0 is asked for where its cell isn't known: so two events clash
/// exactly where the one meets the other, or the other the one.
pub fn meets(a: Key, b: Key) -> bool
    ensures { result ≡ spec.meets a b }
{
    match a {
        Key::Cell(n, k) => is_write(b, n, k),
        Key::Trn(n) => is_trn(b, n),
        Key::Put => is_put(b),
        Key::Halt => is_halt(b),
        Key::Read => is_read(b),
    }
}

fn is_write(b: Key, n: usize, k: Option<u128>) -> bool
    ensures { result ≡ spec.meets (key.Cell n k) b }
{
    match b {
        Key::Cell(m, j) => n == m && is_at(k, j),
        Key::Trn(_) => false,
        Key::Put => false,
        Key::Halt => false,
        Key::Read => false,
    }
}

fn is_at(k: Option<u128>, j: Option<u128>) -> bool
    ensures { result ≡ spec.is_at k j }
{
    match j {
        None => true,
        Some(m) => match k {
            None => m == 0,
            Some(n) => n == m,
        },
    }
}

fn is_trn(b: Key, n: usize) -> bool
    ensures { result ≡ spec.meets (key.Trn n) b }
{
    match b {
        Key::Cell(_, _) => false,
        Key::Trn(m) => n == m,
        Key::Put => false,
        Key::Halt => false,
        Key::Read => false,
    }
}

fn is_put(b: Key) -> bool
    ensures { result ≡ spec.meets key.Put b }
{
    match b {
        Key::Cell(_, _) => false,
        Key::Trn(_) => false,
        Key::Put => true,
        Key::Halt => false,
        Key::Read => false,
    }
}

fn is_halt(b: Key) -> bool
    ensures { result ≡ spec.meets key.Halt b }
{
    match b {
        Key::Cell(_, _) => false,
        Key::Trn(_) => false,
        Key::Put => false,
        Key::Halt => true,
        Key::Read => false,
    }
}

fn is_read(b: Key) -> bool
    ensures { result ≡ spec.meets key.Read b }
{
    match b {
        Key::Cell(_, _) => false,
        Key::Trn(_) => false,
        Key::Put => false,
        Key::Halt => false,
        Key::Read => true,
    }
}

/// What happens so often, and then so often: 2 stands for all above it.
pub fn together(a: u8, b: u8) -> u8
    ensures { result ≡ tally.together a b }
{
    a.saturating_add(b).min(2)
}

/// The greater.
pub fn greater(a: u8, b: u8) -> u8
    ensures { result ≡ max a b }
{
    if a < b { b } else { a }
}
