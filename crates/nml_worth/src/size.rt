//! Sizes, as they are checked.

ghost use Rattle.std.specs.Prelude.{◌≡◌, ◌++◌};
ghost use Rattle.nml_names.specs.Note.{noted};
ghost use Rattle.nml_tree.specs.Places.{unless};
ghost use Rattle.nml_tree.specs.TypeFault as fault;
ghost use Rattle.nml_tree.specs.Table.{table};
ghost use Rattle.nml_worth.specs.Bound.{IsBound};

use nml_known::Names;
use nml_names::note;
use nml_tree::Size;

/// What a size comes to, and where it stands. The form is this project's own.
#[derive(Clone, Copy)]
pub struct Bound {
    /// The number that it writes, or that of the `let` that it names.
    pub number: Option<i128>,
    /// The same, 0 where there is none or it is negative.
    pub size: u128,
    /// Its place.
    pub at: u32,
}

/// The place of the size. It takes no memory.
pub fn size_place(size: &Size) -> u32
    ensures { result ≡ fault.size_place size.now }
{
    match size {
        Size::Number(n) => n.at,
        Size::Name(n) => n.at,
    }
}

/// What the size comes to, and where it stands. It takes no memory.
pub fn bound_of(names: &Names<'_>, size: &Size) -> Bound
    ensures { IsBound (table names.now) size.now result }
{
    Bound {
        number: names.size_number(size),
        size: names.size_or_none(size),
        at: size_place(size),
    }
}

/// Whether the number is told, and from the least to the most. It takes no memory.
pub fn is_within(least: u32, most: u32, n: Option<i128>) -> bool
    ensures { result ≡ fault.is_within least most n }
{
    match n {
        None => false,
        Some(z) => i128::from(least) <= z && z <= i128::from(most),
    }
}

/// Notes the place where the test is false. It takes no memory.
pub fn note_unless(found: Option<u32>, good: bool, at: u32) -> Option<u32>
    ensures { result ≡ noted found (unless good at) }
{
    note(found, !good, at)
}

/// Notes the size where it isn't told, less than the least that it may be, or more than 65,536. It takes no memory.
pub fn note_size(least: u32, b: Bound, found: Option<u32>) -> Option<u32>
    ensures { result ≡ noted found (unless (fault.is_within least 65536 b.number) b.at) }
{
    note(found, !is_within(least, 65536, b.number), b.at)
}
