//! What is counted of a node's expression or arguments.

ghost use Rattle.std.specs.Prelude.{◌≡◌, ◌<◌, ◌+◌, ◌||◌, length, IfOk};
ghost use Rattle.c_tree.specs.Program.{Term, Terms};
ghost use Rattle.c_tree.specs.Code.{has_call, cells, argument_cells, marks, argument_marks, have_call, is_value, side, other_side};
ghost use Rattle.c_count.specs.Sized.{term_size, terms_size};
ghost use Rattle.c_flat.specs.Sorts.{term_at, terms_at};
ghost use Rattle.c_pieces.specs.Pushed.{IsProgram, aim_shown};

use crate::layout::{Aim, Nodes};
use crate::tree::sum;
use c_count::{TermSize, TermsSize, arguments_size_of, term_size_of};
use nk_base::Memory;

/// What is counted of an expression. It takes no memory.
pub fn size_of(program: &Nodes<'_>, x: usize) -> TermSize
    requires program { IsProgram program.now.nodes.now program.now.sizes.now }
    requires within { x < length program.now.nodes.now }
    ensures { result ≡ term_size (term_at program.now.nodes.now x) }
{
    term_size_of(program.sizes, x)
}

/// What is counted of arguments. It takes no memory.
pub fn arguments_of(program: &Nodes<'_>, xs: usize) -> TermsSize
    requires program { IsProgram program.now.nodes.now program.now.sizes.now }
    requires within { xs < length program.now.nodes.now }
    ensures { result ≡ terms_size (terms_at program.now.nodes.now xs) }
{
    arguments_size_of(program.sizes, xs)
}

/// How many step cells an expression has that aims so.
fn cells_of(size: TermSize, later: bool, aim: Aim) -> u32
    ensures { (x : Term) → size ≡ term_size x → result ≡ cells later (is_value (side (aim_shown aim))) x }
{
    match aim {
        Aim::Value => if later { size.later_cells } else { size.cells },
        Aim::When(_) => if later {
            size.later_tested
        } else {
            size.tested
        },
        Aim::Unless(_) => if later {
            size.later_tested
        } else {
            size.tested
        },
    }
}

/// The first step cell behind those of an expression that aims so.
///
/// The one error is want of memory; a number of 2^32 or more counts as such.
pub fn cell_behind(
    program: &Nodes<'_>,
    cell: u32,
    later: bool,
    aim: Aim,
    x: usize,
) -> Result<u32, Memory>
    requires program { IsProgram program.now.nodes.now program.now.sizes.now }
    requires within { x < length program.now.nodes.now }
    ensures { IfOk result (λ k. k ≡ cell + cells later (is_value (side (aim_shown aim))) (term_at program.now.nodes.now x)) }
{
    sum(cell, cells_of(size_of(program, x), later, aim))
}

/// How many labels an expression has that aims so.
fn marks_of(size: TermSize, aim: Aim) -> u32
    ensures { (x : Term) → size ≡ term_size x → result ≡ marks (side (aim_shown aim)) x }
{
    match aim {
        Aim::Value => size.marks,
        Aim::When(_) => size.marks_when,
        Aim::Unless(_) => size.marks_unless,
    }
}

/// The first label behind those of an expression that aims so.
///
/// The one error is want of memory; a number of 2^32 or more counts as such.
pub fn label_behind(program: &Nodes<'_>, label: u32, aim: Aim, x: usize) -> Result<u32, Memory>
    requires program { IsProgram program.now.nodes.now program.now.sizes.now }
    requires within { x < length program.now.nodes.now }
    ensures { IfOk result (λ l. l ≡ label + marks (side (aim_shown aim)) (term_at program.now.nodes.now x)) }
{
    sum(label, marks_of(size_of(program, x), aim))
}

/// How many labels an expression has that is negated.
fn other_marks(size: TermSize, aim: Aim) -> u32
    ensures { (x : Term) → size ≡ term_size x → result ≡ marks (other_side (side (aim_shown aim))) x }
{
    match aim {
        Aim::Value => size.marks_unless,
        Aim::When(_) => size.marks_unless,
        Aim::Unless(_) => size.marks_when,
    }
}

/// The first label behind those of an expression that is negated.
///
/// The one error is want of memory; a number of 2^32 or more counts as such.
pub fn other_label(program: &Nodes<'_>, label: u32, aim: Aim, x: usize) -> Result<u32, Memory>
    requires program { IsProgram program.now.nodes.now program.now.sizes.now }
    requires within { x < length program.now.nodes.now }
    ensures { IfOk result (λ l. l ≡ label + marks (other_side (side (aim_shown aim))) (term_at program.now.nodes.now x)) }
{
    sum(label, other_marks(size_of(program, x), aim))
}

/// Whether a call begins further right, this expression's among them. It takes no memory.
pub fn later_with(program: &Nodes<'_>, later: bool, y: usize) -> bool
    requires program { IsProgram program.now.nodes.now program.now.sizes.now }
    requires within { y < length program.now.nodes.now }
    ensures { result ≡ (later || has_call (term_at program.now.nodes.now y)) }
{
    if later {
        return true;
    }
    size_of(program, y).call
}

/// Whether a call begins further right, these arguments' among them. It takes no memory.
pub fn later_within(program: &Nodes<'_>, later: bool, xs: usize) -> bool
    requires program { IsProgram program.now.nodes.now program.now.sizes.now }
    requires within { xs < length program.now.nodes.now }
    ensures { result ≡ (later || have_call (terms_at program.now.nodes.now xs)) }
{
    if later {
        return true;
    }
    arguments_of(program, xs).call
}

/// How many step cells arguments have.
fn arguments_cells(size: TermsSize, later: bool) -> u32
    ensures { (xs : Terms) → size ≡ terms_size xs → result ≡ argument_cells later xs }
{
    if later { size.later_cells } else { size.cells }
}

/// The first step cell behind those of arguments.
///
/// The one error is want of memory; a number of 2^32 or more counts as such.
pub fn cell_behind_arguments(
    program: &Nodes<'_>,
    cell: u32,
    later: bool,
    xs: usize,
) -> Result<u32, Memory>
    requires program { IsProgram program.now.nodes.now program.now.sizes.now }
    requires within { xs < length program.now.nodes.now }
    ensures { IfOk result (λ k. k ≡ cell + argument_cells later (terms_at program.now.nodes.now xs)) }
{
    sum(cell, arguments_cells(arguments_of(program, xs), later))
}

/// The first label behind those of arguments.
///
/// The one error is want of memory; a number of 2^32 or more counts as such.
pub fn label_behind_arguments(program: &Nodes<'_>, label: u32, xs: usize) -> Result<u32, Memory>
    requires program { IsProgram program.now.nodes.now program.now.sizes.now }
    requires within { xs < length program.now.nodes.now }
    ensures { IfOk result (λ l. l ≡ label + argument_marks (terms_at program.now.nodes.now xs)) }
{
    sum(label, arguments_of(program, xs).marks)
}
