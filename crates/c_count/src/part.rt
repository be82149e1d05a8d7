//! What is counted of a node's part, and of the node of a number.

ghost use Rattle.std.specs.Prelude.{◌≡◌, ◌<◌, ℕ, List, length};
ghost use Rattle.c_tree.specs.Program.{Term};
ghost use Rattle.c_flat.specs.declared.node.Node.{Node};
ghost use Rattle.c_flat.specs.Written.{written, as_term, as_terms, as_command};
ghost use Rattle.c_count.specs.Sized.{AreCounted, term_size, terms_size, command_size};
ghost use Rattle.c_count.specs.Over.{term_at, terms_at, command_at};

use crate::command::own;
use crate::size::{CommandSize, Size, TermSize, TermsSize};
use crate::term::{no_arguments, plain};

/// What is counted of the expression of this number; of another node it is what is counted of the number 0.
pub(crate) fn term_at(sizes: &[Size], k: usize) -> TermSize
    ensures { result ≡ term_at sizes.now k }
{
    match sizes.get(k) {
        None => plain(false, 0, 0, 0),
        Some(size) => match size {
            Size::Term(found) => *found,
            Size::Arguments(_) => plain(false, 0, 0, 0),
            Size::Command(_) => plain(false, 0, 0, 0),
        },
    }
}

/// What is counted of the arguments of this number; of another node it is what is counted of none.
pub(crate) fn arguments_at(sizes: &[Size], k: usize) -> TermsSize
    ensures { result ≡ terms_at sizes.now k }
{
    match sizes.get(k) {
        None => no_arguments(),
        Some(size) => match size {
            Size::Term(_) => no_arguments(),
            Size::Arguments(found) => *found,
            Size::Command(_) => no_arguments(),
        },
    }
}

/// What is counted of the command of this number; of another node it is what is counted of one that does nothing.
pub(crate) fn command_at(sizes: &[Size], k: usize) -> CommandSize
    ensures { result ≡ command_at sizes.now k }
{
    match sizes.get(k) {
        None => own(0, 0),
        Some(size) => match size {
            Size::Term(_) => own(0, 0),
            Size::Arguments(_) => own(0, 0),
            Size::Command(found) => *found,
        },
    }
}

/// What is counted of the expression that the node of this number writes out.
pub fn term_size_of(sizes: &[Size], k: usize) -> TermSize
    ensures { (nodes : List Node) → AreCounted nodes sizes.now → k < length nodes → result ≡ term_size (as_term (written nodes k)) }
{
    term_at(sizes, k)
}

/// What is counted of the arguments that the node of this number writes out.
pub fn arguments_size_of(sizes: &[Size], k: usize) -> TermsSize
    ensures { (nodes : List Node) → AreCounted nodes sizes.now → k < length nodes → result ≡ terms_size (as_terms (written nodes k)) }
{
    arguments_at(sizes, k)
}

/// What is counted of the command that the node of this number writes out.
pub fn command_size_of(sizes: &[Size], k: usize) -> CommandSize
    ensures { (nodes : List Node) → AreCounted nodes sizes.now → k < length nodes → result ≡ command_size (as_command (written nodes k)) }
{
    command_at(sizes, k)
}
