//! What is counted of a node's part, and of the node of a number.

ghost use Rattle.std.specs.Prelude.{◌≡◌, ◌<◌, ℕ, List, length};
ghost use Rattle.c_flat.specs.declared.node.Node.{Node};
ghost use Rattle.c_flat.specs.Written.{written, as_command};
ghost use Rattle.c_tally.specs.Tallied.{AreTallied, command_tally};
ghost use Rattle.c_tally.specs.Over.{term_at, terms_at, command_at};

use crate::command::own;
use crate::tally::{ArgumentsTally, CommandTally, Tally, TermTally};
use crate::term::{no_arguments, zero};

/// What is counted of the expression of this number; of another node it is what is counted of the number 0.
pub(crate) fn term_at(tallies: &[Tally], k: usize) -> TermTally
    ensures { result ≡ term_at tallies.now k }
{
    match tallies.get(k) {
        None => zero(),
        Some(tally) => match tally {
            Tally::Term(found) => *found,
            Tally::Arguments(_) => zero(),
            Tally::Command(_) => zero(),
        },
    }
}

/// What is counted of the arguments of this number; of another node it is what is counted of none.
pub(crate) fn arguments_at(tallies: &[Tally], k: usize) -> ArgumentsTally
    ensures { result ≡ terms_at tallies.now k }
{
    match tallies.get(k) {
        None => no_arguments(),
        Some(tally) => match tally {
            Tally::Term(_) => no_arguments(),
            Tally::Arguments(found) => *found,
            Tally::Command(_) => no_arguments(),
        },
    }
}

/// What is counted of the command of this number; of another node it is what is counted of one that does nothing.
pub(crate) fn command_at(tallies: &[Tally], k: usize) -> CommandTally
    ensures { result ≡ command_at tallies.now k }
{
    match tallies.get(k) {
        None => own(0, 0),
        Some(tally) => match tally {
            Tally::Term(_) => own(0, 0),
            Tally::Arguments(_) => own(0, 0),
            Tally::Command(found) => *found,
        },
    }
}

/// What is counted of the command that the node of this number writes out.
pub fn command_tally_of(tallies: &[Tally], k: usize) -> CommandTally
    ensures { (nodes : List Node) → AreTallied nodes tallies.now → k < length nodes → result ≡ command_tally (as_command (written nodes k)) }
{
    command_at(tallies, k)
}
