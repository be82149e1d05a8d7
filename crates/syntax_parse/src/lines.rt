//! The instruction that a line's tokens are, and why they are none.

ghost use Rattle.std.specs.Prelude.{◌≡◌, List, MatchResult, map};
ghost use Rattle.nml_shape.specs.Shown.{token_of};
ghost use Rattle.nml_tree.specs.LineToken.{LineToken};
ghost use Rattle.nml_tree.specs.Outline.{Written};
ghost use Rattle.syntax_parse.specs.Lines.{HasLine, IsLineFault};

use crate::search::found;
use isg_graph::Isg;
use nml_shape::{Inst, Piece};

/// Why a line's tokens are no instruction.
///
/// The rule is this project's own.
#[derive(Clone, Copy, Debug, PartialEq, Eq)]
pub enum LineFault {
    /// No derivation of `instruction` has the tokens.
    NoMatch,
    /// The one that has them isn't legal: it does something twice that may be done once.
    Conflict,
}

/// The legal instruction whose tokens these are: the number of its shape, and its image as the word. There is at most one.
///
/// The error is `NoMatch` where no derivation of `instruction` has the tokens, and so where there are none; it is `Conflict` where one has
/// them that isn't legal. Of tokens of which one is a field nothing is said. It takes no memory. The rule is this project's own.
pub fn line(g: &Isg, tokens: &[Piece]) -> Result<Inst, LineFault>
    ensures { (ts : List LineToken) → map token_of tokens.now ≡ map Written ts → MatchResult result (λ i. HasLine g.now ts i) (λ f. IsLineFault g.now.desc ts f) }
{
    g.is_whole();
    match found(g, tokens) {
        None => Err(LineFault::NoMatch),
        Some(i) => {
            if g.conflict(i) {
                Err(LineFault::Conflict)
            } else {
                Ok(i)
            }
        }
    }
}
