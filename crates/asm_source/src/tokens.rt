//! The tokens of an instruction, each reference being its label's number.

ghost use Rattle.std.specs.Prelude.{◌≡◌, ◌++◌, List, IfOk, OnOk, map};
ghost use Rattle.asm_lines.specs.Line.{Line};
ghost use Rattle.asm_lines.specs.Seen.{seen_tokens, AreTokens, HasWritten};
ghost use Rattle.asm_text.specs.Source as source;
ghost use Rattle.asm_text.specs.Source.{resolved};
ghost use Rattle.asm_source.specs.Known.{KnowsLabels};

use crate::labels::Labels;
use asm_lines::Tokens;
use nk_base::Memory;
use nml_shape::Piece;
use std::alloc::Global;

/// The tokens of an instruction, each reference being the number of its label; 0 where there is no such label. No piece is a field.
///
/// The one error is want of memory. The rule is this project's own.
pub fn resolve(alloc: Global, labels: &Labels, tokens: &Tokens) -> Result<Vec<Piece>, Memory>
    ensures { (ls : List Line) → KnowsLabels ls labels.now → HasWritten tokens.now → IfOk result (λ ps. AreTokens ps.items (map (resolved (source.labels ls)) (seen_tokens tokens.now))) }
{
    let mut pieces = Vec::new(alloc);
    push_copies(&tokens.front, &mut pieces)?;
    for reference in &tokens.references {
        let number = labels.number(&reference.name);
        pieces.push(Piece::Number(i128::from(number)))?;
        push_copies(&reference.behind, &mut pieces)?;
    }
    Ok(pieces)
}

/// Appends copies of these pieces. The one error is want of memory.
fn push_copies(more: &[Piece], pieces: &mut Vec<Piece>) -> Result<(), Memory>
    ensures { OnOk result (pieces.new.items ≡ pieces.old.items ++ more.now) }
{
    for piece in more {
        pieces.push(copy_of(piece)?)?;
    }
    Ok(())
}

/// A copy of the piece. The one error is want of memory.
fn copy_of(piece: &Piece) -> Result<Piece, Memory>
    ensures { IfOk result (λ p. p ≡ piece.now) }
{
    match piece {
        Piece::Word(word) => Ok(Piece::Word(word.clone()?)),
        Piece::Number(z) => Ok(Piece::Number(*z)),
        Piece::Mark(c) => Ok(Piece::Mark(*c)),
        Piece::Field(n) => Ok(Piece::Field(*n)),
    }
}
