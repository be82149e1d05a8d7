//! The characters of a string.

ghost use Rattle.std.specs.Prelude.{◌≡◌, ◌≤◌, ◌&&◌, ◌∷◌, List, nat_le};
ghost use Rattle.nml_tree.specs.Attribute.{FormatPiece, pieces};
ghost use Rattle.nml_tree.specs.Directives as spec;
ghost use Rattle.nml_texts.specs.Given.{which};
ghost use Rattle.nml_texts.specs.Piece.{seen};

use crate::piece::{Piece, next_piece};
use crate::text::Which;
use nk_base::byte::is_name_byte;

/// Whether it is a mark of assembly text.
fn is_mark(c: u8) -> bool
    ensures { result ≡ spec.is_mark c }
{
    b",()[]{}<>+-*/=&|^~!?#$".contains(&c)
}

/// Whether the string may have the character.
fn is_allowed(w: Which, c: u8) -> bool
    ensures { result ≡ spec.is_allowed (which w) c }
{
    match w {
        Which::Syntax => is_name_byte(c) || c == b' ' || is_mark(c),
        Which::Image => c == b'0' || c == b'1',
    }
}

/// Whether the string may have each of its characters beside the directives.
pub fn are_allowed(w: Which, text: &[u8]) -> bool
    ensures { result ≡ spec.are_allowed (which w) (pieces text.now) }
{
    let mut text = text;
    while let Some((piece, behind)) = next_piece(text) {
        if !may_stand(w, piece) {
            return false;
        }
        text = behind;
    }
    true
}

/// Whether the string may have the piece.
fn may_stand(w: Which, piece: Piece<'_>) -> bool
    ensures { (ps : List FormatPiece) → spec.are_allowed (which w) (seen piece.entry ∷ ps) ≡ (result && spec.are_allowed (which w) ps) }
{
    match piece {
        Piece::Letter(c) => is_allowed(w, c),
        Piece::Directive(_, _) => true,
    }
}

/// The most digits that may stand side by side.
const LONGEST: u32 = 18;

/// Whether no more digits than may be stand side by side.
fn are_short(text: &[u8]) -> bool
    ensures { result ≡ spec.are_short 0 (pieces text.now) }
{
    let mut text = text;
    let mut run: u32 = 0;
    while let Some((piece, behind)) = next_piece(text) {
        run = run_behind(run, piece);
        if run > LONGEST {
            return false;
        }
        text = behind;
    }
    true
}

/// How many digits stand side by side up to the end of the piece.
fn run_behind(run: u32, piece: Piece<'_>) -> u32
    requires { run ≤ 18 }
    ensures short { result ≤ 19 }
    ensures run { (ps : List FormatPiece) → spec.are_short run (seen piece.entry ∷ ps) ≡ (nat_le result 18 && spec.are_short result ps) }
{
    match piece {
        Piece::Letter(c) => if c.is_ascii_digit() { run + 1 } else { 0 },
        Piece::Directive(_, _) => 0,
    }
}

/// Whether the runs of digits are as short as they must be.
pub fn has_short_runs(w: Which, text: &[u8]) -> bool
    ensures { result ≡ spec.has_short_runs (which w) (pieces text.now) }
{
    match w {
        Which::Syntax => are_short(text),
        Which::Image => true,
    }
}
