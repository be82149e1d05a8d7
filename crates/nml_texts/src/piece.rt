//! The pieces of a string, one after the other.

ghost use Rattle.std.specs.Prelude.{◌≡◌, ◌<◌, ◌≤◌, ◌∷◌, [], length, IfSome, MatchOption};
ghost use Rattle.nml_tree.specs.Attribute.{pieces};
ghost use Rattle.nml_texts.specs.Piece.{AreDigits, seen};

use nk_base::digits_len;

/// A character, or a directive: the digits behind its `%`, and its letter.
#[derive(Clone, Copy)]
pub enum Piece<'a> {
    Letter(u8),
    Directive(&'a [u8], u8),
}

/// The piece in front, and what stands behind it; `None` where the string ends. It takes no memory.
pub fn next_piece<'a>(text: &'a [u8]) -> Option<(Piece<'a>, &'a [u8])>
    ensures piece { MatchOption result (text.now ≡ []) (λ x. pieces text.now ≡ seen x.0 ∷ pieces x.1.now) }
    ensures digits { IfSome result (λ x. AreDigits x.0) }
    ensures shorter { IfSome result (λ x. length x.1.now < length text.now) }
{
    match text.split_first() {
        None => None,
        Some((c, rest)) => {
            if *c == 37 {
                Some(directive(rest))
            } else {
                Some((Piece::Letter(*c), rest))
            }
        }
    }
}

/// The directive behind its `%`, and what stands behind it; at the string's end it is the character `%`.
fn directive<'a>(text: &'a [u8]) -> (Piece<'a>, &'a [u8])
    ensures piece { pieces (37 ∷ text.now) ≡ seen result.0 ∷ pieces result.1.now }
    ensures digits { AreDigits result.0 }
    ensures shorter { length result.1.now ≤ length text.now }
{
    let (digits, behind) = text.split_at(digits_len(text));
    match behind.split_first() {
        None => (Piece::Letter(37), behind),
        Some((letter, rest)) => (Piece::Directive(digits, *letter), rest),
    }
}
