//! The pieces of a string, one after the other.

ghost use Rattle.std.specs.Prelude.{◌≡◌, ◌<◌, ◌∷◌, [], ℕ, List, length, IfSome, MatchOption};
ghost use Rattle.nml_upward.specs.Piece.{Begins};
ghost use Rattle.nml_tree.specs.Attribute as attribute;
ghost use Rattle.nml_tree.specs.Attribute.{directive_behind, pieces};

/// A character, or a directive, which takes the next argument.
#[derive(Clone, Copy)]
pub enum Element {
    Letter(u8),
    Directive,
}

/// The piece in front, and what stands behind it; `None` where the string ends. It takes no memory.
pub fn next_piece(text: &[u8]) -> Option<(Element, &[u8])>
    ensures piece { MatchOption result (text.now ≡ []) (λ x. Begins x.0 x.1.now text.now) }
    ensures shorter { IfSome result (λ x. length x.1.now < length text.now) }
{
    match text.split_first() {
        None => None,
        Some((c, rest)) => {
            if *c == 37 {
                match directive_end(rest) {
                    None => Some((Element::Letter(37), &rest[rest.len()..])),
                    Some(after) => Some((Element::Directive, after)),
                }
            } else {
                Some((Element::Letter(*c), rest))
            }
        }
    }
}

/// Behind the digits and the letter of a directive; `None` where there is no letter.
fn directive_end(text: &[u8]) -> Option<&[u8]>
    ensures piece { MatchOption result ((ds : List ℕ) → directive_behind ds text.now ≡ attribute.Letter 37 ∷ []) (λ rest. (ds : List ℕ) → (digits : List ℕ) × (letter : ℕ) × (directive_behind ds text.now ≡ attribute.Directive digits letter ∷ pieces rest.now)) }
    ensures shorter { IfSome result (λ rest. length rest.now < length text.now) }
{
    match text.split_first() {
        None => None,
        Some((c, rest)) => {
            if c.is_ascii_digit() {
                match directive_end(rest) {
                    None => None,
                    Some(after) => Some(after),
                }
            } else {
                Some(rest)
            }
        }
    }
}
