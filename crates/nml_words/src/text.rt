//! The widths of what an image's text writes.

ghost use Rattle.std.specs.Prelude.{◌≡◌, ◌∷◌, List, IfOk};
ghost use Rattle.nml_tree.specs.Attribute as attribute;
ghost use Rattle.nml_tree.specs.Attribute.{pieces};
ghost use Rattle.nml_upward.specs.Piece.{IsElement};
ghost use Rattle.nml_words.specs.Span as spec;
ghost use Rattle.nml_words.specs.Span.{args_given, span_given, with_pieces};

use crate::span::Span;
use indexmap::IndexMap;
use nk_base::{Memory, Text};
use nml_tree::{Arg, Template};
use nml_upward::{Element, next_piece};

/// The widths of the text, by those of the parameters.
pub fn text_span(given: &IndexMap<Text, Span>, text: &Template) -> Result<Span, Memory>
    ensures { IfOk result (λ s. s ≡ spec.text_span (span_given given.now.entries) text.now) }
{
    match text {
        Template::Plain(string) => Ok(Span::one(string.text.as_bytes().len() as u64)),
        Template::Part(name, _, _) => Ok(given_span(given, &name.text)),
        Template::Format(_, _, string, args, _) => {
            format_span(given, string.text.as_bytes(), args.as_slice())
        }
    }
}

/// Those of the parameter of this name.
fn given_span(given: &IndexMap<Text, Span>, name: &Text) -> Span
    ensures { result ≡ span_given given.now.entries name.now }
{
    match given.get(name) {
        None => Span::one(0),
        Some(s) => *s,
    }
}

/// Those of the pieces of a string, each directive of which takes the next argument.
fn format_span(
    given: &IndexMap<Text, Span>,
    text: &[u8],
    args: &[(u32, Arg)],
) -> Result<Span, Memory>
    ensures { IfOk result (λ s. s ≡ with_pieces (spec.span 0 0) (pieces text.now) (args_given (span_given given.now.entries) args.now)) }
{
    let mut text = text;
    let mut args = args;
    let mut total = Span::one(0);
    while let Some((piece, behind)) = next_piece(text) {
        let (more, left) = piece_span(given, piece, args, total)?;
        total = more;
        args = left;
        text = behind;
    }
    Ok(total)
}

/// Those with a character or with the next argument behind; answers the arguments that are left, too.
fn piece_span<'l>(
    given: &IndexMap<Text, Span>,
    piece: Element,
    args: &'l [(u32, Arg)],
    total: Span,
) -> Result<(Span, &'l [(u32, Arg)]), Memory>
    ensures { IfOk result (λ r. (q : attribute.FormatPiece) → IsElement piece q → (more : List attribute.FormatPiece) → with_pieces r.0 more (args_given (span_given given.now.entries) r.1.now) ≡ with_pieces total (q ∷ more) (args_given (span_given given.now.entries) args.now)) }
{
    match piece {
        Element::Letter(_) => Ok((total.plus(Span::one(1))?, args)),
        Element::Directive => match args.split_first() {
            None => Ok((total, args)),
            Some(((_, a), left)) => Ok((total.plus(given_span(given, &a.name.text))?, left)),
        },
    }
}
