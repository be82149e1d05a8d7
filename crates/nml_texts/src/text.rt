//! The text of an attribute.

ghost use Rattle.std.specs.Prelude.{◌≡◌, [], List};
ghost use Rattle.std.specs.Map.{lookup};
ghost use Rattle.nk_base.specs.Text.{text_eq};
ghost use Rattle.nml_tree.specs.Attribute.{pieces};
ghost use Rattle.nml_tree.specs.Directives as spec;
ghost use Rattle.nml_tree.specs.Directives.{Pars};
ghost use Rattle.nml_texts.specs.Around.{around};
ghost use Rattle.nml_texts.specs.Given.{AreGiven, given, which};

use crate::characters::{are_allowed, has_short_runs};
use crate::directive::{Given, is_same, takes};
use crate::parameters::Parameters;
use crate::piece::{Piece, next_piece};
use indexmap::IndexMap;
use nk_base::Text;
use nml_tree::{Arg, Template};

/// Which of the two attributes a text is.
#[derive(Clone, Copy)]
pub enum Which {
    Syntax,
    Image,
}

/// What the name is among the parameters.
fn parameter(map: &IndexMap<Text, Given>, name: &Text) -> Given
    ensures { (pars : Pars) → AreGiven map.now.entries pars → result ≡ given (spec.parameter pars name.now) }
{
    match map.get(name) {
        None => Given::Neither,
        Some(found) => *found,
    }
}

/// Whether the name is that of a part.
fn is_part(map: &IndexMap<Text, Given>, name: &Text) -> bool
    ensures { (pars : Pars) → AreGiven map.now.entries pars → result ≡ spec.is_part (spec.parameter pars name.now) }
{
    match parameter(map, name) {
        Given::Field(_) => false,
        Given::Part => true,
        Given::Neither => false,
    }
}

/// Whether each directive has one argument of its kind, in order, and none is left over.
fn are_taken(w: Which, map: &IndexMap<Text, Given>, text: &[u8], args: &[(u32, Arg)]) -> bool
    ensures { (pars : Pars) → AreGiven map.now.entries pars → result ≡ spec.are_taken (which w) pars (pieces text.now) args.now }
{
    let mut text = text;
    let mut args = args;
    while let Some((piece, behind)) = next_piece(text) {
        if let Piece::Directive(digits, letter) = piece {
            match args.split_first() {
                None => return false,
                Some(((_, arg), left)) => {
                    if !takes(
                        w,
                        digits,
                        letter,
                        parameter(map, &arg.name.text),
                        &arg.attribute,
                    ) {
                        return false;
                    }
                    args = left;
                }
            }
        }
        text = behind;
    }
    args.is_empty()
}

/// Whether the string with its arguments is right.
fn are_right(w: Which, map: &IndexMap<Text, Given>, text: &[u8], args: &[(u32, Arg)]) -> bool
    ensures { (pars : Pars) → AreGiven map.now.entries pars → result ≡ spec.are_right (which w) pars (pieces text.now) args.now }
{
    are_taken(w, map, text, args) && are_allowed(w, text) && has_short_runs(w, text)
}

/// Whether the text of an attribute is right for a rule with these parameters. It takes no memory.
///
/// A directive takes a field, `%d` in a syntax and `%b` in an image, there also with the field's width before the letter, or, as `%s`,
/// the same attribute of a part; beside them a syntax has characters of assembly text, with no more than 18 digits side by side, and an
/// image has bits. The rule is this project's own.
pub fn is_right(w: Which, pars: &Parameters<'_>, text: &Template) -> bool
    ensures { result ≡ spec.is_right (which w) (around pars.now) text.now }
{
    is_right_by(w, &pars.map, text)
}

/// The same, by what is told of each name.
fn is_right_by(w: Which, map: &IndexMap<Text, Given>, text: &Template) -> bool
    ensures { (pars : Pars) → AreGiven map.now.entries pars → result ≡ spec.is_right (which w) pars text.now }
{
    match text {
        Template::Plain(string) => are_right(w, map, string.text.as_bytes(), &[]),
        Template::Part(name, _, a) => is_same(w, *a) && is_part(map, &name.text),
        Template::Format(_, _, string, args, _) => {
            are_right(w, map, string.text.as_bytes(), args.as_slice())
        }
    }
}
