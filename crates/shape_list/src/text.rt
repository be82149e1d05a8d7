//! What an attribute's text comes to, with what its parameters give put in.

ghost use Rattle.std.specs.Prelude.{◌≡◌, ◌++◌, ◌∷◌, List, map, IfOk, OnOk};
ghost use Rattle.nml_tree.specs.Attribute as attribute;
ghost use Rattle.nml_tree.specs.Attribute.{pieces};
ghost use Rattle.nml_tree.specs.Template as template;
ghost use Rattle.nml_tree.specs.Template.{put_in, text_of};
ghost use Rattle.nml_upward.specs.Piece.{IsElement};
ghost use Rattle.shape_list.specs.Drawn.{args_given, named};
ghost use Rattle.shape_list.specs.declared.text.Glyph.TheVariants as glyph;

use nk_base::{Memory, Text};
use nml_tree::{Arg, Template};
use nml_upward::{Element, next_piece};
use std::alloc::Global;

/// A character of a string, a field by its number, or where a part's syntax begins or ends.
#[derive(Clone, Copy)]
pub enum Glyph {
    Letter(u8),
    Field(u32),
    Seam,
}

/// What a parameter gives, by its name.
#[derive(Drop)]
pub struct Given<'r> {
    pub name: &'r Text,
    pub text: Vec<Glyph>,
}

/// The text of an attribute.
pub fn fill(alloc: Global, given: &[Given<'_>], text: &Template) -> Result<Vec<Glyph>, Memory>
    ensures { IfOk result (λ v. v.items ≡ text_of glyph.Letter (named given.now) text.now) }
{
    let mut out = Vec::new(alloc);
    match text {
        Template::Plain(string) => push_letters(string.text.as_bytes(), &mut out)?,
        Template::Part(name, _, _) => push_given(given, &name.text, &mut out)?,
        Template::Format(_, _, string, args, _) => {
            push_format(given, string.text.as_bytes(), args.as_slice(), &mut out)?;
        }
    }
    Ok(out)
}

/// Appends the characters.
fn push_letters(text: &[u8], out: &mut Vec<Glyph>) -> Result<(), Memory>
    ensures { OnOk result (out.new.items ≡ out.old.items ++ map glyph.Letter text.now) }
{
    for c in text {
        out.push(Glyph::Letter(*c))?;
    }
    Ok(())
}

/// Appends what the parameter of this name gives.
fn push_given(given: &[Given<'_>], name: &Text, out: &mut Vec<Glyph>) -> Result<(), Memory>
    ensures { OnOk result (out.new.items ≡ out.old.items ++ template.given (named given.now) name.now) }
{
    for g in given {
        if name.as_bytes() == g.name.as_bytes() {
            out.extend_from_slice(g.text.as_slice())?;
            return Ok(());
        }
    }
    Ok(())
}

/// Appends the pieces of a string, each directive of which takes the next argument.
fn push_format(
    given: &[Given<'_>],
    text: &[u8],
    args: &[(u32, Arg)],
    out: &mut Vec<Glyph>,
) -> Result<(), Memory>
    ensures { OnOk result (out.new.items ≡ out.old.items ++ put_in glyph.Letter (pieces text.now) (args_given (named given.now) args.now)) }
{
    let mut text = text;
    let mut args = args;
    while let Some((piece, behind)) = next_piece(text) {
        args = push_piece(given, piece, args, out)?;
        text = behind;
    }
    Ok(())
}

/// Appends a character, or the next argument; answers the arguments that are left.
fn push_piece<'l>(
    given: &[Given<'_>],
    piece: Element,
    args: &'l [(u32, Arg)],
    out: &mut Vec<Glyph>,
) -> Result<&'l [(u32, Arg)], Memory>
    ensures { IfOk result (λ left. (q : attribute.FormatPiece) → IsElement piece q → (more : List attribute.FormatPiece) → out.new.items ++ put_in glyph.Letter more (args_given (named given.now) left.now) ≡ out.old.items ++ put_in glyph.Letter (q ∷ more) (args_given (named given.now) args.now)) }
{
    match piece {
        Element::Letter(c) => {
            out.push(Glyph::Letter(c))?;
            Ok(args)
        }
        Element::Directive => match args.split_first() {
            None => Ok(args),
            Some(((_, arg), left)) => {
                push_given(given, &arg.name.text, out)?;
                Ok(left)
            }
        },
    }
}
