//! The image of a derivation.

ghost use Rattle.std.specs.Prelude.{◌≡◌, ◌∷◌, [], ℕ, ℤ, List, codes, length, map, Some, MatchOption};
ghost use Rattle.attr_eval.specs.Found.{IsFirst, Other, bits_given};
ghost use Rattle.attr_eval.specs.Run.{pushed};
ghost use Rattle.attr_eval.specs.Walks.{Walks, WalksAll};
ghost use Rattle.nml_tree.specs.Attribute as attribute;
ghost use Rattle.nml_tree.specs.Attribute.{pieces};
ghost use Rattle.nml_tree.specs.Derivation.{Derivation, Arguments};
ghost use Rattle.nml_tree.specs.Image as spec;
ghost use Rattle.nml_tree.specs.Refused.{IsImageOf};
ghost use Rattle.nml_tree.specs.Table.{entries, pars_of, table};
ghost use Rattle.nml_tree.specs.Template.{given, put_in, text_of};
ghost use Rattle.nml_tree.specs.Walk.{IsWalkOf};
ghost use Rattle.nml_upward.specs.Piece.{IsElement};

use crate::run::{Run, push_number};
use crate::skip::skip_pars;
use crate::turn::{Turn, first_par, first_turn, part_of};
use nk_base::Bits;
use nml_state::type_value;
use nml_tree::{Arg, Deriv, Item, Pars, Template, Typed};
use nml_upward::{Element, next_piece};

/// The image of the derivation of `instruction` that these picks and fields write: the bits of an instruction's word, the highest first.
///
/// What is answered for picks and fields that write none is left open. It takes no memory. Each rule and each parameter is found by a search
/// through the description, again and again: this is the reference, on which no tool runs. The rule is this project's own.
pub fn image(d: &Typed, v: &Deriv) -> Bits
    ensures { (x : Derivation) → IsWalkOf (table d.now) (codes "instruction") v.now.picks.items v.now.fields.items x → IsImageOf x result }
{
    let items = d.desc.items.as_slice();
    let none = Run { width: 0, value: 0 };
    let run = write(
        items,
        b"instruction".as_slice(),
        v.picks.as_slice(),
        v.fields.as_slice(),
        items.len(),
        none,
    );
    run.bits()
}

/// Writes the image of the derivation of this rule that stands in front.
#[cycle(write)]
fn write(items: &[Item], name: &[u8], picks: &[u32], fields: &[i128], limit: usize, out: Run) -> Run
    ensures { (x : Derivation) (ks : List ℕ) (ys : List ℤ) → Walks (entries [] items.now) name.now limit x picks.now fields.now ks ys → result ≡ pushed out (spec.image x) }
{
    if limit == 0 {
        return out;
    }
    match first_turn(items, name, picks) {
        Turn::Nothing => out,
        Turn::Picked(chosen, rest) => {
            write(items, chosen.as_bytes(), rest, fields, limit - 1, out)
        }
        Turn::Made(rule) => write_text(
            items,
            rule.pars,
            &rule.attrs.image_text,
            picks,
            fields,
            limit - 1,
            out,
        ),
    }
}

/// Writes what an attribute's text gives.
#[cycle(write)]
fn write_text(
    items: &[Item],
    pars: &Option<Pars>,
    text: &Template,
    picks: &[u32],
    fields: &[i128],
    limit: usize,
    out: Run,
) -> Run
    ensures { (args : Arguments) (ks : List ℕ) (ys : List ℤ) → WalksAll (entries [] items.now) (pars_of pars.now) limit args picks.now fields.now ks ys → result ≡ pushed out (text_of spec.bit (spec.images args) text.now) }
{
    match text {
        Template::Plain(string) => write_letters(string.text.as_bytes(), out),
        Template::Part(name, _, _) => {
            write_named(items, pars, name.text.as_bytes(), picks, fields, limit, out)
        }
        Template::Format(_, _, string, args, _) => write_format(
            items,
            pars,
            string.text.as_bytes(),
            args.as_slice(),
            picks,
            fields,
            limit,
            out,
        ),
    }
}

/// Writes a bit for each character.
fn write_letters(text: &[u8], out: Run) -> Run
    ensures { result ≡ pushed out (map spec.bit text.now) }
{
    let mut out = out;
    for c in text {
        out = out.push(*c == 49);
    }
    out
}

/// Writes the pieces of a string, each directive of which takes the next argument.
#[cycle(write)]
fn write_format(
    items: &[Item],
    pars: &Option<Pars>,
    text: &[u8],
    list: &[(u32, Arg)],
    picks: &[u32],
    fields: &[i128],
    limit: usize,
    out: Run,
) -> Run
    ensures { (args : Arguments) (ks : List ℕ) (ys : List ℤ) → WalksAll (entries [] items.now) (pars_of pars.now) limit args picks.now fields.now ks ys → result ≡ pushed out (put_in spec.bit (pieces text.now) (bits_given args list.now)) }
{
    let mut text = text;
    let mut list = list;
    let mut out = out;
    while let Some((piece, behind)) = next_piece(text) {
        let (more, left) = write_piece(items, pars, piece, list, picks, fields, limit, out);
        out = more;
        list = left;
        text = behind;
    }
    out
}

/// Writes a character, or the next argument; answers the arguments that are left, too.
#[cycle(write)]
fn write_piece<'l>(
    items: &[Item],
    pars: &Option<Pars>,
    piece: Element,
    list: &'l [(u32, Arg)],
    picks: &[u32],
    fields: &[i128],
    limit: usize,
    out: Run,
) -> (Run, &'l [(u32, Arg)])
    ensures { (args : Arguments) (ks : List ℕ) (ys : List ℤ) → WalksAll (entries [] items.now) (pars_of pars.now) limit args picks.now fields.now ks ys → (q : attribute.FormatPiece) → IsElement piece q → (more : List attribute.FormatPiece) → pushed result.0 (put_in spec.bit more (bits_given args result.1.now)) ≡ pushed out (put_in spec.bit (q ∷ more) (bits_given args list.now)) }
{
    match piece {
        Element::Letter(c) => (out.push(c == 49), list),
        Element::Directive => match list.split_first() {
            None => (out, list),
            Some(((_, arg), left)) => (
                write_named(
                    items,
                    pars,
                    arg.name.text.as_bytes(),
                    picks,
                    fields,
                    limit,
                    out,
                ),
                left,
            ),
        },
    }
}

/// Writes the bits of the parameter of this name.
#[cycle(write)]
fn write_named(
    items: &[Item],
    pars: &Option<Pars>,
    name: &[u8],
    picks: &[u32],
    fields: &[i128],
    limit: usize,
    out: Run,
) -> Run
    ensures { (args : Arguments) (ks : List ℕ) (ys : List ℤ) → WalksAll (entries [] items.now) (pars_of pars.now) limit args picks.now fields.now ks ys → result ≡ pushed out (given (spec.images args) name.now) }
{
    match first_par(pars, name) {
        None => out,
        Some((k, par)) => {
            let (p, f) = skip_pars(items, pars, k, picks, fields, limit);
            match part_of(items, &par.ty) {
                Some(rule) => write(items, rule.as_bytes(), p, f, limit, out),
                None => match f.split_first() {
                    None => out,
                    Some((z, _)) => push_number(out, type_value(items, &par.ty), *z),
                },
            }
        }
    }
}
