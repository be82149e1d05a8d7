//! The syntax of a derivation.

ghost use Rattle.std.specs.Prelude.{◌≡◌, ◌∷◌, ◌++◌, [], ℕ, ℤ, List, codes, length, map, Some, IfOk, OnOk};
ghost use Rattle.attr_eval.specs.Found.{text_given};
ghost use Rattle.attr_eval.specs.Walks.{Walks, WalksAll};
ghost use Rattle.nml_tree.specs.Attribute as attribute;
ghost use Rattle.nml_tree.specs.Attribute.{pieces};
ghost use Rattle.nml_tree.specs.Derivation.{Derivation, Arguments};
ghost use Rattle.nml_tree.specs.Syntax.{syntax_of, syntaxes};
ghost use Rattle.nml_tree.specs.Table.{entries, pars_of, table};
ghost use Rattle.nml_tree.specs.Template.{given, put_in, text_of};
ghost use Rattle.nml_tree.specs.Walk.{IsWalkOf};
ghost use Rattle.nml_upward.specs.Piece.{IsElement};

use crate::skip::skip_pars;
use crate::turn::{Turn, first_par, first_turn, part_of};
use nk_base::{Memory, Text, dec};
use nml_tree::{Arg, Deriv, Item, Pars, Template, Typed};
use nml_upward::{Element, next_piece};
use std::alloc::Global;

/// The syntax of the derivation of `instruction` that these picks and fields write: a list of characters, each field in decimal.
///
/// What is answered for picks and fields that write none is left open. The one error is want of memory. Each rule and each parameter is found
/// by a search through the description, again and again: this is the reference, on which no tool runs. The rule is this project's own.
pub fn syntax(alloc: Global, d: &Typed, v: &Deriv) -> Result<Text, Memory>
    ensures { IfOk result (λ text. (x : Derivation) → IsWalkOf (table d.now) (codes "instruction") v.now.picks.items v.now.fields.items x → text ≡ syntax_of x) }
{
    let items = d.desc.items.as_slice();
    let mut text = Text::new(alloc);
    put(
        alloc,
        items,
        b"instruction".as_slice(),
        v.picks.as_slice(),
        v.fields.as_slice(),
        items.len(),
        &mut text,
    )?;
    Ok(text)
}

/// Appends the syntax of the derivation of this rule that stands in front.
#[cycle(put)]
fn put(
    alloc: Global,
    items: &[Item],
    name: &[u8],
    picks: &[u32],
    fields: &[i128],
    limit: usize,
    out: &mut Text,
) -> Result<(), Memory>
    ensures { OnOk result ((x : Derivation) (ks : List ℕ) (ys : List ℤ) → Walks (entries [] items.now) name.now limit x picks.now fields.now ks ys → out.new ≡ out.old ++ syntax_of x) }
{
    if limit == 0 {
        return Ok(());
    }
    match first_turn(items, name, picks) {
        Turn::Nothing => Ok(()),
        Turn::Picked(chosen, rest) => {
            put(
                alloc,
                items,
                chosen.as_bytes(),
                rest,
                fields,
                limit - 1,
                out,
            )?;
            Ok(())
        }
        Turn::Made(rule) => {
            let text = &rule.attrs.syntax_text;
            put_text(alloc, items, rule.pars, text, picks, fields, limit - 1, out)?;
            Ok(())
        }
    }
}

/// Appends what an attribute's text gives.
#[cycle(put)]
fn put_text(
    alloc: Global,
    items: &[Item],
    pars: &Option<Pars>,
    text: &Template,
    picks: &[u32],
    fields: &[i128],
    limit: usize,
    out: &mut Text,
) -> Result<(), Memory>
    ensures { OnOk result ((args : Arguments) (ks : List ℕ) (ys : List ℤ) → WalksAll (entries [] items.now) (pars_of pars.now) limit args picks.now fields.now ks ys → out.new ≡ out.old ++ text_of (λ c. c) (syntaxes args) text.now) }
{
    match text {
        Template::Plain(string) => {
            out.push_bytes(string.text.as_bytes())?;
            Ok(())
        }
        Template::Part(name, _, _) => {
            put_named(
                alloc,
                items,
                pars,
                name.text.as_bytes(),
                picks,
                fields,
                limit,
                out,
            )?;
            Ok(())
        }
        Template::Format(_, _, string, args, _) => {
            let list = args.as_slice();
            let text = string.text.as_bytes();
            put_format(alloc, items, pars, text, list, picks, fields, limit, out)?;
            Ok(())
        }
    }
}

/// Appends the pieces of a string, each directive of which takes the next argument.
#[cycle(put)]
fn put_format(
    alloc: Global,
    items: &[Item],
    pars: &Option<Pars>,
    text: &[u8],
    list: &[(u32, Arg)],
    picks: &[u32],
    fields: &[i128],
    limit: usize,
    out: &mut Text,
) -> Result<(), Memory>
    ensures { OnOk result ((args : Arguments) (ks : List ℕ) (ys : List ℤ) → WalksAll (entries [] items.now) (pars_of pars.now) limit args picks.now fields.now ks ys → out.new ≡ out.old ++ put_in (λ c. c) (pieces text.now) (text_given args list.now)) }
{
    let mut text = text;
    let mut list = list;
    while let Some((piece, behind)) = next_piece(text) {
        list = put_piece(alloc, items, pars, piece, list, picks, fields, limit, out)?;
        text = behind;
    }
    Ok(())
}

/// Appends a character, or the next argument; answers the arguments that are left.
#[cycle(put)]
fn put_piece<'l>(
    alloc: Global,
    items: &[Item],
    pars: &Option<Pars>,
    piece: Element,
    list: &'l [(u32, Arg)],
    picks: &[u32],
    fields: &[i128],
    limit: usize,
    out: &mut Text,
) -> Result<&'l [(u32, Arg)], Memory>
    ensures { IfOk result (λ left. (args : Arguments) (ks : List ℕ) (ys : List ℤ) → WalksAll (entries [] items.now) (pars_of pars.now) limit args picks.now fields.now ks ys → (q : attribute.FormatPiece) → IsElement piece q → (more : List attribute.FormatPiece) → out.new ++ put_in (λ c. c) more (text_given args left.now) ≡ out.old ++ put_in (λ c. c) (q ∷ more) (text_given args list.now)) }
{
    match piece {
        Element::Letter(c) => {
            out.push(c)?;
            Ok(list)
        }
        Element::Directive => match list.split_first() {
            None => Ok(list),
            Some(((_, arg), left)) => {
                put_named(
                    alloc,
                    items,
                    pars,
                    arg.name.text.as_bytes(),
                    picks,
                    fields,
                    limit,
                    out,
                )?;
                Ok(left)
            }
        },
    }
}

/// Appends the text of the parameter of this name.
#[cycle(put)]
fn put_named(
    alloc: Global,
    items: &[Item],
    pars: &Option<Pars>,
    name: &[u8],
    picks: &[u32],
    fields: &[i128],
    limit: usize,
    out: &mut Text,
) -> Result<(), Memory>
    ensures { OnOk result ((args : Arguments) (ks : List ℕ) (ys : List ℤ) → WalksAll (entries [] items.now) (pars_of pars.now) limit args picks.now fields.now ks ys → out.new ≡ out.old ++ given (syntaxes args) name.now) }
{
    match first_par(pars, name) {
        None => Ok(()),
        Some((k, par)) => {
            let (p, f) = skip_pars(items, pars, k, picks, fields, limit);
            match part_of(items, &par.ty) {
                Some(rule) => {
                    put(alloc, items, rule.as_bytes(), p, f, limit, out)?;
                    Ok(())
                }
                None => match f.split_first() {
                    None => Ok(()),
                    Some((z, _)) => {
                        let number = dec(alloc, *z)?;
                        out.push_bytes(number.as_bytes())?;
                        Ok(())
                    }
                },
            }
        }
    }
}
