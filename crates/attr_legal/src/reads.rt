//! How often an expression of a derivation looks at cells, transitories, the `out` and the input.

ghost use Rattle.std.specs.Prelude.{◌≡◌, [], ℕ, ℤ, List, Some};
ghost use Rattle.attr_eval.specs.Walks.{Walks, WalksAll};
ghost use Rattle.attr_legal.specs.Tally as spec;
ghost use Rattle.nml_tree.specs.Act.{Term};
ghost use Rattle.nml_tree.specs.Derivation.{Arguments, Derivation};
ghost use Rattle.nml_tree.specs.Formula.{formula};
ghost use Rattle.nml_tree.specs.Table.{Table, declared, entries, entry, pars_of};
ghost use Rattle.nml_tree.specs.Written.{arguments, reference, source, term, written};

use crate::key::{greater, together};
use attr_eval::{Node, Turn, first_par, first_turn, part_of, skip_pars, top};
use nml_state::find;
use nml_tree::{Expr, Item, Pars, PortWord};

/// How much a look at the input counts, and how much one at a cell, a transitory or the `out`.
#[derive(Clone, Copy)]
pub struct Weights {
    pub look: u8,
    pub input: u8,
}

/// Of the value of the mode's derivation that stands in front.
#[cycle(reads)]
fn value_reads(
    items: &[Item],
    name: &[u8],
    picks: &[u32],
    fields: &[i128],
    limit: usize,
    w: Weights,
) -> u8
    ensures { (x : Derivation) (ks : List ℕ) (ys : List ℤ) (n : ℕ) → Walks (entries [] items.now) name.now limit x picks.now fields.now ks ys → result ≡ spec.reads w.look w.input (written (entries [] items.now) n x).value }
{
    if limit == 0 {
        return 0;
    }
    match first_turn(items, name, picks) {
        Turn::Nothing => 0,
        Turn::Picked(chosen, rest) => {
            value_reads(items, chosen.as_bytes(), rest, fields, limit - 1, w)
        }
        Turn::Made(rule) => match rule.value {
            None => 0,
            Some(e) => reads(items, rule.pars, e, picks, fields, limit - 1, w),
        },
    }
}

/// Of an expression of a rule with these parameters, whose arguments stand in front.
#[cycle(reads)]
pub fn reads(
    items: &[Item],
    pars: &Option<Pars>,
    e: &Expr,
    picks: &[u32],
    fields: &[i128],
    limit: usize,
    w: Weights,
) -> u8
    ensures { (args : Arguments) (ks : List ℕ) (ys : List ℤ) (n : ℕ) → WalksAll (entries [] items.now) (pars_of pars.now) limit args picks.now fields.now ks ys → result ≡ spec.reads w.look w.input (term (entries [] items.now) (arguments (entries [] items.now) n args) (formula e.now)) }
{
    match top(e) {
        Node::Numeral(_) => 0,
        Node::Truth(_) => 0,
        Node::Named(name) => {
            let text = name.text.as_bytes();
            named_reads(items, pars, text, 0, picks, fields, limit, w)
        }
        Node::Indexed(name, i) => {
            let index = reads(items, pars, i, picks, fields, limit, w);
            let text = name.text.as_bytes();
            named_reads(items, pars, text, index, picks, fields, limit, w)
        }
        Node::Paren(x) => reads(items, pars, x, picks, fields, limit, w),
        Node::Int(_, x) => reads(items, pars, x, picks, fields, limit, w),
        Node::Card(_, x) => reads(items, pars, x, picks, fields, limit, w),
        Node::Sat(_, x) => reads(items, pars, x, picks, fields, limit, w),
        Node::Bits(x, _, _) => reads(items, pars, x, picks, fields, limit, w),
        Node::Choose(c, x, y) => {
            let first = reads(items, pars, c, picks, fields, limit, w);
            let some = reads(items, pars, x, picks, fields, limit, w);
            let other = reads(items, pars, y, picks, fields, limit, w);
            together(first, greater(some, other))
        }
        Node::Neg(x) => reads(items, pars, x, picks, fields, limit, w),
        Node::Inv(x) => reads(items, pars, x, picks, fields, limit, w),
        Node::Not(x) => reads(items, pars, x, picks, fields, limit, w),
        Node::Binary(_, x, y) => {
            let a = reads(items, pars, x, picks, fields, limit, w);
            let b = reads(items, pars, y, picks, fields, limit, w);
            together(a, b)
        }
    }
}

/// Of a name with an index of which so much is known: of a parameter, or else of a declared name.
#[cycle(reads)]
fn named_reads(
    items: &[Item],
    pars: &Option<Pars>,
    name: &[u8],
    index: u8,
    picks: &[u32],
    fields: &[i128],
    limit: usize,
    w: Weights,
) -> u8
    ensures { (args : Arguments) (ks : List ℕ) (ys : List ℤ) (n : ℕ) (i : Term) → WalksAll (entries [] items.now) (pars_of pars.now) limit args picks.now fields.now ks ys → index ≡ spec.reads w.look w.input i → result ≡ spec.reads w.look w.input (reference (entries [] items.now) (arguments (entries [] items.now) n args) name.now i) }
{
    match first_par(pars, name) {
        None => declared_reads(items, name, index, w),
        Some((k, par)) => {
            let (p, f) = skip_pars(items, pars, k, picks, fields, limit);
            match part_of(items, &par.ty) {
                Some(rule) => value_reads(items, rule.as_bytes(), p, f, limit, w),
                None => 0,
            }
        }
    }
}

fn declared_reads(items: &[Item], name: &[u8], index: u8, w: Weights) -> u8
    ensures { (i : Term) → index ≡ spec.reads w.look w.input i → result ≡ spec.reads w.look w.input (source (declared (entries [] items.now) name.now) i) }
{
    match find(items, name) {
        None => 0,
        Some((_, item)) => item_reads(item, index, w),
    }
}

fn item_reads(item: &Item, index: u8, w: Weights) -> u8
    ensures { (t : Table) (i : Term) → index ≡ spec.reads w.look w.input i → result ≡ spec.reads w.look w.input (source (Some (entry t item.now).1) i) }
{
    match item {
        Item::Let(_, _, _, _, _) => 0,
        Item::Type(_, _, _, _) => 0,
        Item::Storage(_) => greater(w.look, index),
        Item::Port(port) => match port.word {
            PortWord::Trn(_) => w.look,
            PortWord::Inp(_) => w.input,
            PortWord::Out(_) => w.look,
        },
        Item::OrRule(_) => 0,
        Item::OpRule(_) => 0,
        Item::ModeRule(_) => 0,
    }
}
