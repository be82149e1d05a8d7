//! What a write is one of, by the place that is assigned.

ghost use Rattle.std.specs.Prelude.{◌≡◌, [], ℕ, ℤ, List, None, Some, unsigned_abs};
ghost use Rattle.attr_eval.specs.Alone.{Alone, alone};
ghost use Rattle.attr_eval.specs.Walks.{Walks, WalksAll};
ghost use Rattle.attr_legal.specs.Target as spec;
ghost use Rattle.nml_tree.specs.Act.{Term};
ghost use Rattle.nml_tree.specs.Block.{index};
ghost use Rattle.nml_tree.specs.Derivation.{Arguments, Derivation};
ghost use Rattle.nml_tree.specs.Formula.{formula};
ghost use Rattle.nml_tree.specs.Table.{Rule, Table, declared, entries, entry, pars_of};
ghost use Rattle.nml_tree.specs.Worth.{rule_scope};
ghost use Rattle.nml_tree.specs.Written.{arguments, index_term, reference, source, term, written};
ghost use Rattle.nml_widths.specs.Fitting.{EachIndex, Everywhere, Sound};

use crate::key::Key;
use crate::number::{storages, transitories};
use crate::reads::{Weights, reads};
use attr_eval::{Node, Turn, first_par, first_turn, part_of, skip_pars, top, worth};
use nml_state::find;
use nml_tree::{Expr, Item, Pars, Place, PortWord};

/// What is known of an index: its number, where it is constant, and how much it reads of the input.
#[derive(Clone, Copy)]
pub struct Index {
    pub at: Option<u128>,
    pub reads: u8,
}

/// A place that is assigned: what a write of it is, and how much its index reads of the input.
#[derive(Clone, Copy)]
pub struct Target {
    pub key: Key,
    pub reads: u8,
}

/// What is known of an expression as an index.
pub fn index_of(
    items: &[Item],
    pars: &Option<Pars>,
    e: &Expr,
    picks: &[u32],
    fields: &[i128],
    limit: usize,
    input: u8,
) -> Index
    ensures { (args : Arguments) (ks : List ℕ) (ys : List ℤ) (n : ℕ) (zs : List ℤ) (rule : Rule) → WalksAll (entries [] items.now) (pars_of pars.now) limit args picks.now fields.now ks ys → Alone (entries [] items.now) n zs fields.now → Everywhere (Sound (rule_scope (entries [] items.now) rule) (arguments (entries [] items.now) n args) (alone zs)) (formula e.now) → result ≡ spec.index_of (alone zs) input (term (entries [] items.now) (arguments (entries [] items.now) n args) (formula e.now)) }
{
    let looks = reads(
        items,
        pars,
        e,
        picks,
        fields,
        limit,
        Weights { look: 1, input: 1 },
    );
    let z = worth(items, pars, e, picks, fields, limit);
    let taken = reads(
        items,
        pars,
        e,
        picks,
        fields,
        limit,
        Weights { look: 0, input },
    );
    Index {
        at: number_unless(looks, z),
        reads: taken,
    }
}

/// The number, where nothing is looked at.
fn number_unless(looks: u8, z: i128) -> Option<u128>
    ensures { result ≡ spec.number_unless looks (unsigned_abs z) }
{
    if looks == 0 {
        Some(z.unsigned_abs())
    } else {
        None
    }
}

/// What is known of the index of a place; one that isn't written is 0.
pub fn place_index(
    items: &[Item],
    pars: &Option<Pars>,
    place: &Place,
    picks: &[u32],
    fields: &[i128],
    limit: usize,
    input: u8,
) -> Index
    ensures { (args : Arguments) (ks : List ℕ) (ys : List ℤ) (n : ℕ) (zs : List ℤ) (rule : Rule) → WalksAll (entries [] items.now) (pars_of pars.now) limit args picks.now fields.now ks ys → Alone (entries [] items.now) n zs fields.now → EachIndex (Everywhere (Sound (rule_scope (entries [] items.now) rule) (arguments (entries [] items.now) n args) (alone zs))) (index place.now.index) → result ≡ spec.index_of (alone zs) input (index_term (entries [] items.now) (arguments (entries [] items.now) n args) (index place.now.index)) }
{
    match &place.index {
        None => Index {
            at: Some(0),
            reads: 0,
        },
        Some((_, i, _)) => index_of(items, pars, i, picks, fields, limit, input),
    }
}

/// The place that the value of the mode's derivation in front is; `None` where it is none.
#[cycle(target)]
fn value_target(
    items: &[Item],
    name: &[u8],
    picks: &[u32],
    fields: &[i128],
    limit: usize,
    input: u8,
) -> Option<Target>
    ensures { (x : Derivation) (ks : List ℕ) (ys : List ℤ) (n : ℕ) (zs : List ℤ) → Walks (entries [] items.now) name.now limit x picks.now fields.now ks ys → Alone (entries [] items.now) n zs fields.now → result ≡ spec.target (alone zs) input (written (entries [] items.now) n x).value }
{
    if limit == 0 {
        return None;
    }
    match first_turn(items, name, picks) {
        Turn::Nothing => None,
        Turn::Picked(chosen, rest) => {
            value_target(items, chosen.as_bytes(), rest, fields, limit - 1, input)
        }
        Turn::Made(rule) => match rule.value {
            None => None,
            Some(e) => expr_target(items, rule.pars, e, picks, fields, limit - 1, input),
        },
    }
}

/// The place that an expression is.
#[cycle(target)]
fn expr_target(
    items: &[Item],
    pars: &Option<Pars>,
    e: &Expr,
    picks: &[u32],
    fields: &[i128],
    limit: usize,
    input: u8,
) -> Option<Target>
    ensures { (args : Arguments) (ks : List ℕ) (ys : List ℤ) (n : ℕ) (zs : List ℤ) (rule : Rule) → WalksAll (entries [] items.now) (pars_of pars.now) limit args picks.now fields.now ks ys → Alone (entries [] items.now) n zs fields.now → Everywhere (Sound (rule_scope (entries [] items.now) rule) (arguments (entries [] items.now) n args) (alone zs)) (formula e.now) → result ≡ spec.target (alone zs) input (term (entries [] items.now) (arguments (entries [] items.now) n args) (formula e.now)) }
{
    match top(e) {
        Node::Numeral(_) => None,
        Node::Truth(_) => None,
        Node::Named(name) => {
            let text = name.text.as_bytes();
            let first = Index {
                at: Some(0),
                reads: 0,
            };
            named_target(items, pars, text, first, picks, fields, limit, input)
        }
        Node::Indexed(name, i) => {
            let index = index_of(items, pars, i, picks, fields, limit, input);
            let text = name.text.as_bytes();
            named_target(items, pars, text, index, picks, fields, limit, input)
        }
        Node::Paren(x) => expr_target(items, pars, x, picks, fields, limit, input),
        Node::Int(_, _) => None,
        Node::Card(_, _) => None,
        Node::Sat(_, _) => None,
        Node::Bits(_, _, _) => None,
        Node::Choose(_, _, _) => None,
        Node::Neg(_) => None,
        Node::Inv(_) => None,
        Node::Not(_) => None,
        Node::Binary(_, _, _) => None,
    }
}

/// The place that a name with this index is.
#[cycle(target)]
pub fn named_target(
    items: &[Item],
    pars: &Option<Pars>,
    name: &[u8],
    index: Index,
    picks: &[u32],
    fields: &[i128],
    limit: usize,
    input: u8,
) -> Option<Target>
    ensures { (args : Arguments) (ks : List ℕ) (ys : List ℤ) (n : ℕ) (zs : List ℤ) (i : Term) → WalksAll (entries [] items.now) (pars_of pars.now) limit args picks.now fields.now ks ys → Alone (entries [] items.now) n zs fields.now → index ≡ spec.index_of (alone zs) input i → result ≡ spec.target (alone zs) input (reference (entries [] items.now) (arguments (entries [] items.now) n args) name.now i) }
{
    match first_par(pars, name) {
        None => declared_target(items, name, index),
        Some((k, par)) => {
            let (p, f) = skip_pars(items, pars, k, picks, fields, limit);
            match part_of(items, &par.ty) {
                Some(rule) => value_target(items, rule.as_bytes(), p, f, limit, input),
                None => None,
            }
        }
    }
}

fn declared_target(items: &[Item], name: &[u8], index: Index) -> Option<Target>
    ensures { (zs : List ℤ) (input : ℕ) (i : Term) → index ≡ spec.index_of (alone zs) input i → result ≡ spec.target (alone zs) input (source (declared (entries [] items.now) name.now) i) }
{
    match find(items, name) {
        None => None,
        Some((before, item)) => item_target(before, item, index),
    }
}

fn item_target(before: &[Item], item: &Item, index: Index) -> Option<Target>
    ensures { (zs : List ℤ) (input : ℕ) (i : Term) → index ≡ spec.index_of (alone zs) input i → result ≡ spec.target (alone zs) input (source (Some (entry (entries [] before.now) item.now).1) i) }
{
    match item {
        Item::Let(_, _, _, _, _) => None,
        Item::Type(_, _, _, _) => None,
        Item::Storage(_) => Some(Target {
            key: Key::Cell(storages(before), index.at),
            reads: index.reads,
        }),
        Item::Port(port) => match port.word {
            PortWord::Trn(_) => Some(Target {
                key: Key::Trn(transitories(before)),
                reads: 0,
            }),
            PortWord::Inp(_) => None,
            PortWord::Out(_) => Some(Target {
                key: Key::Put,
                reads: 0,
            }),
        },
        Item::OrRule(_) => None,
        Item::OpRule(_) => None,
        Item::ModeRule(_) => None,
    }
}
