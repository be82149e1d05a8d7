//! The value of an expression of a derivation, where there are its fields and nothing else to read.

ghost use Rattle.std.specs.Prelude.{◌≡◌, ◌≤◌, [], ℕ, ℤ, List, Some};
ghost use Rattle.attr_eval.specs.Alone.{Alone, alone};
ghost use Rattle.attr_eval.specs.Walks.{Walks, WalksAll};
ghost use Rattle.nml_tree.specs.Act.{Term};
ghost use Rattle.nml_tree.specs.Derivation.{Derivation, Arguments};
ghost use Rattle.nml_tree.specs.Formula.{formula};
ghost use Rattle.nml_tree.specs.Table.{Rule, Table, declared, entries, entry, pars_of, size_or_none, table};
ghost use Rattle.nml_tree.specs.Value as spec;
ghost use Rattle.nml_tree.specs.Walk.{IsWalkOf};
ghost use Rattle.nml_tree.specs.Worth.{rule_scope};
ghost use Rattle.nml_tree.specs.Written.{arguments, reference, source, term, written};
ghost use Rattle.nml_widths.specs.Fitting.{Everywhere, Sound};

use crate::operate::{binary, is_zero, truth, unary};
use crate::shape::{Node, top};
use crate::skip::skip_pars;
use crate::turn::{Turn, first_par, first_turn, part_of};
use nml_state::{find, natural_size};
use nml_tree::{Deriv, Expr, Item, Pars, PortWord, Size, Typed, Un};

/// The value of the derivation of the mode that these picks and fields write, where there are its fields and nothing else to read: each
/// cell, each transitory and the input count as 0.
///
/// What is answered for picks and fields that write no derivation of the name is left open; of an `op` it is 0. It takes no memory. Each rule
/// and each parameter is found by a search through the description, again and again: this is the reference, on which no tool runs. The rule
/// is this project's own.
pub fn mode_value(d: &Typed, name: &[u8], v: &Deriv) -> i128
    ensures { (x : Derivation) → IsWalkOf (table d.now) name.now v.now.picks.items v.now.fields.items x → result ≡ spec.value (alone v.now.fields.items) (written (table d.now) 0 x).value }
{
    let items = d.desc.items.as_slice();
    value(
        items,
        name,
        v.picks.as_slice(),
        v.fields.as_slice(),
        items.len(),
    )
}

/// The value of the mode's derivation that stands in front.
#[cycle(value)]
fn value(items: &[Item], name: &[u8], picks: &[u32], fields: &[i128], limit: usize) -> i128
    ensures { (x : Derivation) (ks : List ℕ) (ys : List ℤ) (n : ℕ) (zs : List ℤ) → Walks (entries [] items.now) name.now limit x picks.now fields.now ks ys → Alone (entries [] items.now) n zs fields.now → result ≡ spec.value (alone zs) (written (entries [] items.now) n x).value }
{
    if limit == 0 {
        return 0;
    }
    match first_turn(items, name, picks) {
        Turn::Nothing => 0,
        Turn::Picked(chosen, rest) => value(items, chosen.as_bytes(), rest, fields, limit - 1),
        Turn::Made(rule) => match rule.value {
            None => 0,
            Some(e) => worth(items, rule.pars, e, picks, fields, limit - 1),
        },
    }
}

/// The value of an expression of a rule with these parameters, whose arguments stand in front.
///
/// There are the fields and nothing else to read. What is answered is left open where no arguments stand in front, or where 128 bits don't
/// hold the values in the expression. It takes no memory. The rule is this project's own.
#[cycle(value)]
pub fn worth(
    items: &[Item],
    pars: &Option<Pars>,
    e: &Expr,
    picks: &[u32],
    fields: &[i128],
    limit: usize,
) -> i128
    ensures { (args : Arguments) (ks : List ℕ) (ys : List ℤ) (n : ℕ) (zs : List ℤ) (rule : Rule) → WalksAll (entries [] items.now) (pars_of pars.now) limit args picks.now fields.now ks ys → Alone (entries [] items.now) n zs fields.now → Everywhere (Sound (rule_scope (entries [] items.now) rule) (arguments (entries [] items.now) n args) (alone zs)) (formula e.now) → result ≡ spec.value (alone zs) (term (entries [] items.now) (arguments (entries [] items.now) n args) (formula e.now)) }
{
    match top(e) {
        Node::Numeral(k) => k as i128,
        Node::Truth(b) => truth(b),
        Node::Named(name) => named(items, pars, name.text.as_bytes(), picks, fields, limit),
        Node::Indexed(name, _) => named(items, pars, name.text.as_bytes(), picks, fields, limit),
        Node::Paren(x) => worth(items, pars, x, picks, fields, limit),
        Node::Int(n, x) => {
            let z = worth(items, pars, x, picks, fields, limit);
            unary(Un::Int(size_bits(items, n)), z)
        }
        Node::Card(n, x) => {
            let z = worth(items, pars, x, picks, fields, limit);
            unary(Un::Card(size_bits(items, n)), z)
        }
        Node::Sat(n, x) => {
            let z = worth(items, pars, x, picks, fields, limit);
            unary(Un::Sat(size_bits(items, n)), z)
        }
        Node::Bits(x, hi, lo) => {
            let z = worth(items, pars, x, picks, fields, limit);
            unary(Un::Bits(size_bits(items, hi), size_bits(items, lo)), z)
        }
        Node::Choose(c, x, y) => {
            if is_zero(worth(items, pars, c, picks, fields, limit)) {
                worth(items, pars, y, picks, fields, limit)
            } else {
                worth(items, pars, x, picks, fields, limit)
            }
        }
        Node::Neg(x) => unary(Un::Neg, worth(items, pars, x, picks, fields, limit)),
        Node::Inv(x) => unary(Un::Inv, worth(items, pars, x, picks, fields, limit)),
        Node::Not(x) => unary(Un::Not, worth(items, pars, x, picks, fields, limit)),
        Node::Binary(op, x, y) => {
            let a = worth(items, pars, x, picks, fields, limit);
            let b = worth(items, pars, y, picks, fields, limit);
            binary(op, a, b)
        }
    }
}

/// The value of a name: of a parameter, or else of a `let`.
#[cycle(value)]
fn named(
    items: &[Item],
    pars: &Option<Pars>,
    name: &[u8],
    picks: &[u32],
    fields: &[i128],
    limit: usize,
) -> i128
    ensures { (args : Arguments) (ks : List ℕ) (ys : List ℤ) (n : ℕ) (zs : List ℤ) (i : Term) → WalksAll (entries [] items.now) (pars_of pars.now) limit args picks.now fields.now ks ys → Alone (entries [] items.now) n zs fields.now → result ≡ spec.value (alone zs) (reference (entries [] items.now) (arguments (entries [] items.now) n args) name.now i) }
{
    match first_par(pars, name) {
        None => constant(items, name),
        Some((k, par)) => {
            let (p, f) = skip_pars(items, pars, k, picks, fields, limit);
            match part_of(items, &par.ty) {
                Some(rule) => value(items, rule.as_bytes(), p, f, limit),
                None => match f.split_first() {
                    None => 0,
                    Some((z, _)) => *z,
                },
            }
        }
    }
}

/// The number of a `let`; of all else nothing is read.
fn constant(items: &[Item], name: &[u8]) -> i128
    ensures { (zs : List ℤ) (i : Term) → result ≡ spec.value (alone zs) (source (declared (entries [] items.now) name.now) i) }
{
    match find(items, name) {
        None => 0,
        Some((_, item)) => item_number(item),
    }
}

fn item_number(item: &Item) -> i128
    ensures { (t : Table) (zs : List ℤ) (i : Term) → result ≡ spec.value (alone zs) (source (Some (entry t item.now).1) i) }
{
    match item {
        Item::Let(_, _, _, minus, number) => match minus {
            None => number.value as i128,
            Some(_) => -(number.value as i128),
        },
        Item::Type(_, _, _, _) => 0,
        Item::Storage(_) => 0,
        Item::Port(port) => match port.word {
            PortWord::Trn(_) => 0,
            PortWord::Inp(_) => 0,
            PortWord::Out(_) => 0,
        },
        Item::OrRule(_) => 0,
        Item::OpRule(_) => 0,
        Item::ModeRule(_) => 0,
    }
}

/// A number of bits, where it is 126 at most; what is answered for a greater one is left open. It takes no memory.
pub fn size_bits(items: &[Item], size: &Size) -> u32
    ensures { size_or_none (entries [] items.now) size.now ≤ 126 → result ≡ size_or_none (entries [] items.now) size.now }
{
    let n = natural_size(items, size);
    if n > 126 { 0 } else { n as u32 }
}
