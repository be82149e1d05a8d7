//! The value of an expression of a derivation, where the state and the next input are read.

ghost use Rattle.std.specs.Prelude.{◌≡◌, ◌≤◌, [], ℕ, ℤ, List, Some};
ghost use Rattle.attr_eval.specs.Walks.{Walks, WalksAll};
ghost use Rattle.attr_exec.specs.Seen.{IsIndex, Stands, seen, view};
ghost use Rattle.nml_tree.specs.Act.{Term};
ghost use Rattle.nml_tree.specs.Derivation.{Derivation, Arguments};
ghost use Rattle.nml_tree.specs.Formula.{formula};
ghost use Rattle.nml_tree.specs.Table.{Rule, declared, entries, entry, pars_of};
ghost use Rattle.nml_tree.specs.Worth.{rule_scope};
ghost use Rattle.nml_tree.specs.Written.{arguments, reference, source, term, written};
ghost use Rattle.nml_widths.specs.Fitting.{Everywhere, Sound};

use crate::count::{count_storages, count_trns};
use crate::look::{
    Seen, behind, cell_seen, first_field, input_seen, number, one, out_seen, trn_seen, two,
};
use attr_eval::{
    Node, Turn, first_par, first_turn, is_zero, part_of, size_bits, skip_pars, top, truth,
};
use nml_state::{State, find};
use nml_tree::{Expr, Item, Pars, PortWord, Un};

/// Where an expression of a rule is read: in a state and with a next input, the rule's parameters, and the picks and fields of their
/// arguments in front, with at most so many rules below one another.
#[derive(Clone, Copy)]
pub struct Front<'a> {
    pub items: &'a [Item],
    pub state: &'a State,
    pub next: Option<i64>,
    pub pars: &'a Option<Pars>,
    pub picks: &'a [u32],
    pub fields: &'a [i128],
    pub limit: usize,
}

/// What is read of the mode whose derivation stands in front.
#[cycle(read)]
pub fn mode_seen(
    items: &[Item],
    s: &State,
    next: Option<i64>,
    name: &[u8],
    picks: &[u32],
    fields: &[i128],
    limit: usize,
) -> Seen
    ensures { (x : Derivation) (ks : List ℕ) (ys : List ℤ) (n : ℕ) (zs : List ℤ) → Walks (entries [] items.now) name.now limit x picks.now fields.now ks ys → Stands (entries [] items.now) n (view zs s.now next) fields.now → result ≡ seen (view zs s.now next) (written (entries [] items.now) n x).value }
{
    if limit == 0 {
        return number(0);
    }
    match first_turn(items, name, picks) {
        Turn::Nothing => number(0),
        Turn::Picked(chosen, rest) => {
            mode_seen(items, s, next, chosen.as_bytes(), rest, fields, limit - 1)
        }
        Turn::Made(rule) => match rule.value {
            None => number(0),
            Some(e) => {
                let front = Front {
                    items,
                    state: s,
                    next,
                    pars: rule.pars,
                    picks,
                    fields,
                    limit: limit - 1,
                };
                worth(front, e)
            }
        },
    }
}

/// What is read of an expression of a rule with these parameters, whose arguments stand in front.
#[cycle(read)]
pub fn worth(front: Front<'_>, e: &Expr) -> Seen
    ensures { (args : Arguments) (ks : List ℕ) (ys : List ℤ) (n : ℕ) (zs : List ℤ) (rule : Rule) → WalksAll (entries [] front.entry.items.now) (pars_of front.entry.pars.now) front.entry.limit args front.entry.picks.now front.entry.fields.now ks ys → Stands (entries [] front.entry.items.now) n (view zs front.entry.state.now front.entry.next) front.entry.fields.now → Everywhere (Sound (rule_scope (entries [] front.entry.items.now) rule) (arguments (entries [] front.entry.items.now) n args) (view zs front.entry.state.now front.entry.next)) (formula e.now) → result ≡ seen (view zs front.entry.state.now front.entry.next) (term (entries [] front.entry.items.now) (arguments (entries [] front.entry.items.now) n args) (formula e.now)) }
{
    match top(e) {
        Node::Numeral(k) => number(k as i128),
        Node::Truth(b) => number(truth(b)),
        Node::Named(name) => {
            let text = name.text.as_bytes();
            named(front, text, number(0))
        }
        Node::Indexed(name, i) => {
            let index = worth(front, i);
            let text = name.text.as_bytes();
            named(front, text, index)
        }
        Node::Paren(x) => worth(front, x),
        Node::Int(n, x) => one(Un::Int(size_bits(front.items, n)), worth(front, x)),
        Node::Card(n, x) => one(Un::Card(size_bits(front.items, n)), worth(front, x)),
        Node::Sat(n, x) => one(Un::Sat(size_bits(front.items, n)), worth(front, x)),
        Node::Bits(x, hi, lo) => {
            let op = Un::Bits(size_bits(front.items, hi), size_bits(front.items, lo));
            one(op, worth(front, x))
        }
        Node::Choose(c, x, y) => {
            let test = worth(front, c);
            if is_zero(test.value) {
                behind(test, worth(front, y))
            } else {
                behind(test, worth(front, x))
            }
        }
        Node::Neg(x) => one(Un::Neg, worth(front, x)),
        Node::Inv(x) => one(Un::Inv, worth(front, x)),
        Node::Not(x) => one(Un::Not, worth(front, x)),
        Node::Binary(op, x, y) => {
            let a = worth(front, x);
            let b = worth(front, y);
            two(op, a, b)
        }
    }
}

/// What is read of a name with this index: of a parameter, or else of what is declared.
#[cycle(read)]
pub fn named(front: Front<'_>, name: &[u8], index: Seen) -> Seen
    ensures { (args : Arguments) (ks : List ℕ) (ys : List ℤ) (n : ℕ) (zs : List ℤ) (i : Term) → WalksAll (entries [] front.entry.items.now) (pars_of front.entry.pars.now) front.entry.limit args front.entry.picks.now front.entry.fields.now ks ys → Stands (entries [] front.entry.items.now) n (view zs front.entry.state.now front.entry.next) front.entry.fields.now → IsIndex (view zs front.entry.state.now front.entry.next) index i → result ≡ seen (view zs front.entry.state.now front.entry.next) (reference (entries [] front.entry.items.now) (arguments (entries [] front.entry.items.now) n args) name.now i) }
{
    let items = front.items;
    match first_par(front.pars, name) {
        None => declared_seen(items, front.state, front.next, name, index),
        Some((k, par)) => {
            let (p, f) = skip_pars(items, front.pars, k, front.picks, front.fields, front.limit);
            match part_of(items, &par.ty) {
                Some(rule) => {
                    let name = rule.as_bytes();
                    mode_seen(items, front.state, front.next, name, p, f, front.limit)
                }
                None => first_field(f),
            }
        }
    }
}

/// What is read of a declared name with this index.
fn declared_seen(items: &[Item], s: &State, next: Option<i64>, name: &[u8], index: Seen) -> Seen
    ensures { (zs : List ℤ) (i : Term) → IsIndex (view zs s.now next) index i → result ≡ seen (view zs s.now next) (source (declared (entries [] items.now) name.now) i) }
{
    match find(items, name) {
        None => number(0),
        Some((before, item)) => item_seen(before, item, s, next, index),
    }
}

/// What is read of what an item behind others declares.
fn item_seen(before: &[Item], item: &Item, s: &State, next: Option<i64>, index: Seen) -> Seen
    ensures { (zs : List ℤ) (i : Term) → IsIndex (view zs s.now next) index i → result ≡ seen (view zs s.now next) (source (Some (entry (entries [] before.now) item.now).1) i) }
{
    match item {
        Item::Let(_, _, _, minus, n) => match minus {
            None => number(n.value as i128),
            Some(_) => number(-(n.value as i128)),
        },
        Item::Type(_, _, _, _) => number(0),
        Item::Storage(_) => cell_seen(s, count_storages(before), index),
        Item::Port(port) => match port.word {
            PortWord::Trn(_) => trn_seen(s, count_trns(before)),
            PortWord::Inp(_) => input_seen(next),
            PortWord::Out(_) => out_seen(),
        },
        Item::OrRule(_) => number(0),
        Item::OpRule(_) => number(0),
        Item::ModeRule(_) => number(0),
    }
}
