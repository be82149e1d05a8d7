//! How much the events of an effect count, with none of its paths listed.
//!
//! A walk has the fields, which are put in or not, the whole effect, and what is sought. An event that is sought counts 1. Where none is sought
//! each counts 1 that is met twice on a path through the whole.

ghost use Rattle.std.specs.Prelude.{◌≡◌, ◌<◌, Some, length};
ghost use Rattle.attr_eval.specs.Lawful.{act_shape, term_shape};
ghost use Rattle.attr_legal.specs.Tally as spec;
ghost use Rattle.attr_legal.specs.declared.key.Key.TheVariants as key;
ghost use Rattle.isg_legal.specs.Counts.{as_key, counts, weighed};
ghost use Rattle.isg_legal.specs.Known.{AreFit, IndexFits, cell_in};
ghost use Rattle.isg_nodes.specs.Written.{AllBelow, Falls, action, statement, term};
ghost use Rattle.nml_tree.specs.Act as act;

use crate::index::{index, reads};
use crate::key::{Key, excess, greater, hit, is_at, meets, together};
use isg_nodes::{Fields, Node, node_at};

/// How much an event counts.
#[cycle(tallies)]
fn weigh(
    nodes: &[Node],
    fields: &Fields<'_>,
    put_in: bool,
    whole: &[u32],
    sought: Option<Key>,
    key: Key,
) -> u8
    requires falls { Falls nodes.now }
    requires whole { AllBelow whole.now (length nodes.now) }
    ensures { AreFit put_in fields.now (action nodes.now whole.now) → result ≡ weighed put_in fields.now (action nodes.now whole.now) sought (as_key key) }
{
    match sought {
        None => excess(all(nodes, whole, fields, put_in, whole, Some(key))),
        Some(first) => hit(first, key),
    }
}

/// How much a write of the cell of this index counts.
#[cycle(tallies)]
fn write(
    nodes: &[Node],
    storage: u32,
    i: u32,
    fields: &Fields<'_>,
    put_in: bool,
    whole: &[u32],
    sought: Option<Key>,
) -> u8
    requires falls { Falls nodes.now }
    requires within { i < length nodes.now }
    requires whole { AllBelow whole.now (length nodes.now) }
    ensures { AreFit put_in fields.now (action nodes.now whole.now) → IndexFits put_in fields.now (term nodes.now i) → result ≡ weighed put_in fields.now (action nodes.now whole.now) sought (key.Cell storage (cell_in put_in fields.now (term nodes.now i))) }
{
    match sought {
        None => {
            let key = Key::Cell(storage, index(nodes, i, fields, put_in));
            excess(all(nodes, whole, fields, put_in, whole, Some(key)))
        }
        Some(first) => hit_cell(nodes, storage, i, fields, put_in, first),
    }
}

/// 1 where a write of the cell of this index may be the one that is sought. The index is read only where the storage is the same.
fn hit_cell(
    nodes: &[Node],
    storage: u32,
    i: u32,
    fields: &Fields<'_>,
    put_in: bool,
    first: Key,
) -> u8
    requires falls { Falls nodes.now }
    requires within { i < length nodes.now }
    ensures { IndexFits put_in fields.now (term nodes.now i) → result ≡ spec.hit (as_key first) (key.Cell storage (cell_in put_in fields.now (term nodes.now i))) }
{
    match first {
        Key::Cell(n, at) => {
            if n == storage && is_at(at, index(nodes, i, fields, put_in)) {
                1
            } else {
                0
            }
        }
        Key::Trn(_) => 0,
        Key::Put => 0,
        Key::Halt => 0,
        Key::Read => 0,
    }
}

/// How much the reads of the input in the expression of this node count. It is walked through only where they are sought, or nothing is.
#[cycle(tallies)]
fn taken(
    nodes: &[Node],
    n: u32,
    fields: &Fields<'_>,
    put_in: bool,
    whole: &[u32],
    sought: Option<Key>,
) -> u8
    requires falls { Falls nodes.now }
    requires within { n < length nodes.now }
    requires whole { AllBelow whole.now (length nodes.now) }
    ensures { AreFit put_in fields.now (action nodes.now whole.now) → result ≡ spec.tally (counts put_in fields.now (action nodes.now whole.now) sought) (term_shape (term nodes.now n)) }
{
    match sought {
        None => {
            let count = reads(nodes, n);
            if count == 0 {
                return 0;
            }
            let times = all(nodes, whole, fields, put_in, whole, Some(Key::Read));
            if times <= 1 { 0 } else { count }
        }
        Some(first) => {
            if meets(first, Key::Read) {
                reads(nodes, n)
            } else {
                0
            }
        }
    }
}

/// How much the events of the statement of this node count. It calls itself as deep as statements stand in statements.
#[cycle(tallies)]
fn one(
    nodes: &[Node],
    n: u32,
    fields: &Fields<'_>,
    put_in: bool,
    whole: &[u32],
    sought: Option<Key>,
) -> u8
    requires falls { Falls nodes.now }
    requires within { n < length nodes.now }
    requires whole { AllBelow whole.now (length nodes.now) }
    ensures { AreFit put_in fields.now (action nodes.now whole.now) → AreFit put_in fields.now (statement nodes.now n act.Done) → result ≡ spec.tally (counts put_in fields.now (action nodes.now whole.now) sought) (act_shape (statement nodes.now n act.Done)) }
{
    match node_at(nodes, n) {
        Node::SetCell(k, i, e) => {
            let first = taken(nodes, *i, fields, put_in, whole, sought);
            let value = taken(nodes, *e, fields, put_in, whole, sought);
            let event = write(nodes, *k, *i, fields, put_in, whole, sought);
            together(together(first, value), event)
        }
        Node::SetTrn(k, e) => {
            let value = taken(nodes, *e, fields, put_in, whole, sought);
            let event = weigh(nodes, fields, put_in, whole, sought, Key::Trn(*k));
            together(value, event)
        }
        Node::Put(e) => {
            let value = taken(nodes, *e, fields, put_in, whole, sought);
            let event = weigh(nodes, fields, put_in, whole, sought, Key::Put);
            together(value, event)
        }
        Node::Halt(e) => {
            let value = taken(nodes, *e, fields, put_in, whole, sought);
            let event = weigh(nodes, fields, put_in, whole, sought, Key::Halt);
            together(value, event)
        }
        Node::When(c, xs, ys) => {
            let first = taken(nodes, *c, fields, put_in, whole, sought);
            let some = all(nodes, xs.as_slice(), fields, put_in, whole, sought);
            let others = all(nodes, ys.as_slice(), fields, put_in, whole, sought);
            together(first, greater(some, others))
        }
        Node::Number(_) => 0,
        Node::Field(_) => 0,
        Node::Cell(_, _) => 0,
        Node::Trn(_) => 0,
        Node::Inp => 0,
        Node::Unary(_, _) => 0,
        Node::Binary(_, _, _) => 0,
        Node::Choose(_, _, _) => 0,
    }
}

/// How much the events of statements in order count.
#[cycle(tallies)]
pub fn all(
    nodes: &[Node],
    list: &[u32],
    fields: &Fields<'_>,
    put_in: bool,
    whole: &[u32],
    sought: Option<Key>,
) -> u8
    requires falls { Falls nodes.now }
    requires within { AllBelow list.now (length nodes.now) }
    requires whole { AllBelow whole.now (length nodes.now) }
    ensures { AreFit put_in fields.now (action nodes.now whole.now) → AreFit put_in fields.now (action nodes.now list.now) → result ≡ spec.tally (counts put_in fields.now (action nodes.now whole.now) sought) (act_shape (action nodes.now list.now)) }
{
    let mut sum = 0;
    for m in list {
        let more = one(nodes, *m, fields, put_in, whole, sought);
        sum = together(sum, more);
    }
    sum
}
