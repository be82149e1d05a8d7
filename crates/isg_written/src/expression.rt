//! Expressions, written out as nodes.

ghost use Rattle.std.specs.Prelude.{◌≡◌, ◌<◌, IfOk, length};
ghost use Rattle.isg_nodes.specs.Written.{Falls};
ghost use Rattle.isg_written.specs.Apt.{IsRead, IsSmall};
ghost use Rattle.isg_written.specs.Found.{Gives, Grows, IsIndexWithin, Reads, Refers, Values, Writes, here};
ghost use Rattle.nml_tree.specs.Act as act;
ghost use Rattle.nml_tree.specs.Formula.{formula};
ghost use Rattle.nml_tree.specs.Refused.{IsTyped};
ghost use Rattle.nml_tree.specs.Table.{size_or_none, table};
ghost use Rattle.nml_tree.specs.Written.{reference, term};

use crate::declared::declared_node;
use crate::found::{Found, put};
use crate::front::Front;
use crate::numbered::Numbered;
use crate::skip::skip_pars;
use crate::turn::{part_of, turn};
use attr_eval::{Node as Top, Turn, first_par, top, truth};
use indexmap::IndexMap;
use isg_nodes::{Key, Node, add};
use nk_base::{Memory, Text};
use nml_tree::{Bin, Expr, Size, Un};

/// The value of the mode's derivation in front, whose first field has this number.
#[cycle(write)]
fn mode(
    numbered: &Numbered<'_>,
    name: &Text,
    picks: &[u32],
    first: u32,
    limit: usize,
    nodes: &mut Vec<Node>,
    known: &mut IndexMap<Key, u32>,
) -> Result<Found, Memory>
    requires typed { IsTyped numbered.now }
    requires falls { Falls nodes.old.items }
    ensures grows { Grows nodes.old.items nodes.new.items }
    ensures found { IfOk result (λ f. Values (table numbered.now) name.now limit first picks.now nodes.new.items f) }
{
    if limit == 0 {
        return put(nodes, known, Node::Number(0));
    }
    match turn(numbered, name, picks) {
        Turn::Nothing => put(nodes, known, Node::Number(0)),
        Turn::Picked(chosen, rest) => mode(numbered, chosen, rest, first, limit - 1, nodes, known),
        Turn::Made(rule) => match rule.value {
            None => put(nodes, known, Node::Number(0)),
            Some(e) => {
                let front = Front {
                    numbered,
                    pars: rule.pars,
                    picks,
                    first,
                    limit: limit - 1,
                };
                expression(front, e, nodes, known)
            }
        },
    }
}

/// The expression.
#[cycle(write)]
fn expression(
    front: Front<'_, '_>,
    e: &Expr,
    nodes: &mut Vec<Node>,
    known: &mut IndexMap<Key, u32>,
) -> Result<Found, Memory>
    requires typed { IsTyped front.numbered.now }
    requires falls { Falls nodes.old.items }
    ensures grows { Grows nodes.old.items nodes.new.items }
    ensures found { IfOk result (λ f. Writes front.entry nodes.new.items f (formula e.now)) }
{
    match top(e) {
        Top::Numeral(k) => put(nodes, known, Node::Number(k as i128)),
        Top::Truth(b) => put(nodes, known, Node::Number(truth(b))),
        Top::Named(name) => named(front, &name.text, None, nodes, known),
        Top::Indexed(name, i) => indexed(front, &name.text, i, nodes, known),
        Top::Paren(x) => expression(front, x, nodes, known),
        Top::Int(n, x) => unary(front, Un::Int(size(front.numbered, n)), x, nodes, known),
        Top::Card(n, x) => unary(front, Un::Card(size(front.numbered, n)), x, nodes, known),
        Top::Sat(n, x) => unary(front, Un::Sat(size(front.numbered, n)), x, nodes, known),
        Top::Bits(x, high, low) => {
            let op = Un::Bits(size(front.numbered, high), size(front.numbered, low));
            unary(front, op, x, nodes, known)
        }
        Top::Choose(c, x, y) => choose(front, c, x, y, nodes, known),
        Top::Neg(x) => unary(front, Un::Neg, x, nodes, known),
        Top::Inv(x) => unary(front, Un::Inv, x, nodes, known),
        Top::Not(x) => unary(front, Un::Not, x, nodes, known),
        Top::Binary(op, x, y) => binary(front, op, x, y, nodes, known),
    }
}

/// The expression as one that is read; the output isn't.
#[cycle(write)]
pub fn operand(
    front: Front<'_, '_>,
    e: &Expr,
    nodes: &mut Vec<Node>,
    known: &mut IndexMap<Key, u32>,
) -> Result<u32, Memory>
    requires typed { IsTyped front.numbered.now }
    requires falls { Falls nodes.old.items }
    ensures grows { Grows nodes.old.items nodes.new.items }
    ensures found { IfOk result (λ n. Reads front.entry nodes.new.items n (formula e.now)) }
{
    match expression(front, e, nodes, known)? {
        Found::At(n) => Ok(n),
        Found::Out => add(nodes, known, Node::Number(0)),
    }
}

/// The operator of the expression.
#[cycle(write)]
fn unary(
    front: Front<'_, '_>,
    op: Un,
    x: &Expr,
    nodes: &mut Vec<Node>,
    known: &mut IndexMap<Key, u32>,
) -> Result<Found, Memory>
    requires typed { IsTyped front.numbered.now }
    requires falls { Falls nodes.old.items }
    ensures grows { Grows nodes.old.items nodes.new.items }
    ensures found { IfOk result (λ f. Gives front.entry (λ s. IsRead (here front.entry) s (formula x.now)) nodes.new.items f (λ s. act.Unary op (term (here front.entry) s (formula x.now)))) }
{
    let n = operand(front, x, nodes, known)?;
    put(nodes, known, Node::Unary(op, n))
}

/// The operator of both expressions.
#[cycle(write)]
fn binary(
    front: Front<'_, '_>,
    op: Bin,
    x: &Expr,
    y: &Expr,
    nodes: &mut Vec<Node>,
    known: &mut IndexMap<Key, u32>,
) -> Result<Found, Memory>
    requires typed { IsTyped front.numbered.now }
    requires falls { Falls nodes.old.items }
    ensures grows { Grows nodes.old.items nodes.new.items }
    ensures found { IfOk result (λ f. Gives front.entry (λ s. IsRead (here front.entry) s (formula x.now) × IsRead (here front.entry) s (formula y.now)) nodes.new.items f (λ s. act.Binary op (term (here front.entry) s (formula x.now)) (term (here front.entry) s (formula y.now)))) }
{
    let a = operand(front, x, nodes, known)?;
    let b = operand(front, y, nodes, known)?;
    put(nodes, known, Node::Binary(op, a, b))
}

/// The first expression where the condition is true, else the second.
#[cycle(write)]
fn choose(
    front: Front<'_, '_>,
    c: &Expr,
    x: &Expr,
    y: &Expr,
    nodes: &mut Vec<Node>,
    known: &mut IndexMap<Key, u32>,
) -> Result<Found, Memory>
    requires typed { IsTyped front.numbered.now }
    requires falls { Falls nodes.old.items }
    ensures grows { Grows nodes.old.items nodes.new.items }
    ensures found { IfOk result (λ f. Gives front.entry (λ s. IsRead (here front.entry) s (formula c.now) × IsRead (here front.entry) s (formula x.now) × IsRead (here front.entry) s (formula y.now)) nodes.new.items f (λ s. act.Choose (term (here front.entry) s (formula c.now)) (term (here front.entry) s (formula x.now)) (term (here front.entry) s (formula y.now)))) }
{
    let z = operand(front, c, nodes, known)?;
    let a = operand(front, x, nodes, known)?;
    let b = operand(front, y, nodes, known)?;
    put(nodes, known, Node::Choose(z, a, b))
}

/// The name with the expression as its index.
#[cycle(write)]
fn indexed(
    front: Front<'_, '_>,
    name: &Text,
    i: &Expr,
    nodes: &mut Vec<Node>,
    known: &mut IndexMap<Key, u32>,
) -> Result<Found, Memory>
    requires typed { IsTyped front.numbered.now }
    requires falls { Falls nodes.old.items }
    ensures grows { Grows nodes.old.items nodes.new.items }
    ensures found { IfOk result (λ f. Gives front.entry (λ s. IsRead (here front.entry) s (formula i.now)) nodes.new.items f (λ s. reference (here front.entry) s name.now (term (here front.entry) s (formula i.now)))) }
{
    let n = operand(front, i, nodes, known)?;
    named(front, name, Some(n), nodes, known)
}

/// The name with this index: of a parameter, or else of what is declared.
#[cycle(write)]
pub fn named(
    front: Front<'_, '_>,
    name: &Text,
    index: Option<u32>,
    nodes: &mut Vec<Node>,
    known: &mut IndexMap<Key, u32>,
) -> Result<Found, Memory>
    requires typed { IsTyped front.numbered.now }
    requires falls { Falls nodes.old.items }
    requires within { IsIndexWithin index (length nodes.old.items) }
    ensures grows { Grows nodes.old.items nodes.new.items }
    ensures found { IfOk result (λ f. Refers front.entry nodes.old.items nodes.new.items f name.now index) }
{
    match first_par(front.pars, name.as_bytes()) {
        None => declared_node(front.numbered, name, index, nodes, known),
        Some((k, par)) => {
            let (picks, first) = skip_pars(
                front.numbered,
                front.pars,
                k,
                front.picks,
                front.first,
                front.limit,
            );
            match part_of(front.numbered, &par.ty) {
                Some(rule) => mode(
                    front.numbered,
                    rule,
                    picks,
                    first,
                    front.limit,
                    nodes,
                    known,
                ),
                None => put(nodes, known, Node::Field(first)),
            }
        }
    }
}

/// The number of the size.
fn size(numbered: &Numbered<'_>, n: &Size) -> u32
    ensures { IsSmall (table numbered.now) n.now → result ≡ size_or_none (table numbered.now) n.now }
{
    let bits = numbered.names().size_or_none(n);
    if bits > 65536 { 0 } else { bits as u32 }
}
