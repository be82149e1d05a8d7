//! How many bits declared types have, however many those are.

ghost use Rattle.std.specs.Prelude.{◌≡◌, ◌<◌, ◌^◌, [], length, take, IfOk, IfSome, option_and_then, slice_get, unwrap_or};
ghost use Rattle.nk_base.specs.Number.{width_of};
ghost use Rattle.nml_texts.specs.Widths as spec;
ghost use Rattle.nml_texts.specs.Widths.{HasBits};
ghost use Rattle.nml_tree.specs.Table as table;
ghost use Rattle.nml_tree.specs.Table.{entries, entry};

use nk_base::{Memory, Text};
use nml_known::Names;
use nml_tree::{Item, Size, TypeExpr};
use std::alloc::Global;
use std::marker::Model;

/// The names of a description, and how many bits each declared type has, also of types that have too many.
#[derive(Drop)]
pub struct Widths<'a> {
    pub names: &'a Names<'a>,
    bits: Vec<u128>,
}

impl<'a> Model for Widths<'a> {
    ghost use Rattle.std.specs.Prelude.{◌≡◌, length};
    ghost use Rattle.std.specs.Coded.{codes};
    ghost use Rattle.nml_texts.specs.Widths.{HasBits};
    ghost use Rattle.nml_tree.specs.contracts.tree.Desc as d;
    ghost use Rattle.nml_tree.specs.declared.tree.Desc.{Desc};

    ghost Value = { Desc };

    ghost coded = { Prim.hlevel (codes, d.the_row.coded) };

    ghost view = { λ w. w.names.now };

    ghost invariant = { λ w. HasBits w.names.now w.bits.items × (length w.bits.items ≡ length w.names.now.items) };
}

impl<'a> Widths<'a> {
    /// How many bits the declared types have. The one error is want of memory.
    pub fn new(alloc: Global, names: &'a Names<'a>) -> Result<Widths<'a>, Memory>
        ensures { IfOk result (λ w. w ≡ names.now) }
    {
        let bits = all_bits(alloc, names)?;
        Ok(Widths { names, bits })
    }

    /// How many bits the type has; 0 where it is misused. It takes no memory.
    pub fn of(&self, e: &TypeExpr) -> u128
        ensures { result ≡ width_of (table.type_or_none (table.table self.now) e.now) }
    {
        type_bits(self.names, self.bits.as_slice(), e)
    }
}

/// The number of the size, where it writes one or names one of the first items.
fn size_before(names: &Names<'_>, k: usize, size: &Size) -> Option<i128>
    ensures { result ≡ table.size_number (entries [] (take k names.now.items)) size.now }
{
    match size {
        Size::Number(n) => Some(i128::from(n.value)),
        Size::Name(n) => if is_before(k, names.number(&n.text)) {
            names.size_number(size)
        } else {
            None
        },
    }
}

/// Whether the item of this number, where there is one, is among the first.
fn is_before(k: usize, number: Option<usize>) -> bool
    ensures { result ≡ spec.is_before k number }
{
    match number {
        None => false,
        Some(n) => n < k,
    }
}

/// A number that isn't negative.
fn natural(z: Option<i128>) -> Option<u128>
    ensures is { result ≡ option_and_then table.natural z }
    ensures below { IfSome result (λ n. n < 2 ^ 127) }
{
    match z {
        None => None,
        Some(z) => if z < 0 { None } else { Some(z.unsigned_abs()) },
    }
}

/// The number or 0.
fn or_none(n: Option<u128>) -> u128
    ensures { result ≡ unwrap_or n 0 }
{
    match n {
        None => 0,
        Some(n) => n,
    }
}

/// The bits of a `fix`.
fn both(a: Option<u128>, b: Option<u128>) -> u128
    requires a { IfSome a (λ n. n < 2 ^ 127) }
    requires b { IfSome b (λ n. n < 2 ^ 127) }
    ensures { result ≡ spec.both a b }
{
    match a {
        None => 0,
        Some(x) => match b {
            None => 0,
            Some(y) => x + y,
        },
    }
}

/// How many bits the named type has, where it is one of the first items.
fn named_bits(names: &Names<'_>, bits: &[u128], name: &Text) -> u128
    requires { HasBits names.now bits.now }
    ensures { result ≡ spec.declared_bits (table.declared (entries [] (take (length bits.now) names.now.items)) name.now) }
{
    bits_at(bits, names.number(name))
}

/// The bits of this number, 0 where there is none.
fn bits_at(bits: &[u128], number: Option<usize>) -> u128
    ensures { result ≡ unwrap_or (option_and_then (slice_get bits.now) number) 0 }
{
    match number {
        None => 0,
        Some(n) => match bits.get(n) {
            None => 0,
            Some(found) => *found,
        },
    }
}

/// How many bits the type has, behind the first items, of which so many bits are known.
fn type_bits(names: &Names<'_>, bits: &[u128], e: &TypeExpr) -> u128
    requires { HasBits names.now bits.now }
    ensures { result ≡ width_of (table.type_or_none (entries [] (take (length bits.now) names.now.items)) e.now) }
{
    let k = bits.len();
    match e {
        TypeExpr::Bool(_) => 1,
        TypeExpr::Card(_, _, n, _) => or_none(natural(size_before(names, k, n))),
        TypeExpr::Int(_, _, n, _) => or_none(natural(size_before(names, k, n))),
        TypeExpr::Fix(_, _, n, _, m, _) => both(
            natural(size_before(names, k, n)),
            natural(size_before(names, k, m)),
        ),
        TypeExpr::Float(_, _, _, _, _, _) => 0,
        TypeExpr::Name(n) => named_bits(names, bits, &n.text),
    }
}

/// How many bits the item has, where it is a type.
fn item_bits(names: &Names<'_>, bits: &[u128], item: &Item) -> u128
    requires { HasBits names.now bits.now }
    ensures { result ≡ spec.bits_of (entry (entries [] (take (length bits.now) names.now.items)) item.now).1 }
{
    match item {
        Item::Let(_, _, _, _, _) => 0,
        Item::Type(_, _, _, e) => type_bits(names, bits, e),
        Item::Storage(_) => 0,
        Item::Port(_) => 0,
        Item::OrRule(_) => 0,
        Item::OpRule(_) => 0,
        Item::ModeRule(_) => 0,
    }
}

/// How many bits the items have.
fn all_bits(alloc: Global, names: &Names<'_>) -> Result<Vec<u128>, Memory>
    ensures { IfOk result (λ v. HasBits names.now v.items × (length v.items ≡ length names.now.items)) }
{
    let mut bits = Vec::new(alloc);
    for item in names.items() {
        let n = item_bits(names, bits.as_slice(), item);
        bits.push(n)?;
    }
    Ok(bits)
}
