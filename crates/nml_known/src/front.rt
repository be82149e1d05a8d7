//! Items from the front of a description, and what each of them declares.

ghost use Rattle.std.specs.Prelude.{◌≡◌, ◌+◌, [], min, pos, Option, option_and_then, option_map, slice_get};
ghost use Rattle.nk_base.specs.declared.number.Ty.{Ty};
ghost use Rattle.nml_known.specs.Known.{known, told};
ghost use Rattle.nml_tree.specs.Table as spec;
ghost use Rattle.nml_tree.specs.Table.{entries, entry, port_of};

use crate::known::Known;
use indexmap::IndexMap;
use nk_base::{Text, Ty};
use nml_names::Declaration;
use nml_tree::{Item, PortWord, RuleWord, Size, TypeExpr};
use std::marker::Model;

/// Items from the front, of which it is known what they declare.
#[derive(Drop)]
pub struct Front<'a> {
    pub items: &'a [Item],
    pub map: &'a IndexMap<Text, Declaration>,
    pub known: &'a [Known],
}

impl<'a> Model for Front<'a> {
    ghost use Rattle.std.specs.Prelude.{◌≡◌, [], List, length, take};
    ghost use Rattle.nml_known.specs.Known.{all_known};
    ghost use Rattle.nml_names.specs.Naming.{AreDeclared};
    ghost use Rattle.nml_tree.specs.declared.tree.Item.{Item};
    ghost use Rattle.nml_tree.specs.contracts.tree.Item as i;
    ghost use Rattle.std.specs.Coded.{codes};

    ghost Value = { List Item };

    ghost coded = { Prim.hlevel (codes, i.the_row.coded) };

    ghost view = { λ f. take (length f.known.now) f.items.now };

    ghost invariant = { λ f. AreDeclared f.map.now.entries f.items.now × (f.known.now ≡ all_known [] (take (length f.known.now) f.items.now)) };
}

/// What the name is declared as; `None` where none of the items declares it.
pub fn declared(f: &Front<'_>, name: &Text) -> Option<Known>
    ensures { result ≡ option_map known (spec.declared (entries [] f.now) name.now) }
{
    match f.map.get(name) {
        None => None,
        Some(found) => item_at(f.known, found.first),
    }
}

fn item_at(known: &[Known], number: usize) -> Option<Known>
    ensures { result ≡ slice_get known.now number }
{
    match known.get(number) {
        None => None,
        Some(x) => Some(*x),
    }
}

/// The number that the size writes, or that of the `let` that it names.
pub fn size_number(f: &Front<'_>, size: &Size) -> Option<i128>
    ensures { result ≡ spec.size_number (entries [] f.now) size.now }
{
    match size {
        Size::Number(number) => Some(i128::from(number.value)),
        Size::Name(name) => constant(declared(f, &name.text)),
    }
}

/// The number of a `let`.
fn constant(k: Option<Known>) -> Option<i128>
    ensures { (d : Option spec.Declared) → k ≡ option_map known d → result ≡ option_and_then spec.constant d }
{
    match k {
        Some(Known::Constant(z)) => Some(z),
        _ => None,
    }
}

/// A number that isn't negative.
fn natural(z: i128) -> Option<u128>
    ensures { result ≡ spec.natural z }
{
    if z < 0 { None } else { Some(z.unsigned_abs()) }
}

/// The number that a size comes to, where it is one.
fn size_of(f: &Front<'_>, size: &Size) -> Option<u128>
    ensures { result ≡ spec.size_of (entries [] f.now) size.now }
{
    natural(size_number(f, size)?)
}

/// The number of the size, 0 where it is misused.
pub fn size_or_none(f: &Front<'_>, size: &Size) -> u128
    ensures { result ≡ spec.size_or_none (entries [] f.now) size.now }
{
    match size_of(f, size) {
        None => 0,
        Some(n) => n,
    }
}

/// At most 65.
fn bits(n: u128) -> u32
    ensures { result ≡ min n 65 }
{
    if n < 65 { n as u32 } else { 65 }
}

/// So many bits and so many, at most 65.
fn both_bits(a: u128, b: u128) -> u32
    ensures { result ≡ min (a + b) 65 }
{
    bits(u128::from(bits(a) + bits(b)))
}

/// The type that a name stands for.
fn type_named(k: Option<Known>) -> Option<Ty>
    ensures { (d : Option spec.Declared) → k ≡ option_map known d → result ≡ option_map told (option_and_then spec.type_named d) }
{
    match k {
        Some(Known::TypeName(ty)) => Some(ty),
        _ => None,
    }
}

/// The type, of whose bits no more than 65 are told.
pub fn type_of(f: &Front<'_>, e: &TypeExpr) -> Option<Ty>
    ensures { result ≡ option_map told (spec.type_of (entries [] f.now) e.now) }
{
    match e {
        TypeExpr::Bool(_) => Some(Ty::Bool),
        TypeExpr::Card(_, _, n, _) => Some(Ty::Card(bits(size_of(f, n)?))),
        TypeExpr::Int(_, _, n, _) => Some(Ty::Int(bits(size_of(f, n)?))),
        TypeExpr::Fix(_, _, n, _, m, _) => {
            let a = size_of(f, n)?;
            Some(Ty::Int(both_bits(a, size_of(f, m)?)))
        }
        TypeExpr::Float(_, _, _, _, _, _) => None,
        TypeExpr::Name(name) => type_named(declared(f, &name.text)),
    }
}

/// The type, `card(0)` where it is misused.
fn type_or_none(f: &Front<'_>, e: &TypeExpr) -> Ty
    ensures { result ≡ told (spec.type_or_none (entries [] f.now) e.now) }
{
    match type_of(f, e) {
        None => Ty::Card(0),
        Some(ty) => ty,
    }
}

/// What `trn`, `inp` or `out` declares.
fn port(word: PortWord, ty: Ty) -> Known
    ensures { (t : spec.Table) (u : Ty) → ty ≡ told u → result ≡ known (port_of t word u) }
{
    match word {
        PortWord::Trn(_) => Known::Trn(ty),
        PortWord::Inp(_) => Known::Inp(ty),
        PortWord::Out(_) => Known::Out(ty),
    }
}

/// The number with its sign.
fn signed(minus: Option<u32>, value: u64) -> i128
    ensures { result ≡ spec.signed minus (pos value) }
{
    match minus {
        None => i128::from(value),
        Some(_) => -i128::from(value),
    }
}

fn is_mode(word: RuleWord) -> bool
    ensures { result ≡ spec.is_mode_word word }
{
    match word {
        RuleWord::Op(_) => false,
        RuleWord::Mode(_) => true,
    }
}

/// What the item declares, which stands behind these.
pub fn entry_of(f: &Front<'_>, item: &Item) -> Known
    ensures { result ≡ known (entry (entries [] f.now) item.now).1 }
{
    match item {
        Item::Let(_, _, _, minus, number) => Known::Constant(signed(*minus, number.value)),
        Item::Type(_, _, _, e) => Known::TypeName(type_or_none(f, e)),
        Item::Storage(storage) => Known::Storage(
            size_or_none(f, &storage.size),
            type_or_none(f, &storage.ty),
        ),
        Item::Port(p) => port(p.word, type_or_none(f, &p.ty)),
        Item::OrRule(rule) => Known::Or(is_mode(rule.word)),
        Item::OpRule(_) => Known::And(false),
        Item::ModeRule(_) => Known::And(true),
    }
}
