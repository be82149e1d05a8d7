//! What a name is declared as, what a size is, and what a type is.

ghost use Rattle.std.specs.Prelude.{◌≡◌, ◌≤◌, ◌<◌, ◌^◌, ℕ, [], length, true, Some, None, MatchOption, IfSome, option_and_then, unwrap_or};
ghost use Rattle.nml_state.specs.NamesNone.{NamesNone};
ghost use Rattle.nml_tree.specs.Table as spec;
ghost use Rattle.nml_tree.specs.Table.{Table, declared, entries, entry, natural, size_or_none, type_of, type_or_none};
ghost use Rattle.nml_tree.specs.Uses.{declares};
ghost use Rattle.nml_tree.specs.Worth.{is_type};

use nk_base::{Text, Ty};
use nml_tree::{Item, PortWord, Size, TypeExpr};

/// The name that an item declares. It takes no memory.
fn name_of(item: &Item) -> &Text
    ensures { result.now ≡ (declares item.now).text }
{
    match item {
        Item::Let(_, name, _, _, _) => &name.text,
        Item::Type(_, name, _, _) => &name.text,
        Item::Storage(storage) => &storage.name.text,
        Item::Port(port) => &port.name.text,
        Item::OrRule(rule) => &rule.name.text,
        Item::OpRule(rule) => &rule.name.text,
        Item::ModeRule(rule) => &rule.name.text,
    }
}

/// The first item that declares the name, and the items before it; `None` exactly where none declares it.
///
/// Each search goes through the items from the first one on. It takes no memory.
pub fn find<'a>(items: &'a [Item], name: &[u8]) -> Option<(&'a [Item], &'a Item)>
    ensures none { MatchOption result (declared (entries [] items.now) name.now ≡ None) (λ x. declared (entries [] items.now) name.now ≡ Some (entry (entries [] x.0.now) x.1.now).1) }
    ensures before { IfSome result (λ x. length x.0.now < length items.now) }
{
    for i in 0..items.len() {
        let item = &items[i];
        if name == name_of(item).as_bytes() {
            return Some((&items[..i], item));
        }
    }
    None
}

/// What a size is: the number that it writes, or that of the `let` that it names; 0 where that is no `let` or is negative.
///
/// It takes no memory.
pub fn natural_size(items: &[Item], size: &Size) -> u64
    ensures { result ≡ size_or_none (entries [] items.now) size.now }
{
    match size {
        Size::Number(number) => number.value,
        Size::Name(name) => match find(items, name.text.as_bytes()) {
            None => 0,
            Some((_, item)) => natural_of(item),
        },
    }
}

/// The number of a `let` that isn't negative; 0 of anything else.
fn natural_of(item: &Item) -> u64
    ensures { (t : Table) → result ≡ unwrap_or (option_and_then natural (spec.constant (entry t item.now).1)) 0 }
{
    match item {
        Item::Let(_, _, _, minus, number) => match minus {
            None => number.value,
            Some(_) => 0,
        },
        Item::Type(_, _, _, _) => 0,
        Item::Storage(_) => 0,
        Item::Port(port) => match port.word {
            PortWord::Trn(_) => 0,
            PortWord::Inp(_) => 0,
            PortWord::Out(_) => 0,
        },
        Item::OrRule(_) => 0,
        Item::OpRule(_) => 0,
        Item::ModeRule(_) => 0,
    }
}

/// The type that is written, or that of the name that stands there, where it has 1 to 64 bits; of another type nothing is said.
///
/// It takes no memory.
///
/// A name is followed from one `type` to the next before it, each found by a search from the first item on.
pub fn type_value(items: &[Item], e: &TypeExpr) -> Ty
    ensures { is_type (type_or_none (entries [] items.now) e.now) ≡ true → result ≡ type_or_none (entries [] items.now) e.now }
{
    let mut items = items;
    let mut e = e;
    while let Some((before, next)) = named(items, e) {
        items = before;
        e = next;
    }
    plain_type(items, e)
}

/// What the name of a `type` stands for: the items before that `type`, and what it writes.
fn named<'a>(items: &'a [Item], e: &'a TypeExpr) -> Option<(&'a [Item], &'a TypeExpr)>
    ensures same { IfSome result (λ x. type_or_none (entries [] items.now) e.now ≡ type_or_none (entries [] x.0.now) x.1.now) }
    ensures before { IfSome result (λ x. length x.0.now < length items.now) }
    ensures none { result ≡ None → NamesNone (entries [] items.now) e.now }
{
    match e {
        TypeExpr::Name(name) => match find(items, name.text.as_bytes()) {
            None => None,
            Some((before, item)) => match written_type(item) {
                None => None,
                Some(next) => Some((before, next)),
            },
        },
        TypeExpr::Bool(_) => None,
        TypeExpr::Card(_, _, _, _) => None,
        TypeExpr::Int(_, _, _, _) => None,
        TypeExpr::Fix(_, _, _, _, _, _) => None,
        TypeExpr::Float(_, _, _, _, _, _) => None,
    }
}

/// What a `type` writes; `None` exactly where the item is none.
fn written_type(item: &Item) -> Option<&TypeExpr>
    ensures { MatchOption result ((t : Table) → spec.type_named (entry t item.now).1 ≡ None) (λ e. (t : Table) → spec.type_named (entry t item.now).1 ≡ Some (type_or_none t e.now)) }
{
    match item {
        Item::Type(_, _, _, next) => Some(next),
        Item::Let(_, _, _, _, _) => None,
        Item::Storage(_) => None,
        Item::Port(port) => match port.word {
            PortWord::Trn(_) => None,
            PortWord::Inp(_) => None,
            PortWord::Out(_) => None,
        },
        Item::OrRule(_) => None,
        Item::OpRule(_) => None,
        Item::ModeRule(_) => None,
    }
}

/// The type that is written with its size, or that of the name that stands there.
fn plain_type(items: &[Item], e: &TypeExpr) -> Ty
    requires { NamesNone (entries [] items.now) e.now }
    ensures { is_type (type_or_none (entries [] items.now) e.now) ≡ true → result ≡ type_or_none (entries [] items.now) e.now }
{
    match e {
        TypeExpr::Bool(_) => Ty::Bool,
        TypeExpr::Card(_, _, size, _) => Ty::Card(few(natural_size(items, size))),
        TypeExpr::Int(_, _, size, _) => Ty::Int(few(natural_size(items, size))),
        TypeExpr::Fix(_, _, whole, _, part, _) => {
            Ty::Int(few(natural_size(items, whole)) + few(natural_size(items, part)))
        }
        TypeExpr::Float(_, _, _, _, _, _) => Ty::Card(0),
        TypeExpr::Name(_) => Ty::Card(0),
    }
}

/// The number, where it is 64 at most.
fn few(bits: u64) -> u32
    ensures exact { bits ≤ 64 → result ≡ bits }
    ensures few { result ≤ 65 }
{
    if bits <= 64 { bits as u32 } else { 65 }
}
