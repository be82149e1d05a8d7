//! The names of a description, each with what it is declared as.

ghost use Rattle.std.specs.Prelude.{◌≡◌, [], ℕ, IfOk, List, MatchOption, Option, Some, option_map, unwrap_or};
ghost use Rattle.nk_base.specs.declared.number.Ty.{Ty};
ghost use Rattle.nml_known.specs.Known.{all_known, item_number, known, parameter_told, told};
ghost use Rattle.nml_names.specs.Below as below;
ghost use Rattle.nml_known.specs.declared.known.Parameter.TheVariants as shown;
ghost use Rattle.graphs.specs.Graphs.{IsOrder};
ghost use Rattle.nml_names.specs.Naming.{AreDeclared};
ghost use Rattle.nml_tree.specs.Reach.{CycleFault};
ghost use Rattle.nml_tree.specs.Table as spec;
ghost use Rattle.nml_tree.specs.Table.{parameter_named, table};

use crate::front;
use crate::front::{Front, entry_of};
use crate::known::{Known, Parameter};
use indexmap::IndexMap;
use nk_base::{Memory, Text, Ty};
use nml_names::{Declaration, declarations, rule_order};
use nml_tree::{Desc, Item, Size, TypeExpr};
use std::alloc::Global;
use std::marker::Model;

/// The names of a description. Each look-up takes the same time, however many names there are.
///
/// What a name is declared as is this project's own rule: of several declarations the first counts, and of a size or a type that
/// names something only what stands in front of it.
#[derive(Drop)]
pub struct Names<'a> {
    desc: &'a Desc,
    map: IndexMap<Text, Declaration>,
    known: Vec<Known>,
}

impl<'a> Model for Names<'a> {
    ghost use Rattle.std.specs.Prelude.{◌≡◌, []};
    ghost use Rattle.nml_known.specs.Known.{all_known};
    ghost use Rattle.nml_names.specs.Naming.{AreDeclared};
    ghost use Rattle.nml_tree.specs.declared.tree.Desc.{Desc};
    ghost use Rattle.nml_tree.specs.contracts.tree.Desc as d;
    ghost use Rattle.std.specs.Coded.{codes};

    ghost Value = { Desc };

    ghost coded = { Prim.hlevel (codes, d.the_row.coded) };

    ghost view = { λ n. n.desc.now };

    ghost invariant = { λ n. AreDeclared n.map.entries n.desc.now.items × (n.known.items ≡ all_known [] n.desc.now.items) };
}

impl<'a> Names<'a> {
    /// The names of the description. The one error is want of memory.
    pub fn new(alloc: Global, d: &'a Desc) -> Result<Names<'a>, Memory>
        ensures { IfOk result (λ n. n ≡ d.now) }
    {
        let items = d.items.as_slice();
        let map = declarations(alloc, items)?;
        let known = known_items(alloc, &map, items)?;
        Ok(Names {
            desc: d,
            map,
            known,
        })
    }

    /// The items of the description. It takes no memory.
    pub fn items(&self) -> &[Item]
        ensures { result.now ≡ self.now.items }
    {
        self.desc.items.as_slice()
    }

    /// The number of the first item that declares the name, from 0; `None` where none does. It takes no memory.
    pub fn number(&self, name: &Text) -> Option<usize>
        ensures { result ≡ item_number self.now name.now }
    {
        match self.map.get(name) {
            None => None,
            Some(found) => Some(found.first),
        }
    }

    /// The items, with what each declares.
    fn front(&self) -> Front<'_>
        ensures { result ≡ self.now.items }
    {
        Front {
            items: self.desc.items.as_slice(),
            map: &self.map,
            known: self.known.as_slice(),
        }
    }

    /// What the name is declared as; `None` where it isn't declared. It takes no memory.
    pub fn declared(&self, name: &Text) -> Option<Known>
        ensures { result ≡ option_map known (spec.declared (table self.now) name.now) }
    {
        front::declared(&self.front(), name)
    }

    /// The number that the size writes, or that of the `let` that it names; `None` where that is no `let`. It takes no memory.
    pub fn size_number(&self, size: &Size) -> Option<i128>
        ensures { result ≡ spec.size_number (table self.now) size.now }
    {
        front::size_number(&self.front(), size)
    }

    /// The number of the size; 0 where it names no `let`, or a negative one. It takes no memory.
    pub fn size_or_none(&self, size: &Size) -> u128
        ensures { result ≡ spec.size_or_none (table self.now) size.now }
    {
        front::size_or_none(&self.front(), size)
    }

    /// The type, of whose bits no more than 65 are told; `None` where a name or a size in it is misused, and of `float`. It takes no
    /// memory.
    pub fn type_of(&self, e: &TypeExpr) -> Option<Ty>
        ensures { result ≡ option_map told (spec.type_of (table self.now) e.now) }
    {
        front::type_of(&self.front(), e)
    }

    /// What a parameter of this type is; `None` where it is neither a field nor a part. It takes no memory.
    pub fn parameter_of(&self, e: &TypeExpr) -> Option<Parameter>
        ensures { result ≡ option_map (parameter_told self.now) (spec.parameter_of (table self.now) e.now) }
    {
        match e {
            TypeExpr::Name(name) => self.named(&name.text),
            _ => field(self.type_of(e)),
        }
    }

    /// What a parameter is whose type is a name.
    fn named(&self, name: &Text) -> Option<Parameter>
        ensures { result ≡ option_map (parameter_told self.now) (parameter_named name.now (spec.declared (table self.now) name.now)) }
    {
        match self.declared(name)? {
            Known::Or(_) => part(self.number(name)),
            Known::And(_) => part(self.number(name)),
            Known::TypeName(ty) => Some(Parameter::Field(ty)),
            Known::Constant(_) => None,
            Known::Storage(_, _) => None,
            Known::Trn(_) => None,
            Known::Inp(_) => None,
            Known::Out(_) => None,
        }
    }

    /// The numbers of all items, each behind those that it names as alternatives or parts; `None` exactly where a rule reaches itself.
    /// The one error is want of memory.
    pub fn order(&self, alloc: Global) -> Result<Option<Vec<usize>>, Memory>
        ensures { IfOk result (λ found. MatchOption found ((rule : List ℕ) × CycleFault (table self.now) rule) (λ order. IsOrder (below.graph self.now.items) order.items)) }
    {
        rule_order(alloc, &self.map, self.desc)
    }
}

/// What each of the items declares.
fn known_items(
    alloc: Global,
    map: &IndexMap<Text, Declaration>,
    items: &[Item],
) -> Result<Vec<Known>, Memory>
    requires { AreDeclared map.now.entries items.now }
    ensures { IfOk result (λ v. v.items ≡ all_known [] items.now) }
{
    let mut known = Vec::new(alloc);
    for number in 0..items.len() {
        let front = Front {
            items,
            map,
            known: known.as_slice(),
        };
        let one = entry_of(&front, &items[number]);
        known.push(one)?;
    }
    Ok(known)
}

/// A field of the type.
fn field(ty: Option<Ty>) -> Option<Parameter>
    ensures { result ≡ option_map shown.Field ty }
{
    match ty {
        None => None,
        Some(ty) => Some(Parameter::Field(ty)),
    }
}

/// A part of the rule that the item of this number declares.
fn part(number: Option<usize>) -> Option<Parameter>
    ensures { result ≡ Some (shown.Part (unwrap_or number 0)) }
{
    match number {
        None => Some(Parameter::Part(0)),
        Some(n) => Some(Parameter::Part(n)),
    }
}
