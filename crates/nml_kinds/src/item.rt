//! The faults in items.

ghost use Rattle.std.specs.Prelude.{◌≡◌, IfOk};
ghost use Rattle.nml_names.specs.Note.{noted};
ghost use Rattle.nml_tree.specs.Table.{table};
ghost use Rattle.nml_tree.specs.TypeFault as kinds;
ghost use Rattle.nml_tree.specs.WidthFault as widths;
ghost use Rattle.nml_worth.specs.Around.{AreWorths};
ghost use Rattle.nml_kinds.specs.Items as spec;

use crate::alternative::or_rule;
use crate::faults::Faults;
use crate::rule::{Given, mode_rule, op_rule};
use crate::ty::{pc, port, size, ty};
use nk_base::Memory;
use nml_known::Names;
use nml_tree::{Item, Port, Storage};
use std::alloc::Global;

/// Notes the least fault of kind of a storage.
#[tactic(auto, using(nml_names::proofs::Notes::noted_append))]
fn storage(names: &Names<'_>, s: &Storage, found: Option<u32>) -> Option<u32>
    ensures { result ≡ noted found (spec.storage_kinds (table names.now) s.now) }
{
    let found = size(names, 1, &s.size, found);
    let found = ty(names, &s.ty, found);
    pc(names, s, found)
}

/// Notes the least fault of kind of a transitory or a port.
#[tactic(auto, using(nml_names::proofs::Notes::noted_append))]
fn any_port(names: &Names<'_>, p: &Port, found: Option<u32>) -> Option<u32>
    ensures { result ≡ noted found (spec.port_kinds (table names.now) p.now) }
{
    port(names, p.word, &p.ty, ty(names, &p.ty, found))
}

/// This place of a fault of kind, and that of one of width as before.
fn with_kind(kind: Option<u32>, found: Faults) -> Faults
    ensures kind { result.kind ≡ kind }
    ensures width { result.width ≡ found.width }
{
    Faults {
        kind,
        width: found.width,
    }
}

/// Notes the least faults of the item.
pub fn item(alloc: Global, g: &Given<'_>, i: &Item, found: Faults) -> Result<Faults, Memory>
    requires worths { AreWorths g.now.names.now g.now.worths.now }
    requires widths { g.now.widths.now ≡ g.now.names.now }
    ensures kind { IfOk result (λ f. f.kind ≡ noted found.kind (kinds.item_places (table g.now.names.now) i.now)) }
    ensures width { IfOk result (λ f. f.width ≡ noted found.width (widths.item_widths (table g.now.names.now) i.now)) }
{
    match i {
        Item::Let(_, _, _, _, _) => Ok(found),
        Item::Type(_, _, _, e) => Ok(with_kind(ty(g.names, e, found.kind), found)),
        Item::Storage(s) => Ok(with_kind(storage(g.names, s, found.kind), found)),
        Item::Port(p) => Ok(with_kind(any_port(g.names, p, found.kind), found)),
        Item::OrRule(r) => Ok(with_kind(or_rule(g.names, g.worths, r, found.kind), found)),
        Item::OpRule(r) => op_rule(alloc, g, r, found),
        Item::ModeRule(r) => mode_rule(alloc, g, r, found),
    }
}
