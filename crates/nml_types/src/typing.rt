//! A description as a typed one.

ghost use Rattle.nml_names.specs.Below as below;
ghost use Rattle.graphs.specs.Graphs.{IsOrder};
ghost use Rattle.nml_tree.specs.Places.{least_of};
ghost use Rattle.nml_tree.specs.Refused.{IsFreeBelow, IsTyped, IsUntyped};
ghost use Rattle.nml_tree.specs.TypeFault.{type_fault_places};
ghost use Rattle.nml_tree.specs.WidthFault.{width_places};
ghost use Rattle.std.specs.Prelude.{◌≡◌, MatchResult};

use nml_edges::first_edge;
use nml_kinds::first_faults;
use nml_known::Names;
use nml_names::{first_cycle, first_lack, first_name_fault, first_unlinear};
use nml_tree::{Desc, DescFault, Typed};
use nml_words::first_word_fault;
use nml_worth::rule_worths;
use std::alloc::Global;

/// The description, where none of the faults N4 to N11 holds of it; else the one of the lowest number, at its first place. `DescFault`
/// names them.
///
/// A description whose rules make an image of 2^64 bits or more is answered with want of memory. The rules are this project's own.
pub fn typed(alloc: Global, d: Desc) -> Result<Typed, DescFault>
    ensures { MatchResult result (λ t. t ≡ d) (λ f. IsUntyped d f) }
{
    refuse(alloc, &d)?;
    Ok(Typed { desc: d })
}

/// Refuses a description that isn't typed.
fn refuse(alloc: Global, d: &Desc) -> Result<(), DescFault>
    ensures { MatchResult result (λ done. IsTyped d.now) (λ f. IsUntyped d.now f) }
{
    refuse_names(alloc, d)?;
    refuse_cycles(alloc, d)?;
    let names = Names::new(alloc, d)?;
    let Some(order) = names.order(alloc)? else {
        return Err(DescFault::Memory);
    };
    refuse_kinds(alloc, &names, &order)?;
    refuse_mentions(alloc, d)?;
    refuse_words(alloc, &names, &order)?;
    refuse_edges(alloc, &names, &order)?;
    refuse_lacks(d)
}

/// Refuses a fault of names.
fn refuse_names(alloc: Global, d: &Desc) -> Result<(), DescFault>
    ensures { MatchResult result (λ done. IsFreeBelow 5 d.now) (λ f. IsUntyped d.now f) }
{
    match first_name_fault(alloc, d)? {
        None => Ok(()),
        Some(at) => Err(DescFault::Name { at: u64::from(at) }),
    }
}

/// Refuses a rule that reaches itself.
fn refuse_cycles(alloc: Global, d: &Desc) -> Result<(), DescFault>
    requires { IsFreeBelow 5 d.now }
    ensures { MatchResult result (λ done. IsFreeBelow 6 d.now) (λ f. IsUntyped d.now f) }
{
    match first_cycle(alloc, d)? {
        None => Ok(()),
        Some(rule) => Err(DescFault::Cycle { rule }),
    }
}

/// Refuses a fault of kinds, and then one of widths.
fn refuse_kinds(alloc: Global, names: &Names<'_>, order: &[usize]) -> Result<(), DescFault>
    requires free { IsFreeBelow 6 names.now }
    requires order { IsOrder (below.graph names.now.items) order.now }
    ensures { MatchResult result (λ done. IsFreeBelow 8 names.now) (λ f. IsUntyped names.now f) }
{
    let worths = rule_worths(alloc, names, order)?;
    let found = first_faults(alloc, names, &worths)?;
    refuse_kind(names, found.kind)?;
    refuse_width(names, found.width)
}

/// Refuses the least place of a fault of kind.
fn refuse_kind(names: &Names<'_>, found: Option<u32>) -> Result<(), DescFault>
    requires free { IsFreeBelow 6 names.now }
    requires is { found ≡ least_of (type_fault_places names.now) }
    ensures { MatchResult result (λ done. IsFreeBelow 7 names.now) (λ f. IsUntyped names.now f) }
{
    match found {
        None => Ok(()),
        Some(at) => Err(DescFault::TypeFault { at: u64::from(at) }),
    }
}

/// Refuses the least place of a fault of width.
fn refuse_width(names: &Names<'_>, found: Option<u32>) -> Result<(), DescFault>
    requires free { IsFreeBelow 7 names.now }
    requires is { found ≡ least_of (width_places names.now) }
    ensures { MatchResult result (λ done. IsFreeBelow 8 names.now) (λ f. IsUntyped names.now f) }
{
    match found {
        None => Ok(()),
        Some(at) => Err(DescFault::Width { at: u64::from(at) }),
    }
}

/// Refuses a parameter that isn't named as often as it must be.
fn refuse_mentions(alloc: Global, d: &Desc) -> Result<(), DescFault>
    requires { IsFreeBelow 8 d.now }
    ensures { MatchResult result (λ done. IsFreeBelow 9 d.now) (λ f. IsUntyped d.now f) }
{
    match first_unlinear(alloc, d)? {
        None => Ok(()),
        Some((rule, param)) => Err(DescFault::Linear { rule, param }),
    }
}

/// Refuses words of several widths.
fn refuse_words(alloc: Global, names: &Names<'_>, order: &[usize]) -> Result<(), DescFault>
    requires free { IsFreeBelow 9 names.now }
    requires order { IsOrder (below.graph names.now.items) order.now }
    ensures { MatchResult result (λ done. IsFreeBelow 10 names.now) (λ f. IsUntyped names.now f) }
{
    match first_word_fault(alloc, names, order)? {
        None => Ok(()),
        Some(rule) => Err(DescFault::WordWidth { rule }),
    }
}

/// Refuses a syntax in which something touches.
fn refuse_edges(alloc: Global, names: &Names<'_>, order: &[usize]) -> Result<(), DescFault>
    requires free { IsFreeBelow 10 names.now }
    requires order { IsOrder (below.graph names.now.items) order.now }
    ensures { MatchResult result (λ done. IsFreeBelow 11 names.now) (λ f. IsUntyped names.now f) }
{
    match first_edge(alloc, names, order)? {
        None => Ok(()),
        Some(rule) => Err(DescFault::Edge { rule }),
    }
}

/// Refuses a description without `instruction` or `PC`.
fn refuse_lacks(d: &Desc) -> Result<(), DescFault>
    requires { IsFreeBelow 11 d.now }
    ensures { MatchResult result (λ done. IsTyped d.now) (λ f. IsUntyped d.now f) }
{
    match first_lack(d) {
        None => Ok(()),
        Some(what) => Err(DescFault::Root { what }),
    }
}
