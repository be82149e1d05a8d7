//! Sizes, types, PC, ports and parameters.

ghost use Rattle.std.specs.Prelude.{◌≡◌, ◌++◌, flat_map};
ghost use Rattle.nml_kinds.specs.Parts.{further};
ghost use Rattle.nml_names.specs.Note.{noted};
ghost use Rattle.nml_tree.specs.Places as places;
ghost use Rattle.nml_tree.specs.Table.{pars_of, size_number, table, type_of};
ghost use Rattle.nml_tree.specs.TypeFault as spec;

use crate::declared::{
    has_width, have_width, is_field_type, is_pc_type, is_port_type, is_rule, names_type,
    type_place, unless,
};
use nml_known::Names;
use nml_names::note;
use nml_tree::{Par, Pars, PortWord, Size, Storage, TypeExpr};
use nml_worth::{is_within, size_place};

/// The greatest size.
const MOST: u32 = 65536;

/// Notes the size where it isn't from the least that it may be to 65,536.
pub fn size(names: &Names<'_>, least: u32, n: &Size, found: Option<u32>) -> Option<u32>
    ensures { result ≡ noted found (spec.size_places (table names.now) least n.now) }
{
    unless(
        found,
        is_within(least, MOST, names.size_number(n)),
        size_place(n),
    )
}

/// Notes the least fault of the type.
#[tactic(auto, using(nml_names::proofs::Notes::noted_append))]
pub fn ty(names: &Names<'_>, e: &TypeExpr, found: Option<u32>) -> Option<u32>
    ensures { result ≡ noted found (spec.type_places (table names.now) e.now) }
{
    match e {
        TypeExpr::Bool(_) => found,
        TypeExpr::Card(at, _, n, _) => one_size(names, *at, n, found),
        TypeExpr::Int(at, _, n, _) => one_size(names, *at, n, found),
        TypeExpr::Fix(at, _, n, _, m, _) => {
            let good = have_width(names.size_number(n), names.size_number(m));
            size(names, 0, m, size(names, 1, n, unless(found, good, *at)))
        }
        TypeExpr::Float(at, _, _, _, _, _) => note(found, true, *at),
        TypeExpr::Name(n) => unless(found, names_type(names.declared(&n.text)), n.at),
    }
}

/// The same for a type of one size, at this place.
#[tactic(auto, using(nml_names::proofs::Notes::noted_append))]
fn one_size(names: &Names<'_>, at: u32, n: &Size, found: Option<u32>) -> Option<u32>
    ensures { result ≡ noted found (places.unless (spec.has_width (size_number (table names.now) n.now)) at ++ spec.size_places (table names.now) 1 n.now) }
{
    size(
        names,
        1,
        n,
        unless(found, has_width(names.size_number(n)), at),
    )
}

/// Notes PC where it has another size or type than it must have.
pub fn pc(names: &Names<'_>, s: &Storage, found: Option<u32>) -> Option<u32>
    ensures { result ≡ noted found (spec.pc_places (table names.now) s.now) }
{
    let right = is_within(1, 1, names.size_number(&s.size)) && is_pc_type(names.type_of(&s.ty));
    note(
        found,
        s.name.text.as_bytes() == b"PC".as_slice() && !right,
        s.name.at,
    )
}

/// Notes the type of an `inp` or an `out` where it may not be one.
pub fn port(names: &Names<'_>, word: PortWord, e: &TypeExpr, found: Option<u32>) -> Option<u32>
    ensures { result ≡ noted found (spec.port_places (table names.now) word e.now) }
{
    match word {
        PortWord::Trn(_) => found,
        PortWord::Inp(_) => port_type(names, e, found),
        PortWord::Out(_) => port_type(names, e, found),
    }
}

fn port_type(names: &Names<'_>, e: &TypeExpr, found: Option<u32>) -> Option<u32>
    ensures { result ≡ noted found (places.unless (spec.is_port_type (type_of (table names.now) e.now)) (spec.type_place e.now)) }
{
    unless(found, is_port_type(names.type_of(e)), type_place(e))
}

/// Whether the type is the name of a rule.
fn is_part_type(names: &Names<'_>, e: &TypeExpr) -> bool
    ensures { result ≡ spec.is_part_type (table names.now) e.now }
{
    match e {
        TypeExpr::Name(n) => is_rule(names.declared(&n.text)),
        _ => false,
    }
}

/// Notes the least fault of the parameter.
#[tactic(auto, using(nml_names::proofs::Notes::noted_append))]
fn parameter(names: &Names<'_>, p: &Par, found: Option<u32>) -> Option<u32>
    ensures { result ≡ noted found (spec.parameter_places (table names.now) p.now) }
{
    if is_part_type(names, &p.ty) {
        return found;
    }
    let found = ty(names, &p.ty, found);
    unless(
        found,
        is_field_type(names.type_of(&p.ty)),
        type_place(&p.ty),
    )
}

/// Notes the least fault of further parameters.
#[tactic(auto, using(nml_names::proofs::Notes::noted_append))]
fn further_parameters(names: &Names<'_>, rest: &[(u32, Par)], found: Option<u32>) -> Option<u32>
    ensures { result ≡ noted found (flat_map (spec.parameter_places (table names.now)) (further rest.now)) }
{
    let mut found = found;
    for (_, p) in rest {
        found = parameter(names, p, found);
    }
    found
}

/// Notes the least fault of the parameters.
#[tactic(auto, using(nml_names::proofs::Notes::noted_append))]
pub fn parameters(names: &Names<'_>, pars: &Option<Pars>, found: Option<u32>) -> Option<u32>
    ensures { result ≡ noted found (flat_map (spec.parameter_places (table names.now)) (pars_of pars.now)) }
{
    match pars {
        None => found,
        Some(ps) => {
            let found = parameter(names, &ps.first, found);
            further_parameters(names, ps.rest.as_slice(), found)
        }
    }
}
