//! What sizes, types and names have to be.

ghost use Rattle.std.specs.Prelude.{◌≡◌, Option, option_map};
ghost use Rattle.nk_base.specs.declared.number.Ty.{Ty};
ghost use Rattle.nml_known.specs.Known.{known, told};
ghost use Rattle.nml_names.specs.Note.{noted};
ghost use Rattle.nml_tree.specs.Places as places;
ghost use Rattle.nml_tree.specs.Table.{Declared};
ghost use Rattle.nml_tree.specs.TypeFault as spec;
ghost use Rattle.nml_tree.specs.Worth as worth;

use nk_base::Ty;
use nml_known::Known;
use nml_names::note;
use nml_tree::TypeExpr;

/// Notes the place where the test is false.
pub fn unless(found: Option<u32>, good: bool, at: u32) -> Option<u32>
    ensures { result ≡ noted found (places.unless good at) }
{
    note(found, !good, at)
}

/// The word or the name that begins a type.
pub fn type_place(e: &TypeExpr) -> u32
    ensures { result ≡ spec.type_place e.now }
{
    match e {
        TypeExpr::Bool(at) => *at,
        TypeExpr::Card(at, _, _, _) => *at,
        TypeExpr::Int(at, _, _, _) => *at,
        TypeExpr::Fix(at, _, _, _, _, _) => *at,
        TypeExpr::Float(at, _, _, _, _, _) => *at,
        TypeExpr::Name(n) => n.at,
    }
}

/// Whether a type may have so many bits, where they are told.
pub fn has_width(width: Option<i128>) -> bool
    ensures { result ≡ spec.has_width width }
{
    match width {
        None => true,
        Some(z) => 1 <= z && z <= 64,
    }
}

/// Whether a type may have so many bits and so many, where both are told.
pub fn have_width(a: Option<i128>, b: Option<i128>) -> bool
    ensures { result ≡ spec.has_width (spec.sum_of a b) }
{
    match a {
        None => true,
        Some(x) => match b {
            None => true,
            Some(y) => match x.checked_add(y) {
                None => false,
                Some(z) => 1 <= z && z <= 64,
            },
        },
    }
}

/// Whether a `type` declares the name.
pub fn names_type(k: Option<Known>) -> bool
    ensures { (d : Option Declared) → k ≡ option_map known d → result ≡ spec.names_type d }
{
    match k {
        Some(Known::TypeName(_)) => true,
        _ => false,
    }
}

/// Whether a rule has the name.
pub fn is_rule(k: Option<Known>) -> bool
    ensures { (d : Option Declared) → k ≡ option_map known d → result ≡ worth.is_rule d }
{
    match k {
        Some(Known::Or(_)) => true,
        Some(Known::And(_)) => true,
        _ => false,
    }
}

/// Whether a rule of the name may be an alternative of a mode, or of an op.
pub fn is_rule_of(mode: bool, k: Option<Known>) -> bool
    ensures { (d : Option Declared) → k ≡ option_map known d → result ≡ spec.is_rule_of mode d }
{
    match k {
        Some(Known::Or(m)) => m == mode,
        Some(Known::And(m)) => m == mode,
        _ => false,
    }
}

/// Whether PC may be of the type.
pub fn is_pc_type(ty: Option<Ty>) -> bool
    ensures { (d : Option Ty) → ty ≡ option_map told d → result ≡ spec.is_pc_type d }
{
    match ty {
        Some(Ty::Card(n)) => 1 <= n && n <= 16,
        _ => false,
    }
}

/// Whether a port may be of the type.
pub fn is_port_type(ty: Option<Ty>) -> bool
    ensures { (d : Option Ty) → ty ≡ option_map told d → result ≡ spec.is_port_type d }
{
    match ty {
        None => true,
        Some(Ty::Bool) => false,
        Some(Ty::Card(n)) => n <= 32,
        Some(Ty::Int(n)) => n <= 32,
    }
}

/// Whether a field may be of the type.
pub fn is_field_type(ty: Option<Ty>) -> bool
    ensures { (d : Option Ty) → ty ≡ option_map told d → result ≡ spec.is_field_type d }
{
    match ty {
        Some(Ty::Bool) => false,
        _ => true,
    }
}
