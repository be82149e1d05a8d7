//! What numbers and types are worth.

ghost use Rattle.std.specs.Prelude.{◌≡◌, ◌≤◌, ◌^◌, ◌-◌, ◌&&◌, nat_le, pos, negsuc, true};
ghost use Rattle.nk_base.specs.declared.number.Ty.{Ty};
ghost use Rattle.nml_tree.specs.Worth as spec;
ghost use Rattle.nml_worth.specs.Known as known;
ghost use Rattle.nml_worth.specs.Shown.{shown};

use crate::worth::{Cap, Worth, nothing, number, truth, unknown};
use nk_base::{Ty, power_of_two};
use nml_known::Known;

/// How many binary digits a number has.
fn digits(n: u128) -> u32
    ensures is { result ≡ spec.binary_digits n n }
    ensures few { result ≤ 128 }
{
    128 - n.leading_zeros()
}

/// A number, of the least width that holds it.
pub fn of_number(z: i128) -> Worth
    ensures { result ≡ shown (spec.of_number z) }
{
    if z < 0 {
        of_negative(z.unsigned_abs() - 1)
    } else {
        of_natural(z.unsigned_abs())
    }
}

fn of_negative(n: u128) -> Worth
    ensures { result ≡ shown (spec.of_number (negsuc n)) }
{
    number(u64::from(digits(n)) + 1, Cap::Uncapped)
}

fn of_natural(n: u128) -> Worth
    ensures { result ≡ shown (spec.of_number (pos n)) }
{
    number(u64::from(digits(n)) + 1, Cap::UpTo(n))
}

/// The greatest number of so many bits.
pub fn greatest_of(n: u32) -> u128
    requires { n ≤ 126 }
    ensures { result ≡ 2 ^ n - 1 }
{
    power_of_two(n).unsigned_abs() - 1
}

fn is_type(n: u32) -> bool
    ensures { result ≡ (nat_le 1 n && nat_le n 64) }
{
    1 <= n && n <= 64
}

/// A value of a type.
pub fn of_type(ty: Ty) -> Worth
    ensures { result ≡ shown (spec.of_type ty) }
{
    match ty {
        Ty::Bool => truth(),
        Ty::Card(n) => {
            if !is_type(n) {
                return unknown();
            }
            number(u64::from(n) + 1, Cap::UpTo(greatest_of(n)))
        }
        Ty::Int(n) => {
            if !is_type(n) {
                return unknown();
            }
            number(u64::from(n), Cap::Uncapped)
        }
    }
}

/// What may be assigned.
fn place(w: Worth, is_out: bool) -> Worth
    ensures { result ≡ record w { is_place = true; is_out = is_out } }
{
    Worth {
        kind: w.kind,
        width: w.width,
        cap: w.cap,
        is_place: true,
        is_out,
    }
}

/// What a declared name is worth.
pub fn of_known(k: Option<Known>) -> Worth
    ensures { result ≡ shown (known.of_known k) }
{
    match k {
        None => nothing(),
        Some(Known::Constant(z)) => of_number(z),
        Some(Known::TypeName(_)) => nothing(),
        Some(Known::Storage(_, ty)) => place(of_type(ty), false),
        Some(Known::Trn(ty)) => place(of_type(ty), false),
        Some(Known::Inp(ty)) => of_type(ty),
        Some(Known::Out(ty)) => place(of_type(ty), true),
        Some(Known::Or(_)) => nothing(),
        Some(Known::And(_)) => nothing(),
    }
}

/// Whether what is declared so may stand with an index, or without.
pub fn may_have_index(indexed: bool, k: Option<Known>) -> bool
    ensures { result ≡ known.known_index indexed k }
{
    match k {
        None => !indexed,
        Some(Known::Constant(_)) => !indexed,
        Some(Known::TypeName(_)) => !indexed,
        Some(Known::Storage(n, _)) => if indexed { n != 1 } else { n <= 1 },
        Some(Known::Trn(_)) => !indexed,
        Some(Known::Inp(_)) => !indexed,
        Some(Known::Out(_)) => !indexed,
        Some(Known::Or(_)) => !indexed,
        Some(Known::And(_)) => !indexed,
    }
}

/// Whether it is a rule.
pub fn names_rule(k: Option<Known>) -> bool
    ensures { result ≡ known.names_rule k }
{
    match k {
        None => false,
        Some(Known::Constant(_)) => false,
        Some(Known::TypeName(_)) => false,
        Some(Known::Storage(_, _)) => false,
        Some(Known::Trn(_)) => false,
        Some(Known::Inp(_)) => false,
        Some(Known::Out(_)) => false,
        Some(Known::Or(_)) => true,
        Some(Known::And(_)) => true,
    }
}
