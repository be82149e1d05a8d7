//! What operators make of the worth of their operands.

ghost use Rattle.std.specs.Prelude.{◌≡◌, ◌≤◌, min, unsigned_abs, ◌-ℤ◌, true, false, Some};
ghost use Rattle.nk_base.specs.declared.number.Ty.{Ty};
ghost use Rattle.nml_known.specs.Known.{told};
ghost use Rattle.nml_tree.specs.declared.operator.Bin.TheVariants as bin;
ghost use Rattle.nml_tree.specs.TypeFault as fault;
ghost use Rattle.nml_tree.specs.Worth as spec;
ghost use Rattle.nml_worth.specs.Node.{fit_of, prefix_of};
ghost use Rattle.nml_worth.specs.Shown.{seen, seen_cap, seen_kind, shown, shown_kind};

use crate::kind::Kind;
use crate::node::{Fit, Prefix};
use crate::told::{greatest_of, of_type};
use crate::worth::{Cap, Worth, amount, number, truth, wider};
use nk_base::Ty;
use nml_tree::Bin;

/// A sum or a difference.
fn sum(a: Worth, b: Worth) -> Worth
    ensures { result ≡ shown (spec.of_binary bin.Add (seen a) (seen b)) }
{
    number(wider(a, b) + 1, Cap::Uncapped)
}

fn product(a: Worth, b: Worth) -> Worth
    ensures { result ≡ shown (spec.of_binary bin.Mul (seen a) (seen b)) }
{
    number(u64::from(a.width) + u64::from(b.width), Cap::Uncapped)
}

/// No more than 128.
fn steps(c: u128) -> u64
    ensures { result ≡ min 128 c }
{
    if c < 128 { c as u64 } else { 128 }
}

fn shifted(a: Worth, b: Worth) -> Worth
    ensures { result ≡ shown (spec.of_binary bin.Shl (seen a) (seen b)) }
{
    number(u64::from(a.width) + steps(amount(b.cap)), Cap::Uncapped)
}

/// `&`, `^` or `|`.
fn bitwise(a: Worth, b: Worth) -> Worth
    ensures { result ≡ shown (spec.of_binary bin.And (seen a) (seen b)) }
{
    number(wider(a, b), Cap::Uncapped)
}

/// What an operator of two operands gives.
pub fn of_binary(op: Bin, a: Worth, b: Worth) -> Worth
    ensures { result ≡ shown (spec.of_binary op (seen a) (seen b)) }
{
    match op {
        Bin::OrElse => truth(),
        Bin::AndAlso => truth(),
        Bin::Or => bitwise(a, b),
        Bin::Xor => bitwise(a, b),
        Bin::And => bitwise(a, b),
        Bin::Eq => truth(),
        Bin::Ne => truth(),
        Bin::Lt => truth(),
        Bin::Le => truth(),
        Bin::Gt => truth(),
        Bin::Ge => truth(),
        Bin::Shl => shifted(a, b),
        Bin::Shr => number(u64::from(a.width), Cap::Uncapped),
        Bin::Add => sum(a, b),
        Bin::Sub => sum(a, b),
        Bin::Mul => product(a, b),
    }
}

/// The kind of the operands.
pub fn takes(op: Bin) -> Kind
    ensures { result ≡ shown_kind (fault.takes op) }
{
    match op {
        Bin::OrElse => Kind::Truth,
        Bin::AndAlso => Kind::Truth,
        Bin::Or => Kind::Number,
        Bin::Xor => Kind::Number,
        Bin::And => Kind::Number,
        Bin::Eq => Kind::Number,
        Bin::Ne => Kind::Number,
        Bin::Lt => Kind::Number,
        Bin::Le => Kind::Number,
        Bin::Gt => Kind::Number,
        Bin::Ge => Kind::Number,
        Bin::Shl => Kind::Number,
        Bin::Shr => Kind::Number,
        Bin::Add => Kind::Number,
        Bin::Sub => Kind::Number,
        Bin::Mul => Kind::Number,
    }
}

/// Whether it is `<<` or `>>`.
pub fn is_shift(op: Bin) -> bool
    ensures { result ≡ fault.is_shift op }
{
    match op {
        Bin::OrElse => false,
        Bin::AndAlso => false,
        Bin::Or => false,
        Bin::Xor => false,
        Bin::And => false,
        Bin::Eq => false,
        Bin::Ne => false,
        Bin::Lt => false,
        Bin::Le => false,
        Bin::Gt => false,
        Bin::Ge => false,
        Bin::Shl => true,
        Bin::Shr => true,
        Bin::Add => false,
        Bin::Sub => false,
        Bin::Mul => false,
    }
}

/// Whether a shift may be by so much.
pub fn is_amount(cap: Cap) -> bool
    ensures { result ≡ fault.is_amount (seen_cap cap) }
{
    match cap {
        Cap::UpTo(c) => c <= 63,
        Cap::Uncapped => false,
        Cap::Untold => true,
    }
}

/// What an operator of one operand gives.
pub fn of_prefix(op: Prefix, a: Worth) -> Worth
    ensures { result ≡ shown (spec.of_prefix (prefix_of op) (seen a)) }
{
    match op {
        Prefix::Neg => number(u64::from(a.width) + 1, Cap::Uncapped),
        Prefix::Inv => number(u64::from(a.width), Cap::Uncapped),
        Prefix::Not => truth(),
    }
}

/// The kind of the operand.
pub fn prefix_takes(op: Prefix) -> Kind
    ensures { result ≡ shown_kind (fault.prefix_takes (prefix_of op)) }
{
    match op {
        Prefix::Neg => Kind::Number,
        Prefix::Inv => Kind::Number,
        Prefix::Not => Kind::Truth,
    }
}

/// At most 65.
fn bits(n: u128) -> u32
    ensures { result ≡ min n 65 }
{
    if n < 65 { n as u32 } else { 65 }
}

/// The type that the number is fitted into, of whose bits no more than 65 are told.
fn of_fit(fit: Fit, n: u128) -> Ty
    ensures { result ≡ told (spec.of_fit (fit_of fit) n) }
{
    match fit {
        Fit::Int => Ty::Int(bits(n)),
        Fit::Card => Ty::Card(bits(n)),
        Fit::Sat => Ty::Int(bits(n)),
    }
}

/// A number, whatever else is known of it.
fn as_number(w: Worth) -> Worth
    ensures { result ≡ record w { kind = shown_kind spec.Number } }
{
    Worth {
        kind: Kind::Number,
        width: w.width,
        cap: w.cap,
        is_place: w.is_place,
        is_out: w.is_out,
    }
}

/// What fitting into a type of so many bits gives.
#[tactic(auto, using(crate::proofs::Kept::type_told))]
pub fn fitted(fit: Fit, n: u128) -> Worth
    ensures { result ≡ shown (spec.as_number (spec.of_type (spec.of_fit (fit_of fit) n))) }
{
    as_number(of_type(of_fit(fit, n)))
}

/// What stands between parentheses isn't a place.
pub fn read(w: Worth) -> Worth
    ensures { result ≡ record w { is_place = false; is_out = false } }
{
    Worth {
        kind: w.kind,
        width: w.width,
        cap: w.cap,
        is_place: false,
        is_out: false,
    }
}

/// Whether the bits from one number to another, the highest first, are a run of 64 at most, none of them above 126.
fn are_bits(high: i128, low: i128) -> bool
    ensures { result ≡ spec.are_bits high low }
{
    low <= high && high <= 126 && high <= low + 63
}

/// A run of so many bits and one.
fn of_run(n: u32) -> Worth
    requires { n ≤ 63 }
    ensures { result ≡ shown (spec.of_run n) }
{
    number(u64::from(n) + 2, Cap::UpTo(greatest_of(n + 1)))
}

/// How far the lowest bit is from the highest.
fn length(high: i128, low: i128) -> u32
    requires { spec.are_bits high low ≡ true }
    ensures is { result ≡ unsigned_abs (high -ℤ low) }
    ensures few { result ≤ 63 }
{
    (high - low).unsigned_abs() as u32
}

/// What `bits` gives between two bounds that are told.
fn of_told(high: i128, low: i128) -> Worth
    ensures { result ≡ shown (spec.of_bits (Some high) (Some low)) }
{
    if are_bits(high, low) {
        return of_run(length(high, low));
    }
    number(0, Cap::Untold)
}

/// What `bits` gives between these bounds.
pub fn of_bits(high: Option<i128>, low: Option<i128>) -> Worth
    ensures { result ≡ shown (spec.of_bits high low) }
{
    match high {
        None => number(0, Cap::Untold),
        Some(h) => match low {
            None => number(0, Cap::Untold),
            Some(l) => of_told(h, l),
        },
    }
}

/// Whether there are such bits, where both bounds are told.
pub fn has_bounds(high: Option<i128>, low: Option<i128>) -> bool
    ensures { result ≡ fault.has_bounds high low }
{
    match high {
        None => true,
        Some(h) => match low {
            None => true,
            Some(l) => are_bits(h, l),
        },
    }
}
