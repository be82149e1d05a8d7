//! Operators of two operands.
ghost use Rattle.std.specs.Prelude.{◌≡◌, ◌<◌, length, map, IfSome};
ghost use Rattle.std.specs.Option.{option_map};
ghost use Rattle.c_tree.specs.Formula.{formula, Binary};
ghost use Rattle.c_tree.specs.Level.{binary_level};
ghost use Rattle.readings.specs.Reading.{looked_up};
ghost use Rattle.c_grammar.specs.Reading.{operators};
ghost use Rattle.readings.specs.Seen.{seen};
ghost use Rattle.c_grammar.specs.Reading as spec;

use c_tree::{Bin, Expr};
use readings::Sign;
use sqlite_items::Boxed;

/// An operator in front: which, its place, its level, and what stands behind it.
#[derive(Clone, Copy)]
pub struct Turn<'t, 'a> {
    pub op: Bin,
    pub at: u32,
    pub level: usize,
    pub rest: &'t [Sign<'a>],
}

/// The operator in front, if its level is this one or a stronger one.
pub fn operator<'t, 'a>(level: usize, signs: &'t [Sign<'a>]) -> Option<Turn<'t, 'a>>
    ensures operator { option_map (λ t. (t.op, t.at, map seen t.rest.now)) result ≡ spec.operator level (map seen signs.now) }
    ensures level { IfSome result (λ t. t.level ≡ binary_level t.op) }
    ensures shorter { IfSome result (λ t. length t.rest.now < length signs.now) }
{
    let (first, rest) = signs.split_first()?;
    match *first {
        Sign::Fixed(at, text) => strong_enough(level, at, text, rest),
        Sign::Named(_, _) => None,
        Sign::Number(_, _) => None,
        Sign::Quoted(_, _) => None,
    }
}

/// The operator of this mark, if its level is this one or a stronger one, with its place and what stands behind it.
fn strong_enough<'t, 'a>(
    level: usize,
    at: u32,
    text: &[u8],
    rest: &'t [Sign<'a>],
) -> Option<Turn<'t, 'a>>
    ensures operator { option_map (λ t. (t.op, t.at, map seen t.rest.now)) result
        ≡ spec.of_level level at (map seen rest.now) (looked_up operators text.now) }
    ensures level { IfSome result (λ t. t.level ≡ binary_level t.op) }
    ensures behind { IfSome result (λ t. t.rest.now ≡ rest.now) }
{
    let op = of_mark(text)?;
    let own = level_of(op);
    if level <= own {
        Some(Turn {
            op,
            at,
            level: own,
            rest,
        })
    } else {
        None
    }
}

/// The operator of this mark.
fn of_mark(text: &[u8]) -> Option<Bin>
    ensures { result ≡ looked_up operators text.now }
{
    if text == b"||".as_slice() {
        Some(Bin::OrElse)
    } else if text == b"&&".as_slice() {
        Some(Bin::AndAlso)
    } else if text == b"|".as_slice() {
        Some(Bin::Or)
    } else if text == b"^".as_slice() {
        Some(Bin::Xor)
    } else if text == b"&".as_slice() {
        Some(Bin::And)
    } else if text == b"==".as_slice() {
        Some(Bin::Eq)
    } else if text == b"!=".as_slice() {
        Some(Bin::Ne)
    } else if text == b"<".as_slice() {
        Some(Bin::Lt)
    } else if text == b"<=".as_slice() {
        Some(Bin::Le)
    } else if text == b">".as_slice() {
        Some(Bin::Gt)
    } else if text == b">=".as_slice() {
        Some(Bin::Ge)
    } else if text == b"<<".as_slice() {
        Some(Bin::Shl)
    } else if text == b">>".as_slice() {
        Some(Bin::Shr)
    } else if text == b"+".as_slice() {
        Some(Bin::Add)
    } else if text == b"-".as_slice() {
        Some(Bin::Sub)
    } else if text == b"*".as_slice() {
        Some(Bin::Mul)
    } else {
        None
    }
}

/// How tightly the operator binds.
fn level_of(op: Bin) -> usize
    ensures { result ≡ binary_level op }
{
    match op {
        Bin::OrElse => 0,
        Bin::AndAlso => 1,
        Bin::Or => 2,
        Bin::Xor => 3,
        Bin::And => 4,
        Bin::Eq | Bin::Ne => 5,
        Bin::Lt | Bin::Le | Bin::Gt | Bin::Ge => 6,
        Bin::Shl | Bin::Shr => 7,
        Bin::Add | Bin::Sub => 8,
        Bin::Mul => 9,
    }
}

/// The operator between its two parts.
#[tactic(auto, using(c_tree::proofs::FormulaLaws::formula_laws))]
pub fn joined(op: Bin, left: Boxed<Expr>, at: u32, right: Boxed<Expr>) -> Expr
    ensures { formula result ≡ Binary op (formula left) at (formula right) }
{
    match op {
        Bin::OrElse => Expr::OrElse(left, at, right),
        Bin::AndAlso => Expr::AndAlso(left, at, right),
        Bin::Or => Expr::Or(left, at, right),
        Bin::Xor => Expr::Xor(left, at, right),
        Bin::And => Expr::And(left, at, right),
        Bin::Eq => Expr::Eq(left, at, right),
        Bin::Ne => Expr::Ne(left, at, right),
        Bin::Lt => Expr::Lt(left, at, right),
        Bin::Le => Expr::Le(left, at, right),
        Bin::Gt => Expr::Gt(left, at, right),
        Bin::Ge => Expr::Ge(left, at, right),
        Bin::Shl => Expr::Shl(left, at, right),
        Bin::Shr => Expr::Shr(left, at, right),
        Bin::Add => Expr::Add(left, at, right),
        Bin::Sub => Expr::Sub(left, at, right),
        Bin::Mul => Expr::Mul(left, at, right),
    }
}
