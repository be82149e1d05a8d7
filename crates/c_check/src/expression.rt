//! The faults and calls of expressions and of simple statements.

ghost use Rattle.std.specs.Prelude.{◌≡◌, ◌+◌, ◌++◌, OnOk, ℕ, map, is_some, option_map};
ghost use Rattle.c_tree.specs.Formula.{formula, further};
ghost use Rattle.c_tree.specs.Statement.{act, index};
ghost use Rattle.c_tree.specs.Faults.{formula_faults, further_faults, further_count, first_place, is_amount, call_faults, use_faults, index_faults, act_faults, optional_faults, last_faults};
ghost use Rattle.c_tree.specs.Faults as spec;
ghost use Rattle.c_tree.specs.Names.{callee, seen};
ghost use Rattle.c_tree.specs.Recursion.{formula_callees, further_callees, callee_of, index_callees, act_callees, optional_callees, last_callees};
ghost use Rattle.c_names.specs.Shown.{names};
ghost use Rattle.c_check.specs.Note.{noted};

use crate::note::Notes;
use crate::numbers::Width;
use c_names::Scopes;
use c_tree::{Expr, Name, Simple, Target};
use nk_base::Memory;

/// The place of the expression's first token. It calls itself as deep as the expression is.
#[tactic(auto, using(c_tree::proofs::FormulaLaws::formula_laws))]
fn first_token(e: &Expr) -> u32
    ensures { result ≡ first_place (formula e.now) }
{
    match e {
        Expr::Number(number) => number.at,
        Expr::Name(name, index) => match index {
            None => name.at,
            Some((_, _, _)) => name.at,
        },
        Expr::Call(name, _, arguments, _) => match arguments {
            None => name.at,
            Some((_, _)) => name.at,
        },
        Expr::Paren(at, _, _) => *at,
        Expr::Neg(at, _) | Expr::Inv(at, _) | Expr::Not(at, _) => *at,
        Expr::OrElse(x, _, _)
        | Expr::AndAlso(x, _, _)
        | Expr::Or(x, _, _)
        | Expr::Xor(x, _, _)
        | Expr::And(x, _, _)
        | Expr::Eq(x, _, _)
        | Expr::Ne(x, _, _)
        | Expr::Lt(x, _, _)
        | Expr::Le(x, _, _)
        | Expr::Gt(x, _, _)
        | Expr::Ge(x, _, _)
        | Expr::Shl(x, _, _)
        | Expr::Shr(x, _, _)
        | Expr::Add(x, _, _)
        | Expr::Sub(x, _, _)
        | Expr::Mul(x, _, _) => first_token(x.get()),
    }
}

/// Whether the expression is a written number that a shift may be by.
#[tactic(auto, using(c_tree::proofs::FormulaLaws::formula_laws))]
fn may_be_amount(width: Width, e: &Expr) -> bool
    ensures { result ≡ is_amount width.bits (formula e.now) }
{
    match e {
        Expr::Number(number) => number.value < u64::from(width.bits),
        Expr::Name(_, index) => match index {
            None => false,
            Some((_, _, _)) => false,
        },
        Expr::Call(_, _, arguments, _) => match arguments {
            None => false,
            Some((_, _)) => false,
        },
        Expr::Paren(_, _, _) => false,
        Expr::Neg(_, _) | Expr::Inv(_, _) | Expr::Not(_, _) => false,
        Expr::OrElse(_, _, _)
        | Expr::AndAlso(_, _, _)
        | Expr::Or(_, _, _)
        | Expr::Xor(_, _, _)
        | Expr::And(_, _, _)
        | Expr::Eq(_, _, _)
        | Expr::Ne(_, _, _)
        | Expr::Lt(_, _, _)
        | Expr::Le(_, _, _)
        | Expr::Gt(_, _, _)
        | Expr::Ge(_, _, _)
        | Expr::Shl(_, _, _)
        | Expr::Shr(_, _, _)
        | Expr::Add(_, _, _)
        | Expr::Sub(_, _, _)
        | Expr::Mul(_, _, _) => false,
    }
}

/// How many arguments these are with one before them.
fn with_first(rest: &[(u32, Expr)]) -> usize
    ensures { result ≡ further_count (further (map (λ (comma, y). (comma, formula y)) rest.now)) + 1 }
{
    rest.len() + 1
}

/// Notes the amount of a shift.
fn amount(width: Width, e: &Expr, notes: &mut Notes)
    ensures { notes.new ≡ record notes.old { found = noted notes.old.found (spec.unless (is_amount width.bits (formula e.now)) (spec.BadShift (first_place (formula e.now)))) } }
{
    notes.shift_unless(may_be_amount(width, e), first_token(e));
}

/// Notes a call of this name with so many arguments.
fn call(
    scopes: &Scopes,
    name: &Name,
    arguments: usize,
    used: bool,
    notes: &mut Notes,
) -> Result<(), Memory>
    ensures found { OnOk result (notes.new.found ≡ noted notes.old.found (call_faults (callee (names scopes.now) name.now.text) arguments used name.now.at)) }
    ensures calls { OnOk result (notes.new.calls.items ≡ notes.old.calls.items ++ callee_of (callee (names scopes.now) name.now.text)) }
{
    let meaning = scopes.callee(&name.text);
    notes.called(meaning, arguments, used, name.at);
    notes.call(meaning)
}

/// Notes the faults and the calls of the expression. It calls itself as deep as the expression is.
#[cycle(expressions)]
#[tactic(auto, using(c_tree::proofs::FormulaLaws::formula_laws, crate::proofs::WalkLaws::walk_laws))]
pub fn expression(scopes: &Scopes, width: Width, e: &Expr, notes: &mut Notes) -> Result<(), Memory>
    ensures found { OnOk result (notes.new.found ≡ noted notes.old.found (formula_faults width.bits (names scopes.now) (formula e.now))) }
    ensures calls { OnOk result (notes.new.calls.items ≡ notes.old.calls.items ++ formula_callees (names scopes.now) (formula e.now)) }
{
    match e {
        Expr::Number(number) => {
            notes.literal(width, *number);
            Ok(())
        }
        Expr::Name(name, index) => match index {
            None => {
                notes.used(scopes.seen(&name.text), false, name.at);
                Ok(())
            }
            Some((_, i, _)) => {
                notes.used(scopes.seen(&name.text), true, name.at);
                expression(scopes, width, i.get(), notes)
            }
        },
        Expr::Call(name, _, arguments, _) => match arguments {
            None => call(scopes, name, 0, true, notes),
            Some((first, rest)) => {
                let others = rest.as_slice();
                call(scopes, name, with_first(others), true, notes)?;
                expression(scopes, width, first.get(), notes)?;
                further_arguments(scopes, width, others, notes)
            }
        },
        Expr::Paren(_, x, _) => expression(scopes, width, x.get(), notes),
        Expr::Neg(_, x) | Expr::Inv(_, x) | Expr::Not(_, x) => {
            expression(scopes, width, x.get(), notes)
        }
        Expr::Shl(x, _, y) | Expr::Shr(x, _, y) => {
            expression(scopes, width, x.get(), notes)?;
            expression(scopes, width, y.get(), notes)?;
            amount(width, y.get(), notes);
            Ok(())
        }
        Expr::OrElse(x, _, y)
        | Expr::AndAlso(x, _, y)
        | Expr::Or(x, _, y)
        | Expr::Xor(x, _, y)
        | Expr::And(x, _, y)
        | Expr::Eq(x, _, y)
        | Expr::Ne(x, _, y)
        | Expr::Lt(x, _, y)
        | Expr::Le(x, _, y)
        | Expr::Gt(x, _, y)
        | Expr::Ge(x, _, y)
        | Expr::Add(x, _, y)
        | Expr::Sub(x, _, y)
        | Expr::Mul(x, _, y) => {
            expression(scopes, width, x.get(), notes)?;
            expression(scopes, width, y.get(), notes)
        }
    }
}

/// Notes the faults and the calls of further arguments.
#[cycle(expressions)]
#[tactic(auto, using(c_tree::proofs::FormulaLaws::formula_laws, crate::proofs::WalkLaws::walk_laws))]
pub fn further_arguments(
    scopes: &Scopes,
    width: Width,
    rest: &[(u32, Expr)],
    notes: &mut Notes,
) -> Result<(), Memory>
    ensures found { OnOk result (notes.new.found ≡ noted notes.old.found (further_faults width.bits (names scopes.now) (further (map (λ (comma, y). (comma, formula y)) rest.now)))) }
    ensures calls { OnOk result (notes.new.calls.items ≡ notes.old.calls.items ++ further_callees (names scopes.now) (further (map (λ (comma, y). (comma, formula y)) rest.now))) }
{
    for (_, one) in rest {
        expression(scopes, width, one, notes)?;
    }
    Ok(())
}

/// Notes the faults and the calls of what is assigned.
#[tactic(auto, using(crate::proofs::WalkLaws::walk_laws))]
fn target(scopes: &Scopes, width: Width, place: &Target, notes: &mut Notes) -> Result<(), Memory>
    ensures found { OnOk result (notes.new.found ≡ noted notes.old.found (use_faults (seen (names scopes.now) place.now.name.text) (is_some (index place.now.index)) place.now.name.at ++ index_faults width.bits (names scopes.now) (index place.now.index))) }
    ensures calls { OnOk result (notes.new.calls.items ≡ notes.old.calls.items ++ index_callees (names scopes.now) (index place.now.index)) }
{
    match &place.index {
        None => {
            notes.used(scopes.seen(&place.name.text), false, place.name.at);
            Ok(())
        }
        Some((_, i, _)) => {
            notes.used(scopes.seen(&place.name.text), true, place.name.at);
            expression(scopes, width, i, notes)
        }
    }
}

/// Notes the faults and the calls of a statement without its `;`.
#[tactic(auto, using(crate::proofs::WalkLaws::walk_laws))]
pub fn simple_statement(
    scopes: &Scopes,
    width: Width,
    one: &Simple,
    notes: &mut Notes,
) -> Result<(), Memory>
    ensures found { OnOk result (notes.new.found ≡ noted notes.old.found (act_faults width.bits (names scopes.now) (act one.now))) }
    ensures calls { OnOk result (notes.new.calls.items ≡ notes.old.calls.items ++ act_callees (names scopes.now) (act one.now)) }
{
    match one {
        Simple::Assign(place, _, e) => {
            target(scopes, width, place, notes)?;
            expression(scopes, width, e, notes)
        }
        Simple::Step(place, _) => target(scopes, width, place, notes),
        Simple::Call(name, _, arguments, _) => match arguments {
            None => call(scopes, name, 0, false, notes),
            Some((first, rest)) => {
                let others = rest.as_slice();
                call(scopes, name, with_first(others), false, notes)?;
                expression(scopes, width, first, notes)?;
                further_arguments(scopes, width, others, notes)
            }
        },
    }
}

/// Notes the faults and the calls of an expression, where there is one.
#[tactic(auto, using(crate::proofs::WalkLaws::walk_laws))]
pub fn optional_expression(
    scopes: &Scopes,
    width: Width,
    e: &Option<Expr>,
    notes: &mut Notes,
) -> Result<(), Memory>
    ensures found { OnOk result (notes.new.found ≡ noted notes.old.found (optional_faults width.bits (names scopes.now) (option_map formula e.now))) }
    ensures calls { OnOk result (notes.new.calls.items ≡ notes.old.calls.items ++ optional_callees (names scopes.now) (option_map formula e.now)) }
{
    match e {
        None => Ok(()),
        Some(x) => expression(scopes, width, x, notes),
    }
}

/// Notes the faults and the calls of the last part of a `for`, where there is one.
#[tactic(auto, using(crate::proofs::WalkLaws::walk_laws))]
pub fn last_part(
    scopes: &Scopes,
    width: Width,
    last: &Option<Simple>,
    notes: &mut Notes,
) -> Result<(), Memory>
    ensures found { OnOk result (notes.new.found ≡ noted notes.old.found (last_faults width.bits (names scopes.now) (option_map act last.now))) }
    ensures calls { OnOk result (notes.new.calls.items ≡ notes.old.calls.items ++ last_callees (names scopes.now) (option_map act last.now)) }
{
    match last {
        None => Ok(()),
        Some(one) => simple_statement(scopes, width, one, notes),
    }
}
