//! The lengths of a program's arrays, as numbers of n bits.

ghost use Rattle.std.specs.Prelude.{◌≡◌, ◌≤◌, ◌∷◌, [], pos, map, OnOk};
ghost use Rattle.ir_core.specs.Operator.{wrap};
ghost use Rattle.c_counted.specs.Total.{array_lengths, main_lengths, functions_lengths, program_lengths};
ghost use Rattle.c_tally.specs.Put.{Put};
ghost use Rattle.c_plan.specs.Plan.{plan_shown};

use c_plan::Plan;
use nk_base::{Memory, Ty, wrap};

/// A length, wrapped to n bits.
fn wrapped_length(n: u32, length: u64) -> i64
    requires low { 16 ≤ n }
    requires high { n ≤ 32 }
    ensures { result ≡ wrap n (pos length) }
{
    wrap(Ty::Int(n), i128::from(length)) as i64
}

/// Puts a variable's length behind the others, where the variable is an array. The one error is want of memory.
fn push_length(shape: Option<u64>, n: u32, out: &mut Vec<i64>) -> Result<(), Memory>
    requires low { 16 ≤ n }
    requires high { n ≤ 32 }
    ensures { OnOk result (Put n out.old.items out.new.items (array_lengths (shape ∷ []))) }
{
    match shape {
        None => Ok(()),
        Some(length) => {
            out.push(wrapped_length(n, length))?;
            Ok(())
        }
    }
}

/// Puts the lengths of the arrays among variables behind the others. The one error is want of memory.
fn push_lengths(shapes: &[Option<u64>], n: u32, out: &mut Vec<i64>) -> Result<(), Memory>
    requires low { 16 ≤ n }
    requires high { n ≤ 32 }
    ensures { OnOk result (Put n out.old.items out.new.items (array_lengths shapes.now)) }
{
    for shape in shapes {
        push_length(*shape, n, out)?;
    }
    Ok(())
}

/// Puts the lengths of the arrays of `main` behind the others. The one error is want of memory.
fn push_main_lengths(plan: &Plan, n: u32, out: &mut Vec<i64>) -> Result<(), Memory>
    requires low { 16 ≤ n }
    requires high { n ≤ 32 }
    ensures { OnOk result (Put n out.old.items out.new.items (main_lengths (plan_shown plan.now).main)) }
{
    match &plan.main {
        None => Ok(()),
        Some(one) => push_lengths(one.variables.as_slice(), n, out),
    }
}

/// Puts the lengths of the arrays of the other functions behind the others. The one error is want of memory.
fn push_others_lengths(plan: &Plan, n: u32, out: &mut Vec<i64>) -> Result<(), Memory>
    requires low { 16 ≤ n }
    requires high { n ≤ 32 }
    ensures { OnOk result (Put n out.old.items out.new.items (functions_lengths (plan_shown plan.now).functions)) }
{
    for one in plan.others.as_slice() {
        push_lengths(one.variables.as_slice(), n, out)?;
    }
    Ok(())
}

/// Puts the lengths of the arrays of a program whose global variables have these lengths behind the others, those of global
/// variables first, then those of `main`. The one error is want of memory.
pub(crate) fn push_all_lengths(
    plan: &Plan,
    globals: &[Option<u64>],
    n: u32,
    out: &mut Vec<i64>,
) -> Result<(), Memory>
    requires globals { globals.now ≡ map (λ v. v.shape) (plan_shown plan.now).globals }
    requires low { 16 ≤ n }
    requires high { n ≤ 32 }
    ensures { OnOk result (Put n out.old.items out.new.items (program_lengths (plan_shown plan.now))) }
{
    push_lengths(globals, n, out)?;
    push_main_lengths(plan, n, out)?;
    push_others_lengths(plan, n, out)
}
