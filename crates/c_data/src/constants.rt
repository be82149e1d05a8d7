//! How many different numbers and how many arrays a program has.

ghost use Rattle.std.specs.Prelude.{◌≡◌, ◌≤◌, ◌<◌, ◌∷◌, [], pos, negsuc, map, length, All, IfSome, IfOk, OnOk};
ghost use Rattle.c_flat.specs.Written.{Falls};
ghost use Rattle.c_counted.specs.Total.{main_numbers, functions_numbers, program_numbers};
ghost use Rattle.c_tally.specs.Put.{Put};
ghost use Rattle.c_plan.specs.Plan.{plan_shown};
ghost use Rattle.c_data.specs.Totals.{constants_of};

use crate::lengths::push_all_lengths;
use c_order::in_order;
use c_plan::Plan;
use c_tally::push_numbers;
use nk_base::Memory;
use std::alloc::Global;

/// How many different numbers a program's statements need, and how many arrays it has.
///
/// The form is this project's own.
#[derive(Clone, Copy)]
pub(crate) struct Constants {
    pub different: u64,
    pub arrays: u64,
}

/// The numbers of every program: -1, 0 and 1. The one error is want of memory.
fn first_numbers(alloc: Global) -> Result<Vec<i64>, Memory>
    ensures { IfOk result (λ numbers. numbers.items ≡ negsuc 0 ∷ pos 0 ∷ pos 1 ∷ []) }
{
    let mut numbers = Vec::new(alloc);
    numbers.push(-1)?;
    numbers.push(0)?;
    numbers.push(1)?;
    Ok(numbers)
}

/// Puts the numbers in the statements of `main` behind the others. The one error is want of memory.
fn push_main_numbers(plan: &Plan, n: u32, out: &mut Vec<i64>) -> Result<(), Memory>
    requires falls { Falls plan.now.nodes.items }
    requires main { IfSome plan.now.main (λ r. r.body < length plan.now.nodes.items) }
    requires low { 16 ≤ n }
    requires high { n ≤ 32 }
    ensures { OnOk result (Put n out.old.items out.new.items (main_numbers (plan_shown plan.now).main)) }
{
    match &plan.main {
        None => Ok(()),
        Some(one) => push_numbers(plan.nodes.as_slice(), true, one.body, n, out),
    }
}

/// Puts the numbers in the statements of the other functions behind the others. The one error is want of memory.
fn push_others_numbers(plan: &Plan, n: u32, out: &mut Vec<i64>) -> Result<(), Memory>
    requires falls { Falls plan.now.nodes.items }
    requires others { All (λ r. r.body < length plan.now.nodes.items) plan.now.others.items }
    requires low { 16 ≤ n }
    requires high { n ≤ 32 }
    ensures { OnOk result (Put n out.old.items out.new.items (functions_numbers (plan_shown plan.now).functions)) }
{
    for one in plan.others.as_slice() {
        push_numbers(plan.nodes.as_slice(), false, one.body, n, out)?;
    }
    Ok(())
}

/// Puts the numbers in a program's statements behind the others, those of `main` first. The one error is want of memory.
fn push_all_numbers(plan: &Plan, n: u32, out: &mut Vec<i64>) -> Result<(), Memory>
    requires falls { Falls plan.now.nodes.items }
    requires main { IfSome plan.now.main (λ r. r.body < length plan.now.nodes.items) }
    requires others { All (λ r. r.body < length plan.now.nodes.items) plan.now.others.items }
    requires low { 16 ≤ n }
    requires high { n ≤ 32 }
    ensures { OnOk result (Put n out.old.items out.new.items (program_numbers (plan_shown plan.now))) }
{
    push_main_numbers(plan, n, out)?;
    push_others_numbers(plan, n, out)
}

/// How many numbers these are.
fn how_many(numbers: &[i64]) -> u64
    ensures { result ≡ length numbers.now }
{
    numbers.len() as u64
}

/// How many different numbers and how many arrays a program has whose global variables have these lengths. The one error is want
/// of memory.
pub(crate) fn count_constants(
    alloc: Global,
    plan: &Plan,
    globals: &[Option<u64>],
    n: u32,
) -> Result<Constants, Memory>
    requires falls { Falls plan.now.nodes.items }
    requires main { IfSome plan.now.main (λ r. r.body < length plan.now.nodes.items) }
    requires others { All (λ r. r.body < length plan.now.nodes.items) plan.now.others.items }
    requires globals { globals.now ≡ map (λ v. v.shape) (plan_shown plan.now).globals }
    requires low { 16 ≤ n }
    requires high { n ≤ 32 }
    ensures { IfOk result (λ c. c ≡ constants_of (plan_shown plan.now) n) }
{
    let mut numbers = first_numbers(alloc)?;
    push_all_lengths(plan, globals, n, &mut numbers)?;
    let arrays = how_many(numbers.as_slice()) - 3;
    push_all_numbers(plan, n, &mut numbers)?;
    let different = in_order(numbers)?;
    Ok(Constants {
        different: how_many(different.as_slice()),
        arrays,
    })
}
