//! The beginning of a run: a program's code, and the machine before its first step.

ghost use Rattle.std.specs.Prelude.{◌≡◌, ◌≤◌, ◌+◌, ◌-◌, ◌++◌, ◌∷◌, [], ℕ, ℤ, List, pos, length, map, take, replicate, flat_map, OnOk, IfOk};
ghost use Rattle.nk_base.specs.Number.{IsWidth};
ghost use Rattle.c_tree.specs.Names.{gvars};
ghost use Rattle.c_tree.specs.Resolve.{initial, resolved};
ghost use Rattle.c_flat.specs.Written.{Falls};
ghost use Rattle.c_frames.specs.Small.{IsSmallProgram};
ghost use Rattle.c_frames.specs.Steps.{begin};
ghost use Rattle.c_machine.specs.Stands.{IsCode, config_of};
ghost use Rattle.c_eval.specs.Starts.{IsSmallValue, AreSmallValues, HasSmallValues, HaveSmallValues, BeginSmall};
ghost use Rattle.c_eval.specs.Laid as laid;
ghost use Rattle.c_eval.specs.Laid.{cells_of_global, entries_of, others_cells, main_cells, task_of, variable_cells};

use c_flat::{Body, push_bodies};
use c_machine::{Code, Entry, Machine, Task};
use c_tree::{CProg, GVar, Global as CGlobal, SNum, Vars};
use nk_base::Memory;
use std::alloc::Global;

/// An initial value.
fn initial_value(z: SNum) -> i64
    requires { IsSmallValue z }
    ensures { result ≡ initial z }
{
    let value = z.number.value as i64;
    match z.minus {
        None => value,
        Some(_) => -value,
    }
}

/// Adds this many zeros.
fn push_zeros(memory: &mut Vec<i64>, count: usize) -> Result<(), Memory>
    ensures { OnOk result (memory.new.items ≡ memory.old.items ++ replicate count (pos 0)) }
{
    for _ in 0..count {
        memory.push(0)?;
    }
    Ok(())
}

/// Adds further initial values.
fn push_values(memory: &mut Vec<i64>, rest: &[(u32, SNum)]) -> Result<(), Memory>
    requires { AreSmallValues (map (λ (comma, x). x) rest.now) }
    ensures { OnOk result (memory.new.items ≡ memory.old.items ++ map (λ (comma, x). initial x) rest.now) }
{
    for (_, one) in rest {
        memory.push(initial_value(*one))?;
    }
    Ok(())
}

/// How many cells an array of this length has.
fn cells_of(length: u64) -> usize
    ensures { result ≡ length }
{
    length as usize
}

/// The number of cells behind so many others. The one error is want of memory: there are no numbers for so many.
fn behind(cells: usize, more: u128) -> Result<usize, Memory>
    ensures { IfOk result (λ r. r ≡ cells + more) }
{
    match usize::try_from(more) {
        Err(_) => Err(Memory),
        Ok(more) => match cells.checked_add(more) {
            None => Err(Memory),
            Some(sum) => Ok(sum),
        },
    }
}

/// The first body that is `main`'s.
fn main_body(bodies: &[Body]) -> Option<Body>
    ensures { result ≡ laid.main_of bodies.now }
{
    for one in bodies {
        if one.main {
            return Some(*one);
        }
    }
    None
}

/// The functions other than `main`, with their cells from this one on, and the cell behind them.
fn lay_out(alloc: Global, bodies: &[Body], from: usize) -> Result<(Vec<Entry>, usize), Memory>
    ensures { IfOk result (λ r. (r.0.items ≡ entries_of from bodies.now) × (r.1 ≡ from + others_cells bodies.now)) }
{
    let mut entries = Vec::new(alloc);
    let mut at = from;
    for one in bodies {
        if !one.main {
            let entry = Entry {
                body: one.node,
                base: at,
            };
            entries.push(entry)?;
            at = behind(at, one.cells)?;
        }
    }
    Ok((entries, at))
}

/// Makes what stands from `from` on so many cells long: zeros come behind it, or its end is dropped.
fn fit(memory: &mut Vec<i64>, from: usize, count: usize) -> Result<(), Memory>
    requires { from ≤ length memory.old.items }
    ensures { (before init : List ℤ) → memory.old.items ≡ before ++ init → length before ≡ from → OnOk result (memory.new.items ≡ before ++ take count (init ++ replicate (count - length init) (pos 0))) }
{
    let have = memory.len() - from;
    push_zeros(memory, count.saturating_sub(have))?;
    if count < have {
        memory.truncate(from + count);
    }
    Ok(())
}

/// How many cells there are.
fn cells_in(memory: &[i64]) -> usize
    ensures { result ≡ length memory.now }
{
    memory.len()
}

/// Adds the cells of an array with its initial values, and zeros behind them.
fn push_array(
    memory: &mut Vec<i64>,
    count: usize,
    first: SNum,
    rest: &[(u32, SNum)],
) -> Result<(), Memory>
    requires first { IsSmallValue first }
    requires rest { AreSmallValues (map (λ (comma, x). x) rest.now) }
    ensures { OnOk result (memory.new.items ≡ memory.old.items ++ take count ((initial first ∷ map (λ (comma, x). initial x) rest.now) ++ replicate (count - length (initial first ∷ map (λ (comma, x). initial x) rest.now)) (pos 0))) }
{
    let from = cells_in(memory.as_slice());
    memory.push(initial_value(first))?;
    push_values(memory, rest)?;
    fit(memory, from, count)
}

/// Adds the initial values of a global variable, and zeros behind them.
fn push_variable(memory: &mut Vec<i64>, one: &GVar) -> Result<(), Memory>
    requires { HasSmallValues one.now }
    ensures { OnOk result (memory.new.items ≡ memory.old.items ++ variable_cells one.now) }
{
    match one {
        GVar::Scalar(_, value) => match value {
            None => push_zeros(memory, 1),
            Some((_, z)) => {
                memory.push(initial_value(*z))?;
                Ok(())
            }
        },
        GVar::Array(_, _, length, _, values) => match values {
            None => push_zeros(memory, cells_of(length.value)),
            Some((_, _, first, rest, _)) => {
                push_array(memory, cells_of(length.value), *first, rest.as_slice())
            }
        },
    }
}

/// Adds the cells of further global variables.
fn push_others(memory: &mut Vec<i64>, rest: &[(u32, GVar)]) -> Result<(), Memory>
    requires { HaveSmallValues (map (λ (comma, x). x) rest.now) }
    ensures { OnOk result (memory.new.items ≡ memory.old.items ++ flat_map variable_cells (map (λ (comma, x). x) rest.now)) }
{
    for (_, one) in rest {
        push_variable(memory, one)?;
    }
    Ok(())
}

/// Adds the cells of global variables that are declared together.
fn push_variables(memory: &mut Vec<i64>, vars: &Vars) -> Result<(), Memory>
    requires { HaveSmallValues (gvars vars.now) }
    ensures { OnOk result (memory.new.items ≡ memory.old.items ++ flat_map variable_cells (gvars vars.now)) }
{
    push_variable(memory, &vars.first)?;
    push_others(memory, vars.rest.as_slice())
}

/// Adds the cells of all global variables.
fn push_globals(memory: &mut Vec<i64>, globals: &[CGlobal]) -> Result<(), Memory>
    requires { BeginSmall globals.now }
    ensures { OnOk result (memory.new.items ≡ memory.old.items ++ flat_map cells_of_global globals.now) }
{
    for one in globals {
        match one {
            CGlobal::Vars(vars) => push_variables(memory, vars)?,
            CGlobal::Function(_) => {}
        }
    }
    Ok(())
}

/// How many cells `main` has.
fn cells_of_main(main: Option<Body>) -> u128
    ensures { result ≡ main_cells main }
{
    match main {
        None => 0,
        Some(body) => body.cells,
    }
}

/// What is in hand at the beginning.
fn main_task(main: Option<Body>) -> Task
    ensures { result ≡ task_of main }
{
    match main {
        None => Task::Nothing,
        Some(body) => Task::Run(body.node),
    }
}

/// The code of a program, and the machine before its first step.
///
/// The one error is want of memory, also where there are no numbers for so many cells.
pub fn start(alloc: Global, p: &CProg, turns: u64) -> Result<(Code, Machine), Memory>
    ensures bits { IfOk result (λ r. r.0.bits ≡ p.now.1) }
    ensures width { IfOk result (λ r. IsWidth r.0.bits) }
    ensures falls { IfOk result (λ r. Falls r.0.nodes.items) }
    ensures code { IfOk result (λ r. IsCode r.0 (resolved p.now.0)) }
    ensures begins { IfOk result (λ r. (n : ℕ) (input : List ℤ) → config_of (resolved p.now.0) n r.0.nodes.items input r.1 [] ≡ begin (resolved p.now.0) n input turns) }
    ensures turns { IfOk result (λ r. r.1.turns ≡ turns) }
    ensures small { IfOk result (λ r. IsSmallProgram (resolved p.now.0)) }
{
    let globals = p.tree.globals.as_slice();
    let mut nodes = Vec::new(alloc);
    let bodies = push_bodies(alloc, globals, &mut nodes)?;
    let mut memory = Vec::new(alloc);
    push_globals(&mut memory, globals)?;
    let base = cells_in(memory.as_slice());
    let main = main_body(bodies.as_slice());
    let first = behind(base, cells_of_main(main))?;
    let (functions, end) = lay_out(alloc, bodies.as_slice(), first)?;
    push_zeros(&mut memory, end - base)?;
    let code = Code {
        bits: p.n,
        nodes,
        functions,
    };
    let machine = Machine {
        task: main_task(main),
        base,
        depth: turns,
        frames: Vec::new(alloc),
        arguments: Vec::new(alloc),
        memory,
        taken: 0,
        turns,
    };
    Ok((code, machine))
}
