//! An order of the rules where none reaches itself: what is left where the order that was guessed is none.

ghost use Rattle.std.specs.Prelude.{◌≡◌, ◌<◌, ◌≤◌, ℕ, IfOk, IsTrue, OnOk, length, false};
ghost use Rattle.graphs.specs.Graphs.{Among, Edge, InRange, IsOrder, Marked, Ordering, Reaches};

use crate::order::{are_placed, is_placed};
use nk_base::Memory;
use sqlite_items::Items;
use std::alloc::Global;

/// All rules, each behind those that it names. `Memory` where there is none for a mark a rule and the order; no other answer is free.
pub fn settled(alloc: Global, graph: &[Items<usize>]) -> Result<Vec<usize>, Memory>
    requires range { InRange graph.now }
    requires free { (a : ℕ) → Reaches graph.now a a → ⊥ }
    ensures { IfOk result (λ order. IsOrder graph.now order.items) }
{
    let mut placed = vec![in alloc; false; graph.len()]?;
    let mut order = Vec::new(alloc);
    for round in 0..usize::MAX {
        let before = order.len();
        pass(graph, &mut placed, &mut order)?;
        if order.len() == before {
            return Ok(order);
        }
    }
    Ok(order)
}

/// Places each rule in turn that isn't placed, and names only placed ones.
fn pass(
    graph: &[Items<usize>],
    placed: &mut Vec<bool>,
    order: &mut Vec<usize>,
) -> Result<(), Memory>
    requires { Ordering graph.now order.old.items placed.old.items (length order.old.items) }
    ensures ordering { OnOk result (Ordering graph.now order.new.items placed.new.items (length order.new.items)) }
    ensures longer { OnOk result (length order.old.items ≤ length order.new.items) }
    ensures stuck { OnOk result (length order.new.items ≡ length order.old.items → (a : ℕ) → a < length graph.now → ((b : ℕ) → Edge graph.now a b → Marked placed.new.items b) → Marked placed.new.items a) }
{
    for a in 0..graph.len() {
        if is_ready(placed, a, graph[a].as_slice()) {
            order.push(a)?;
            placed[a] = true;
        }
    }
    Ok(())
}

/// Whether a rule isn't placed, but all that it names.
fn is_ready(placed: &Vec<bool>, rule: usize, names: &[usize]) -> bool
    ensures yes { IsTrue result → (b : ℕ) → Among names.now b → Marked placed.now.items b }
    ensures no { result ≡ false → ((b : ℕ) → Among names.now b → Marked placed.now.items b) → Marked placed.now.items rule }
{
    !is_placed(placed, rule) && are_placed(placed, names)
}
