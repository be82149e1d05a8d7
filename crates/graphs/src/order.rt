//! Whether an order has each rule behind those that it names.

ghost use Rattle.std.specs.Prelude.{◌≡◌, ◌<◌, ◌↔◌, ℕ, IfOk, IsTrue, false, length, slice_index_or};
ghost use Rattle.graphs.specs.Graphs.{IsOrder, Marked, Among};

use nk_base::Memory;
use sqlite_items::Items;
use std::alloc::Global;

/// A yes only where each rule stands in it, behind those that it names.
pub fn is_order(alloc: Global, graph: &[Items<usize>], order: &[usize]) -> Result<bool, Memory>
    ensures { IfOk result (λ yes. IsTrue yes → IsOrder graph.now order.now) }
{
    let mut placed = vec![in alloc; false; graph.len()]?;
    for i in 0..order.len() {
        let rule = order[i];
        if rule >= graph.len() || !are_placed(&placed, graph[rule].as_slice()) {
            return Ok(false);
        }
        placed[rule] = true;
    }
    Ok(all(&placed))
}

/// Whether all of these are placed.
pub fn are_placed(placed: &Vec<bool>, names: &[usize]) -> bool
    ensures { IsTrue result ↔ ((b : ℕ) → Among names.now b → Marked placed.now.items b) }
{
    for i in 0..names.len() {
        if !is_placed(placed, names[i]) {
            return false;
        }
    }
    true
}

/// Whether this rule is placed; not so beyond the marks.
pub fn is_placed(placed: &Vec<bool>, rule: usize) -> bool
    ensures { result ≡ slice_index_or placed.now.items rule false }
{
    match placed.get(rule) {
        None => false,
        Some(mark) => *mark,
    }
}

fn all(placed: &Vec<bool>) -> bool
    ensures { IsTrue result → (a : ℕ) → a < length placed.now.items → Marked placed.now.items a }
{
    for i in 0..placed.len() {
        if !placed[i] {
            return false;
        }
    }
    true
}
