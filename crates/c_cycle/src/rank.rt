//! Ranks of functions by which a graph of calls is seen to have no cycle, or where its first one is.

ghost use Rattle.std.specs.Prelude.{◌≡◌, ◌<◌, ℕ, IsTrue, length, MatchOption};
ghost use Rattle.c_tree.specs.Recursion.{Among};
ghost use Rattle.c_cycle.specs.Search.{IsRanked, IsStrict, AreStrictBelow, rank};

use crate::reach::item;
use sqlite_items::Items;

/// Whether all of these that are functions have a rank below the limit.
fn are_below(ranks: &Vec<usize>, row: &[usize], limit: usize) -> bool
    ensures { IsTrue result → (y : ℕ) → Among row.now y → y < length ranks.now.items → rank ranks.now.items y < limit }
{
    for i in 0..row.len() {
        let y = row[i];
        if y < ranks.len() && item(ranks, y) >= limit {
            return false;
        }
    }
    true
}

/// Whether no function calls one of a higher rank.
pub fn ranks_fall(graph: &[Items<usize>], ranks: &Vec<usize>) -> bool
    requires { length ranks.now.items ≡ length graph.now }
    ensures { IsTrue result → IsRanked graph.now ranks.now.items }
{
    for x in 0..graph.len() {
        if !are_below(ranks, graph[x].as_slice(), item(ranks, x).saturating_add(1)) {
            return false;
        }
    }
    true
}

/// The first function that calls one of its own rank or a higher one.
pub fn first_level(graph: &[Items<usize>], ranks: &Vec<usize>) -> Option<usize>
    requires { length ranks.now.items ≡ length graph.now }
    ensures strict { MatchOption result (AreStrictBelow graph.now ranks.now.items (length graph.now)) (λ a. AreStrictBelow graph.now ranks.now.items a) }
    ensures within { MatchOption result (Unit {0}) (λ a. a < length graph.now) }
{
    for x in 0..graph.len() {
        if !are_below(ranks, graph[x].as_slice(), item(ranks, x)) {
            return Some(x);
        }
    }
    None
}
