//! Whether the ranks of rules rise from each rule to those that it names.

ghost use Rattle.std.specs.Prelude.{◌≡◌, ℕ, IsTrue, slice_index_or};
ghost use Rattle.graphs.specs.Graphs.{Among, IsUp, Rises};

use sqlite_items::Items;

/// The lowest rule that names one of its own rank, the length of the graph where there is none.
pub fn candidate(graph: &[Items<usize>], ranks: &[usize]) -> usize {
    for a in 0..graph.len() {
        if names_rank(graph[a].as_slice(), ranks, rank_of(ranks, a)) {
            return a;
        }
    }
    graph.len()
}

/// Whether one of these rules has this rank.
fn names_rank(names: &[usize], ranks: &[usize], rank: usize) -> bool {
    names.iter().any(|name| rank_of(ranks, *name) == rank)
}

/// A yes only where no rule names one of a lower rank, and none below the limit names one of its own.
pub fn rises(graph: &[Items<usize>], ranks: &[usize], limit: usize) -> bool
    ensures { IsTrue result → Rises graph.now ranks.now limit }
{
    for a in 0..graph.len() {
        if !all_up(graph[a].as_slice(), ranks, rank_of(ranks, a), a < limit) {
            return false;
        }
    }
    true
}

/// Whether the ranks of all these are as high as this one, or higher where it is to be strict.
fn all_up(names: &[usize], ranks: &[usize], rank: usize, strict: bool) -> bool
    ensures { IsTrue result → (b : ℕ) → Among names.now b → IsUp strict rank (slice_index_or ranks.now b 0) }
{
    for i in 0..names.len() {
        if !is_up(rank, rank_of(ranks, names[i]), strict) {
            return false;
        }
    }
    true
}

fn is_up(low: usize, high: usize, strict: bool) -> bool
    ensures { IsTrue result → IsUp strict low high }
{
    if strict { low < high } else { low <= high }
}

/// The rank of a rule; 0 beyond the list.
fn rank_of(ranks: &[usize], rule: usize) -> usize
    ensures { result ≡ slice_index_or ranks.now rule 0 }
{
    match ranks.get(rule) {
        None => 0,
        Some(rank) => *rank,
    }
}
