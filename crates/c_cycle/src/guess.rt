//! Ranks of functions such that those on a cycle share one, and others call lower ones. They are only a guess: `rank`
//! checks them.

use nk_base::Memory;
use sqlite_items::Items;
use std::alloc::Global;

/// What a walk through the calls knows, with numbers from 1 on and 0 for none.
#[derive(Drop)]
struct Walk {
    /// When each function was met.
    met: Vec<usize>,
    /// The earliest that is known to be reached from it and to reach it.
    low: Vec<usize>,
    /// Its rank, once it has one.
    rank: Vec<usize>,
    /// Those that have no rank yet, in the order in which they were met.
    open: Vec<usize>,
    clock: usize,
    ranks: usize,
}

/// A number of a list, or 0.
fn at(list: &Vec<usize>, index: usize) -> usize {
    match list.get(index) {
        None => 0,
        Some(value) => *value,
    }
}

/// Puts a number into a list, where it has a place.
fn put(list: &mut Vec<usize>, index: usize, value: usize) {
    if index < list.len() {
        list[index] = value;
    }
}

impl Walk {
    /// Meets a function.
    fn meet(&mut self, function: usize) -> Result<(), Memory> {
        self.clock = self.clock.saturating_add(1);
        put(&mut self.met, function, self.clock);
        put(&mut self.low, function, self.clock);
        self.open.push(function)?;
        Ok(())
    }

    /// The function reaches one that was met so early.
    fn lower(&mut self, function: usize, low: usize) {
        if low < at(&self.low, function) {
            put(&mut self.low, function, low);
        }
    }

    /// All calls of the function were walked: where it reaches none before it, it and those met since share a rank.
    fn close(&mut self, function: usize) {
        if at(&self.low, function) != at(&self.met, function) {
            return;
        }
        self.ranks = self.ranks.saturating_add(1);
        for _ in 0..usize::MAX {
            let Some(last) = self.open.pop() else {
                break;
            };
            put(&mut self.rank, last, self.ranks);
            if last == function {
                break;
            }
        }
    }
}

/// One call of the function on top of the stack, or its end.
fn walk_on(
    graph: &[Items<usize>],
    walk: &mut Walk,
    stack: &mut Vec<(usize, usize)>,
    function: usize,
    next: usize,
) -> Result<(), Memory> {
    if function >= graph.len() {
        return Ok(());
    }
    match graph[function].get(next) {
        None => {
            walk.close(function);
            if let Some((caller, _)) = stack.last() {
                let low = at(&walk.low, function);
                walk.lower(*caller, low);
            }
            Ok(())
        }
        Some(called) => {
            stack.push((function, next.saturating_add(1)))?;
            if *called >= graph.len() {
                return Ok(());
            }
            if at(&walk.met, *called) == 0 {
                walk.meet(*called)?;
                stack.push((*called, 0))?;
            } else if at(&walk.rank, *called) == 0 {
                let met = at(&walk.met, *called);
                walk.lower(function, met);
            }
            Ok(())
        }
    }
}

/// A rank for each function, by a walk downwards from each.
pub fn guess(alloc: Global, graph: &[Items<usize>]) -> Result<Vec<usize>, Memory> {
    let count = graph.len();
    let mut walk = Walk {
        met: vec![in alloc; 0; count]?,
        low: vec![in alloc; 0; count]?,
        rank: vec![in alloc; 0; count]?,
        open: Vec::new(alloc),
        clock: 0,
        ranks: 0,
    };
    let mut stack: Vec<(usize, usize)> = Vec::new(alloc);
    for root in 0..count {
        if at(&walk.met, root) == 0 {
            walk.meet(root)?;
            stack.push((root, 0))?;
        }
        for _ in 0..usize::MAX {
            let Some((function, next)) = stack.pop() else {
                break;
            };
            walk_on(graph, &mut walk, &mut stack, function, next)?;
        }
    }
    Ok(walk.rank)
}
