//! A walk over the rules: an order of them, each behind those that it names, where there is one, and their ranks. Both are only guesses:
//! `order` and `rank` check them.

use nk_base::Memory;
use sqlite_items::Items;
use std::alloc::Global;

/// What the walk found.
#[derive(Drop)]
pub struct Guessed {
    /// Each rule behind those that it names, where no rule reaches itself.
    pub order: Vec<usize>,
    /// The rank of each rule: equal where two rules reach one another, else higher for the rule that is reached.
    pub ranks: Vec<usize>,
}

/// A rule in which the walk is, how many of the numbers that it names are done, and the mark that it had at first.
#[derive(Drop)]
struct Visit {
    rule: usize,
    done: usize,
    mark: usize,
}

/// A walk downwards, which finds the components of rules that reach one another.
///
/// The mark of a rule is 0 before it is met; then the lowest of the marks that it is known to reach; at last, once its component is
/// closed, the component's rank, which is above all those marks.
#[derive(Drop)]
struct Walk {
    marks: Vec<usize>,
    /// The visits that are under way, the innermost last.
    visits: Vec<Visit>,
    /// The rules that were left, but whose component isn't closed.
    open: Vec<usize>,
    order: Vec<usize>,
    /// The last mark that was given out.
    mark: usize,
    /// The rank of the next component.
    rank: usize,
}

/// Walks from each rule in turn; a rule is put into the order when all that it names was walked.
pub fn guess(alloc: Global, graph: &[Items<usize>]) -> Result<Guessed, Memory> {
    let mut walk = Walk {
        marks: vec![in alloc; 0; graph.len()]?,
        visits: Vec::new(alloc),
        open: Vec::new(alloc),
        order: Vec::new(alloc),
        mark: 0,
        rank: usize::MAX,
    };
    for root in 0..graph.len() {
        if walk.mark_of(root) == 0 {
            walk.enter(root)?;
            walk.finish(graph)?;
        }
    }
    Ok(Guessed {
        order: walk.order,
        ranks: walk.marks,
    })
}

impl Walk {
    /// The mark of a rule; that of a number beyond the graph changes nothing.
    fn mark_of(&self, rule: usize) -> usize {
        match self.marks.get(rule) {
            None => usize::MAX,
            Some(mark) => *mark,
        }
    }

    fn set_mark(&mut self, rule: usize, mark: usize) {
        if rule < self.marks.len() {
            self.marks[rule] = mark;
        }
    }

    /// Lowers the mark of a rule to one that it reaches.
    fn lower(&mut self, rule: usize, mark: usize) {
        if mark < self.mark_of(rule) {
            self.set_mark(rule, mark);
        }
    }

    /// Begins the visit of a rule that isn't met yet.
    fn enter(&mut self, rule: usize) -> Result<(), Memory> {
        self.mark = self.mark.saturating_add(1);
        let mark = self.mark;
        self.set_mark(rule, mark);
        self.visits.push(Visit {
            rule,
            done: 0,
            mark,
        })?;
        Ok(())
    }

    /// Goes on until no visit is under way.
    fn finish(&mut self, graph: &[Items<usize>]) -> Result<(), Memory> {
        for _ in 0..usize::MAX {
            let Some(visit) = self.visits.pop() else {
                break;
            };
            self.step(graph, visit)?;
        }
        Ok(())
    }

    /// Goes on at the innermost visit.
    fn step(&mut self, graph: &[Items<usize>], visit: Visit) -> Result<(), Memory> {
        match named(graph, visit.rule, visit.done) {
            None => self.leave(visit),
            Some(below) => {
                self.visits.push(Visit {
                    rule: visit.rule,
                    done: visit.done.saturating_add(1),
                    mark: visit.mark,
                })?;
                let mark = self.mark_of(below);
                if mark == 0 {
                    return self.enter(below);
                }
                self.lower(visit.rule, mark);
                Ok(())
            }
        }
    }

    /// Ends a visit: closes the component where no rule met before it is reached, and tells the rule from which it was entered.
    fn leave(&mut self, visit: Visit) -> Result<(), Memory> {
        self.order.push(visit.rule)?;
        if self.mark_of(visit.rule) == visit.mark {
            self.close(visit.rule, visit.mark);
        } else {
            self.open.push(visit.rule)?;
        }
        let mark = self.mark_of(visit.rule);
        if let Some(above) = self.visits.last() {
            let rule = above.rule;
            self.lower(rule, mark);
        }
        Ok(())
    }

    /// Gives the next rank to a rule and to the open rules that were met behind it.
    fn close(&mut self, rule: usize, mark: usize) {
        let rank = self.rank;
        for _ in 0..usize::MAX {
            let Some(top) = self.open.pop() else {
                break;
            };
            if self.mark_of(top) < mark {
                self.open.push_reserved(top);
                break;
            }
            self.set_mark(top, rank);
        }
        self.set_mark(rule, rank);
        self.rank = rank.saturating_sub(1);
    }
}

/// What stands at a place of the numbers that a rule names.
fn named(graph: &[Items<usize>], rule: usize, place: usize) -> Option<usize> {
    match graph.get(rule) {
        None => None,
        Some(names) => match names.get(place) {
            None => None,
            Some(name) => Some(*name),
        },
    }
}
