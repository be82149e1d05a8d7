//! Whether a rule reaches itself.

ghost use Rattle.std.specs.Prelude.{◌↔◌, ℕ, IfOk, OnOk, IsTrue, ◌<◌, ◌≡◌, ◌++◌, List, length, slice_index_or, false};
ghost use Rattle.graphs.specs.Graphs.{Edge, Reaches, InRange, IsSearch, Visited};

use nk_base::Memory;
use sqlite_items::Items;
use std::alloc::Global;

/// Whether the rule of this number reaches itself by one edge or more. Each number in the graph is below its length, and so is `rule`.
/// `Memory` where there is none for a mark a rule and the rules found; no other answer is free. By this project's own rule.
pub fn reaches_itself(alloc: Global, graph: &[Items<usize>], rule: usize) -> Result<bool, Memory>
    requires range { InRange graph.now }
    requires rule { rule < length graph.now }
    ensures { IfOk result (λ yes. IsTrue yes ↔ Reaches graph.now rule rule) }
{
    let mut marks = vec![in alloc; false; graph.len()]?;
    let mut work: Vec<usize> = Vec::new(alloc);
    visit(graph, rule, rule, &mut marks, &mut work)?;
    for i in 0..usize::MAX {
        if i >= work.len() {
            break;
        }
        let next = item(&work, i);
        visit(graph, rule, next, &mut marks, &mut work)?;
    }
    Ok(marked(&marks, rule))
}

/// Marks all that the rule `x` names, and puts what is new at the end of the work.
fn visit(
    graph: &[Items<usize>],
    from: usize,
    x: usize,
    marks: &mut Vec<bool>,
    work: &mut Vec<usize>,
) -> Result<(), Memory>
    requires range { InRange graph.now }
    requires within { x < length graph.now }
    requires search { IsSearch graph.now from marks.old.items work.old.items }
    requires reached { (b : ℕ) → Edge graph.now x b → Reaches graph.now from b }
    ensures search { OnOk result (IsSearch graph.now from marks.new.items work.new.items) }
    ensures visited { OnOk result (Visited graph.now x marks.old.items marks.new.items) }
    ensures front { OnOk result ((more : List ℕ) × (work.new.items ≡ work.old.items ++ more)) }
{
    let names = graph[x].as_slice();
    for i in 0..names.len() {
        let name = names[i];
        if !marked(marks, name) {
            marks[name] = true;
            work.push(name)?;
        }
    }
    Ok(())
}

fn marked(marks: &Vec<bool>, at: usize) -> bool
    requires { at < length marks.now.items }
    ensures { result ≡ slice_index_or marks.now.items at false }
{
    marks.as_slice()[at]
}

fn item(work: &Vec<usize>, at: usize) -> usize
    requires { at < length work.now.items }
    ensures { result ≡ slice_index_or work.now.items at 0 }
{
    work.as_slice()[at]
}
