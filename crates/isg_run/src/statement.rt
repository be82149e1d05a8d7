//! Statements of a graph, run on a state.

ghost use Rattle.std.specs.Prelude.{◌≡◌, ◌<◌, ◌||◌, if◌then◌else◌, length};
ghost use Rattle.attr_exec.specs.Ran.{Same, ran, scene};
ghost use Rattle.attr_exec.specs.Ready.{Ready};
ghost use Rattle.attr_exec.specs.Seen.{view};
ghost use Rattle.isg_nodes.specs.Narrow.{IsWorth};
ghost use Rattle.isg_nodes.specs.Written.{AllBelow, Falls, action, statement, term};
ghost use Rattle.isg_run.specs.Narrow.{AreNarrow, IsAlwaysNarrow};
ghost use Rattle.nml_tree.specs.Act as act;
ghost use Rattle.nml_tree.specs.Table.{Table};
ghost use Rattle.nml_tree.specs.Value.{is_true};

use attr_eval::is_zero;
use attr_exec::{Done, halt_with, look_at, put_out};
use isg_nodes::{Fields, Node, node_at, value_at};
use nk_base::Ty;
use nml_state::State;

/// The value of the expression of this node, and whether the input is read on the way to it.
fn worth(nodes: &[Node], n: u32, fields: &Fields<'_>, s: &State, next: Option<i64>) -> (i128, bool)
    requires falls { Falls nodes.now }
    requires within { n < length nodes.now }
    ensures { (t : Table) → Ready t next s.now → IsAlwaysNarrow t fields.now (term nodes.now n) → IsWorth (view fields.now s.now next) (term nodes.now n) result.0 result.1 }
{
    s.values_fit();
    value_at(nodes, n, fields, s, next)
}

/// The statements that are chosen by a condition of this value.
fn side<'a>(z: i128, xs: &'a [u32], ys: &'a [u32]) -> &'a [u32]
    ensures { result.now ≡ (if is_true z then xs.now else ys.now) }
{
    if is_zero(z) { ys } else { xs }
}

fn either(a: bool, b: bool) -> bool
    ensures { result ≡ a || b }
{
    a || b
}

/// Runs the statement of this node, with an `out` of this type.
fn run_one(
    nodes: &[Node],
    n: u32,
    fields: &Fields<'_>,
    out: Ty,
    s: &mut State,
    next: Option<i64>,
    done: Done,
) -> Done
    requires falls { Falls nodes.now }
    requires within { n < length nodes.now }
    ensures same { Same s.old s.new }
    ensures ran { (t : Table) → Ready t next s.old → AreNarrow t fields.now (statement nodes.now n act.Done) → scene s.new result ≡ ran out fields.now next (statement nodes.now n act.Done) (scene s.old done) }
{
    match node_at(nodes, n) {
        Node::SetCell(k, i, e) => {
            let (index, a) = worth(nodes, *i, fields, s, next);
            let (z, b) = worth(nodes, *e, fields, s, next);
            s.offer(*k as usize, index.unsigned_abs(), z);
            look_at(done, either(a, b))
        }
        Node::SetTrn(k, e) => {
            let (z, a) = worth(nodes, *e, fields, s, next);
            s.give_trn(*k as usize, z);
            look_at(done, a)
        }
        Node::Put(e) => {
            let (z, a) = worth(nodes, *e, fields, s, next);
            look_at(put_out(out, z, done), a)
        }
        Node::Halt(e) => {
            let (z, a) = worth(nodes, *e, fields, s, next);
            look_at(halt_with(z, done), a)
        }
        Node::When(c, xs, ys) => {
            let (z, a) = worth(nodes, *c, fields, s, next);
            let mut done = look_at(done, a);
            for m in side(z, xs.as_slice(), ys.as_slice()) {
                done = run_one(nodes, *m, fields, out, s, next, done);
            }
            done
        }
        Node::Number(_) => done,
        Node::Field(_) => done,
        Node::Cell(_, _) => done,
        Node::Trn(_) => done,
        Node::Inp => done,
        Node::Unary(_, _) => done,
        Node::Binary(_, _, _) => done,
        Node::Choose(_, _, _) => done,
    }
}

/// Runs statements in order.
pub fn run_all(
    nodes: &[Node],
    effect: &[u32],
    fields: &Fields<'_>,
    out: Ty,
    s: &mut State,
    next: Option<i64>,
    done: Done,
) -> Done
    requires falls { Falls nodes.now }
    requires within { AllBelow effect.now (length nodes.now) }
    ensures same { Same s.old s.new }
    ensures ran { (t : Table) → Ready t next s.old → AreNarrow t fields.now (action nodes.now effect.now) → scene s.new result ≡ ran out fields.now next (action nodes.now effect.now) (scene s.old done) }
{
    let mut done = done;
    for m in effect {
        done = run_one(nodes, *m, fields, out, s, next, done);
    }
    done
}
