//! What an instruction does to a state, by the nodes of its effect.

ghost use Rattle.std.specs.Prelude.{◌≡◌, ◌&&◌, ℕ, List, codes, is_none, length};
ghost use Rattle.attr_exec.specs.Does.{DoesExec, IsStateOf};
ghost use Rattle.attr_exec.specs.Ready.{NextFits};
ghost use Rattle.isg_nodes.specs.Written.{AllBelow, Falls, action};
ghost use Rattle.nml_tree.specs.Derivation.{Derivation};
ghost use Rattle.nml_tree.specs.Exec as spec;
ghost use Rattle.nml_tree.specs.Legal.{IsLegal};
ghost use Rattle.nml_tree.specs.Refused.{IsTyped};
ghost use Rattle.nml_tree.specs.Table.{Table, table};
ghost use Rattle.nml_tree.specs.Walk.{IsWalkOf};
ghost use Rattle.nml_tree.specs.Written as written;
ghost use Rattle.nml_tree.specs.declared.tree.Desc.{Desc};

use crate::statement::run_all;
use attr_exec::{Done, answer, settle};
use isg_nodes::{Fields, Node};
use nk_base::Ty;
use nml_state::{Exec, State};

/// Runs the statements of these nodes on a state, with these fields, an `out` of this type and PC in the storage of this number.
///
/// What the statements read is read as the instruction begins, but transitories are read as they are; their writes are made together at the
/// end, and PC goes on by one where it isn't written. Where they read the input and there is none it is wanted, and the state is as before.
/// That is exactly what a legal derivation does whose action the nodes write out. Of other nodes nothing is said but that the state stays one
/// of its description. It takes no memory.
pub fn apply(
    nodes: &[Node],
    effect: &[u32],
    fields: &Fields<'_>,
    out: Ty,
    pc: usize,
    s: &mut State,
    next: Option<i64>,
) -> Exec
    requires falls { Falls nodes.now }
    requires within { AllBelow effect.now (length nodes.now) }
    ensures state { (t : Table) → IsStateOf t s.old → IsStateOf t s.new }
    ensures done { (d : Desc) (x : Derivation) (ks : List ℕ) → IsTyped d → IsWalkOf (table d) (codes "instruction") ks fields.now x → IsLegal (table d) x → action nodes.now effect.now ≡ written.action (table d) x → out ≡ spec.out_type (table d) → pc ≡ spec.pc (table d)
        → IsStateOf (table d) s.old → NextFits (table d) next → DoesExec (table d) (spec.exec (table d) x s.old.cells next) result s.old s.new }
{
    s.values_fit();
    let start = Done {
        out: None,
        took: false,
        halt: None,
    };
    let done = run_all(nodes, effect, fields, out, s, next, start);
    if wants(done, next) {
        s.forget();
        return Exec::Wants;
    }
    settle(pc, s);
    answer(done)
}

/// Whether the input was taken where there is none.
fn wants(done: Done, next: Option<i64>) -> bool
    ensures { result ≡ (done.took && is_none next) }
{
    done.took && next.is_none()
}
