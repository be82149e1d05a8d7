//! What an instruction does to a state.

ghost use Rattle.std.specs.Prelude.{◌≡◌, ◌&&◌, [], ℕ, ℤ, codes, false, is_none, true};
ghost use Rattle.attr_exec.specs.Does.{DoesExec, IsStateOf};
ghost use Rattle.attr_exec.specs.Ready.{NextFits};
ghost use Rattle.nml_tree.specs.Derivation.{Derivation};
ghost use Rattle.nml_tree.specs.Exec as spec;
ghost use Rattle.nml_tree.specs.Legal.{IsLegal};
ghost use Rattle.nml_tree.specs.Table.{table};
ghost use Rattle.nml_tree.specs.Walk.{IsWalkOf};

use crate::finish::{answer, settle};
use crate::give::Done;
use crate::port::{out_type, storage_number};
use crate::run::run;
use nml_state::{Exec, State};
use nml_tree::{Deriv, Typed};

/// Runs the derivation of `instruction` that these picks and fields write on a state of the description.
///
/// What the instruction reads is read as it begins, but transitories are read as they are; its writes are made together at its end, and PC
/// goes on by one where it isn't written. Where it reads the input and there is none it wants it, and the state is as before. Of picks and
/// fields that write no legal derivation nothing is said but that the state stays one of the description. It takes no memory. Each rule
/// and each parameter is found by a search through the description, again and again: this is the reference, on which no tool runs.
pub fn exec(d: &Typed, v: &Deriv, s: &mut State, next: Option<i64>) -> Exec
    requires state { IsStateOf (table d.now) s.old }
    requires next { NextFits (table d.now) next }
    ensures state { IsStateOf (table d.now) s.new }
    ensures done { (x : Derivation) → IsWalkOf (table d.now) (codes "instruction") v.now.picks.items v.now.fields.items x → IsLegal (table d.now) x → DoesExec (table d.now) (spec.exec (table d.now) x s.old.cells next) result s.old s.new }
{
    s.values_fit();
    let items = d.desc.items.as_slice();
    let done = run(
        items,
        b"instruction".as_slice(),
        s,
        next,
        out_type(items),
        v.picks.as_slice(),
        v.fields.as_slice(),
        items.len(),
        Done {
            out: None,
            took: false,
            halt: None,
        },
    );
    if wants(done, next) {
        s.forget();
        return Exec::Wants;
    }
    settle(storage_number(items, b"PC".as_slice()), s);
    answer(done)
}

/// Whether the input was taken where there is none.
fn wants(done: Done, next: Option<i64>) -> bool
    ensures { result ≡ (done.took && is_none next) }
{
    match next {
        None => done.took,
        Some(_) => false,
    }
}
