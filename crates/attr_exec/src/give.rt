//! What a statement gives to a place, and what an instruction does besides its writes.

ghost use Rattle.std.specs.Prelude.{◌≡◌, ◌||◌, ℤ};
ghost use Rattle.attr_exec.specs.Ran as spec;
ghost use Rattle.attr_exec.specs.Ran.{Same, given, looked_at, scene};

use crate::look::{Seen, Spot};
use nk_base::{Ty, wrap};
use nml_state::{State, wrapped_value};

/// What an instruction does besides its writes: its output and its halt code, where there is one, and whether it takes the input.
///
/// The form is this project's own.
#[derive(Clone, Copy)]
pub struct Done {
    pub out: Option<i128>,
    pub took: bool,
    pub halt: Option<i128>,
}

/// The same, where the input was read besides or wasn't. It takes no memory. The rule is this project's own.
pub fn look_at(done: Done, took: bool) -> Done
    ensures { result ≡ looked_at took done }
{
    Done {
        out: done.out,
        took: done.took || took,
        halt: done.halt,
    }
}

/// The same with an output of this type, where the type can hold it. It takes no memory. The rule is this project's own.
pub fn put_out(ty: Ty, z: i128, done: Done) -> Done
    ensures { result ≡ spec.put_out ty z done }
{
    match wrapped_value(ty, z) {
        None => done,
        Some(z) => Done {
            out: Some(z),
            took: done.took,
            halt: done.halt,
        },
    }
}

/// The same with a halt code. It takes no memory. The rule is this project's own.
pub fn halt_with(z: i128, done: Done) -> Done
    ensures { result ≡ spec.halted_with z done }
{
    Done {
        out: done.out,
        took: done.took,
        halt: Some(wrap(Ty::Card(8), z)),
    }
}

/// Gives the place the value.
#[tactic(auto, using(crate::proofs::Running::offered_same, crate::proofs::Running::trn_same, crate::proofs::Running::same_self))]
pub fn give(s: &mut State, out: Ty, target: Seen, value: Seen, done: Done) -> Done
    ensures same { Same s.old s.new }
    ensures given { scene s.new result ≡ given out target.spot target.took value (scene s.old done) }
{
    match target.spot {
        Spot::Cell(n, i) => {
            s.offer(n, i, value.value);
            look_at(done, target.took || value.took)
        }
        Spot::Trn(n) => {
            s.give_trn(n, value.value);
            look_at(done, value.took)
        }
        Spot::Out => look_at(put_out(out, value.value, done), value.took),
        Spot::Nowhere => done,
    }
}
