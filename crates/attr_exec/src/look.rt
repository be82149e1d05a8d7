//! What is read of an expression, and what operators make of it.

ghost use Rattle.std.specs.Int.{w128};
ghost use Rattle.std.specs.Prelude.{◌≡◌, ◌∷◌, ℤ, List, FitsSigned, false, pos, true, unsigned_abs, unwrap_or};
ghost use Rattle.attr_eval.specs.Operand.{MayHave};
ghost use Rattle.attr_exec.specs.Seen.{behind_seen, one_seen, plain, two_seen};
ghost use Rattle.attr_exec.specs.declared.look.Spot.TheVariants as spot;
ghost use Rattle.nml_tree.specs.Value as spec;
ghost use Rattle.nml_tree.specs.Value.{cell, number_at};

use attr_eval::{binary, unary};
use nml_state::State;
use nml_tree::{Bin, Un};

/// The place that an expression names: a cell of a storage, a transitory, the `out`, or none.
#[derive(Clone, Copy)]
pub enum Spot {
    Cell(usize, u128),
    Trn(usize),
    Out,
    Nowhere,
}

/// The value of an expression, whether the input is read on the way to it, and the place that it names.
#[derive(Clone, Copy)]
pub struct Seen {
    pub value: i128,
    pub took: bool,
    pub spot: Spot,
}

/// A number, for which nothing is read.
pub fn number(value: i128) -> Seen
    ensures { result ≡ plain value false }
{
    Seen {
        value,
        took: false,
        spot: Spot::Nowhere,
    }
}

/// What an operator of one operand makes of it.
pub fn one(op: Un, a: Seen) -> Seen
    ensures { MayHave op a.value → result ≡ one_seen op a }
{
    Seen {
        value: unary(op, a.value),
        took: a.took,
        spot: Spot::Nowhere,
    }
}

/// What an operator of two operands makes of them.
pub fn two(op: Bin, a: Seen, b: Seen) -> Seen
    ensures { FitsSigned w128 (spec.binary op a.value b.value) → result ≡ two_seen op a b }
{
    Seen {
        value: binary(op, a.value, b.value),
        took: a.took || b.took,
        spot: Spot::Nowhere,
    }
}

/// What is chosen behind a condition.
pub fn behind(c: Seen, a: Seen) -> Seen
    ensures { result ≡ behind_seen c a }
{
    Seen {
        value: a.value,
        took: c.took || a.took,
        spot: Spot::Nowhere,
    }
}

/// The first of the fields.
pub fn first_field(fields: &[i128]) -> Seen
    ensures { (z : ℤ) (rest : List ℤ) → fields.now ≡ z ∷ rest → result ≡ plain z false }
{
    match fields.split_first() {
        None => number(0),
        Some((z, _)) => number(*z),
    }
}

/// A cell of the storage of this number.
pub fn cell_seen(s: &State, storage: usize, index: Seen) -> Seen
    ensures { result ≡ record { value = cell s.now.cells storage (unsigned_abs index.value); took = index.took; spot = spot.Cell storage (unsigned_abs index.value) } }
{
    let n = index.value.unsigned_abs();
    Seen {
        value: s.read(storage, n),
        took: index.took,
        spot: Spot::Cell(storage, n),
    }
}

/// The transitory of this number.
pub fn trn_seen(s: &State, n: usize) -> Seen
    ensures { result ≡ record { value = number_at s.now.trns n; took = false; spot = spot.Trn n } }
{
    Seen {
        value: s.read_trn(n),
        took: false,
        spot: Spot::Trn(n),
    }
}

/// The input.
pub fn input_seen(next: Option<i64>) -> Seen
    ensures { result ≡ plain (unwrap_or next (pos 0)) true }
{
    let value = match next {
        None => 0,
        Some(z) => z as i128,
    };
    Seen {
        value,
        took: true,
        spot: Spot::Nowhere,
    }
}

/// The `out`, which has no value.
pub fn out_seen() -> Seen
    ensures { result ≡ record { value = pos 0; took = false; spot = spot.Out } }
{
    Seen {
        value: 0,
        took: false,
        spot: Spot::Out,
    }
}
