//! The end of an instruction.

ghost use Rattle.std.specs.Int.{w64};
ghost use Rattle.std.specs.Prelude.{◌≡◌, ◌<◌, [], ℕ, ℤ, Option, FitsSigned, IfSome, length, option_map, map, pos};
ghost use Rattle.attr_exec.specs.Does.{Ends, HasPc, IsNarrow, IsPort};
ghost use Rattle.nk_base.specs.declared.number.Ty.{Ty};
ghost use Rattle.nml_state.specs.declared.state.Exec.TheVariants as told;
ghost use Rattle.nml_tree.specs.Exec as spec;
ghost use Rattle.nml_tree.specs.Exec.{stepped, with_writes};
ghost use Rattle.nml_tree.specs.Table.{Table};

use crate::give::Done;
use attr_eval::binary;
use nml_state::{Exec, State};
use nml_tree::Bin;

/// Makes the writes, and counts PC, the storage of this number, up by one where it isn't written. It takes no memory.
///
/// That PC goes on by one is this project's own rule.
pub fn settle(pc: usize, s: &mut State)
    ensures ends { Ends s.old s.new }
    ensures cells { (t : Table) → HasPc t s.old → pc ≡ spec.pc t → s.new ≡ record s.old { cells = stepped t (with_writes s.old.cells s.old.kept) s.old.kept; trns = map (λ z. pos 0) s.old.trns; kept = [] } }
{
    let written = s.keeps(pc);
    s.commit();
    if !written {
        step(pc, s);
    }
}

/// Counts the first cell of the storage up by one.
fn step(pc: usize, s: &mut State)
    ensures same { (s.new.types ≡ s.old.types) × (s.new.trn_types ≡ s.old.trn_types) × (map (λ row. length row) s.new.cells ≡ map (λ row. length row) s.old.cells) × (s.new.trns ≡ s.old.trns) × (s.new.kept ≡ s.old.kept) }
    ensures cells { (t : Table) → HasPc t s.old → pc ≡ spec.pc t → s.new ≡ record s.old { cells = stepped t s.old.cells [] } }
{
    s.values_fit();
    let at = s.read(pc, 0);
    s.give_cell(pc, binary(Bin::Add, at, 1));
}

/// What is answered of an instruction that ran. It takes no memory. The rule is this project's own.
pub fn answer(done: Done) -> Exec
    ensures { (out : Ty) (halt : Option ℕ) → IsNarrow out done → IsPort out → done.halt ≡ option_map pos halt → result ≡ told.Done done.out done.took halt }
{
    Exec::Done {
        out: small(done.out),
        took: done.took,
        halt: code(done.halt),
    }
}

/// The number, where 64 bits hold it.
fn small(z: Option<i128>) -> Option<i64>
    ensures { IfSome z (λ n. FitsSigned w64 n) → result ≡ z }
{
    match z {
        None => None,
        Some(n) => match i64::try_from(n) {
            Ok(m) => Some(m),
            Err(_) => None,
        },
    }
}

/// The number, where 8 bits hold it.
fn code(z: Option<i128>) -> Option<u8>
    ensures { (halt : Option ℕ) → IfSome halt (λ n. n < 256) → z ≡ option_map pos halt → result ≡ halt }
{
    match z {
        None => None,
        Some(n) => match u8::try_from(n) {
            Ok(m) => Some(m),
            Err(_) => None,
        },
    }
}
