//! A step of the machine.

ghost use Rattle.std.specs.Prelude.{◌≡◌, List, ℤ, IfOk};
ghost use Rattle.nk_base.specs.Number.{IsWidth};
ghost use Rattle.c_tree.specs.Program.{Program};
ghost use Rattle.c_flat.specs.Written.{Falls};
ghost use Rattle.c_frames.specs.Small.{AreSmallFrames};
ghost use Rattle.c_frames.specs.Steps as steps;
ghost use Rattle.c_machine.specs.Small.{IsSmallTask};
ghost use Rattle.c_machine.specs.Stands.{IsCode, config_of, move_of, frames_of};

use crate::code::Code;
use crate::machine::Machine;
use crate::task::{Moved, Task};
use nk_base::Memory;

impl Machine {
    /// One step of the machine. The one error is want of memory.
    pub fn step(&mut self, code: &Code, input: &[i64]) -> Result<Moved, Memory>
        requires falls { Falls code.now.nodes.items }
        requires width { IsWidth code.now.bits }
        requires small { IsSmallTask code.now.nodes.items self.old.task }
        requires frames { AreSmallFrames (frames_of code.now.nodes.items self.old.frames.items) }
        ensures { IfOk result (λ r. (p : Program) → IsCode code.now p → (out : List ℤ) → move_of p code.now.bits code.now.nodes.items input.now self.new out r ≡ steps.step p code.now.bits (config_of p code.now.bits code.now.nodes.items input.now self.old out)) }
    {
        match self.task {
            Task::Eval(k) => self.eval_term(code, input, code.term(k)),
            Task::Arguments(k) => self.eval_arguments(code, input, code.terms(k)),
            Task::Give(z) => self.give(code, input, z),
            Task::Pass => self.pass(code, input),
            Task::Run(k) => self.run_command(code, input, code.command(k)),
            Task::Nothing => Ok(self.go(code, input, Task::On)),
            Task::Again(l, b) => self.again(code, input, l, b),
            Task::On => self.on(code, input),
            Task::Leave => Ok(self.leave(code, input)),
            Task::Onward => self.onward(code, input),
            Task::Back(z) => Ok(self.back(code, input, z)),
        }
    }
}
