//! Arguments that are passed on, and calls.

ghost use Rattle.std.specs.Prelude.{◌≡◌, ◌∷◌, reverse, IfOk};
ghost use Rattle.c_frames.specs.Steps.{to, step_pass, step_call};
ghost use Rattle.c_frames.specs.Frames.{Run, Pass, Called};
ghost use Rattle.c_tree.specs.Meaning.{with_arguments};
ghost use Rattle.c_machine.specs.Stands.{Comes, ComesBy, frame_of};
ghost use Rattle.c_flat.specs.Sorts.{command_at};

use crate::code::{Code, Entry};
use crate::data::fill;
use crate::machine::Machine;
use crate::task::{Moved, Pending, Task};
use nk_base::Memory;
use nk_outside::Stop;

impl Machine {
    /// Runs a function's body on the arguments, within calls that nest so much deeper.
    fn enter(
        &mut self,
        code: &Code,
        input: &[i64],
        entry: Entry,
        depth: u64,
    ) -> Result<Moved, Memory>
        ensures { IfOk result (λ r. Comes code.now input.now self.old self.new r (λ p n w k s. to p n (Run (command_at code.now.nodes.items entry.body)) (record { base = entry.base; depth = depth }) (Called w ∷ k) (with_arguments s entry.base (reverse self.old.arguments.items)))) }
    {
        self.frames.push(Pending::Called(self.base, self.depth))?;
        fill(&mut self.memory, &mut self.arguments, entry.base);
        self.base = entry.base;
        self.depth = depth;
        Ok(self.go(code, input, Task::Run(entry.body)))
    }

    /// Calls the function of this number on the arguments that are made.
    fn call(&mut self, code: &Code, input: &[i64], g: usize) -> Result<Moved, Memory>
        ensures { IfOk result (λ r. ComesBy code.now input.now self.old self.new r (λ p n w k s. step_call p n w.depth g (reverse self.old.arguments.items) w k s)) }
    {
        if self.depth == 0 {
            return Ok(Moved::Stops(Stop::Running));
        }
        match code.function(g) {
            None => Ok(self.go(code, input, Task::Give(0))),
            Some(entry) => self.enter(code, input, entry, self.depth - 1),
        }
    }

    /// Adds an argument in front of those that are made.
    fn add_argument(&mut self, code: &Code, input: &[i64], z: i64) -> Result<Moved, Memory>
        ensures { IfOk result (λ r. Comes code.now input.now self.old self.new r (λ p n w k s. to p n (Pass (z ∷ reverse self.old.arguments.items)) w k s)) }
    {
        self.arguments.push(z)?;
        Ok(self.go(code, input, Task::Pass))
    }

    fn pass_behind(&mut self, code: &Code, input: &[i64], pending: Pending) -> Result<Moved, Memory>
        ensures { IfOk result (λ r. ComesBy code.now input.now self.old self.new r (λ p n w k s. step_pass p n (frame_of code.now.nodes.items pending ∷ k) (reverse self.old.arguments.items) w s)) }
    {
        match pending {
            Pending::Number(_) => Ok(Moved::Stops(Stop::Running)),
            Pending::Passed(z) => self.add_argument(code, input, z),
            Pending::Calling(g) => self.call(code, input, g),
            Pending::Behind(_) => Ok(Moved::Stops(Stop::Running)),
            Pending::Looping(_, _) => Ok(Moved::Stops(Stop::Running)),
            Pending::Stepping(_, _) => Ok(Moved::Stops(Stop::Running)),
            Pending::Starting(_) => Ok(Moved::Stops(Stop::Running)),
            Pending::Called(_, _) => Ok(Moved::Stops(Stop::Running)),
        }
    }

    /// Passes the arguments on to what waits, one step. The one error is want of memory.
    pub fn pass(&mut self, code: &Code, input: &[i64]) -> Result<Moved, Memory>
        ensures { IfOk result (λ r. ComesBy code.now input.now self.old self.new r (λ p n w k s. step_pass p n k (reverse self.old.arguments.items) w s)) }
    {
        match self.frames.pop() {
            None => Ok(Moved::Stops(Stop::Running)),
            Some(pending) => self.pass_behind(code, input, pending),
        }
    }
}
