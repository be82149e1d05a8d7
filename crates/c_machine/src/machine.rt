//! A machine that runs a program.

ghost use Rattle.std.specs.Prelude.{◌≡◌, ◌∷◌, true, false, reverse, drop, IfOk, IsTrue, IsFalse, MatchOption};
ghost use Rattle.c_frames.specs.Steps.{to, paying, taking, Stops};
ghost use Rattle.c_frames.specs.Frames.{Give, On};
ghost use Rattle.nk_outside.specs.declared.stop.Stop.TheVariants as stops;
ghost use Rattle.c_machine.specs.Stands.{Comes, work_of, frame_of};

use crate::code::Code;
use crate::task::{Moved, Pending, Task};
use nk_base::Memory;
use nk_outside::Stop;

/// A machine that runs a program: what it has in hand, the first cell of the function that runs and how deep calls may
/// still nest, what waits, the arguments that are made, what the variables hold, how much of the input was taken, and how
/// many turns may still be paid.
///
/// The form is this project's own.
#[derive(Drop)]
pub struct Machine {
    pub task: Task,
    pub base: usize,
    pub depth: u64,
    pub frames: Vec<Pending>,
    pub arguments: Vec<i64>,
    pub memory: Vec<i64>,
    pub taken: usize,
    pub turns: u64,
}

impl Machine {
    /// Goes on with this. It takes no memory.
    pub fn go(&mut self, code: &Code, input: &[i64], task: Task) -> Moved
        ensures { Comes code.now input.now self.old self.new result (λ p n w k s. to p n (work_of p n code.now.nodes.items (reverse self.old.arguments.items) task) w k s) }
    {
        let _ = code;
        let _ = input;
        self.task = task;
        Moved::Goes
    }

    /// Goes on with this, and then with what waits. The one error is want of memory.
    pub fn wait(
        &mut self,
        code: &Code,
        input: &[i64],
        pending: Pending,
        task: Task,
    ) -> Result<Moved, Memory>
        ensures { IfOk result (λ r. Comes code.now input.now self.old self.new r (λ p n w k s. to p n (work_of p n code.now.nodes.items (reverse self.old.arguments.items) task) w (frame_of code.now.nodes.items pending ∷ k) s)) }
    {
        self.frames.push(pending)?;
        Ok(self.go(code, input, task))
    }

    /// Pays a turn, where one may be paid, and goes on with this. It takes no memory.
    pub fn pay(&mut self, code: &Code, input: &[i64], task: Task) -> Moved
        ensures { Comes code.now input.now self.old self.new result (λ p n w k s. paying p n s.turns s (to p n (work_of p n code.now.nodes.items (reverse self.old.arguments.items) task) w k)) }
    {
        if self.turns == 0 {
            return Moved::Stops(Stop::Running);
        }
        self.turns -= 1;
        self.go(code, input, task)
    }

    /// Pays a turn, where one may be paid, and goes on with this and then with what waits. The one error is want of memory.
    pub fn pay_wait(
        &mut self,
        code: &Code,
        input: &[i64],
        pending: Pending,
        task: Task,
    ) -> Result<Moved, Memory>
        ensures { IfOk result (λ r. Comes code.now input.now self.old self.new r (λ p n w k s. paying p n s.turns s (to p n (work_of p n code.now.nodes.items (reverse self.old.arguments.items) task) w (frame_of code.now.nodes.items pending ∷ k)))) }
    {
        if self.turns == 0 {
            return Ok(Moved::Stops(Stop::Running));
        }
        self.turns -= 1;
        self.wait(code, input, pending, task)
    }

    /// Takes the next input, where one is left, and gives it. It takes no memory.
    pub fn take_value(&mut self, code: &Code, input: &[i64]) -> Moved
        ensures { Comes code.now input.now self.old self.new result (λ p n w k s. taking p n s.input s (λ z. to p n (Give z) w k)) }
    {
        match input.get(self.taken).copied() {
            None => Moved::Stops(Stop::Wants),
            Some(z) => {
                self.taken += 1;
                self.go(code, input, Task::Give(z))
            }
        }
    }

    /// Takes the next input, where one is left, and goes on. It takes no memory.
    pub fn take_only(&mut self, code: &Code, input: &[i64]) -> Moved
        ensures { Comes code.now input.now self.old self.new result (λ p n w k s. taking p n s.input s (λ z. to p n On w k)) }
    {
        match input.get(self.taken).copied() {
            None => Moved::Stops(Stop::Wants),
            Some(_) => {
                self.taken += 1;
                self.go(code, input, Task::On)
            }
        }
    }
}
