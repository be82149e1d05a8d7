//! What follows a command: its end, `break`, `continue` and `return`.

ghost use Rattle.std.specs.Prelude.{◌≡◌, ◌∷◌, IfOk};
ghost use Rattle.c_flat.specs.Written.{written};
ghost use Rattle.c_frames.specs.Frames.{Give};
ghost use Rattle.c_frames.specs.Steps.{to, step_looped, step_on, step_leave, step_onward, step_back};
ghost use Rattle.c_machine.specs.Stands.{Comes, loop_over, frame_of};

use crate::code::Code;
use crate::machine::Machine;
use crate::task::{Moved, Pending, Repeat, Task};
use nk_base::Memory;
use nk_outside::Stop;

impl Machine {
    /// Behind a loop's body: its step, or its test.
    fn looped(&mut self, code: &Code, input: &[i64], l: Repeat, b: u128) -> Result<Moved, Memory>
        ensures { IfOk result (λ r. Comes code.now input.now self.old self.new r (λ p n. step_looped p n (loop_over l (written code.now.nodes.items)) b)) }
    {
        match l {
            Repeat::While(_, _) => Ok(self.go(code, input, Task::Again(l, b))),
            Repeat::Do(_, _) => Ok(self.go(code, input, Task::Again(l, b))),
            Repeat::Forever(step, _) => {
                self.wait(code, input, Pending::Stepping(l, b), Task::Run(step))
            }
            Repeat::For(_, step, _) => {
                self.wait(code, input, Pending::Stepping(l, b), Task::Run(step))
            }
        }
    }

    /// Gives what a function returns, where it was called.
    fn come_back(&mut self, code: &Code, input: &[i64], base: usize, depth: u64, z: i64) -> Moved
        ensures { Comes code.now input.now self.old self.new result (λ p n w k s. to p n (Give z) (record { base = base; depth = depth }) k s) }
    {
        self.base = base;
        self.depth = depth;
        self.go(code, input, Task::Give(z))
    }

    fn on_behind(&mut self, code: &Code, input: &[i64], pending: Pending) -> Result<Moved, Memory>
        ensures { IfOk result (λ r. Comes code.now input.now self.old self.new r (λ p n w k s. step_on p n (frame_of code.now.nodes.items pending ∷ k) w s)) }
    {
        match pending {
            Pending::Number(_) => Ok(Moved::Stops(Stop::Running)),
            Pending::Passed(_) => Ok(Moved::Stops(Stop::Running)),
            Pending::Calling(_) => Ok(Moved::Stops(Stop::Running)),
            Pending::Behind(y) => Ok(self.go(code, input, Task::Run(y))),
            Pending::Looping(l, b) => self.looped(code, input, l, b),
            Pending::Stepping(l, b) => Ok(self.go(code, input, Task::Again(l, b))),
            Pending::Starting(l) => Ok(self.begin_loop(code, input, l)),
            Pending::Called(base, depth) => Ok(self.come_back(code, input, base, depth, 0)),
        }
    }

    /// Behind the end of a command, one step. The one error is want of memory.
    pub fn on(&mut self, code: &Code, input: &[i64]) -> Result<Moved, Memory>
        ensures { IfOk result (λ r. Comes code.now input.now self.old self.new r (λ p n w k s. step_on p n k w s)) }
    {
        match self.frames.pop() {
            None => Ok(Moved::Stops(Stop::Ended)),
            Some(pending) => self.on_behind(code, input, pending),
        }
    }

    fn leave_behind(&mut self, code: &Code, input: &[i64], pending: Pending) -> Moved
        ensures { Comes code.now input.now self.old self.new result (λ p n w k s. step_leave p n (frame_of code.now.nodes.items pending ∷ k) w s) }
    {
        match pending {
            Pending::Number(_) => Moved::Stops(Stop::Running),
            Pending::Passed(_) => Moved::Stops(Stop::Running),
            Pending::Calling(_) => Moved::Stops(Stop::Running),
            Pending::Behind(_) => self.go(code, input, Task::Leave),
            Pending::Looping(_, _) => self.go(code, input, Task::On),
            Pending::Stepping(_, _) => self.go(code, input, Task::Leave),
            Pending::Starting(_) => self.go(code, input, Task::On),
            Pending::Called(base, depth) => self.come_back(code, input, base, depth, 0),
        }
    }

    /// Behind `break`, one step. It takes no memory.
    pub fn leave(&mut self, code: &Code, input: &[i64]) -> Moved
        ensures { Comes code.now input.now self.old self.new result (λ p n w k s. step_leave p n k w s) }
    {
        match self.frames.pop() {
            None => Moved::Stops(Stop::Ended),
            Some(pending) => self.leave_behind(code, input, pending),
        }
    }

    fn onward_behind(
        &mut self,
        code: &Code,
        input: &[i64],
        pending: Pending,
    ) -> Result<Moved, Memory>
        ensures { IfOk result (λ r. Comes code.now input.now self.old self.new r (λ p n w k s. step_onward p n (frame_of code.now.nodes.items pending ∷ k) w s)) }
    {
        match pending {
            Pending::Number(_) => Ok(Moved::Stops(Stop::Running)),
            Pending::Passed(_) => Ok(Moved::Stops(Stop::Running)),
            Pending::Calling(_) => Ok(Moved::Stops(Stop::Running)),
            Pending::Behind(_) => Ok(self.go(code, input, Task::Onward)),
            Pending::Looping(l, b) => self.looped(code, input, l, b),
            Pending::Stepping(_, _) => Ok(self.go(code, input, Task::Onward)),
            Pending::Starting(l) => Ok(self.begin_loop(code, input, l)),
            Pending::Called(base, depth) => Ok(self.come_back(code, input, base, depth, 0)),
        }
    }

    /// Behind `continue`, one step. The one error is want of memory.
    pub fn onward(&mut self, code: &Code, input: &[i64]) -> Result<Moved, Memory>
        ensures { IfOk result (λ r. Comes code.now input.now self.old self.new r (λ p n w k s. step_onward p n k w s)) }
    {
        match self.frames.pop() {
            None => Ok(Moved::Stops(Stop::Ended)),
            Some(pending) => self.onward_behind(code, input, pending),
        }
    }

    fn back_behind(&mut self, code: &Code, input: &[i64], pending: Pending, z: i64) -> Moved
        ensures { Comes code.now input.now self.old self.new result (λ p n w k s. step_back p n (frame_of code.now.nodes.items pending ∷ k) z w s) }
    {
        match pending {
            Pending::Number(_) => Moved::Stops(Stop::Running),
            Pending::Passed(_) => Moved::Stops(Stop::Running),
            Pending::Calling(_) => Moved::Stops(Stop::Running),
            Pending::Behind(_) => self.go(code, input, Task::Back(z)),
            Pending::Looping(_, _) => self.go(code, input, Task::Back(z)),
            Pending::Stepping(_, _) => self.go(code, input, Task::Back(z)),
            Pending::Starting(_) => self.go(code, input, Task::Back(z)),
            Pending::Called(base, depth) => self.come_back(code, input, base, depth, z),
        }
    }

    /// Behind `return` with a value, one step. It takes no memory.
    pub fn back(&mut self, code: &Code, input: &[i64], z: i64) -> Moved
        ensures { Comes code.now input.now self.old self.new result (λ p n w k s. step_back p n k z w s) }
    {
        match self.frames.pop() {
            None => Moved::Stops(Stop::Ended),
            Some(pending) => self.back_behind(code, input, pending, z),
        }
    }
}
