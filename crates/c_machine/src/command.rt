//! Commands.

ghost use Rattle.std.specs.Prelude.{◌≡◌, ◌∷◌, suc, IfOk};
ghost use Rattle.c_flat.specs.Written.{written};
ghost use Rattle.c_frames.specs.Frames.{Again, Arguments, Calling, Drop};
ghost use Rattle.c_frames.specs.Steps.{to, paying, step_run, step_test, step_again};
ghost use Rattle.c_machine.specs.Stands.{Comes, loop_over};
ghost use Rattle.c_flat.specs.Sorts.{terms_at, command_over};

use crate::code::Code;
use crate::machine::Machine;
use crate::task::{Expects, Moved, Pending, Repeat, Task};
use c_flat::CommandNode;
use nk_base::Memory;
use nk_outside::Stop;

/// How many tests a loop may have where so many turns may be paid: one more, at which it is stopped.
pub fn tests(turns: u64) -> u128
    ensures { result ≡ suc turns }
{
    u128::from(turns) + 1
}

impl Machine {
    /// A call whose value isn't used.
    fn invoke(&mut self, code: &Code, input: &[i64], g: usize, xs: usize) -> Result<Moved, Memory>
        ensures { IfOk result (λ r. Comes code.now input.now self.old self.new r (λ p n w k s. to p n (Arguments (terms_at code.now.nodes.items xs)) w (Calling g ∷ Drop ∷ k) s)) }
    {
        self.frames.push(Pending::Number(Expects::Forget))?;
        self.wait(code, input, Pending::Calling(g), Task::Arguments(xs))
    }

    /// A loop begins with its test. It takes no memory.
    pub fn begin_loop(&mut self, code: &Code, input: &[i64], l: Repeat) -> Moved
        ensures { Comes code.now input.now self.old self.new result (λ p n w k s. to p n (Again (loop_over l (written code.now.nodes.items)) (suc s.turns)) w k s) }
    {
        let most = tests(self.turns);
        self.go(code, input, Task::Again(l, most))
    }

    /// Runs the node of a command, one step. The one error is want of memory.
    pub fn run_command(
        &mut self,
        code: &Code,
        input: &[i64],
        command: CommandNode,
    ) -> Result<Moved, Memory>
        ensures { IfOk result (λ r. Comes code.now input.now self.old self.new r (λ p n. step_run p n (command_over command (written code.now.nodes.items)))) }
    {
        match command {
            CommandNode::Skip => Ok(self.go(code, input, Task::On)),
            CommandNode::Seq(x, y) => self.wait(code, input, Pending::Behind(y), Task::Run(x)),
            CommandNode::Turn(x) => Ok(self.pay(code, input, Task::Run(x))),
            CommandNode::Set(place, e) => self.ask(code, input, Expects::SetTo(place), e),
            CommandNode::Store(place, length, i, e) => {
                self.ask(code, input, Expects::StoreIndex(place, length, e), i)
            }
            CommandNode::Change(place, length, i, op, e) => {
                self.ask(code, input, Expects::ChangeIndex(place, length, op, e), i)
            }
            CommandNode::Print(e) => self.ask(code, input, Expects::Show, e),
            CommandNode::Take => Ok(self.take_only(code, input)),
            CommandNode::Invoke(g, xs) => self.invoke(code, input, g, xs),
            CommandNode::If(e, x) => self.ask(code, input, Expects::Then(x), e),
            CommandNode::IfElse(e, x, y) => self.ask(code, input, Expects::Choose(x, y), e),
            CommandNode::While(e, x) => Ok(self.begin_loop(code, input, Repeat::While(e, x))),
            CommandNode::Do(x, e) => {
                self.wait(
                    code,
                    input,
                    Pending::Starting(Repeat::Do(x, e)),
                    Task::Run(x),
                )
            }
            CommandNode::Forever(step, x) => {
                Ok(self.begin_loop(code, input, Repeat::Forever(step, x)))
            }
            CommandNode::For(e, step, x) => {
                Ok(self.begin_loop(code, input, Repeat::For(e, step, x)))
            }
            CommandNode::Break => Ok(self.go(code, input, Task::Leave)),
            CommandNode::Continue => Ok(self.go(code, input, Task::Onward)),
            CommandNode::Return => Ok(self.go(code, input, Task::Back(0))),
            CommandNode::ReturnWith(e) => self.ask(code, input, Expects::Giving, e),
        }
    }

    /// Pays a turn for a test of a loop, of which so many are left behind it.
    fn test(&mut self, code: &Code, input: &[i64], l: Repeat, left: u128) -> Result<Moved, Memory>
        ensures { IfOk result (λ r. Comes code.now input.now self.old self.new r (λ p n w k s. paying p n s.turns s (step_test p n (loop_over l (written code.now.nodes.items)) left w k))) }
    {
        let pending = Pending::Number(Expects::Tested(l, left));
        match l {
            Repeat::While(e, _) => self.pay_wait(code, input, pending, Task::Eval(e)),
            Repeat::Do(_, e) => self.pay_wait(code, input, pending, Task::Eval(e)),
            Repeat::Forever(_, _) => self.pay_wait(code, input, pending, Task::Give(1)),
            Repeat::For(e, _, _) => self.pay_wait(code, input, pending, Task::Eval(e)),
        }
    }

    /// Tests a loop that so many tests are left of, one step. The one error is want of memory.
    pub fn again(&mut self, code: &Code, input: &[i64], l: Repeat, b: u128) -> Result<Moved, Memory>
        ensures { IfOk result (λ r. Comes code.now input.now self.old self.new r (λ p n. step_again p n (loop_over l (written code.now.nodes.items)) b)) }
    {
        if b == 0 {
            return Ok(Moved::Stops(Stop::Running));
        }
        self.test(code, input, l, b - 1)
    }
}
