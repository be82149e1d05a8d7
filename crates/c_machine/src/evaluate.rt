//! Expressions and arguments.

ghost use Rattle.std.specs.Prelude.{◌≡◌, ◌<◌, ◌^◌, ◌∷◌, pos, IfOk};
ghost use Rattle.c_frames.specs.Steps.{to, step_eval, step_arguments};
ghost use Rattle.c_frames.specs.Frames.{Eval, Give, frame_at};
ghost use Rattle.c_frames.specs.Small.{IsSmallTerm};
ghost use Rattle.c_tree.specs.Meaning.{cell};
ghost use Rattle.c_tree.specs.Meaning as meaning;
ghost use Rattle.c_flat.specs.Written.{written};
ghost use Rattle.c_machine.specs.Stands.{Comes, expected};
ghost use Rattle.c_flat.specs.Sorts.{term_at, term_over, terms_over};

use crate::code::Code;
use crate::data::{held, scalar_cell};
use crate::machine::Machine;
use crate::task::{Expects, Moved, Pending, Task};
use c_flat::TermNode;
use c_tree::Place;
use nk_base::Memory;

impl Machine {
    /// Gives a number.
    fn give_number(&mut self, code: &Code, input: &[i64], z: u64) -> Moved
        requires { z < 2 ^ 63 }
        ensures { Comes code.now input.now self.old self.new result (λ p n w k s. to p n (Give (pos z)) w k s) }
    {
        self.go(code, input, Task::Give(z as i64))
    }

    /// Gives what a variable holds.
    fn give_held(&mut self, code: &Code, input: &[i64], place: Place) -> Moved
        ensures { Comes code.now input.now self.old self.new result (λ p n w k s. to p n (Give (meaning.held s (cell (frame_at p n w) place))) w k s) }
    {
        let at = scalar_cell(self.base, place);
        let number = held(&self.memory, at);
        self.go(code, input, Task::Give(number))
    }

    /// Waits for a number, and evaluates the node of this number. The one error is want of memory.
    pub fn ask(
        &mut self,
        code: &Code,
        input: &[i64],
        expects: Expects,
        e: usize,
    ) -> Result<Moved, Memory>
        ensures { IfOk result (λ r. Comes code.now input.now self.old self.new r (λ p n w k s. to p n (Eval (term_at code.now.nodes.items e)) w (expected code.now.nodes.items expects ∷ k) s)) }
    {
        self.wait(code, input, Pending::Number(expects), Task::Eval(e))
    }

    /// Evaluates the node of an expression, one step. The one error is want of memory.
    pub fn eval_term(&mut self, code: &Code, input: &[i64], term: TermNode) -> Result<Moved, Memory>
        requires small { IsSmallTerm (term_over term (written code.now.nodes.items)) }
        ensures { IfOk result (λ r. Comes code.now input.now self.old self.new r (λ p n. step_eval p n (term_over term (written code.now.nodes.items)))) }
    {
        match term {
            TermNode::Number(z) => Ok(self.give_number(code, input, z)),
            TermNode::Scalar(place) => Ok(self.give_held(code, input, place)),
            TermNode::Element(place, length, i) => {
                self.ask(code, input, Expects::Element(place, length), i)
            }
            TermNode::Input => Ok(self.take_value(code, input)),
            TermNode::Call(g, xs) => {
                self.wait(code, input, Pending::Calling(g), Task::Arguments(xs))
            }
            TermNode::Unary(op, x) => self.ask(code, input, Expects::Unary(op), x),
            TermNode::Shifted(op, x, k) => self.ask(code, input, Expects::Shifted(op, k), x),
            TermNode::Arithmetic(op, x, y) => {
                self.ask(code, input, Expects::ArithmeticRight(op, y), x)
            }
            TermNode::Compare(r, x, y) => self.ask(code, input, Expects::CompareRight(r, y), x),
            TermNode::Not(x) => self.ask(code, input, Expects::Negate, x),
            TermNode::AndAlso(x, y) => self.ask(code, input, Expects::AndRight(y), x),
            TermNode::OrElse(x, y) => self.ask(code, input, Expects::OrRight(y), x),
        }
    }

    /// The same of arguments: the first, before those behind it, or none.
    pub fn eval_arguments(
        &mut self,
        code: &Code,
        input: &[i64],
        terms: Option<(usize, usize)>,
    ) -> Result<Moved, Memory>
        ensures { IfOk result (λ r. Comes code.now input.now self.old self.new r (λ p n. step_arguments p n (terms_over terms (written code.now.nodes.items)))) }
    {
        match terms {
            None => {
                self.arguments.clear();
                Ok(self.go(code, input, Task::Pass))
            }
            Some((x, xs)) => self.ask(code, input, Expects::Argument(xs), x),
        }
    }
}
