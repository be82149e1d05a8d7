//! What a number comes to that is given.

ghost use Rattle.std.specs.Prelude.{◌≡◌, ◌<◌, ◌∷◌, ◌++◌, [], ℤ, List, reverse, IfOk};
ghost use Rattle.nk_base.specs.Number.{IsWidth};
ghost use Rattle.ir_core.specs.Operator as operator;
ghost use Rattle.c_tree.specs.Meaning.{cell};
ghost use Rattle.c_tree.specs.Meaning as meaning;
ghost use Rattle.c_flat.specs.Written.{written};
ghost use Rattle.c_frames.specs.Frames.{Run, On, frame_at};
ghost use Rattle.c_frames.specs.Frames as waits;
ghost use Rattle.c_frames.specs.Small.{IsSmallFrame, AreSmallFrames};
ghost use Rattle.c_frames.specs.Steps.{to, either_move, step_give};
ghost use Rattle.c_machine.specs.Cells.{cell_number};
ghost use Rattle.c_machine.specs.Stands.{Comes, work_of, loop_over, expected, frame_of, frames_of};
ghost use Rattle.c_flat.specs.Sorts.{term_at, command_at};
ghost use Rattle.c_machine.specs.declared.code.Code.{Code};

use crate::code::Code;
use crate::data::{Cell, element_cell, held, index_of, is_true, put, scalar_cell, truth};
use crate::machine::Machine;
use crate::task::{Expects, Moved, Pending, Repeat, Task};
use c_tree::Place;
use ir_core::{Arith, Shift, arithmetic, holds, prefixed, shifted};
use nk_base::Memory;
use nk_outside::Stop;

impl Machine {
    /// Gives the element with this index, where it is one.
    fn give_element(
        &mut self,
        code: &Code,
        input: &[i64],
        place: Place,
        length: u64,
        z: i64,
    ) -> Moved
        ensures { Comes code.now input.now self.old self.new result (λ p n w k s. step_give p n (waits.Element place length ∷ k) z w s) }
    {
        match index_of(z, length) {
            None => Moved::Stops(Stop::Trap(1)),
            Some(index) => {
                let at = element_cell(self.base, place, index);
                let number = held(&self.memory, at);
                self.go(code, input, Task::Give(number))
            }
        }
    }

    /// Gives a number that is shifted.
    fn give_shifted(&mut self, code: &Code, input: &[i64], op: Shift, k: u64, z: i64) -> Moved
        requires width { IsWidth code.now.bits }
        requires amount { k < 63 }
        ensures { Comes code.now input.now self.old self.new result (λ p n w ks s. to p n (waits.Give (operator.shifted code.now.bits op z k)) w ks s) }
    {
        let number = shifted(code.bits, op, z, k as u32);
        self.go(code, input, Task::Give(number))
    }

    /// The right side of `&&`, where it is needed.
    fn give_and(&mut self, code: &Code, input: &[i64], y: usize, z: i64) -> Result<Moved, Memory>
        ensures { IfOk result (λ r. Comes code.now input.now self.old self.new r (λ p n w k s. step_give p n (waits.AndRight (term_at code.now.nodes.items y) ∷ k) z w s)) }
    {
        if is_true(z) {
            self.ask(code, input, Expects::AsTruth, y)
        } else {
            Ok(self.go(code, input, Task::Give(0)))
        }
    }

    /// The right side of `||`, where it is needed.
    fn give_or(&mut self, code: &Code, input: &[i64], y: usize, z: i64) -> Result<Moved, Memory>
        ensures { IfOk result (λ r. Comes code.now input.now self.old self.new r (λ p n w k s. step_give p n (waits.OrRight (term_at code.now.nodes.items y) ∷ k) z w s)) }
    {
        if is_true(z) {
            Ok(self.go(code, input, Task::Give(1)))
        } else {
            self.ask(code, input, Expects::AsTruth, y)
        }
    }

    /// Puts the number into the cell.
    fn store(&mut self, code: &Code, input: &[i64], at: Cell, z: i64) -> Moved
        ensures { Comes code.now input.now self.old self.new result (λ p n w k s. to p n On w k (meaning.put s (cell_number at) z)) }
    {
        put(&mut self.memory, at, z);
        self.go(code, input, Task::On)
    }

    /// Puts the number into a variable.
    fn set(&mut self, code: &Code, input: &[i64], place: Place, z: i64) -> Moved
        ensures { Comes code.now input.now self.old self.new result (λ p n w k s. to p n On w k (meaning.put s (cell (frame_at p n w) place) z)) }
    {
        let at = scalar_cell(self.base, place);
        self.store(code, input, at, z)
    }

    /// The value of an element with this index that is stored, where it is one.
    fn ask_stored(
        &mut self,
        code: &Code,
        input: &[i64],
        place: Place,
        length: u64,
        e: usize,
        z: i64,
    ) -> Result<Moved, Memory>
        ensures { IfOk result (λ r. Comes code.now input.now self.old self.new r (λ p n w k s. step_give p n (waits.StoreIndex place length (term_at code.now.nodes.items e) ∷ k) z w s)) }
    {
        match index_of(z, length) {
            None => Ok(Moved::Stops(Stop::Trap(1))),
            Some(index) => {
                let at = element_cell(self.base, place, index);
                self.ask(code, input, Expects::StoreAt(at), e)
            }
        }
    }

    /// What an element with this index is changed by, where it is one.
    fn ask_changed(
        &mut self,
        code: &Code,
        input: &[i64],
        place: Place,
        length: u64,
        op: Arith,
        e: usize,
        z: i64,
    ) -> Result<Moved, Memory>
        ensures { IfOk result (λ r. Comes code.now input.now self.old self.new r (λ p n w k s. step_give p n (waits.ChangeIndex place length op (term_at code.now.nodes.items e) ∷ k) z w s)) }
    {
        match index_of(z, length) {
            None => Ok(Moved::Stops(Stop::Trap(1))),
            Some(index) => {
                let at = element_cell(self.base, place, index);
                let old = held(&self.memory, at);
                self.ask(code, input, Expects::ChangeAt(at, op, old), e)
            }
        }
    }

    /// Goes on the one way or the other.
    fn choose(&mut self, code: &Code, input: &[i64], z: i64, then: Task, or: Task) -> Moved
        ensures { Comes code.now input.now self.old self.new result (λ p n w k s. either_move p n (meaning.is_true z) (to p n (work_of p n code.now.nodes.items (reverse self.old.arguments.items) then) w k s) (to p n (work_of p n code.now.nodes.items (reverse self.old.arguments.items) or) w k s)) }
    {
        if is_true(z) {
            self.go(code, input, then)
        } else {
            self.go(code, input, or)
        }
    }

    /// Runs a loop's body, where its condition came out true.
    fn enter_body(
        &mut self,
        code: &Code,
        input: &[i64],
        l: Repeat,
        b: u128,
        x: usize,
        z: i64,
    ) -> Result<Moved, Memory>
        ensures { IfOk result (λ r. Comes code.now input.now self.old self.new r (λ p n w k s. either_move p n (meaning.is_true z) (to p n (Run (command_at code.now.nodes.items x)) w (waits.Looping (loop_over l (written code.now.nodes.items)) b ∷ k) s) (to p n On w k s))) }
    {
        if is_true(z) {
            self.wait(code, input, Pending::Looping(l, b), Task::Run(x))
        } else {
            Ok(self.go(code, input, Task::On))
        }
    }

    /// The condition of a loop came out so.
    fn tested(
        &mut self,
        code: &Code,
        input: &[i64],
        l: Repeat,
        b: u128,
        z: i64,
    ) -> Result<Moved, Memory>
        ensures { IfOk result (λ r. Comes code.now input.now self.old self.new r (λ p n w k s. step_give p n (waits.Tested (loop_over l (written code.now.nodes.items)) b ∷ k) z w s)) }
    {
        match l {
            Repeat::While(_, x) => self.enter_body(code, input, l, b, x, z),
            Repeat::Do(x, _) => self.enter_body(code, input, l, b, x, z),
            Repeat::Forever(_, x) => self.enter_body(code, input, l, b, x, z),
            Repeat::For(_, _, x) => self.enter_body(code, input, l, b, x, z),
        }
    }

    /// Puts the number out.
    fn show(&mut self, z: i64) -> Moved
        ensures { (c : Code) (input : List ℤ) → Comes c input self.old self.new result (λ p n w k s. to p n On w k (record s { out = s.out ++ z ∷ [] })) }
    {
        self.task = Task::On;
        Moved::Puts(z)
    }

    /// Gives a number to what waits for one. The one error is want of memory.
    pub fn give_to(
        &mut self,
        code: &Code,
        input: &[i64],
        expects: Expects,
        z: i64,
    ) -> Result<Moved, Memory>
        requires width { IsWidth code.now.bits }
        requires small { IsSmallFrame (expected code.now.nodes.items expects) }
        ensures { IfOk result (λ r. Comes code.now input.now self.old self.new r (λ p n w k s. step_give p n (expected code.now.nodes.items expects ∷ k) z w s)) }
    {
        let n = code.bits;
        match expects {
            Expects::Element(place, length) => Ok(self.give_element(code, input, place, length, z)),
            Expects::Unary(op) => Ok(self.go(code, input, Task::Give(prefixed(n, op, z)))),
            Expects::Shifted(op, k) => Ok(self.give_shifted(code, input, op, k, z)),
            Expects::ArithmeticRight(op, y) => {
                self.ask(code, input, Expects::ArithmeticLeft(op, z), y)
            }
            Expects::ArithmeticLeft(op, a) => {
                Ok(self.go(code, input, Task::Give(arithmetic(n, op, a, z))))
            }
            Expects::CompareRight(r, y) => self.ask(code, input, Expects::CompareLeft(r, z), y),
            Expects::CompareLeft(r, a) => {
                Ok(self.go(code, input, Task::Give(truth(holds(r, a, z)))))
            }
            Expects::Negate => Ok(self.go(code, input, Task::Give(truth(!is_true(z))))),
            Expects::AndRight(y) => self.give_and(code, input, y, z),
            Expects::OrRight(y) => self.give_or(code, input, y, z),
            Expects::AsTruth => Ok(self.go(code, input, Task::Give(truth(is_true(z))))),
            Expects::Argument(xs) => {
                self.wait(code, input, Pending::Passed(z), Task::Arguments(xs))
            }
            Expects::SetTo(place) => Ok(self.set(code, input, place, z)),
            Expects::StoreIndex(place, length, e) => {
                self.ask_stored(code, input, place, length, e, z)
            }
            Expects::StoreAt(at) => Ok(self.store(code, input, at, z)),
            Expects::ChangeIndex(place, length, op, e) => {
                self.ask_changed(code, input, place, length, op, e, z)
            }
            Expects::ChangeAt(at, op, old) => {
                Ok(self.store(code, input, at, arithmetic(n, op, old, z)))
            }
            Expects::Show => Ok(self.show(z)),
            Expects::Forget => Ok(self.go(code, input, Task::On)),
            Expects::Then(x) => Ok(self.choose(code, input, z, Task::Run(x), Task::Nothing)),
            Expects::Choose(x, y) => Ok(self.choose(code, input, z, Task::Run(x), Task::Run(y))),
            Expects::Tested(l, b) => self.tested(code, input, l, b, z),
            Expects::Giving => Ok(self.go(code, input, Task::Back(z))),
        }
    }

    fn give_behind(
        &mut self,
        code: &Code,
        input: &[i64],
        pending: Pending,
        z: i64,
    ) -> Result<Moved, Memory>
        requires width { IsWidth code.now.bits }
        requires small { IsSmallFrame (frame_of code.now.nodes.items pending) }
        ensures { IfOk result (λ r. Comes code.now input.now self.old self.new r (λ p n w k s. step_give p n (frame_of code.now.nodes.items pending ∷ k) z w s)) }
    {
        match pending {
            Pending::Number(expects) => self.give_to(code, input, expects, z),
            Pending::Passed(_) => Ok(Moved::Stops(Stop::Running)),
            Pending::Calling(_) => Ok(Moved::Stops(Stop::Running)),
            Pending::Behind(_) => Ok(Moved::Stops(Stop::Running)),
            Pending::Looping(_, _) => Ok(Moved::Stops(Stop::Running)),
            Pending::Stepping(_, _) => Ok(Moved::Stops(Stop::Running)),
            Pending::Starting(_) => Ok(Moved::Stops(Stop::Running)),
            Pending::Called(_, _) => Ok(Moved::Stops(Stop::Running)),
        }
    }

    /// Gives a number to what waits, one step. The one error is want of memory.
    pub fn give(&mut self, code: &Code, input: &[i64], z: i64) -> Result<Moved, Memory>
        requires width { IsWidth code.now.bits }
        requires small { AreSmallFrames (frames_of code.now.nodes.items self.old.frames.items) }
        ensures { IfOk result (λ r. Comes code.now input.now self.old self.new r (λ p n w k s. step_give p n k z w s)) }
    {
        match self.frames.pop() {
            None => Ok(Moved::Stops(Stop::Running)),
            Some(pending) => self.give_behind(code, input, pending, z),
        }
    }
}
