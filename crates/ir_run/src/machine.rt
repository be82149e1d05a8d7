//! A machine that runs statements.

ghost use Rattle.std.specs.Prelude.{◌≡◌, ◌<◌, ◌^◌, ◌-◌, [], ◌∷◌, Some, if◌then◌else◌, ℕ, ℤ, List, pos, map, drop, slice_get, slice_index_or, slice_set};
ghost use Rattle.ir_core.specs.Operator as operator;
ghost use Rattle.ir_run.specs.Runs.{Turn, Goes};
ghost use Rattle.ir_run.specs.Node.{node, Binary};
ghost use Rattle.ir_run.specs.Entry.{Entry, entry};
ghost use Rattle.ir_run.specs.Value.{State, take_next};
ghost use Rattle.ir_run.specs.Value as spec;
ghost use Rattle.ir_run.specs.Run.{on, put, at_mark, place_of, place_by, wants, act, step};
ghost use Rattle.ir_run.specs.Run as run;
ghost use Rattle.ir_run.specs.Shifts.{IsCellWidth, ShiftsBelow, EntryShifts, AllShift};
ghost use Rattle.ir_run.specs.Stands.{state_of, given, turn_of, answered, found, AreMarks};

use crate::number::{address, label_of, label_value, number, wrapped};
use crate::statement::Stmt;
use crate::tree::Tree;
use indexmap::IndexMap;
use ir_core::{Arith, Prefix, Rel, Shift, arithmetic, holds, prefixed, shifted};
use nk_outside::Stop;

/// Statements, where their marks are, and how many bits a number has.
#[derive(Drop)]
pub struct Code<'a> {
    pub statements: &'a [Stmt],
    pub marks: IndexMap<u64, usize>,
    pub bits: u32,
}

/// The place in the statements, what the cells hold, and how much of the input was taken.
#[derive(Drop)]
pub struct Machine {
    pub place: usize,
    pub cells: Vec<i64>,
    pub taken: usize,
}

/// What a step comes to: it goes on, without an output or with one, or it stops.
#[derive(Clone, Copy)]
pub enum Moved {
    Goes,
    Puts(i64),
    Stops(Stop),
}

/// What the cell of this number holds; 0 where there is none.
fn held(cells: &[i64], at: u64) -> i64
    ensures { result ≡ slice_index_or cells.now at (pos 0) }
{
    match cells.get(at as usize) {
        None => 0,
        Some(z) => *z,
    }
}

/// Puts the value into the cell of this number, where there is one.
pub fn put(cells: &mut Vec<i64>, at: u64, z: i64)
    ensures { cells.new.items ≡ slice_set cells.old.items at z }
{
    if at < cells.len() as u64 {
        cells[at as usize] = z;
    }
}

/// How a halt with this code stops.
fn halted(code: u8) -> Stop
    ensures { result ≡ run.halted code }
{
    if code == 0 {
        Stop::Ended
    } else {
        Stop::Trap(code)
    }
}

/// What an operator does to two values.
fn combined(n: u32, op: Arith, x: i64, y: i64) -> i64
    requires { IsCellWidth n }
    ensures { result ≡ operator.arithmetic n op (spec.number n x) (spec.number n y) }
{
    arithmetic(n, op, number(n, x), number(n, y))
}

/// Whether two values are so related.
fn is_so(n: u32, relation: Rel, x: i64, y: i64) -> bool
    requires { IsCellWidth n }
    ensures { result ≡ operator.holds relation (spec.number n x) (spec.number n y) }
{
    holds(relation, number(n, x), number(n, y))
}

impl Machine {
    /// The next input, where one is left.
    fn take(&mut self, input: &[i64]) -> Option<i64>
        ensures value { (next : ℤ → State → Turn State) → take_next wants (drop self.old.taken input.now) next (state_of input.now self.old) ≡ given result next (state_of input.now self.new) }
        ensures place { self.new.place ≡ self.old.place }
    {
        let z = *input.get(self.taken)?;
        self.taken += 1;
        Some(z)
    }

    /// The value of a tree; `None` where it reads the input, and nothing is left of that.
    #[cycle(value)]
    fn value(&mut self, n: u32, input: &[i64], tree: &Tree) -> Option<i64>
        requires width { IsCellWidth n }
        requires shifts { ShiftsBelow n (node tree.now) }
        ensures value { (next : ℤ → State → Turn State) → spec.value wants n (node tree.now) next (state_of input.now self.old) ≡ given result next (state_of input.now self.new) }
        ensures place { self.new.place ≡ self.old.place }
    {
        match tree {
            Tree::Const(z) => Some(wrapped(n, *z)),
            Tree::Base(first) => Some(wrapped(n, i64::from(*first))),
            Tree::Label(label) => Some(label_value(*label)),
            Tree::Cell(k) => Some(held(&self.cells, u64::from(*k))),
            Tree::In => self.take(input),
            Tree::Load(t) => {
                let a = self.value(n, input, t.get())?;
                Some(held(&self.cells, address(n, a)))
            }
            Tree::Neg(t) => {
                let z = self.value(n, input, t.get())?;
                Some(prefixed(n, Prefix::Neg, number(n, z)))
            }
            Tree::Not(t) => {
                let z = self.value(n, input, t.get())?;
                Some(prefixed(n, Prefix::Not, number(n, z)))
            }
            Tree::Shl(t, k) => {
                let z = self.value(n, input, t.get())?;
                Some(shifted(n, Shift::Shl, number(n, z), *k))
            }
            Tree::Shr(t, k) => {
                let z = self.value(n, input, t.get())?;
                Some(shifted(n, Shift::Shr, number(n, z), *k))
            }
            Tree::Add(t, u) => self.binary(n, input, Arith::Add, t.get(), u.get()),
            Tree::Sub(t, u) => self.binary(n, input, Arith::Sub, t.get(), u.get()),
            Tree::Mul(t, u) => self.binary(n, input, Arith::Mul, t.get(), u.get()),
            Tree::And(t, u) => self.binary(n, input, Arith::And, t.get(), u.get()),
            Tree::Or(t, u) => self.binary(n, input, Arith::Or, t.get(), u.get()),
            Tree::Xor(t, u) => self.binary(n, input, Arith::Xor, t.get(), u.get()),
        }
    }

    /// The value of an operator of two trees.
    #[cycle(value)]
    fn binary(&mut self, n: u32, input: &[i64], op: Arith, t: &Tree, u: &Tree) -> Option<i64>
        requires width { IsCellWidth n }
        requires left { ShiftsBelow n (node t.now) }
        requires right { ShiftsBelow n (node u.now) }
        ensures value { (next : ℤ → State → Turn State) → spec.value wants n (Binary op (node t.now) (node u.now)) next (state_of input.now self.old) ≡ given result next (state_of input.now self.new) }
        ensures place { self.new.place ≡ self.old.place }
    {
        let x = self.value(n, input, t)?;
        let y = self.value(n, input, u)?;
        Some(combined(n, op, x, y))
    }

    /// Goes on at the next place.
    fn on(&mut self)
        requires { self.old.place < 2 ^ 64 - 1 }
        ensures { (input : List ℤ) → state_of input self.new ≡ on (state_of input self.old) }
    {
        self.place += 1;
    }

    /// Puts the value into the cell of this number, where there is one, and goes on at the next place.
    fn set(&mut self, at: u64, z: i64) -> Moved
        requires { self.old.place < 2 ^ 64 - 1 }
        ensures { (input : List ℤ) → turn_of result (state_of input self.new) ≡ Goes [] (on (put at z (state_of input self.old))) }
    {
        put(&mut self.cells, at, z);
        self.on();
        Moved::Goes
    }

    /// Goes on at the mark of a label; where there is none, it stays.
    fn jump(&mut self, code: &Code<'_>, label: u64) -> Moved
        ensures { (input : List ℤ) → turn_of result (state_of input self.new) ≡ Goes [] (at_mark (found code.now.marks.entries label) (state_of input self.old)) }
    {
        if let Some(place) = code.marks.get(&label) {
            self.place = *place;
        }
        Moved::Goes
    }

    /// The same of the label that a value is.
    fn jump_by(&mut self, code: &Code<'_>, z: i64) -> Moved
        ensures { (entries : List Entry) → AreMarks code.now.marks.entries entries → (input : List ℤ) → turn_of result (state_of input self.new) ≡ Goes [] (at_mark (place_by entries (spec.label_of z)) (state_of input self.old)) }
    {
        match label_of(z) {
            None => Moved::Goes,
            Some(label) => self.jump(code, label),
        }
    }

    /// Goes to the mark of a label where two values are so related.
    fn branch(&mut self, code: &Code<'_>, relation: Rel, x: i64, y: i64, label: u32) -> Moved
        requires width { IsCellWidth code.now.bits }
        requires place { self.old.place < 2 ^ 64 - 1 }
        ensures { (entries : List Entry) → AreMarks code.now.marks.entries entries → (input : List ℤ) → turn_of result (state_of input self.new) ≡ Goes [] (if operator.holds relation (spec.number code.now.bits x) (spec.number code.now.bits y) then at_mark (place_of entries label) (state_of input self.old) else on (state_of input self.old)) }
    {
        if is_so(code.bits, relation, x, y) {
            self.jump(code, u64::from(label))
        } else {
            self.on();
            Moved::Goes
        }
    }

    /// Goes on at the next place with an output.
    fn show(&mut self, z: i64) -> Moved
        requires { self.old.place < 2 ^ 64 - 1 }
        ensures { (input : List ℤ) → turn_of result (state_of input self.new) ≡ Goes (z ∷ []) (on (state_of input self.old)) }
    {
        self.on();
        Moved::Puts(z)
    }

    /// Goes on at the next place.
    fn pass(&mut self) -> Moved
        requires { self.old.place < 2 ^ 64 - 1 }
        ensures { (input : List ℤ) → turn_of result (state_of input self.new) ≡ Goes [] (on (state_of input self.old)) }
    {
        self.on();
        Moved::Goes
    }

    /// Does what a statement does; `None` where it reads the input, and nothing is left of that.
    fn act(&mut self, code: &Code<'_>, input: &[i64], statement: &Stmt) -> Option<Moved>
        requires width { IsCellWidth code.now.bits }
        requires shifts { EntryShifts code.now.bits (entry statement.now) }
        requires place { self.old.place < 2 ^ 64 - 1 }
        ensures { (entries : List Entry) → AreMarks code.now.marks.entries entries → answered result (state_of input.now self.new) ≡ run.act entries code.now.bits (Some (entry statement.now)) (state_of input.now self.old) }
    {
        let n = code.bits;
        match statement {
            Stmt::Set(k, t) => {
                let z = self.value(n, input, t)?;
                Some(self.set(u64::from(*k), z))
            }
            Stmt::Store(t, u) => {
                let a = self.value(n, input, t)?;
                let z = self.value(n, input, u)?;
                Some(self.set(address(n, a), z))
            }
            Stmt::Out(t) => {
                let z = self.value(n, input, t)?;
                Some(self.show(number(n, z)))
            }
            Stmt::Branch(relation, t, u, label) => {
                let x = self.value(n, input, t)?;
                let y = self.value(n, input, u)?;
                Some(self.branch(code, *relation, x, y, *label))
            }
            Stmt::JumpCell(k) => {
                let z = held(&self.cells, u64::from(*k));
                Some(self.jump_by(code, z))
            }
            Stmt::Jump(label) => Some(self.jump(code, u64::from(*label))),
            Stmt::Mark(_) => Some(self.pass()),
            Stmt::Halt(k) => Some(Moved::Stops(halted(*k))),
        }
    }

    /// Makes one step. It takes no memory.
    pub fn step(&mut self, code: &Code<'_>, input: &[i64]) -> Moved
        requires width { IsCellWidth code.now.bits }
        requires shifts { AllShift code.now.bits (map entry code.now.statements.now) }
        requires marks { AreMarks code.now.marks.entries (map entry code.now.statements.now) }
        ensures { turn_of result (state_of input.now self.new) ≡ step (map entry code.now.statements.now) code.now.bits (state_of input.now self.old) }
    {
        match code.statements.get(self.place) {
            None => Moved::Goes,
            Some(statement) => match self.act(code, input, statement) {
                None => Moved::Stops(Stop::Wants),
                Some(moved) => moved,
            },
        }
    }
}
