//! The machine that runs the words of an image.

ghost use Rattle.std.specs.Prelude.{◌≡◌, ◌<◌, ◌^◌, IfOk, List, None, map, slice_get, unsigned_abs, ℕ};
ghost use Rattle.attr_exec.specs.Does.{IsStateOf};
ghost use Rattle.attr_exec.specs.Ready.{NextFits};
ghost use Rattle.bit_sim.specs.Decoded.{AreDecided, AreDecoded};
ghost use Rattle.bit_sim.specs.Simulator as spec_sim;
ghost use Rattle.bit_sim.specs.Simulator.{AreInitial, IsInitial, IsStep, IsStepBy, answered, initial_of};
ghost use Rattle.nml_tree.specs.Exec as spec;
ghost use Rattle.nml_tree.specs.Exec.{with_write, with_writes};
ghost use Rattle.nml_tree.specs.Machine.{Found, first_cells, first_write};
ghost use Rattle.nml_tree.specs.Table.{table};
ghost use Rattle.nml_tree.specs.Value.{cell};

use crate::step::Step;
use image_decode::decode;
use image_file::{DataCell, Image};
use isg_graph::Isg;
use nk_base::{Memory, wrap};
use nml_shape::Inst;
use nml_state::{Exec, State};
use std::alloc::Global;
use std::marker::Model;

/// A machine that runs the words of an image, for any checked description.
///
/// Each word of the image is decoded once, as the machine is opened. That a machine runs so is this project's own rule.
#[derive(Drop)]
pub struct Sim<'a> {
    graph: &'a Isg,
    words: &'a [u128],
    found: Vec<Option<Inst>>,
    state: State,
    halted: Option<u8>,
}

impl<'a> Model for Sim<'a> {
    ghost use Rattle.std.specs.Coded.{codes};
    ghost use Rattle.attr_exec.specs.Does.{IsStateOf};
    ghost use Rattle.bit_sim.specs.Decoded.{AreDecoded};
    ghost use Rattle.bit_sim.specs.Simulator.{Simulator};
    ghost use Rattle.nml_tree.specs.Table.{table};
    ghost use Rattle.nml_tree.specs.contracts.tree.Desc as d;

    ghost Value = { Simulator };

    ghost coded = { Prim.hlevel (codes, d.the_row.coded) };

    ghost view = { λ s. record { desc = s.graph.now.desc; words = s.words.now; cells = s.state.cells; halted = s.halted } };

    ghost invariant = { λ s. AreDecoded s.graph.now s.words.now s.found.items × IsStateOf (table s.graph.now.desc) s.state };
}

impl<'a> Sim<'a> {
    /// The machine at its beginning: the cells of the image's data hold their initial values, all others 0. It runs the image's words, whatever
    /// they are.
    ///
    /// The one error is want of memory.
    pub fn open(alloc: Global, g: &'a Isg, i: &'a Image) -> Result<Sim<'a>, Memory>
        requires initial { AreInitial (table g.now.desc) i.now.inits.items }
        ensures { IfOk result (λ s. s ≡ record { desc = g.now.desc; words = i.now.words.items; cells = first_cells (table g.now.desc) (map initial_of i.now.inits.items); halted = None }) }
    {
        let mut state = State::open(alloc, g.checked().typed())?;
        begin(g, &mut state, i.inits.as_slice());
        Ok(Sim {
            graph: g,
            words: i.words.as_slice(),
            found: decoded(alloc, g, i.words.as_slice())?,
            state,
            halted: None,
        })
    }

    /// Of each word of the image it is known which instruction it is, or that it is none. It says so, and does nothing.
    pub fn is_decided(&self)
        ensures { AreDecided (table self.now.desc) self.now.words }
    {
        are_decided(self.graph, self.words, &self.found);
    }

    /// One step: runs the instruction at PC, with the next input where there is one. It takes no memory.
    ///
    /// After the machine has halted each step answers so. `Step` says what each answer means; a step is one of the machine by its definition.
    pub fn step(&mut self, next: Option<i64>) -> Step
        requires next { NextFits (table self.old.desc) next }
        ensures desc { self.new.desc ≡ self.old.desc }
        ensures words { self.new.words ≡ self.old.words }
        ensures step { IsStep (table self.old.desc) self.old.words next self.old self.new result }
    {
        if let Some(code) = self.halted {
            return Step::Halted {
                code,
                out: None,
                took: false,
            };
        }
        let told = go(self.graph, &self.found, &mut self.state, next);
        self.halted = halt_told(told);
        told
    }
}

/// What was decoded says of each word which instruction it is, or that it is none.
fn are_decided(g: &Isg, words: &[u128], found: &[Option<Inst>])
    requires { AreDecoded g.now words.now found.now }
    ensures { AreDecided (table g.now.desc) words.now }
{}

/// One step of a machine that hasn't halted, its words being decoded.
fn go(g: &Isg, found: &[Option<Inst>], s: &mut State, next: Option<i64>) -> Step
    requires decoded { (words : List ℕ) × AreDecoded g.now words found.now }
    requires state { IsStateOf (table g.now.desc) s.old }
    requires next { NextFits (table g.now.desc) next }
    ensures state { IsStateOf (table g.now.desc) s.new }
    ensures step { (words : List ℕ) → AreDecoded g.now words found.now → (f : Found) × IsStepBy (table g.now.desc) words next s.old.cells s.new.cells result f }
{
    let pc = place(g, s);
    match found_at(found, pc) {
        None => Step::NoWord { pc },
        Some(word) => match word {
            None => Step::BadWord { pc },
            Some(i) => match g.apply(i, s, next) {
                Exec::Wants => Step::Wants,
                Exec::Done { out, took, halt } => answer(out, took, halt),
            },
        },
    }
}

/// The code with which the step halted the machine.
fn halt_told(told: Step) -> Option<u8>
    ensures { result ≡ spec_sim.halt_told told }
{
    match told {
        Step::Halted { code, .. } => Some(code),
        Step::Went { .. } => None,
        Step::Wants => None,
        Step::NoWord { .. } => None,
        Step::BadWord { .. } => None,
    }
}

/// What PC holds.
fn place(g: &Isg, s: &State) -> u32
    requires { IsStateOf (table g.now.desc) s.now }
    ensures { result ≡ unsigned_abs (cell s.now.cells (spec.pc (table g.now.desc)) 0) }
{
    g.is_whole();
    few(g, s) as u32
}

/// The number in the first cell of PC's storage: it has few bits.
fn few(g: &Isg, s: &State) -> u128
    requires { IsStateOf (table g.now.desc) s.now }
    ensures value { result ≡ unsigned_abs (cell s.now.cells g.now.pc 0) }
    ensures few { result < 2 ^ 32 }
{
    g.is_whole();
    s.values_fit();
    first_of(g, s)
}

/// The number in the first cell of PC's storage, without its sign.
fn first_of(g: &Isg, s: &State) -> u128
    ensures { result ≡ unsigned_abs (cell s.now.cells g.now.pc 0) }
{
    s.read(g.pc as usize, 0).unsigned_abs()
}

/// What the word at this place is.
fn found_at(found: &[Option<Inst>], pc: u32) -> Option<Option<Inst>>
    ensures { result ≡ slice_get found.now pc }
{
    found.get(pc as usize).copied()
}

/// What a step answers after an instruction that put this out, took the input or not, and halted with this code, or went on.
fn answer(out: Option<i64>, took: bool, halt: Option<u8>) -> Step
    ensures { result ≡ answered out took halt }
{
    match halt {
        Some(code) => Step::Halted { code, out, took },
        None => Step::Went { out, took },
    }
}

/// Gives the cells their initial values.
fn begin(g: &Isg, s: &mut State, inits: &[DataCell])
    requires state { IsStateOf (table g.now.desc) s.old }
    requires initial { AreInitial (table g.now.desc) inits.now }
    ensures state { IsStateOf (table g.now.desc) s.new }
    ensures cells { s.new.cells ≡ with_writes s.old.cells (map (first_write (table g.now.desc)) (map initial_of inits.now)) }
{
    for i in inits {
        begin_one(g, s, *i);
    }
}

/// Gives one cell its initial value.
fn begin_one(g: &Isg, s: &mut State, i: DataCell)
    requires state { IsStateOf (table g.now.desc) s.old }
    requires initial { IsInitial (table g.now.desc) i }
    ensures state { IsStateOf (table g.now.desc) s.new }
    ensures cells { s.new.cells ≡ with_write s.old.cells (first_write (table g.now.desc) (initial_of i)) }
{
    g.is_whole();
    let storage = u32::from(i.storage);
    let ty = s.storage_type(storage);
    s.set(storage, i.cell, wrap(ty, i128::from(i.value)));
}

/// What each word is.
fn decoded(alloc: Global, g: &Isg, words: &[u128]) -> Result<Vec<Option<Inst>>, Memory>
    ensures { IfOk result (λ found. AreDecoded g.now words.now found.items) }
{
    let mut found = Vec::with_capacity(alloc, words.len())?;
    for word in words {
        found.push(decode(g, *word))?;
    }
    Ok(found)
}
