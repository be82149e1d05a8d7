//! The graph as a whole.

ghost use Rattle.std.specs.Prelude.{◌≡◌, ◌<◌, ℕ, MatchOption, length, map, not, option_map, Some, slice_get};
ghost use Rattle.attr_exec.specs.Does.{DoesExec, IsStateOf};
ghost use Rattle.attr_exec.specs.Ready.{NextFits};
ghost use Rattle.isg_graph.specs.Graph.{IsGraph};
ghost use Rattle.isg_graph.specs.Instance.{HasField, IsInstOf, IsOfShape};
ghost use Rattle.isg_lists.specs.Lines.{of_line};
ghost use Rattle.isg_lists.specs.Masks as spec_lists;
ghost use Rattle.isg_lists.specs.Masks.{AreOfMask, HasAt, HasNone};
ghost use Rattle.isg_nodes.specs.Written.{AllBelow, action};
ghost use Rattle.isg_places.specs.Constant.{constant, within_32};
ghost use Rattle.isg_places.specs.Places as places;
ghost use Rattle.isg_places.specs.Places.{IsNamed, act_reads, act_writes};
ghost use Rattle.isg_places.specs.Spots.{AreSpots, IsThere, index, named};
ghost use Rattle.nml_tree.specs.Derivation.{Derivation, fields};
ghost use Rattle.nml_tree.specs.Exec as spec;
ghost use Rattle.nml_tree.specs.Legal.{IsLegal, is_legal};
ghost use Rattle.nml_tree.specs.Table.{table};
ghost use Rattle.nml_tree.specs.Written as written;

use isg_legal::clashes;
use isg_lists::{Lines, Masks};
use isg_nodes::{Fields, Node, Numbers};
use isg_places::{Spot, Spots, cell, jump_field};
use isg_run::apply;
use nk_base::Ty;
use nml_shape::{Inst, Piece, Shape};
use nml_state::{Exec, State};
use nml_target::Lacking;
use nml_tree::Checked;
use std::marker::Model;

/// The graph of a checked description: the nodes of all actions, equal ones shared, the shapes in their order, and for each shape the nodes of
/// its action's statements.
///
/// The action of each instruction of a shape is what the shape's statements write out. No method takes memory. The form is this project's own.
#[derive(Drop)]
pub struct Isg {
    /// The description.
    pub checked: Checked,
    /// All nodes, each over older ones.
    pub nodes: Vec<Node>,
    /// All shapes, in their order.
    pub shapes: Vec<Shape>,
    /// The statements of each shape's action.
    pub effects: Vec<Numbers>,
    /// Of each shape, whether it is known that each of its instructions is legal.
    pub quiet: Vec<bool>,
    /// The cells that each shape's action names as read.
    pub reads: Vec<Spots>,
    /// The cells that each shape's action names as written.
    pub writes: Vec<Spots>,
    /// The shapes by their masks.
    pub masks: Masks,
    /// The shapes by their lines.
    pub lines: Lines,
    /// How many bits a word has, 8 to 64.
    pub word_bits: u32,
    /// How many bits PC has, 1 to 16.
    pub pc_bits: u32,
    /// The number of PC's storage.
    pub pc: u32,
    /// The type of the `out`; `Bool` where there is none.
    pub out: Ty,
    /// What programs compute with, or what the description lacks for programs.
    pub target: Result<u32, Lacking>,
}

impl Model for Isg {
    ghost use Rattle.std.specs.Coded.{codes};
    ghost use Rattle.isg_nodes.specs.contracts.node.Node as node;
    ghost use Rattle.nml_tree.specs.contracts.tree.Desc as d;
    ghost use Rattle.isg_graph.specs.Graph.{Graph, IsGraph};
    ghost use Rattle.isg_graph.specs.Kept.{AreNamed, IsKept};

    ghost Value = { Graph };

    ghost coded = { Prim.hlevel (codes, d.the_row.coded, node.the_row.coded) };

    ghost view = { λ g. record { desc = g.checked; nodes = g.nodes.items; shapes = g.shapes.items; effects = g.effects.items; word_bits = g.word_bits; pc_bits = g.pc_bits; pc = g.pc; out = g.out; target = g.target } };

    ghost invariant = { λ g. IsGraph (record { desc = g.checked; nodes = g.nodes.items; shapes = g.shapes.items; effects = g.effects.items; word_bits = g.word_bits; pc_bits = g.pc_bits; pc = g.pc; out = g.out; target = g.target }) × IsKept g.checked g.shapes.items g.quiet.items g.masks g.lines × AreNamed g.nodes.items g.effects.items g.reads.items g.writes.items };
}

impl Isg {
    /// The graph is that of its description: each action is what its statements write out, and the rest is as it says. It says so, and does
    /// nothing.
    pub fn is_whole(&self)
        ensures { IsGraph self.now }
    {
        let _ = &self.nodes;
    }

    /// The description.
    pub fn checked(&self) -> &Checked
        ensures { result.now ≡ self.now.desc }
    {
        &self.checked
    }

    /// All shapes of the description, in their order.
    pub fn shapes(&self) -> &[Shape]
        ensures { result.now ≡ self.now.shapes }
    {
        self.shapes.as_slice()
    }

    /// All nodes.
    pub fn nodes(&self) -> &[Node]
        ensures { result.now ≡ self.now.nodes }
    {
        self.nodes.as_slice()
    }

    /// The node of this number.
    pub fn node(&self, n: u32) -> &Node
        requires exists { n < length self.now.nodes }
        ensures { slice_get self.now.nodes n ≡ Some result.now }
    {
        node_at(&self.nodes, n as usize)
    }

    /// How many bits a word has, 8 to 64.
    pub fn word_bits(&self) -> u32
        ensures { result ≡ self.now.word_bits }
    {
        self.word_bits
    }

    /// How many bits PC has, 1 to 16.
    pub fn pc_bits(&self) -> u32
        ensures { result ≡ self.now.pc_bits }
    {
        self.pc_bits
    }

    /// The width of the numbers that programs compute with, or what the description lacks for programs.
    pub fn target(&self) -> Result<u32, Lacking>
        ensures { result ≡ self.now.target }
    {
        self.target
    }

    /// The nodes of the outermost statements of the shape's action, in order.
    pub fn effect(&self, shape: u32) -> &[u32]
        requires exists { shape < length self.now.shapes }
        ensures is { slice_get self.now.effects shape ≡ Some result.now }
        ensures below { AllBelow result.now (length self.now.nodes) }
        ensures action { (x : Derivation) → IsOfShape self.now shape x → action self.now.nodes result.now ≡ written.action (table self.now.desc) x }
    {
        numbers_at(&self.effects, shape as usize).as_slice()
    }

    /// The cells of storages that the shape's action names as read, in the order written, one for each time that it names one.
    pub fn reads(&self, shape: u32) -> &[Spot]
        requires exists { shape < length self.now.shapes }
        ensures spots { AreSpots self.now.nodes result.now }
        ensures names { (x : Derivation) → IsOfShape self.now shape x → map (named self.now.nodes) result.now ≡ act_reads (written.action (table self.now.desc) x) }
    {
        spots_at(&self.reads, shape as usize).as_slice()
    }

    /// The cells of storages that the shape's action names as written, in the order written, one for each time that it names one.
    pub fn writes(&self, shape: u32) -> &[Spot]
        requires exists { shape < length self.now.shapes }
        ensures spots { AreSpots self.now.nodes result.now }
        ensures names { (x : Derivation) → IsOfShape self.now shape x → map (named self.now.nodes) result.now ≡ act_writes (written.action (table self.now.desc) x) }
    {
        spots_at(&self.writes, shape as usize).as_slice()
    }

    /// The cell that the spot names in the instruction: `None` exactly where its index isn't constant once the fields are put in, which is
    /// where a storage, a transitory or the input is read in it.
    ///
    /// It says so of a spot that the instruction's action names. An index past 2^32 is told as 2^32-1, which is past every storage.
    pub fn cell(&self, i: Inst, s: Spot) -> Option<u32>
        requires exists { i.shape < length self.now.shapes }
        requires there { IsThere self.now.nodes s.at }
        ensures { (x : Derivation) → IsInstOf self.now i x → IsNamed (written.action (table self.now.desc) x) (named self.now.nodes s)
            → result ≡ option_map within_32 (constant (fields x) (index self.now.nodes s.at)) }
    {
        cell(&self.nodes, s, &self.fields(i))
    }

    /// The field that the one write of PC of the shape's action assigns, alone or as one side of an `if` expression whose other side is `PC+1`;
    /// `None` exactly where there is no such field.
    pub fn jump_field(&self, shape: u32) -> Option<u32>
        requires exists { shape < length self.now.shapes }
        ensures { (x : Derivation) → IsOfShape self.now shape x → result ≡ places.jump_field (spec.pc (table self.now.desc)) (written.action (table self.now.desc) x) }
    {
        jump_field(&self.nodes, self.effect(shape), self.pc)
    }

    /// The different masks of the shapes, in the order first seen.
    pub fn masks(&self) -> &[u128]
        ensures { result.now ≡ spec_lists.masks self.now.shapes }
    {
        self.masks.masks()
    }

    /// The numbers of exactly the shapes with the mask of this number, in rising order of their values.
    pub fn of_mask(&self, m: u32) -> &[u32]
        ensures { (mask : ℕ) → slice_get (spec_lists.masks self.now.shapes) m ≡ Some mask → AreOfMask self.now.shapes mask result.now }
    {
        self.masks.of_mask(m)
    }

    /// In rising order the numbers of exactly the shapes whose lines have `count` tokens and whose first token is the same word, the same mark,
    /// or, where `first` is a number or a field, any number or field.
    pub fn of_line(&self, first: &Piece, count: u32) -> &[u32]
        ensures { result.now ≡ of_line self.now.shapes first.now count }
    {
        self.lines.of_line(first, count)
    }

    /// The number of a shape whose fixed bits the word has; `None` exactly where there is none.
    pub fn find(&self, word: u128) -> Option<u32>
        ensures { MatchOption result (HasNone self.now.shapes word) (λ n. HasAt self.now.shapes word n) }
    {
        self.masks.shape_of(word)
    }

    /// The numbers in the fields of the instruction.
    pub fn fields(&self, i: Inst) -> Fields<'_>
        requires exists { i.shape < length self.now.shapes }
        ensures { (x : Derivation) → IsInstOf self.now i x → fields x ≡ result }
    {
        Fields::new(
            shape_at(&self.shapes, i.shape as usize).fields.as_slice(),
            i.word,
        )
    }

    /// The number in the field of this number of the instruction.
    pub fn field(&self, i: Inst, j: u32) -> i128
        requires exists { HasField self.now i.shape j }
        ensures { (x : Derivation) → IsInstOf self.now i x → slice_get (fields x) j ≡ Some result }
    {
        self.is_whole();
        self.fields(i).number(j)
    }

    /// Whether the instruction isn't legal.
    pub fn conflict(&self, i: Inst) -> bool
        requires exists { i.shape < length self.now.shapes }
        ensures { (x : Derivation) → IsInstOf self.now i x → result ≡ not (is_legal (table self.now.desc) x) }
    {
        if flag_at(&self.quiet, i.shape as usize) {
            return false;
        }
        clashes(&self.nodes, self.effect(i.shape), &self.fields(i))
    }

    /// Runs the instruction on a state of the description.
    ///
    /// What it reads is read as it begins, but transitories are read as they are; its writes are made together at its end, and PC goes on by
    /// one where it isn't written. Where it reads the input and there is none it is wanted, and the state is as before. Of an instruction that
    /// isn't legal nothing is said but that the state stays one of the description.
    pub fn apply(&self, i: Inst, s: &mut State, next: Option<i64>) -> Exec
        requires exists { i.shape < length self.now.shapes }
        ensures state { IsStateOf (table self.now.desc) s.old → IsStateOf (table self.now.desc) s.new }
        ensures done { (x : Derivation) → IsInstOf self.now i x → IsLegal (table self.now.desc) x → IsStateOf (table self.now.desc) s.old → NextFits (table self.now.desc) next
            → DoesExec (table self.now.desc) (spec.exec (table self.now.desc) x s.old.cells next) result s.old s.new }
    {
        apply(
            &self.nodes,
            self.effect(i.shape),
            &self.fields(i),
            self.out,
            self.pc as usize,
            s,
            next,
        )
    }
}

fn node_at(nodes: &[Node], n: usize) -> &Node
    requires { n < length nodes.now }
    ensures { slice_get nodes.now n ≡ Some result.now }
{
    &nodes[n]
}

fn numbers_at(all: &[Numbers], n: usize) -> &Numbers
    requires { n < length all.now }
    ensures { slice_get all.now n ≡ Some result.now }
{
    &all[n]
}

fn shape_at(shapes: &[Shape], n: usize) -> &Shape
    requires { n < length shapes.now }
    ensures { slice_get shapes.now n ≡ Some result.now }
{
    &shapes[n]
}

fn spots_at(all: &[Spots], n: usize) -> &Spots
    requires { n < length all.now }
    ensures { slice_get all.now n ≡ Some result.now }
{
    &all[n]
}

fn flag_at(flags: &[bool], n: usize) -> bool
    requires { n < length flags.now }
    ensures { slice_get flags.now n ≡ Some result }
{
    flags[n]
}
