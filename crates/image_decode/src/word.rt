//! The instruction of a word, by the shapes of the graph.

ghost use Rattle.std.specs.Prelude.{◌≡◌, ◌<◌, ◌≤◌, ◌^◌, IsFalse, IsTrue, MatchOption};
ghost use Rattle.isg_graph.specs.Instance.{IsInstOf};
ghost use Rattle.isg_lists.specs.Masks.{HasAt};
ghost use Rattle.nml_tree.specs.Derivation.{Derivation};
ghost use Rattle.nml_tree.specs.Machine.{IsInstruction};
ghost use Rattle.nml_tree.specs.Table.{table};

use isg_graph::Isg;
use nml_shape::Inst;

/// The instruction that the word is: the legal derivation of `instruction` whose image is the word, by the number of its shape; `None`
/// exactly where there is none. There is at most one. It takes no memory.
///
/// The rule is this project's own.
pub fn decode(g: &Isg, word: u128) -> Option<Inst>
    ensures { MatchOption result ((x : Derivation) → IsInstruction (table g.now.desc) word x → ⊥) (λ i. (i.word ≡ word) × ((x : Derivation) × IsInstOf g.now i x × IsInstruction (table g.now.desc) word x)) }
{
    g.is_whole();
    if !is_below(word, g.word_bits()) {
        return None;
    }
    match g.find(word) {
        None => None,
        Some(shape) => legal(g, Inst { shape, word }),
    }
}

/// The instruction, where it is legal.
fn legal(g: &Isg, i: Inst) -> Option<Inst>
    requires short { i.word < 2 ^ g.now.word_bits }
    requires has { HasAt g.now.shapes i.word i.shape }
    ensures { MatchOption result ((x : Derivation) → IsInstruction (table g.now.desc) i.word x → ⊥) (λ j. (j.word ≡ i.word) × ((x : Derivation) × IsInstOf g.now j x × IsInstruction (table g.now.desc) i.word x)) }
{
    g.is_whole();
    if g.conflict(i) { None } else { Some(i) }
}

/// Whether the word has so many bits at most.
fn is_below(word: u128, bits: u32) -> bool
    requires { bits ≤ 64 }
    ensures yes { IsTrue result → word < 2 ^ bits }
    ensures no { IsFalse result → 2 ^ bits ≤ word }
{
    word < 1 << bits
}
