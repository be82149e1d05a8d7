//! All shapes, each made of its picks.

ghost use Rattle.std.specs.Prelude.{◌≡◌, ◌≤◌, ◌++◌, ◌∷◌, [], List, codes, length, map, IfOk, OnOk};
ghost use Rattle.nml_shape.specs.Shown.{AreAllShapes, IsShapeOf, token_of};
ghost use Rattle.nml_tree.specs.Derivation as derivation;
ghost use Rattle.nml_tree.specs.Derivation.{Derivation};
ghost use Rattle.nml_tree.specs.Edge.{Flat, flat};
ghost use Rattle.nml_tree.specs.Outline.{outline_bits, template_behind, types};
ghost use Rattle.nml_tree.specs.Refused.{IsFreeBelow};
ghost use Rattle.nml_tree.specs.Table.{table};
ghost use Rattle.nml_tree.specs.Valid.{IsRoot};
ghost use Rattle.shape_list.specs.Drawn.{Draws, flat_of};
ghost use Rattle.shape_list.specs.Runs.{AreShort};

use crate::fixed::{fixed_bits, places};
use crate::picks::all_picks;
use crate::sketch::{Sketch, sketch_of};
use crate::text::Glyph;
use nk_base::{Memory, Text};
use nml_known::Names;
use nml_line::push_tokens;
use nml_shape::{Piece, Shape};
use std::alloc::Global;

/// All shapes of the description in order: alternatives in the text's order, the leftmost part changing slowest.
///
/// Each is made from its picks alone: each rule of its derivation is found once, and each character is copied once for each rule that it
/// stands in. The rule is this project's own. The one error is want of memory, which is also answered where a rule has over 2^32
/// alternatives or an instruction as many fields: no memory holds them.
pub fn all_shapes(alloc: Global, names: &Names<'_>) -> Result<Vec<Shape>, Memory>
    requires { IsFreeBelow 12 names.now }
    ensures { IfOk result (λ shapes. AreAllShapes names.now shapes.items) }
{
    let root = Text::from_bytes(alloc, b"instruction".as_slice())?;
    let all = all_picks(alloc, names)?;
    let mut shapes = Vec::new(alloc);
    for picks in all.as_slice() {
        let shape = shape_at(alloc, names, &root, picks.as_slice())?;
        shapes.push(shape)?;
    }
    Ok(shapes)
}

/// The shape of these picks, `instruction` being the root.
fn shape_at(alloc: Global, names: &Names<'_>, root: &Text, picks: &[u32]) -> Result<Shape, Memory>
    requires free { IsFreeBelow 12 names.now }
    requires root { root.now ≡ codes "instruction" }
    requires some { (x : Derivation) × IsRoot (table names.now) x × (derivation.picks x ≡ picks.now) }
    ensures picks { IfOk result (λ s. s.picks.items ≡ picks.now) }
    ensures shape { IfOk result (λ s. (x : Derivation) → IsRoot (table names.now) x → picks.now ≡ derivation.picks x → IsShapeOf x s) }
{
    let (sketch, _) = sketch_of(alloc, names, root, picks, 0, names.items().len())?;
    shape_of(alloc, &sketch, picks)
}

/// The syntax of the instructions with these picks: its characters, the fields of the instruction by their numbers, and a seam where a
/// part's syntax begins and where it ends.
///
/// The one error is want of memory. The form is this project's own.
pub fn common_syntax(alloc: Global, names: &Names<'_>, picks: &[u32]) -> Result<Vec<Glyph>, Memory>
    requires free { IsFreeBelow 12 names.now }
    ensures { IfOk result (λ v. (x : Derivation) → IsRoot (table names.now) x → picks.now ≡ derivation.picks x → map flat_of v.items ≡ flat 0 x) }
{
    let root = Text::from_bytes(alloc, b"instruction".as_slice())?;
    let (sketch, _) = sketch_of(alloc, names, &root, picks, 0, names.items().len())?;
    Ok(sketch.syntax)
}

/// The shape of an outline.
fn shape_of(alloc: Global, sketch: &Sketch, picks: &[u32]) -> Result<Shape, Memory>
    requires few { length sketch.now.image.items ≤ 64 }
    requires short { AreShort [] (map flat_of sketch.now.syntax.items) }
    ensures picks { IfOk result (λ s. s.picks.items ≡ picks.now) }
    ensures shape { IfOk result (λ s. (x : Derivation) → Draws sketch.now (types x) (outline_bits 0 x) (flat 0 x) → picks.now ≡ derivation.picks x → IsShapeOf x s) }
{
    let image = sketch.image.as_slice();
    let bits = fixed_bits(image);
    Ok(Shape {
        mask: bits.mask,
        value: bits.value,
        fields: places(alloc, sketch.types.as_slice(), image)?,
        template: template(alloc, sketch.syntax.as_slice())?,
        picks: Vec::from_slice(alloc, picks)?,
    })
}

/// The tokens of a syntax.
fn template(alloc: Global, syntax: &[Glyph]) -> Result<Vec<Piece>, Memory>
    requires { AreShort [] (map flat_of syntax.now) }
    ensures { IfOk result (λ v. map token_of v.items ≡ template_behind [] (map flat_of syntax.now)) }
{
    let mut letters = Text::new(alloc);
    let mut tokens = Vec::new(alloc);
    for g in syntax {
        push_glyph(alloc, *g, &mut letters, &mut tokens)?;
    }
    push_tokens(alloc, letters.as_bytes(), &mut tokens)?;
    Ok(tokens)
}

/// Takes a glyph of a syntax: a character behind these, a field behind the tokens of them all, or a seam, which is nothing.
fn push_glyph(
    alloc: Global,
    g: Glyph,
    letters: &mut Text,
    tokens: &mut Vec<Piece>,
) -> Result<(), Memory>
    requires { (rest : List Flat) × AreShort letters.old (flat_of g ∷ rest) }
    ensures tokens { OnOk result ((rest : List Flat) → map token_of tokens.new.items ++ template_behind letters.new rest ≡ map token_of tokens.old.items ++ template_behind letters.old (flat_of g ∷ rest)) }
    ensures short { OnOk result ((rest : List Flat) → AreShort letters.old (flat_of g ∷ rest) → AreShort letters.new rest) }
{
    match g {
        Glyph::Letter(c) => {
            letters.push(c)?;
            Ok(())
        }
        Glyph::Seam => Ok(()),
        Glyph::Field(n) => {
            push_tokens(alloc, letters.as_bytes(), tokens)?;
            tokens.push(Piece::Field(n))?;
            *letters = Text::new(alloc);
            Ok(())
        }
    }
}
