//! A derivation in outline, by its picks: the types of its fields, and its image and its syntax with fields by their numbers.

ghost use Rattle.std.specs.Prelude.{◌≡◌, ◌++◌, ◌∷◌, ◌+◌, [], ℕ, ℤ, List, length, replicate, true, Some, IfOk, OnOk};
ghost use Rattle.nml_known.specs.declared.known.Parameter.TheVariants as known;
ghost use Rattle.attr_eval.specs.Walks.{Walks, WalksAll};
ghost use Rattle.nk_base.specs.Number.{width_of};
ghost use Rattle.nk_base.specs.declared.number.Ty.{Ty};
ghost use Rattle.nml_tree.specs.Derivation.{Derivation, Arguments};
ghost use Rattle.nml_tree.specs.Edge as edge;
ghost use Rattle.nml_tree.specs.Edge.{Flat, flat, flats};
ghost use Rattle.nml_tree.specs.Image.{bit};
ghost use Rattle.nml_tree.specs.Outline as outline;
ghost use Rattle.nml_tree.specs.Outline.{OutlineBit, outline_bits, outlines, types, types_of};
ghost use Rattle.nml_tree.specs.Table as spec;
ghost use Rattle.nml_tree.specs.Table.{parameter_of, pars_of, table};
ghost use Rattle.nml_tree.specs.Template.{text_of};
ghost use Rattle.nml_tree.specs.Worth.{is_type};
ghost use Rattle.shape_list.specs.Drawn.{Added, Draws, Filled};
ghost use Rattle.shape_list.specs.declared.text.Glyph.TheVariants as glyph;

use crate::chosen::{chosen, par_at, par_count};
use crate::rule::{Body, part_of, rule_named};
use crate::text::{Given, Glyph, fill};
use nk_base::{Memory, Text, Ty};
use nml_known::{Names, Parameter};
use nml_tree::{Attrs, Par, Pars};
use std::alloc::Global;

/// The types of the fields in order, and the image and the syntax.
#[derive(Drop)]
pub struct Sketch {
    pub types: Vec<Ty>,
    pub image: Vec<Glyph>,
    pub syntax: Vec<Glyph>,
}

/// The types of the fields of some parameters, and what the parameters give to the image and to the syntax.
#[derive(Drop)]
struct Filling<'r> {
    types: Vec<Ty>,
    images: Vec<Given<'r>>,
    syntaxes: Vec<Given<'r>>,
}

/// The derivation of the rule whose picks stand in front, its fields numbered from `first` on, and the picks behind it. What is answered
/// where none stand in front is left open.
#[cycle(sketch)]
pub fn sketch_of<'a>(
    alloc: Global,
    names: &Names<'_>,
    name: &Text,
    picks: &'a [u32],
    first: u32,
    limit: usize,
) -> Result<(Sketch, &'a [u32]), Memory>
    ensures { IfOk result (λ x. (d : Derivation) (zs : List ℤ) (ks : List ℕ) (ys : List ℤ) → Walks (table names.now) name.now limit d picks.now zs ks ys → Draws x.0 (types d) (outline_bits first d) (flat first d) × (x.1.now ≡ ks)) }
{
    if limit == 0 {
        return Ok((nothing(alloc), picks));
    }
    match rule_named(names, name) {
        Body::Nothing => Ok((nothing(alloc), picks)),
        Body::Or(rule) => match chosen(rule, picks) {
            None => Ok((nothing(alloc), picks)),
            Some((below, rest)) => sketch_of(alloc, names, below, rest, first, limit - 1),
        },
        Body::And(pars, attrs) => {
            sketch_rule(alloc, names, pars, attrs, picks, first, limit - 1)
        }
    }
}

/// No field, an empty image and an empty syntax.
fn nothing(alloc: Global) -> Sketch {
    Sketch {
        types: Vec::new(alloc),
        image: Vec::new(alloc),
        syntax: Vec::new(alloc),
    }
}

/// The same of an and-rule.
#[cycle(sketch)]
fn sketch_rule<'a>(
    alloc: Global,
    names: &Names<'_>,
    pars: &Option<Pars>,
    attrs: &Attrs,
    picks: &'a [u32],
    first: u32,
    limit: usize,
) -> Result<(Sketch, &'a [u32]), Memory>
    ensures { IfOk result (λ x. (args : Arguments) (zs : List ℤ) (ks : List ℕ) (ys : List ℤ) → WalksAll (table names.now) (pars_of pars.now) limit args picks.now zs ks ys
        → Draws x.0 (types_of args) (text_of (λ c. outline.Fixed (bit c)) (outlines first args) attrs.now.image_text) (text_of edge.Letter (flats first args) attrs.now.syntax_text) × (x.1.now ≡ ks)) }
{
    let (filling, rest) = filled(alloc, names, pars, picks, first, limit)?;
    let Filling {
        types,
        images,
        syntaxes,
    } = filling;
    let image = fill(alloc, images.as_slice(), &attrs.image_text)?;
    let syntax = fill(alloc, syntaxes.as_slice(), &attrs.syntax_text)?;
    let sketch = Sketch {
        types,
        image,
        syntax,
    };
    Ok((sketch, rest))
}

/// What all parameters give, and the picks behind them.
#[cycle(sketch)]
fn filled<'r, 'a>(
    alloc: Global,
    names: &Names<'_>,
    pars: &'r Option<Pars>,
    picks: &'a [u32],
    first: u32,
    limit: usize,
) -> Result<(Filling<'r>, &'a [u32]), Memory>
    ensures { IfOk result (λ x. (args : Arguments) (zs : List ℤ) (ks : List ℕ) (ys : List ℤ) → WalksAll (table names.now) (pars_of pars.now) limit args picks.now zs ks ys
        → Filled x.0 (types_of args) (outlines first args) (flats first args) × (x.1.now ≡ ks)) }
{
    let mut filling = Filling {
        types: Vec::new(alloc),
        images: Vec::new(alloc),
        syntaxes: Vec::new(alloc),
    };
    let mut rest = picks;
    for i in 0..par_count(pars) {
        match par_at(pars, i) {
            None => {}
            Some(par) => {
                rest = add(alloc, names, par, rest, first, limit, &mut filling)?;
            }
        }
    }
    Ok((filling, rest))
}

/// Appends what the parameter gives; answers the picks behind it.
#[cycle(sketch)]
fn add<'r, 'a>(
    alloc: Global,
    names: &Names<'_>,
    par: &'r Par,
    picks: &'a [u32],
    first: u32,
    limit: usize,
    filling: &mut Filling<'r>,
) -> Result<&'a [u32], Memory>
    ensures part { IfOk result (λ rest. (rule : spec.Text) (d : Derivation) (zs : List ℤ) (ks : List ℕ) (ys : List ℤ) → parameter_of (table names.now) par.now.ty ≡ Some (spec.Parameter.Part rule)
        → Walks (table names.now) rule limit d picks.now zs ks ys
        → Added filling.old filling.new (types d) par.now.name.text (outline_bits (first + length filling.old.types.items) d) (edge.Seam ∷ (flat (first + length filling.old.types.items) d ++ edge.Seam ∷ [])) × (rest.now ≡ ks)) }
    ensures field { IfOk result (λ rest. (ty : Ty) → parameter_of (table names.now) par.now.ty ≡ Some (spec.Parameter.Field ty) → is_type ty ≡ true
        → Added filling.old filling.new (ty ∷ []) par.now.name.text (replicate (width_of ty) (outline.Free (first + length filling.old.types.items))) (edge.Number (first + length filling.old.types.items) ∷ []) × (rest.now ≡ picks.now)) }
{
    let number = number_behind(first, filling.types.as_slice())?;
    let name = &par.name.text;
    match part_of(names, &par.ty) {
        Some(rule) => {
            let (part, rest) = sketch_of(alloc, names, rule, picks, number, limit)?;
            add_part(alloc, name, part, filling)?;
            Ok(rest)
        }
        None => {
            add_field(alloc, name, names.parameter_of(&par.ty), number, filling)?;
            Ok(picks)
        }
    }
}

/// The number of the field behind these, the first of which has this number; no memory holds 2^32.
fn number_behind(first: u32, fields: &[Ty]) -> Result<u32, Memory>
    ensures { IfOk result (λ n. n ≡ first + length fields.now) }
{
    let count = fields.len();
    if count > 4_294_967_295 {
        return Err(Memory);
    }
    match first.checked_add(count as u32) {
        None => Err(Memory),
        Some(number) => Ok(number),
    }
}

/// Appends what a part gives, in whose syntax a seam stands at either end.
fn add_part<'r>(
    alloc: Global,
    name: &'r Text,
    part: Sketch,
    filling: &mut Filling<'r>,
) -> Result<(), Memory>
    ensures { OnOk result ((ts : List Ty) (bs : List OutlineBit) (fs : List Flat) → Draws part ts bs fs → Added filling.old filling.new ts name.now bs (edge.Seam ∷ (fs ++ edge.Seam ∷ []))) }
{
    let Sketch {
        types,
        image,
        syntax,
    } = part;
    let mut text = Vec::new(alloc);
    text.push(Glyph::Seam)?;
    text.extend_from_slice(syntax.as_slice())?;
    text.push(Glyph::Seam)?;
    filling.types.extend_from_slice(types.as_slice())?;
    filling.images.push(Given { name, text: image })?;
    filling.syntaxes.push(Given { name, text })?;
    Ok(())
}

/// Appends what a field gives.
fn add_field<'r>(
    alloc: Global,
    name: &'r Text,
    what: Option<Parameter>,
    number: u32,
    filling: &mut Filling<'r>,
) -> Result<(), Memory>
    ensures { OnOk result ((ty : Ty) → what ≡ Some (known.Field ty) → Added filling.old filling.new (ty ∷ []) name.now (replicate (width_of ty) (outline.Free number)) (edge.Number number ∷ [])) }
{
    match what {
        None => Ok(()),
        Some(Parameter::Part(_)) => Ok(()),
        Some(Parameter::Field(ty)) => push_field(alloc, name, ty, number, filling),
    }
}

/// Appends what a field of the type gives.
fn push_field<'r>(
    alloc: Global,
    name: &'r Text,
    ty: Ty,
    number: u32,
    filling: &mut Filling<'r>,
) -> Result<(), Memory>
    ensures { OnOk result (Added filling.old filling.new (ty ∷ []) name.now (replicate (width_of ty) (outline.Free number)) (edge.Number number ∷ [])) }
{
    let image = repeated(alloc, number, ty.width() as usize)?;
    let text = repeated(alloc, number, 1)?;
    filling.types.push(ty)?;
    filling.images.push(Given { name, text: image })?;
    filling.syntaxes.push(Given { name, text })?;
    Ok(())
}

/// The field so many times.
fn repeated(alloc: Global, number: u32, count: usize) -> Result<Vec<Glyph>, Memory>
    ensures { IfOk result (λ v. v.items ≡ replicate count (glyph.Field number)) }
{
    let field = vec![in alloc; Glyph::Field(number); count]?;
    Ok(field)
}
