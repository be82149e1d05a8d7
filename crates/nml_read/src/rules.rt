//! Rules, from symbols.
ghost use Rattle.std.specs.Prelude.{◌<◌, ◌≤◌, length, map, IfOk, codes};
ghost use Rattle.readings.specs.Reading.{Found};
ghost use Rattle.readings.specs.Readings.{◌>>>◌, further};
ghost use Rattle.readings.specs.Seen.{seen, Says};
ghost use Rattle.nml_tree.specs.declared.tree.RuleWord.TheVariants as rule_words;
ghost use Rattle.nml_grammar.specs.Words as spec;
ghost use Rattle.nml_grammar.specs.ReadingItems as items;

use crate::attributes::attrs;
use crate::parameters::pars;
use nml_statement::{name, whole};
use nml_tree::{Expr, Item, ModeRule, Name, OpRule, OrRule, RuleWord};
use readings::{Sign, Stop, behind, mark};
use sqlite_items::Items;
use std::alloc::Global;

/// How deep the value of a mode may be, as an item of 200 nodes on a path has it one node below.
const VALUE_DEPTH: usize = 199;

/// A rule behind `op` at this place.
pub fn op<'t, 'a>(
    alloc: Global,
    at: u32,
    signs: &'t [Sign<'a>],
) -> Result<(Item, &'t [Sign<'a>]), Stop>
    ensures says { Says (λ x. Found x.0 (map seen x.1.now)) result (items.rule (rule_words.Op at) (items.op_rule at)) (map seen signs.now) }
    ensures shorter { IfOk result (λ x. length x.1.now < length signs.now) }
{
    let (name, rest) = name(alloc, signs)?;
    match behind(b"=", rest) {
        Some((equals, rest)) => or_rule(alloc, RuleWord::Op(at), name, equals, rest),
        None => op_rule(alloc, at, name, rest),
    }
}

/// A rule behind `mode` at this place.
pub fn mode<'t, 'a>(
    alloc: Global,
    at: u32,
    signs: &'t [Sign<'a>],
) -> Result<(Item, &'t [Sign<'a>]), Stop>
    ensures says { Says (λ x. Found x.0 (map seen x.1.now)) result (items.rule (rule_words.Mode at) (items.mode_rule at)) (map seen signs.now) }
    ensures shorter { IfOk result (λ x. length x.1.now < length signs.now) }
{
    let (name, rest) = name(alloc, signs)?;
    match behind(b"=", rest) {
        Some((equals, rest)) => or_rule(alloc, RuleWord::Mode(at), name, equals, rest),
        None => mode_rule(alloc, at, name, rest),
    }
}

/// The alternatives, behind `=`.
fn or_rule<'t, 'a>(
    alloc: Global,
    word: RuleWord,
    name: Name,
    equals: u32,
    signs: &'t [Sign<'a>],
) -> Result<(Item, &'t [Sign<'a>]), Stop>
    ensures says { Says (λ x. Found x.0 (map seen x.1.now)) result (items.or_rule word name equals) (map seen signs.now) }
    ensures shorter { IfOk result (λ x. length x.1.now < length signs.now) }
{
    let (first, others, rest) = alternatives(alloc, signs)?;
    let rule = OrRule {
        word,
        name,
        equals,
        first,
        rest: others,
    };
    Ok((Item::OrRule(rule), rest))
}

/// A name, and others behind bars.
fn alternatives<'t, 'a>(
    alloc: Global,
    signs: &'t [Sign<'a>],
) -> Result<(Name, Items<(u32, Name)>, &'t [Sign<'a>]), Stop>
    ensures says { Says (λ x. Found (x.0, x.1) (map seen x.2.now)) result (spec.name >>> further (codes "|") spec.name) (map seen signs.now) }
    ensures shorter { IfOk result (λ x. length x.2.now < length signs.now) }
{
    let (first, rest) = name(alloc, signs)?;
    let (others, rest) = further_names(alloc, rest)?;
    Ok((first, others, rest))
}

/// Names, each behind a bar.
fn further_names<'t, 'a>(
    alloc: Global,
    signs: &'t [Sign<'a>],
) -> Result<(Items<(u32, Name)>, &'t [Sign<'a>]), Stop>
    ensures says { Says (λ x. Found x.0 (map seen x.1.now)) result (further (codes "|") spec.name) (map seen signs.now) }
    ensures shorter { IfOk result (λ x. length x.1.now ≤ length signs.now) }
{
    let mut found = Items::new(alloc);
    // all of them, by a call, since each turn replaces them by what a call gives
    let (_, mut rest) = signs.split_at(0);
    while let Some((bar, after)) = behind(b"|", rest) {
        let (name, after) = name(alloc, after)?;
        found.push((bar, name))?;
        rest = after;
    }
    Ok((found, rest))
}

/// `( pars ) attrs`, behind `op` at this place and a name.
fn op_rule<'t, 'a>(
    alloc: Global,
    at: u32,
    name: Name,
    signs: &'t [Sign<'a>],
) -> Result<(Item, &'t [Sign<'a>]), Stop>
    ensures says { Says (λ x. Found x.0 (map seen x.1.now)) result (items.op_rule at name) (map seen signs.now) }
    ensures shorter { IfOk result (λ x. length x.1.now < length signs.now) }
{
    let (opening, rest) = mark(b"(", signs)?;
    let (pars, rest) = pars(alloc, rest)?;
    let (closing, rest) = mark(b")", rest)?;
    let (attrs, rest) = attrs(alloc, rest)?;
    let rule = OpRule {
        op: at,
        name,
        opening,
        pars,
        closing,
        attrs,
    };
    Ok((Item::OpRule(rule), rest))
}

/// `( pars ) = e attrs`, behind `mode` at this place and a name.
fn mode_rule<'t, 'a>(
    alloc: Global,
    at: u32,
    name: Name,
    signs: &'t [Sign<'a>],
) -> Result<(Item, &'t [Sign<'a>]), Stop>
    ensures says { Says (λ x. Found x.0 (map seen x.1.now)) result (items.mode_rule at name) (map seen signs.now) }
    ensures shorter { IfOk result (λ x. length x.1.now < length signs.now) }
{
    let (opening, rest) = mark(b"(", signs)?;
    let (pars, rest) = pars(alloc, rest)?;
    let (closing, rest) = mark(b")", rest)?;
    let (equals, rest) = mark(b"=", rest)?;
    let (value, rest) = value(alloc, rest)?;
    let (attrs, rest) = attrs(alloc, rest)?;
    let rule = ModeRule {
        mode: at,
        name,
        opening,
        pars,
        closing,
        equals,
        value,
        attrs,
    };
    Ok((Item::ModeRule(rule), rest))
}

/// The value of a mode.
fn value<'t, 'a>(alloc: Global, signs: &'t [Sign<'a>]) -> Result<(Expr, &'t [Sign<'a>]), Stop>
    ensures says { Says (λ x. Found x.0 (map seen x.1.now)) result items.value (map seen signs.now) }
    ensures shorter { IfOk result (λ x. length x.1.now < length signs.now) }
{
    whole(alloc, VALUE_DEPTH, signs)
}
