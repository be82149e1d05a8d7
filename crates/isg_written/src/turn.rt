//! What a derivation of a rule begins with, the rule found by its name.

ghost use Rattle.std.specs.Prelude.{◌≡◌, ◌≤◌, ◌∷◌, Option, Some, length, map, option_map, slice_get, MatchOption};
ghost use Rattle.attr_eval.specs.Turn.{IsTurn};
ghost use Rattle.nml_known.specs.Known.{known};
ghost use Rattle.nml_tree.specs.Table as spec;
ghost use Rattle.nml_tree.specs.Table.{Table, declared, entry, parameter_of, table};
ghost use Rattle.nml_tree.specs.Worth as worth;

use crate::numbered::Numbered;
use attr_eval::{Made, Turn};
use nk_base::Text;
use nml_known::Known;
use nml_tree::{Item, OrRule, TypeExpr};

/// What a derivation of the rule of this name begins with.
pub fn turn<'r, 'a>(numbered: &'r Numbered<'_>, name: &Text, picks: &'a [u32]) -> Turn<'r, 'a>
    ensures { IsTurn (table numbered.now) name.now picks.now result }
{
    let names = numbered.names();
    match names.number(name) {
        None => Turn::Nothing,
        Some(n) => match names.items().get(n) {
            None => Turn::Nothing,
            Some(item) => item_turn(item, picks),
        },
    }
}

/// What a derivation of what the item declares begins with.
fn item_turn<'r, 'a>(item: &'r Item, picks: &'a [u32]) -> Turn<'r, 'a>
    ensures { (t u : Table) (name : spec.Text) → declared t name ≡ Some (entry u item.now).1 → IsTurn t name picks.now result }
{
    match item {
        Item::OrRule(rule) => match picks.split_first() {
            None => Turn::Nothing,
            Some((k, rest)) => match name_at(rule, *k as usize) {
                None => Turn::Nothing,
                Some(chosen) => Turn::Picked(chosen, rest),
            },
        },
        Item::OpRule(rule) => Turn::Made(Made {
            pars: &rule.pars,
            value: None,
            attrs: &rule.attrs,
        }),
        Item::ModeRule(rule) => Turn::Made(Made {
            pars: &rule.pars,
            value: Some(&rule.value),
            attrs: &rule.attrs,
        }),
        Item::Let(_, _, _, _, _) => Turn::Nothing,
        Item::Type(_, _, _, _) => Turn::Nothing,
        Item::Storage(_) => Turn::Nothing,
        Item::Port(_) => Turn::Nothing,
    }
}

/// The alternative of this number.
fn name_at(rule: &OrRule, k: usize) -> Option<&Text>
    ensures { MatchOption result (length (rule.now.first.text ∷ map (λ (bar, n). n.text) rule.now.rest) ≤ k) (λ name. slice_get (rule.now.first.text ∷ map (λ (bar, n). n.text) rule.now.rest) k ≡ Some name.now) }
{
    if k == 0 {
        return Some(&rule.first.text);
    }
    match rule.rest.as_slice().get(k - 1) {
        None => None,
        Some((_, name)) => Some(&name.text),
    }
}

/// The rule that a parameter's type names; `None` exactly where it names none.
pub fn part_of<'r>(numbered: &Numbered<'_>, ty: &'r TypeExpr) -> Option<&'r Text>
    ensures { MatchOption result ((rule : spec.Text) → parameter_of (table numbered.now) ty.now ≡ Some (spec.Parameter.Part rule) → ⊥) (λ rule. parameter_of (table numbered.now) ty.now ≡ Some (spec.Parameter.Part rule.now)) }
{
    match ty {
        TypeExpr::Bool(_) => None,
        TypeExpr::Card(_, _, _, _) => None,
        TypeExpr::Int(_, _, _, _) => None,
        TypeExpr::Fix(_, _, _, _, _, _) => None,
        TypeExpr::Float(_, _, _, _, _, _) => None,
        TypeExpr::Name(name) => {
            if is_rule(numbered.names().declared(&name.text)) {
                Some(&name.text)
            } else {
                None
            }
        }
    }
}

/// Whether a rule is declared.
fn is_rule(k: Option<Known>) -> bool
    ensures { (o : Option spec.Declared) → k ≡ option_map known o → result ≡ worth.is_rule o }
{
    match k {
        None => false,
        Some(Known::Constant(_)) => false,
        Some(Known::TypeName(_)) => false,
        Some(Known::Storage(_, _)) => false,
        Some(Known::Trn(_)) => false,
        Some(Known::Inp(_)) => false,
        Some(Known::Out(_)) => false,
        Some(Known::Or(_)) => true,
        Some(Known::And(_)) => true,
    }
}
