//! What a rule is made of, found by its name.

ghost use Rattle.std.specs.Prelude.{◌≡◌, Option, Some, option_map, MatchOption};
ghost use Rattle.nml_known.specs.Known.{known};
ghost use Rattle.nml_tree.specs.Table as spec;
ghost use Rattle.nml_tree.specs.Table.{Table, declared, entry, parameter_of, table};
ghost use Rattle.nml_tree.specs.Worth as worth;
ghost use Rattle.shape_list.specs.Body.{IsBody};

use nk_base::Text;
use nml_known::{Known, Names};
use nml_tree::{Attrs, Item, OrRule, Pars, TypeExpr};

/// The alternatives of an or-rule, or the parameters and attributes of an and-rule; or the name is that of no rule.
#[derive(Clone, Copy)]
pub enum Body<'r> {
    Or(&'r OrRule),
    And(&'r Option<Pars>, &'r Attrs),
    Nothing,
}

/// What the rule of this name is made of.
pub fn rule_named<'r>(names: &'r Names<'_>, name: &Text) -> Body<'r>
    ensures { IsBody (declared (table names.now) name.now) result }
{
    match names.number(name) {
        None => Body::Nothing,
        Some(number) => match names.items().get(number) {
            None => Body::Nothing,
            Some(item) => made_of(item),
        },
    }
}

/// What an item declares, where that is a rule.
fn made_of(item: &Item) -> Body<'_>
    ensures { (t : Table) → IsBody (Some (entry t item.now).1) result }
{
    match item {
        Item::Let(_, _, _, _, _) => Body::Nothing,
        Item::Type(_, _, _, _) => Body::Nothing,
        Item::Storage(_) => Body::Nothing,
        Item::Port(_) => Body::Nothing,
        Item::OrRule(rule) => Body::Or(rule),
        Item::OpRule(rule) => Body::And(&rule.pars, &rule.attrs),
        Item::ModeRule(rule) => Body::And(&rule.pars, &rule.attrs),
    }
}

/// The rule that a parameter's type names; `None` exactly where it names none.
pub fn part_of<'r>(names: &Names<'_>, ty: &'r TypeExpr) -> Option<&'r Text>
    ensures { MatchOption result ((rule : spec.Text) → parameter_of (table names.now) ty.now ≡ Some (spec.Parameter.Part rule) → ⊥) (λ rule. parameter_of (table names.now) ty.now ≡ Some (spec.Parameter.Part rule.now)) }
{
    match ty {
        TypeExpr::Bool(_) => None,
        TypeExpr::Card(_, _, _, _) => None,
        TypeExpr::Int(_, _, _, _) => None,
        TypeExpr::Fix(_, _, _, _, _, _) => None,
        TypeExpr::Float(_, _, _, _, _, _) => None,
        TypeExpr::Name(name) => {
            if is_rule(names.declared(&name.text)) {
                Some(&name.text)
            } else {
                None
            }
        }
    }
}

/// Whether a rule is declared.
fn is_rule(k: Option<Known>) -> bool
    ensures { (o : Option spec.Declared) → k ≡ option_map known o → result ≡ worth.is_rule o }
{
    match k {
        None => false,
        Some(Known::Constant(_)) => false,
        Some(Known::TypeName(_)) => false,
        Some(Known::Storage(_, _)) => false,
        Some(Known::Trn(_)) => false,
        Some(Known::Inp(_)) => false,
        Some(Known::Out(_)) => false,
        Some(Known::Or(_)) => true,
        Some(Known::And(_)) => true,
    }
}
