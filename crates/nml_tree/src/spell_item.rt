//! The texts of items, and of a whole description.

ghost use Rattle.std.specs.Prelude.{◌≡◌, ◌++◌, OnOk, IfOk, ℕ, flat_map};
ghost use Rattle.nml_tree.specs.SpellItems.{par_spelling, further_par_spelling, pars_spelling, further_name_spelling, storage_word_spelling, port_word_spelling, rule_word_spelling, minus_spelling, item_spelling, spelling};
ghost use Rattle.nml_tree.specs.declared.tree.Item.TheVariants as item;
ghost use Rattle.nml_tree.specs.Joined.{joined};
ghost use Rattle.nml_tree.specs.Ended.{ended};

use crate::names::Name;
use crate::spell_attrs::push_attrs;
use crate::spell_expr::push_expr;
use crate::spell_leaf::{push_name, push_number, push_size, push_type, push_word};
use crate::tree::{
    Desc, Item, ModeRule, OpRule, OrRule, Par, Pars, Port, PortWord, RuleWord, Storage, StorageWord,
};
use nk_base::{Memory, Text};
use std::alloc::Global;

/// The text of a description: the texts of its tokens with one blank between two, numbers in decimal, strings between
/// quotes, and `op` for both `op` and `opn`.
///
/// The rule is this project's own. The one error is want of memory.
pub fn spell(alloc: Global, d: &Desc) -> Result<Text, Memory>
    ensures { IfOk result (λ t. t ≡ joined (spelling d.now)) }
{
    let mut text = Text::new(alloc);
    push_items(&mut text, d.items.as_slice())?;
    let mut bytes = text.into_vec();
    bytes.pop();
    Ok(Text::from_vec(bytes))
}

/// Appends the items, one after the other.
#[tactic(auto, using(crate::proofs::EndedLaws::ended_laws))]
fn push_items(text: &mut Text, items: &[Item]) -> Result<(), Memory>
    ensures { OnOk result (text.new ≡ text.old ++ ended (flat_map item_spelling items.now)) }
{
    for item in items {
        push_item(text, item)?;
    }
    Ok(())
}

/// Appends the item.
#[tactic(auto, using(crate::proofs::EndedLaws::ended_laws))]
fn push_item(text: &mut Text, item: &Item) -> Result<(), Memory>
    ensures { OnOk result (text.new ≡ text.old ++ ended (item_spelling item.now)) }
{
    match item {
        Item::Let(_, name, _, minus, number) => {
            push_word(text, b"let")?;
            push_name(text, name)?;
            push_word(text, b"=")?;
            push_minus(text, *minus)?;
            push_number(text, number.value)
        }
        Item::Type(_, name, _, ty) => {
            push_word(text, b"type")?;
            push_name(text, name)?;
            push_word(text, b"=")?;
            push_type(text, ty)
        }
        Item::Storage(storage) => push_storage(text, storage),
        Item::Port(port) => push_port(text, port),
        Item::OrRule(rule) => push_or_rule(text, rule),
        Item::OpRule(rule) => push_op_rule(text, rule),
        Item::ModeRule(rule) => push_mode_rule(text, rule),
    }
}

/// Appends the minus, where there is one.
fn push_minus(text: &mut Text, minus: Option<u32>) -> Result<(), Memory>
    ensures { OnOk result (text.new ≡ text.old ++ ended (minus_spelling minus)) }
{
    match minus {
        None => Ok(()),
        Some(_) => push_word(text, b"-"),
    }
}

/// Appends `mem` or `reg`.
fn push_storage_word(text: &mut Text, word: StorageWord) -> Result<(), Memory>
    ensures { OnOk result (text.new ≡ text.old ++ ended (storage_word_spelling word)) }
{
    match word {
        StorageWord::Mem(_) => push_word(text, b"mem"),
        StorageWord::Reg(_) => push_word(text, b"reg"),
    }
}

/// Appends the storage.
#[tactic(auto, using(crate::proofs::EndedLaws::ended_laws))]
fn push_storage(text: &mut Text, storage: &Storage) -> Result<(), Memory>
    ensures { OnOk result (text.new ≡ text.old ++ ended (item_spelling (item.Storage storage.now))) }
{
    push_storage_word(text, storage.word)?;
    push_name(text, &storage.name)?;
    push_word(text, b"[")?;
    push_size(text, &storage.size)?;
    push_word(text, b",")?;
    push_type(text, &storage.ty)?;
    push_word(text, b"]")
}

/// Appends `trn`, `inp` or `out`.
fn push_port_word(text: &mut Text, word: PortWord) -> Result<(), Memory>
    ensures { OnOk result (text.new ≡ text.old ++ ended (port_word_spelling word)) }
{
    match word {
        PortWord::Trn(_) => push_word(text, b"trn"),
        PortWord::Inp(_) => push_word(text, b"inp"),
        PortWord::Out(_) => push_word(text, b"out"),
    }
}

/// Appends the transitory or port.
#[tactic(auto, using(crate::proofs::EndedLaws::ended_laws))]
fn push_port(text: &mut Text, port: &Port) -> Result<(), Memory>
    ensures { OnOk result (text.new ≡ text.old ++ ended (item_spelling (item.Port port.now))) }
{
    push_port_word(text, port.word)?;
    push_name(text, &port.name)?;
    push_word(text, b"[")?;
    push_type(text, &port.ty)?;
    push_word(text, b"]")
}

/// Appends `op` or `mode`.
fn push_rule_word(text: &mut Text, word: RuleWord) -> Result<(), Memory>
    ensures { OnOk result (text.new ≡ text.old ++ ended (rule_word_spelling word)) }
{
    match word {
        RuleWord::Op(_) => push_word(text, b"op"),
        RuleWord::Mode(_) => push_word(text, b"mode"),
    }
}

/// Appends the rule of alternatives.
#[tactic(auto, using(crate::proofs::EndedLaws::ended_laws))]
fn push_or_rule(text: &mut Text, rule: &OrRule) -> Result<(), Memory>
    ensures { OnOk result (text.new ≡ text.old ++ ended (item_spelling (item.OrRule rule.now))) }
{
    push_rule_word(text, rule.word)?;
    push_name(text, &rule.name)?;
    push_word(text, b"=")?;
    push_name(text, &rule.first)?;
    push_further_names(text, rule.rest.as_slice())
}

/// Appends the alternatives, each with the bar before it.
#[tactic(auto, using(crate::proofs::EndedLaws::ended_laws))]
fn push_further_names(text: &mut Text, names: &[(u32, Name)]) -> Result<(), Memory>
    ensures { OnOk result (text.new ≡ text.old ++ ended (flat_map further_name_spelling names.now)) }
{
    for (_, name) in names {
        push_further_name(text, name)?;
    }
    Ok(())
}

/// Appends the bar and the name.
#[tactic(auto, using(crate::proofs::EndedLaws::ended_laws))]
fn push_further_name(text: &mut Text, name: &Name) -> Result<(), Memory>
    ensures { OnOk result ((bar : ℕ) → text.new ≡ text.old ++ ended (further_name_spelling (bar, name.now))) }
{
    push_word(text, b"|")?;
    push_name(text, name)
}

/// Appends the parameter.
#[tactic(auto, using(crate::proofs::EndedLaws::ended_laws))]
fn push_par(text: &mut Text, par: &Par) -> Result<(), Memory>
    ensures { OnOk result (text.new ≡ text.old ++ ended (par_spelling par.now)) }
{
    push_name(text, &par.name)?;
    push_word(text, b":")?;
    push_type(text, &par.ty)
}

/// Appends the comma and the parameter.
#[tactic(auto, using(crate::proofs::EndedLaws::ended_laws))]
fn push_further_par(text: &mut Text, par: &Par) -> Result<(), Memory>
    ensures { OnOk result ((comma : ℕ) → text.new ≡ text.old ++ ended (further_par_spelling (comma, par.now))) }
{
    push_word(text, b",")?;
    push_par(text, par)
}

/// Appends the parameters, each with the comma before it.
#[tactic(auto, using(crate::proofs::EndedLaws::ended_laws))]
fn push_further_pars(text: &mut Text, pars: &[(u32, Par)]) -> Result<(), Memory>
    ensures { OnOk result (text.new ≡ text.old ++ ended (flat_map further_par_spelling pars.now)) }
{
    for (_, par) in pars {
        push_further_par(text, par)?;
    }
    Ok(())
}

/// Appends the parameters, where there are.
#[tactic(auto, using(crate::proofs::EndedLaws::ended_laws))]
fn push_pars(text: &mut Text, pars: &Option<Pars>) -> Result<(), Memory>
    ensures { OnOk result (text.new ≡ text.old ++ ended (pars_spelling pars.now)) }
{
    match pars {
        None => Ok(()),
        Some(found) => {
            push_par(text, &found.first)?;
            push_further_pars(text, found.rest.as_slice())
        }
    }
}

/// Appends the rule without a value.
#[tactic(auto, using(crate::proofs::EndedLaws::ended_laws))]
fn push_op_rule(text: &mut Text, rule: &OpRule) -> Result<(), Memory>
    ensures { OnOk result (text.new ≡ text.old ++ ended (item_spelling (item.OpRule rule.now))) }
{
    push_word(text, b"op")?;
    push_name(text, &rule.name)?;
    push_word(text, b"(")?;
    push_pars(text, &rule.pars)?;
    push_word(text, b")")?;
    push_attrs(text, &rule.attrs)
}

/// Appends the rule with a value.
#[tactic(auto, using(crate::proofs::EndedLaws::ended_laws))]
fn push_mode_rule(text: &mut Text, rule: &ModeRule) -> Result<(), Memory>
    ensures { OnOk result (text.new ≡ text.old ++ ended (item_spelling (item.ModeRule rule.now))) }
{
    push_word(text, b"mode")?;
    push_name(text, &rule.name)?;
    push_word(text, b"(")?;
    push_pars(text, &rule.pars)?;
    push_word(text, b") =")?;
    push_expr(text, &rule.value)?;
    push_attrs(text, &rule.attrs)
}
