//! The texts of globals, and of a whole program.

ghost use Rattle.std.specs.Prelude.{◌≡◌, ◌++◌, OnOk, IfOk, flat_map, map};
ghost use Rattle.c_tree.specs.Items.{Variables, item, items};
ghost use Rattle.c_tree.specs.SpellGlobals.{minus_spelling, snum_spelling, further_snums_spelling, gvar_spelling, further_gvars_spelling, result_spelling, param_spelling, further_params_spelling, params_spelling, item_spelling, spelling};
ghost use Rattle.c_tree.specs.declared.program.Global.TheVariants as global;
ghost use Rattle.c_tree.specs.Joined.{joined};
ghost use Rattle.c_tree.specs.Ended.{ended};

use crate::program::{CTree, Function, GVar, Global, Param, Params, ResultWord, SNum, Vars};
use crate::spell_leaf::{push_name, push_number, push_type, push_word};
use crate::spell_stmt::push_block;
use nk_base::{Memory, Text};
use std::alloc;

/// The text of a program: the texts of its tokens with one blank between two, numbers in decimal.
///
/// The rule is this project's own. The one error is want of memory.
pub fn spell(alloc: alloc::Global, t: &CTree) -> Result<Text, Memory>
    ensures { IfOk result (λ text. text ≡ joined (spelling (items t.now))) }
{
    let mut text = Text::new(alloc);
    push_globals(&mut text, t.globals.as_slice())?;
    let mut bytes = text.into_vec();
    bytes.pop();
    Ok(Text::from_vec(bytes))
}

/// Appends the globals, one after the other.
#[tactic(auto, using(crate::proofs::EndedLaws::ended_laws))]
fn push_globals(text: &mut Text, globals: &[Global]) -> Result<(), Memory>
    ensures { OnOk result (text.new ≡ text.old ++ ended (spelling (map item globals.now))) }
{
    for one in globals {
        push_global(text, one)?;
    }
    Ok(())
}

/// Appends the global.
#[tactic(auto, using(crate::proofs::EndedLaws::ended_laws))]
fn push_global(text: &mut Text, one: &Global) -> Result<(), Memory>
    ensures { OnOk result (text.new ≡ text.old ++ ended (item_spelling (item one.now))) }
{
    match one {
        Global::Vars(vars) => push_vars(text, vars),
        Global::Function(function) => push_function(text, function),
    }
}

/// Appends the variables.
#[tactic(auto, using(crate::proofs::EndedLaws::ended_laws))]
fn push_vars(text: &mut Text, vars: &Vars) -> Result<(), Memory>
    ensures { OnOk result (text.new ≡ text.old ++ ended (item_spelling (Variables vars.now))) }
{
    push_type(text, vars.word)?;
    push_gvar(text, &vars.first)?;
    push_gvars(text, vars.rest.as_slice())?;
    push_word(text, b";")
}

/// Appends the variable.
#[tactic(auto, using(crate::proofs::EndedLaws::ended_laws))]
fn push_gvar(text: &mut Text, one: &GVar) -> Result<(), Memory>
    ensures { OnOk result (text.new ≡ text.old ++ ended (gvar_spelling one.now)) }
{
    match one {
        GVar::Scalar(name, value) => match value {
            None => push_name(text, name),
            Some((_, z)) => {
                push_name(text, name)?;
                push_word(text, b"=")?;
                push_snum(text, *z)
            }
        },
        GVar::Array(name, _, length, _, initials) => match initials {
            None => {
                push_name(text, name)?;
                push_word(text, b"[")?;
                push_number(text, *length)?;
                push_word(text, b"]")
            }
            Some((_, _, z, rest, _)) => {
                push_name(text, name)?;
                push_word(text, b"[")?;
                push_number(text, *length)?;
                push_word(text, b"] = {")?;
                push_snum(text, *z)?;
                push_snums(text, rest.as_slice())?;
                push_word(text, b"}")
            }
        },
    }
}

/// Appends further variables, each with the comma before it.
#[tactic(auto, using(crate::proofs::EndedLaws::ended_laws))]
fn push_gvars(text: &mut Text, rest: &[(u32, GVar)]) -> Result<(), Memory>
    ensures { OnOk result (text.new ≡ text.old ++ ended (further_gvars_spelling rest.now)) }
{
    for (_, one) in rest {
        push_word(text, b",")?;
        push_gvar(text, one)?;
    }
    Ok(())
}

/// Appends the initial value.
#[tactic(auto, using(crate::proofs::EndedLaws::ended_laws))]
fn push_snum(text: &mut Text, z: SNum) -> Result<(), Memory>
    ensures { OnOk result (text.new ≡ text.old ++ ended (snum_spelling z)) }
{
    match z.minus {
        None => push_number(text, z.number),
        Some(_) => {
            push_word(text, b"-")?;
            push_number(text, z.number)
        }
    }
}

/// Appends further initial values, each with the comma before it.
#[tactic(auto, using(crate::proofs::EndedLaws::ended_laws))]
fn push_snums(text: &mut Text, rest: &[(u32, SNum)]) -> Result<(), Memory>
    ensures { OnOk result (text.new ≡ text.old ++ ended (further_snums_spelling rest.now)) }
{
    for (_, z) in rest {
        push_word(text, b",")?;
        push_snum(text, *z)?;
    }
    Ok(())
}

/// Appends the word of the result.
fn push_result(text: &mut Text, word: ResultWord) -> Result<(), Memory>
    ensures { OnOk result (text.new ≡ text.old ++ ended (result_spelling word)) }
{
    match word {
        ResultWord::Type(ty) => push_type(text, ty),
        ResultWord::Void(_) => push_word(text, b"void"),
    }
}

/// Appends the parameter.
#[tactic(auto, using(crate::proofs::EndedLaws::ended_laws))]
fn push_param(text: &mut Text, param: &Param) -> Result<(), Memory>
    ensures { OnOk result (text.new ≡ text.old ++ ended (param_spelling param.now)) }
{
    push_type(text, param.word)?;
    push_name(text, &param.name)
}

/// Appends the parameters, where there are.
#[tactic(auto, using(crate::proofs::EndedLaws::ended_laws))]
fn push_params(text: &mut Text, params: &Option<Params>) -> Result<(), Memory>
    ensures { OnOk result (text.new ≡ text.old ++ ended (params_spelling params.now)) }
{
    match params {
        None => Ok(()),
        Some(found) => match found {
            Params::Void(_) => push_word(text, b"void"),
            Params::Named(first, rest) => {
                push_param(text, first)?;
                push_further_params(text, rest.as_slice())
            }
        },
    }
}

/// Appends further parameters, each with the comma before it.
#[tactic(auto, using(crate::proofs::EndedLaws::ended_laws))]
fn push_further_params(text: &mut Text, rest: &[(u32, Param)]) -> Result<(), Memory>
    ensures { OnOk result (text.new ≡ text.old ++ ended (further_params_spelling rest.now)) }
{
    for (_, param) in rest {
        push_word(text, b",")?;
        push_param(text, param)?;
    }
    Ok(())
}

/// Appends the function.
#[tactic(auto, using(crate::proofs::EndedLaws::ended_laws))]
fn push_function(text: &mut Text, function: &Function) -> Result<(), Memory>
    ensures { OnOk result (text.new ≡ text.old ++ ended (item_spelling (item (global.Function function.now)))) }
{
    push_result(text, function.result)?;
    push_name(text, &function.name)?;
    push_word(text, b"(")?;
    push_params(text, &function.params)?;
    push_word(text, b")")?;
    push_block(text, &function.body)
}
