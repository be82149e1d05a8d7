//! The faults and calls of declarations.

ghost use Rattle.std.specs.Prelude.{◌≡◌, ◌∷◌, [], ◌++◌, OnOk, map, option_map, drop};
ghost use Rattle.c_tree.specs.Statement.{variable, declaration, opening};
ghost use Rattle.c_tree.specs.Names.{inner, declared_variables, behind_variable, behind_variables, behind_opening, behind_gvar, behind_gvars, behind_parameters, gvars, parameters};
ghost use Rattle.c_tree.specs.Faults.{declared_faults, variable_faults, variables_faults, opening_faults, initial_faults, initials_faults, too_many_faults, gvar_faults, gvars_faults, params_faults};
ghost use Rattle.c_tree.specs.Recursion.{variable_callees, variables_callees, opening_callees};
ghost use Rattle.c_names.specs.Shown.{names};
ghost use Rattle.c_check.specs.Note.{noted};
ghost use Rattle.c_walk.specs.Walk.{listed, starts_of, further_gvars, further_params};

use crate::expression::{expression, simple_statement};
use crate::note::{Notes, place_of};
use crate::numbers::Width;
use c_names::Scopes;
use c_tree::{Decl, First, GVar, LVar, Name, Param, Params, SNum, Vars};
use nk_base::Memory;
use sqlite_items::Items;
use std::alloc::Global;

/// Notes a name that is declared and may not be.
pub fn declared(scopes: &Scopes, name: &Name, notes: &mut Notes)
    ensures { notes.new ≡ record notes.old { found = noted notes.old.found (declared_faults (names scopes.now) name.now) } }
{
    notes.name_unless(!scopes.is_taken(&name.text), name.at);
}

/// Notes the faults and the calls of a local variable, and declares it.
#[tactic(auto, using(crate::proofs::WalkLaws::walk_laws))]
fn local(scopes: &mut Scopes, width: Width, one: &LVar, notes: &mut Notes) -> Result<(), Memory>
    ensures scopes { OnOk result (names scopes.new ≡ behind_variable (names scopes.old) (variable one.now)) }
    ensures found { OnOk result (notes.new.found ≡ noted notes.old.found (variable_faults width.bits (names scopes.old) (variable one.now))) }
    ensures calls { OnOk result (notes.new.calls.items ≡ notes.old.calls.items ++ variable_callees (names scopes.old) (variable one.now)) }
{
    match one {
        LVar::Scalar(name, value) => match value {
            None => {
                declared(scopes, name, notes);
                scopes.declare_local(&name.text, None)
            }
            Some((_, e)) => {
                declared(scopes, name, notes);
                scopes.declare_local(&name.text, None)?;
                expression(scopes, width, e, notes)
            }
        },
        LVar::Array(name, _, length, _) => {
            declared(scopes, name, notes);
            notes.length(*length);
            scopes.declare_local(&name.text, Some(length.value))
        }
    }
}

/// Notes the faults and the calls of further local variables, and declares them.
#[tactic(auto, using(crate::proofs::WalkLaws::walk_laws))]
fn further_locals(
    scopes: &mut Scopes,
    width: Width,
    rest: &[(u32, LVar)],
    notes: &mut Notes,
) -> Result<(), Memory>
    ensures scopes { OnOk result (names scopes.new ≡ behind_variables (names scopes.old) (listed rest.now)) }
    ensures found { OnOk result (notes.new.found ≡ noted notes.old.found (variables_faults width.bits (names scopes.old) (listed rest.now))) }
    ensures calls { OnOk result (notes.new.calls.items ≡ notes.old.calls.items ++ variables_callees (names scopes.old) (listed rest.now)) }
{
    for (_, one) in rest {
        local(scopes, width, one, notes)?;
    }
    Ok(())
}

/// Notes the faults and the calls of a declaration, and declares its variables.
#[tactic(auto, using(crate::proofs::WalkLaws::walk_laws))]
pub fn locals(
    scopes: &mut Scopes,
    width: Width,
    decl: &Decl,
    notes: &mut Notes,
) -> Result<(), Memory>
    ensures scopes { OnOk result (names scopes.new ≡ behind_variables (names scopes.old) (declared_variables (declaration decl.now))) }
    ensures found { OnOk result (notes.new.found ≡ noted notes.old.found (variables_faults width.bits (names scopes.old) (declared_variables (declaration decl.now)))) }
    ensures calls { OnOk result (notes.new.calls.items ≡ notes.old.calls.items ++ variables_callees (names scopes.old) (declared_variables (declaration decl.now))) }
{
    local(scopes, width, &decl.first, notes)?;
    further_locals(scopes, width, decl.rest.as_slice(), notes)
}

/// Begins the block of a `for`, and notes the faults and the calls of its first part, where there is one.
#[tactic(auto, using(crate::proofs::WalkLaws::walk_laws))]
pub fn first_part(
    scopes: &mut Scopes,
    alloc: Global,
    width: Width,
    first: &Option<First>,
    notes: &mut Notes,
) -> Result<(), Memory>
    ensures scopes { OnOk result (names scopes.new ≡ behind_opening (names scopes.old) (option_map opening first.now)) }
    ensures found { OnOk result (notes.new.found ≡ noted notes.old.found (opening_faults width.bits (inner (names scopes.old)) (option_map opening first.now))) }
    ensures calls { OnOk result (notes.new.calls.items ≡ notes.old.calls.items ++ opening_callees (inner (names scopes.old)) (option_map opening first.now)) }
{
    scopes.enter(alloc)?;
    match first {
        None => Ok(()),
        Some(part) => match part {
            First::Simple(simple) => simple_statement(scopes, width, simple, notes),
            First::Var(_, one) => local(scopes, width, one, notes),
        },
    }
}

/// Notes further initial values that aren't in their range.
fn further_starts(width: Width, rest: &[(u32, SNum)], notes: &mut Notes)
    ensures found { notes.new.found ≡ noted notes.old.found (starts_of width.bits rest.now) }
    ensures calls { notes.new.calls ≡ notes.old.calls }
{
    for (_, z) in rest {
        notes.start(width, *z);
    }
}

/// Notes the first initial value that an array of this length has no element for.
fn first_too_many(length: u64, first: SNum, rest: &[(u32, SNum)], notes: &mut Notes)
    ensures { notes.new ≡ record notes.old { found = noted notes.old.found (too_many_faults (drop length (first ∷ map (λ (comma, v). v) rest.now))) } }
{
    if length == 0 {
        notes.kind_unless(false, place_of(first));
    } else {
        let at = (length - 1) as usize;
        match rest.get(at) {
            None => {}
            Some((_, z)) => notes.kind_unless(false, place_of(*z)),
        }
    }
}

/// Notes the faults of an array's initial values.
#[tactic(auto, using(crate::proofs::WalkLaws::walk_laws))]
fn initial_values(
    width: Width,
    length: u64,
    first: SNum,
    rest: &Items<(u32, SNum)>,
    notes: &mut Notes,
)
    ensures found { notes.new.found ≡ noted notes.old.found (initials_faults width.bits length (first ∷ map (λ (comma, v). v) rest.now)) }
    ensures calls { notes.new.calls ≡ notes.old.calls }
{
    let others = rest.as_slice();
    notes.start(width, first);
    further_starts(width, others, notes);
    first_too_many(length, first, others, notes);
}

/// Notes the faults of a global variable, and declares it.
#[tactic(auto, using(crate::proofs::WalkLaws::walk_laws))]
fn global(scopes: &mut Scopes, width: Width, one: &GVar, notes: &mut Notes) -> Result<(), Memory>
    ensures scopes { OnOk result (names scopes.new ≡ behind_gvar (names scopes.old) one.now) }
    ensures found { OnOk result (notes.new.found ≡ noted notes.old.found (gvar_faults width.bits (names scopes.old) one.now)) }
    ensures calls { OnOk result (notes.new.calls ≡ notes.old.calls) }
{
    match one {
        GVar::Scalar(name, value) => match value {
            None => {
                declared(scopes, name, notes);
                scopes.declare_global(&name.text, None)
            }
            Some((_, z)) => {
                declared(scopes, name, notes);
                notes.start(width, *z);
                scopes.declare_global(&name.text, None)
            }
        },
        GVar::Array(name, _, length, _, initials) => match initials {
            None => {
                declared(scopes, name, notes);
                notes.length(*length);
                scopes.declare_global(&name.text, Some(length.value))
            }
            Some((_, _, z, rest, _)) => {
                declared(scopes, name, notes);
                notes.length(*length);
                initial_values(width, length.value, *z, rest, notes);
                scopes.declare_global(&name.text, Some(length.value))
            }
        },
    }
}

/// Notes the faults of further global variables, and declares them.
#[tactic(auto, using(crate::proofs::WalkLaws::walk_laws))]
fn further_globals(
    scopes: &mut Scopes,
    width: Width,
    rest: &[(u32, GVar)],
    notes: &mut Notes,
) -> Result<(), Memory>
    ensures scopes { OnOk result (names scopes.new ≡ behind_gvars (names scopes.old) (further_gvars rest.now)) }
    ensures found { OnOk result (notes.new.found ≡ noted notes.old.found (gvars_faults width.bits (names scopes.old) (further_gvars rest.now))) }
    ensures calls { OnOk result (notes.new.calls ≡ notes.old.calls) }
{
    for (_, one) in rest {
        global(scopes, width, one, notes)?;
    }
    Ok(())
}

/// Notes the faults of global variables, and declares them.
#[tactic(auto, using(crate::proofs::WalkLaws::walk_laws))]
pub fn globals(
    scopes: &mut Scopes,
    width: Width,
    vars: &Vars,
    notes: &mut Notes,
) -> Result<(), Memory>
    ensures scopes { OnOk result (names scopes.new ≡ behind_gvars (names scopes.old) (gvars vars.now)) }
    ensures found { OnOk result (notes.new.found ≡ noted notes.old.found (gvars_faults width.bits (names scopes.old) (gvars vars.now))) }
    ensures calls { OnOk result (notes.new.calls ≡ notes.old.calls) }
{
    global(scopes, width, &vars.first, notes)?;
    further_globals(scopes, width, vars.rest.as_slice(), notes)
}

/// Notes the faults of a parameter, and declares it.
fn parameter(scopes: &mut Scopes, one: &Param, notes: &mut Notes) -> Result<(), Memory>
    ensures scopes { OnOk result (names scopes.new ≡ behind_parameters (names scopes.old) (one.now ∷ [])) }
    ensures found { OnOk result (notes.new.found ≡ noted notes.old.found (declared_faults (names scopes.old) one.now.name)) }
    ensures calls { OnOk result (notes.new.calls ≡ notes.old.calls) }
{
    declared(scopes, &one.name, notes);
    scopes.declare_local(&one.name.text, None)
}

/// Notes the faults of further parameters, and declares them.
fn further_parameters(
    scopes: &mut Scopes,
    rest: &[(u32, Param)],
    notes: &mut Notes,
) -> Result<(), Memory>
    ensures scopes { OnOk result (names scopes.new ≡ behind_parameters (names scopes.old) (further_params rest.now)) }
    ensures found { OnOk result (notes.new.found ≡ noted notes.old.found (params_faults (names scopes.old) (further_params rest.now))) }
    ensures calls { OnOk result (notes.new.calls ≡ notes.old.calls) }
{
    for (_, one) in rest {
        parameter(scopes, one, notes)?;
    }
    Ok(())
}

/// Notes the faults of parameters, and declares them.
#[tactic(auto, using(crate::proofs::WalkLaws::walk_laws))]
pub fn all_parameters(
    scopes: &mut Scopes,
    params: &Option<Params>,
    notes: &mut Notes,
) -> Result<(), Memory>
    ensures scopes { OnOk result (names scopes.new ≡ behind_parameters (names scopes.old) (parameters params.now)) }
    ensures found { OnOk result (notes.new.found ≡ noted notes.old.found (params_faults (names scopes.old) (parameters params.now))) }
    ensures calls { OnOk result (notes.new.calls ≡ notes.old.calls) }
{
    match params {
        None => Ok(()),
        Some(found) => match found {
            Params::Void(_) => Ok(()),
            Params::Named(first, rest) => {
                parameter(scopes, first, notes)?;
                further_parameters(scopes, rest.as_slice(), notes)
            }
        },
    }
}
