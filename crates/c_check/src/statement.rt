//! The faults and calls of statements.

ghost use Rattle.std.specs.Prelude.{◌≡◌, ◌++◌, OnOk, true};
ghost use Rattle.c_tree.specs.Statement.{Body, body, part, statement};
ghost use Rattle.c_tree.specs.Names.{behind_statement};
ghost use Rattle.c_tree.specs.Faults.{statement_faults, body_faults, return_faults};
ghost use Rattle.c_tree.specs.Recursion.{statement_callees, body_callees};
ghost use Rattle.c_names.specs.Shown.{names};
ghost use Rattle.c_check.specs.Note.{noted};
ghost use Rattle.c_walk.specs.Walk.{behind_body};
ghost use Rattle.c_check.specs.Within.{within, giving_of};

use crate::declaration::{first_part, locals};
use crate::expression::{expression, last_part, optional_expression, simple_statement};
use crate::note::Notes;
use crate::numbers::Width;
use c_names::Scopes;
use c_tree::{Part, Stmt};
use nk_base::Memory;
use std::alloc::Global;

/// Which `return` a function has: with a value, without, or in an `int main` either.
///
/// The names are this project's own.
#[derive(Clone, Copy)]
pub enum Gives {
    Value,
    Nothing,
    Either,
}

/// Where a statement stands: with numbers of so many bits, in such a function, within a loop or not.
///
/// The form is this project's own.
#[derive(Clone, Copy)]
pub struct Around {
    pub width: Width,
    pub gives: Gives,
    pub looped: bool,
}

/// The same within a loop.
fn in_loop(around: Around) -> Around
    ensures { result ≡ record around { looped = true } }
{
    Around {
        width: around.width,
        gives: around.gives,
        looped: true,
    }
}

/// Notes a `return` that the function may not have.
fn returned(gives: Gives, valued: bool, at: u32, notes: &mut Notes)
    ensures { notes.new ≡ record notes.old { found = noted notes.old.found (return_faults (giving_of gives) valued at) } }
{
    match gives {
        Gives::Value => notes.kind_unless(valued, at),
        Gives::Nothing => notes.kind_unless(!valued, at),
        Gives::Either => {}
    }
}

/// Notes the faults and the calls of what stands in a block, and declares what it declares.
#[cycle(statements)]
#[tactic(auto, using(c_tree::proofs::StatementLaws::statement_laws, crate::proofs::WalkLaws::walk_laws))]
pub fn parts_of(
    scopes: &mut Scopes,
    alloc: Global,
    around: Around,
    parts: &[Part],
    notes: &mut Notes,
) -> Result<(), Memory>
    ensures scopes { OnOk result (names scopes.new ≡ behind_body (names scopes.old) (body parts.now)) }
    ensures found { OnOk result (notes.new.found ≡ noted notes.old.found (body_faults (within around) (names scopes.old) (body parts.now))) }
    ensures calls { OnOk result (notes.new.calls.items ≡ notes.old.calls.items ++ body_callees (names scopes.old) (body parts.now)) }
{
    for one in parts {
        one_part(scopes, alloc, around, one, notes)?;
    }
    Ok(())
}

/// Notes the faults and the calls of a declaration or a statement.
#[cycle(statements)]
#[tactic(auto, using(c_tree::proofs::StatementLaws::statement_laws, crate::proofs::WalkLaws::walk_laws))]
fn one_part(
    scopes: &mut Scopes,
    alloc: Global,
    around: Around,
    one: &Part,
    notes: &mut Notes,
) -> Result<(), Memory>
    ensures scopes { OnOk result ((rest : Body) → behind_body (names scopes.old) (part one.now rest) ≡ behind_body (names scopes.new) rest) }
    ensures found { OnOk result ((rest : Body) → noted notes.old.found (body_faults (within around) (names scopes.old) (part one.now rest)) ≡ noted notes.new.found (body_faults (within around) (names scopes.new) rest)) }
    ensures calls { OnOk result ((rest : Body) → notes.old.calls.items ++ body_callees (names scopes.old) (part one.now rest) ≡ notes.new.calls.items ++ body_callees (names scopes.new) rest) }
{
    match one {
        Part::Decl(decl) => locals(scopes, around.width, decl, notes),
        Part::Stmt(stmt) => one_statement(scopes, alloc, around, stmt, notes),
    }
}

/// Notes the faults and the calls of a statement. It calls itself as deep as statements stand in statements.
#[cycle(statements)]
#[tactic(auto, using(c_tree::proofs::StatementLaws::statement_laws, crate::proofs::WalkLaws::walk_laws, c_walk::proofs::Behind::behind_laws))]
fn one_statement(
    scopes: &mut Scopes,
    alloc: Global,
    around: Around,
    one: &Stmt,
    notes: &mut Notes,
) -> Result<(), Memory>
    ensures scopes { OnOk result (names scopes.new ≡ behind_statement (names scopes.old) (statement one.now)) }
    ensures found { OnOk result (notes.new.found ≡ noted notes.old.found (statement_faults (within around) (names scopes.old) (statement one.now))) }
    ensures calls { OnOk result (notes.new.calls.items ≡ notes.old.calls.items ++ statement_callees (names scopes.old) (statement one.now)) }
{
    match one {
        Stmt::Block(inner) => {
            scopes.enter(alloc)?;
            parts_of(scopes, alloc, around, inner.parts.as_slice(), notes)?;
            scopes.leave();
            Ok(())
        }
        Stmt::Empty(_) => Ok(()),
        Stmt::Simple(simple, _) => simple_statement(scopes, around.width, simple, notes),
        Stmt::Break(at, _) => {
            notes.kind_unless(around.looped, *at);
            Ok(())
        }
        Stmt::Continue(at, _) => {
            notes.kind_unless(around.looped, *at);
            Ok(())
        }
        Stmt::Return(at, e, _) => {
            returned(around.gives, e.is_some(), *at, notes);
            optional_expression(scopes, around.width, e, notes)
        }
        Stmt::If(_, _, c, _, x, other) => match other {
            None => {
                expression(scopes, around.width, c, notes)?;
                one_statement(scopes, alloc, around, x.get(), notes)
            }
            Some((_, y)) => {
                expression(scopes, around.width, c, notes)?;
                one_statement(scopes, alloc, around, x.get(), notes)?;
                one_statement(scopes, alloc, around, y.get(), notes)
            }
        },
        Stmt::While(_, _, c, _, x) => {
            expression(scopes, around.width, c, notes)?;
            one_statement(scopes, alloc, in_loop(around), x.get(), notes)
        }
        Stmt::Do(_, x, _, _, c, _, _) => {
            one_statement(scopes, alloc, in_loop(around), x.get(), notes)?;
            expression(scopes, around.width, c, notes)
        }
        Stmt::For(_, _, first, _, c, _, last, _, x) => {
            first_part(scopes, alloc, around.width, first, notes)?;
            optional_expression(scopes, around.width, c, notes)?;
            last_part(scopes, around.width, last, notes)?;
            one_statement(scopes, alloc, in_loop(around), x.get(), notes)?;
            scopes.leave();
            Ok(())
        }
    }
}
