//! The variables that are declared in the body of a function.

ghost use Rattle.std.specs.Prelude.{◌≡◌, ◌++◌, ◌∷◌, [], map, option_map, OnOk};
ghost use Rattle.c_tree.specs.Names.{shape, declared_variables, opening_shapes, statement_shapes, body_shapes};
ghost use Rattle.c_tree.specs.Resolve as resolve;
ghost use Rattle.c_tree.specs.Statement.{variable, declaration, opening, statement, body};
ghost use Rattle.c_walk.specs.Walk.{listed};
ghost use Rattle.c_shapes.specs.Shapes.{returns_at_once};

use c_tree::{Decl, First, LVar, Part, Stmt};
use nk_base::Memory;

/// Adds a local variable.
fn push_local(shapes: &mut Vec<Option<u64>>, local: &LVar) -> Result<(), Memory>
    ensures { OnOk result (shapes.new.items ≡ shapes.old.items ++ shape (variable local.now) ∷ []) }
{
    match local {
        LVar::Scalar(_, value) => match value {
            None => shapes.push(None)?,
            Some(_) => shapes.push(None)?,
        },
        LVar::Array(_, _, length, _) => shapes.push(Some(length.value))?,
    }
    Ok(())
}

/// Adds further local variables.
fn push_further(shapes: &mut Vec<Option<u64>>, rest: &[(u32, LVar)]) -> Result<(), Memory>
    ensures { OnOk result (shapes.new.items ≡ shapes.old.items ++ map shape (listed rest.now)) }
{
    for (_, one) in rest {
        push_local(shapes, one)?;
    }
    Ok(())
}

/// Adds the local variables of a declaration.
fn push_decl(shapes: &mut Vec<Option<u64>>, decl: &Decl) -> Result<(), Memory>
    ensures { OnOk result (shapes.new.items ≡ shapes.old.items ++ map shape (declared_variables (declaration decl.now))) }
{
    push_local(shapes, &decl.first)?;
    push_further(shapes, decl.rest.as_slice())
}

/// Adds the variable that the first part of a `for` declares, where it does.
fn push_first(shapes: &mut Vec<Option<u64>>, first: &Option<First>) -> Result<(), Memory>
    ensures { OnOk result (shapes.new.items ≡ shapes.old.items ++ opening_shapes (option_map opening first.now)) }
{
    match first {
        None => Ok(()),
        Some(part) => match part {
            First::Simple(_) => Ok(()),
            First::Var(_, one) => push_local(shapes, one),
        },
    }
}

/// Adds the variables that are declared anywhere in what stands in a block, in the text's order.
#[cycle(shapes)]
#[tactic(auto, using(c_tree::proofs::StatementLaws::statement_laws, crate::proofs::Grown::grown_none))]
pub fn push_block(shapes: &mut Vec<Option<u64>>, parts: &[Part]) -> Result<(), Memory>
    ensures { OnOk result (shapes.new.items ≡ shapes.old.items ++ body_shapes (body parts.now)) }
{
    for one in parts {
        match one {
            Part::Decl(decl) => push_decl(shapes, decl)?,
            Part::Stmt(stmt) => push_statement(shapes, stmt)?,
        }
    }
    Ok(())
}

/// Adds the variables that are declared anywhere in a statement. It calls itself as deep as statements stand in
/// statements.
#[cycle(shapes)]
#[tactic(auto, using(c_tree::proofs::StatementLaws::statement_laws, crate::proofs::Grown::grown_none))]
fn push_statement(shapes: &mut Vec<Option<u64>>, stmt: &Stmt) -> Result<(), Memory>
    ensures { OnOk result (shapes.new.items ≡ shapes.old.items ++ statement_shapes (statement stmt.now)) }
{
    match stmt {
        Stmt::Block(inner) => push_block(shapes, inner.parts.as_slice()),
        Stmt::Empty(_) => Ok(()),
        Stmt::Simple(_, _) => Ok(()),
        Stmt::Break(_, _) => Ok(()),
        Stmt::Continue(_, _) => Ok(()),
        Stmt::Return(_, _, _) => Ok(()),
        Stmt::If(_, _, _, _, x, other) => match other {
            None => push_statement(shapes, x.get()),
            Some((_, y)) => {
                push_statement(shapes, x.get())?;
                push_statement(shapes, y.get())
            }
        },
        Stmt::While(_, _, _, _, x) => push_statement(shapes, x.get()),
        Stmt::Do(_, x, _, _, _, _, _) => push_statement(shapes, x.get()),
        Stmt::For(_, _, first, _, _, _, _, _, x) => {
            push_first(shapes, first)?;
            push_statement(shapes, x.get())
        }
    }
}

/// Whether the statement is a `return`.
#[tactic(auto, using(c_tree::proofs::StatementLaws::statement_laws))]
fn is_return(stmt: &Stmt) -> bool
    ensures { result ≡ returns_at_once (statement stmt.now) }
{
    match stmt {
        Stmt::Return(_, _, _) => true,
        Stmt::Block(_) => false,
        Stmt::Empty(_) => false,
        Stmt::Simple(_, _) => false,
        Stmt::Break(_, _) => false,
        Stmt::Continue(_, _) => false,
        Stmt::If(_, _, _, _, _, other) => match other {
            None => false,
            Some(_) => false,
        },
        Stmt::While(_, _, _, _, _) => false,
        Stmt::Do(_, _, _, _, _, _, _) => false,
        Stmt::For(_, _, _, _, _, _, _, _, _) => false,
    }
}

/// Whether the last thing in a block is a `return`. It takes no memory.
pub fn ends_with_return(parts: &[Part]) -> bool
    ensures { result ≡ resolve.ends_with_return (body parts.now) }
{
    match parts.last() {
        None => false,
        Some(last) => match last {
            Part::Decl(_) => false,
            Part::Stmt(stmt) => is_return(stmt),
        },
    }
}
