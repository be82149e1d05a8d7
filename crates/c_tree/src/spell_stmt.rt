//! The texts of statements.

ghost use Rattle.std.specs.Prelude.{◌≡◌, ◌∷◌, [], ◌++◌, OnOk, map, option_map, codes};
ghost use Rattle.c_tree.specs.Formula.{formula, call, further};
ghost use Rattle.c_tree.specs.Statement.{Body, index, arguments, act, variable, declaration, opening, statement, part, block, body};
ghost use Rattle.c_tree.specs.Spell.{name_spelling, formula_spelling, further_spelling, index_spelling, store_spelling, change_spelling, act_spelling, variable_spelling, further_variables_spelling, declaration_spelling, opening_spelling, optional_spelling, last_spelling, statement_spelling, body_spelling};
ghost use Rattle.c_tree.specs.SpellGlobals.{braces_spelling};
ghost use Rattle.c_tree.specs.Ended.{ended};

use crate::expression::Expr;
use crate::spell_expr::{push_expr, push_further};
use crate::spell_leaf::{push_name, push_number, push_type, push_word};
use crate::statement::{
    AssignMark, Block, Decl, First, LVar, Part, Simple, StepMark, Stmt, Target,
};
use nk_base::{Memory, Text};

/// Appends the expression with words before it and behind it.
#[tactic(auto, using(crate::proofs::EndedLaws::ended_laws))]
fn push_between(text: &mut Text, front: &[u8], e: &Expr, behind: &[u8]) -> Result<(), Memory>
    ensures { OnOk result (text.new ≡ text.old ++ (front.now ++ 32 ∷ ended (formula_spelling (formula e.now)) ++ (behind.now ++ 32 ∷ []))) }
{
    push_word(text, front)?;
    push_expr(text, e)?;
    push_word(text, behind)
}

/// Appends what is assigned.
#[tactic(auto, using(crate::proofs::EndedLaws::ended_laws))]
fn push_target(text: &mut Text, target: &Target) -> Result<(), Memory>
    ensures { OnOk result (text.new ≡ text.old ++ ended (name_spelling target.now.name ++ index_spelling (index target.now.index))) }
{
    push_name(text, &target.name)?;
    match &target.index {
        None => Ok(()),
        Some((_, i, _)) => push_between(text, b"[", i, b"]"),
    }
}

/// Appends `=`, `+=` or `-=`.
fn push_assign_mark(text: &mut Text, mark: AssignMark) -> Result<(), Memory>
    ensures { OnOk result (text.new ≡ text.old ++ ended (store_spelling mark)) }
{
    match mark {
        AssignMark::Set(_) => push_word(text, b"="),
        AssignMark::Add(_) => push_word(text, b"+="),
        AssignMark::Sub(_) => push_word(text, b"-="),
    }
}

/// Appends `++` or `--`.
fn push_step_mark(text: &mut Text, mark: StepMark) -> Result<(), Memory>
    ensures { OnOk result (text.new ≡ text.old ++ ended (change_spelling mark)) }
{
    match mark {
        StepMark::Up(_) => push_word(text, b"++"),
        StepMark::Down(_) => push_word(text, b"--"),
    }
}

/// Appends the statement without its `;`.
#[tactic(auto, using(crate::proofs::EndedLaws::ended_laws))]
fn push_simple(text: &mut Text, simple: &Simple) -> Result<(), Memory>
    ensures { OnOk result (text.new ≡ text.old ++ ended (act_spelling (act simple.now))) }
{
    match simple {
        Simple::Assign(target, mark, e) => {
            push_target(text, target)?;
            push_assign_mark(text, *mark)?;
            push_expr(text, e)
        }
        Simple::Step(target, mark) => {
            push_target(text, target)?;
            push_step_mark(text, *mark)
        }
        Simple::Call(name, _, arguments, _) => match arguments {
            None => {
                push_name(text, name)?;
                push_word(text, b"( )")
            }
            Some((first, rest)) => {
                push_name(text, name)?;
                push_word(text, b"(")?;
                push_expr(text, first)?;
                push_further(text, rest.as_slice())?;
                push_word(text, b")")
            }
        },
    }
}

/// Appends the local variable.
#[tactic(auto, using(crate::proofs::EndedLaws::ended_laws))]
fn push_variable(text: &mut Text, one: &LVar) -> Result<(), Memory>
    ensures { OnOk result (text.new ≡ text.old ++ ended (variable_spelling (variable one.now))) }
{
    match one {
        LVar::Scalar(name, value) => match value {
            None => push_name(text, name),
            Some((_, e)) => {
                push_name(text, name)?;
                push_word(text, b"=")?;
                push_expr(text, e)
            }
        },
        LVar::Array(name, _, length, _) => {
            push_name(text, name)?;
            push_word(text, b"[")?;
            push_number(text, *length)?;
            push_word(text, b"]")
        }
    }
}

/// Appends further local variables, each with the comma before it.
#[tactic(auto, using(crate::proofs::EndedLaws::ended_laws))]
fn push_variables(text: &mut Text, rest: &[(u32, LVar)]) -> Result<(), Memory>
    ensures { OnOk result (text.new ≡ text.old ++ ended (further_variables_spelling (map (λ (comma, v). (comma, variable v)) rest.now))) }
{
    for (_, one) in rest {
        push_word(text, b",")?;
        push_variable(text, one)?;
    }
    Ok(())
}

/// Appends the declaration.
#[tactic(auto, using(crate::proofs::EndedLaws::ended_laws))]
fn push_declaration(text: &mut Text, decl: &Decl) -> Result<(), Memory>
    ensures { OnOk result (text.new ≡ text.old ++ ended (declaration_spelling (declaration decl.now))) }
{
    push_type(text, decl.word)?;
    push_variable(text, &decl.first)?;
    push_variables(text, decl.rest.as_slice())?;
    push_word(text, b";")
}

/// Appends the first part of a `for`, where there is one.
#[tactic(auto, using(crate::proofs::EndedLaws::ended_laws))]
fn push_first(text: &mut Text, first: &Option<First>) -> Result<(), Memory>
    ensures { OnOk result (text.new ≡ text.old ++ ended (opening_spelling (option_map opening first.now))) }
{
    match first {
        None => Ok(()),
        Some(part) => match part {
            First::Simple(simple) => push_simple(text, simple),
            First::Var(word, one) => {
                push_type(text, *word)?;
                push_variable(text, one)
            }
        },
    }
}

/// Appends the expression, where there is one.
fn push_optional(text: &mut Text, e: &Option<Expr>) -> Result<(), Memory>
    ensures { OnOk result (text.new ≡ text.old ++ ended (optional_spelling (option_map formula e.now))) }
{
    match e {
        None => Ok(()),
        Some(x) => push_expr(text, x),
    }
}

/// Appends the last part of a `for`, where there is one.
fn push_last(text: &mut Text, last: &Option<Simple>) -> Result<(), Memory>
    ensures { OnOk result (text.new ≡ text.old ++ ended (last_spelling (option_map act last.now))) }
{
    match last {
        None => Ok(()),
        Some(simple) => push_simple(text, simple),
    }
}

/// Appends the head of a `for`.
#[tactic(auto, using(crate::proofs::EndedLaws::ended_laws))]
fn push_head(
    text: &mut Text,
    first: &Option<First>,
    c: &Option<Expr>,
    last: &Option<Simple>,
) -> Result<(), Memory>
    ensures { OnOk result (text.new ≡ text.old ++ (codes "for ( " ++ ended (opening_spelling (option_map opening first.now)) ++ codes "; " ++ ended (optional_spelling (option_map formula c.now)) ++ codes "; " ++ ended (last_spelling (option_map act last.now)) ++ codes ") ")) }
{
    push_word(text, b"for (")?;
    push_first(text, first)?;
    push_word(text, b";")?;
    push_optional(text, c)?;
    push_word(text, b";")?;
    push_last(text, last)?;
    push_word(text, b")")
}

/// Appends the block.
#[cycle(statements)]
#[tactic(auto, using(crate::proofs::EndedLaws::ended_laws, crate::proofs::StatementLaws::statement_laws))]
pub fn push_block(text: &mut Text, one: &Block) -> Result<(), Memory>
    ensures { OnOk result (text.new ≡ text.old ++ ended (braces_spelling (block one.now))) }
{
    push_word(text, b"{")?;
    push_parts(text, one.parts.as_slice())?;
    push_word(text, b"}")
}

/// Appends what stands in a block.
#[cycle(statements)]
#[tactic(auto, using(crate::proofs::EndedLaws::ended_laws, crate::proofs::StatementLaws::statement_laws))]
fn push_parts(text: &mut Text, parts: &[Part]) -> Result<(), Memory>
    ensures { OnOk result (text.new ≡ text.old ++ ended (body_spelling (body parts.now))) }
{
    for one in parts {
        push_part(text, one)?;
    }
    Ok(())
}

/// Appends the declaration or the statement.
#[cycle(statements)]
#[tactic(auto, using(crate::proofs::EndedLaws::ended_laws, crate::proofs::StatementLaws::statement_laws))]
fn push_part(text: &mut Text, one: &Part) -> Result<(), Memory>
    ensures { OnOk result ((rest : Body) → text.new ++ ended (body_spelling rest) ≡ text.old ++ ended (body_spelling (part one.now rest))) }
{
    match one {
        Part::Decl(decl) => push_declaration(text, decl),
        Part::Stmt(stmt) => push_stmt(text, stmt),
    }
}

/// Appends the statement. It calls itself as deep as statements stand in statements.
#[cycle(statements)]
#[tactic(auto, using(crate::proofs::EndedLaws::ended_laws, crate::proofs::StatementLaws::statement_laws))]
fn push_stmt(text: &mut Text, one: &Stmt) -> Result<(), Memory>
    ensures { OnOk result (text.new ≡ text.old ++ ended (statement_spelling (statement one.now))) }
{
    match one {
        Stmt::Block(inner) => push_block(text, inner),
        Stmt::Empty(_) => push_word(text, b";"),
        Stmt::Simple(simple, _) => {
            push_simple(text, simple)?;
            push_word(text, b";")
        }
        Stmt::Break(_, _) => push_word(text, b"break ;"),
        Stmt::Continue(_, _) => push_word(text, b"continue ;"),
        Stmt::Return(_, e, _) => {
            push_word(text, b"return")?;
            push_optional(text, e)?;
            push_word(text, b";")
        }
        Stmt::If(_, _, c, _, x, other) => match other {
            None => {
                push_between(text, b"if (", c, b")")?;
                push_stmt(text, x.get())
            }
            Some((_, y)) => {
                push_between(text, b"if (", c, b")")?;
                push_stmt(text, x.get())?;
                push_word(text, b"else")?;
                push_stmt(text, y.get())
            }
        },
        Stmt::While(_, _, c, _, x) => {
            push_between(text, b"while (", c, b")")?;
            push_stmt(text, x.get())
        }
        Stmt::Do(_, x, _, _, c, _, _) => {
            push_word(text, b"do")?;
            push_stmt(text, x.get())?;
            push_between(text, b"while (", c, b") ;")
        }
        Stmt::For(_, _, first, _, c, _, last, _, x) => {
            push_head(text, first, c, last)?;
            push_stmt(text, x.get())
        }
    }
}
