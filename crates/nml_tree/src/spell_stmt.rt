//! The texts of statements.

ghost use Rattle.std.specs.Prelude.{◌≡◌, ◌++◌, OnOk};
ghost use Rattle.nml_tree.specs.Block.{Block, block, index, stmt};
ghost use Rattle.nml_tree.specs.Spell.{name_spelling, index_spelling, block_spelling};
ghost use Rattle.nml_tree.specs.Ended.{ended};

use crate::spell_expr::push_between;
use crate::spell_leaf::{push_name, push_word};
use crate::statement::{Place, Stmt};
use nk_base::{Memory, Text};

/// Appends the place.
#[tactic(auto, using(crate::proofs::EndedLaws::ended_laws))]
fn push_place(text: &mut Text, place: &Place) -> Result<(), Memory>
    ensures { OnOk result (text.new ≡ text.old ++ ended (name_spelling place.now.name ++ index_spelling (index place.now.index))) }
{
    push_name(text, &place.name)?;
    match &place.index {
        None => Ok(()),
        Some((_, i, _)) => push_between(text, b"[", i, b"]"),
    }
}

/// Appends the statements, one after the other.
#[cycle(statements)]
#[tactic(auto, using(crate::proofs::EndedLaws::ended_laws, crate::proofs::BlockLaws::block_laws))]
pub fn push_stmts(text: &mut Text, stmts: &[Stmt]) -> Result<(), Memory>
    ensures { OnOk result (text.new ≡ text.old ++ ended (block_spelling (block stmts.now))) }
{
    for one in stmts {
        push_stmt(text, one)?;
    }
    Ok(())
}

/// Appends the statement. It calls itself as deep as statements stand in statements.
#[cycle(statements)]
#[tactic(auto, using(crate::proofs::EndedLaws::ended_laws, crate::proofs::BlockLaws::block_laws))]
fn push_stmt(text: &mut Text, one: &Stmt) -> Result<(), Memory>
    ensures { OnOk result ((rest : Block) → text.new ++ ended (block_spelling rest) ≡ text.old ++ ended (block_spelling (stmt one.now rest))) }
{
    match one {
        Stmt::Assign(place, _, e, _) => {
            push_place(text, place)?;
            push_between(text, b"=", e, b";")
        }
        Stmt::Part(name, _, _, _) => {
            push_name(text, name)?;
            push_word(text, b". action ;")
        }
        Stmt::Halt(_, _, e, _, _) => push_between(text, b"halt (", e, b") ;"),
        Stmt::If(_, c, _, xs, other, _, _) => {
            push_between(text, b"if", c, b"then")?;
            push_stmts(text, xs.as_slice())?;
            match other {
                None => push_word(text, b"endif ;"),
                Some((_, ys)) => {
                    push_word(text, b"else")?;
                    push_stmts(text, ys.as_slice())?;
                    push_word(text, b"endif ;")
                }
            }
        }
    }
}
