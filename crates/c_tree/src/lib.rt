//! Programs of the C subset as trees, and what they mean.
#![tactic(auto)]

mod accepted;
mod expression;
mod fault;
mod meaning;
mod names;
mod operator;
mod program;
mod spell_expr;
mod spell_global;
mod spell_leaf;
mod spell_stmt;
mod statement;

pub use accepted::CProg;
pub use expression::Expr;
pub use fault::CFault;
pub use meaning::{Meaning, Place};
pub use names::{Name, Number, TypeWord};
pub use operator::Bin;
pub use program::{CTree, Function, GVar, Global, Param, Params, ResultWord, SNum, Vars};
pub use spell_global::spell;
pub use statement::{AssignMark, Block, Decl, First, LVar, Part, Simple, StepMark, Stmt, Target};
