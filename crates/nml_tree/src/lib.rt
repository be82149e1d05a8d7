//! Descriptions of processors as trees, the text of each, what it means, and why one is refused.
#![tactic(auto)]

mod attributes;
mod deriv;
mod expression;
mod fault;
mod keyword;
mod laws;
mod names;
mod operator;
mod spell_attrs;
mod spell_expr;
mod spell_item;
mod spell_leaf;
mod spell_stmt;
mod statement;
mod tree;
mod typed;

pub use attributes::{Action, Arg, Attribute, Attrs, Template};
pub use deriv::Deriv;
pub use expression::Expr;
pub use fault::{DescFault, Root};
pub use keyword::is_keyword;
pub use laws::one_derivation;
pub use names::{Name, Number, Quoted};
pub use operator::{Bin, Un};
pub use spell_item::spell;
pub use statement::{Place, Stmt};
pub use tree::{
    Desc, Item, ModeRule, OpRule, OrRule, Par, Pars, Port, PortWord, RuleWord, Size, Storage,
    StorageWord, TypeExpr,
};
pub use typed::{Checked, Typed};
