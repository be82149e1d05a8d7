//! The grammar of programs: how symbols are read, and that they spell one program or none.
//!
//! These are definitions and laws alone: expressions, simple statements, declarations, statements and blocks, globals and
//! whole programs are each read lawfully; no symbols spell two programs, and any symbols spell one or stop to begin one.
#![tactic(auto)]

mod law;

pub use law::{
    one_expression, one_reading, one_tree, read_act, read_body, read_call, read_declaration,
    read_else, read_expression, read_global_variable, read_item, read_parameters, read_program,
    read_statement, some_reading, some_tree,
};
