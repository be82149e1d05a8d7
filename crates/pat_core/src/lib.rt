//! The patterns of a machine, routes, Certs and the closure, and what ties a pattern to its action.
#![tactic(auto)]

mod closure;
mod law;
mod pattern;

pub use closure::{Cert, Closure, Route};
pub use law::{
    closures_agree, exact_is_equal, found_exact, found_low, low_is_congruent, patterns_are_one,
    shapes_are_one, swaps_are_listed,
};
pub use pattern::{Form, Num, PTree, Pattern, Patterns};
