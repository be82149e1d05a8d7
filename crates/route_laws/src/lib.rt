//! Laws of routes that a search rests on.
#![tactic(auto)]

mod law;

pub use law::{
    named_cells_stay, none_is_longer, routes_are_short, routes_are_walks, seen_by_membership,
};
