//! Rules by number, each with the numbers that it names: the first that reaches itself, and an order of them.
#![tactic(auto)]

mod guess;
mod loops;
mod order;
mod rank;
mod reach;
mod settle;
mod sought;

pub use loops::first_loop;
pub use sought::order_of;
