//! Routes, Certs and the closure.

use isg_places::Place;
use sqlite_items::Items;

/// The numbers of copy patterns, one after the other, and the place that each writes. The form is this project's own.
#[derive(Drop)]
pub struct Route {
    pub patterns: Items<u32>,
    pub places: Items<Place>,
}

/// How an operation is done from cells to a cell: a route for each operand, a pattern by its number, a route for the result.
///
/// The form is this project's own.
#[derive(Drop)]
pub struct Cert {
    pub first: Route,
    pub second: Route,
    pub pattern: u32,
    pub last: Route,
}

/// A Cert for each operation that has one, in the order of the operations. Addresses have at least `bits` bits, so cells below
/// 2^bits are reached. The form is this project's own.
#[derive(Drop)]
pub struct Closure {
    pub bits: u32,
    pub certs: Items<Option<Cert>>,
}
