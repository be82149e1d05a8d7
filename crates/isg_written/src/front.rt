//! Where the expressions and statements of a rule are written out.

use crate::numbered::Numbered;
use nml_tree::Pars;

/// The parameters of a rule, and the picks of their arguments in front, the first field of which has this number; at most so many rules
/// stand below one another.
#[derive(Clone, Copy)]
pub struct Front<'a, 'n> {
    pub numbered: &'a Numbered<'n>,
    pub pars: &'a Option<Pars>,
    pub picks: &'a [u32],
    pub first: u32,
    pub limit: usize,
}
