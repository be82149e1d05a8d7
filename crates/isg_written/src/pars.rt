//! A parameter by its number.

ghost use Rattle.std.specs.Prelude.{◌≡◌, ◌≤◌, length, map, slice_get, Some, MatchOption};
ghost use Rattle.nml_tree.specs.Table.{pars_of};

use nml_tree::{Par, Pars};

/// The parameter of this number.
pub fn par_at(pars: &Option<Pars>, k: usize) -> Option<&Par>
    ensures { MatchOption result (length (pars_of pars.now) ≤ k) (λ p. slice_get (pars_of pars.now) k ≡ Some p.now) }
{
    match pars {
        None => None,
        Some(all) => {
            if k == 0 {
                return Some(&all.first);
            }
            match all.rest.as_slice().get(k - 1) {
                None => None,
                Some((_, par)) => Some(par),
            }
        }
    }
}

/// How many parameters there are.
pub fn par_count(pars: &Option<Pars>) -> usize
    ensures { result ≡ length (pars_of pars.now) }
{
    match pars {
        None => 0,
        Some(all) => all.rest.as_slice().len() + 1,
    }
}
