//! The alternative that a pick chooses, and a parameter by its number.

ghost use Rattle.std.specs.Prelude.{◌≡◌, ◌≤◌, ◌∷◌, ℕ, List, length, slice_get, None, Some, MatchOption};
ghost use Rattle.nml_tree.specs.Table.{pars_of};
ghost use Rattle.shape_list.specs.Body.{alternatives_of};

use nk_base::Text;
use nml_tree::{OrRule, Par, Pars};

/// The alternative that the next pick chooses, and the picks behind it; `None` where there is none.
pub fn chosen<'r, 'a>(rule: &'r OrRule, picks: &'a [u32]) -> Option<(&'r Text, &'a [u32])>
    ensures { MatchOption result ((k : ℕ) (rest : List ℕ) → picks.now ≡ k ∷ rest → slice_get (alternatives_of rule.now) k ≡ None) (λ x. (k : ℕ) × (picks.now ≡ k ∷ x.1.now) × (slice_get (alternatives_of rule.now) k ≡ Some x.0.now)) }
{
    match picks.split_first() {
        None => None,
        Some((k, rest)) => match name_at(rule, *k as usize) {
            None => None,
            Some(name) => Some((name, rest)),
        },
    }
}

/// The alternative of this number.
fn name_at(rule: &OrRule, k: usize) -> Option<&Text>
    ensures { MatchOption result (slice_get (alternatives_of rule.now) k ≡ None) (λ name. slice_get (alternatives_of rule.now) k ≡ Some name.now) }
{
    if k == 0 {
        return Some(&rule.first.text);
    }
    match rule.rest.as_slice().get(k - 1) {
        None => None,
        Some((_, name)) => Some(&name.text),
    }
}

/// The parameter of this number.
pub fn par_at(pars: &Option<Pars>, k: usize) -> Option<&Par>
    ensures { MatchOption result (length (pars_of pars.now) ≤ k) (λ p. slice_get (pars_of pars.now) k ≡ Some p.now) }
{
    match pars {
        None => None,
        Some(all) => {
            if k == 0 {
                return Some(&all.first);
            }
            match all.rest.as_slice().get(k - 1) {
                None => None,
                Some((_, par)) => Some(par),
            }
        }
    }
}

/// How many parameters there are.
pub fn par_count(pars: &Option<Pars>) -> usize
    ensures { result ≡ length (pars_of pars.now) }
{
    match pars {
        None => 0,
        Some(all) => all.rest.as_slice().len() + 1,
    }
}
