//! What stands behind a derivation in a list of picks, and the number of the field behind its fields.

ghost use Rattle.std.specs.Prelude.{◌≡◌, ◌+◌, ◌-◌, ◌^◌, ◌++◌, ℕ, List, length, min};
ghost use Rattle.attr_eval.specs.Walks.{from};
ghost use Rattle.isg_written.specs.Stands.{Stands, StandsAll, before};
ghost use Rattle.nml_tree.specs.Derivation.{Arguments, Derivation, fields, picks_of};
ghost use Rattle.nml_tree.specs.Table.{pars_of, table};

use crate::numbered::Numbered;
use crate::pars::{par_at, par_count};
use crate::turn::{part_of, turn};
use attr_eval::Turn;
use nk_base::Text;
use nml_tree::Pars;

/// Behind a derivation of the rule, whose first field has this number.
#[cycle(skip)]
fn skip<'a>(
    numbered: &Numbered<'_>,
    name: &Text,
    picks: &'a [u32],
    first: u32,
    limit: usize,
) -> (&'a [u32], u32)
    ensures { (d : Derivation) (ks : List ℕ) → Stands (table numbered.now) name.now limit d first picks.now ks → (result.0.now ≡ ks) × (result.1 ≡ first + length (fields d)) }
{
    if limit == 0 {
        return (picks, first);
    }
    match turn(numbered, name, picks) {
        Turn::Nothing => (picks, first),
        Turn::Picked(chosen, rest) => skip(numbered, chosen, rest, first, limit - 1),
        Turn::Made(rule) => skip_pars(
            numbered,
            rule.pars,
            par_count(rule.pars),
            picks,
            first,
            limit - 1,
        ),
    }
}

/// Behind the first `count` arguments.
#[cycle(skip)]
pub fn skip_pars<'a>(
    numbered: &Numbered<'_>,
    pars: &Option<Pars>,
    count: usize,
    picks: &'a [u32],
    first: u32,
    limit: usize,
) -> (&'a [u32], u32)
    ensures { (args : Arguments) (ks : List ℕ) → StandsAll (table numbered.now) (pars_of pars.now) limit args first picks.now ks → (result.0.now ≡ picks_of (from count args) ++ ks) × (result.1 ≡ first + before count args) }
{
    let mut picks = picks;
    let mut first = first;
    for i in 0..count {
        match par_at(pars, i) {
            None => {}
            Some(par) => match part_of(numbered, &par.ty) {
                Some(rule) => {
                    let (p, n) = skip(numbered, rule, picks, first, limit);
                    picks = p;
                    first = n;
                }
                None => {
                    first = behind(first);
                }
            },
        }
    }
    (picks, first)
}

/// The number behind.
fn behind(n: u32) -> u32
    ensures { result ≡ min (n + 1) (2 ^ 32 - 1) }
{
    n.saturating_add(1)
}
