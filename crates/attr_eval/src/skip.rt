//! What stands behind a derivation in its two lists.

ghost use Rattle.std.specs.Prelude.{◌≡◌, ◌≤◌, ◌++◌, ◌∷◌, [], ℕ, ℤ, List, length};
ghost use Rattle.attr_eval.specs.Walks.{Walks, WalksAll, from};
ghost use Rattle.nml_tree.specs.Derivation.{Derivation, Arguments, picks_of, fields_of};
ghost use Rattle.nml_tree.specs.Table.{entries, pars_of};

use crate::turn::{Turn, first_turn, par_at, par_count, part_of};
use nml_tree::{Item, Pars};

/// Behind a derivation of the rule. It takes no memory.
#[cycle(skip)]
pub fn skip<'a>(
    items: &[Item],
    name: &[u8],
    picks: &'a [u32],
    fields: &'a [i128],
    limit: usize,
) -> (&'a [u32], &'a [i128])
    ensures { (d : Derivation) (ks : List ℕ) (ys : List ℤ) → Walks (entries [] items.now) name.now limit d picks.now fields.now ks ys → (result.0.now ≡ ks) × (result.1.now ≡ ys) }
{
    if limit == 0 {
        return (picks, fields);
    }
    match first_turn(items, name, picks) {
        Turn::Nothing => (picks, fields),
        Turn::Picked(chosen, rest) => skip(items, chosen.as_bytes(), rest, fields, limit - 1),
        Turn::Made(rule) => skip_pars(
            items,
            rule.pars,
            par_count(rule.pars),
            picks,
            fields,
            limit - 1,
        ),
    }
}

/// Behind the first `count` arguments; what is answered where none stand in front is left open. It takes no memory. The rule is this
/// project's own.
#[cycle(skip)]
pub fn skip_pars<'a>(
    items: &[Item],
    pars: &Option<Pars>,
    count: usize,
    picks: &'a [u32],
    fields: &'a [i128],
    limit: usize,
) -> (&'a [u32], &'a [i128])
    ensures { (args : Arguments) (ks : List ℕ) (ys : List ℤ) → WalksAll (entries [] items.now) (pars_of pars.now) limit args picks.now fields.now ks ys → (result.0.now ≡ picks_of (from count args) ++ ks) × (result.1.now ≡ fields_of (from count args) ++ ys) }
{
    let mut picks = picks;
    let mut fields = fields;
    for i in 0..count {
        match par_at(pars, i) {
            None => {}
            Some(par) => match part_of(items, &par.ty) {
                Some(rule) => {
                    let (p, f) = skip(items, rule.as_bytes(), picks, fields, limit);
                    picks = p;
                    fields = f;
                }
                None => {
                    fields = behind(fields);
                }
            },
        }
    }
    (picks, fields)
}

/// Without the first.
fn behind(fields: &[i128]) -> &[i128]
    ensures { (z : ℤ) (rest : List ℤ) → fields.now ≡ z ∷ rest → result.now ≡ rest }
{
    match fields.split_first() {
        None => fields,
        Some((_, rest)) => rest,
    }
}
