//! One statement of an action, its parts aside.

ghost use Rattle.std.specs.Prelude.{◌≡◌, [], ℕ, ℤ, List, drop};
ghost use Rattle.attr_eval.specs.Walks.{WalksAll};
ghost use Rattle.attr_exec.specs.Ran as spec;
ghost use Rattle.attr_exec.specs.Ran.{Same, given, looked_at, scene};
ghost use Rattle.attr_exec.specs.Ready.{IndexSoundNow, Ready, SoundNow};
ghost use Rattle.attr_exec.specs.Seen.{IsIndex, Stands, seen, spot_of, view};
ghost use Rattle.nml_tree.specs.Block.{index};
ghost use Rattle.nml_tree.specs.Derivation.{Arguments};
ghost use Rattle.nml_tree.specs.Formula.{formula};
ghost use Rattle.nml_tree.specs.Table.{Rule, entries, pars_of};
ghost use Rattle.nml_tree.specs.Value.{takes, value};
ghost use Rattle.nml_tree.specs.Written.{arguments, index_term, reference, term};

use crate::give::{Done, give, halt_with, look_at};
use crate::look::{Seen, number};
use crate::read::{Front, named, worth};
use nk_base::Ty;
use nml_state::State;
use nml_tree::{Expr, Item, Pars, Place};

/// What is read of an expression of a statement.
pub fn test(
    items: &[Item],
    pars: &Option<Pars>,
    e: &Expr,
    s: &State,
    next: Option<i64>,
    picks: &[u32],
    fields: &[i128],
    limit: usize,
) -> Seen
    ensures { (args : Arguments) (ks : List ℕ) (ys : List ℤ) (n : ℕ) (zs : List ℤ) (rule : Rule) → WalksAll (entries [] items.now) (pars_of pars.now) limit args picks.now fields.now ks ys → drop n zs ≡ fields.now → Ready (entries [] items.now) next s.now → SoundNow (entries [] items.now) rule (arguments (entries [] items.now) n args) zs (formula e.now) → result ≡ seen (view zs s.now next) (term (entries [] items.now) (arguments (entries [] items.now) n args) (formula e.now)) }
{
    s.values_fit();
    let front = Front {
        items,
        state: s,
        next,
        pars,
        picks,
        fields,
        limit,
    };
    worth(front, e)
}

/// What is read of the index of a place.
fn index_seen(
    items: &[Item],
    pars: &Option<Pars>,
    place: &Place,
    s: &State,
    next: Option<i64>,
    picks: &[u32],
    fields: &[i128],
    limit: usize,
) -> Seen
    ensures { (args : Arguments) (ks : List ℕ) (ys : List ℤ) (n : ℕ) (zs : List ℤ) (rule : Rule) → WalksAll (entries [] items.now) (pars_of pars.now) limit args picks.now fields.now ks ys → drop n zs ≡ fields.now → Ready (entries [] items.now) next s.now → IndexSoundNow (entries [] items.now) rule (arguments (entries [] items.now) n args) zs (index place.now.index) → IsIndex (view zs s.now next) result (index_term (entries [] items.now) (arguments (entries [] items.now) n args) (index place.now.index)) }
{
    match &place.index {
        None => number(0),
        Some((_, i, _)) => test(items, pars, i, s, next, picks, fields, limit),
    }
}

/// What is read of a place, where the index is read already.
fn place_seen(
    items: &[Item],
    pars: &Option<Pars>,
    place: &Place,
    at: Seen,
    s: &State,
    next: Option<i64>,
    picks: &[u32],
    fields: &[i128],
    limit: usize,
) -> Seen
    ensures { (args : Arguments) (ks : List ℕ) (ys : List ℤ) (n : ℕ) (zs : List ℤ) (rule : Rule) → WalksAll (entries [] items.now) (pars_of pars.now) limit args picks.now fields.now ks ys → drop n zs ≡ fields.now → Ready (entries [] items.now) next s.now → IsIndex (view zs s.now next) at (index_term (entries [] items.now) (arguments (entries [] items.now) n args) (index place.now.index)) → result ≡ seen (view zs s.now next) (reference (entries [] items.now) (arguments (entries [] items.now) n args) place.now.name.text (index_term (entries [] items.now) (arguments (entries [] items.now) n args) (index place.now.index))) }
{
    s.values_fit();
    let name = place.name.text.as_bytes();
    let front = Front {
        items,
        state: s,
        next,
        pars,
        picks,
        fields,
        limit,
    };
    named(front, name, at)
}

/// Assigns the expression to the place.
pub fn assign(
    items: &[Item],
    pars: &Option<Pars>,
    place: &Place,
    e: &Expr,
    s: &mut State,
    next: Option<i64>,
    out: Ty,
    picks: &[u32],
    fields: &[i128],
    limit: usize,
    done: Done,
) -> Done
    ensures same { Same s.old s.new }
    ensures given { (args : Arguments) (ks : List ℕ) (ys : List ℤ) (n : ℕ) (zs : List ℤ) (rule : Rule) → WalksAll (entries [] items.now) (pars_of pars.now) limit args picks.now fields.now ks ys → drop n zs ≡ fields.now → Ready (entries [] items.now) next s.old → IndexSoundNow (entries [] items.now) rule (arguments (entries [] items.now) n args) zs (index place.now.index) → SoundNow (entries [] items.now) rule (arguments (entries [] items.now) n args) zs (formula e.now)
        → scene s.new result ≡ given out (spot_of (view zs s.old next) (reference (entries [] items.now) (arguments (entries [] items.now) n args) place.now.name.text (index_term (entries [] items.now) (arguments (entries [] items.now) n args) (index place.now.index)))) (takes (view zs s.old next) (reference (entries [] items.now) (arguments (entries [] items.now) n args) place.now.name.text (index_term (entries [] items.now) (arguments (entries [] items.now) n args) (index place.now.index)))) (seen (view zs s.old next) (term (entries [] items.now) (arguments (entries [] items.now) n args) (formula e.now))) (scene s.old done) }
{
    let index = index_seen(items, pars, place, s, next, picks, fields, limit);
    let target = place_seen(items, pars, place, index, s, next, picks, fields, limit);
    let value = test(items, pars, e, s, next, picks, fields, limit);
    give(s, out, target, value, done)
}

/// Halts with the expression.
pub fn halt(
    items: &[Item],
    pars: &Option<Pars>,
    e: &Expr,
    s: &State,
    next: Option<i64>,
    picks: &[u32],
    fields: &[i128],
    limit: usize,
    done: Done,
) -> Done
    ensures { (args : Arguments) (ks : List ℕ) (ys : List ℤ) (n : ℕ) (zs : List ℤ) (rule : Rule) → WalksAll (entries [] items.now) (pars_of pars.now) limit args picks.now fields.now ks ys → drop n zs ≡ fields.now → Ready (entries [] items.now) next s.now → SoundNow (entries [] items.now) rule (arguments (entries [] items.now) n args) zs (formula e.now) → result ≡ looked_at (takes (view zs s.now next) (term (entries [] items.now) (arguments (entries [] items.now) n args) (formula e.now))) (spec.halted_with (value (view zs s.now next) (term (entries [] items.now) (arguments (entries [] items.now) n args) (formula e.now))) done) }
{
    let code = test(items, pars, e, s, next, picks, fields, limit);
    look_at(halt_with(code.value, done), code.took)
}
