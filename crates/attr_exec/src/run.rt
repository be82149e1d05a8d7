//! The action of a derivation.

ghost use Rattle.std.specs.Prelude.{◌≡◌, [], ℕ, ℤ, List, drop};
ghost use Rattle.attr_eval.specs.Walks.{Walks, WalksAll};
ghost use Rattle.attr_exec.specs.Ran.{Same, ran, scene};
ghost use Rattle.attr_exec.specs.Ready.{BlockSound, Ready};
ghost use Rattle.nml_tree.specs.Block as b;
ghost use Rattle.nml_tree.specs.Derivation.{Arguments, Derivation};
ghost use Rattle.nml_tree.specs.Table.{Rule, entries, pars_of};
ghost use Rattle.nml_tree.specs.Written.{act, action_of, arguments, written};
ghost use Rattle.nk_base.specs.Text.{text_eq};
ghost use Rattle.std.specs.Map.{lookup};

use crate::give::{Done, look_at};
use crate::statement::{assign, halt, test};
use attr_eval::{Turn, first_par, first_turn, is_zero, part_of, skip_pars};
use nk_base::Ty;
use nml_state::State;
use nml_tree::{Item, Pars, Stmt};

/// Runs the action of the derivation of this rule that stands in front.
#[cycle(run)]
pub fn run(
    items: &[Item],
    name: &[u8],
    s: &mut State,
    next: Option<i64>,
    out: Ty,
    picks: &[u32],
    fields: &[i128],
    limit: usize,
    done: Done,
) -> Done
    ensures same { Same s.old s.new }
    ensures ran { (x : Derivation) (ks : List ℕ) (ys : List ℤ) (n : ℕ) (zs : List ℤ) → Walks (entries [] items.now) name.now limit x picks.now fields.now ks ys → drop n zs ≡ fields.now → Ready (entries [] items.now) next s.old → scene s.new result ≡ ran out zs next (written (entries [] items.now) n x).action (scene s.old done) }
{
    if limit == 0 {
        return done;
    }
    match first_turn(items, name, picks) {
        Turn::Nothing => done,
        Turn::Picked(chosen, rest) => run(
            items,
            chosen.as_bytes(),
            s,
            next,
            out,
            rest,
            fields,
            limit - 1,
            done,
        ),
        Turn::Made(rule) => match &rule.attrs.action {
            None => done,
            Some(action) => run_block(
                items,
                rule.pars,
                action.stmts.as_slice(),
                s,
                next,
                out,
                picks,
                fields,
                limit - 1,
                done,
            ),
        },
    }
}

/// Runs statements in order, of a rule with these parameters, whose arguments stand in front.
#[cycle(run)]
fn run_block(
    items: &[Item],
    pars: &Option<Pars>,
    stmts: &[Stmt],
    s: &mut State,
    next: Option<i64>,
    out: Ty,
    picks: &[u32],
    fields: &[i128],
    limit: usize,
    done: Done,
) -> Done
    ensures same { Same s.old s.new }
    ensures ran { (args : Arguments) (ks : List ℕ) (ys : List ℤ) (n : ℕ) (zs : List ℤ) (rule : Rule) → WalksAll (entries [] items.now) (pars_of pars.now) limit args picks.now fields.now ks ys → drop n zs ≡ fields.now → Ready (entries [] items.now) next s.old → BlockSound (entries [] items.now) rule (arguments (entries [] items.now) n args) zs (b.block stmts.now) → scene s.new result ≡ ran out zs next (act (entries [] items.now) (arguments (entries [] items.now) n args) (b.block stmts.now)) (scene s.old done) }
{
    let mut done = done;
    for stmt in stmts {
        done = run_one(items, pars, stmt, s, next, out, picks, fields, limit, done);
    }
    done
}

/// Runs one statement.
#[cycle(run)]
fn run_one(
    items: &[Item],
    pars: &Option<Pars>,
    stmt: &Stmt,
    s: &mut State,
    next: Option<i64>,
    out: Ty,
    picks: &[u32],
    fields: &[i128],
    limit: usize,
    done: Done,
) -> Done
    ensures same { Same s.old s.new }
    ensures ran { (args : Arguments) (ks : List ℕ) (ys : List ℤ) (n : ℕ) (zs : List ℤ) (rule : Rule) (rest : b.Block) → WalksAll (entries [] items.now) (pars_of pars.now) limit args picks.now fields.now ks ys → drop n zs ≡ fields.now → Ready (entries [] items.now) next s.old → BlockSound (entries [] items.now) rule (arguments (entries [] items.now) n args) zs (b.stmt stmt.now rest) → (ran out zs next (act (entries [] items.now) (arguments (entries [] items.now) n args) (b.stmt stmt.now rest)) (scene s.old done) ≡ ran out zs next (act (entries [] items.now) (arguments (entries [] items.now) n args) rest) (scene s.new result)) × BlockSound (entries [] items.now) rule (arguments (entries [] items.now) n args) zs rest }
{
    match stmt {
        Stmt::Assign(place, _, e, _) => assign(
            items, pars, place, e, s, next, out, picks, fields, limit, done,
        ),
        Stmt::Part(name, _, _, _) => {
            let text = name.text.as_bytes();
            run_part(items, pars, text, s, next, out, picks, fields, limit, done)
        }
        Stmt::Halt(_, _, e, _, _) => halt(items, pars, e, s, next, picks, fields, limit, done),
        Stmt::If(_, c, _, xs, other, _, _) => {
            let seen = test(items, pars, c, s, next, picks, fields, limit);
            let done = look_at(done, seen.took);
            if is_zero(seen.value) {
                match other {
                    None => done,
                    Some((_, ys)) => {
                        let ys = ys.as_slice();
                        run_block(items, pars, ys, s, next, out, picks, fields, limit, done)
                    }
                }
            } else {
                let xs = xs.as_slice();
                run_block(items, pars, xs, s, next, out, picks, fields, limit, done)
            }
        }
    }
}

/// Runs the action of the part of this name.
#[cycle(run)]
fn run_part(
    items: &[Item],
    pars: &Option<Pars>,
    name: &[u8],
    s: &mut State,
    next: Option<i64>,
    out: Ty,
    picks: &[u32],
    fields: &[i128],
    limit: usize,
    done: Done,
) -> Done
    ensures same { Same s.old s.new }
    ensures ran { (args : Arguments) (ks : List ℕ) (ys : List ℤ) (n : ℕ) (zs : List ℤ) → WalksAll (entries [] items.now) (pars_of pars.now) limit args picks.now fields.now ks ys → drop n zs ≡ fields.now → Ready (entries [] items.now) next s.old → scene s.new result ≡ ran out zs next (action_of (lookup (text_eq name.now) (arguments (entries [] items.now) n args))) (scene s.old done) }
{
    match first_par(pars, name) {
        None => done,
        Some((k, par)) => {
            let (p, f) = skip_pars(items, pars, k, picks, fields, limit);
            match part_of(items, &par.ty) {
                Some(rule) => run(items, rule.as_bytes(), s, next, out, p, f, limit, done),
                None => done,
            }
        }
    }
}
