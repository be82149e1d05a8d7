//! How often the events of an action count on a path, with none of its paths listed.

ghost use Rattle.std.specs.Prelude.{◌≡◌, [], ℕ, ℤ, List, codes};
ghost use Rattle.std.specs.Map.{lookup};
ghost use Rattle.attr_eval.specs.Alone.{Alone};
ghost use Rattle.attr_eval.specs.Lawful.{act_shape, term_shape};
ghost use Rattle.attr_eval.specs.Walks.{Walks};
ghost use Rattle.attr_legal.specs.Asked.{Acting, Here, SoundIn, counts, weighed, weight};
ghost use Rattle.attr_legal.specs.Tally as spec;
ghost use Rattle.attr_legal.specs.Tally.{tally, together};
ghost use Rattle.nk_base.specs.Text.{text_eq};
ghost use Rattle.nml_tree.specs.Act.{Act, assigned};
ghost use Rattle.nml_tree.specs.Block.{Block, block, index, stmt};
ghost use Rattle.nml_tree.specs.Derivation.{Arguments, Derivation};
ghost use Rattle.nml_tree.specs.Formula.{formula};
ghost use Rattle.nml_tree.specs.Table.{Rule, entries, pars_of};
ghost use Rattle.nml_tree.specs.Written.{action_of, arguments, index_term, reference, term, written};
ghost use Rattle.nml_widths.specs.Fitting.{Each, EachIndex};

use crate::key::{Key, greater, meets, together};
use crate::reads::{Weights, reads};
use crate::target::{named_target, place_index};
use attr_eval::{Turn, first_par, first_turn, part_of, skip_pars};
use nml_tree::{Expr, Item, Pars, Place, Stmt};

/// The picks and fields of a derivation of `instruction`, with at most so many rules below one another.
#[derive(Clone, Copy)]
pub struct Front<'a> {
    pub picks: &'a [u32],
    pub fields: &'a [i128],
    pub limit: usize,
}

/// What is asked of the events of an action: how often one of them is met; or whether there is one that is met twice on a path through the
/// action of the whole derivation.
#[derive(Clone, Copy)]
pub enum Ask<'a> {
    Count(Key),
    Check(Front<'a>),
}

/// How much an event counts.
#[cycle(actions)]
fn weigh(items: &[Item], ask: Ask<'_>, key: Key) -> u8
    ensures { (zs : List ℤ) (x : Derivation) → Acting (entries [] items.now) zs x ask.entry → result ≡ weighed (entries [] items.now) zs x ask.entry key }
{
    match ask {
        Ask::Count(sought) => hit(sought, key),
        Ask::Check(whole) => {
            let count = rule_action(
                items,
                Ask::Count(key),
                b"instruction".as_slice(),
                whole.picks,
                whole.fields,
                whole.limit,
            );
            excess(count)
        }
    }
}

fn hit(a: Key, b: Key) -> u8
    ensures { result ≡ spec.hit a b }
{
    if meets(a, b) { 1 } else { 0 }
}

fn excess(n: u8) -> u8
    ensures { result ≡ spec.excess n }
{
    if n <= 1 { 0 } else { 1 }
}

/// Of the action of the derivation of this rule that stands in front.
#[cycle(actions)]
pub fn rule_action(
    items: &[Item],
    ask: Ask<'_>,
    name: &[u8],
    picks: &[u32],
    fields: &[i128],
    limit: usize,
) -> u8
    ensures { (d : Derivation) (ks : List ℕ) (ys : List ℤ) (n : ℕ) (zs : List ℤ) (x : Derivation) → Walks (entries [] items.now) name.now limit d picks.now fields.now ks ys → Alone (entries [] items.now) n zs fields.now → Acting (entries [] items.now) zs x ask.entry → result ≡ tally (counts (entries [] items.now) zs x ask.entry) (act_shape (written (entries [] items.now) n d).action) }
{
    if limit == 0 {
        return 0;
    }
    match first_turn(items, name, picks) {
        Turn::Nothing => 0,
        Turn::Picked(chosen, rest) => {
            rule_action(items, ask, chosen.as_bytes(), rest, fields, limit - 1)
        }
        Turn::Made(rule) => match &rule.attrs.action {
            None => 0,
            Some(a) => statements(
                items,
                ask,
                rule.pars,
                a.stmts.as_slice(),
                picks,
                fields,
                limit - 1,
            ),
        },
    }
}

/// Of statements of a rule with these parameters, whose arguments stand in front.
#[cycle(actions)]
fn statements(
    items: &[Item],
    ask: Ask<'_>,
    pars: &Option<Pars>,
    list: &[Stmt],
    picks: &[u32],
    fields: &[i128],
    limit: usize,
) -> u8
    ensures { (args : Arguments) (ks : List ℕ) (ys : List ℤ) (n : ℕ) (zs : List ℤ) (x : Derivation) (rule : Rule) → Here (entries [] items.now) (pars_of pars.now) limit args picks.now fields.now ks ys n zs x ask.entry → Each (SoundIn (entries [] items.now) rule args n zs) (block list.now) → result ≡ weight (entries [] items.now) args n zs x ask.entry (block list.now) }
{
    let mut sum = 0;
    for one in list {
        let more = statement(items, ask, pars, one, picks, fields, limit);
        sum = together(sum, more);
    }
    sum
}

/// Of one statement. It calls itself as deep as statements stand in statements, and rules in rules.
#[cycle(actions)]
fn statement(
    items: &[Item],
    ask: Ask<'_>,
    pars: &Option<Pars>,
    one: &Stmt,
    picks: &[u32],
    fields: &[i128],
    limit: usize,
) -> u8
    ensures { (args : Arguments) (ks : List ℕ) (ys : List ℤ) (n : ℕ) (zs : List ℤ) (x : Derivation) (rule : Rule) (rest : Block) → Here (entries [] items.now) (pars_of pars.now) limit args picks.now fields.now ks ys n zs x ask.entry → Each (SoundIn (entries [] items.now) rule args n zs) (stmt one.now rest) → Each (SoundIn (entries [] items.now) rule args n zs) rest × (weight (entries [] items.now) args n zs x ask.entry (stmt one.now rest) ≡ together result (weight (entries [] items.now) args n zs x ask.entry rest)) }
{
    match one {
        Stmt::Assign(place, _, e, _) => {
            assignment(items, ask, pars, place, e, picks, fields, limit)
        }
        Stmt::Part(name, _, _, _) => {
            part_action(items, ask, pars, name.text.as_bytes(), picks, fields, limit)
        }
        Stmt::Halt(_, _, e, _, _) => {
            let taken = taken_by(items, ask, pars, e, picks, fields, limit);
            let halt = weigh(items, ask, Key::Halt);
            together(taken, halt)
        }
        Stmt::If(_, c, _, xs, other, _, _) => {
            let taken = taken_by(items, ask, pars, c, picks, fields, limit);
            let some = statements(items, ask, pars, xs.as_slice(), picks, fields, limit);
            match other {
                None => together(taken, some),
                Some((_, ys)) => {
                    let others = statements(items, ask, pars, ys.as_slice(), picks, fields, limit);
                    together(taken, greater(some, others))
                }
            }
        }
    }
}

/// Of the reads of the input in an expression.
#[cycle(actions)]
fn taken_by(
    items: &[Item],
    ask: Ask<'_>,
    pars: &Option<Pars>,
    e: &Expr,
    picks: &[u32],
    fields: &[i128],
    limit: usize,
) -> u8
    ensures { (args : Arguments) (ks : List ℕ) (ys : List ℤ) (n : ℕ) (zs : List ℤ) (x : Derivation) → Here (entries [] items.now) (pars_of pars.now) limit args picks.now fields.now ks ys n zs x ask.entry → result ≡ tally (counts (entries [] items.now) zs x ask.entry) (term_shape (term (entries [] items.now) (arguments (entries [] items.now) n args) (formula e.now))) }
{
    let input = weigh(items, ask, Key::Read);
    reads(
        items,
        pars,
        e,
        picks,
        fields,
        limit,
        Weights { look: 0, input },
    )
}

/// Of an assignment.
#[cycle(actions)]
fn assignment(
    items: &[Item],
    ask: Ask<'_>,
    pars: &Option<Pars>,
    place: &Place,
    e: &Expr,
    picks: &[u32],
    fields: &[i128],
    limit: usize,
) -> u8
    ensures { (args : Arguments) (ks : List ℕ) (ys : List ℤ) (n : ℕ) (zs : List ℤ) (x : Derivation) (rule : Rule) (rest : Act) → Here (entries [] items.now) (pars_of pars.now) limit args picks.now fields.now ks ys n zs x ask.entry → EachIndex (SoundIn (entries [] items.now) rule args n zs) (index place.now.index) → tally (counts (entries [] items.now) zs x ask.entry) (act_shape (assigned (reference (entries [] items.now) (arguments (entries [] items.now) n args) place.now.name.text (index_term (entries [] items.now) (arguments (entries [] items.now) n args) (index place.now.index))) (term (entries [] items.now) (arguments (entries [] items.now) n args) (formula e.now)) rest)) ≡ together result (tally (counts (entries [] items.now) zs x ask.entry) (act_shape rest)) }
{
    let input = weigh(items, ask, Key::Read);
    let index = place_index(items, pars, place, picks, fields, limit, input);
    let name = place.name.text.as_bytes();
    match named_target(items, pars, name, index, picks, fields, limit, input) {
        None => 0,
        Some(target) => {
            let taken = reads(
                items,
                pars,
                e,
                picks,
                fields,
                limit,
                Weights { look: 0, input },
            );
            let write = weigh(items, ask, target.key);
            together(target.reads, together(taken, write))
        }
    }
}

/// Of the action of the part of this name.
#[cycle(actions)]
fn part_action(
    items: &[Item],
    ask: Ask<'_>,
    pars: &Option<Pars>,
    name: &[u8],
    picks: &[u32],
    fields: &[i128],
    limit: usize,
) -> u8
    ensures { (args : Arguments) (ks : List ℕ) (ys : List ℤ) (n : ℕ) (zs : List ℤ) (x : Derivation) → Here (entries [] items.now) (pars_of pars.now) limit args picks.now fields.now ks ys n zs x ask.entry → result ≡ tally (counts (entries [] items.now) zs x ask.entry) (act_shape (action_of (lookup (text_eq name.now) (arguments (entries [] items.now) n args)))) }
{
    match first_par(pars, name) {
        None => 0,
        Some((k, par)) => {
            let (p, f) = skip_pars(items, pars, k, picks, fields, limit);
            match part_of(items, &par.ty) {
                Some(rule) => rule_action(items, ask, rule.as_bytes(), p, f, limit),
                None => 0,
            }
        }
    }
}
