//! The greatest of what the derivations of a rule come to, from those of the rules that it names.

ghost use Rattle.std.specs.Prelude.{◌≡◌, map, max, Some, IfOk};
ghost use Rattle.nml_tree.specs.Table.{pars_of};
ghost use Rattle.shape_count.specs.Sizes as sizes;
ghost use Rattle.shape_count.specs.Weights as spec;
ghost use Rattle.shape_count.specs.Weights.{name_best, par_best, with_names, with_pars};

use crate::count::plus;
use crate::key::{Key, ask, number_of};
use crate::summary::Summary;
use crate::tally::MOST;
use indexmap::IndexMap;
use nk_base::{Memory, Text};
use nml_known::{Names, Parameter};
use nml_tree::{Name, Par, Pars};

/// The product, as far as is counted.
fn times(a: u32, b: u32) -> u32
    ensures { result ≡ sizes.times a b }
{
    MOST.min(a.saturating_mul(b))
}

/// What stands at the place.
fn count_at(counts: &[u32], place: usize) -> u32
    ensures { result ≡ spec.count_at counts.now place }
{
    match counts.get(place) {
        None => 0,
        Some(n) => *n,
    }
}

/// How often the value of the parameter of this place counts.
fn value_weight(s: &Summary, key: Key, place: usize) -> u32
    ensures { result ≡ spec.value_weight s.now key place }
{
    let in_action = times(key.action, count_at(s.acts.counts.as_slice(), place));
    let in_value = times(key.value, count_at(s.value_counts.as_slice(), place));
    plus(in_action, in_value)
}

/// How often its action counts.
fn action_weight(s: &Summary, key: Key, place: usize) -> u32
    ensures { result ≡ spec.action_weight s.now key place }
{
    times(key.action, count_at(s.acts.actions.as_slice(), place))
}

/// What the rule's own text counts.
fn own_weight(s: &Summary, key: Key) -> u32
    ensures { result ≡ spec.own_weight s.now key }
{
    plus(times(key.action, s.acts.own), times(key.value, s.value))
}

/// The sum, where both are known.
fn sum(a: Option<u32>, b: Option<u32>) -> Option<u32>
    ensures { result ≡ spec.sum_best a b }
{
    match a {
        None => None,
        Some(x) => match b {
            None => None,
            Some(y) => Some(plus(x, y)),
        },
    }
}

/// The greater, where both are known.
fn greater(a: Option<u32>, b: Option<u32>) -> Option<u32>
    ensures { result ≡ spec.max_best a b }
{
    match a {
        None => None,
        Some(x) => match b {
            None => None,
            Some(y) => Some(x.max(y)),
        },
    }
}

/// That of the rule of this name.
fn of_name(
    names: &Names<'_>,
    known: &IndexMap<Key, u32>,
    open: &mut Vec<Key>,
    key: Key,
    name: &Text,
) -> Result<Option<u32>, Memory>
    ensures { IfOk result (λ o. o ≡ name_best names.now known.now.entries key name.now) }
{
    ask(
        known,
        open,
        Key {
            number: number_of(names, name),
            action: key.action,
            value: key.value,
        },
    )
}

/// That of an or-rule of these alternatives; `None` where something below it isn't known, which is then put onto the open ones.
pub fn or_best(
    names: &Names<'_>,
    known: &IndexMap<Key, u32>,
    open: &mut Vec<Key>,
    key: Key,
    first: &Name,
    rest: &[(u32, Name)],
) -> Result<Option<u32>, Memory>
    ensures { IfOk result (λ o. o ≡ with_names (name_best names.now known.now.entries key) (name_best names.now known.now.entries key first.now.text) (map (λ (bar, n). n.text) rest.now)) }
{
    let mut best = of_name(names, known, open, key, &first.text)?;
    for (_, n) in rest {
        let one = of_name(names, known, open, key, &n.text)?;
        best = greater(best, one);
    }
    Ok(best)
}

/// So many times what is known.
fn scaled(n: u32, best: Option<u32>) -> Option<u32>
    ensures { result ≡ spec.scaled_best n best }
{
    match best {
        None => None,
        Some(b) => Some(times(n, b)),
    }
}

/// That of the rule of this number, where its action and its value count so often. Where the value alone counts, the greatest value
/// is asked for, however often it counts, so that a rule isn't asked for one number of times after the other.
fn of_part(
    known: &IndexMap<Key, u32>,
    open: &mut Vec<Key>,
    number: usize,
    action: u32,
    value: u32,
) -> Result<Option<u32>, Memory>
    ensures { IfOk result (λ o. o ≡ spec.number_best known.now.entries number action value) }
{
    if action == 0 {
        let most = Key {
            number,
            action: 0,
            value: 1,
        };
        return Ok(scaled(value, ask(known, open, most)?));
    }
    ask(
        known,
        open,
        Key {
            number,
            action,
            value,
        },
    )
}

/// That of the parameter of this place.
fn of_par(
    names: &Names<'_>,
    known: &IndexMap<Key, u32>,
    open: &mut Vec<Key>,
    s: &Summary,
    key: Key,
    place: usize,
    p: &Par,
) -> Result<Option<u32>, Memory>
    ensures { IfOk result (λ o. o ≡ par_best names.now known.now.entries s.now key place p.now) }
{
    let value = value_weight(s, key, place);
    match names.parameter_of(&p.ty) {
        None => Ok(Some(0)),
        Some(Parameter::Field(_)) => Ok(Some(value)),
        Some(Parameter::Part(number)) => {
            of_part(known, open, number, action_weight(s, key, place), value)
        }
    }
}

/// This, with further parameters.
fn with_rest(
    names: &Names<'_>,
    known: &IndexMap<Key, u32>,
    open: &mut Vec<Key>,
    s: &Summary,
    key: Key,
    first: Option<u32>,
    rest: &[(u32, Par)],
) -> Result<Option<u32>, Memory>
    ensures { IfOk result (λ o. o ≡ with_pars (par_best names.now known.now.entries s.now key) 1 first (map (λ (comma, p). p) rest.now)) }
{
    let mut best = first;
    for i in 0..rest.len() {
        let one = of_par(names, known, open, s, key, i + 1, &rest[i].1)?;
        best = sum(best, one);
    }
    Ok(best)
}

/// That of an and-rule with these parameters; `None` where something below it isn't known, which is then put onto the open ones.
pub fn and_best(
    names: &Names<'_>,
    known: &IndexMap<Key, u32>,
    open: &mut Vec<Key>,
    s: &Summary,
    key: Key,
    pars: &Option<Pars>,
) -> Result<Option<u32>, Memory>
    ensures { IfOk result (λ o. o ≡ spec.and_best names.now known.now.entries s.now key (pars_of pars.now)) }
{
    let own = Some(own_weight(s, key));
    match pars {
        None => Ok(own),
        Some(ps) => {
            let one = of_par(names, known, open, s, key, 0, &ps.first)?;
            let first = sum(own, one);
            with_rest(names, known, open, s, key, first, ps.rest.as_slice())
        }
    }
}
