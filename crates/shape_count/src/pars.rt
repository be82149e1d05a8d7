//! What is counted of the rules that a rule names.

ghost use Rattle.std.specs.Prelude.{◌≡◌, map};
ghost use Rattle.nml_tree.specs.Table.{pars_of};
ghost use Rattle.shape_count.specs.Tally as tally;
ghost use Rattle.shape_count.specs.Tally.{with_alternatives, with_parameters};
ghost use Rattle.shape_count.specs.Tallies as spec;
ghost use Rattle.shape_count.specs.Tallies.{par_tally};

use crate::tally::Tally;
use nk_base::Text;
use nml_known::{Names, Parameter};
use nml_tree::{Name, Par, Pars};

/// What stands at the number.
pub fn tally_at(tallies: &[Tally], number: usize) -> Tally
    ensures { result ≡ spec.tally_at tallies.now number }
{
    match tallies.get(number) {
        None => Tally::of(0, 0),
        Some(s) => *s,
    }
}

/// What stands at the number of the name.
pub fn tally_named(names: &Names<'_>, tallies: &[Tally], name: &Text) -> Tally
    ensures { result ≡ spec.tally_named names.now tallies.now name.now }
{
    match names.number(name) {
        None => tally_at(tallies, 0),
        Some(n) => tally_at(tallies, n),
    }
}

/// Those of a parameter.
fn parameter_tally(tallies: &[Tally], p: Option<Parameter>) -> Tally
    ensures { result ≡ spec.parameter_tally tallies.now p }
{
    match p {
        None => Tally::of(0, 0),
        Some(Parameter::Field(_)) => Tally::of(1, 1),
        Some(Parameter::Part(n)) => tally_at(tallies, n),
    }
}

/// Those of a parameter as it is written.
fn par_tally(names: &Names<'_>, tallies: &[Tally], p: &Par) -> Tally
    ensures { result ≡ spec.par_tally names.now tallies.now p.now }
{
    parameter_tally(tallies, names.parameter_of(&p.ty))
}

/// Those of an or-rule of these alternatives.
pub fn or_tally(names: &Names<'_>, tallies: &[Tally], first: &Name, rest: &[(u32, Name)]) -> Tally
    ensures { result ≡ tally.above (with_alternatives (spec.tally_named names.now tallies.now) (spec.tally_named names.now tallies.now first.now.text) (map (λ (bar, n). n.text) rest.now)) }
{
    let mut all = tally_named(names, tallies, &first.text);
    for (_, n) in rest {
        all = all.either(tally_named(names, tallies, &n.text));
    }
    all.above()
}

/// Those of these, beside further parameters.
fn with_rest(names: &Names<'_>, tallies: &[Tally], first: Tally, rest: &[(u32, Par)]) -> Tally
    ensures { result ≡ with_parameters (par_tally names.now tallies.now) first (map (λ (comma, p). p) rest.now) }
{
    let mut all = first;
    for (_, p) in rest {
        all = all.both(par_tally(names, tallies, p));
    }
    all
}

/// Those of an and-rule with these parameters.
pub fn and_tally(names: &Names<'_>, tallies: &[Tally], pars: &Option<Pars>) -> Tally
    ensures { result ≡ with_parameters (par_tally names.now tallies.now) (tally.tally 1 1) (pars_of pars.now) }
{
    let own = Tally::of(1, 1);
    match pars {
        None => own,
        Some(ps) => {
            let first = own.both(par_tally(names, tallies, &ps.first));
            with_rest(names, tallies, first, ps.rest.as_slice())
        }
    }
}
