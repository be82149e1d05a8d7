//! The alternatives of or-rules.

ghost use Rattle.std.specs.Prelude.{◌≡◌, ◌∷◌, List, Some, slice_get, true, unwrap_or};
ghost use Rattle.nml_worth.specs.declared.worth.Worth as code;
ghost use Rattle.nml_names.specs.Note.{noted};
ghost use Rattle.nml_tree.specs.Table.{declared, is_mode_word, table};
ghost use Rattle.nml_tree.specs.TypeFault as spec;
ghost use Rattle.nml_tree.specs.Worth as worth;
ghost use Rattle.nml_tree.specs.declared.names.Name as tree;
ghost use Rattle.nml_worth.specs.Around.{AreWorths};
ghost use Rattle.nml_kinds.specs.Parts.{alternatives_behind};
ghost use Rattle.nml_worth.specs.Shown.{seen_kind};

use crate::declared::is_rule_of;
use nk_base::Text;
use nml_known::Names;
use nml_names::note;
use nml_tree::{Name, OrRule, RuleWord};
use nml_worth::{Kind, Worth, is_other, known_first};

/// The kind of the alternatives so far, where it is known, and the least place so far.
#[derive(Clone, Copy)]
struct Before {
    kind: Kind,
    found: Option<u32>,
}

/// What the rule of the name is worth.
fn rule_kind(names: &Names<'_>, worths: &[Worth], name: &Text) -> Kind
    requires { AreWorths names.now worths.now }
    ensures { worth.is_rule (declared (table names.now) name.now) ≡ true → seen_kind result ≡ (worth.rule_worth (table names.now) name.now).kind }
{
    kind_at(worths, number_or_none(names.number(name)))
}

/// The number, 0 where there is none.
fn number_or_none(n: Option<usize>) -> usize
    ensures { result ≡ unwrap_or n 0 }
{
    match n {
        None => 0,
        Some(k) => k,
    }
}

/// The kind of the worth of this number.
fn kind_at(worths: &[Worth], n: usize) -> Kind
    ensures { (w : code.Worth) → slice_get worths.now n ≡ Some w → result ≡ w.kind }
{
    match worths.get(n) {
        None => Kind::Unknown,
        Some(w) => w.kind,
    }
}

/// Notes an alternative that is no rule of its kind.
fn alternative(names: &Names<'_>, worths: &[Worth], mode: bool, n: &Name, before: Before) -> Before
    requires { AreWorths names.now worths.now }
    ensures { (ns : List tree.Name) → noted before.found (spec.alternative_places (table names.now) mode (seen_kind before.kind) (n.now ∷ ns)) ≡ noted result.found (spec.alternative_places (table names.now) mode (seen_kind result.kind) ns) }
{
    if is_rule_of(mode, names.declared(&n.text)) {
        let kind = rule_kind(names, worths, &n.text);
        Before {
            kind: known_first(before.kind, kind),
            found: note(before.found, is_other(before.kind, kind), n.at),
        }
    } else {
        Before {
            kind: before.kind,
            found: note(before.found, true, n.at),
        }
    }
}

/// Notes the least of further alternatives that is no rule of its kind.
fn further_alternatives(
    names: &Names<'_>,
    worths: &[Worth],
    mode: bool,
    rest: &[(u32, Name)],
    before: Before,
) -> Option<u32>
    requires { AreWorths names.now worths.now }
    ensures { result ≡ noted before.found (spec.alternative_places (table names.now) mode (seen_kind before.kind) (alternatives_behind rest.now)) }
{
    let mut before = before;
    for (_, n) in rest {
        before = alternative(names, worths, mode, n, before);
    }
    before.found
}

/// Whether it is `mode`.
fn is_mode(word: RuleWord) -> bool
    ensures { result ≡ is_mode_word word }
{
    match word {
        RuleWord::Op(_) => false,
        RuleWord::Mode(_) => true,
    }
}

/// Notes the least alternative that is no rule of its kind.
pub fn or_rule(names: &Names<'_>, worths: &[Worth], r: &OrRule, found: Option<u32>) -> Option<u32>
    requires { AreWorths names.now worths.now }
    ensures { result ≡ noted found (spec.alternative_places (table names.now) (is_mode_word r.now.word) worth.Unknown (r.now.first ∷ alternatives_behind r.now.rest)) }
{
    let mode = is_mode(r.word);
    let before = Before {
        kind: Kind::Unknown,
        found,
    };
    let before = alternative(names, worths, mode, &r.first, before);
    further_alternatives(names, worths, mode, r.rest.as_slice(), before)
}
