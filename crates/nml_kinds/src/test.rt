//! What kinds, caps and names of values have to be.

ghost use Rattle.std.specs.Prelude.{◌≡◌, Option, option_map};
ghost use Rattle.nml_known.specs.Known.{known};
ghost use Rattle.nml_tree.specs.Directives as directives;
ghost use Rattle.nml_tree.specs.Table.{Declared};
ghost use Rattle.nml_tree.specs.TypeFault as spec;
ghost use Rattle.nml_tree.specs.WidthFault as widths;
ghost use Rattle.nml_tree.specs.Worth as worth;
ghost use Rattle.nml_worth.specs.Around.{around};
ghost use Rattle.nml_worth.specs.Shown.{seen_kind, shown, shown_cap};

use nk_base::Text;
use nml_known::{Known, Parameter};
use nml_tree::Name;
use nml_worth::{Cap, Kind, Scope, Worth, has_value};

/// The kind of what may be assigned.
pub fn place_kind(w: Worth) -> Kind
    ensures { (x : worth.Worth) → w ≡ shown x → seen_kind result ≡ spec.place_kind x }
{
    if w.is_place { w.kind } else { Kind::Unknown }
}

/// Whether the name may have an index, or be without one.
fn may_have_index(indexed: bool, k: Option<Known>) -> bool
    ensures { (d : Option Declared) → k ≡ option_map known d → result ≡ spec.may_have_index indexed d }
{
    match k {
        Some(Known::Storage(size, _)) => if indexed { size != 1 } else { size <= 1 },
        _ => !indexed,
    }
}

/// Whether the name is that of a value, with an index where it has one.
#[tactic(auto, using(crate::proofs::KindLaws::seen_shown))]
pub fn is_named_rightly(s: &Scope<'_>, indexed: bool, n: &Name) -> bool
    ensures { result ≡ spec.is_named_rightly (around s.now) indexed n.now }
{
    may_have_index(indexed, s.names().declared(&n.text)) && has_value(s.name(&n.text).kind)
}

/// Whether the name is that of a part.
pub fn is_part(s: &Scope<'_>, name: &Text) -> bool
    ensures { result ≡ directives.is_part (directives.parameter (around s.now).pars name.now) }
{
    match s.parameter(name) {
        None => false,
        Some(Parameter::Field(_)) => false,
        Some(Parameter::Part(_)) => true,
    }
}

/// Whether an index of this cap is below the size.
pub fn is_below(cap: Cap, size: u128) -> bool
    ensures { (c : worth.Cap) → cap ≡ shown_cap c → result ≡ widths.is_below c size }
{
    match cap {
        Cap::UpTo(c) => c < size,
        Cap::Uncapped => false,
        Cap::Untold => false,
    }
}
