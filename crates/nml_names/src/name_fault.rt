//! The first fault of names in a description.
ghost use Rattle.std.specs.Prelude.{◌≡◌, IfOk};
ghost use Rattle.nml_tree.specs.NameFault.{name_places};
ghost use Rattle.nml_tree.specs.Places.{least_of};

use crate::item::{Standing, item_names, with_inp, with_out};
use crate::names::declarations;
use nk_base::Memory;
use nml_tree::Desc;
use std::alloc::Global;

/// The least place at which a name is unknown, declared twice, or `PC` or `instruction` and not declared as a register or a rule;
/// `None` where every name is right.
///
/// A `let` and a `type` stand before their uses, anything else stands anywhere; of two equal names, the later is at fault; a second
/// `inp` or `out` is at fault at its name. The rule is this project's own. The one error is want of memory.
pub fn first_name_fault(alloc: Global, d: &Desc) -> Result<Option<u32>, Memory>
    ensures { IfOk result (λ found. found ≡ least_of (name_places d.now)) }
{
    let items = d.items.as_slice();
    let names = declarations(alloc, items)?;
    let mut found = None;
    let mut inp = false;
    let mut out = false;
    for number in 0..items.len() {
        let item = &items[number];
        let at = Standing {
            names: &names,
            number,
            inp,
            out,
        };
        found = item_names(alloc, &at, item, found)?;
        inp = with_inp(inp, item);
        out = with_out(out, item);
    }
    Ok(found)
}
