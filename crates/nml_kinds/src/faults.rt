//! The least places of faults.

ghost use Rattle.std.specs.Prelude.{◌≡◌, IfOk};
ghost use Rattle.nml_tree.specs.Places.{least_of};
ghost use Rattle.nml_tree.specs.TypeFault.{type_fault_places};
ghost use Rattle.nml_tree.specs.WidthFault.{width_places};
ghost use Rattle.nml_worth.specs.Around.{AreWorths};

use crate::item::item;
use crate::rule::Given;
use crate::storage::storages;
use nk_base::Memory;
use nml_known::Names;
use nml_texts::Widths;
use nml_worth::Worth;
use std::alloc::Global;

/// The least place of a fault of kind, and of one of width, each where there is one.
#[derive(Clone, Copy)]
pub struct Faults {
    /// Where a condition of typing fails.
    pub kind: Option<u32>,
    /// Where a width, an index or the storages pass their limit.
    pub width: Option<u32>,
}

/// The least place at which a condition of typing fails, and the least at which a width, an index or the storages pass their limit; `None`
/// where that is nowhere. `worths` is what each rule is worth, by the number of its item.
///
/// Sizes and types are within their limits; what is read has a value, and operands are numbers or `bool`, as their operator has it; what
/// is assigned is a place; alternatives are rules of one kind; texts are right. No value has more than 127 bits, no index passes its
/// storage, and there are at most 1,048,576 cells in at most 65,536 storages. The rules are this project's own. The one error is want of
/// memory. It calls itself as deep as statements and expressions are.
pub fn first_faults(alloc: Global, names: &Names<'_>, worths: &[Worth]) -> Result<Faults, Memory>
    requires { AreWorths names.now worths.now }
    ensures kind { IfOk result (λ f. f.kind ≡ least_of (type_fault_places names.now)) }
    ensures width { IfOk result (λ f. f.width ≡ least_of (width_places names.now)) }
{
    let widths = Widths::new(alloc, names)?;
    let given = Given {
        names,
        widths: &widths,
        worths,
    };
    let mut found = Faults {
        kind: None,
        width: storages(names, None),
    };
    for i in names.items() {
        found = item(alloc, &given, i, found)?;
    }
    Ok(found)
}
