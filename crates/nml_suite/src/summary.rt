ghost use Rattle.std.specs.Prelude.{◌∷◌, [], ℕ, List};
ghost use Rattle.nml_suite.specs.Coming.{CheckComesTo};
ghost use Rattle.nml_suite.specs.Reading.{store};
ghost use Rattle.nml_suite.specs.Refusing.{IsSummedUp, Settles, summed};

use crate::describe::accepted;
use crate::load::load;
use nk_base::{Memory, Text};
use nk_outside::Files;
use nml_reply::Refusal;
use nml_tree::Checked;
use nml_types::{Summary, sum_up};
use std::alloc::Global;

/// Reads a description, refuses it where it has a fault, and sums it up.
pub fn sum_up_file<'a, F: Files>(
    alloc: Global,
    files: &mut F,
    description: &'a Text,
) -> Result<Summary, Refusal<'a>>
    ensures { Settles (store (F.held files.old) (F.counts files.old)) (store (F.held files.new) (F.counts files.new)) (description.now ∷ []) (CheckComesTo description.now) (summed result) }
{
    let bytes = load(alloc, files, description)?;
    let tree = accepted(alloc, description, &bytes)?;
    summed_up(alloc, &tree)
}

/// What is told of an accepted description.
fn summed_up<'a>(alloc: Global, tree: &Checked) -> Result<Summary, Refusal<'a>>
    ensures { IsSummedUp tree.now result }
{
    match sum_up(alloc, tree) {
        Ok(found) => Ok(found),
        Err(Memory) => Err(Refusal::Memory),
    }
}
