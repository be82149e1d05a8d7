//! The values that the lines give, by their cells.

ghost use Rattle.std.specs.Prelude.{map, IfOk, MatchResult};
ghost use Rattle.asm_data.specs.Storages.{AreStorages, IsSound};
ghost use Rattle.asm_data.specs.Values.{AreValues, IsAdded, initials};
ghost use Rattle.asm_data.specs.Given.{IsDataFault};
ghost use Rattle.asm_lines.specs.Seen.{seen, seen_content};
ghost use Rattle.nml_tree.specs.Table.{Table};

use crate::storages::{Cell, Storages};
use asm_lines::{Content, Line};
use asm_text::AsmFault;
use nk_base::Memory;
use std::alloc::Global;
use std::collections::BTreeMap;

/// The value that each cell is given, 0 included, of lines that give no cell twice.
///
/// The errors are want of memory, and the fault of the first line that is wrong.
pub fn values_of(
    alloc: Global,
    storages: &Storages,
    lines: &[Line],
) -> Result<BTreeMap<Cell, u64>, AsmFault>
    requires { IsSound storages.now }
    ensures { (t : Table) → AreStorages t storages.now → MatchResult result (λ m. AreValues t (map seen lines.now) m.entries) (λ f. IsDataFault t (map seen lines.now) f) }
{
    let mut values = BTreeMap::new(alloc);
    for i in 0..lines.len() {
        if !add(&mut values, storages, &lines[i].content)? {
            return Err(AsmFault::Data { line: i as u64 + 1 });
        }
    }
    Ok(values)
}

/// Adds the value that the line gives, if it gives one; whether it may stand behind the lines before it.
fn add(
    values: &mut BTreeMap<Cell, u64>,
    storages: &Storages,
    content: &Content,
) -> Result<bool, Memory>
    requires { IsSound storages.now }
    ensures { (t : Table) → AreStorages t storages.now → IfOk result (λ right. IsAdded t (seen_content content.now) (initials values.old.entries) (initials values.new.entries) right) }
{
    match content {
        Content::Nothing => Ok(true),
        Content::Instruction(_) => Ok(true),
        Content::Bits(_) => Ok(true),
        Content::Data(data) => match storages.given(data) {
            None => Ok(false),
            Some((cell, value)) => Ok(values.insert(cell, value)?.is_none()),
        },
    }
}
