ghost use Rattle.nml_suite.specs.Reading.{store};
ghost use Rattle.nml_suite.specs.Refusing.{IsLoaded};

use nk_base::Text;
use nk_outside::{Files, ReadFault};
use nml_reply::Refusal;
use std::alloc::Global;

/// Reads a file, or refuses it by its name.
pub fn load<'a, F: Files>(
    alloc: Global,
    files: &mut F,
    name: &'a Text,
) -> Result<Vec<u8>, Refusal<'a>>
    ensures { IsLoaded (store (F.held files.old) (F.counts files.old)) (store (F.held files.new) (F.counts files.new)) name.now result }
{
    match files.read(alloc, name) {
        Ok(bytes) => Ok(bytes),
        Err(ReadFault::Memory) => Err(Refusal::Memory),
        Err(ReadFault::Absent) => Err(Refusal::Absent(name)),
        Err(ReadFault::Failed) => Err(Refusal::Failed(name)),
        Err(ReadFault::TooLong) => Err(Refusal::TooLong(name)),
    }
}
