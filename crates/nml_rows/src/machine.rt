use indexmap::IndexMap;
use nk_base::{Memory, Text};
use nk_outside::MemFiles;
use std::alloc::Global;

/// Files by their names.
pub type Machine = IndexMap<Text, Vec<u8>>;

/// The same files once more.
pub fn copy_of(alloc: Global, machine: &Machine) -> Result<Machine, Memory> {
    let mut copy = IndexMap::new(alloc);
    for (name, bytes) in machine.iter() {
        copy.insert(name.clone()?, bytes.clone()?)?;
    }
    Ok(copy)
}

/// The files for a call none of whose calls of files fails.
pub fn files_of(alloc: Global, machine: &Machine) -> Result<MemFiles, Memory> {
    Ok(MemFiles {
        files: copy_of(alloc, machine)?,
        fail: Vec::new(alloc),
        calls: 0,
        read_faults: 0,
        write_faults: 0,
        absents: 0,
    })
}
