use nk_base::Ty;

/// What of a description its images are measured by. The form is this project's own.
#[derive(Drop)]
pub struct Layout {
    /// How many bits a word has, 8 to 64.
    pub width: u32,
    /// How many bits PC has, 1 to 16.
    pub pc_bits: u32,
    /// The number of PC's storage.
    pub pc: u32,
    /// How many cells each storage has, and their type, over `mem` and `reg` in the text's order.
    pub storages: Vec<(u32, Ty)>,
}
