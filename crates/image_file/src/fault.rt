use std::alloc::{AllocError, AllocFailed};

/// Why bytes are no image of a description: the first fault that they have in this order, and want of memory.
///
/// Each place `at` is a number of bytes from the beginning of the file. The numbers and names of the faults are this project's own.
#[derive(Clone, Copy)]
pub enum ImageFault {
    /// I1: the first four bytes aren't the letters `NMLI`, or there are fewer.
    Magic,
    /// I2: the fifth byte is there and isn't 1.
    Version { found: u8 },
    /// I3: the file ends at this place, inside a part that its own numbers call for. The parts are measured by the width and the numbers
    /// that stand in the file, also where they aren't right for the description; the first 42 bytes are called for in any file.
    Short { at: u64 },
    /// I4: bytes follow the last part, from this place on.
    Trailing { at: u64 },
    /// I5: the digest in the file isn't the description's, which is the first of the two.
    Digest { wanted: [u8; 32], found: [u8; 32] },
    /// I6: the first field by which the image isn't valid for the description begins at this place; where there are more words than PC
    /// can name, it is their number.
    Value { at: u64 },
    /// Want of memory.
    Memory,
}

impl From<AllocError> for ImageFault {
    ghost use Rattle.std.specs.Prelude.{◌≡◌};
    ghost use Rattle.image_file.specs.declared.fault.ImageFault.TheVariants.{Memory};

    ghost from_gives = { λ _ fault. fault ≡ Memory };

    fn from(_: AllocError) -> ImageFault {
        ImageFault::Memory
    }
}

impl<T: Drop> From<AllocFailed<T>> for ImageFault {
    ghost use Rattle.std.specs.Prelude.{◌≡◌};
    ghost use Rattle.image_file.specs.declared.fault.ImageFault.TheVariants.{Memory};

    ghost from_gives = { λ _ fault. fault ≡ Memory };

    fn from(_: AllocFailed<T>) -> ImageFault {
        ImageFault::Memory
    }
}
