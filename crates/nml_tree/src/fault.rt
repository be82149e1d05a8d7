use nk_base::{Bits, Memory, Text};
use std::alloc::{AllocError, AllocFailed};

/// Which of the two names that every description declares is lacking; `Instruction` comes first where both are.
#[derive(Clone, Copy, Debug)]
pub enum Root {
    /// The rule `instruction`.
    Instruction,
    /// The register `PC`.
    Pc,
}

/// Why a file is no description: the first fault that it has in this order, and want of memory.
///
/// Each place `at` is a number of bytes from the beginning of the file. Where a fault is at several places, the least is meant. The
/// numbers and names of the faults are this project's own.
#[derive(Debug, Drop)]
pub enum DescFault {
    /// N1: the byte at this place begins no token, or its token is over its limit.
    Lex { at: u64 },
    /// N2: no description has these tokens, and none has tokens that begin with those up to this place; the length of the bytes, where
    /// they end too early.
    Syntax { at: u64 },
    /// N3: the first type `float` stands at this place.
    Float { at: u64 },
    /// N4: the name at this place is unknown, or was declared before, or is `PC` or `instruction` and declared as something else than
    /// a register or a rule.
    Name { at: u64 },
    /// N5: this rule reaches itself through its alternatives or its parameters.
    Cycle { rule: Text },
    /// N6: what stands at this place has not the kind or the size that its place asks for: a size, a type, an alternative, an operand,
    /// a shift amount, a string, or a name that is used as what it isn't.
    TypeFault { at: u64 },
    /// N7: the index or expression that begins at this place can be too wide or too large, or the storage named there has too many cells.
    Width { at: u64 },
    /// N8: the rule's image or syntax doesn't name this parameter exactly once, or its action takes the parameter's action more than once.
    Linear { rule: Text, param: Text },
    /// N9: the images of this rule's alternatives differ in width, or it is `instruction` and its width isn't 8 to 64.
    WordWidth { rule: Text },
    /// N10: in this rule's syntax, written out, a number touches a digit, a `-` or another number, or a digit or `-` of one string touches
    /// a digit of the next; or it is `instruction`, and some text of it has no token.
    Edge { rule: Text },
    /// N11: this is not declared.
    Root { what: Root },
    /// N12: there are over 4,096 shapes of an instruction, or one has over 256 rules and fields, or its action, written out, has over
    /// 1,024 statements, operators and leaves: how many shapes there are, the most rules and fields, the largest action. A number above
    /// 1,000,000 is told as 1,000,000.
    Shapes { count: u32, nodes: u32, size: u32 },
    /// N13: two instructions have one image, the least word that is one of both; `a` and `b` are their syntax. They are of the first two
    /// shapes that meet: the least first one, and the least second one to it.
    SameImage { a: Text, b: Text, word: Bits },
    /// N14: two instructions have the same tokens, written with one blank between two; `a` and `b` are their images. They are of the first
    /// two shapes that agree, the least first one and the least second one to it, with the least number in each field.
    SameSyntax { a: Bits, b: Bits, text: Text },
    /// Want of memory.
    Memory,
}

impl From<Memory> for DescFault {
    ghost use Rattle.std.specs.Prelude.{◌≡◌};
    ghost use Rattle.nml_tree.specs.declared.fault.DescFault.TheVariants.{Memory};

    ghost from_gives = { λ _ fault. fault ≡ Memory };

    fn from(_: Memory) -> DescFault {
        DescFault::Memory
    }
}

impl From<AllocError> for DescFault {
    ghost use Rattle.std.specs.Prelude.{◌≡◌};
    ghost use Rattle.nml_tree.specs.declared.fault.DescFault.TheVariants.{Memory};

    ghost from_gives = { λ _ fault. fault ≡ Memory };

    fn from(_: AllocError) -> DescFault {
        DescFault::Memory
    }
}

impl<T: Drop> From<AllocFailed<T>> for DescFault {
    ghost use Rattle.std.specs.Prelude.{◌≡◌};
    ghost use Rattle.nml_tree.specs.declared.fault.DescFault.TheVariants.{Memory};

    ghost from_gives = { λ _ fault. fault ≡ Memory };

    fn from(_: AllocFailed<T>) -> DescFault {
        DescFault::Memory
    }
}
