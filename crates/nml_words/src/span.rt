//! The widths that images may have.

ghost use Rattle.std.specs.Prelude.{◌≡◌, IfOk};
ghost use Rattle.nml_words.specs.Span as spec;
ghost use Rattle.nml_words.specs.Words as words;

use nk_base::Memory;

/// The least width and the greatest.
#[derive(Clone, Copy)]
pub struct Span {
    pub least: u64,
    pub most: u64,
}

impl Span {
    /// One width.
    pub fn one(width: u64) -> Span
        ensures { result ≡ spec.span width width }
    {
        Span {
            least: width,
            most: width,
        }
    }

    /// Those of the one behind the other; `Memory` where no memory holds so many bits.
    pub fn plus(self, behind: Span) -> Result<Span, Memory>
        ensures { IfOk result (λ s. s ≡ spec.plus self behind) }
    {
        let Some(least) = self.least.checked_add(behind.least) else {
            return Err(Memory);
        };
        let Some(most) = self.most.checked_add(behind.most) else {
            return Err(Memory);
        };
        Ok(Span { least, most })
    }

    /// Those of the one or the other.
    pub fn joined(self, other: Span) -> Span
        ensures { result ≡ spec.joined self other }
    {
        Span {
            least: self.least.min(other.least),
            most: self.most.max(other.most),
        }
    }

    /// Whether there are two widths or more.
    pub fn differs(self) -> bool
        ensures { result ≡ words.differs self }
    {
        self.least != self.most
    }

    /// Whether some width is below 8 or above 64.
    pub fn is_outside(self) -> bool
        ensures { result ≡ words.is_outside self }
    {
        self.least < 8 || self.most > 64
    }
}
