//! The kinds of expressions.

ghost use Rattle.std.specs.Prelude.{◌≡◌};
ghost use Rattle.nml_tree.specs.TypeFault as fault;
ghost use Rattle.nml_tree.specs.Worth as spec;
ghost use Rattle.nml_worth.specs.Shown.{seen_kind, shown_kind};

/// A number, or true or false; or neither. The names are this project's own.
#[derive(Clone, Copy)]
pub enum Kind {
    /// A number.
    Number,
    /// True or false.
    Truth,
    /// Of sides of two kinds, or of what is misused.
    Unknown,
    /// Of an `op`, and of a name that isn't one of a value.
    Nothing,
}

/// Whether it is a number, or true or false. It takes no memory.
pub fn is_known(kind: Kind) -> bool
    ensures { result ≡ spec.is_known (seen_kind kind) }
{
    match kind {
        Kind::Number => true,
        Kind::Truth => true,
        Kind::Unknown => false,
        Kind::Nothing => false,
    }
}

/// Whether what is of this kind may stand in an expression. It takes no memory.
pub fn has_value(kind: Kind) -> bool
    ensures { result ≡ fault.has_value (seen_kind kind) }
{
    match kind {
        Kind::Number => true,
        Kind::Truth => true,
        Kind::Unknown => true,
        Kind::Nothing => false,
    }
}

/// Whether both are known, and differ. It takes no memory.
pub fn is_other(a: Kind, b: Kind) -> bool
    ensures { result ≡ spec.is_other (seen_kind a) (seen_kind b) }
{
    match a {
        Kind::Number => match b {
            Kind::Number => false,
            Kind::Truth => true,
            Kind::Unknown => false,
            Kind::Nothing => false,
        },
        Kind::Truth => match b {
            Kind::Number => true,
            Kind::Truth => false,
            Kind::Unknown => false,
            Kind::Nothing => false,
        },
        Kind::Unknown => false,
        Kind::Nothing => false,
    }
}

/// The first, where it is known, or else the second. It takes no memory.
pub fn known_first(a: Kind, b: Kind) -> Kind
    ensures { result ≡ shown_kind (spec.known_first (seen_kind a) (seen_kind b)) }
{
    if is_known(a) { a } else { b }
}

/// Unknown in place of nothing. It takes no memory.
pub fn valued(kind: Kind) -> Kind
    ensures { result ≡ shown_kind (spec.valued (seen_kind kind)) }
{
    match kind {
        Kind::Number => Kind::Number,
        Kind::Truth => Kind::Truth,
        Kind::Unknown => Kind::Unknown,
        Kind::Nothing => Kind::Unknown,
    }
}
