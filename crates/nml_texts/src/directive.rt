//! Directives and their arguments.

ghost use Rattle.std.specs.Prelude.{◌≡◌, ◌==◌, Option, Some};
ghost use Rattle.std.specs.Char.{is_ascii_digit};
ghost use Rattle.std.specs.List.{AllPass};
ghost use Rattle.std.specs.Str.Parse.{digits_value};
ghost use Rattle.nml_tree.specs.Directives as spec;
ghost use Rattle.nml_tree.specs.Table.{Parameter};
ghost use Rattle.nml_texts.specs.Given.{given, which};

use crate::text::Which;
use nk_base::number_of_digits;
use nml_tree::Attribute;

/// What an argument's name is.
#[derive(Clone, Copy)]
pub enum Given {
    /// A field of so many bits.
    Field(u128),
    /// A part.
    Part,
    /// Neither.
    Neither,
}

/// Whether the digits write the number.
fn are_of(digits: &[u8], n: u128) -> bool
    requires { AllPass is_ascii_digit digits.now }
    ensures { result ≡ (digits_value 10 digits.now == n) }
{
    match number_of_digits(digits) {
        None => false,
        Some(z) => z == n,
    }
}

/// Whether the directive is one of a field of so many bits.
fn is_field_directive(w: Which, digits: &[u8], letter: u8, width: u128) -> bool
    requires { AllPass is_ascii_digit digits.now }
    ensures { result ≡ spec.is_field_directive (which w) digits.now letter width }
{
    match w {
        Which::Syntax => letter == b'd' && digits.len() == 0,
        Which::Image => letter == b'b' && (digits.len() == 0 || are_of(digits, width)),
    }
}

/// Whether it is the attribute that the text is.
pub fn is_same(w: Which, a: Attribute) -> bool
    ensures { result ≡ spec.is_same (which w) a }
{
    match w {
        Which::Syntax => match a {
            Attribute::Syntax(_) => true,
            Attribute::Image(_) => false,
        },
        Which::Image => match a {
            Attribute::Syntax(_) => false,
            Attribute::Image(_) => true,
        },
    }
}

/// Whether the directive may have the argument.
pub fn takes(
    w: Which,
    digits: &[u8],
    letter: u8,
    argument: Given,
    attribute: &Option<(u32, Attribute)>,
) -> bool
    requires { AllPass is_ascii_digit digits.now }
    ensures { (p : Option Parameter) → argument ≡ given p → result ≡ spec.takes (which w) digits.now letter p attribute.now }
{
    match argument {
        Given::Neither => false,
        Given::Field(width) => match attribute {
            None => is_field_directive(w, digits, letter, width),
            Some(_) => false,
        },
        Given::Part => match attribute {
            None => false,
            Some((_, a)) => letter == b's' && digits.len() == 0 && is_same(w, *a),
        },
    }
}
