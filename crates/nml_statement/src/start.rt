//! What a statement begins with.
ghost use Rattle.std.specs.Prelude.{◌≡◌, ◌<◌, length, map, IfSome};
ghost use Rattle.std.specs.Option.{option_map};
ghost use Rattle.readings.specs.Seen.{seen};
ghost use Rattle.nml_statement.specs.SeenStatements.{start_seen};
ghost use Rattle.nml_grammar.specs.ReadingStatements as spec;

use readings::Sign;

/// The first symbol of a statement and its place: a name, `halt`, `if`.
#[derive(Clone, Copy)]
pub enum Start<'a> {
    /// A name.
    Naming(u32, &'a [u8]),
    /// `halt`.
    Halting(u32),
    /// `if`.
    Branching(u32),
}

/// The one in front, if a statement begins there, and what stands behind it.
pub fn first_of<'t, 'a>(signs: &'t [Sign<'a>]) -> Option<(Start<'a>, &'t [Sign<'a>])>
    ensures starts { option_map (λ x. (start_seen x.0, map seen x.1.now)) result ≡ spec.start (map seen signs.now) }
    ensures shorter { IfSome result (λ x. length x.1.now < length signs.now) }
{
    let (first, rest) = signs.split_first()?;
    match *first {
        Sign::Fixed(at, text) => {
            if text == b"halt".as_slice() {
                Some((Start::Halting(at), rest))
            } else if text == b"if".as_slice() {
                Some((Start::Branching(at), rest))
            } else {
                None
            }
        }
        Sign::Named(at, text) => Some((Start::Naming(at, text), rest)),
        Sign::Number(_, _) => None,
        Sign::Quoted(_, _) => None,
    }
}
