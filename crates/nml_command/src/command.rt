ghost use Rattle.std.specs.Prelude.{◌≡◌, ◌∷◌, [], Some, None, IsTrue, if◌then◌else◌};
ghost use Rattle.std.specs.Char.{is_ascii_digit};
ghost use Rattle.std.specs.List.{AllPass, list_all};
ghost use Rattle.std.specs.Option.{option_map};
ghost use Rattle.std.specs.Str.Parse.{digits_value};
ghost use Rattle.nml_command.specs.Form.{form_of, is_count};
ghost use Rattle.nml_command.specs.Form as spec;
ghost use Rattle.nml_command.specs.Seen.{seen};

use nk_base::{Text, number_of_digits};

/// A form of the words: what a command is called with.
#[derive(Clone, Copy)]
pub enum Command<'a> {
    Check(&'a Text),
    Asm {
        description: &'a Text,
        source: &'a Text,
        image: &'a Text,
    },
    Dis {
        description: &'a Text,
        image: &'a Text,
    },
    Run {
        description: &'a Text,
        image: &'a Text,
        input: &'a Text,
        steps: u64,
    },
    Cc {
        description: &'a Text,
        source: &'a Text,
        image: &'a Text,
    },
    Ceval {
        description: &'a Text,
        source: &'a Text,
        input: &'a Text,
        turns: u64,
    },
    Demo(u64),
}

/// The command that the words spell; `None` exactly where they match no form.
#[tactic(auto, using(crate::proofs::Words::words_from_items))]
pub fn command_of(words: &[Text]) -> Option<Command<'_>>
    ensures { option_map seen result ≡ form_of words.now }
{
    match words {
        [name, only] => of_two(name, only),
        [name, description, image] => of_three(name, description, image),
        [name, description, second, third] => of_four(name, description, second, third),
        [name, description, second, third, bound] => {
            of_five(name, description, second, third, bound)
        }
        _ => None,
    }
}

/// `check D` or `demo k`.
fn of_two<'a>(name: &'a Text, only: &'a Text) -> Option<Command<'a>>
    ensures { option_map seen result ≡ form_of (name.now ∷ only.now ∷ []) }
{
    if name.as_bytes() == b"check".as_slice() && is_file(only) {
        return Some(Command::Check(only));
    }
    if name.as_bytes() == b"demo".as_slice() {
        return match count_of(only, 3, 200) {
            Some(size) => Some(Command::Demo(size)),
            None => None,
        };
    }
    None
}

/// `dis D I`.
fn of_three<'a>(name: &'a Text, description: &'a Text, image: &'a Text) -> Option<Command<'a>>
    ensures { option_map seen result ≡ form_of (name.now ∷ description.now ∷ image.now ∷ []) }
{
    if name.as_bytes() == b"dis".as_slice() && is_file(description) && is_file(image) {
        Some(Command::Dis { description, image })
    } else {
        None
    }
}

/// `asm D S I` or `cc D C I`.
fn of_four<'a>(
    name: &'a Text,
    description: &'a Text,
    source: &'a Text,
    image: &'a Text,
) -> Option<Command<'a>>
    ensures { option_map seen result ≡ form_of (name.now ∷ description.now ∷ source.now ∷ image.now ∷ []) }
{
    if !(is_file(description) && is_file(source) && is_file(image)) {
        return None;
    }
    if name.as_bytes() == b"asm".as_slice() {
        return Some(Command::Asm {
            description,
            source,
            image,
        });
    }
    if name.as_bytes() == b"cc".as_slice() {
        return Some(Command::Cc {
            description,
            source,
            image,
        });
    }
    None
}

/// `run D I X n` or `ceval D C X n`.
fn of_five<'a>(
    name: &'a Text,
    description: &'a Text,
    second: &'a Text,
    input: &'a Text,
    bound: &'a Text,
) -> Option<Command<'a>>
    ensures { option_map seen result ≡ form_of (name.now ∷ description.now ∷ second.now ∷ input.now ∷ bound.now ∷ []) }
{
    if !(is_file(description) && is_file(second) && is_file(input)) {
        return None;
    }
    let Some(count) = count_of(bound, 10, 1_000_000_000) else {
        return None;
    };
    if name.as_bytes() == b"run".as_slice() {
        return Some(Command::Run {
            description,
            image: second,
            input,
            steps: count,
        });
    }
    if name.as_bytes() == b"ceval".as_slice() {
        return Some(Command::Ceval {
            description,
            source: second,
            input,
            turns: count,
        });
    }
    None
}

/// Whether the word may name a file.
fn is_file(word: &Text) -> bool
    ensures { result ≡ spec.is_file word.now }
{
    !word.as_bytes().is_empty()
}

/// The number of one to `digits` decimal digits, if it is 1 to `most`.
fn count_of(word: &Text, digits: usize, most: u64) -> Option<u64>
    ensures { result ≡ (if is_count digits most word.now then Some (digits_value 10 word.now) else None) }
{
    let bytes = word.as_bytes();
    if bytes.is_empty() || bytes.len() > digits || !are_digits(bytes) {
        return None;
    }
    match number_of_digits(bytes) {
        Some(value) if value >= 1 && value <= u128::from(most) => Some(value as u64),
        _ => None,
    }
}

/// Whether each byte is a decimal digit.
fn are_digits(bytes: &[u8]) -> bool
    ensures value { result ≡ list_all is_ascii_digit bytes.now }
    ensures digits { IsTrue result → AllPass is_ascii_digit bytes.now }
{
    bytes.iter().all(|byte| byte.is_ascii_digit())
}
