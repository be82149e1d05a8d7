//! Shapes by the first token and the number of tokens of their lines.

ghost use Rattle.std.specs.Prelude.{◌≡◌, ◌++◌, ◌∷◌, [], ℕ, List, IfOk, OnOk, true, if◌then◌else◌};
ghost use Rattle.std.specs.List.{list_any};
ghost use Rattle.nk_base.specs.Text.{text_eq};
ghost use Rattle.isg_lists.specs.Numbers.{list_at, numbers_where};
ghost use Rattle.isg_lists.specs.Lines.{AreBegun, AreLines, IsBegun, kept_for};
ghost use Rattle.isg_lists.specs.declared.lines.Line.{Line};
ghost use Rattle.isg_lists.specs.Lines as spec;

use crate::group::{add, shape_at};
use indexmap::{IndexMap, IndexSet};
use nk_base::{Memory, Text};
use nml_shape::{Piece, Shape};
use std::alloc::Global;

/// What the first token of a line is: a word by its number, a number or a field, or a mark.
#[derive(Clone, Copy, PartialEq, Eq, Hash)]
enum First {
    Word(usize),
    Number,
    Mark(u8),
}

/// The first token of a line, and how many tokens it has.
#[derive(Clone, Copy, PartialEq, Eq, Hash)]
struct Line {
    first: First,
    count: usize,
}

/// The numbers of shapes by the first token and the number of tokens of their lines.
///
/// The form is this project's own.
#[derive(Drop)]
pub struct Lines {
    words: IndexSet<Text>,
    lists: IndexMap<Line, Vec<u32>>,
}

/// The shapes by their lines.
///
/// The one error is want of memory, also that for more than 2^32 shapes. The rule is this project's own.
pub fn lines_of(alloc: Global, shapes: &[Shape]) -> Result<Lines, Memory>
    ensures { IfOk result (λ l. AreLines shapes.now l) }
{
    let words = words_of(alloc, shapes)?;
    let lists = by_line(alloc, shapes, &words)?;
    Ok(Lines { words, lists })
}

/// The words that lines begin with.
fn words_of(alloc: Global, shapes: &[Shape]) -> Result<IndexSet<Text>, Memory>
    ensures { IfOk result (λ words. AreBegun words.keys shapes.now) }
{
    let mut words = IndexSet::new(alloc);
    for i in 0..shapes.len() {
        add_word(&mut words, shape_at(shapes, i).template.as_slice())?;
    }
    Ok(words)
}

/// Adds the word that the template begins with, if it does. The one error is want of memory.
fn add_word(words: &mut IndexSet<Text>, template: &[Piece]) -> Result<(), Memory>
    ensures begun { OnOk result (IsBegun words.new.keys template.now) }
    ensures kept { OnOk result ((w : List ℕ) → list_any (text_eq w) words.old.keys ≡ true → list_any (text_eq w) words.new.keys ≡ true) }
{
    if let Some(Piece::Word(word)) = template.first() {
        words.insert(word.clone()?)?;
    }
    Ok(())
}

/// For each line the numbers of its shapes in rising order.
fn by_line(
    alloc: Global,
    shapes: &[Shape],
    words: &IndexSet<Text>,
) -> Result<IndexMap<Line, Vec<u32>>, Memory>
    ensures { IfOk result (λ lists. (line : Line) → list_at spec.same_line lists line ≡ numbers_where (spec.is_on words.now.keys line) shapes.now) }
{
    let mut lists = IndexMap::new(alloc);
    for i in 0..shapes.len() {
        let Ok(n) = u32::try_from(i) else {
            return Err(Memory);
        };
        let line = line_of(words, shape_at(shapes, i).template.as_slice());
        add_line(alloc, &mut lists, line, n)?;
    }
    Ok(lists)
}

/// Appends the number to the list of the line, if there is one. The one error is want of memory.
fn add_line(
    alloc: Global,
    lists: &mut IndexMap<Line, Vec<u32>>,
    line: Option<Line>,
    n: u32,
) -> Result<(), Memory>
    ensures { OnOk result ((l : Line) → list_at spec.same_line lists.new l ≡ (if spec.is_line l line then list_at spec.same_line lists.old l ++ n ∷ [] else list_at spec.same_line lists.old l)) }
{
    match line {
        None => Ok(()),
        Some(line) => add(alloc, lists, line, n),
    }
}

/// The line of a template; `None` where it has no token, or begins with a word that is not among these.
fn line_of(words: &IndexSet<Text>, template: &[Piece]) -> Option<Line>
    ensures { result ≡ spec.line_of words.now.keys template.now }
{
    match template.first() {
        None => None,
        Some(first) => line_with(words, first, template.len()),
    }
}

/// A line of so many tokens that begins so; `None` where that is a word that is not among these.
fn line_with(words: &IndexSet<Text>, first: &Piece, count: usize) -> Option<Line>
    ensures { result ≡ spec.line_with words.now.keys first.now count }
{
    match first_of(words, first) {
        None => None,
        Some(first) => Some(Line { first, count }),
    }
}

/// What the token is; `None` where it is a word that is not among these.
fn first_of(words: &IndexSet<Text>, first: &Piece) -> Option<First>
    ensures { result ≡ spec.first_of words.now.keys first.now }
{
    match first {
        Piece::Word(word) => match words.get_index_of(word) {
            None => None,
            Some(n) => Some(First::Word(n)),
        },
        Piece::Number(_) => Some(First::Number),
        Piece::Mark(c) => Some(First::Mark(*c)),
        Piece::Field(_) => Some(First::Number),
    }
}

/// The numbers that are kept for the line; none where there is no such line.
fn list_of(lists: &IndexMap<Line, Vec<u32>>, line: Line) -> &[u32]
    ensures { result.now ≡ list_at spec.same_line lists.now line }
{
    match lists.get(&line) {
        None => &[],
        Some(list) => list.as_slice(),
    }
}

impl Lines {
    /// In rising order the numbers of exactly the shapes whose lines have `count` tokens and begin with the same word, the same mark, or,
    /// where `first` is a number or a field, with any number or field. It takes no memory.
    pub fn of_line(&self, first: &Piece, count: u32) -> &[u32]
        ensures { result.now ≡ kept_for self.now first.now count }
    {
        match line_with(&self.words, first, count as usize) {
            None => &[],
            Some(line) => list_of(&self.lists, line),
        }
    }
}
