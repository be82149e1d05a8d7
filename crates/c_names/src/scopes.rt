ghost use Rattle.std.specs.Prelude.{◌≡◌, OnOk, IfOk, map, is_some};
ghost use Rattle.std.specs.HashMap.{HashMap};
ghost use Rattle.c_tree.specs.Names.{meaning_in, meaning_through, ports, with_meaning, with_name, with_variable, inner};
ghost use Rattle.c_tree.specs.Names as spec;
ghost use Rattle.c_tree.specs.declared.meaning.Place.TheVariants as places;
ghost use Rattle.c_names.specs.Shown.{names, around, outside};

use c_tree::{Meaning, Place};
use indexmap::IndexMap;
use nk_base::{Memory, Text};
use std::alloc::Global;
use std::mem;

/// What names mean at a place of the text: what is declared in the block so far, the blocks around it, the functions of
/// the whole text, with `main` also where the text has none, and the next free cell.
///
/// A look-up asks one map a block, from the innermost on. The form is this project's own.
#[derive(Drop)]
pub struct Scopes {
    pub block: IndexMap<Text, Meaning>,
    pub outer: Vec<IndexMap<Text, Meaning>>,
    pub functions: IndexMap<Text, Meaning>,
    pub next: u128,
}

/// What the name means by this list.
pub fn meaning_of(list: &IndexMap<Text, Meaning>, name: &Text) -> Option<Meaning>
    ensures { result ≡ meaning_in list.now.entries name.now }
{
    list.get(name).copied()
}

/// What the name means by these blocks, the innermost last. It calls itself as deep as blocks stand in blocks.
pub fn meaning_around(blocks: &[IndexMap<Text, Meaning>], name: &Text) -> Option<Meaning>
    ensures { result ≡ meaning_through (around blocks.now) name.now }
{
    match blocks.split_last() {
        None => None,
        Some((last, rest)) => match meaning_of(last, name) {
            None => meaning_around(rest, name),
            Some(meaning) => Some(meaning),
        },
    }
}

/// Puts the name with its meaning into the list. The one error is want of memory.
pub fn put(list: &mut IndexMap<Text, Meaning>, name: &Text, meaning: Meaning) -> Result<(), Memory>
    ensures { OnOk result (list.new.entries ≡ with_meaning list.old.entries name.now meaning) }
{
    list.insert(name.clone()?, meaning)?;
    Ok(())
}

/// Whether this is `in` or `out`.
pub fn is_port(name: &Text) -> bool
    ensures { result ≡ is_some (meaning_in ports name.now) }
{
    if name.as_bytes() == b"in".as_slice() {
        true
    } else {
        name.as_bytes() == b"out".as_slice()
    }
}

impl Scopes {
    /// What a name means that was declared before. It takes no memory.
    pub fn seen(&self, name: &Text) -> Option<Meaning>
        ensures { result ≡ spec.seen (names self.now) name.now }
    {
        match meaning_of(&self.block, name) {
            None => meaning_around(self.outer.as_slice(), name),
            Some(meaning) => Some(meaning),
        }
    }

    /// What a name means that is called, as a function may stand later. It takes no memory.
    pub fn callee(&self, name: &Text) -> Option<Meaning>
        ensures { result ≡ spec.callee (names self.now) name.now }
    {
        match self.seen(name) {
            None => meaning_of(&self.functions, name),
            Some(meaning) => Some(meaning),
        }
    }

    /// What the text's functions say of the name. It takes no memory.
    pub fn function(&self, name: &Text) -> Option<Meaning>
        ensures { result ≡ meaning_in (names self.now).functions name.now }
    {
        meaning_of(&self.functions, name)
    }

    /// Whether the name may not be declared here: it was declared in this block before, or it is `in` or `out`. It takes
    /// no memory.
    pub fn is_taken(&self, name: &Text) -> bool
        ensures { result ≡ spec.is_taken (names self.now) name.now }
    {
        match meaning_of(&self.block, name) {
            None => is_port(name),
            Some(_) => true,
        }
    }

    /// Declares the name. The one error is want of memory.
    pub fn declare(&mut self, name: &Text, meaning: Meaning) -> Result<(), Memory>
        ensures { OnOk result (names self.new ≡ with_name (names self.old) name.now meaning) }
    {
        put(&mut self.block, name, meaning)
    }

    /// Declares a variable of the function, a scalar or an array of this length, which takes the next cells. The one
    /// error is want of memory, also where there are no numbers for so many cells.
    pub fn declare_local(&mut self, name: &Text, length: Option<u64>) -> Result<(), Memory>
        ensures { OnOk result (names self.new ≡ with_variable places.Local (names self.old) name.now length) }
    {
        let place = Place::Local(self.next);
        self.declare_at(name, length, place)
    }

    /// Declares a global variable likewise.
    pub fn declare_global(&mut self, name: &Text, length: Option<u64>) -> Result<(), Memory>
        ensures { OnOk result (names self.new ≡ with_variable places.Global (names self.old) name.now length) }
    {
        let place = Place::Global(self.next);
        self.declare_at(name, length, place)
    }

    /// Declares a variable at this place, and takes the next cells for it.
    fn declare_at(&mut self, name: &Text, length: Option<u64>, place: Place) -> Result<(), Memory>
        ensures { OnOk result (names self.new ≡ with_variable (λ k. place) (names self.old) name.now length) }
    {
        let (meaning, size) = match length {
            None => (Meaning::OneCell(place), 1),
            Some(cells) => (Meaning::Cells(place, cells), u128::from(cells)),
        };
        let Some(next) = self.next.checked_add(size) else {
            return Err(Memory);
        };
        self.declare(name, meaning)?;
        self.next = next;
        Ok(())
    }

    /// Begins a block within this one. The one error is want of memory.
    pub fn enter(&mut self, alloc: Global) -> Result<(), Memory>
        ensures { OnOk result (names self.new ≡ inner (names self.old)) }
    {
        let block = mem::replace(&mut self.block, IndexMap::new(alloc));
        self.outer.push(block)?;
        Ok(())
    }

    /// Goes back to the block around this one; the cells stay taken. It takes no memory.
    pub fn leave(&mut self)
        ensures { names self.new ≡ outside (names self.old) }
    {
        match self.outer.pop() {
            None => {}
            Some(block) => self.block = block,
        }
    }
}
