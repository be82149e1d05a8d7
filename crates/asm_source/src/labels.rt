//! The labels of a text, by their names.

ghost use Rattle.std.specs.Prelude.{◌≡◌, ℕ, [], List, IfOk, OnOk, MatchResult, map};
ghost use Rattle.std.specs.List.{list_all};
ghost use Rattle.std.specs.Map.{lookup};
ghost use Rattle.std.specs.Option.{option_or};
ghost use Rattle.nk_base.specs.Text.{text_eq};
ghost use Rattle.nml_tree.specs.Places as places;
ghost use Rattle.asm_lines.specs.Seen.{seen, seen_content};
ghost use Rattle.asm_text.specs.Refused as refused;
ghost use Rattle.asm_text.specs.Refused.{has_doubled, is_label};
ghost use Rattle.asm_text.specs.Source.{labels, labels_before};
ghost use Rattle.asm_source.specs.Known as spec;
ghost use Rattle.asm_source.specs.Known.{first_doubled, number_of, AreNumbers, IsLabelFault, KnowsLabels};

use crate::count::words_of;
use asm_lines::{Content, Line, Reference};
use asm_text::AsmFault;
use indexmap::IndexMap;
use nk_base::{Memory, Text};
use std::alloc::Global;
use std::marker::Model;

/// The labels of a text, each by its name with its number, which is that of the next word; words count from 0.
///
/// Contracts see it as the list of names and numbers. The form is this project's own.
#[derive(Drop)]
pub struct Labels {
    numbers: IndexMap<Text, u64>,
}

impl Model for Labels {
    ghost use Rattle.std.specs.Prelude.{ℕ, List};

    ghost Value = { List (List ℕ × ℕ) };

    ghost view = { λ l. l.numbers.entries };
}

impl Labels {
    /// Whether it is the name of a label.
    fn has(&self, name: &Text) -> bool
        ensures { result ≡ is_label self.now name.now }
    {
        self.numbers.contains_key(name)
    }

    /// The number of the label of this name; 0 where there is none.
    pub(crate) fn number(&self, name: &Text) -> u64
        ensures { result ≡ number_of self.now name.now }
    {
        match self.numbers.get(name) {
            None => 0,
            Some(number) => *number,
        }
    }
}

/// The labels of the lines.
///
/// The errors are `Label`, exactly where a line defines a label that a line before it defines, or refers to a label that no line defines, at
/// the first of these, and want of memory. Each label and each reference is looked up a fixed number of times. The rule is this project's own.
pub fn labels_of(alloc: Global, lines: &[Line]) -> Result<Labels, AsmFault>
    ensures { MatchResult result (λ l. KnowsLabels (map seen lines.now) l) (λ f. IsLabelFault (map seen lines.now) f) }
{
    let (labels, doubled) = defined(alloc, lines)?;
    match earlier(doubled, first_unknown(&labels, lines)) {
        None => Ok(labels),
        Some(line) => Err(AsmFault::Label { line }),
    }
}

/// The labels by the first lines that define them, and the first line that defines one again.
fn defined(alloc: Global, lines: &[Line]) -> Result<(Labels, Option<u64>), Memory>
    ensures numbers { IfOk result (λ x. AreNumbers (labels (map seen lines.now)) x.0) }
    ensures doubled { IfOk result (λ x. x.1 ≡ first_doubled [] 0 (map seen lines.now)) }
{
    let mut numbers = IndexMap::new(alloc);
    let mut doubled = None;
    let mut number = 0u64;
    let mut words = 0u64;
    for line in lines {
        number += 1;
        let again = define(&mut numbers, &line.label, words)?;
        doubled = doubled.or(again.then_some(number));
        words += words_of(&line.content);
    }
    Ok((Labels { numbers }, doubled))
}

/// Gives the label this number, if there is a label and it has none; whether it had one.
fn define(
    numbers: &mut IndexMap<Text, u64>,
    label: &Option<Text>,
    number: u64,
) -> Result<bool, Memory>
    ensures doubled { IfOk result (λ b. b ≡ has_doubled numbers.old.entries label.now) }
    ensures numbers { OnOk result ((name : List ℕ) → lookup (text_eq name) numbers.new.entries ≡ option_or (lookup (text_eq name) numbers.old.entries) (lookup (text_eq name) (labels_before label.now number []))) }
{
    match label {
        None => Ok(false),
        Some(name) => {
            if numbers.contains_key(name) {
                return Ok(true);
            }
            numbers.insert(name.clone()?, number)?;
            Ok(false)
        }
    }
}

/// The first line that refers to none of these labels.
fn first_unknown(labels: &Labels, lines: &[Line]) -> Option<u64>
    ensures { result ≡ spec.first_unknown labels.now 0 (map seen lines.now) }
{
    let mut number = 0;
    for line in lines {
        number += 1;
        if !are_known(labels, &line.content) {
            return Some(number);
        }
    }
    None
}

/// Whether each reference is to one of these labels.
fn are_known(labels: &Labels, content: &Content) -> bool
    ensures { result ≡ refused.are_known labels.now (seen_content content.now) }
{
    match content {
        Content::Nothing => true,
        Content::Instruction(tokens) => have_labels(labels, tokens.references.as_slice()),
        Content::Bits(_) => true,
        Content::Data(_) => true,
    }
}

/// Whether each reference is to one of these labels.
fn have_labels(labels: &Labels, references: &[Reference]) -> bool
    ensures { result ≡ list_all (λ r. is_label labels.now r.name) references.now }
{
    references.iter().all(|r| labels.has(&r.name))
}

/// The earlier of two lines, each of which there may be.
fn earlier(a: Option<u64>, b: Option<u64>) -> Option<u64>
    ensures { result ≡ places.earlier a b }
{
    match a {
        None => b,
        Some(a) => match b {
            None => Some(a),
            Some(b) => Some(a.min(b)),
        },
    }
}
