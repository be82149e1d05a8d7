//! The words of an assembly text.

ghost use Rattle.std.specs.Prelude.{All, IfOk, List, MatchResult, map};
ghost use Rattle.asm_lines.specs.Line as text;
ghost use Rattle.asm_lines.specs.Line.{Instruction};
ghost use Rattle.asm_lines.specs.Seen.{seen, seen_content, seen_tokens, AreTokens, HasWritten, IsWritten};
ghost use Rattle.asm_source.specs.Known.{KnowsLabels};
ghost use Rattle.asm_text.specs.Assembled.{GiveWords};
ghost use Rattle.asm_text.specs.Source as source;
ghost use Rattle.asm_text.specs.Source.{labels, resolved};
ghost use Rattle.asm_tool.specs.Words.{IsLineWord, IsWordFault};
ghost use Rattle.nml_tree.specs.Table.{table};

use asm_lines::{Content, Line, Tokens};
use asm_source::{Labels, resolve};
use asm_text::AsmFault;
use isg_graph::Isg;
use nk_base::Memory;
use nml_shape::Piece;
use std::alloc::Global;
use syntax_parse::LineFault;

/// What a line gives.
pub enum LineWord {
    /// No word: it is neither an instruction nor `.bits`.
    Nothing,
    /// This word.
    Word(u128),
    /// None, since no instruction has its tokens.
    NoMatch,
    /// None, since the instruction that has them isn't legal.
    Conflict,
}

/// The words of the lines, in order.
///
/// The errors are `NoMatch`, at the first line whose tokens no instruction has; where there is none, `Conflict`, at the first whose instruction
/// isn't legal; and want of memory.
pub fn words_of(
    alloc: Global,
    g: &Isg,
    names: &Labels,
    lines: &[Line],
) -> Result<Vec<u128>, AsmFault>
    requires known { KnowsLabels (map seen lines.now) names.now }
    requires written { All (λ l. IsWritten l.content) lines.now }
    ensures { MatchResult result (λ ws. GiveWords (table g.now.desc) (labels (map seen lines.now)) (map seen lines.now) ws.items) (λ f. IsWordFault (table g.now.desc) (map seen lines.now) f) }
{
    g.is_whole();
    let mut words = Vec::new(alloc);
    let mut conflict = None;
    let mut number = 0u64;
    for line in lines {
        number += 1;
        match line_word(alloc, g, names, &line.content)? {
            LineWord::Nothing => {}
            LineWord::Word(word) => words.push(word)?,
            LineWord::NoMatch => return Err(AsmFault::NoMatch { line: number }),
            LineWord::Conflict => conflict = conflict.or(Some(number)),
        }
    }
    match conflict {
        None => Ok(words),
        Some(line) => Err(AsmFault::Conflict { line }),
    }
}

/// What the line gives. The one error is want of memory.
fn line_word(alloc: Global, g: &Isg, names: &Labels, content: &Content) -> Result<LineWord, Memory>
    requires { IsWritten content.now }
    ensures { (ls : List text.Line) → KnowsLabels ls names.now → IfOk result (λ w. IsLineWord (table g.now.desc) (labels ls) (seen_content content.now) w) }
{
    match content {
        Content::Nothing => Ok(LineWord::Nothing),
        Content::Instruction(tokens) => instruction_word(alloc, g, names, tokens),
        Content::Bits(word) => Ok(LineWord::Word(*word)),
        Content::Data(_) => Ok(LineWord::Nothing),
    }
}

/// The word of the instruction that has these tokens, or why there is none. The one error is want of memory.
fn instruction_word(
    alloc: Global,
    g: &Isg,
    names: &Labels,
    tokens: &Tokens,
) -> Result<LineWord, Memory>
    requires { HasWritten tokens.now }
    ensures { (ls : List text.Line) → KnowsLabels ls names.now → IfOk result (λ w. IsLineWord (table g.now.desc) (labels ls) (Instruction (seen_tokens tokens.now)) w) }
{
    if tokens.references.as_slice().is_empty() {
        return Ok(word_with(g, &tokens.front));
    }
    let pieces = resolve(alloc, names, tokens)?;
    Ok(word_with(g, &pieces))
}

/// The word of the instruction that has these tokens, or why there is none.
fn word_with(g: &Isg, tokens: &[Piece]) -> LineWord
    ensures { (all : source.Labels) (ts : List text.Token) → AreTokens tokens.now (map (resolved all) ts) → IsLineWord (table g.now.desc) all (Instruction ts) result }
{
    match syntax_parse::line(g, tokens) {
        Ok(i) => LineWord::Word(i.word),
        Err(fault) => match fault {
            LineFault::NoMatch => LineWord::NoMatch,
            LineFault::Conflict => LineWord::Conflict,
        },
    }
}
