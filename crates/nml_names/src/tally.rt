//! How often the attributes of a rule name each parameter.
ghost use Rattle.std.specs.Prelude.{◌≡◌, map, IfOk, OnOk};
ghost use Rattle.nml_tree.specs.Block.{Block, action_block, block, stmt};
ghost use Rattle.nml_tree.specs.Uses.{in_text};
ghost use Rattle.nml_names.specs.Tallies as spec;
ghost use Rattle.nml_names.specs.Tallies.{seen, nothing, tally, part_names};

use indexmap::IndexSet;
use nk_base::{Memory, Text};
use nml_tree::{Action, Arg, Stmt, Template};
use std::alloc::Global;

/// The names that stand at least once, and those that stand at least twice.
#[derive(Drop)]
pub struct Tally {
    pub once: IndexSet<Text>,
    pub twice: IndexSet<Text>,
}

/// No names.
fn none(alloc: Global) -> Tally
    ensures { seen result ≡ nothing }
{
    Tally {
        once: IndexSet::new(alloc),
        twice: IndexSet::new(alloc),
    }
}

/// Counts the name.
fn add(t: &mut Tally, name: &Text) -> Result<(), Memory>
    ensures { OnOk result (seen t.new ≡ spec.add (seen t.old) name.now) }
{
    if t.once.contains(name) {
        t.twice.insert(name.clone()?)?;
    } else {
        t.once.insert(name.clone()?)?;
    }
    Ok(())
}

/// Counts the names of the arguments.
fn add_arguments(t: &mut Tally, args: &[(u32, Arg)]) -> Result<(), Memory>
    ensures { OnOk result (seen t.new ≡ tally (seen t.old) (map (λ (comma, a). a.name) args.now)) }
{
    for (_, arg) in args {
        add(t, &arg.name.text)?;
    }
    Ok(())
}

/// The names in the text.
pub fn in_template(alloc: Global, text: &Template) -> Result<Tally, Memory>
    ensures { IfOk result (λ t. seen t ≡ tally nothing (in_text text.now)) }
{
    let mut t = none(alloc);
    match text {
        Template::Plain(_) => (),
        Template::Part(n, _, _) => add(&mut t, &n.text)?,
        Template::Format(_, _, _, args, _) => add_arguments(&mut t, args.as_slice())?,
    }
    Ok(t)
}

/// Counts the parts whose actions the statements take.
#[cycle(statements)]
#[tactic(auto, using(crate::proofs::Tallying::tally_append, nml_tree::proofs::BlockLaws::block_laws))]
fn add_statements(t: &mut Tally, stmts: &[Stmt]) -> Result<(), Memory>
    ensures { OnOk result (seen t.new ≡ tally (seen t.old) (part_names (block stmts.now))) }
{
    for one in stmts {
        add_statement(t, one)?;
    }
    Ok(())
}

/// Counts the parts whose actions the statement takes. It calls itself as deep as statements stand in statements.
#[cycle(statements)]
#[tactic(auto, using(crate::proofs::Tallying::tally_append, nml_tree::proofs::BlockLaws::block_laws))]
fn add_statement(t: &mut Tally, one: &Stmt) -> Result<(), Memory>
    ensures { OnOk result ((rest : Block) → tally (seen t.new) (part_names rest) ≡ tally (seen t.old) (part_names (stmt one.now rest))) }
{
    match one {
        Stmt::Assign(_, _, _, _) => Ok(()),
        Stmt::Part(n, _, _, _) => add(t, &n.text),
        Stmt::Halt(_, _, _, _, _) => Ok(()),
        Stmt::If(_, _, _, xs, other, _, _) => {
            add_statements(t, xs.as_slice())?;
            match other {
                None => Ok(()),
                Some((_, ys)) => add_statements(t, ys.as_slice()),
            }
        }
    }
}

/// The parts whose actions the action takes.
pub fn in_action(alloc: Global, action: &Option<Action>) -> Result<Tally, Memory>
    ensures { IfOk result (λ t. seen t ≡ tally nothing (part_names (action_block action.now))) }
{
    let mut t = none(alloc);
    if let Some(a) = action {
        add_statements(&mut t, a.stmts.as_slice())?;
    }
    Ok(t)
}

/// Whether the name stands once and no more.
fn is_once(t: &Tally, name: &Text) -> bool
    ensures { result ≡ spec.is_once (seen t.now) name.now }
{
    t.once.contains(name) && !t.twice.contains(name)
}

/// Whether the name stands once in each text, and not twice in the action.
pub fn are_linear(syntax: &Tally, image: &Tally, action: &Tally, name: &Text) -> bool
    ensures { result ≡ spec.are_linear (seen syntax.now) (seen image.now) (seen action.now) name.now }
{
    is_once(syntax, name) && is_once(image, name) && !action.twice.contains(name)
}
