//! The names in statements and in the attributes of a rule.
ghost use Rattle.std.specs.Prelude.{◌≡◌, map};
ghost use Rattle.nml_tree.specs.Block.{Block, action_block, block, stmt};
ghost use Rattle.nml_tree.specs.Uses as uses;
ghost use Rattle.nml_names.specs.Found.{met, is_found};

use crate::scope::{Scope, name};
use crate::used::expr;
use nml_tree::{Action, Arg, Attrs, Stmt, Template};

/// Notes the least name of the statements that isn't known.
#[cycle(statements)]
#[tactic(auto, using(crate::proofs::Notes::met_append, nml_tree::proofs::BlockLaws::block_laws))]
fn statements(s: &Scope<'_>, stmts: &[Stmt], found: Option<u32>) -> Option<u32>
    ensures { result ≡ met (is_found s.now) found (uses.in_block (block stmts.now)) }
{
    let mut found = found;
    for one in stmts {
        found = statement(s, one, found);
    }
    found
}

/// Notes the least name of the statement that isn't known. It calls itself as deep as statements stand in statements.
#[cycle(statements)]
#[tactic(auto, using(crate::proofs::Notes::met_append, nml_tree::proofs::BlockLaws::block_laws))]
fn statement(s: &Scope<'_>, one: &Stmt, found: Option<u32>) -> Option<u32>
    ensures { (rest : Block) → met (is_found s.now) found (uses.in_block (stmt one.now rest)) ≡ met (is_found s.now) result (uses.in_block rest) }
{
    match one {
        Stmt::Assign(place, _, e, _) => {
            let found = name(s, &place.name, found);
            match &place.index {
                None => expr(s, e, found),
                Some((_, i, _)) => expr(s, e, expr(s, i, found)),
            }
        }
        Stmt::Part(n, _, _, _) => name(s, n, found),
        Stmt::Halt(_, _, e, _, _) => expr(s, e, found),
        Stmt::If(_, c, _, xs, other, _, _) => {
            let found = statements(s, xs.as_slice(), expr(s, c, found));
            match other {
                None => found,
                Some((_, ys)) => statements(s, ys.as_slice(), found),
            }
        }
    }
}

/// Notes the least name of the action that isn't known.
fn action(s: &Scope<'_>, action: &Option<Action>, found: Option<u32>) -> Option<u32>
    ensures { result ≡ met (is_found s.now) found (uses.in_block (action_block action.now)) }
{
    match action {
        None => found,
        Some(a) => statements(s, a.stmts.as_slice(), found),
    }
}

/// Notes the least name of the arguments that isn't known.
fn arguments(s: &Scope<'_>, args: &[(u32, Arg)], found: Option<u32>) -> Option<u32>
    ensures { result ≡ met (is_found s.now) found (map (λ (comma, a). a.name) args.now) }
{
    let mut found = found;
    for (_, arg) in args {
        found = name(s, &arg.name, found);
    }
    found
}

/// Notes the least name of the text that isn't known.
fn template(s: &Scope<'_>, text: &Template, found: Option<u32>) -> Option<u32>
    ensures { result ≡ met (is_found s.now) found (uses.in_text text.now) }
{
    match text {
        Template::Plain(_) => found,
        Template::Part(n, _, _) => name(s, n, found),
        Template::Format(_, _, _, args, _) => arguments(s, args.as_slice(), found),
    }
}

/// Notes the least name of the attributes that isn't known.
#[tactic(auto, using(crate::proofs::Notes::met_append))]
pub fn attributes(s: &Scope<'_>, a: &Attrs, found: Option<u32>) -> Option<u32>
    ensures { result ≡ met (is_found s.now) found (uses.in_attrs a.now) }
{
    let found = template(s, &a.syntax_text, found);
    let found = template(s, &a.image_text, found);
    action(s, &a.action, found)
}
