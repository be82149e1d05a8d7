//! The faults in statements.

ghost use Rattle.std.specs.Prelude.{◌≡◌, ◌++◌, Option, option_map};
ghost use Rattle.nml_known.specs.Known.{known};
ghost use Rattle.nml_names.specs.Note.{noted};
ghost use Rattle.nml_tree.specs.Block as blocks;
ghost use Rattle.nml_tree.specs.Block.{Block, action_block, block, stmt};
ghost use Rattle.nml_tree.specs.Formula as formulas;
ghost use Rattle.nml_tree.specs.Formula.{formula};
ghost use Rattle.nml_tree.specs.Inside as inside;
ghost use Rattle.nml_tree.specs.Table.{Declared, declared};
ghost use Rattle.nml_tree.specs.WidthFault as widths;
ghost use Rattle.nml_tree.specs.Worth as worth;
ghost use Rattle.nml_worth.specs.Around.{around};
ghost use Rattle.nml_worth.specs.Shown.{seen_kind, shown_cap};
ghost use Rattle.nml_kinds.specs.Statements as spec;

use crate::declared::unless;
use crate::faults::Faults;
use crate::test::{is_below, is_named_rightly, is_part, place_kind};
use nml_known::Known;
use nml_names::note;
use nml_tree::{Action, Expr, Name, Place, Stmt};
use nml_worth::{Cap, Kind, Scope, expr, is_other};

/// Notes the least faults of an expression that is to be of this kind.
pub fn operand(s: &Scope<'_>, wanted: Kind, e: &Expr, found: Faults) -> Faults
    ensures kind { result.kind ≡ noted found.kind (spec.operand_kinds (around s.now) (seen_kind wanted) (formula e.now)) }
    ensures width { result.width ≡ noted found.width (spec.widths_inside (around s.now) (inside.inside (formula e.now))) }
{
    let seen = expr(s, e, found.kind, found.width);
    Faults {
        kind: note(seen.kinds, is_other(seen.worth.kind, wanted), seen.start),
        width: seen.widths,
    }
}

/// Notes the index of a storage, where it may pass the storage's size.
fn index_width(k: Option<Known>, cap: Cap, start: u32, found: Option<u32>) -> Option<u32>
    ensures { (s : worth.Scope) (i : formulas.Formula) (d : Option Declared) → k ≡ option_map known d → cap ≡ shown_cap (worth.worth s i).cap → start ≡ inside.start i → result ≡ noted found (widths.index_places s d i) }
{
    match k {
        Some(Known::Storage(size, _)) => unless(found, is_below(cap, size), start),
        _ => found,
    }
}

/// Notes the name where it has too many bits.
pub fn name_width(s: &Scope<'_>, n: &Name, found: Option<u32>) -> Option<u32>
    ensures { result ≡ noted found (widths.node_widths (around s.now) (formulas.Named n.now)) }
{
    note(found, s.name(&n.text).width > 127, n.at)
}

/// Notes the least faults of an index.
fn index_operand(s: &Scope<'_>, n: &Name, i: &Expr, found: Faults) -> Faults
    ensures kind { result.kind ≡ noted found.kind (spec.operand_kinds (around s.now) worth.Number (formula i.now)) }
    ensures width { result.width ≡ noted found.width (spec.widths_inside (around s.now) (inside.inside (formula i.now)) ++ widths.index_places (around s.now) (declared (around s.now).table n.now.text) (formula i.now)) }
{
    let seen = expr(s, i, found.kind, found.width);
    let declared = s.names().declared(&n.text);
    Faults {
        kind: note(
            seen.kinds,
            is_other(seen.worth.kind, Kind::Number),
            seen.start,
        ),
        width: index_width(declared, seen.worth.cap, seen.start, seen.widths),
    }
}

/// Notes the least faults of the place that is assigned, and of its index.
fn target(s: &Scope<'_>, p: &Place, found: Faults) -> Faults
    ensures kind { result.kind ≡ noted found.kind (spec.index_kinds (around s.now) (blocks.index p.now.index)) }
    ensures width { result.width ≡ noted found.width (spec.index_widths (around s.now) (blocks.index p.now.index) ++ widths.node_widths (around s.now) (inside.as_read p.now.name (blocks.index p.now.index))) }
{
    match &p.index {
        None => Faults {
            kind: found.kind,
            width: name_width(s, &p.name, found.width),
        },
        Some((_, i, _)) => index_operand(s, &p.name, i, found),
    }
}

/// Notes the name where it can't be assigned, or not with such a value.
fn assigned_name(s: &Scope<'_>, p: &Place, value: Kind, found: Option<u32>) -> Option<u32>
    ensures { result ≡ noted found (spec.name_kinds (around s.now) p.now.name (blocks.index p.now.index) (seen_kind value)) }
{
    let w = s.name(&p.name.text);
    let good = w.is_place && is_named_rightly(s, p.index.is_some(), &p.name);
    let found = unless(found, good, p.name.at);
    note(found, is_other(place_kind(w), value), p.name.at)
}

/// Notes the least faults of an assignment.
fn assigned(s: &Scope<'_>, p: &Place, e: &Expr, found: Faults) -> Faults
    ensures kind { result.kind ≡ noted found.kind (spec.assigned_kinds (around s.now) p.now.name (blocks.index p.now.index) (formula e.now)) }
    ensures width { result.width ≡ noted found.width (spec.assigned_widths (around s.now) p.now.name (blocks.index p.now.index) (formula e.now)) }
{
    let found = target(s, p, found);
    let value = expr(s, e, found.kind, found.width);
    Faults {
        kind: assigned_name(s, p, value.worth.kind, value.kinds),
        width: value.widths,
    }
}

/// Notes the least faults of the statements.
#[cycle(statements)]
#[tactic(auto, using(nml_names::proofs::Notes::noted_append, nml_tree::proofs::BlockLaws::block_laws))]
fn statements(s: &Scope<'_>, stmts: &[Stmt], found: Faults) -> Faults
    ensures kind { result.kind ≡ noted found.kind (spec.block_kinds (around s.now) (block stmts.now)) }
    ensures width { result.width ≡ noted found.width (spec.block_widths (around s.now) (block stmts.now)) }
{
    let mut found = found;
    for one in stmts {
        found = statement(s, one, found);
    }
    found
}

/// Notes the least faults of the statement. It calls itself as deep as statements stand in statements.
#[cycle(statements)]
#[tactic(auto, using(nml_names::proofs::Notes::noted_append, nml_tree::proofs::BlockLaws::block_laws))]
fn statement(s: &Scope<'_>, one: &Stmt, found: Faults) -> Faults
    ensures kind { (rest : Block) → noted found.kind (spec.block_kinds (around s.now) (stmt one.now rest)) ≡ noted result.kind (spec.block_kinds (around s.now) rest) }
    ensures width { (rest : Block) → noted found.width (spec.block_widths (around s.now) (stmt one.now rest)) ≡ noted result.width (spec.block_widths (around s.now) rest) }
{
    match one {
        Stmt::Assign(place, _, e, _) => assigned(s, place, e, found),
        Stmt::Part(n, _, _, _) => Faults {
            kind: unless(found.kind, is_part(s, &n.text), n.at),
            width: found.width,
        },
        Stmt::Halt(_, _, e, _, _) => operand(s, Kind::Number, e, found),
        Stmt::If(_, c, _, xs, other, _, _) => {
            let found = statements(s, xs.as_slice(), operand(s, Kind::Truth, c, found));
            match other {
                None => found,
                Some((_, ys)) => statements(s, ys.as_slice(), found),
            }
        }
    }
}

/// Notes the least faults of the action.
pub fn action(s: &Scope<'_>, action: &Option<Action>, found: Faults) -> Faults
    ensures kind { result.kind ≡ noted found.kind (spec.block_kinds (around s.now) (action_block action.now)) }
    ensures width { result.width ≡ noted found.width (spec.block_widths (around s.now) (action_block action.now)) }
{
    match action {
        None => found,
        Some(a) => statements(s, a.stmts.as_slice(), found),
    }
}
