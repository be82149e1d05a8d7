//! How large an expression and statements are, and how often they name each parameter.

ghost use Rattle.std.specs.Prelude.{◌≡◌, List, ℕ};
ghost use Rattle.nml_tree.specs.Block as blocks;
ghost use Rattle.nml_tree.specs.Block.{Block, action_block, block, stmt};
ghost use Rattle.nml_tree.specs.Formula as formulas;
ghost use Rattle.nml_tree.specs.Formula.{formula};
ghost use Rattle.shape_count.specs.Sizes as spec;
ghost use Rattle.shape_count.specs.Sizes.{finds};

use crate::scope::{Found, Scope};
use crate::tally::MOST;
use nml_tree::{Action, Expr, Name, Place, Stmt};

/// The sum, as far as is counted.
pub fn plus(a: u32, b: u32) -> u32
    ensures { result ≡ spec.plus a b }
{
    MOST.min(a.saturating_add(b))
}

/// Counts what stands at the place once more.
fn bump(counts: &mut Vec<u32>, place: usize)
    ensures { counts.new.items ≡ spec.bumped counts.old.items place }
{
    if place < counts.len() {
        counts[place] = plus(counts[place], 1);
    }
}

/// Two operands and their operator.
fn two(a: u32, b: u32) -> u32
    ensures { result ≡ spec.plus 1 (spec.plus a b) }
{
    plus(1, plus(a, b))
}

/// A name with no index.
fn name(s: &Scope<'_>, n: &Name, counts: &mut Vec<u32>) -> u32
    ensures own { result ≡ spec.own (finds s.now.names.now s.now.places.now.entries) (formulas.Named n.now) }
    ensures counts { counts.new.items ≡ spec.mentioned (finds s.now.names.now s.now.places.now.entries) (formulas.Named n.now) counts.old.items }
{
    match s.find(&n.text) {
        Found::Parameter(place) => {
            bump(counts, place);
            0
        }
        Found::Wide => plus(1, 1),
        Found::Leaf => 1,
    }
}

/// A name with an index.
#[cycle(expression)]
fn indexed(s: &Scope<'_>, n: &Name, i: &Expr, counts: &mut Vec<u32>) -> u32
    ensures own { result ≡ spec.own_found (finds s.now.names.now s.now.places.now.entries n.now.text) (spec.own (finds s.now.names.now s.now.places.now.entries) (formula i.now)) }
    ensures counts { counts.new.items ≡ spec.mention_found (finds s.now.names.now s.now.places.now.entries n.now.text) (spec.mentioned (finds s.now.names.now s.now.places.now.entries) (formula i.now) counts.old.items) counts.old.items }
{
    match s.find(&n.text) {
        Found::Parameter(place) => {
            bump(counts, place);
            0
        }
        Found::Wide => plus(1, expr(s, i, counts)),
        Found::Leaf => 1,
    }
}

/// The leaves and operators of an expression that are no parameters; counts each parameter that it names. It calls itself as deep as
/// the expression is.
#[cycle(expression)]
#[tactic(auto, using(nml_tree::proofs::FormulaLaws::formula_laws))]
pub fn expr(s: &Scope<'_>, e: &Expr, counts: &mut Vec<u32>) -> u32
    ensures own { result ≡ spec.own (finds s.now.names.now s.now.places.now.entries) (formula e.now) }
    ensures counts { counts.new.items ≡ spec.mentioned (finds s.now.names.now s.now.places.now.entries) (formula e.now) counts.old.items }
{
    match e {
        Expr::Number(_) => 1,
        Expr::True(_) => 1,
        Expr::False(_) => 1,
        Expr::Name(n, index) => match index {
            None => name(s, n, counts),
            Some((_, i, _)) => indexed(s, n, i.get(), counts),
        },
        Expr::Paren(_, x, _) => expr(s, x.get(), counts),
        Expr::Int(_, _, _, _, x, _) => plus(1, expr(s, x.get(), counts)),
        Expr::Card(_, _, _, _, x, _) => plus(1, expr(s, x.get(), counts)),
        Expr::Sat(_, _, _, _, x, _) => plus(1, expr(s, x.get(), counts)),
        Expr::Bits(_, _, x, _, _, _, _, _) => plus(1, expr(s, x.get(), counts)),
        Expr::If(_, c, _, x, _, y, _) => {
            let a = expr(s, c.get(), counts);
            let b = two(expr(s, x.get(), counts), expr(s, y.get(), counts));
            plus(a, b)
        }
        Expr::Neg(_, x) => plus(1, expr(s, x.get(), counts)),
        Expr::Inv(_, x) => plus(1, expr(s, x.get(), counts)),
        Expr::Not(_, x) => plus(1, expr(s, x.get(), counts)),
        Expr::OrElse(x, _, y) => two(expr(s, x.get(), counts), expr(s, y.get(), counts)),
        Expr::AndAlso(x, _, y) => two(expr(s, x.get(), counts), expr(s, y.get(), counts)),
        Expr::Or(x, _, y) => two(expr(s, x.get(), counts), expr(s, y.get(), counts)),
        Expr::Xor(x, _, y) => two(expr(s, x.get(), counts), expr(s, y.get(), counts)),
        Expr::And(x, _, y) => two(expr(s, x.get(), counts), expr(s, y.get(), counts)),
        Expr::Eq(x, _, y) => two(expr(s, x.get(), counts), expr(s, y.get(), counts)),
        Expr::Ne(x, _, y) => two(expr(s, x.get(), counts), expr(s, y.get(), counts)),
        Expr::Lt(x, _, y) => two(expr(s, x.get(), counts), expr(s, y.get(), counts)),
        Expr::Le(x, _, y) => two(expr(s, x.get(), counts), expr(s, y.get(), counts)),
        Expr::Gt(x, _, y) => two(expr(s, x.get(), counts), expr(s, y.get(), counts)),
        Expr::Ge(x, _, y) => two(expr(s, x.get(), counts), expr(s, y.get(), counts)),
        Expr::Shl(x, _, y) => two(expr(s, x.get(), counts), expr(s, y.get(), counts)),
        Expr::Shr(x, _, y) => two(expr(s, x.get(), counts), expr(s, y.get(), counts)),
        Expr::Add(x, _, y) => two(expr(s, x.get(), counts), expr(s, y.get(), counts)),
        Expr::Sub(x, _, y) => two(expr(s, x.get(), counts), expr(s, y.get(), counts)),
        Expr::Mul(x, _, y) => two(expr(s, x.get(), counts), expr(s, y.get(), counts)),
    }
}

/// The place that is assigned.
fn target(s: &Scope<'_>, p: &Place, counts: &mut Vec<u32>) -> u32
    ensures own { result ≡ spec.own_place (finds s.now.names.now s.now.places.now.entries) p.now.name (blocks.index p.now.index) }
    ensures counts { counts.new.items ≡ spec.place_mentioned (finds s.now.names.now s.now.places.now.entries) p.now.name (blocks.index p.now.index) counts.old.items }
{
    match &p.index {
        None => name(s, &p.name, counts),
        Some((_, i, _)) => indexed(s, &p.name, i, counts),
    }
}

/// How often the parameter's action stands.
fn part(s: &Scope<'_>, n: &Name, actions: &mut Vec<u32>)
    ensures { actions.new.items ≡ spec.act_found (finds s.now.names.now s.now.places.now.entries n.now.text) actions.old.items }
{
    match s.find(&n.text) {
        Found::Parameter(place) => bump(actions, place),
        Found::Wide => {}
        Found::Leaf => {}
    }
}

/// What is added up of statements.
#[cycle(statements)]
#[tactic(auto, using(nml_tree::proofs::BlockLaws::block_laws))]
fn statements(
    s: &Scope<'_>,
    stmts: &[Stmt],
    total: u32,
    counts: &mut Vec<u32>,
    actions: &mut Vec<u32>,
) -> u32
    ensures own { result ≡ spec.with_block (finds s.now.names.now s.now.places.now.entries) (block stmts.now) total }
    ensures counts { counts.new.items ≡ spec.block_mentioned (finds s.now.names.now s.now.places.now.entries) (block stmts.now) counts.old.items }
    ensures actions { actions.new.items ≡ spec.acted (finds s.now.names.now s.now.places.now.entries) (block stmts.now) actions.old.items }
{
    let mut total = total;
    for one in stmts {
        total = statement(s, one, total, counts, actions);
    }
    total
}

/// The total with the statement, which counts each parameter that it names and each whose action stands there. It calls itself as
/// deep as statements stand in statements.
#[cycle(statements)]
#[tactic(auto, using(nml_tree::proofs::BlockLaws::block_laws))]
fn statement(
    s: &Scope<'_>,
    one: &Stmt,
    total: u32,
    counts: &mut Vec<u32>,
    actions: &mut Vec<u32>,
) -> u32
    ensures own { (rest : Block) → spec.with_block (finds s.now.names.now s.now.places.now.entries) (stmt one.now rest) total ≡ spec.with_block (finds s.now.names.now s.now.places.now.entries) rest result }
    ensures counts { (rest : Block) → spec.block_mentioned (finds s.now.names.now s.now.places.now.entries) (stmt one.now rest) counts.old.items ≡ spec.block_mentioned (finds s.now.names.now s.now.places.now.entries) rest counts.new.items }
    ensures actions { (rest : Block) → spec.acted (finds s.now.names.now s.now.places.now.entries) (stmt one.now rest) actions.old.items ≡ spec.acted (finds s.now.names.now s.now.places.now.entries) rest actions.new.items }
{
    match one {
        Stmt::Assign(place, _, e, _) => {
            let a = target(s, place, counts);
            let b = expr(s, e, counts);
            plus(total, two(a, b))
        }
        Stmt::Part(n, _, _, _) => {
            part(s, n, actions);
            total
        }
        Stmt::Halt(_, _, e, _, _) => plus(total, plus(1, expr(s, e, counts))),
        Stmt::If(_, c, _, xs, other, _, _) => {
            let head = plus(total, plus(1, expr(s, c, counts)));
            let total = statements(s, xs.as_slice(), head, counts, actions);
            match other {
                None => total,
                Some((_, ys)) => statements(s, ys.as_slice(), total, counts, actions),
            }
        }
    }
}

/// The size of an action's own text, which counts each parameter that it names and each whose action stands there.
pub fn action_size(
    s: &Scope<'_>,
    action: &Option<Action>,
    counts: &mut Vec<u32>,
    actions: &mut Vec<u32>,
) -> u32
    ensures own { result ≡ spec.with_block (finds s.now.names.now s.now.places.now.entries) (action_block action.now) 0 }
    ensures counts { counts.new.items ≡ spec.block_mentioned (finds s.now.names.now s.now.places.now.entries) (action_block action.now) counts.old.items }
    ensures actions { actions.new.items ≡ spec.acted (finds s.now.names.now s.now.places.now.entries) (action_block action.now) actions.old.items }
{
    match action {
        None => 0,
        Some(a) => statements(s, a.stmts.as_slice(), 0, counts, actions),
    }
}
