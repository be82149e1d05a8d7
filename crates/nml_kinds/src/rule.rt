//! The faults in and-rules.

ghost use Rattle.std.specs.Prelude.{◌≡◌, ◌++◌, MatchOption, Some, None, IfOk};
ghost use Rattle.nml_names.specs.Note.{noted};
ghost use Rattle.nml_texts.specs.Around as texts_around;
ghost use Rattle.nml_texts.specs.Given.{which};
ghost use Rattle.nml_tree.specs.Block.{action_block};
ghost use Rattle.nml_tree.specs.Directives as directives;
ghost use Rattle.nml_tree.specs.Formula as formulas;
ghost use Rattle.nml_tree.specs.Formula.{formula};
ghost use Rattle.nml_tree.specs.Table.{rule_of, table};
ghost use Rattle.nml_tree.specs.TypeFault as kinds;
ghost use Rattle.nml_tree.specs.WidthFault as widths;
ghost use Rattle.nml_worth.specs.Around.{AreWorths, around};
ghost use Rattle.nml_kinds.specs.Reads.{IsRead};
ghost use Rattle.nml_kinds.specs.Statements as spec;

use crate::declared::unless;
use crate::faults::Faults;
use crate::statement::{action, name_width};
use crate::test::is_named_rightly;
use crate::ty::parameters;
use nk_base::Memory;
use nml_known::Names;
use nml_texts::{Parameters, Which, Widths, is_right};
use nml_tree::{Attrs, Expr, ModeRule, Name, OpRule, Template};
use nml_worth::{Scope, Worth, expr};
use std::alloc::Global;

/// The name that the expression is, where it is a bare one.
#[tactic(auto, using(nml_tree::proofs::FormulaLaws::formula_laws))]
fn bare_name(e: &Expr) -> Option<&Name>
    ensures { MatchOption result (IsRead (formula e.now)) (λ n. formula e.now ≡ formulas.Named n.now) }
{
    match e {
        Expr::Name(n, index) => match index {
            None => Some(n),
            Some(_) => None,
        },
        Expr::Number(_)
        | Expr::True(_)
        | Expr::False(_)
        | Expr::Paren(_, _, _)
        | Expr::Int(_, _, _, _, _, _)
        | Expr::Card(_, _, _, _, _, _)
        | Expr::Sat(_, _, _, _, _, _)
        | Expr::Bits(_, _, _, _, _, _, _, _)
        | Expr::If(_, _, _, _, _, _, _)
        | Expr::Neg(_, _)
        | Expr::Inv(_, _)
        | Expr::Not(_, _)
        | Expr::OrElse(_, _, _)
        | Expr::AndAlso(_, _, _)
        | Expr::Or(_, _, _)
        | Expr::Xor(_, _, _)
        | Expr::And(_, _, _)
        | Expr::Eq(_, _, _)
        | Expr::Ne(_, _, _)
        | Expr::Lt(_, _, _)
        | Expr::Le(_, _, _)
        | Expr::Gt(_, _, _)
        | Expr::Ge(_, _, _)
        | Expr::Shl(_, _, _)
        | Expr::Shr(_, _, _)
        | Expr::Add(_, _, _)
        | Expr::Sub(_, _, _)
        | Expr::Mul(_, _, _) => None,
    }
}

/// Notes the least faults of a mode's value.
fn value(s: &Scope<'_>, e: &Expr, found: Faults) -> Faults
    ensures kind { result.kind ≡ noted found.kind (spec.value_kinds (around s.now) (Some (formula e.now))) }
    ensures width { result.width ≡ noted found.width (spec.value_widths (around s.now) (Some (formula e.now))) }
{
    match bare_name(e) {
        None => {
            let seen = expr(s, e, found.kind, found.width);
            Faults {
                kind: seen.kinds,
                width: seen.widths,
            }
        }
        Some(n) => Faults {
            kind: unless(found.kind, is_named_rightly(s, false, n), n.at),
            width: name_width(s, n, found.width),
        },
    }
}

/// Where a wrong text is named.
fn text_place(text: &Template) -> u32
    ensures { result ≡ directives.text_place text.now }
{
    match text {
        Template::Plain(q) => q.at,
        Template::Part(n, _, _) => n.at,
        Template::Format(_, _, q, _, _) => q.at,
    }
}

/// Notes the text where it isn't right.
fn text(w: Which, pars: &Parameters<'_>, text: &Template, found: Option<u32>) -> Option<u32>
    ensures { result ≡ noted found (spec.text_kinds (directives.is_right (which w) (texts_around.around pars.now) text.now) text.now) }
{
    unless(found, is_right(w, pars, text), text_place(text))
}

/// Notes the least faults of the attributes.
#[tactic(auto, using(nml_names::proofs::Notes::noted_append))]
fn attributes(s: &Scope<'_>, pars: &Parameters<'_>, a: &Attrs, found: Faults) -> Faults
    requires { pars.now ≡ s.now }
    ensures kind { result.kind ≡ noted found.kind (spec.attribute_kinds (around s.now) a.now) }
    ensures width { result.width ≡ noted found.width (spec.block_widths (around s.now) (action_block a.now.action)) }
{
    let kind = text(Which::Syntax, pars, &a.syntax_text, found.kind);
    let kind = text(Which::Image, pars, &a.image_text, kind);
    action(
        s,
        &a.action,
        Faults {
            kind,
            width: found.width,
        },
    )
}

/// What a rule's faults are told by.
#[derive(Clone, Copy)]
pub struct Given<'a> {
    pub names: &'a Names<'a>,
    pub widths: &'a Widths<'a>,
    pub worths: &'a [Worth],
}

/// Notes the least faults of an and-rule without a value.
pub fn op_rule(alloc: Global, g: &Given<'_>, r: &OpRule, found: Faults) -> Result<Faults, Memory>
    requires worths { AreWorths g.now.names.now g.now.worths.now }
    requires widths { g.now.widths.now ≡ g.now.names.now }
    ensures kind { IfOk result (λ f. f.kind ≡ noted found.kind (kinds.rule_places (table g.now.names.now) (rule_of r.now.pars None r.now.attrs))) }
    ensures width { IfOk result (λ f. f.width ≡ noted found.width (widths.rule_widths (table g.now.names.now) (rule_of r.now.pars None r.now.attrs))) }
{
    let scope = Scope::new(alloc, g.names, &r.pars, g.worths)?;
    let pars = Parameters::new(alloc, g.widths, &r.pars)?;
    let found = Faults {
        kind: parameters(g.names, &r.pars, found.kind),
        width: found.width,
    };
    Ok(attributes(&scope, &pars, &r.attrs, found))
}

/// Notes the least faults of an and-rule with a value.
pub fn mode_rule(
    alloc: Global,
    g: &Given<'_>,
    r: &ModeRule,
    found: Faults,
) -> Result<Faults, Memory>
    requires worths { AreWorths g.now.names.now g.now.worths.now }
    requires widths { g.now.widths.now ≡ g.now.names.now }
    ensures kind { IfOk result (λ f. f.kind ≡ noted found.kind (kinds.rule_places (table g.now.names.now) (rule_of r.now.pars (Some (formula r.now.value)) r.now.attrs))) }
    ensures width { IfOk result (λ f. f.width ≡ noted found.width (widths.rule_widths (table g.now.names.now) (rule_of r.now.pars (Some (formula r.now.value)) r.now.attrs))) }
{
    let scope = Scope::new(alloc, g.names, &r.pars, g.worths)?;
    let pars = Parameters::new(alloc, g.widths, &r.pars)?;
    let found = Faults {
        kind: parameters(g.names, &r.pars, found.kind),
        width: found.width,
    };
    let found = value(&scope, &r.value, found);
    Ok(attributes(&scope, &pars, &r.attrs, found))
}
