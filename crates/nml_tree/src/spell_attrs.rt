//! The texts of attributes.

ghost use Rattle.std.specs.Prelude.{◌≡◌, ◌++◌, OnOk, ℕ, flat_map};
ghost use Rattle.nml_tree.specs.SpellItems.{attribute_spelling, dotted_spelling, arg_spelling, template_spelling, action_spelling, attrs_spelling};
ghost use Rattle.nml_tree.specs.Ended.{ended};

use crate::attributes::{Action, Arg, Attribute, Attrs, Template};
use crate::spell_leaf::{push_name, push_string, push_word};
use crate::spell_stmt::push_stmts;
use nk_base::{Memory, Text};

/// Appends the word of the attribute.
fn push_attribute(text: &mut Text, attribute: Attribute) -> Result<(), Memory>
    ensures { OnOk result (text.new ≡ text.old ++ ended (attribute_spelling attribute)) }
{
    match attribute {
        Attribute::Syntax(_) => push_word(text, b"syntax"),
        Attribute::Image(_) => push_word(text, b"image"),
    }
}

/// Appends the dot and the attribute, where there are.
#[tactic(auto, using(crate::proofs::EndedLaws::ended_laws))]
fn push_dotted(text: &mut Text, dotted: Option<(u32, Attribute)>) -> Result<(), Memory>
    ensures { OnOk result (text.new ≡ text.old ++ ended (dotted_spelling dotted)) }
{
    match dotted {
        None => Ok(()),
        Some((_, attribute)) => {
            push_word(text, b".")?;
            push_attribute(text, attribute)
        }
    }
}

/// Appends the comma and the argument.
#[tactic(auto, using(crate::proofs::EndedLaws::ended_laws))]
fn push_arg(text: &mut Text, arg: &Arg) -> Result<(), Memory>
    ensures { OnOk result ((comma : ℕ) → text.new ≡ text.old ++ ended (arg_spelling (comma, arg.now))) }
{
    push_word(text, b",")?;
    push_name(text, &arg.name)?;
    push_dotted(text, arg.attribute)
}

/// Appends the arguments, each with the comma before it.
#[tactic(auto, using(crate::proofs::EndedLaws::ended_laws))]
fn push_args(text: &mut Text, args: &[(u32, Arg)]) -> Result<(), Memory>
    ensures { OnOk result (text.new ≡ text.old ++ ended (flat_map arg_spelling args.now)) }
{
    for (_, arg) in args {
        push_arg(text, arg)?;
    }
    Ok(())
}

/// Appends the text of an attribute.
#[tactic(auto, using(crate::proofs::EndedLaws::ended_laws))]
fn push_template(text: &mut Text, template: &Template) -> Result<(), Memory>
    ensures { OnOk result (text.new ≡ text.old ++ ended (template_spelling template.now)) }
{
    match template {
        Template::Plain(string) => push_string(text, string),
        Template::Part(name, _, attribute) => {
            push_name(text, name)?;
            push_dotted(text, Some((0, *attribute)))
        }
        Template::Format(_, _, string, args, _) => {
            push_word(text, b"format (")?;
            push_string(text, string)?;
            push_args(text, args.as_slice())?;
            push_word(text, b")")
        }
    }
}

/// Appends the action, where there is one.
#[tactic(auto, using(crate::proofs::EndedLaws::ended_laws))]
fn push_action(text: &mut Text, action: &Option<Action>) -> Result<(), Memory>
    ensures { OnOk result (text.new ≡ text.old ++ ended (action_spelling action.now)) }
{
    match action {
        None => Ok(()),
        Some(found) => {
            push_word(text, b"action = {")?;
            push_stmts(text, found.stmts.as_slice())?;
            push_word(text, b"}")
        }
    }
}

/// Appends the attributes.
#[tactic(auto, using(crate::proofs::EndedLaws::ended_laws))]
pub fn push_attrs(text: &mut Text, attrs: &Attrs) -> Result<(), Memory>
    ensures { OnOk result (text.new ≡ text.old ++ ended (attrs_spelling attrs.now)) }
{
    push_word(text, b"syntax =")?;
    push_template(text, &attrs.syntax_text)?;
    push_word(text, b"image =")?;
    push_template(text, &attrs.image_text)?;
    push_action(text, &attrs.action)
}
