//! The attributes of a rule, from symbols.
ghost use Rattle.std.specs.Prelude.{◌≡◌, ◌<◌, ◌≤◌, length, map, IfOk, codes};
ghost use Rattle.std.specs.Option.{option_map};
ghost use Rattle.readings.specs.Reading.{Found, looked_up};
ghost use Rattle.readings.specs.Readings.{◌>>>◌, sign, further, optional};
ghost use Rattle.nml_grammar.specs.ReadingItems.{attribute_words};
ghost use Rattle.readings.specs.Seen.{seen, Says};
ghost use Rattle.nml_grammar.specs.ReadingItems as items;

use nk_base::Text;
use nml_statement::{name, statements, string};
use nml_tree::{Action, Arg, Attribute, Attrs, Name, Quoted, Stmt, Template};
use readings::{Sign, Stop, behind, mark};
use sqlite_items::Items;
use std::alloc::Global;

/// How deep the statements of an action may be, as an item of 200 nodes on a path has them two nodes below it.
const STATEMENT_DEPTH: usize = 198;

/// The attributes of a rule.
pub fn attrs<'t, 'a>(alloc: Global, signs: &'t [Sign<'a>]) -> Result<(Attrs, &'t [Sign<'a>]), Stop>
    ensures says { Says (λ x. Found x.0 (map seen x.1.now)) result items.attrs (map seen signs.now) }
    ensures shorter { IfOk result (λ x. length x.1.now < length signs.now) }
{
    let (syntax, rest) = mark(b"syntax", signs)?;
    let (syntax_equals, rest) = mark(b"=", rest)?;
    let (syntax_text, rest) = template(alloc, rest)?;
    let (image, rest) = mark(b"image", rest)?;
    let (image_equals, rest) = mark(b"=", rest)?;
    let (image_text, rest) = template(alloc, rest)?;
    let (action, rest) = action(alloc, rest)?;
    let attrs = Attrs {
        syntax,
        syntax_equals,
        syntax_text,
        image,
        image_equals,
        image_text,
        action,
    };
    Ok((attrs, rest))
}

/// The text of `syntax` or `image`.
fn template<'t, 'a>(
    alloc: Global,
    signs: &'t [Sign<'a>],
) -> Result<(Template, &'t [Sign<'a>]), Stop>
    ensures says { Says (λ x. Found x.0 (map seen x.1.now)) result items.template (map seen signs.now) }
    ensures shorter { IfOk result (λ x. length x.1.now < length signs.now) }
{
    let Some((first, rest)) = signs.split_first() else {
        return Err(Stop::Stuck(signs.len()));
    };
    match *first {
        Sign::Fixed(at, text) => {
            if text == b"format".as_slice() {
                format(alloc, at, rest)
            } else {
                Err(Stop::Stuck(signs.len()))
            }
        }
        Sign::Named(at, text) => {
            let text = Text::from_bytes(alloc, text)?;
            part(Name { at, text }, rest)
        }
        Sign::Number(_, _) => Err(Stop::Stuck(signs.len())),
        Sign::Quoted(at, text) => {
            let text = Text::from_bytes(alloc, text)?;
            Ok((Template::Plain(Quoted { at, text }), rest))
        }
    }
}

/// `( STRING , arg , arg )`, behind `format` at this place.
fn format<'t, 'a>(
    alloc: Global,
    at: u32,
    signs: &'t [Sign<'a>],
) -> Result<(Template, &'t [Sign<'a>]), Stop>
    ensures says { Says (λ x. Found x.0 (map seen x.1.now)) result (items.format at) (map seen signs.now) }
    ensures shorter { IfOk result (λ x. length x.1.now < length signs.now) }
{
    let (opening, rest) = mark(b"(", signs)?;
    let (text, rest) = string(alloc, rest)?;
    let (arguments, rest) = arguments(alloc, rest)?;
    let (closing, rest) = mark(b")", rest)?;
    Ok((
        Template::Format(at, opening, text, arguments, closing),
        rest,
    ))
}

/// Arguments, each behind a comma.
fn arguments<'t, 'a>(
    alloc: Global,
    signs: &'t [Sign<'a>],
) -> Result<(Items<(u32, Arg)>, &'t [Sign<'a>]), Stop>
    ensures says { Says (λ x. Found x.0 (map seen x.1.now)) result (further (codes ",") items.argument) (map seen signs.now) }
    ensures shorter { IfOk result (λ x. length x.1.now ≤ length signs.now) }
{
    let mut found = Items::new(alloc);
    // all of them, by a call, since each turn replaces them by what a call gives
    let (_, mut rest) = signs.split_at(0);
    while let Some((comma, after)) = behind(b",", rest) {
        let (argument, after) = argument(alloc, after)?;
        found.push((comma, argument))?;
        rest = after;
    }
    Ok((found, rest))
}

/// An argument.
fn argument<'t, 'a>(alloc: Global, signs: &'t [Sign<'a>]) -> Result<(Arg, &'t [Sign<'a>]), Stop>
    ensures says { Says (λ x. Found x.0 (map seen x.1.now)) result items.argument (map seen signs.now) }
    ensures shorter { IfOk result (λ x. length x.1.now < length signs.now) }
{
    let (name, rest) = name(alloc, signs)?;
    let (attribute, rest) = dotted(rest)?;
    Ok((Arg { name, attribute }, rest))
}

/// `. attribute`, where a dot is in front.
fn dotted<'t, 'a>(signs: &'t [Sign<'a>]) -> Result<(Option<(u32, Attribute)>, &'t [Sign<'a>]), Stop>
    ensures says { Says (λ x. Found x.0 (map seen x.1.now)) result (optional (codes ".") items.attribute) (map seen signs.now) }
    ensures shorter { IfOk result (λ x. length x.1.now ≤ length signs.now) }
{
    match behind(b".", signs) {
        Some((dot, rest)) => {
            let (attribute, rest) = attribute(rest)?;
            Ok((Some((dot, attribute)), rest))
        }
        None => Ok((None, signs)),
    }
}

/// `. attribute`, behind this name.
fn part<'t, 'a>(name: Name, signs: &'t [Sign<'a>]) -> Result<(Template, &'t [Sign<'a>]), Stop>
    ensures says { Says (λ x. Found x.0 (map seen x.1.now)) result (items.part name) (map seen signs.now) }
    ensures shorter { IfOk result (λ x. length x.1.now < length signs.now) }
{
    let (dot, rest) = mark(b".", signs)?;
    let (attribute, rest) = attribute(rest)?;
    Ok((Template::Part(name, dot, attribute), rest))
}

/// `syntax` or `image`.
fn attribute<'t, 'a>(signs: &'t [Sign<'a>]) -> Result<(Attribute, &'t [Sign<'a>]), Stop>
    ensures says { Says (λ x. Found x.0 (map seen x.1.now)) result items.attribute (map seen signs.now) }
    ensures shorter { IfOk result (λ x. length x.1.now < length signs.now) }
{
    let Some((first, rest)) = signs.split_first() else {
        return Err(Stop::Stuck(signs.len()));
    };
    match *first {
        Sign::Fixed(at, text) => match attribute_at(at, text) {
            Some(attribute) => Ok((attribute, rest)),
            None => Err(Stop::Stuck(signs.len())),
        },
        Sign::Named(_, _) => Err(Stop::Stuck(signs.len())),
        Sign::Number(_, _) => Err(Stop::Stuck(signs.len())),
        Sign::Quoted(_, _) => Err(Stop::Stuck(signs.len())),
    }
}

/// The attribute that this keyword names, at this place.
fn attribute_at(at: u32, text: &[u8]) -> Option<Attribute>
    ensures { result ≡ option_map (λ make. make at) (looked_up attribute_words text.now) }
{
    if text == b"syntax".as_slice() {
        Some(Attribute::Syntax(at))
    } else if text == b"image".as_slice() {
        Some(Attribute::Image(at))
    } else {
        None
    }
}

/// The action, where one is in front.
fn action<'t, 'a>(
    alloc: Global,
    signs: &'t [Sign<'a>],
) -> Result<(Option<Action>, &'t [Sign<'a>]), Stop>
    ensures says { Says (λ x. Found x.0 (map seen x.1.now)) result items.action (map seen signs.now) }
    ensures shorter { IfOk result (λ x. length x.1.now ≤ length signs.now) }
{
    match behind(b"action", signs) {
        Some((action, rest)) => {
            let (equals, opening, stmts, closing, rest) = body(alloc, rest)?;
            let action = Action {
                action,
                equals,
                opening,
                stmts,
                closing,
            };
            Ok((Some(action), rest))
        }
        None => Ok((None, signs)),
    }
}

/// `= { stmts }`, behind `action`.
fn body<'t, 'a>(
    alloc: Global,
    signs: &'t [Sign<'a>],
) -> Result<(u32, u32, Items<Stmt>, u32, &'t [Sign<'a>]), Stop>
    ensures says { Says (λ x. Found (x.0, (x.1, (x.2, x.3))) (map seen x.4.now)) result
        (sign (codes "=") >>> (sign (codes "{") >>> (items.stmts >>> sign (codes "}")))) (map seen signs.now) }
    ensures shorter { IfOk result (λ x. length x.4.now < length signs.now) }
{
    let (equals, rest) = mark(b"=", signs)?;
    let (opening, rest) = mark(b"{", rest)?;
    let (stmts, rest) = stmts(alloc, rest)?;
    let (closing, rest) = mark(b"}", rest)?;
    Ok((equals, opening, stmts, closing, rest))
}

/// The statements of an action.
fn stmts<'t, 'a>(
    alloc: Global,
    signs: &'t [Sign<'a>],
) -> Result<(Items<Stmt>, &'t [Sign<'a>]), Stop>
    ensures says { Says (λ x. Found x.0 (map seen x.1.now)) result items.stmts (map seen signs.now) }
    ensures shorter { IfOk result (λ x. length x.1.now ≤ length signs.now) }
{
    statements(alloc, STATEMENT_DEPTH, signs)
}
