//! The functions of a program, by what is declared of them and the nodes of their bodies.

ghost use Rattle.std.specs.Prelude.{◌≡◌, map, filter, slice_get, IfOk};
ghost use Rattle.std.specs.List.{zip};
ghost use Rattle.c_plan.specs.Paired.{paired, is_main, is_other};

use c_flat::Body;
use c_shapes::Declared;
use nk_base::Memory;
use std::alloc::Global;

/// A function of a program without its name: whether it gives a value, whether the last thing in its body is a `return`,
/// its parameters and then its locals by their lengths where they are arrays, and the number of its body's node.
///
/// The form is this project's own.
#[derive(Drop)]
pub struct Routine {
    pub gives: bool,
    pub returns: bool,
    pub variables: Vec<Option<u64>>,
    pub body: usize,
}

/// `main`, and the other functions in the text's order.
#[derive(Drop)]
pub(crate) struct Routines {
    pub main: Option<Routine>,
    pub others: Vec<Routine>,
}

/// The functions, by what is declared of each and its body, in the text's order; of several that are called `main` the
/// first is `main`.
pub(crate) fn routines_of(
    alloc: Global,
    declared: Vec<Declared>,
    bodies: Vec<Body>,
) -> Result<Routines, Memory>
    ensures main { IfOk result (λ rs. rs.main ≡ slice_get (map paired (filter is_main (zip declared.items bodies.items))) 0) }
    ensures others { IfOk result (λ rs. rs.others.items ≡ map paired (filter is_other (zip declared.items bodies.items))) }
{
    let mut main = None;
    let mut others = Vec::new(alloc);
    for (one, body) in declared.into_iter().zip(bodies) {
        let routine = Routine {
            gives: one.gives,
            returns: one.returns,
            variables: one.variables,
            body: body.node,
        };
        if !body.main {
            others.push(routine)?;
        } else if main.is_none() {
            main = Some(routine);
        }
    }
    Ok(Routines { main, others })
}
