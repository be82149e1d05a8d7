//! What a program computes with: the memory, the input and the output.

ghost use Rattle.std.specs.Prelude.{◌≡◌, ◌≤◌, IfOk, MatchOption, None, Option, IfSome, Some, option_map};
ghost use Rattle.nk_base.specs.declared.number.Ty.{Ty};
ghost use Rattle.nml_known.specs.Known.{known, told};
ghost use Rattle.nml_target.specs.Target as spec;
ghost use Rattle.nml_tree.specs.Table.{Declared, declared, table};

use nk_base::Ty;
use nml_known::{Known, Names};
use nml_names::declared_name;
use nml_tree::{Item, StorageWord};

/// What a description lacks for programs. The names are this project's own.
#[derive(Clone, Copy, Debug)]
pub enum Lacking {
    /// The memory `DM` of cells of 16 to 32 bits with a sign.
    Dm,
    /// The input `IN` of the type of these cells.
    In,
    /// The output `OUT` of this type.
    Out,
}

/// The first item that declares the name.
fn item_named<'a>(items: &'a [Item], name: &[u8]) -> Option<&'a Item>
    ensures { MatchOption result (spec.item_named items.now name.now ≡ None) (λ i. spec.item_named items.now name.now ≡ Some i.now) }
{
    for item in items {
        if name == declared_name(item).text.as_bytes() {
            return Some(item);
        }
    }
    None
}

/// What the name is declared as.
fn declared_as(names: &Names<'_>, name: &[u8]) -> Option<Known>
    ensures { result ≡ option_map known (declared (table names.now) name.now) }
{
    match item_named(names.items(), name) {
        None => None,
        Some(item) => names.declared(&declared_name(item).text),
    }
}

/// Whether the item is a memory.
fn is_mem(item: &Item) -> bool
    ensures { result ≡ spec.is_mem (Some item.now) }
{
    match item {
        Item::Storage(storage) => match storage.word {
            StorageWord::Mem(_) => true,
            StorageWord::Reg(_) => false,
        },
        _ => false,
    }
}

/// The type of the cells of a storage.
fn cell_type(k: Option<Known>) -> Option<Ty>
    ensures { (d : Option Declared) → k ≡ option_map known d → result ≡ option_map told (spec.cell_type d) }
{
    match k {
        Some(Known::Storage(_, ty)) => Some(ty),
        _ => None,
    }
}

/// The type of the input.
fn inp_type(k: Option<Known>) -> Option<Ty>
    ensures { (d : Option Declared) → k ≡ option_map known d → result ≡ option_map told (spec.inp_type d) }
{
    match k {
        Some(Known::Inp(ty)) => Some(ty),
        _ => None,
    }
}

/// The type of the output.
fn out_type(k: Option<Known>) -> Option<Ty>
    ensures { (d : Option Declared) → k ≡ option_map known d → result ≡ option_map told (spec.out_type d) }
{
    match k {
        Some(Known::Out(ty)) => Some(ty),
        _ => None,
    }
}

/// How many bits an `int` of 16 to 32 bits has.
fn int_width(ty: Option<Ty>) -> Option<u32>
    ensures is { (t : Option Ty) → ty ≡ option_map told t → result ≡ spec.int_width t }
    ensures low { IfSome result (λ n. 16 ≤ n) }
    ensures high { IfSome result (λ n. n ≤ 32) }
{
    match ty {
        Some(Ty::Int(n)) => if 16 <= n && n <= 32 { Some(n) } else { None },
        _ => None,
    }
}

/// Whether it is an `int` of so many bits.
fn is_int(n: u32, ty: Option<Ty>) -> bool
    requires { n ≤ 32 }
    ensures { (t : Option Ty) → ty ≡ option_map told t → result ≡ spec.is_int n t }
{
    match ty {
        Some(Ty::Int(m)) => m == n,
        _ => false,
    }
}

/// How many bits the cells of `mem DM` have, where they are of such a type.
fn memory_width(names: &Names<'_>) -> Option<u32>
    ensures is { result ≡ spec.memory_width names.now }
    ensures low { IfSome result (λ n. 16 ≤ n) }
    ensures high { IfSome result (λ n. n ≤ 32) }
{
    let name = b"DM".as_slice();
    match item_named(names.items(), name) {
        Some(item) => {
            if is_mem(item) {
                int_width(cell_type(declared_as(names, name)))
            } else {
                None
            }
        }
        None => None,
    }
}

/// How many bits the numbers have that programs compute with: those of the cells of `mem DM`, which are of a type `int` of 16 to 32 bits, and of
/// `inp IN` and `out OUT`, which are of the same type.
///
/// Else it is the first of the three that is absent, isn't of its kind, or has another type. It takes no memory. The rule is this project's own.
pub fn target(names: &Names<'_>) -> Result<u32, Lacking>
    ensures is { result ≡ spec.target names.now }
    ensures low { IfOk result (λ n. 16 ≤ n) }
    ensures high { IfOk result (λ n. n ≤ 32) }
{
    let Some(n) = memory_width(names) else {
        return Err(Lacking::Dm);
    };
    if !is_int(n, inp_type(declared_as(names, b"IN".as_slice()))) {
        return Err(Lacking::In);
    }
    if !is_int(n, out_type(declared_as(names, b"OUT".as_slice()))) {
        return Err(Lacking::Out);
    }
    Ok(n)
}
