//! Descriptions read, spelled, and read again.

use crate::machines::{LARGE, TWO_SLOTS};
use nk_base::Text;
use nml_read::read;
use nml_tree::spell;
use std::alloc::Global;
use std::test::Fail;

/// Texts that are descriptions, each with its tokens one blank apart.
const SPELLED: [(&[u8], &[u8]); 9] = [
    (b"", b""),
    (
        b"reg PC[0x1, card(0b100)] // the counter",
        b"reg PC [ 1 , card ( 4 ) ]",
    ),
    (
        b"let k=-16 type t=k trn T[bool]",
        b"let k = - 16 type t = k trn T [ bool ]",
    ),
    (b"opn f = a|b mode m = c", b"op f = a | b mode m = c"),
    (
        b"mem M[n,fix(8,k)] inp I[int(8)] out O[t]",
        b"mem M [ n , fix ( 8 , k ) ] inp I [ int ( 8 ) ] out O [ t ]",
    ),
    (
        b"op f() syntax=\"f\" image=p.image",
        b"op f ( ) syntax = \"f\" image = p . image",
    ),
    (
        b"op f(p: r, n: int(8)) syntax=format(\"%s\", p.syntax, n) image=format(\"\") action={}",
        b"op f ( p : r , n : int ( 8 ) ) syntax = format ( \"%s\" , p . syntax , n ) image = format ( \"\" ) action = { }",
    ),
    (
        b"mode m() = a - b * (c) << bits(-x, 3, 0) syntax=\"\" image=\"\"",
        b"mode m ( ) = a - b * ( c ) << bits ( - x , 3 , 0 ) syntax = \"\" image = \"\"",
    ),
    (
        b"op f() syntax=\"\" image=\"\" action={p.action; if !true then halt(0); else R[1]=sat(8,x); endif;}",
        b"op f ( ) syntax = \"\" image = \"\" action = { p . action ; if ! true then halt ( 0 ) ; else R [ 1 ] = sat ( 8 , x ) ; endif ; }",
    ),
];

/// Each text has its spelling, and the spelling of a machine is read as what has that spelling.
#[test]
fn spellings_come_back(rt: HostRuntime) -> Result<(), Fail> {
    for (text, spelling) in SPELLED {
        assert_eq!(rt; spelling_of(rt.alloc(), text)?.as_bytes(), spelling);
    }
    for machine in [TWO_SLOTS, LARGE] {
        let spelling = spelling_of(rt.alloc(), machine)?;
        assert!(rt; spelling.as_bytes().len() > 500);
        let again = spelling_of(rt.alloc(), spelling.as_bytes())?;
        assert_eq!(rt; again.as_bytes(), spelling.as_bytes());
    }
    Ok(())
}

/// The spelling of the description that the bytes are.
fn spelling_of(alloc: Global, bytes: &[u8]) -> Result<Text, Fail> {
    if bytes.len() > 4_194_304 {
        return Err(Fail::new("more bytes than `read` takes"));
    }
    match read(alloc, bytes) {
        Ok(desc) => Ok(spell(alloc, &desc)?),
        Err(_) => Err(Fail::new("no description")),
    }
}
