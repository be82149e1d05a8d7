//! The least place so far.
ghost use Rattle.std.specs.Prelude.{◌≡◌};
ghost use Rattle.nml_tree.specs.Places as places;
ghost use Rattle.nml_names.specs.Note.{noted};

/// The earlier of two places, each of which there may be.
pub fn earlier(a: Option<u32>, b: Option<u32>) -> Option<u32>
    ensures { result ≡ places.earlier a b }
{
    match a {
        None => b,
        Some(x) => match b {
            None => Some(x),
            Some(y) => Some(if x < y { x } else { y }),
        },
    }
}

/// Notes the place where the test is true.
pub fn note(found: Option<u32>, bad: bool, at: u32) -> Option<u32>
    ensures { result ≡ noted found (places.when bad at) }
{
    if bad { earlier(found, Some(at)) } else { found }
}
