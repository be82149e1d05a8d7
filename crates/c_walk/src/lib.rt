//! What a walk through a program knows of its names, part by part: definitions and laws.
#![tactic(auto)]

ghost use Rattle.std.specs.Prelude.{◌≡◌, ◌+◌};
ghost use Rattle.c_tree.specs.Statement.{Body};
ghost use Rattle.c_tree.specs.Program.{sizes};
ghost use Rattle.c_tree.specs.Names.{Names, body_shapes};
ghost use Rattle.c_walk.specs.Walk.{behind_body};

/// Behind what stands in a block as many cells more are taken as the variables have that are declared anywhere in it.
pub fn cells_are_taken()
    ensures { (s : Names) (b : Body) → (behind_body s b).next ≡ s.next + sizes (body_shapes b) }
{}
