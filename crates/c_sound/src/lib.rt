//! Accepted programs are sound.
#![tactic(auto)]

ghost use Rattle.std.specs.Prelude.{ℕ, ◌≤◌};
ghost use Rattle.c_tree.specs.declared.program.CTree.{CTree};
ghost use Rattle.c_tree.specs.Accepted.{IsAcceptedTree};
ghost use Rattle.c_tree.specs.Resolve.{resolved};
ghost use Rattle.c_lowered.specs.Sound.{Sound};

/// The resolved program of an accepted tree is sound.
pub fn accepted_programs_are_sound()
    ensures { (c : CTree) (n : ℕ) → IsAcceptedTree c n → 16 ≤ n → n ≤ 32 → Sound (resolved c) n }
{}
