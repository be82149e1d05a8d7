//! Laws of bounded runs and of their agreement.

ghost use Rattle.std.specs.Prelude.{◌≡◌, ◌<◌, ◌≤◌, ℕ, ℤ, List, Bool, true};
ghost use Rattle.nk_outside.specs.Outcome.{Outcome};
ghost use Rattle.nk_outside.specs.Agree.{Agree};
ghost use Rattle.ir_run.specs.Runs.{Turn, run, Grows, Follows};
ghost use Rattle.ir_run.specs.Simulation.{Matches};
ghost use Rattle.ir_run.specs.Entry.{Listing};
ghost use Rattle.ir_run.specs.Run.{outcome};

/// A run of more steps goes on from one of fewer.
pub fn longer_runs_go_on()
    ensures { (i : Listing) (n : ℕ) (input : List ℤ) → Grows (outcome i n input) }
{}

/// Bounded runs agree with themselves.
pub fn agreement_is_reflexive()
    ensures { (f : ℕ → Outcome) → Agree f f }
{}

/// Agreement goes both ways.
pub fn agreement_is_symmetric()
    ensures { (f g : ℕ → Outcome) → Agree f g → Agree g f }
{}

/// Agreement goes through several layers.
pub fn agreement_composes()
    ensures { (f g h : ℕ → Outcome) → Agree f g → Agree g h → Agree f h }
{}

/// Where each run of `f` is a run of `g` with the same outcome, whose steps grow with those of `f`, and longer runs of `g`
/// go on from shorter ones, the two agree.
pub fn agreement_from_one_half()
    ensures { (w c : ℕ) (f g : ℕ → Outcome) → 1 ≤ w → Grows g → Follows w c f g → Agree f g }
{}

/// Two machines agree where each step of the first is, from related states on, at least one step of the second with the
/// same outputs, or puts out nothing and is none; no `w` steps in a row are none, and both stop alike.
pub fn agreement_from_simulation<S, T>()
    ensures { (f : S → Turn S) (g : T → Turn T) (is_related : S → T → Bool) (left : S → ℕ) (w : ℕ) → 1 ≤ w → ((s : S) → left s < w) → ((s : S) (t : T) → is_related s t ≡ true → Matches f g (λ s t. is_related s t ≡ true) left w s t (f s)) → (s : S) (t : T) → is_related s t ≡ true → Agree (λ n. run f n s) (λ m. run g m t) }
{}
