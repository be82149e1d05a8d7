//! Laws of routes.

ghost use Rattle.std.specs.Prelude.{ℕ, ◌≡◌, ◌<◌, true, false, eqb, length, List, Option, IsTrue, not, ◌∷◌, suc};
ghost use Rattle.std.specs.List.{AllByRecursion};
ghost use Rattle.isg_places.specs.declared.place.Place.{Place};
ghost use Rattle.pat_core.specs.Isa.{Isa};
ghost use Rattle.pat_core.specs.Route.{Route, goes, is_route, is_step};
ghost use Rattle.route_laws.specs.Search.{HasNoRest, SeesSame, is_seen, rename, walks};

/// Two lists with the same storages let the same routes go on.
pub fn seen_by_membership()
    ensures { (isa : Isa) (bits : ℕ) (avoid : Option Place) (a b : List ℕ) → SeesSame a b → (from : Place) (r : Route) (to : Place) → goes isa bits avoid a from r to ≡ goes isa bits avoid b from r to }
{}

/// Where no step leads on to a rest of n steps, there is no rest of n + 1 steps.
pub fn none_is_longer()
    ensures { (isa : Isa) (bits : ℕ) (avoid : Option Place) (seen : List ℕ) (from : Place) (n : ℕ) (to : Place)
        → ((k : ℕ) (place : Place) → IsTrue (is_step isa bits avoid from (k, place)) → IsTrue (not (is_seen place.storage seen)) → HasNoRest isa bits avoid (place.storage ∷ seen) place n to)
        → HasNoRest isa bits avoid seen from (suc n) to }
{}

/// Each route is a walk.
pub fn routes_are_walks()
    ensures { (isa : Isa) (bits : ℕ) (avoid : Option Place) (seen : List ℕ) (from : Place) (r : Route) (to : Place) → IsTrue (goes isa bits avoid seen from r to) → IsTrue (walks isa bits avoid from r to) }
{}

/// A route whose places are of storages below a bound has fewer steps.
pub fn routes_are_short()
    ensures { (isa : Isa) (bits : ℕ) (avoid : Option Place) (m : ℕ) (from : Place) (r : Route) (to : Place)
        → from.storage < m → AllByRecursion (λ (k, place). place.storage < m) r → IsTrue (is_route isa bits avoid from r to) → length r < m }
{}

/// Where the cells that aren't in a list are renamed to one that isn't either, a cell is one of the list after it exactly where it was before.
pub fn named_cells_stay()
    ensures { (ns : List ℕ) (r c d : ℕ) → is_seen d ns ≡ true → is_seen r ns ≡ false → eqb (rename ns r c) d ≡ eqb c d }
{}
