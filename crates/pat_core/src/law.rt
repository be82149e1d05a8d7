//! What ties a pattern's tree to an expression of an action.

ghost use Rattle.std.specs.Prelude.{ℕ, ◌≡◌, ◌≤◌, ◌↔◌, List, Some, Contains};
ghost use Rattle.nk_base.specs.declared.number.Ty.{Ty};
ghost use Rattle.nml_tree.specs.Act.{Term};
ghost use Rattle.nml_tree.specs.Shapes.{AreShapes};
ghost use Rattle.nml_tree.specs.Table.{Table};
ghost use Rattle.nml_tree.specs.declared.tree.Desc.{Desc};
ghost use Rattle.pat_core.specs.Machine.{Machine};
ghost use Rattle.pat_core.specs.Spot.{Spot};
ghost use Rattle.pat_core.specs.Tile.{Tile, swaps};
ghost use Rattle.pat_core.specs.Alike.{AreAlike};
ghost use Rattle.pat_core.specs.Closure.{Closure, IsClosure, is_closed_number};
ghost use Rattle.pat_core.specs.Isa.{Isa};
ghost use Rattle.pat_core.specs.Whole.{IsIsa};
ghost use Rattle.pat_core.specs.Shape.{Shape};
ghost use Rattle.pat_core.specs.Slots.{AreShapesOf};
ghost use Rattle.pat_core.specs.Low.{Low, Exact};
ghost use Rattle.pat_core.specs.Find.{low, exact};
ghost use Rattle.pat_core.specs.Swapped.{Found, IsSwap};
ghost use Rattle.pat_core.specs.Worth.{LowLaw, ExactLaw};

/// Where a tree is Low of an expression, the two are worth the same modulo 2^N in every state in which loads reach their cells.
pub fn low_is_congruent()
    ensures { (m : Machine) (f : List Ty) → 1 ≤ m.width → LowLaw m f }
{}

/// Where a tree is Exact of an expression, the two are worth the same in every state in which loads reach their cells.
pub fn exact_is_equal()
    ensures { (m : Machine) (f : List Ty) → 1 ≤ m.width → ExactLaw m f }
{}

/// The tree that is found is Low of the expression, and each tree that is Low of it is, up to swapped operands, the one found.
pub fn found_low()
    ensures is { (m : Machine) (f : List Ty) (e : Term) (t : Tile Spot) → low m f e ≡ Some t → Low m f e t }
    ensures only { (m : Machine) (f : List Ty) → 1 ≤ m.width → (e : Term) (t : Tile Spot) → Low m f e t → Found (low m f e) t }
{}

/// The tree that is found exactly is Exact of the expression, and each tree that is Exact of it is, up to swapped operands, the
/// one found.
pub fn found_exact()
    ensures is { (m : Machine) (f : List Ty) (e : Term) (t : Tile Spot) → exact m f e ≡ Some t → Exact m f e t }
    ensures only { (m : Machine) (f : List Ty) → 1 ≤ m.width → (e : Term) (t : Tile Spot) → Exact m f e t → Found (exact m f e) t }
{}

/// The trees with operands swapped are those in the list of swaps, by which the forms of a pattern are listed.
pub fn swaps_are_listed()
    ensures { (s t : Tile Spot) → Contains (swaps s) t ↔ IsSwap s t }
{}

/// The shapes of a description, as patterns see them, are one list at most.
pub fn shapes_are_one()
    ensures { (t : Table) (lists : List (List ℕ)) → AreShapes t lists → (rs ss : List Shape) → AreShapesOf t lists rs → AreShapesOf t lists ss → rs ≡ ss }
{}

/// The machine, the shapes and the patterns of a description are one at most.
pub fn patterns_are_one()
    ensures { (d : Desc) (a b : Isa) → IsIsa d a → IsIsa d b → a ≡ b }
{}

/// All closures of a machine have one reach, and of each operation a Cert or none, of as many words and by the same pattern.
///
/// So they agree in which operations are closed.
pub fn closures_agree()
    ensures reach { (isa : Isa) (c d : Closure) → IsClosure isa c → IsClosure isa d → c.bits ≡ d.bits }
    ensures certs { (isa : Isa) (c d : Closure) → IsClosure isa c → IsClosure isa d → AreAlike c.certs d.certs }
    ensures closed { (isa : Isa) (c d : Closure) → IsClosure isa c → IsClosure isa d → (k : ℕ) → is_closed_number c k ≡ is_closed_number d k }
{}
