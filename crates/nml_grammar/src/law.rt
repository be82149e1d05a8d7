ghost use Rattle.std.specs.Prelude.{◌≡◌, ◌⊎◌, ℕ, List, [], map, All};
ghost use Rattle.nml_tree.specs.declared.tree.Desc.{Desc};
ghost use Rattle.nml_tree.specs.Formula.{Formula};
ghost use Rattle.nml_tree.specs.Block.{Block};
ghost use Rattle.nml_tree.specs.Level.{IsLeveled, IsLeveledBlock, IsLeveledItem};
ghost use Rattle.nml_tree.specs.Spell.{formula_spelling, block_spelling};
ghost use Rattle.nml_tree.specs.SpellItems.{spelling};
ghost use Rattle.nml_grammar.specs.Unplaced.{unplaced_symbol, unplaced};
ghost use Rattle.nml_tree.specs.Floats.{float_places};
ghost use Rattle.nml_lex.specs.Lexed.{IsStuckAt};
ghost use Rattle.nml_grammar.specs.Trees.{IsTree, HasNoTree, IsFloat};

/// A law: no symbols spell two expressions.
pub fn one_expression()
    ensures { (x y : Formula) → IsLeveled x → IsLeveled y → formula_spelling x ≡ formula_spelling y → x ≡ y }
{}

/// A law: no symbols spell two lists of statements.
pub fn one_block()
    ensures { (x y : Block) → IsLeveledBlock x → IsLeveledBlock y → block_spelling x ≡ block_spelling y → x ≡ y }
{}

/// A law: no symbols spell two descriptions; and where the places are left aside, two descriptions with one spelling differ in places alone.
pub fn one_tree()
    ensures placed { (d e : Desc) → All IsLeveledItem d.items → All IsLeveledItem e.items → spelling d ≡ spelling e → d ≡ e }
    ensures aside { (d e : Desc) → All IsLeveledItem d.items → All IsLeveledItem e.items → map unplaced_symbol (spelling d) ≡ map unplaced_symbol (spelling e) → unplaced d ≡ unplaced e }
{}

/// A law: no bytes spell two descriptions; where they spell one, their tokens don't stop to begin one; and they stop at one place at most.
///
/// The language is this project's own.
pub fn one_reading()
    ensures one { (bytes : List ℕ) (d e : Desc) → IsTree bytes d → IsTree bytes e → d ≡ e }
    ensures never { (bytes : List ℕ) (d : Desc) (at : ℕ) → IsTree bytes d → HasNoTree bytes at → ⊥ }
    ensures place { (bytes : List ℕ) (at other : ℕ) → HasNoTree bytes at → HasNoTree bytes other → at ≡ other }
{}

/// A law: any bytes spell a description, or their tokens stop to begin one, or they are stuck; and a description has no type `float`, or a
/// first one. Which it is can be computed.
///
/// The language is this project's own.
pub fn some_reading()
    ensures tree { (bytes : List ℕ) → ((d : Desc) × IsTree bytes d) ⊎ (((at : ℕ) × HasNoTree bytes at) ⊎ ((at : ℕ) × IsStuckAt bytes at)) }
    ensures float { (bytes : List ℕ) (d : Desc) → IsTree bytes d → (float_places d ≡ []) ⊎ ((at : ℕ) × IsFloat bytes at) }
{}
