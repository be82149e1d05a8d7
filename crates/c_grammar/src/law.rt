ghost use Rattle.std.specs.Prelude.{◌≡◌, ◌⊎◌, ℕ, suc, ◌-◌, ◌≤◌, List, [], Option, All, map, codes};
ghost use Rattle.readings.specs.Readings.{Reading, ◌>>>◌, optional};
ghost use Rattle.readings.specs.Symbol.{Symbol};
ghost use Rattle.readings.specs.Reading.{Found, Stuck};
ghost use Rattle.c_tree.specs.SpellsTree.{SpellsTree};
ghost use Rattle.readings.specs.Lawful.{Eventually, IsLawful, IsReading, Any, Anywhere, optional_ends};
ghost use Rattle.c_tree.specs.declared.names.Name.{Name};
ghost use Rattle.c_tree.specs.Formula.{Formula};
ghost use Rattle.c_tree.specs.Statement.{Statement};
ghost use Rattle.c_tree.specs.Level.{IsLeveled, IsLeveledItem, unary_level, ends_open};
ghost use Rattle.c_tree.specs.Spell.{formula_spelling, act_spelling, statement_spelling};
ghost use Rattle.c_tree.specs.SpellGlobals.{gvar_spelling, item_spelling, spelling};
ghost use Rattle.c_grammar.specs.Reading.{climb, IsEnd, IsGood};
ghost use Rattle.c_grammar.specs.Declarations.{declaration_read};
ghost use Rattle.c_grammar.specs.Calls.{called, inside_call, IsCallOf};
ghost use Rattle.c_grammar.specs.Acts.{act_read, act_behind, IsGoodAct, IsActEnd};
ghost use Rattle.c_grammar.specs.ReadingStatements.{body_read, statement_read, block_body};
ghost use Rattle.c_grammar.specs.Programs.{item_read, program_read, IsGoodItem};
ghost use Rattle.c_tree.specs.Items.{Item, items};
ghost use Rattle.c_tree.specs.Inverse.{tree_of};
ghost use Rattle.c_tree.specs.declared.program.CTree.{CTree};
ghost use Rattle.readings.specs.Whole.{StopsIn};
ghost use Rattle.c_grammar.specs.Unplaced.{unplaced_symbol, unplaced};
ghost use Rattle.c_grammar.specs.Trees.{IsTree, HasNoTree, IsOutsideAt};
ghost use Rattle.c_lex.specs.Lexed.{IsStuckAt};
ghost use Rattle.c_grammar.specs.Globals.{global_variable, IsGlobalEnd};
ghost use Rattle.c_grammar.specs.Parameters.{parameters, parameters_spelling};
ghost use Rattle.c_grammar.specs.Until.{tailed_spelling, tailed_good};
ghost use Rattle.c_grammar.specs.Statements.{IsGoodStatement, IsStatementEnd, IsGoodBody, closed_spelling, IsDeclarationOf, inside_declaration};

/// A law: no symbols spell two expressions.
pub fn one_expression()
    ensures { (x y : Formula) → IsLeveled x → IsLeveled y → formula_spelling x ≡ formula_spelling y → x ≡ y }
{}

/// A law: the reading of expressions whose outermost level is k or a stronger one and which are no deeper than `room` finds what is spelled so
/// and nothing else, goes by no symbol behind the next, is stuck where the symbols stop to begin one, and is told by as many calls as there are
/// symbols and one more.
pub fn read_expression()
    ensures { (k room : ℕ) → k ≤ unary_level → 1 ≤ room → IsLawful formula_spelling (IsGood k room) (IsEnd k) (λ n ss. climb n k room ss) }
{}

/// A law: an `else` belongs to the nearest `if`. Where statements of some depth are read lawfully, a statement and an `else` with its statement are:
/// a statement that ends with an `if` without `else` has none behind it, and what is read has one wherever that is next.
pub fn read_else()
    ensures { (room : ℕ) (reads : Reading Statement) → IsReading statement_spelling (IsGoodStatement room) IsStatementEnd reads → IsReading (tailed_spelling (codes "else") statement_spelling statement_spelling) (tailed_good ends_open (IsGoodStatement room) (IsGoodStatement room)) (λ (p : Statement × Option (ℕ × Statement)) r. optional_ends (codes "else") IsStatementEnd p.1 r) (reads >>> optional (codes "else") reads) }
{}

/// A law: where statements no deeper than `room` are read lawfully, what stands between the braces of a block is, with the second one.
pub fn read_body()
    ensures { (room : ℕ) (statements : Reading Statement) → (1 ≤ room → IsReading statement_spelling (IsGoodStatement room) IsStatementEnd statements) → IsReading closed_spelling (IsGoodBody room) Anywhere (body_read room statements) }
{}

/// A law: what stands behind the word of a declaration of local variables, whose initial values are no deeper than `room`, is read lawfully.
pub fn read_declaration()
    ensures { (room at : ℕ) → IsReading inside_declaration (IsDeclarationOf room at) Anywhere (declaration_read room at) }
{}

/// A law: a global variable is read lawfully, with its initial values.
pub fn read_global_variable()
    ensures { IsReading gvar_spelling Any IsGlobalEnd global_variable }
{}

/// A law: the parameters of a function are read lawfully, up to the parenthesis that closes.
pub fn read_parameters()
    ensures { IsReading parameters_spelling Any Anywhere parameters }
{}

/// A law: what stands behind the name and the parenthesis of a call, whose arguments are no deeper than `room`, is read lawfully.
pub fn read_call()
    ensures { (room : ℕ) → 1 ≤ room → (x : Name) (p : ℕ) → IsReading inside_call (IsCallOf room x p) Anywhere (called room x p) }
{}

/// A law: simple statements, with at most `room` nodes below them, are read lawfully.
pub fn read_act()
    ensures { (room : ℕ) → IsReading act_spelling (IsGoodAct room) IsActEnd (act_read room) }
{}

/// A law: statements no deeper than `room` are read lawfully, and what stands in blocks no deeper.
pub fn read_statement()
    ensures statements { (room : ℕ) → 1 ≤ room → IsReading statement_spelling (IsGoodStatement room) IsStatementEnd (statement_read room) }
    ensures blocks { (room : ℕ) → 1 ≤ room → IsReading closed_spelling (IsGoodBody (room - 1)) Anywhere (block_body room) }
{}

/// A law: globals are read lawfully, the blocks of functions being no deeper than `room`.
pub fn read_item()
    ensures { (room : ℕ) → 2 ≤ room → IsReading item_spelling (IsGoodItem room) Anywhere (item_read room) }
{}

/// A law: reading all symbols finds the globals of the program that they spell, and leaves none; and where it is stuck, they stop to begin one.
pub fn read_program()
    ensures found { (n : ℕ) (symbols : List Symbol) (gs : List Item) (rest : List Symbol) → program_read n symbols ≡ Found gs rest → (rest ≡ []) × SpellsTree symbols (tree_of gs) }
    ensures stuck { (symbols rest : List Symbol) → Eventually (λ n. program_read n symbols ≡ Stuck rest) → StopsIn SpellsTree symbols rest }
{}

/// A law: no symbols spell two programs, and no two programs have one spelling, however deep they are; and where the places are left aside, two
/// programs with one spelling differ in places alone.
pub fn one_tree()
    ensures one { (symbols : List Symbol) (c d : CTree) → SpellsTree symbols c → SpellsTree symbols d → c ≡ d }
    ensures placed { (c d : CTree) → All IsLeveledItem (items c) → All IsLeveledItem (items d) → spelling (items c) ≡ spelling (items d) → c ≡ d }
    ensures aside { (c d : CTree) → All IsLeveledItem (items c) → All IsLeveledItem (items d) → map unplaced_symbol (spelling (items c)) ≡ map unplaced_symbol (spelling (items d)) → unplaced c ≡ unplaced d }
{}

/// A law: any symbols spell a program, or stop to begin one; which it is can be computed. Where they spell one they don't stop to begin one, and they
/// stop at one place at most.
pub fn some_tree()
    ensures tree { (symbols : List Symbol) → ((c : CTree) × SpellsTree symbols c) ⊎ ((rest : List Symbol) × StopsIn SpellsTree symbols rest) }
    ensures never { (symbols rest : List Symbol) (c : CTree) → SpellsTree symbols c → StopsIn SpellsTree symbols rest → ⊥ }
    ensures place { (symbols rest other : List Symbol) → StopsIn SpellsTree symbols rest → StopsIn SpellsTree symbols other → rest ≡ other }
{}

/// A law: no bytes have two programs; where they have one, their tokens don't stop to begin one and none is left out; where one is left out they
/// don't stop to begin one; and there is one place of each at most.
///
/// The language is this project's own.
pub fn one_reading()
    ensures one { (bytes : List ℕ) (c d : CTree) → IsTree bytes c → IsTree bytes d → c ≡ d }
    ensures never { (bytes : List ℕ) (c : CTree) (at : ℕ) → IsTree bytes c → HasNoTree bytes at → ⊥ }
    ensures inside { (bytes : List ℕ) (c : CTree) (at : ℕ) → IsTree bytes c → IsOutsideAt bytes at → ⊥ }
    ensures apart { (bytes : List ℕ) (at other : ℕ) → HasNoTree bytes at → IsOutsideAt bytes other → ⊥ }
    ensures place { (bytes : List ℕ) (at other : ℕ) → HasNoTree bytes at → HasNoTree bytes other → at ≡ other }
    ensures outside { (bytes : List ℕ) (at other : ℕ) → IsOutsideAt bytes at → IsOutsideAt bytes other → at ≡ other }
{}

/// A law: any bytes have a program, or their tokens stop to begin one, or one of their tokens is left out, or they are stuck. Which it is can be
/// computed.
///
/// The language is this project's own.
pub fn some_reading()
    ensures { (bytes : List ℕ) → ((c : CTree) × IsTree bytes c) ⊎ (((at : ℕ) × HasNoTree bytes at) ⊎ (((at : ℕ) × IsOutsideAt bytes at) ⊎ ((at : ℕ) × IsStuckAt bytes at))) }
{}
