ghost use Rattle.std.specs.Prelude.{◌≡◌, ◌⊎◌, ℕ, List};
ghost use Rattle.nml_lex.specs.Lexed.{HasLexemes, IsStuckAt, Lexeme};

/// A law: no bytes have two lists of tokens; where they have one they are stuck nowhere; and they are stuck at one place at most.
///
/// What a token is, is this project's own rule.
pub fn one_lexing()
    ensures one { (bytes : List ℕ) (ps qs : List Lexeme) → HasLexemes bytes ps → HasLexemes bytes qs → ps ≡ qs }
    ensures never { (bytes : List ℕ) (ps : List Lexeme) (at : ℕ) → HasLexemes bytes ps → IsStuckAt bytes at → ⊥ }
    ensures place { (bytes : List ℕ) (at other : ℕ) → IsStuckAt bytes at → IsStuckAt bytes other → at ≡ other }
{}

/// A law: any bytes have tokens, or a place where they are stuck; one of the two can be computed from them.
///
/// What a token is, is this project's own rule.
pub fn some_lexing()
    ensures { (bytes : List ℕ) → ((ps : List Lexeme) × HasLexemes bytes ps) ⊎ ((at : ℕ) × IsStuckAt bytes at) }
{}
