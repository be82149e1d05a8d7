//! Laws of assembly texts.

ghost use Rattle.std.specs.Prelude.{◌≡◌, ℕ, List};
ghost use Rattle.asm_text.specs.Answer.{AreRight, IsAssembled};
ghost use Rattle.asm_text.specs.Canonical.{AreNamed, IsCanonical};
ghost use Rattle.asm_text.specs.Refused.{IsRefused};
ghost use Rattle.asm_text.specs.declared.fault.AsmFault.{AsmFault};
ghost use Rattle.asm_text.specs.declared.fault.AsmFault.TheVariants as fault;
ghost use Rattle.nml_grammar.specs.Trees.{IsTree};
ghost use Rattle.nml_tree.specs.Machine.{Initial};
ghost use Rattle.nml_tree.specs.Refused.{IsChecked};
ghost use Rattle.nml_tree.specs.Table.{table};
ghost use Rattle.nml_tree.specs.Valid.{IsWordWidth};
ghost use Rattle.nml_tree.specs.declared.tree.Desc.{Desc};

/// A law: on an accepted description a text has one answer at most, which is its words and initial values or one fault; what it is assembled
/// to is right for an image.
pub fn one_answer()
    ensures words { (d : Desc) (width : ℕ) (text ws vs : List ℕ) (is js : List Initial) → IsChecked d → IsAssembled (table d) width text ws is → IsAssembled (table d) width text vs js → (ws ≡ vs) × (is ≡ js) }
    ensures fault { (d : Desc) (width : ℕ) (text : List ℕ) (f g : AsmFault) → (f ≡ fault.Memory → ⊥) → (g ≡ fault.Memory → ⊥) → IsRefused (table d) width text f → IsRefused (table d) width text g → f ≡ g }
    ensures apart { (d : Desc) (width : ℕ) (text ws : List ℕ) (is : List Initial) (f : AsmFault) → IsAssembled (table d) width text ws is → IsRefused (table d) width text f → f ≡ fault.Memory }
    ensures right { (d : Desc) (width : ℕ) (text ws : List ℕ) (is : List Initial) → IsChecked d → IsWordWidth (table d) width → IsAssembled (table d) width text ws is → AreRight (table d) width ws is }
{}

/// A law: it can't be that a text has no answer.
pub fn some_answer()
    ensures { (d : Desc) (width : ℕ) (text : List ℕ) → IsChecked d → ((ws : List ℕ) (is : List Initial) → IsAssembled (table d) width text ws is → ⊥) → ((f : AsmFault) → (f ≡ fault.Memory → ⊥) → IsRefused (table d) width text f → ⊥) → ⊥ }
{}

/// A law: words and initial values have one canonical text at most, and it can't be that they have none.
pub fn canonical()
    ensures one { (d : Desc) (width : ℕ) (ws a b : List ℕ) (is : List Initial) → IsChecked d → IsCanonical (table d) width ws is a → IsCanonical (table d) width ws is b → a ≡ b }
    ensures some { (d : Desc) (width : ℕ) (ws : List ℕ) (is : List Initial) → ((a : List ℕ) → IsCanonical (table d) width ws is a → ⊥) → ⊥ }
{}

/// A law: where a description was read from a text, its storages have names that assembly text may have.
pub fn storage_names()
    ensures { (d : Desc) (bytes : List ℕ) → IsTree bytes d → AreNamed (table d) }
{}

/// A law: the canonical text of words and initial values that are right is assembled to just these, where the storages have names that
/// assembly text may have.
pub fn round_trip()
    ensures { (d : Desc) (width : ℕ) (ws text : List ℕ) (is : List Initial) → IsChecked d → AreNamed (table d) → IsWordWidth (table d) width → AreRight (table d) width ws is → IsCanonical (table d) width ws is text → IsAssembled (table d) width text ws is }
{}
