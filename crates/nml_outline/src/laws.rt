//! What the fixed bits and the tokens of shapes say of instructions.
ghost use Rattle.std.specs.Prelude.{◌≡◌, ℕ, ◌<◌, ◌^◌, ℤ, bit_and, bit_or, bit_xor, List, Contains, Some, None, slice_get};
ghost use Rattle.nml_tree.specs.declared.tree.Desc.{Desc};
ghost use Rattle.nml_tree.specs.Table.{table};
ghost use Rattle.nml_tree.specs.Derivation.{Derivation, picks, fields};
ghost use Rattle.nml_tree.specs.Image.{image, word_of};
ghost use Rattle.nml_tree.specs.Refused.{IsFreeBelow};
ghost use Rattle.nml_tree.specs.Same.{IsFirstImage, IsFirstSyntax, tokens};
ghost use Rattle.nml_tree.specs.Valid.{IsRoot, IsWordWidth};
ghost use Rattle.nml_shape.specs.declared.shape.Shape.{Shape};
ghost use Rattle.nml_shape.specs.Shown.{AreAllShapes, numbers_in};
ghost use Rattle.nml_shape.specs.Common.{HasWord, IsLeastWord, filled, FitFields, AreSame, AreLeastSame, IsSingle};
ghost use Rattle.nml_shape.specs.First.{HaveWord, HaveTokens, IsFirstPair, HasNoPair};

/// A law: in a typed description a word that has a shape's fixed bits is that of an instruction of the shape, whose fields have the
/// numbers that the word has in the shape's fields; and the other way round.
///
/// Where no two shapes have a word in common no two instructions have one image; else the first two shapes that have one tell the first
/// two instructions with one image, by the least word of both. That is what is fixed in one of them, where their fixed bits agree.
pub fn words()
    ensures root { (d : Desc) (shapes : List Shape) (width : ℕ) (s : Shape) (w : ℕ) → IsFreeBelow 12 d → AreAllShapes d shapes → IsWordWidth (table d) width
        → Contains shapes s → HasWord s w → w < 2 ^ width
        → (x : Derivation) × IsRoot (table d) x × (picks x ≡ s.picks.items) × (word_of x ≡ w) × (fields x ≡ numbers_in w s.fields.items) }
    ensures word { (d : Desc) (shapes : List Shape) (s : Shape) (x : Derivation) → IsFreeBelow 12 d → AreAllShapes d shapes
        → Contains shapes s → IsRoot (table d) x → picks x ≡ s.picks.items → HasWord s (word_of x) × (fields x ≡ numbers_in (word_of x) s.fields.items) }
    ensures one { (d : Desc) (shapes : List Shape) (x y : Derivation) → IsFreeBelow 12 d → AreAllShapes d shapes
        → HasNoPair HaveWord shapes → IsRoot (table d) x → IsRoot (table d) y → image x ≡ image y → x ≡ y }
    ensures first { (d : Desc) (shapes : List Shape) (i j : ℕ) (a b : Shape) (w : ℕ) → IsFreeBelow 12 d → AreAllShapes d shapes
        → IsFirstPair HaveWord shapes i j → slice_get shapes i ≡ Some a → slice_get shapes j ≡ Some b → IsLeastWord a b (Some w)
        → (x : Derivation) × (y : Derivation) × IsFirstImage (table d) x y × (picks x ≡ a.picks.items) × (picks y ≡ b.picks.items)
        × (fields x ≡ numbers_in w a.fields.items) × (fields y ≡ numbers_in w b.fields.items) × (word_of x ≡ w) }
    ensures least { (d : Desc) (shapes : List Shape) (a b : Shape) → IsFreeBelow 12 d → AreAllShapes d shapes → Contains shapes a → Contains shapes b
        → bit_and (bit_and (bit_xor a.value b.value) a.mask) b.mask ≡ 0 → IsLeastWord a b (Some (bit_or a.value b.value)) }
    ensures none { (a b : Shape) → (bit_and (bit_and (bit_xor a.value b.value) a.mask) b.mask ≡ 0 → ⊥) → IsLeastWord a b None }
{}

/// A law: in a typed description each field of a shape stands in its tokens at one place; numbers in range for its fields are those of an
/// instruction of the shape, and its tokens are the shape's with these numbers; and the other way round.
///
/// Within a shape an instruction is known by its tokens. Where no two shapes have a list of tokens in common no two instructions have
/// one; else the first two shapes that have one tell the first two instructions with one, by the least number in each field.
pub fn texts()
    ensures single { (d : Desc) (shapes : List Shape) (s : Shape) → IsFreeBelow 12 d → AreAllShapes d shapes → Contains shapes s → IsSingle s }
    ensures root { (d : Desc) (shapes : List Shape) (s : Shape) (zs : List ℤ) → IsFreeBelow 12 d → AreAllShapes d shapes → Contains shapes s
        → FitFields s zs → (x : Derivation) × IsRoot (table d) x × (picks x ≡ s.picks.items) × (fields x ≡ zs) × (tokens x ≡ filled s zs) }
    ensures text { (d : Desc) (shapes : List Shape) (s : Shape) (x : Derivation) → IsFreeBelow 12 d → AreAllShapes d shapes → Contains shapes s
        → IsRoot (table d) x → picks x ≡ s.picks.items → FitFields s (fields x) × (tokens x ≡ filled s (fields x)) }
    ensures within { (d : Desc) (x y : Derivation) → IsFreeBelow 12 d → IsRoot (table d) x → IsRoot (table d) y → picks x ≡ picks y
        → tokens x ≡ tokens y → x ≡ y }
    ensures one { (d : Desc) (shapes : List Shape) (x y : Derivation) → IsFreeBelow 12 d → AreAllShapes d shapes
        → HasNoPair HaveTokens shapes → IsRoot (table d) x → IsRoot (table d) y → tokens x ≡ tokens y → x ≡ y }
    ensures first { (d : Desc) (shapes : List Shape) (i j : ℕ) (a b : Shape) (zs ys : List ℤ) → IsFreeBelow 12 d → AreAllShapes d shapes
        → IsFirstPair HaveTokens shapes i j → slice_get shapes i ≡ Some a → slice_get shapes j ≡ Some b → AreLeastSame a b zs ys
        → (x : Derivation) × (y : Derivation) × IsFirstSyntax (table d) x y × (picks x ≡ a.picks.items) × (picks y ≡ b.picks.items)
        × (fields x ≡ zs) × (fields y ≡ ys) × (tokens x ≡ filled a zs) }
    ensures least { (a b : Shape) (zs ys : List ℤ) → IsSingle a → IsSingle b → AreSame a b zs ys → (us : List ℤ) × (vs : List ℤ) × AreLeastSame a b us vs }
{}
