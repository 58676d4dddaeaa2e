//! What holds of every type's spelling.

ghost use Rattle.std.specs.Prelude.{◌≡◌, ◌<◌, ◌++◌, List, ℕ, Ok, slice_index};
ghost use Rattle.xdr.specs.Shape.{Shape, Value, Fits, Spells, spelling};
ghost use Rattle.xdr.specs.Reading.{all_of, read};

/// Reading finds a value exactly where the bytes begin with its spelling.
pub fn reading_is_exact()
    ensures found { (shape : Shape) (bytes : List ℕ) (v : Value shape) (rest : List ℕ)
        → ((i : ℕ) → slice_index bytes i < 256)
        → read shape bytes ≡ Ok (v, rest)
        → (bytes ≡ spelling shape v ++ rest) × Fits shape v }
    ensures again { (shape : Shape) (v : Value shape) (rest : List ℕ)
        → Fits shape v
        → read shape (spelling shape v ++ rest) ≡ Ok (v, rest) }
{}

/// All of the bytes are read as a value exactly where they spell it.
pub fn reading_all_is_exact()
    ensures found { (shape : Shape) (bytes : List ℕ) (v : Value shape)
        → ((i : ℕ) → slice_index bytes i < 256)
        → all_of shape bytes ≡ Ok v
        → Spells shape v bytes }
    ensures again { (shape : Shape) (bytes : List ℕ) (v : Value shape)
        → Spells shape v bytes
        → all_of shape bytes ≡ Ok v }
{}

/// No spelling of a type begins another of that type.
pub fn one_spelling()
    ensures { (shape : Shape) (v w : Value shape) (x y : List ℕ)
        → Fits shape v
        → Fits shape w
        → spelling shape v ++ x ≡ spelling shape w ++ y
        → (v ≡ w) × (x ≡ y) }
{}
