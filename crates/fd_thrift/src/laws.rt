ghost use Rattle.std.specs.Prelude.{◌≡◌, ◌≢◌, ℕ, List, Ok, Err, ◌++◌};
ghost use Rattle.fd_thrift.specs.declared.fault.ThriftFault.{ThriftFault as Fault};
ghost use Rattle.fd_thrift.specs.declared.fault.ThriftFault.TheVariants.{Cut};
ghost use Rattle.fd_thrift.specs.Values.{Value};
ghost use Rattle.fd_thrift.specs.Format.{Spells};
ghost use Rattle.fd_thrift.specs.Reader.{tree_at, AreBytes, IsCutShort, StopsBy};

/// No two trees have one spelling, none has two, and no spelling begins another.
pub fn one_spelling()
    ensures { (a b x y : List ℕ) (v w : Value) → Spells a v → Spells b w → a ++ x ≡ b ++ y
        → (v ≡ w) × (a ≡ b) }
{}

/// Reading answers a value exactly where its spelling stands in front, with the bytes behind it.
pub fn spellings_are_read()
    ensures found { (bytes rest : List ℕ) (v : Value) → AreBytes bytes
        → tree_at bytes ≡ Ok (v, rest)
        → (front : List ℕ) × (bytes ≡ front ++ rest) × Spells front v }
    ensures only { (front rest : List ℕ) (v : Value) → Spells front v
        → tree_at (front ++ rest) ≡ Ok (v, rest) }
{}

/// Reading refuses bytes by `Cut` exactly where they are a front of a spelling, and otherwise at
/// the first byte with which they are not, whatever follows it.
pub fn first_fault_is_told()
    ensures cut { (bytes : List ℕ) → AreBytes bytes → tree_at bytes ≡ Err Cut → IsCutShort bytes }
    ensures front { (bytes : List ℕ) → IsCutShort bytes → tree_at bytes ≡ Err Cut }
    ensures first { (bytes : List ℕ) (fault : Fault) → AreBytes bytes → fault ≢ Cut
        → tree_at bytes ≡ Err fault → StopsBy fault bytes }
    ensures stays { (bytes more : List ℕ) (fault : Fault) → fault ≢ Cut
        → tree_at bytes ≡ Err fault → tree_at (bytes ++ more) ≡ Err fault }
{}
