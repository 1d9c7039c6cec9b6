ghost use Rattle.std.specs.Prelude.{◌≡◌, List, Contains, ◌↔◌};
ghost use Rattle.std.specs.List.{list_any};
ghost use Rattle.std.specs.BTreeMap.{is_at};
ghost use Rattle.std.specs.List.Sorted.{IsStrictlySortedBy};
ghost use Rattle.std.specs.FinMap.{IsAntisymmetric};
ghost use Rattle.fd_kinds.specs.Meaning.{distinct};

/// The distinct items of a list rise strictly, and are the list's items; lists with the same items
/// have the same distinct ones.
pub fn distinct_laws<T: Ord>()
    ensures rising { (items : List T) → IsStrictlySortedBy T.cmp (distinct T.cmp items) }
    ensures members { IsAntisymmetric T.cmp
        → (items : List T) → (item : T)
        → Contains (distinct T.cmp items) item ↔ Contains items item }
    ensures same { IsAntisymmetric T.cmp
        → (xs ys : List T)
        → ((item : T) → list_any (is_at (T.cmp item)) xs ≡ list_any (is_at (T.cmp item)) ys)
        → distinct T.cmp xs ≡ distinct T.cmp ys }
{}
