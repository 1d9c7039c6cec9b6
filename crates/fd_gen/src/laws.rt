ghost use Rattle.std.specs.Prelude.{ℕ, ◌+◌, ◌<◌, ◌^◌, List, [], ◌∷◌, length};
ghost use Rattle.fd_wire.specs.Grammar.{IsVarint, Spells};
ghost use Rattle.fd_gen.specs.Fields.{varint, item, span, IsFieldNumber, number_read, span_read};

/// What is written is what it should be by the grammar that the reader of profiles keeps to: a
/// number is a varint of it, and a field spells that field.
pub fn field_laws()
    ensures varint { (n : ℕ) → n < 2 ^ 64 → IsVarint (varint n) n }
    ensures number { (at field n : ℕ) → IsFieldNumber field → n < 2 ^ 64
        → Spells at (item field n) (number_read field n ∷ []) }
    ensures span { (at field : ℕ) (bytes : List ℕ) → IsFieldNumber field → length bytes < 2 ^ 64
        → Spells at (span field bytes)
        (span_read field (length bytes) (at + length (span field bytes)) ∷ []) }
{}
