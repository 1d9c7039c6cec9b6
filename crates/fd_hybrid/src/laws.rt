ghost use Rattle.std.specs.Prelude.{◌≡◌, ℕ, List, ◌<◌, ◌^◌};
ghost use Rattle.fd_hybrid.specs.Format.{IsSpelling};
ghost use Rattle.fd_hybrid.specs.Refusals.{Spells, IsCut, IsOverWidth};

/// Values have one spelling at a width.
pub fn one_spelling()
    ensures { (w : ℕ) (values a b : List ℕ)
        → IsSpelling w values a → IsSpelling w values b → a ≡ b }
{}

/// Bytes are one thing at most: the spelling of so many values, and of no others; cut; or too wide.
pub fn one_reading()
    ensures values { (w count : ℕ) (bytes a b : List ℕ) → 0 < w → count < 2 ^ 64
        → Spells w count bytes a → Spells w count bytes b → a ≡ b }
    ensures cut { (w count : ℕ) (bytes values : List ℕ) → 0 < w → count < 2 ^ 64
        → Spells w count bytes values → ¬ IsCut w count bytes }
    ensures over_width { (w count : ℕ) (bytes values : List ℕ) → 0 < w → count < 2 ^ 64
        → Spells w count bytes values → ¬ IsOverWidth w count bytes }
    ensures cut_over_width { (w count : ℕ) (bytes : List ℕ) → 0 < w → count < 2 ^ 64
        → IsCut w count bytes → ¬ IsOverWidth w count bytes }
{}
