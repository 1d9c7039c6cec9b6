ghost use Rattle.std.specs.Prelude.{◌≡◌, ◌++◌, List, ℕ};
ghost use Rattle.fd_http.specs.declared.limits.TheConstants.{MOST_REQUESTS};
ghost use Rattle.fd_http.specs.declared.request.Request.{Request};
ghost use Rattle.fd_http.specs.Inputs.{Next, Holds, End, Splits, SplitsWithin};
ghost use Rattle.fd_http.specs.Prefixes.{Leads};

/// What the bytes of an input hold next, and how they split into requests and an end, are functions
/// of these bytes; and requests with which they begin are the first of their split.
pub fn split_laws()
    ensures next { (rest : List ℕ) (a b : Next) → Holds rest a → Holds rest b → a ≡ b }
    ensures split { (bytes : List ℕ) (rs ss : List Request) (e f : End)
        → Splits bytes rs e → Splits bytes ss f → (rs ≡ ss) × (e ≡ f) }
    ensures prefix { (bytes after : List ℕ) (rs all : List Request) (left : ℕ) (end : End)
        → Leads rs MOST_REQUESTS bytes left after → Splits bytes all end
        → (more : List Request) × (all ≡ rs ++ more) × SplitsWithin more left after end }
{}
