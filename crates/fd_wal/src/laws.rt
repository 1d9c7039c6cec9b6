//! Laws of logs, as contracts of functions that do nothing.

ghost use Rattle.std.specs.Prelude.{◌≡◌, ◌+◌, ◌++◌, [], ◌∷◌, ℕ, List, length, take};
ghost use Rattle.fd_wal.specs.Frames.{Frame, frame_bytes};
ghost use Rattle.fd_wal.specs.Logs.{IsLog, IsDamaged, Continues};

/// A log is one thing: no bytes are two lists of frames, or have two gates.
pub fn one_log()
    ensures frames { (bytes : List ℕ) (first : ℕ) (frames others : List Frame) (gate place : ℕ)
        → IsLog bytes first frames gate → IsLog bytes first others place → frames ≡ others }
    ensures gate { (bytes : List ℕ) (first : ℕ) (frames others : List Frame) (gate place : ℕ)
        → IsLog bytes first frames gate → IsLog bytes first others place → gate ≡ place }
{}

/// No bytes are both a log and damaged.
pub fn log_or_damage()
    ensures { (bytes : List ℕ) (first : ℕ) (frames : List Frame) (gate at : ℕ)
        → IsLog bytes first frames gate → IsDamaged bytes first at → ⊥ }
{}

/// Damaged bytes are so at one place.
pub fn one_damage()
    ensures { (bytes : List ℕ) (first at place : ℕ)
        → IsDamaged bytes first at → IsDamaged bytes first place → at ≡ place }
{}

/// How a log grows: a frame that may stand behind its frames is written behind its gate, with a
/// closed gate behind, which changes nothing while the log's gate stays closed, and adds the frame
/// once that is open.
pub fn log_growth()
    ensures closed { (bytes tail : List ℕ) (first : ℕ) (frames : List Frame) (gate : ℕ)
        → IsLog bytes first frames gate
        → IsLog (take gate bytes ++ 0 ∷ tail) first frames gate }
    ensures opened { (bytes tail : List ℕ) (first : ℕ) (frames : List Frame) (gate : ℕ)
        (frame : Frame) → IsLog bytes first frames gate → Continues first frames frame
        → IsLog (take gate bytes ++ 1 ∷ (frame_bytes frame ++ 0 ∷ tail)) first
        (frames ++ frame ∷ []) (gate + 1 + length (frame_bytes frame)) }
{}
