ghost use Rattle.std.specs.Prelude.{◌≡◌, ℕ, List};
ghost use Rattle.fd_http.specs.declared.request.Request.{Request};
ghost use Rattle.fd_api.specs.declared.demand.Demand.{Demand};
ghost use Rattle.fd_api.specs.Demands.{Asks};
ghost use Rattle.fd_api.specs.declared.note.Note.{Note};
ghost use Rattle.fd_api.specs.declared.sessions.EndKind.{EndKind};
ghost use Rattle.fd_api.specs.Sessions.{Runs, Ends};
ghost use Rattle.fd_api.specs.Streams.{Streams};
ghost use Rattle.fd_api.specs.Accounts.{Ran};
ghost use Rattle.fd_api.specs.Alone.{AloneRan, AloneSessionRan};
ghost use Rattle.fd_kinds.specs.History.{LocalView, Writes, Reads, Stands};

use fd_kinds::Store;
use fd_rows::batch_laws;
use fd_select::selector_laws;

/// A request asks one thing.
pub fn demand_laws()
    ensures one { (request : Request) → (a b : Demand) → Asks request a → Asks request b → a ≡ b }
{
    batch_laws();
    selector_laws();
}

/// What a run of requests tells of any store: its history only grows, what was written through
/// it gains exactly the batches of the notes under rising numbers, told watermarks never fall, and
/// each note fits the history in the end.
pub fn run_laws<T: Store>(_store: &T)
    ensures { (old : T) → (room : ℕ) → (requests : List Request) → (notes : List Note) → (new : T)
        → (output : List ℕ)
        → Runs T.write_gives T.read_gives T.stand_gives old room requests notes new output
        → Ran (T.sees old) room requests notes (T.sees new) output }
{}

/// What a session tells of a store that nobody else writes: it is added exactly the batches of
/// the notes, with the numbers behind its batches, and each note's numbers are exact.
pub fn alone_laws()
    ensures runs { (old : LocalView) → (room : ℕ) → (requests : List Request) → (notes : List Note)
        → (new : LocalView) → (output : List ℕ)
        → Runs Writes Reads Stands old room requests notes new output
        → AloneRan old room requests notes new output }
    ensures session { (old new : Streams) → (first : LocalView) → (notes : List Note)
        → (last : LocalView) → (end : EndKind)
        → Ends Writes Reads Stands old new first notes last end
        → AloneSessionRan old new first notes last end }
{}
