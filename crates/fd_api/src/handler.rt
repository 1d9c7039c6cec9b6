ghost use Rattle.std.specs.Prelude.{◌≡◌, ◌≢◌, false, IfOk, MatchResult};
ghost use Rattle.fd_http.specs.declared.request.Request.{Request};
ghost use Rattle.fd_api.specs.Demands.{Asks};
ghost use Rattle.fd_lists.specs.Counts.{Rose};
ghost use Rattle.fd_http.specs.Replies.{CanBeSent};
ghost use Rattle.fd_api.specs.Replies.{IsReply, done, refusal, not_allowed, short};
ghost use Rattle.fd_api.specs.Effects.{Does, Handles};

use crate::demands::decide;
use crate::{Demand, Note, SmallBatch};
use fd_http::{Method, Request, Response};
use fd_json::{Fault, answer_text, fault_text, number_text, stand_text};
use fd_kinds::{Bytes, NoMemory, Query, ReadRefusal, Store, WriteRefusal};
use std::alloc::Global;

/// What was replied to a request, and the note of what was done.
#[derive(Drop)]
pub struct Handled {
    pub reply: Response,
    pub note: Note,
}

/// What is handled where memory is wanting.
fn short() -> Handled
    ensures note { result.note ≡ Note.Short }
    ensures reply { result.reply ≡ short }
{
    Handled {
        reply: Response::Short { close: false },
        note: Note::Short,
    }
}

/// The reply of status 200 with a body, or the one to want of memory.
fn done(body: Result<Bytes, NoMemory>) -> Response
    ensures reply { MatchResult body (λ text. result ≡ done text) (λ _. result ≡ short) }
    ensures sendable { CanBeSent result }
{
    match body {
        Ok(body) => Response::Made {
            status: 200,
            body,
            close: false,
        },
        Err(NoMemory) => Response::Short { close: false },
    }
}

/// The reply to a fault, or the one to want of memory. A wrong method has a reply of its own.
#[tactic(auto, using(crate::proofs::Statuses::made_status))]
pub(crate) fn refuse(alloc: Global, fault: Fault) -> Response
    ensures reply { IsReply (refusal fault) result }
    ensures sendable { CanBeSent result }
{
    let status = fault.status();
    match fault_text(alloc, &fault) {
        Ok(body) if status != 405 => Response::Made {
            status,
            body,
            close: false,
        },
        _ => Response::Short { close: false },
    }
}

/// The reply to a wrong method, or the one to want of memory.
fn not_allowed(alloc: Global, allow: Method) -> Response
    ensures reply { IsReply (not_allowed allow) result }
    ensures sendable { CanBeSent result }
{
    match fault_text(alloc, &Fault::BadMethod) {
        Ok(body) => Response::BadMethod {
            allow,
            body,
            close: false,
        },
        Err(NoMemory) => Response::Short { close: false },
    }
}

fn write<T: Store>(alloc: Global, store: &mut T, accepted: SmallBatch) -> Handled
    requires { T.has_failed store.old ≡ false }
    ensures does { Does T.write_gives T.read_gives T.stand_gives
        (Demand.Write accepted) store.old result.note result.reply store.new }
    ensures sendable { CanBeSent result.reply }
    ensures fault { result.note ≡ Note.Faulted → Rose (T.faults store.old) (T.faults store.new) }
    ensures healthy { result.note ≢ Note.Faulted → T.has_failed store.new ≡ false }
    ensures kept { result.note ≢ Note.Faulted → T.faults store.new ≡ T.faults store.old }
{
    match store.write(accepted.batch) {
        Ok(n) => Handled {
            reply: done(number_text(alloc, n)),
            note: Note::Wrote { n },
        },
        Err(WriteRefusal::DiskFault) => Handled {
            reply: refuse(alloc, Fault::DiskFault),
            note: Note::Faulted,
        },
        Err(WriteRefusal::Spent { drawn }) => Handled {
            reply: refuse(alloc, Fault::Spent { drawn }),
            note: Note::Spent { drawn },
        },
        Err(WriteRefusal::NoMemory) => short(),
    }
}

fn read<T: Store>(alloc: Global, store: &mut T, query: &Query, after: u64) -> Handled
    requires { T.has_failed store.old ≡ false }
    ensures does { Does T.write_gives T.read_gives T.stand_gives
        (Demand.Read query.now after) store.old result.note result.reply store.new }
    ensures sendable { CanBeSent result.reply }
    ensures note { result.note ≢ Note.Faulted }
    ensures healthy { T.has_failed store.new ≡ false }
    ensures kept { T.faults store.new ≡ T.faults store.old }
{
    match store.read(after, query) {
        Ok(seen) => Handled {
            reply: done(answer_text(alloc, &seen.answer, seen.watermark)),
            note: Note::Read { w: seen.watermark },
        },
        Err(ReadRefusal::NotDrawn { drawn }) => Handled {
            reply: refuse(alloc, Fault::NotDrawn { drawn }),
            note: Note::NotDrawn { drawn },
        },
        Err(ReadRefusal::NoMemory) => short(),
    }
}

fn stand<T: Store>(alloc: Global, store: &mut T) -> Handled
    requires { T.has_failed store.old ≡ false }
    ensures does { Does T.write_gives T.read_gives T.stand_gives
        Demand.Stand store.old result.note result.reply store.new }
    ensures sendable { CanBeSent result.reply }
    ensures note { result.note ≢ Note.Faulted }
    ensures healthy { T.has_failed store.new ≡ false }
    ensures kept { T.faults store.new ≡ T.faults store.old }
{
    let stand = store.stand();
    Handled {
        reply: done(stand_text(alloc, &stand)),
        note: Note::Stood {
            drawn: stand.drawn,
            synced: stand.synced,
            w: stand.watermark,
        },
    }
}

/// Does what was asked, where there was memory to decide that.
fn carry_out<T: Store>(alloc: Global, store: &mut T, asked: Result<Demand, NoMemory>) -> Handled
    requires { T.has_failed store.old ≡ false }
    ensures handles { (request : Request) → IfOk asked (Asks request)
        → Handles T.write_gives T.read_gives T.stand_gives
        request store.old result.note result.reply store.new }
    ensures sendable { CanBeSent result.reply }
    ensures fault { result.note ≡ Note.Faulted → Rose (T.faults store.old) (T.faults store.new) }
    ensures healthy { result.note ≢ Note.Faulted → T.has_failed store.new ≡ false }
    ensures kept { result.note ≢ Note.Faulted → T.faults store.new ≡ T.faults store.old }
{
    let Ok(asked) = asked else {
        return short();
    };
    match asked {
        Demand::Write(accepted) => write(alloc, store, accepted),
        Demand::Read { query, after } => read(alloc, store, &query, after),
        Demand::Stand => stand(alloc, store),
        Demand::NotAllowed(allow) => Handled {
            reply: not_allowed(alloc, allow),
            note: Note::Refused,
        },
        Demand::Refused(fault) => Handled {
            reply: refuse(alloc, fault),
            note: Note::Refused,
        },
    }
}

/// Handles a request: decides what it asks, does that to the store, and makes the reply, which
/// does not close the session. Its body is let go as soon as it is read. Want of memory is replied
/// to by `Short`.
pub fn handle<T: Store>(alloc: Global, store: &mut T, request: Request) -> Handled
    requires { T.has_failed store.old ≡ false }
    ensures handles { Handles T.write_gives T.read_gives T.stand_gives
        request store.old result.note result.reply store.new }
    ensures sendable { CanBeSent result.reply }
    ensures fault { result.note ≡ Note.Faulted → Rose (T.faults store.old) (T.faults store.new) }
    ensures healthy { result.note ≢ Note.Faulted → T.has_failed store.new ≡ false }
    ensures kept { result.note ≢ Note.Faulted → T.faults store.new ≡ T.faults store.old }
{
    carry_out(alloc, store, decide(alloc, request))
}
