ghost use Rattle.std.specs.Prelude.{◌≡◌, ◌≢◌, ◌||◌, true, false, ℕ, List, unwrap_or};
ghost use Rattle.fd_lists.specs.Counts.{Rose};
ghost use Rattle.fd_device.specs.Streams.{PutCause};
ghost use Rattle.fd_http.specs.Replies.{CanBeSent, reply_bytes};
ghost use Rattle.fd_api.specs.Replies.{IsSent, closing};
ghost use Rattle.fd_api.specs.Sessions.{Serves, Ends, SourceCause, SinkCause, StoreCause, is_faulted};
ghost use Rattle.fd_api.specs.Accounts.{SessionRan};
ghost use Rattle.fd_api.specs.Streams.{stream, streams};
ghost use Rattle.fd_api.specs.Turns.{PutsReply, Dismisses, Short, EndsAt, Turns, after_reply};
ghost use Rattle.fd_api.specs.Turns.{between};

use crate::handler::{handle, refuse};
use crate::{Handled, Note, Notes};
use fd_device::{Put, Sink, Source};
use fd_http::limits::MOST_REQUESTS;
use fd_http::{Arrived, Inbox, Request, RequestFault, Response, SendFault, next_request, reply};
use fd_json::Fault;
use fd_kinds::{RoomyList, Store};
use std::alloc::Global;

/// How a session ended.
#[derive(Clone, Copy, Debug, PartialEq, Eq)]
pub enum EndKind {
    /// At the end of the input.
    Ended,
    /// After the reply to a request that asks to close.
    Closed,
    /// After the reply to the last request that a session takes.
    Limit,
    /// The input ended inside a request.
    Cut,
    /// After the reply to a head that is none.
    BadHead,
    /// After the reply to a head that does not tell the length of its body.
    NoLength,
    /// After the reply to a head whose body is too large.
    TooLarge,
    /// The source failed.
    ReadFault,
    /// The sink failed.
    WriteFault,
    /// The disk failed, after the reply to that.
    DiskFault,
    /// There was no memory to read a request or to keep its note.
    NoMemory,
}

/// How a session ended, and what was done for each of its requests.
#[derive(Debug, Drop)]
pub struct SessionEnd {
    pub end: EndKind,
    pub notes: Notes,
}

fn closing(reply: Response, close: bool) -> Response
    ensures reply { result ≡ closing close reply }
    ensures sendable { CanBeSent reply → CanBeSent result }
{
    match reply {
        Response::Made { status, body, .. } => Response::Made {
            status,
            body,
            close,
        },
        Response::BadMethod { allow, body, .. } => Response::BadMethod { allow, body, close },
        Response::Short { .. } => Response::Short { close },
    }
}

/// Sends the reply to want of memory, which takes none.
fn send_short<K: Sink>(alloc: Global, out: &mut K, close: bool) -> Put
    ensures sent { PutsReply (K.taken out.old) (K.taken out.new)
        (reply_bytes (Response.Short close)) result }
    ensures cause { PutCause (K.faults out.old) (K.faults out.new) result }
{
    match reply(alloc, out, &Response::Short { close }) {
        Ok(()) => Put::Done,
        Err(_) => Put::Failed,
    }
}

/// Sends a reply, or the one to want of memory in its place.
fn send<K: Sink>(alloc: Global, out: &mut K, response: Response, close: bool) -> Put
    requires { CanBeSent response }
    ensures sent { (bytes : List ℕ) × IsSent close response bytes
        × PutsReply (K.taken out.old) (K.taken out.new) bytes result }
    ensures cause { PutCause (K.faults out.old) (K.faults out.new) result }
{
    match reply(alloc, out, &closing(response, close)) {
        Ok(()) => Put::Done,
        Err(SendFault::WriteFault) => Put::Failed,
        Err(SendFault::NoMemory) => send_short(alloc, out, close),
    }
}

/// Replies to a head that is refused.
fn dismiss<K: Sink>(alloc: Global, out: &mut K, fault: Fault, end: EndKind) -> EndKind
    ensures { Dismisses (stream K.taken K.faults out.old) (stream K.taken K.faults out.new)
        fault end result }
{
    match send(alloc, out, refuse(alloc, fault), true) {
        Put::Done => end,
        Put::Failed => EndKind::WriteFault,
    }
}

/// Tries the reply to want of memory.
fn give_up<K: Sink>(alloc: Global, out: &mut K) -> EndKind
    ensures end { result ≡ EndKind.NoMemory }
    ensures sent { Short (stream K.taken K.faults out.old) (stream K.taken K.faults out.new) }
{
    let _ = send_short(alloc, out, true);
    EndKind::NoMemory
}

/// Ends where no request arrives.
fn end_at<K: Sink>(alloc: Global, out: &mut K, fault: RequestFault) -> EndKind
    ensures { EndsAt (stream K.taken K.faults out.old) (stream K.taken K.faults out.new)
        fault result }
{
    match fault {
        RequestFault::BadHead => dismiss(alloc, out, Fault::BadHead, EndKind::BadHead),
        RequestFault::NoLength => dismiss(alloc, out, Fault::NoLength, EndKind::NoLength),
        RequestFault::TooLarge => dismiss(alloc, out, Fault::TooLarge, EndKind::TooLarge),
        RequestFault::Cut => EndKind::Cut,
        RequestFault::ReadFault => EndKind::ReadFault,
        RequestFault::NoMemory => give_up(alloc, out),
    }
}

fn is_faulted(note: Note) -> bool
    ensures { result ≡ is_faulted note }
{
    matches!(note, Note::Faulted)
}

/// Whether the reply closes the session.
fn closes(asked: bool, note: Note, last: bool) -> bool
    ensures { result ≡ (asked || last || is_faulted note) }
{
    asked || last || is_faulted(note)
}

/// Handles a request and replies to it. The reply closes the session where the request asks for
/// it, where this is the last request, and where the disk failed.
fn answer<T: Store, K: Sink>(
    alloc: Global,
    store: &mut T,
    out: &mut K,
    request: Request,
    last: bool,
) -> (Note, Put)
    requires { T.has_failed store.old ≡ false }
    ensures served { (bytes : List ℕ) × Serves T.write_gives T.read_gives T.stand_gives
        request store.old result.0 store.new (request.close || last || is_faulted result.0) bytes
        × PutsReply (K.taken out.old) (K.taken out.new) bytes result.1 }
    ensures sink { PutCause (K.faults out.old) (K.faults out.new) result.1 }
    ensures fault { is_faulted result.0 ≡ true → Rose (T.faults store.old) (T.faults store.new) }
    ensures healthy { is_faulted result.0 ≡ false → T.has_failed store.new ≡ false }
    ensures kept { is_faulted result.0 ≡ false → T.faults store.new ≡ T.faults store.old }
{
    let asked = request.close;
    let Handled { reply, note } = handle(alloc, store, request);
    let close = closes(asked, note, last);
    let put = send(alloc, out, reply, close);
    (note, put)
}

/// How the session goes on after a note and a reply.
fn after_reply(closes: bool, note: Note, put: Put) -> Option<EndKind>
    ensures { result ≡ after_reply closes note put }
{
    if is_faulted(note) {
        return Some(EndKind::DiskFault);
    }
    match put {
        Put::Failed => Some(EndKind::WriteFault),
        Put::Done if closes => Some(EndKind::Closed),
        Put::Done => None,
    }
}

/// One turn: takes room for a note, reads a request, handles it and replies to it. None where
/// the session goes on.
fn turn<T: Store, S: Source, K: Sink>(
    alloc: Global,
    store: &mut T,
    input: &mut S,
    out: &mut K,
    inbox: &mut Inbox,
    notes: &mut RoomyList<Note>,
    last: bool,
) -> Option<EndKind>
    requires { T.has_failed store.old ≡ false }
    ensures turned { Turns T.write_gives T.read_gives T.stand_gives
        (between (streams (stream S.left S.faults input.old) (stream K.taken K.faults out.old))
        inbox.old notes.old.items store.old)
        (between (streams (stream S.left S.faults input.new) (stream K.taken K.faults out.new))
        inbox.new notes.new.items store.new)
        last result }
    ensures source { SourceCause (S.faults input.old) (S.faults input.new)
        (unwrap_or result EndKind.Limit) }
    ensures disk { StoreCause (T.faults store.old) (T.faults store.new)
        (unwrap_or result EndKind.Limit) }
    ensures healthy { unwrap_or result EndKind.Limit ≢ EndKind.DiskFault
        → T.has_failed store.new ≡ false }
{
    if notes.reserve(1).is_err() {
        return Some(give_up(alloc, out));
    }
    match next_request(alloc, input, inbox) {
        Ok(Arrived::One(request)) => {
            let closes = request.close;
            let (note, put) = answer(alloc, store, out, request, last);
            notes.put(note);
            after_reply(closes, note, put)
        }
        Ok(Arrived::End) => Some(EndKind::Ended),
        Err(fault) => Some(end_at(alloc, out, fault)),
    }
}

/// Handles the requests of a source in order, and writes each reply before it reads on.
///
/// By what any store tells of its calls, the history only grows, what was written through the store
/// gains exactly the batches of the notes, in order and under rising numbers, told watermarks never
/// fall, and each note with its reply fits the history in the end.
///
/// The store must be one none of whose calls has met a disk fault, and is handed back so at every
/// end but that fault.
pub fn session<T: Store, S: Source, K: Sink>(
    alloc: Global,
    store: &mut T,
    input: &mut S,
    out: &mut K,
) -> SessionEnd
    requires { T.has_failed store.old ≡ false }
    ensures ends { Ends T.write_gives T.read_gives T.stand_gives
        (streams (stream S.left S.faults input.old) (stream K.taken K.faults out.old))
        (streams (stream S.left S.faults input.new) (stream K.taken K.faults out.new))
        store.old result.notes store.new result.end }
    ensures source { SourceCause (S.faults input.old) (S.faults input.new) result.end }
    ensures sink { SinkCause (K.faults out.old) (K.faults out.new) result.end }
    ensures disk { StoreCause (T.faults store.old) (T.faults store.new) result.end }
    ensures healthy { result.end ≢ EndKind.DiskFault → T.has_failed store.new ≡ false }
    ensures law { SessionRan
        (streams (stream S.left S.faults input.old) (stream K.taken K.faults out.old))
        (streams (stream S.left S.faults input.new) (stream K.taken K.faults out.new))
        (T.sees store.old) result.notes (T.sees store.new) result.end }
{
    let mut notes = RoomyList::new(alloc);
    let mut inbox = match Inbox::new(alloc) {
        Ok(inbox) => inbox,
        Err(_) => {
            return SessionEnd {
                end: give_up(alloc, out),
                notes: Notes::of(notes),
            };
        }
    };
    for served in 0..MOST_REQUESTS {
        let last = served + 1 == MOST_REQUESTS;
        if let Some(end) = turn(alloc, store, input, out, &mut inbox, &mut notes, last) {
            return SessionEnd {
                end,
                notes: Notes::of(notes),
            };
        }
    }
    SessionEnd {
        end: EndKind::Limit,
        notes: Notes::of(notes),
    }
}
