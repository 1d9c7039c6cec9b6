ghost use Rattle.std.specs.Prelude.{◌≡◌, ◌≤◌, ◌<◌, ◌++◌, ℕ, List, max, length, take, drop, IfOk, IfErr, IfSome, IfNone};
ghost use Rattle.fd_http.specs.declared.limits.TheConstants.{LONGEST_FRONT, LONGEST_INBOX};
ghost use Rattle.fd_http.specs.Remainders.{Given, Paced};
ghost use Rattle.fd_http.specs.Inputs.{Begins};
ghost use Rattle.fd_http.specs.declared.request.Request.{Request as Whole};
ghost use Rattle.fd_http.specs.Arrivals.{Arrives, ReadCause, AtReadFault, IfOne, IsUnfinished};
ghost use Rattle.fd_http.specs.Front.{HasNoFront};
ghost use Rattle.fd_http.specs.Search.{HasSearched};
ghost use Rattle.fd_http.specs.Intake.{Fills, FrontAt, ReadsBody};

use crate::front::FrontSearch;
use crate::head::{body_len, read_head};
use crate::limits::{LONGEST_FRONT, LONGEST_PIECE};
use crate::{Arrived, Inbox, Request, RequestFault};
use fd_device::{Source, Taken};
use fd_lists::Bytes;
use std::alloc::Global;

/// Looks for a front of at most so many bytes, and goes on where the search stands.
fn find_front(search: &mut FrontSearch, bytes: &[u8]) -> Option<usize>
    requires searched { HasSearched bytes.now search.old }
    requires short { search.old.place ≤ LONGEST_FRONT }
    ensures front { IfSome result (FrontAt bytes.now) }
    ensures none { IfNone result (HasNoFront (take LONGEST_FRONT bytes.now)) }
    ensures searched { IfNone result (length bytes.now < LONGEST_FRONT
        → HasSearched bytes.now search.new) }
{
    search.front_len(&bytes[..bytes.len().min(LONGEST_FRONT)])
}

/// Reads until a front stands in the inbox, and answers its length. None is the end of the input
/// before a first byte.
fn fill_front<S: Source>(source: &mut S, inbox: &mut Inbox) -> Result<Option<usize>, RequestFault>
    ensures fills { Fills (S.left source.old) (S.left source.new) inbox.old inbox.new result }
    ensures front { IfOk result (λ found. IfSome found (FrontAt inbox.new)) }
    ensures given { IfOk result (λ found. IfSome found (λ n.
        Given (S.left source.old) (S.left source.new) inbox.old (λ given. given ≡ inbox.new))) }
    ensures fault { IfErr result (λ fault. AtReadFault fault
        (Given (S.left source.old) (S.left source.new) inbox.old IsUnfinished)) }
    ensures alone { (n : ℕ) → FrontAt inbox.old n
        → (source.new ≡ source.old) × (inbox.new ≡ inbox.old) }
    ensures ahead { length inbox.new ≤ max (length inbox.old) LONGEST_INBOX }
    ensures paced { Paced (S.left source.old) (S.left source.new) inbox.old IsUnfinished }
    ensures cause { ReadCause (S.faults source.old) (S.faults source.new) result }
{
    let mut search = FrontSearch::new();
    let mut piece = [0u8; LONGEST_PIECE];
    loop {
        let bytes = inbox.as_slice();
        let len = bytes.len();
        if let Some(size) = find_front(&mut search, bytes) {
            return Ok(Some(size));
        }
        if len >= LONGEST_FRONT {
            return Err(RequestFault::BadHead);
        }
        match source.read(&mut piece) {
            Taken::Failed => return Err(RequestFault::ReadFault),
            Taken::Got(0) => {
                if len == 0 {
                    return Ok(None);
                }
                return Err(RequestFault::Cut);
            }
            Taken::Got(count) => inbox.extend(&piece[..count])?,
        }
    }
}

/// Reads a body of so many bytes, and no byte behind it from the source.
fn read_body<S: Source>(
    alloc: Global,
    source: &mut S,
    inbox: &mut Inbox,
    size: usize,
) -> Result<Bytes, RequestFault>
    ensures reads { ReadsBody (S.left source.old) (S.left source.new)
        inbox.old inbox.new size result }
    ensures given { IfOk result (λ body. Given (S.left source.old) (S.left source.new) inbox.old
        (λ given. given ≡ body ++ inbox.new)) }
    ensures fault { IfErr result (λ fault. AtReadFault fault
        (Given (S.left source.old) (S.left source.new) inbox.old (λ given. length given < size))) }
    ensures alone { size ≤ length inbox.old → source.new ≡ source.old }
    ensures ahead { length inbox.new ≤ length inbox.old }
    ensures paced { Paced (S.left source.old) (S.left source.new) inbox.old
        (λ given. length given < size) }
    ensures cause { ReadCause (S.faults source.old) (S.faults source.new) result }
{
    let mut body = Vec::with_capacity(alloc, size)?;
    let here = inbox.as_slice().len().min(size);
    body.extend_from_slice(&inbox.as_slice()[..here])?;
    inbox.skip(here);
    let mut room = [0u8; LONGEST_PIECE];
    while body.len() < size {
        let piece = &mut room[..(size - body.len()).min(LONGEST_PIECE)];
        match source.read(piece) {
            Taken::Failed => return Err(RequestFault::ReadFault),
            Taken::Got(0) => return Err(RequestFault::Cut),
            Taken::Got(count) => body.extend_from_slice(&piece[..count])?,
        }
    }
    Ok(Bytes::from_vec(body))
}

/// Reads the next request: first what the inbox holds, then the source, in pieces and no further
/// than the piece in which the request ends, so that the inbox stays small. A head that is refused
/// is refused before its body is read. After a refusal the inbox is not used again.
///
/// Where the inbox holds a whole request, the source is left alone; where the source fails, the
/// bytes given so far hold none; and however this ends, those given before the last piece do not.
pub fn next_request<S: Source>(
    alloc: Global,
    source: &mut S,
    inbox: &mut Inbox,
) -> Result<Arrived, RequestFault>
    ensures arrives { Arrives (S.left source.old) (S.left source.new) inbox.old inbox.new result }
    ensures given { IfOne result (λ request. Given (S.left source.old) (S.left source.new) inbox.old
        (λ given. Begins given request inbox.new)) }
    ensures fault { IfErr result (λ fault. AtReadFault fault
        (Given (S.left source.old) (S.left source.new) inbox.old IsUnfinished)) }
    ensures alone { (request : Whole) (after : List ℕ) → Begins inbox.old request after
        → source.new ≡ source.old }
    ensures ahead { length inbox.new ≤ max (length inbox.old) LONGEST_INBOX }
    ensures paced { Paced (S.left source.old) (S.left source.new) inbox.old IsUnfinished }
    ensures cause { ReadCause (S.faults source.old) (S.faults source.new) result }
{
    let Some(size) = fill_front(source, inbox)? else {
        return Ok(Arrived::End);
    };
    let Some(head) = read_head(alloc, &inbox.as_slice()[..size])? else {
        return Err(RequestFault::BadHead);
    };
    let rest = match body_len(&head) {
        Ok(rest) => rest,
        Err(fault) => return Err(fault),
    };
    inbox.skip(size);
    let body = match read_body(alloc, source, inbox, rest) {
        Ok(body) => body,
        Err(fault) => return Err(fault),
    };
    Ok(Arrived::One(Request {
        method: head.method,
        target: head.target,
        body,
        encoded: head.encoded,
        close: head.close,
    }))
}
