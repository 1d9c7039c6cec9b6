ghost use Rattle.fd_http.specs.declared.limits.TheConstants.{LONGEST_INBOX};
ghost use Rattle.std.specs.Prelude.{◌≡◌, [], ◌++◌, ◌+◌, ◌≤◌, length, drop, IsOk, IfOk, OnOk, OnErr};

use fd_lists::NoMemory;
use std::alloc::Global;
use std::marker::Model;

/// Bytes that were read from a source and not yet used. One inbox serves one source: it must never
/// be used with another, nor after a refusal.
#[derive(Drop)]
pub struct Inbox {
    bytes: Vec<u8>,
    /// So many of them are used.
    start: usize,
}

impl Model for Inbox {
    ghost use Rattle.std.specs.Prelude.{List, ℕ, drop, length, ◌≤◌};
    ghost use Rattle.fd_http.specs.declared.limits.TheConstants.{LONGEST_INBOX};

    ghost Value = { List ℕ };

    ghost view = { λ i. drop i.start i.bytes.items };

    ghost invariant = { λ i. (i.start ≤ length i.bytes.items)
        × (length i.bytes.items ≤ LONGEST_INBOX) };
}

/// Moves all but the first bytes to the front.
fn drop_front(bytes: &mut Vec<u8>, count: usize)
    requires { count ≤ length bytes.old.items }
    ensures { bytes.new.items ≡ drop count bytes.old.items }
{
    if count > 0 {
        let rest = bytes.len() - count;
        bytes.rotate_left(count);
        bytes.truncate(rest);
    }
}

impl Inbox {
    /// The empty inbox, which takes no memory.
    pub fn new(alloc: Global) -> Result<Inbox, NoMemory>
        ensures made { IsOk result }
        ensures empty { IfOk result (λ inbox. inbox ≡ []) }
    {
        Ok(Inbox {
            bytes: Vec::new(alloc),
            start: 0,
        })
    }

    pub(crate) fn as_slice(&self) -> &[u8]
        ensures { result.now ≡ self.now }
    {
        &self.bytes.as_slice()[self.start..]
    }

    /// Adds bytes that were read. What is used goes first, so that each byte moves at most once
    /// before it is used, and the inbox never holds more than a front that lacks a byte, and a
    /// piece.
    pub(crate) fn extend(&mut self, piece: &[u8]) -> Result<(), NoMemory>
        requires { length self.old + length piece.now ≤ LONGEST_INBOX }
        ensures ok { OnOk result (self.new ≡ self.old ++ piece.now) }
        ensures err { OnErr result (self.new ≡ self.old) }
    {
        drop_front(&mut self.bytes, self.start);
        self.start = 0;
        self.bytes.extend_from_slice(piece)?;
        Ok(())
    }

    /// Uses the first bytes.
    pub(crate) fn skip(&mut self, count: usize)
        requires { count ≤ length self.old }
        ensures { self.new ≡ drop count self.old }
    {
        self.start += count;
    }
}
