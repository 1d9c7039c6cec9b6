ghost use Rattle.std.specs.Prelude.{◌≡◌, ℕ, List, Option, Err, length, true, false, IfOk, OnOk};
ghost use Rattle.std.specs.Str.{is_utf8};
ghost use Rattle.std.specs.Int.{w32, w64};
ghost use Rattle.fd_wal.specs.Reading.{Reads, number_at, whole_at, text_at, many_at, list_at};

use crate::fault::ReadFault;
use fd_kinds::{Items, Text};
use std::alloc::Global;
use std::marker::Model;
use std::str;

/// Bytes that are read from the front, seen as those that are left. What is left after a fault is
/// nothing to rely on.
#[derive(Drop)]
pub(crate) struct Cursor<'a> {
    rest: &'a [u8],
}

impl<'a> Model for Cursor<'a> {
    ghost use Rattle.std.specs.Prelude.{List, ℕ};

    ghost Value = { List ℕ };

    ghost view = { λ c. c.rest.now };
}

/// The text of these bytes, which have to be UTF-8.
#[tactic(auto, using(crate::proofs::Utf8::utf8_tests))]
fn text_of(alloc: Global, bytes: &[u8]) -> Result<Text, ReadFault>
    ensures found { IfOk result (λ text. text ≡ bytes.now) }
    ensures utf8 { OnOk result (is_utf8 bytes.now ≡ true) }
    ensures refused { result ≡ Err ReadFault.Malformed → is_utf8 bytes.now ≡ false }
{
    let Ok(text) = str::from_utf8(bytes) else {
        return Err(ReadFault::Malformed);
    };
    Ok(Text::of(alloc, text)?)
}

impl<'a> Cursor<'a> {
    /// At the front of the bytes.
    pub(crate) fn new(bytes: &'a [u8]) -> Cursor<'a>
        ensures { result ≡ bytes.now }
    {
        Cursor { rest: bytes }
    }

    /// How many bytes are left.
    pub(crate) fn left(&self) -> usize
        ensures { result ≡ length self.now }
    {
        self.rest.len()
    }

    /// A number in four bytes.
    pub(crate) fn count(&mut self) -> Result<u32, ReadFault>
        ensures { Reads result self.new (number_at w32 self.old) }
    {
        if self.rest.len() < 4 {
            return Err(ReadFault::Malformed);
        }
        let (front, rest) = self.rest.split_at(4);
        self.rest = rest;
        Ok(u32::from_le_bytes([front[0], front[1], front[2], front[3]]))
    }

    /// A number in eight bytes.
    pub(crate) fn number(&mut self) -> Result<u64, ReadFault>
        ensures { Reads result self.new (number_at w64 self.old) }
    {
        if self.rest.len() < 8 {
            return Err(ReadFault::Malformed);
        }
        let (front, rest) = self.rest.split_at(8);
        self.rest = rest;
        Ok(u64::from_le_bytes([
            front[0], front[1], front[2], front[3], front[4], front[5], front[6], front[7],
        ]))
    }

    /// A number with a sign, in eight bytes.
    #[tactic(auto, unfolding(crate::specs::Reading::whole_at))]
    pub(crate) fn whole(&mut self) -> Result<i64, ReadFault>
        ensures { Reads result self.new (whole_at self.old) }
    {
        Ok(self.number()?.cast_signed())
    }

    /// A text behind its length.
    #[tactic(auto, unfolding(crate::specs::Reading::text_at))]
    pub(crate) fn text(&mut self, alloc: Global) -> Result<Text, ReadFault>
        ensures { Reads result self.new (text_at self.old) }
    {
        let size = self.count()? as usize;
        if self.rest.len() < size {
            return Err(ReadFault::Malformed);
        }
        let (front, rest) = self.rest.split_at(size);
        self.rest = rest;
        text_of(alloc, front)
    }

    /// So many values, one behind the other.
    pub(crate) fn many<T: Spelled>(
        &mut self,
        alloc: Global,
        count: u32,
    ) -> Result<Items<T>, ReadFault>
        ensures { Reads result self.new (many_at T.read_at count self.old) }
    {
        let mut items = Items::new(alloc);
        items.reserve(count as usize)?;
        for _ in 0..count {
            items.push(T::read(alloc, self)?)?;
        }
        Ok(items)
    }

    /// A count, and so many values. Memory is taken only for as many as the bytes that are left
    /// can hold.
    #[tactic(auto, unfolding(crate::specs::Reading::list_at))]
    pub(crate) fn list<T: Spelled>(&mut self, alloc: Global) -> Result<Items<T>, ReadFault>
        ensures { Reads result self.new (list_at T.least T.read_at self.old) }
    {
        let count = self.count()?;
        if (self.left() as u64) < u64::from(T::least()) * u64::from(count) {
            return Err(ReadFault::Malformed);
        }
        self.many(alloc, count)
    }
}

/// A value that is read from the front of bytes.
pub(crate) trait Spelled: Drop {
    /// The value and the bytes behind it.
    ghost read_at: { List ℕ → Option (Self × List ℕ) };

    /// A value takes at least so many bytes.
    ghost least: { ℕ };

    /// The least bytes of a value.
    fn least() -> u32
        ensures { result ≡ least };

    /// Reads a value.
    fn read(alloc: Global, cursor: &mut Cursor) -> Result<Self, ReadFault>
        ensures { Reads result cursor.new (read_at cursor.old) };
}
