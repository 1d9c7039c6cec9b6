ghost use Rattle.std.specs.Prelude.{◌≡◌, ◌<◌, ◌≤◌, ◌^◌, ◌∷◌, ◌++◌, length, None, IfOk, IfSome, All};
ghost use Rattle.std.specs.Prelude.{IsUtf8, Decides};
ghost use Rattle.fd_column.specs.Stacks.{frame_bytes, stack_bytes, frames_of, AreShort};

use fd_kinds::{Bytes, Items, NoMemory, Stack, Text, Texts};
use std::alloc::Global;
use std::str;

/// The most bytes of a frame: so many have a length of four bytes.
const LONGEST_FRAME: usize = 0xffff_ffff;

/// The text of the bytes of a text.
pub fn text_of(alloc: Global, bytes: &[u8]) -> Result<Text, NoMemory>
    requires { IsUtf8 bytes.now }
    ensures { IfOk result (λ text. text ≡ bytes.now) }
{
    match str::from_utf8(bytes) {
        Ok(text) => Text::of(alloc, text),
        Err(_) => unreachable!(),
    }
}

/// The bytes and those of one more frame.
fn with_frame(bytes: Bytes, frame: &Text) -> Result<Bytes, NoMemory>
    requires { length frame.now < 2 ^ 32 }
    ensures { IfOk result (λ more. more ≡ bytes ++ frame_bytes frame.now) }
{
    let length = frame.len() as u32;
    let mut more = bytes;
    more.extend(&length.to_le_bytes())?;
    more.extend(frame.as_bytes())?;
    Ok(more)
}

/// The bytes of a stack: for each frame its length in four bytes, little-endian, and its text.
pub fn spelled(alloc: Global, stack: &Stack) -> Result<Bytes, NoMemory>
    requires { AreShort stack.now }
    ensures { IfOk result (λ bytes. bytes ≡ stack_bytes stack.now) }
{
    let mut bytes = Items::new(alloc);
    for frame in stack.as_slice() {
        bytes = with_frame(bytes, frame)?;
    }
    Ok(bytes)
}

/// The first frame that the bytes spell, and the bytes behind it.
fn first_frame(bytes: &[u8]) -> (&[u8], &[u8])
    requires { 4 ≤ length bytes.now }
    ensures frames { frames_of bytes.now ≡ result.0.now ∷ frames_of result.1.now }
    ensures short { length result.0.now < 2 ^ 32 }
    ensures shorter { length result.1.now < length bytes.now }
{
    let (_, rest) = bytes.split_at(4);
    let length = u32::from_le_bytes([bytes[0], bytes[1], bytes[2], bytes[3]]) as usize;
    rest.split_at(length.min(rest.len()))
}

/// Whether the length of a frame has four bytes.
fn is_short_frame(frame: &Text) -> bool
    ensures { Decides result (length frame.now < 2 ^ 32) }
{
    frame.len() <= LONGEST_FRAME
}

/// Whether the length of each frame has four bytes, as that of a frame in a table has.
pub fn is_short(stack: &Stack) -> bool
    ensures { Decides result (AreShort stack.now) }
{
    let frames = stack.as_slice();
    for frame in frames {
        if !is_short_frame(frame) {
            return false;
        }
    }
    true
}

/// The frames that the bytes spell, none where one is no text in UTF-8.
fn frames_of(alloc: Global, bytes: &[u8]) -> Result<Option<Texts>, NoMemory>
    ensures frames { IfOk result (λ read. IfSome read (λ frames. frames ≡ frames_of bytes.now)) }
    ensures short { IfOk result (λ read. IfSome read AreShort) }
    ensures none { IfOk result (λ read. read ≡ None → All IsUtf8 (frames_of bytes.now) → ⊥) }
{
    let mut frames = Items::new(alloc);
    let mut rest = bytes;
    while rest.len() >= 4 {
        let (frame, behind) = first_frame(rest);
        let Ok(text) = str::from_utf8(frame) else {
            return Ok(None);
        };
        frames.push(Text::of(alloc, text)?)?;
        rest = behind;
    }
    Ok(Some(frames))
}

/// The stack that the bytes spell, none where a frame is no text in UTF-8.
pub fn read_stack(alloc: Global, bytes: &[u8]) -> Result<Option<Stack>, NoMemory>
    ensures frames { IfOk result (λ read. IfSome read (λ stack. stack ≡ frames_of bytes.now)) }
    ensures short { IfOk result (λ read. IfSome read AreShort) }
    ensures none { IfOk result (λ read. read ≡ None → All IsUtf8 (frames_of bytes.now) → ⊥) }
{
    match frames_of(alloc, bytes)? {
        Some(frames) => Ok(Some(Stack::of(frames)?)),
        None => Ok(None),
    }
}
