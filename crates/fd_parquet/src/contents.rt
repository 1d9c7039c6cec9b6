ghost use Rattle.std.specs.Prelude.{◌≡◌, ◌<◌, ◌^◌, ◌++◌, ℕ, List, None, IfSome, All, Decides, length};
ghost use Rattle.fd_column.specs.Stacks.{frame_bytes};
ghost use Rattle.fd_table_file.specs.Columns.{IsText, IsStack, IsContent, HasText};

use fd_footer::Column;
use fd_pages::Cell;
use std::str;

/// Whether bytes are a text in UTF-8, which is not empty where it is a label's.
fn is_text(required: bool, bytes: &[u8]) -> bool
    ensures { Decides result (IsText required bytes.now) }
{
    (required || !bytes.is_empty()) && str::from_utf8(bytes).is_ok()
}

#[tactic(auto, using(crate::proofs::StackFrames::no_short_frame, crate::proofs::StackFrames::no_long_frame, crate::proofs::StackFrames::frame_there, crate::proofs::StackFrames::shorter_behind))]
/// The frame in front of the bytes, and the bytes behind it.
fn frame_in(bytes: &[u8]) -> Option<(&[u8], &[u8])>
    ensures found { IfSome result (λ r. bytes.now ≡ frame_bytes r.0.now ++ r.1.now) }
    ensures short { IfSome result (λ r. length r.0.now < 2 ^ 32) }
    ensures shorter { IfSome result (λ r. length r.1.now < length bytes.now) }
    ensures none { result ≡ None → (frame rest : List ℕ) → length frame < 2 ^ 32
        → bytes.now ≡ frame_bytes frame ++ rest → ⊥ }
{
    if bytes.len() < 4 {
        return None;
    }
    let (front, rest) = bytes.split_at(4);
    let length = u32::from_le_bytes([front[0], front[1], front[2], front[3]]) as usize;
    if length > rest.len() {
        return None;
    }
    Some(rest.split_at(length))
}

#[tactic(auto, using(crate::proofs::StackFrames::stack_none, crate::proofs::StackFrames::stack_more, crate::proofs::StackFrames::stack_less, crate::proofs::StackFrames::stack_begun))]
/// Whether bytes are frames of text, each behind its length.
fn is_stack(bytes: &[u8]) -> bool
    ensures { Decides result (IsStack bytes.now) }
{
    let mut rest = bytes;
    while !rest.is_empty() {
        let Some((frame, behind)) = frame_in(rest) else {
            return false;
        };
        if str::from_utf8(frame).is_err() {
            return false;
        }
        rest = behind;
    }
    true
}

/// Whether bytes are those of a stack, or of a text.
pub(crate) fn is_content(stack: bool, required: bool, bytes: &[u8]) -> bool
    ensures { Decides result (IsContent stack required bytes.now) }
{
    if stack {
        is_stack(bytes)
    } else {
        is_text(required, bytes)
    }
}

/// Whether the bytes of a cell are those of a text or of a stack, by its column.
fn has_text(column: &Column, cell: &Cell) -> bool
    ensures { Decides result (HasText column.now cell.now) }
{
    match cell {
        Cell::Absent => true,
        Cell::Whole(_) => true,
        Cell::Bytes(bytes) => {
            let stack = column.name.as_bytes() == b"stack".as_slice();
            is_content(stack, column.required, bytes.as_slice())
        }
    }
}

/// Whether the bytes of each cell are those of a text or of a stack.
pub(crate) fn have_texts(column: &Column, cells: &[Cell]) -> bool
    ensures { Decides result (All (HasText column.now) cells.now) }
{
    for cell in cells {
        if !has_text(column, cell) {
            return false;
        }
    }
    true
}
