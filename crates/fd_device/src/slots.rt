ghost use Rattle.std.specs.Prelude.{◌≡◌, OnOk, OnErr, IfOk, IfSome, IfNone};
ghost use Rattle.fd_device.specs.Disks.{same_file};
ghost use Rattle.fd_device.specs.Slots.{IsPlace, IsAbsent, Grows};

use crate::{FileId, FileKind};
use fd_lists::NoMemory;

/// A file of a disk in memory, and what is held for it.
#[derive(Drop)]
pub(crate) struct Slot<T> {
    pub file: FileId,
    pub held: T,
}

/// Whether two files are one.
pub(crate) fn is_same(a: FileId, b: FileId) -> bool
    ensures { result ≡ same_file a b }
{
    let kinds = match (a.kind, b.kind) {
        (FileKind::Log, FileKind::Log) => true,
        (FileKind::Pages, FileKind::Pages) => true,
        (FileKind::Seal, FileKind::Seal) => true,
        _ => false,
    };
    kinds && a.block == b.block
}

/// The place of a file's slot.
pub(crate) fn find<T>(slots: &[Slot<T>], file: FileId) -> Option<usize>
    ensures some { IfSome result (λ i. IsPlace slots.now i file) }
    ensures none { IfNone result (IsAbsent slots.now file) }
{
    for (i, slot) in slots.iter().enumerate() {
        if is_same(file, slot.file) {
            return Some(i);
        }
    }
    None
}

/// The place of a file's slot, which is made where there is none.
pub(crate) fn place<T: Drop>(
    slots: &mut Vec<Slot<T>>,
    file: FileId,
    empty: T,
) -> Result<usize, NoMemory>
    ensures place { IfOk result (λ i. IsPlace slots.new.items i file) }
    ensures grown { OnOk result (Grows file empty slots.old.items slots.new.items) }
    ensures err { OnErr result (slots.new.items ≡ slots.old.items) }
{
    if let Some(i) = find(slots, file) {
        return Ok(i);
    }
    let i = slots.len();
    slots.push(Slot { file, held: empty })?;
    Ok(i)
}
