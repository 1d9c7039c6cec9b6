ghost use Rattle.std.specs.Prelude.{◌≡◌, IfOk};
ghost use Rattle.serde_json.specs.Written.{compact_text};
ghost use Rattle.fd_json.specs.Answers.{answer_json, stand_json, drawn_json};
ghost use Rattle.fd_json.specs.Rows.{row_json};

use crate::answers::{Drawn, write_answer};
use crate::writer::WritesJson;
use fd_kinds::{Answer, Bytes, Items, NoMemory, Numbered, Stand};
use json::Writer;
use std::alloc::Global;

/// The compact text of a value.
#[tactic(auto, using(crate::proofs::TokenSteps::printed))]
pub(crate) fn text_of<T: WritesJson>(alloc: Global, value: &T) -> Result<Bytes, NoMemory>
    ensures { IfOk result (λ text. text ≡ compact_text (T.json value.now)) }
{
    let mut out = Writer::new(Vec::new(alloc));
    value.write(&mut out)?;
    Ok(Items::from_vec(out.into_inner()))
}

/// The body of the reply to a query: the compact JSON text, as `serde_json` writes it, of the
/// answer and the watermark, the number of the last batch that the answer saw. Whole numbers are
/// texts of their digits.
#[tactic(auto, using(crate::proofs::TokenSteps::printed))]
pub fn answer_text(alloc: Global, answer: &Answer, watermark: u64) -> Result<Bytes, NoMemory>
    ensures { IfOk result (λ text. text ≡ compact_text (answer_json answer.now watermark)) }
{
    let mut out = Writer::new(Vec::new(alloc));
    write_answer(&mut out, answer, watermark)?;
    Ok(Items::from_vec(out.into_inner()))
}

/// The body of the reply to a question for the status, a compact JSON text.
pub fn stand_text(alloc: Global, stand: &Stand) -> Result<Bytes, NoMemory>
    ensures { IfOk result (λ text. text ≡ compact_text (stand_json stand.now)) }
{
    text_of(alloc, stand)
}

/// The body of the reply to a write, a compact JSON text: the number that its batch was given.
pub fn number_text(alloc: Global, n: u64) -> Result<Bytes, NoMemory>
    ensures { IfOk result (λ text. text ≡ compact_text (drawn_json n)) }
{
    text_of(alloc, &Drawn { number: n })
}

/// The line of a dump for a row, without its line end: the compact JSON text of the row and the
/// number of its batch, `_tx`. Whole numbers are texts of their digits, labels stand by rising
/// name, and of a stack the leaf stands first.
pub fn dump_text(alloc: Global, row: &Numbered) -> Result<Bytes, NoMemory>
    ensures { IfOk result (λ text. text ≡ compact_text (row_json row.now)) }
{
    text_of(alloc, row)
}
