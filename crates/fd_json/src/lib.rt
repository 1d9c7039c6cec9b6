//! The JSON of write bodies, answers, refusals and rows (RFC 8259).
#![tactic(auto)]

mod answers;
mod body;
mod fault;
mod refusal;
mod refusal_text;
mod rows;
mod shape;
mod texts;
mod writer;

pub use body::read_body;
pub use fault::BodyFault;
pub use refusal::{Fault, Parameter};
pub use refusal_text::fault_text;
pub use shape::base64_law;
pub use texts::{answer_text, dump_text, number_text, stand_text};
