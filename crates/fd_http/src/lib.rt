//! Requests and replies of HTTP/1.1: a request is read from a source of bytes, and a reply is
//! written to a sink. Bodies are counted by Content-Length; chunked bodies are refused.
//!
//! ```text
//! request   METHOD target HTTP/1.1 CRLF      the front: at most 16,384 bytes and 64 headers
//!           name: value CRLF ..
//!           CRLF
//!           body                             as many bytes as Content-Length says
//! reply     HTTP/1.1 status reason CRLF
//!           Content-Type: application/json CRLF
//!           Content-Length: n CRLF
//!           Allow: METHOD CRLF               with status 405 alone
//!           Connection: close CRLF           with the last reply alone
//!           CRLF
//!           body                             n bytes of JSON
//! ```
#![tactic(auto)]

mod front;
mod head;
mod headers;
mod inbox;
mod intake;
mod laws;
pub mod limits;
mod replies;
mod request;

pub use inbox::Inbox;
pub use intake::next_request;
pub use laws::split_laws;
pub use replies::{Method, Response, SendFault, reply};
pub use request::{Arrived, Request, RequestFault};
