ghost use Rattle.fd_http.specs.Replies.{CanBeSent};

use fd_device::{Calls, MemSink};
use fd_http::{Method, Response, SendFault, reply};
use fd_kinds::{Bytes, NoMemory};
use std::alloc::Global;
use std::test::Fail;

/// A sink whose write of this number fails, none where it is 0.
fn sink(alloc: Global, failing: u64) -> Result<MemSink, NoMemory> {
    let mut calls = Calls::new(alloc);
    calls.push(failing)?;
    MemSink::new(alloc, calls)
}

/// Whether a sink takes these bytes of the reply, where the write of this number fails.
fn is_sent(alloc: Global, response: &Response, failing: u64, bytes: &[u8]) -> Result<bool, NoMemory>
    requires { CanBeSent response.now }
{
    let mut sink = sink(alloc, failing)?;
    let sent = match reply(alloc, &mut sink, response) {
        Ok(()) => failing == 0,
        Err(fault) => failing > 0 && fault == SendFault::WriteFault,
    };
    Ok(sent && sink.taken() == bytes)
}

const HEAD: &[u8] =
    b"HTTP/1.1 200 OK\r\nContent-Type: application/json\r\nContent-Length: 14\r\n\r\n";

const WHOLE: &[u8] =
    b"HTTP/1.1 200 OK\r\nContent-Type: application/json\r\nContent-Length: 14\r\n\r\n{\"number\":\"1\"}";

/// Whether the reply to a write is sent so.
fn is_number_sent(alloc: Global, failing: u64, bytes: &[u8]) -> Result<bool, NoMemory> {
    let response = Response::Made {
        status: 200,
        body: Bytes::from_slice(alloc, b"{\"number\":\"1\"}")?,
        close: false,
    };
    is_sent(alloc, &response, failing, bytes)
}

#[test]
fn a_reply_is_sent_up_to_the_write_that_fails(rt: HostRuntime) -> Result<(), Fail> {
    assert!(rt; is_number_sent(rt.alloc(), 0, WHOLE)?);
    assert!(rt; is_number_sent(rt.alloc(), 1, b"")?);
    assert!(rt; is_number_sent(rt.alloc(), 2, HEAD)?);
    Ok(())
}

/// Whether the last reply, to another method than POST, is sent so.
fn is_method_sent(alloc: Global, bytes: &[u8]) -> Result<bool, NoMemory> {
    let response = Response::BadMethod {
        allow: Method::Post,
        body: Bytes::from_slice(alloc, b"{\"error\":\"BadMethod\"}")?,
        close: true,
    };
    is_sent(alloc, &response, 0, bytes)
}

#[test]
fn a_refused_method_is_told_the_other(rt: HostRuntime) -> Result<(), Fail> {
    let bytes =
        b"HTTP/1.1 405 Method Not Allowed\r\nContent-Type: application/json\r\nContent-Length: 21\r\nAllow: POST\r\nConnection: close\r\n\r\n{\"error\":\"BadMethod\"}";
    assert!(rt; is_method_sent(rt.alloc(), bytes)?);
    Ok(())
}

#[test]
fn want_of_memory_has_its_reply(rt: HostRuntime) -> Result<(), Fail> {
    let short = Response::Short { close: false };
    let bytes =
        b"HTTP/1.1 503 Service Unavailable\r\nContent-Type: application/json\r\nContent-Length: 20\r\n\r\n{\"error\":\"NoMemory\"}";
    assert!(rt; is_sent(rt.alloc(), &short, 0, bytes)?);
    assert!(rt; is_sent(rt.alloc(), &short, 1, b"")?);
    Ok(())
}
