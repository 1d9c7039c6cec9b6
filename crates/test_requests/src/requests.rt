use fd_device::{Calls, MemSource, PlainSource};
use fd_http::{Arrived, Inbox, Request, RequestFault, next_request};
use fd_kinds::{Bytes, NoMemory};
use fixtures::{BODY, MERGE, WRITE, WRITE_HEAD, joined, repeated};
use std::alloc::Global;
use std::test::Fail;

fn is_write(request: &Request) -> bool {
    request.method.as_slice() == b"POST".as_slice()
        && request.target.as_str() == "/profiles/writeraw"
        && request.body.as_slice() == BODY
        && !request.encoded
        && !request.close
}

fn is_merge(request: &Request) -> bool {
    request.method.as_slice() == b"GET".as_slice()
        && request.target.as_str()
            == "/profiles/query?query=process_cpu:cpu:nanoseconds:cpu:nanoseconds"
        && request.body.as_slice().is_empty()
}

/// Whether the next request is such a one.
fn next_is(alloc: Global, source: &mut PlainSource, inbox: &mut Inbox, write: bool) -> bool {
    match next_request(alloc, source, inbox) {
        Ok(Arrived::One(request)) => {
            if write {
                is_write(&request)
            } else {
                is_merge(&request)
            }
        }
        _ => false,
    }
}

fn ends(alloc: Global, source: &mut PlainSource, inbox: &mut Inbox) -> bool {
    matches!(next_request(alloc, source, inbox), Ok(Arrived::End))
}

#[test]
fn a_write_and_a_merge_in_order(rt: HostRuntime) -> Result<(), Fail> {
    let alloc = rt.alloc();
    let mut source = PlainSource::new(joined(alloc, &[WRITE, MERGE])?)?;
    let mut inbox = Inbox::new(alloc)?;
    assert!(rt; next_is(alloc, &mut source, &mut inbox, true));
    assert!(rt; next_is(alloc, &mut source, &mut inbox, false));
    assert!(rt; ends(alloc, &mut source, &mut inbox));
    Ok(())
}

fn calls(alloc: Global, number: u64) -> Result<Calls, NoMemory> {
    let mut calls = Calls::new(alloc);
    calls.push(number)?;
    Ok(calls)
}

/// The refusal of the first request over these bytes, where the read of this number fails.
fn refusal_of(alloc: Global, bytes: Bytes, failing: u64) -> Result<Option<RequestFault>, NoMemory> {
    let mut source = MemSource::new(bytes, calls(alloc, failing)?)?;
    let mut inbox = Inbox::new(alloc)?;
    Ok(next_request(alloc, &mut source, &mut inbox).err())
}

/// The same where no read fails.
fn refusal(alloc: Global, pieces: &[&[u8]]) -> Result<Option<RequestFault>, NoMemory> {
    refusal_of(alloc, joined(alloc, pieces)?, 0)
}

const REFUSED: [(&[u8], RequestFault); 12] = [
    (b"POST / HTTP/1.1\r\n\r\n", RequestFault::NoLength),
    (b"GET\0\r\n\r\n", RequestFault::BadHead),
    (b"GET\0", RequestFault::Cut),
    (b"\r\n\r\n", RequestFault::Cut),
    (b"GET / HTTP/1.1\r\nHost: a\r\n", RequestFault::Cut),
    (b"GET / HTTP/2.0\r\n\r\n", RequestFault::BadHead),
    (b"GET /\xff HTTP/1.1\r\n\r\n", RequestFault::BadHead),
    (
        b"GET / HTTP/1.1\nContent-Length: 1\ncontent-length: 1\n\nx",
        RequestFault::BadHead,
    ),
    (
        b"GET / HTTP/1.1\r\nContent-Length: +1\r\n\r\nx",
        RequestFault::BadHead,
    ),
    (
        b"GET / HTTP/1.1\r\nContent-Length: 00000000000000000001\r\n\r\nx",
        RequestFault::BadHead,
    ),
    (
        b"GET / HTTP/1.1\r\nContent-Length: 16777217\r\nTransfer-Encoding: chunked\r\n\r\n",
        RequestFault::NoLength,
    ),
    (
        b"POST / HTTP/1.1\r\nContent-Length: 16777217\r\n\r\n",
        RequestFault::TooLarge,
    ),
];

#[test]
fn other_inputs_are_refused(rt: HostRuntime) -> Result<(), Fail> {
    for (bytes, fault) in REFUSED {
        assert!(rt; refusal(rt.alloc(), &[bytes])? == Some(fault), "{fault:?}");
    }
    Ok(())
}

#[test]
fn a_body_that_is_cut_is_refused(rt: HostRuntime) -> Result<(), Fail> {
    let refused = refusal(rt.alloc(), &[WRITE_HEAD, b"{\"series\":"])?;
    assert!(rt; refused == Some(RequestFault::Cut));
    Ok(())
}

/// The refusal of a request with this value of a header, and what stands behind it.
fn refusal_of_value(
    alloc: Global,
    value: &[u8],
    behind: &[u8],
) -> Result<Option<RequestFault>, NoMemory> {
    refusal(alloc, &[b"GET / HTTP/1.1\r\nA: ", value, behind])
}

const ENDS: [(&[u8], Option<RequestFault>); 3] = [
    (b"\r\n\r\n", None),
    (b"a\r\n\r\n", Some(RequestFault::BadHead)),
    (b"aaa", Some(RequestFault::Cut)),
];

#[test]
fn a_head_has_at_most_16384_bytes(rt: HostRuntime) -> Result<(), Fail> {
    let value = repeated(rt.alloc(), b"a", 16361)?;
    for (behind, fault) in ENDS {
        assert!(rt;
            refusal_of_value(rt.alloc(), value.as_slice(), behind)? == fault,
            "{fault:?}"
        );
    }
    Ok(())
}

/// The first request over these bytes, none where it is refused.
fn first_of(alloc: Global, bytes: Bytes) -> Result<Option<Request>, NoMemory> {
    let mut source = PlainSource::new(bytes)?;
    let mut inbox = Inbox::new(alloc)?;
    Ok(match next_request(alloc, &mut source, &mut inbox) {
        Ok(Arrived::One(request)) => Some(request),
        _ => None,
    })
}

/// Whether the first request over the head and the body has this body.
fn has_body(alloc: Global, head: &[u8], body: &[u8]) -> Result<bool, NoMemory> {
    Ok(match first_of(alloc, joined(alloc, &[head, body])?)? {
        Some(request) => request.body.as_slice() == body,
        None => false,
    })
}

#[test]
fn the_longest_body_is_read(rt: HostRuntime) -> Result<(), Fail> {
    let body = vec![in rt.alloc(); b'z'; 16_777_216]?;
    let head = b"POST / HTTP/1.1\r\nContent-Length: 16777216\r\n\r\n";
    assert!(rt; has_body(rt.alloc(), head, body.as_slice())?);
    Ok(())
}

/// Whether the request is encoded, and whether it closes.
fn flags_of(alloc: Global, bytes: &[u8]) -> Result<Option<(bool, bool)>, NoMemory> {
    Ok(match first_of(alloc, Bytes::from_slice(alloc, bytes)?)? {
        Some(request) => Some((request.encoded, request.close)),
        None => None,
    })
}

const FLAGS: [(&[u8], (bool, bool)); 5] = [
    (b"GET / HTTP/1.1\r\n\r\n", (false, false)),
    (b"GET / HTTP/1.0\r\n\r\n", (false, true)),
    (
        b"GET / HTTP/1.1\r\nconnection: Close\r\n\r\n",
        (false, true),
    ),
    (
        b"GET / HTTP/1.1\r\nContent-Encoding: gzip\r\n\r\n",
        (true, false),
    ),
    (
        b"GET / HTTP/1.1\r\nCONTENT-ENCODING: identity\r\nConnection: keep-alive\r\n\r\n",
        (false, false),
    ),
];

#[test]
fn encodings_and_closing_are_told(rt: HostRuntime) -> Result<(), Fail> {
    for (bytes, flags) in FLAGS {
        assert!(rt; flags_of(rt.alloc(), bytes)? == Some(flags), "{flags:?}");
    }
    Ok(())
}

/// The refusal of a head and 5,000 bytes behind it, where the read of this number fails.
fn failed(alloc: Global, head: &[u8], failing: u64) -> Result<Option<RequestFault>, NoMemory> {
    let body = repeated(alloc, b"zzzzz", 1000)?;
    refusal_of(alloc, joined(alloc, &[head, body.as_slice()])?, failing)
}

#[test]
fn a_source_that_fails_is_told(rt: HostRuntime) -> Result<(), Fail> {
    let head = b"POST / HTTP/1.1\r\nContent-Length: 5000\r\n\r\n";
    let large = b"POST / HTTP/1.1\r\nContent-Length: 16777217\r\n\r\n";
    assert!(rt; failed(rt.alloc(), head, 1)? == Some(RequestFault::ReadFault));
    assert!(rt; failed(rt.alloc(), head, 2)? == Some(RequestFault::ReadFault));
    assert!(rt; failed(rt.alloc(), large, 2)? == Some(RequestFault::TooLarge));
    Ok(())
}

/// How many requests the source has, up to 2,000.
fn count_of(alloc: Global, source: &mut PlainSource) -> Result<u32, NoMemory> {
    let mut inbox = Inbox::new(alloc)?;
    for count in 0..2000 {
        if ends(alloc, source, &mut inbox) {
            return Ok(count);
        }
    }
    Ok(2000)
}

#[test]
fn many_requests_come_in_few_pieces(rt: HostRuntime) -> Result<(), Fail> {
    let alloc = rt.alloc();
    let mut source = PlainSource::new(repeated(alloc, b"GET / HTTP/1.1\r\n\r\n", 1000)?)?;
    assert!(rt; count_of(alloc, &mut source)? == 1000);
    Ok(())
}
