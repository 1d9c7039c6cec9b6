use fd_device::{Calls, MemSink, MemSource};
use fd_kinds::{NoMemory, Texts};
use fd_local::run;
use fixtures::{MERGE, WRITE, joined, texts};
use std::alloc::Global;
use std::test::Fail;

/// What a case shows, the words, the pieces of the input, the read and the write that fail (0 for
/// none), and what comes of it.
#[derive(Clone, Copy)]
struct Case {
    shows: &'static str,
    word: Option<&'static str>,
    first: &'static [u8],
    second: &'static [u8],
    third: &'static [u8],
    failing_read: u64,
    failing_write: u64,
    status: u8,
    output: &'static [u8],
    line: &'static [u8],
}

/// A session over nothing.
const SESSION: Case = Case {
    shows: "",
    word: Some("session"),
    first: b"",
    second: b"",
    third: b"",
    failing_read: 0,
    failing_write: 0,
    status: 0,
    output: b"",
    line: b"",
};

pub(crate) fn words_of(alloc: Global, word: Option<&str>) -> Result<Texts, NoMemory> {
    match word {
        Some(word) => texts(alloc, &[word]),
        None => texts(alloc, &[]),
    }
}

fn calls(alloc: Global, number: u64) -> Result<Calls, NoMemory> {
    let mut calls = Calls::new(alloc);
    calls.push(number)?;
    Ok(calls)
}

fn source_of(alloc: Global, case: &Case) -> Result<MemSource, NoMemory> {
    let bytes = joined(alloc, &[case.first, case.second, case.third])?;
    MemSource::new(bytes, calls(alloc, case.failing_read)?)
}

pub(crate) fn sink_of(alloc: Global, failing: u64) -> Result<MemSink, NoMemory> {
    MemSink::new(alloc, calls(alloc, failing)?)
}

fn comes_out(alloc: Global, case: &Case) -> Result<bool, NoMemory> {
    let words = words_of(alloc, case.word)?;
    let mut input = source_of(alloc, case)?;
    let mut out = sink_of(alloc, case.failing_write)?;
    let mut err = sink_of(alloc, 0)?;
    let status = run(alloc, &words, &mut input, &mut out, &mut err);
    Ok(status == case.status && out.taken() == case.output && err.taken() == case.line)
}

/// The reply to an unknown path that ends a session.
const CLOSED: &[u8] =
    b"HTTP/1.1 404 Not Found\r\nContent-Type: application/json\r\nContent-Length: 19\r\nConnection: close\r\n\r\n{\"error\":\"NoRoute\"}";

/// Sessions whose requests are all answered.
const ANSWERED: [Case; 6] = [
    Case {
        shows: "two writes are summed",
        first: WRITE,
        second: WRITE,
        third: MERGE,
        output: b"HTTP/1.1 200 OK\r\nContent-Type: application/json\r\nContent-Length: 14\r\n\r\n{\"number\":\"1\"}HTTP/1.1 200 OK\r\nContent-Type: application/json\r\nContent-Length: 14\r\n\r\n{\"number\":\"2\"}HTTP/1.1 200 OK\r\nContent-Type: application/json\r\nContent-Length: 114\r\n\r\n{\"stacks\":[{\"frames\":[\"main\"],\"value\":\"20\"},{\"frames\":[\"work\",\"main\"],\"value\":\"40\"}],\"total\":\"60\",\"watermark\":\"2\"}",
        ..SESSION
    },
    Case {
        shows: "series and labels are listed",
        first: WRITE,
        second: b"POST /profiles/writeraw HTTP/1.1\r\nHost: a\r\nContent-Length: 298\r\n\r\n{\"series\":[{\"labels\":{\"labels\":[{\"name\":\"__name__\",\"value\":\"process_cpu\"},{\"name\":\"job\",\"value\":\"api\"},{\"name\":\"env\",\"value\":\"dev\"}]},\"samples\":[{\"rawProfile\":\"CgQIARACEgQIARAKEgYIAggBEBQiBggBIgIIASIGCAIiAggCKgQIARADKgQIAhAEMgAyA2NwdTILbmFub3NlY29uZHMyBG1haW4yBHdvcmtIgJTr3ANaBAgBEAJggK3iBA==\"}]}]}",
        third: b"GET /profiles/series HTTP/1.1\r\n\r\nGET /profiles/labels HTTP/1.1\r\n\r\nGET /profiles/labels/env/values HTTP/1.1\r\n\r\nGET /profiles/labels/env/values?query=process_cpu:cpu:nanoseconds:cpu:nanoseconds%7Benv%3D%22%22%7D HTTP/1.1\r\n\r\n",
        output: b"HTTP/1.1 200 OK\r\nContent-Type: application/json\r\nContent-Length: 14\r\n\r\n{\"number\":\"1\"}HTTP/1.1 200 OK\r\nContent-Type: application/json\r\nContent-Length: 14\r\n\r\n{\"number\":\"2\"}HTTP/1.1 200 OK\r\nContent-Type: application/json\r\nContent-Length: 183\r\n\r\n{\"series\":[{\"labels\":[{\"name\":\"job\",\"value\":\"api\"}],\"name\":\"process_cpu\"},{\"labels\":[{\"name\":\"env\",\"value\":\"dev\"},{\"name\":\"job\",\"value\":\"api\"}],\"name\":\"process_cpu\"}],\"watermark\":\"2\"}HTTP/1.1 200 OK\r\nContent-Type: application/json\r\nContent-Length: 44\r\n\r\n{\"labelNames\":[\"env\",\"job\"],\"watermark\":\"2\"}HTTP/1.1 200 OK\r\nContent-Type: application/json\r\nContent-Length: 39\r\n\r\n{\"labelValues\":[\"dev\"],\"watermark\":\"2\"}HTTP/1.1 200 OK\r\nContent-Type: application/json\r\nContent-Length: 34\r\n\r\n{\"labelValues\":[],\"watermark\":\"2\"}",
        ..SESSION
    },
    Case {
        shows: "types and ranges are answered",
        first: WRITE,
        third: b"GET /profiles/types HTTP/1.1\r\n\r\nGET /profiles/query_range?query=process_cpu:cpu:nanoseconds:cpu:nanoseconds HTTP/1.1\r\n\r\nGET /profiles/types?start=1001 HTTP/1.1\r\n\r\nGET /profiles/types?after=9 HTTP/1.1\r\n\r\nGET /profiles/labels/a.b/values HTTP/1.1\r\n\r\n",
        output: b"HTTP/1.1 200 OK\r\nContent-Type: application/json\r\nContent-Length: 14\r\n\r\n{\"number\":\"1\"}HTTP/1.1 200 OK\r\nContent-Type: application/json\r\nContent-Length: 156\r\n\r\n{\"types\":[{\"delta\":false,\"name\":\"process_cpu\",\"periodType\":\"cpu\",\"periodUnit\":\"nanoseconds\",\"sampleType\":\"cpu\",\"sampleUnit\":\"nanoseconds\"}],\"watermark\":\"1\"}HTTP/1.1 200 OK\r\nContent-Type: application/json\r\nContent-Length: 129\r\n\r\n{\"series\":[{\"labelset\":{\"labels\":[{\"name\":\"job\",\"value\":\"api\"}]},\"samples\":[{\"timestamp\":\"1000\",\"value\":\"30\"}]}],\"watermark\":\"1\"}HTTP/1.1 200 OK\r\nContent-Type: application/json\r\nContent-Length: 28\r\n\r\n{\"types\":[],\"watermark\":\"1\"}HTTP/1.1 409 Conflict\r\nContent-Type: application/json\r\nContent-Length: 32\r\n\r\n{\"drawn\":\"1\",\"error\":\"NotDrawn\"}HTTP/1.1 404 Not Found\r\nContent-Type: application/json\r\nContent-Length: 19\r\n\r\n{\"error\":\"NoRoute\"}",
        ..SESSION
    },
    Case {
        shows: "merges are filtered",
        first: WRITE,
        third: b"GET /profiles/query?query=process_cpu:cpu:nanoseconds:cpu:nanoseconds%7Bjob%21%3D%22web%22%2C%7D&start=1000&end=1000 HTTP/1.1\r\n\r\nGET /profiles/query?query=process_cpu:cpu:nanoseconds:cpu:nanoseconds%7Bjob%3D%22web%22%7D HTTP/1.1\r\n\r\nGET /profiles/query?query=process_cpu:cpu:nanoseconds:cpu:nanoseconds&start=1970-01-01T00:00:01Z HTTP/1.1\r\n\r\nGET /profiles/query?query=process_cpu:cpu:nanoseconds:cpu:nanoseconds&start=1001 HTTP/1.1\r\n\r\n",
        output: b"HTTP/1.1 200 OK\r\nContent-Type: application/json\r\nContent-Length: 14\r\n\r\n{\"number\":\"1\"}HTTP/1.1 200 OK\r\nContent-Type: application/json\r\nContent-Length: 114\r\n\r\n{\"stacks\":[{\"frames\":[\"main\"],\"value\":\"10\"},{\"frames\":[\"work\",\"main\"],\"value\":\"20\"}],\"total\":\"30\",\"watermark\":\"1\"}HTTP/1.1 200 OK\r\nContent-Type: application/json\r\nContent-Length: 41\r\n\r\n{\"stacks\":[],\"total\":\"0\",\"watermark\":\"1\"}HTTP/1.1 200 OK\r\nContent-Type: application/json\r\nContent-Length: 114\r\n\r\n{\"stacks\":[{\"frames\":[\"main\"],\"value\":\"10\"},{\"frames\":[\"work\",\"main\"],\"value\":\"20\"}],\"total\":\"30\",\"watermark\":\"1\"}HTTP/1.1 200 OK\r\nContent-Type: application/json\r\nContent-Length: 41\r\n\r\n{\"stacks\":[],\"total\":\"0\",\"watermark\":\"1\"}",
        ..SESSION
    },
    Case {
        shows: "an empty store is asked",
        first: MERGE,
        second: b"GET /store/status HTTP/1.1\r\n\r\n",
        output: b"HTTP/1.1 200 OK\r\nContent-Type: application/json\r\nContent-Length: 41\r\n\r\n{\"stacks\":[],\"total\":\"0\",\"watermark\":\"0\"}HTTP/1.1 200 OK\r\nContent-Type: application/json\r\nContent-Length: 42\r\n\r\n{\"drawn\":\"0\",\"synced\":\"0\",\"watermark\":\"0\"}",
        ..SESSION
    },
    Case {
        shows: "nothing is asked",
        ..SESSION
    },
];

#[test]
fn what_is_asked_is_answered(rt: HostRuntime) -> Result<(), Fail> {
    for case in ANSWERED {
        assert!(rt; comes_out(rt.alloc(), &case)?, "{}", case.shows);
    }
    Ok(())
}

/// Sessions by how they end.
const ENDED: [Case; 9] = [
    Case {
        shows: "a misspelled word",
        word: Some("sesion"),
        first: MERGE,
        status: 1,
        line: b"frostd: bad words\n",
        ..SESSION
    },
    Case {
        shows: "no words",
        word: None,
        first: MERGE,
        status: 1,
        line: b"frostd: bad words\n",
        ..SESSION
    },
    Case {
        shows: "the first read fails",
        first: MERGE,
        failing_read: 1,
        status: 3,
        line: b"frostd: read fault\n",
        ..SESSION
    },
    Case {
        shows: "the first write fails",
        first: WRITE,
        second: MERGE,
        failing_write: 1,
        status: 4,
        line: b"frostd: write fault\n",
        ..SESSION
    },
    Case {
        shows: "a reply is written before more is read",
        first: b"GET /store/status HTTP/1.1\r\n\r\n",
        second: b"GET /x HTTP/1.1\r\n\r\n",
        failing_read: 2,
        status: 3,
        output: b"HTTP/1.1 200 OK\r\nContent-Type: application/json\r\nContent-Length: 42\r\n\r\n{\"drawn\":\"0\",\"synced\":\"0\",\"watermark\":\"0\"}HTTP/1.1 404 Not Found\r\nContent-Type: application/json\r\nContent-Length: 19\r\n\r\n{\"error\":\"NoRoute\"}",
        line: b"frostd: read fault\n",
        ..SESSION
    },
    Case {
        shows: "the input is cut in a body",
        first: WRITE,
        second: b"POST /profiles/writeraw HTTP/1.1\r\nHost: a\r\nContent-Length: 269\r\n\r\n{\"series\":[{\"labels\":{\"labels\":[{\"name\":\"__name__\",\"value\":\"process_cpu\"},{\"name\":\"job\",\"value\":\"api",
        status: 2,
        output: b"HTTP/1.1 200 OK\r\nContent-Type: application/json\r\nContent-Length: 14\r\n\r\n{\"number\":\"1\"}",
        line: b"frostd: input refused: Cut\n",
        ..SESSION
    },
    Case {
        shows: "a request that closes is the last",
        first: b"GET /x HTTP/1.1\r\nConnection: close\r\n\r\n",
        second: b"GET /y HTTP/1.1\r\n\r\n",
        output: CLOSED,
        ..SESSION
    },
    Case {
        shows: "a request of HTTP 1.0 is the last",
        first: b"GET /x HTTP/1.0\r\n\r\n",
        second: b"GET /y HTTP/1.1\r\n\r\n",
        output: CLOSED,
        ..SESSION
    },
    Case {
        shows: "a head that is none is refused",
        first: b"GET / HTTP/2.0\r\n\r\n",
        status: 2,
        output: b"HTTP/1.1 400 Bad Request\r\nContent-Type: application/json\r\nContent-Length: 19\r\nConnection: close\r\n\r\n{\"error\":\"BadHead\"}",
        line: b"frostd: input refused: BadHead\n",
        ..SESSION
    },
];

#[test]
fn sessions_end_as_they_must(rt: HostRuntime) -> Result<(), Fail> {
    for case in ENDED {
        assert!(rt; comes_out(rt.alloc(), &case)?, "{}", case.shows);
    }
    Ok(())
}

/// Sessions with requests that are refused.
const REFUSED: [Case; 3] = [
    Case {
        shows: "requests are refused and the session goes on",
        first: b"GET /x HTTP/1.1\r\n\r\nGET /profiles/writeraw HTTP/1.1\r\n\r\nPOST /profiles/writeraw HTTP/1.1\r\nContent-Length: 112\r\n\r\n{\"series\":[{\"labels\":{\"labels\":[{\"name\":\"__name__\",\"value\":\"process_cpu\"}]},\"samples\":[{\"rawProfile\":\"H4s=\"}]}]}GET /store/status HTTP/1.1\r\n\r\nPOST /x HTTP/1.1\r\n\r\n",
        status: 2,
        output: b"HTTP/1.1 404 Not Found\r\nContent-Type: application/json\r\nContent-Length: 19\r\n\r\n{\"error\":\"NoRoute\"}HTTP/1.1 405 Method Not Allowed\r\nContent-Type: application/json\r\nContent-Length: 21\r\nAllow: POST\r\n\r\n{\"error\":\"BadMethod\"}HTTP/1.1 422 Unprocessable Content\r\nContent-Type: application/json\r\nContent-Length: 48\r\n\r\n{\"error\":\"Compressed\",\"sample\":\"0\",\"series\":\"0\"}HTTP/1.1 200 OK\r\nContent-Type: application/json\r\nContent-Length: 42\r\n\r\n{\"drawn\":\"0\",\"synced\":\"0\",\"watermark\":\"0\"}HTTP/1.1 411 Length Required\r\nContent-Type: application/json\r\nContent-Length: 20\r\nConnection: close\r\n\r\n{\"error\":\"NoLength\"}",
        line: b"frostd: input refused: NoLength\n",
        ..SESSION
    },
    Case {
        shows: "queries are refused",
        first: b"GET /profiles/query?query=process_cpu:cpu:nanoseconds:cpu HTTP/1.1\r\n\r\nGET /profiles/query?query=process_cpu:cpu:nanoseconds:cpu:nanoseconds%7Bjob=api%7D HTTP/1.1\r\n\r\nGET /profiles/query?query=process_cpu:cpu:nanoseconds:cpu:nanoseconds&start=x HTTP/1.1\r\n\r\nGET /profiles/query?query=process_cpu:cpu:nanoseconds:cpu:nanoseconds&after=-1 HTTP/1.1\r\n\r\nGET /profiles/query HTTP/1.1\r\n\r\nGET /profiles/query?query=process_cpu:cpu:nanoseconds:cpu:nanoseconds&after=9 HTTP/1.1\r\n\r\n",
        output: b"HTTP/1.1 400 Bad Request\r\nContent-Type: application/json\r\nContent-Length: 19\r\n\r\n{\"error\":\"BadType\"}HTTP/1.1 400 Bad Request\r\nContent-Type: application/json\r\nContent-Length: 32\r\n\r\n{\"at\":\"48\",\"error\":\"BadMatcher\"}HTTP/1.1 400 Bad Request\r\nContent-Type: application/json\r\nContent-Length: 39\r\n\r\n{\"error\":\"BadTime\",\"parameter\":\"start\"}HTTP/1.1 400 Bad Request\r\nContent-Type: application/json\r\nContent-Length: 20\r\n\r\n{\"error\":\"BadAfter\"}HTTP/1.1 400 Bad Request\r\nContent-Type: application/json\r\nContent-Length: 19\r\n\r\n{\"error\":\"NoQuery\"}HTTP/1.1 409 Conflict\r\nContent-Type: application/json\r\nContent-Length: 32\r\n\r\n{\"drawn\":\"0\",\"error\":\"NotDrawn\"}",
        ..SESSION
    },
    Case {
        shows: "a query is asked by get",
        first: b"POST /profiles/query HTTP/1.1\r\nContent-Length: 0\r\n\r\n",
        output: b"HTTP/1.1 405 Method Not Allowed\r\nContent-Type: application/json\r\nContent-Length: 21\r\nAllow: GET\r\n\r\n{\"error\":\"BadMethod\"}",
        ..SESSION
    },
];

#[test]
fn what_is_refused_is_told(rt: HostRuntime) -> Result<(), Fail> {
    for case in REFUSED {
        assert!(rt; comes_out(rt.alloc(), &case)?, "{}", case.shows);
    }
    Ok(())
}
