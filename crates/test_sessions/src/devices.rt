use fd_device::{PlainSink, Put, Sink, Source, StdSink, StdSource, Taken};
use std::test::Fail;

#[test]
fn a_reader_is_a_source(rt: HostRuntime) {
    let mut source = StdSource::new(b"abc".as_slice());
    let mut piece = [0u8; 2];
    assert!(rt; source.read(&mut piece) == Taken::Got(2) && piece == *b"ab");
    assert!(rt; source.read(&mut piece) == Taken::Got(1) && piece[0] == b'c');
    assert!(rt; source.read(&mut piece) == Taken::Got(0));
}

#[test]
fn a_writer_is_a_sink(rt: HostRuntime) {
    let mut bytes = Vec::new(rt.alloc());
    let mut sink = StdSink::new(&mut bytes);
    assert!(rt; sink.write(b"ab") == Put::Done);
    assert!(rt; sink.write(b"c") == Put::Done);
    assert!(rt; bytes.as_slice() == b"abc".as_slice());
}

#[test]
fn plain_memory_is_a_sink(rt: HostRuntime) -> Result<(), Fail> {
    let mut sink = PlainSink::new(rt.alloc())?;
    assert!(rt; sink.write(b"abc") == Put::Done);
    assert!(rt; sink.taken() == b"abc".as_slice() && sink.starved() == 0);
    Ok(())
}
