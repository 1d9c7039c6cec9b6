use crate::scripts::{ScriptWriter, Step};
use fd_device::{Put, Sink, StdSink};

fn writer_of(steps: &[Step]) -> ScriptWriter<'_> {
    ScriptWriter {
        steps,
        calls: 0,
        taken: 0,
        last: 0,
    }
}

#[test]
fn a_writer_of_one_byte_a_call_gets_the_whole_piece(rt: HostRuntime) {
    let steps = [Step::Byte, Step::Byte, Step::Byte, Step::Byte];
    let mut writer = writer_of(&steps);
    let mut sink = StdSink::new(&mut writer);
    assert!(rt; sink.write(b"abc") == Put::Done);
    assert!(rt; writer.taken == 3 && writer.last == b'c');
    assert!(rt; writer.calls == 3);
}

#[test]
fn an_interrupted_write_is_tried_again(rt: HostRuntime) {
    let steps = [Step::Interrupted, Step::Byte, Step::Interrupted, Step::Byte];
    let mut writer = writer_of(&steps);
    let mut sink = StdSink::new(&mut writer);
    assert!(rt; sink.write(b"ab") == Put::Done);
    assert!(rt; writer.taken == 2 && writer.last == b'b');
    assert!(rt; writer.calls == 4);
}

#[test]
fn an_error_ends_a_write_and_is_not_tried_again(rt: HostRuntime) {
    let steps = [Step::Byte, Step::Broken, Step::Byte, Step::Byte];
    let mut writer = writer_of(&steps);
    let mut sink = StdSink::new(&mut writer);
    assert!(rt; sink.write(b"ab") == Put::Failed);
    assert!(rt; writer.taken == 1 && writer.last == b'a');
    assert!(rt; writer.calls == 2);
}

#[test]
fn a_writer_that_takes_nothing_fails_a_write(rt: HostRuntime) {
    let steps = [Step::Byte, Step::Nothing, Step::Byte];
    let mut writer = writer_of(&steps);
    let mut sink = StdSink::new(&mut writer);
    assert!(rt; sink.write(b"ab") == Put::Failed);
    assert!(rt; writer.taken == 1);
    assert!(rt; writer.calls == 2);
}

#[test]
fn an_empty_piece_is_written_without_a_call(rt: HostRuntime) {
    let steps = [Step::Broken];
    let mut writer = writer_of(&steps);
    let mut sink = StdSink::new(&mut writer);
    assert!(rt; sink.write(b"") == Put::Done);
    assert!(rt; writer.calls == 0);
}
