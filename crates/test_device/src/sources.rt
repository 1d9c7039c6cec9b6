use crate::scripts::{ScriptReader, Step};
use fd_device::{Source, StdSource, Taken};

fn reader_of(steps: &[Step]) -> ScriptReader<'_> {
    ScriptReader {
        steps,
        calls: 0,
        given: 7,
    }
}

#[test]
fn an_error_is_a_failure_and_is_not_tried_again(rt: HostRuntime) {
    let steps = [Step::Broken, Step::Byte];
    let mut reader = reader_of(&steps);
    let mut piece = [9u8; 4];
    let mut source = StdSource::new(&mut reader);
    assert!(rt; source.read(&mut piece) == Taken::Failed);
    assert!(rt; piece[0] == 9);
    assert!(rt; reader.calls == 1);
}

#[test]
fn an_interrupted_read_is_tried_again(rt: HostRuntime) {
    let steps = [Step::Interrupted, Step::Interrupted, Step::Byte];
    let mut reader = reader_of(&steps);
    let mut piece = [9u8; 4];
    let mut source = StdSource::new(&mut reader);
    assert!(rt; source.read(&mut piece) == Taken::Got(1));
    assert!(rt; piece[0] == 7 && piece[1] == 9);
    assert!(rt; reader.calls == 3);
}

#[test]
fn a_read_behind_a_failure_goes_on(rt: HostRuntime) {
    let steps = [Step::Byte, Step::Broken, Step::Byte, Step::Nothing];
    let mut reader = reader_of(&steps);
    let mut piece = [9u8; 4];
    let mut source = StdSource::new(&mut reader);
    assert!(rt; source.read(&mut piece) == Taken::Got(1) && piece[0] == 7);
    assert!(rt; source.read(&mut piece) == Taken::Failed);
    assert!(rt; source.read(&mut piece) == Taken::Got(1) && piece[0] == 8);
    assert!(rt; source.read(&mut piece) == Taken::Got(0));
    assert!(rt; reader.calls == 4);
}
