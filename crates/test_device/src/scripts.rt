use std::io::{Error, ErrorKind, Read, Result, Write};

/// What one call of a reader or writer does.
#[derive(Clone, Copy)]
pub(crate) enum Step {
    /// It moves one byte, where there is one.
    Byte,
    /// It moves nothing, and says so.
    Nothing,
    Interrupted,
    Broken,
}

fn step_of(steps: &[Step], call: usize) -> Step {
    steps.get(call).copied().unwrap_or(Step::Nothing)
}

/// Gives the bytes 0, 1, .. by its steps, one a call at most, and then nothing.
#[derive(Drop)]
pub(crate) struct ScriptReader<'a> {
    pub steps: &'a [Step],
    pub calls: usize,
    pub given: u8,
}

impl Read for ScriptReader<'_> {
    fn read(&mut self, piece: &mut [u8]) -> Result<usize> {
        let step = step_of(self.steps, self.calls);
        self.calls = self.calls.saturating_add(1);
        match step {
            Step::Byte if !piece.is_empty() => {
                piece[0] = self.given;
                self.given = self.given.saturating_add(1);
                Ok(1)
            }
            Step::Byte | Step::Nothing => Ok(0),
            Step::Interrupted => Err(Error::from(ErrorKind::Interrupted)),
            Step::Broken => Err(Error::from(ErrorKind::BrokenPipe)),
        }
    }
}

/// Takes bytes by its steps, one a call at most, and then nothing. It keeps the last one and counts
/// them.
#[derive(Drop)]
pub(crate) struct ScriptWriter<'a> {
    pub steps: &'a [Step],
    pub calls: usize,
    pub taken: u8,
    pub last: u8,
}

impl Write for ScriptWriter<'_> {
    fn write(&mut self, piece: &[u8]) -> Result<usize> {
        let step = step_of(self.steps, self.calls);
        self.calls = self.calls.saturating_add(1);
        match step {
            Step::Byte if !piece.is_empty() => {
                self.last = piece[0];
                self.taken = self.taken.saturating_add(1);
                Ok(1)
            }
            Step::Byte | Step::Nothing => Ok(0),
            Step::Interrupted => Err(Error::from(ErrorKind::Interrupted)),
            Step::Broken => Err(Error::from(ErrorKind::BrokenPipe)),
        }
    }

    fn flush(&mut self) -> Result<()> {
        Ok(())
    }
}
