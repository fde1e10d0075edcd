// An answer that is kept until it is whole.
use std::alloc::Global;
use std::io::{Result, Write};

/// An answer that is kept until it is whole. Where memory is refused for more of it, there is none.
#[derive(Drop)]
pub(crate) struct Kept {
    answer: Vec<u8>,
    is_whole: bool,
}

impl Kept {
    /// An empty answer.
    pub(crate) fn new(alloc: Global) -> Kept {
        Kept {
            answer: Vec::new(alloc),
            is_whole: true,
        }
    }

    /// What was written. `None` where memory was refused.
    pub(crate) fn answer(&self) -> Option<&[u8]> {
        if self.is_whole {
            Some(self.answer.as_slice())
        } else {
            None
        }
    }
}

impl Write for Kept {
    fn write(&mut self, buf: &[u8]) -> Result<usize> {
        if self.answer.write(buf).is_err() {
            self.is_whole = false;
        }
        Ok(buf.len())
    }

    fn flush(&mut self) -> Result<()> {
        Ok(())
    }
}
