// A machine that counts its lines.
use std::alloc::Global;
use tdb_base::TxId;
use tdb_script::Reply;
use tdb_serve::{Answers, Stop};

/// Answers `bye` to `quit`, and the number of the line to any other, up to one that it stops at.
#[derive(Drop)]
pub struct Counter {
    pub lines: u32,
    pub passed_over: u32,
    pub stop_at: u32,
    pub stop: Stop,
}

impl Counter {
    /// One that stops so at the line of this number, counted from 1.
    pub fn new(stop_at: u32, stop: Stop) -> Counter {
        Counter {
            lines: 0,
            passed_over: 0,
            stop_at,
            stop,
        }
    }
}

impl Answers for Counter {
    ghost ready = { λ _. Unit {0} };

    ghost answered = { λ _ _ _ _. Unit {0} };

    ghost unanswered = { λ _ _ _ _. Unit {0} };

    fn answer(&mut self, _alloc: Global, line: &[u8]) -> Result<Reply, Stop> {
        self.lines = self.lines.saturating_add(1);
        if self.lines == self.stop_at {
            return Err(self.stop);
        }
        if line == b"quit".as_slice() {
            return Ok(Reply::Bye);
        }
        Ok(Reply::Begun(TxId(self.lines)))
    }

    fn pass_over(&mut self) -> Reply {
        self.passed_over = self.passed_over.saturating_add(1);
        Reply::RefusedUnbuilt
    }
}
