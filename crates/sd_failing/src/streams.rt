// Where a client's bytes come from and go to. Both tell no content.
ghost use Rattle.std.specs.Prelude.{None};

use crate::trouble::{Call, Trouble};
use sd_base::{Sink, SinkFailed, Source, SourceFailed};

/// A source of bytes that gives a few at a time.
#[derive(Drop)]
pub struct PieceSource {
    pub bytes: Vec<u8>,
    pub at: usize,
    /// The most bytes that a take gives.
    pub most: usize,
    pub trouble: Trouble,
    pub calls: u64,
    pub faults: u64,
}

impl Source for PieceSource {
    ghost left = { λ _. None };

    ghost faults = { λ s. s.faults };

    fn take(&mut self, buf: &mut [u8]) -> Result<usize, SourceFailed> {
        self.calls = self.calls.saturating_add(1);
        if self.trouble.fails(Call::Take, self.calls) {
            self.faults = self.faults.saturating_add(1);
            return Err(SourceFailed);
        }
        let at = self.at.min(self.bytes.len());
        let rest = &self.bytes[at..];
        let count = buf.len().min(rest.len()).min(self.most);
        buf[..count].copy_from_slice(&rest[..count]);
        self.at = at + count;
        Ok(count)
    }
}

/// A sink that takes a few bytes at a time.
#[derive(Drop)]
pub struct PieceSink {
    pub bytes: Vec<u8>,
    /// The most bytes that a put takes.
    pub most: usize,
    pub trouble: Trouble,
    pub calls: u64,
    pub faults: u64,
}

impl Sink for PieceSink {
    ghost held = { λ _. None };

    ghost faults = { λ s. s.faults };

    fn put(&mut self, bytes: &[u8]) -> Result<usize, SinkFailed> {
        self.calls = self.calls.saturating_add(1);
        let count = bytes.len().min(self.most.max(1));
        if self.trouble.fails(Call::Put, self.calls)
            || self.bytes.extend_from_slice(&bytes[..count]).is_err()
        {
            self.faults = self.faults.saturating_add(1);
            return Err(SinkFailed);
        }
        Ok(count)
    }
}
