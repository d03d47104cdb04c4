//! Rows of streams, and what is told of them.

use crate::stream_driven::{Sample, driven};
use std::alloc::{AllocError, Global};

/// The rows so far: the stream that was named last.
#[derive(Drop)]
pub struct Streams {
    sample: Option<Sample>,
}

impl Streams {
    pub fn new() -> Streams {
        Streams { sample: None }
    }

    /// What is told of a row that names a stream or feeds it.
    pub fn told(&mut self, alloc: Global, row: &str) -> Result<String, AllocError> {
        let (kind, rest) = row.split_once(' ').unwrap_or((row, ""));
        match kind {
            "stream" => {
                self.sample = Sample::of(alloc, rest)?;
                format!(in alloc; "stream {}\n", self.sample.is_some())
            }
            "cut" => {
                let size = rest.parse::<usize>().unwrap_or(0);
                self.run(alloc, row, size, None)
            }
            _ => {
                let (place, mask) = rest.split_once(' ').unwrap_or((rest, "0"));
                let place = place.parse::<usize>().unwrap_or(0);
                let mask = mask.parse::<u8>().unwrap_or(0);
                self.run(alloc, row, 0, Some((place, mask)))
            }
        }
    }

    fn run(
        &self,
        alloc: Global,
        row: &str,
        size: usize,
        change: Option<(usize, u8)>,
    ) -> Result<String, AllocError> {
        let Some(sample) = &self.sample else {
            return format!(in alloc; "{row}: no stream\n");
        };
        let told = driven(alloc, sample, size, change)?;
        format!(in alloc; "{row}\n{told}")
    }
}
