//! What a run of the program finds outside of it.

use std::alloc::{AllocError, Global};
use units_io::{MemFiles, MemSink, MemSource, Vars};

// What a run finds: the files by name, the input after some blanks, the number of bytes that the source returns at a
// time, the room of each sink, and the calls that fail.
#[derive(Drop)]
pub(crate) struct Setup {
    pub(crate) files: Vars,
    pub(crate) input: Vec<u8>,
    pub(crate) blanks: usize,
    pub(crate) piece: usize,
    pub(crate) room: usize,
    pub(crate) failures: Failures,
}

// The calls of each kind that fail, by their numbers from 1.
#[derive(Drop)]
pub(crate) struct Failures {
    pub(crate) fetches: Vec<u64>,
    pub(crate) takes: Vec<u64>,
    pub(crate) stores: Vec<u64>,
    pub(crate) out_puts: Vec<u64>,
    pub(crate) err_puts: Vec<u64>,
}

// The streams and the files of a run.
#[derive(Drop)]
pub(crate) struct Outside {
    pub(crate) source: MemSource,
    pub(crate) out: MemSink,
    pub(crate) err: MemSink,
    pub(crate) files: MemFiles,
}

impl Setup {
    // Returns a setup without files, input and failures.
    pub(crate) fn new(alloc: Global) -> Setup {
        Setup {
            files: Vars::new(alloc),
            input: Vec::new(alloc),
            blanks: 0,
            piece: 4,
            room: 1000,
            failures: Failures::none(alloc),
        }
    }

    // Returns the streams and the files for a run.
    pub(crate) fn open(&self, alloc: Global) -> Result<Outside, AllocError> {
        let source = self.open_source(alloc)?;
        let out = open_sink(alloc, self.room, &self.failures.out_puts)?;
        let err = open_sink(alloc, self.room, &self.failures.err_puts)?;
        let files = self.open_files(alloc)?;
        Ok(Outside {
            source,
            out,
            err,
            files,
        })
    }

    // Returns a source of the input.
    fn open_source(&self, alloc: Global) -> Result<MemSource, AllocError> {
        let mut input = vec![in alloc; b' '; self.blanks]?;
        input.extend_from_slice(&self.input)?;
        MemSource::new(alloc, &input, self.piece.max(1), &self.failures.takes)
    }

    // Returns a copy of the files.
    fn open_files(&self, alloc: Global) -> Result<MemFiles, AllocError> {
        let mut files = MemFiles::new(alloc, &self.failures.fetches)?;
        files.fail_stores(alloc, &self.failures.stores)?;
        for i in 0..self.files.len() {
            if let Some((name, text)) = self.files.get(i) {
                files.add(alloc, name, text.as_bytes())?;
            }
        }
        Ok(files)
    }
}

// Returns an empty sink that accepts 8 bytes at a time.
fn open_sink(alloc: Global, room: usize, failing_puts: &[u64]) -> Result<MemSink, AllocError> {
    MemSink::new(alloc, room, 8, failing_puts)
}

impl Failures {
    // Returns lists in which no call fails.
    fn none(alloc: Global) -> Failures {
        Failures {
            fetches: Vec::new(alloc),
            takes: Vec::new(alloc),
            stores: Vec::new(alloc),
            out_puts: Vec::new(alloc),
            err_puts: Vec::new(alloc),
        }
    }
}
