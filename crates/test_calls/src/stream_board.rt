//! Streams that fail or end, the messages of faults, and seeds.

use crate::escapes::put_quoted;
use crate::hindrance::Hindered;
use crate::lines::{AnswerWriter, Answers, CallFault, meaning_of, put_answers, split_at_space};
use crate::reading::read_whole;
use std::alloc::{AllocError, Global};
use std::hash::BuildHasher;
use std::io;
use std::io::ErrorKind;
use std::random::RandomSource;
use units_io::{
    Failed, FetchFault, HashSeed, MemSink, Sink, Source, StdSink, StdSource, StoreFault, put_all,
};

// A call, without its argument.
#[derive(Clone, Copy)]
enum Call {
    // `interrupted` and `broken`: three takes and three puts on streams of the system whose second call has this error.
    Hindered(ErrorKind),
    // `ends`: takes of five bytes into a buffer of four, each with the byte that is first in the buffer afterwards.
    Ends,
    // `full`: puts of two bytes into a room of three.
    Full,
    // `put N`: puts on a sink in memory whose call N fails, with what was written.
    Put,
    // `messages`: the messages of faults.
    Messages,
    // `seeds`: whether the hash of a number with each seed is the one with the fixed seed.
    Seeds,
}

// The words of calls.
const WORDS: &[(&[u8], Call)] = &[
    (b"interrupted", Call::Hindered(ErrorKind::Interrupted)),
    (b"broken", Call::Hindered(ErrorKind::BrokenPipe)),
    (b"ends", Call::Ends),
    (b"full", Call::Full),
    (b"put", Call::Put),
    (b"messages", Call::Messages),
    (b"seeds", Call::Seeds),
];

// A source of random bytes.
#[derive(Drop)]
struct Board<R> {
    random: R,
}

// Returns the answers to calls.
pub(crate) fn stream_answers<R: RandomSource + Drop>(
    alloc: Global,
    random: R,
    lines: &[u8],
) -> Result<Vec<u8>, AllocError> {
    let mut out = AnswerWriter::new(alloc);
    put_answers(alloc, &mut Board { random }, lines, &mut out);
    out.into_text()
}

impl<R: RandomSource + Drop> Answers for Board<R> {
    fn put_answer(
        &mut self,
        alloc: Global,
        line: &[u8],
        out: &mut AnswerWriter,
    ) -> Result<(), CallFault> {
        let (word, argument) = split_at_space(line);
        match meaning_of(WORDS, word) {
            Some(Call::Hindered(error)) => put_hindered(error, out),
            Some(Call::Ends) => put_ends(out),
            Some(Call::Full) => put_full(out),
            Some(Call::Put) => put_up_to_failure(alloc, read_whole(argument)?, out)?,
            Some(Call::Messages) => put_messages(alloc, out),
            Some(Call::Seeds) => put_seeds(&self.random, out),
            None => return Err(CallFault::BadCall),
        }
        Ok(())
    }
}

// Appends the ends of three takes and of three puts whose second call to the system has an error.
fn put_hindered(error: ErrorKind, out: &mut AnswerWriter) {
    let mut source = StdSource::new(Hindered::new(error));
    let mut buf = [0u8; 4];
    out.put(b"take");
    for _ in 0..3u8 {
        put_end(source.take(&mut buf), out);
    }
    let mut sink = StdSink::new(Hindered::new(error));
    out.put(b", put");
    for _ in 0..3u8 {
        put_end(sink.put(b"ab"), out);
    }
    out.put(b"\n");
}

// Appends the ends of takes up to the end, each with the byte that is first in the buffer afterwards.
fn put_ends(out: &mut AnswerWriter) {
    let mut source = StdSource::new(b"abcde".as_slice());
    let mut buf = [0u8; 4];
    out.put(b"take");
    for _ in 0..4u8 {
        put_end(source.take(&mut buf), out);
        out.put(b" ");
        out.put(&buf[..1]);
    }
    out.put(b"\n");
}

// Appends the ends of puts until there is no room.
fn put_full(out: &mut AnswerWriter) {
    let mut room = [0u8; 3];
    let mut sink = StdSink::new(room.as_mut_slice());
    out.put(b"put");
    for _ in 0..4u8 {
        put_end(sink.put(b"ab"), out);
    }
    out.put(b"\n");
}

// Appends how a call ended: with a number of bytes, or with a failure.
fn put_end(end: Result<usize, Failed>, out: &mut AnswerWriter) {
    out.put(b" ");
    match end {
        Ok(len) => out.put_number(len),
        Err(Failed) => out.put(b"failed"),
    }
}

// Puts a text on a sink in memory with a call that fails. Appends whether all was put, and what was written.
fn put_up_to_failure(
    alloc: Global,
    failing: u64,
    out: &mut AnswerWriter,
) -> Result<(), AllocError> {
    let mut sink = MemSink::new(alloc, 100, 8, &[failing])?;
    match put_all(&mut sink, b"one two three four") {
        Ok(()) => out.put(b"ok "),
        Err(Failed) => out.put(b"failed "),
    }
    put_quoted(sink.written(), out);
    out.put(b"\n");
    Ok(())
}

// Appends the messages of faults, each in a line.
fn put_messages(alloc: Global, out: &mut AnswerWriter) {
    put_message(alloc, &FetchFault::Absent, out);
    put_message(alloc, &FetchFault::TooLong, out);
    put_message(alloc, &FetchFault::Failed, out);
    put_message(alloc, &FetchFault::OutOfMemory, out);
    put_message(alloc, &StoreFault::Failed, out);
    put_message(alloc, &StoreFault::OutOfMemory, out);
    put_message(alloc, &Failed, out);
}

// Appends the message of a fault.
fn put_message<F: ToString>(alloc: Global, fault: &F, out: &mut AnswerWriter) {
    match fault.to_string(alloc) {
        Ok(message) => out.put_line(message.as_bytes()),
        Err(AllocError) => out.leave_out(),
    }
}

// A system without random bytes.
struct NoRandom;

impl RandomSource for NoRandom {
    fn fill_bytes(&self, _buf: &mut [u8]) -> io::Result<()> {
        Err(ErrorKind::Unsupported.into())
    }
}

// Appends whether a hash with each seed is the one with the fixed seed.
fn put_seeds<R: RandomSource>(random: &R, out: &mut AnswerWriter) {
    out.put(b"fixed ");
    put_comparison(HashSeed::fixed_seed(), out);
    out.put(b", no random bytes ");
    put_comparison(HashSeed::random(&NoRandom), out);
    out.put(b", random bytes ");
    put_comparison(HashSeed::random(random), out);
    out.put(b"\n");
}

// Appends whether the hash of a number with a seed is the one with the fixed seed.
fn put_comparison(seed: HashSeed, out: &mut AnswerWriter) {
    if seed.hash_one(7u8) == HashSeed::fixed_seed().hash_one(7u8) {
        out.put(b"equal");
    } else {
        out.put(b"different");
    }
}
