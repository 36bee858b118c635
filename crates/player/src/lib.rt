// What the trace program prints: the whole answer of a trace file, written into a lent buffer. Assumes nothing.
#![tactic(auto)]

ghost use Rattle.std.specs.Prelude.{◌≡◌, ◌+◌, ◌≤◌, length, replicate};
ghost use Rattle.run.specs.Sound.{Sound};
ghost use Rattle.paging.specs.Sets.{◌≤?◌};
ghost use Rattle.player.specs.Answer.{lines, answer_bytes, answer_length, answered};
ghost use Rattle.text.specs.Told.{told_length, told_room, told_bytes};
ghost use Rattle.trace.specs.Reading.{asked};

use run::Run;
use text::{Measured, Telling, Written};

// A buffer of this size has room for every answer.
pub const ROOM: usize = 3000208;

// A buffer with room for every answer. The second promise is what lending the array as a slice needs.
pub fn buffer() -> [u8; 3000208]
    ensures bytes { result ≡ replicate 3000208 0 }
    ensures size { 3000208 ≡ length result }
{
    [0; 3000208]
}

// Tells the lines of requests and the last line at an offset, and answers the offset behind them.
fn tell_lines<'a, T: Telling>(
    file: &'a [u8],
    offset: usize,
    requests: usize,
    start: Run,
    out: &'a mut [u8],
    at: usize,
) -> usize
    requires { Sound start × (at + told_length T.told (lines start (asked file.now offset requests)) ≤ told_room T.told T.written (length out.old)) }
    ensures offset { result ≡ at + told_length T.told (lines start (asked file.now offset requests)) }
    ensures text { out.new ≡ told_bytes T.told T.written out.old at (lines start (asked file.now offset requests)) }
{
    let played = replay::play::<T>(file, offset, requests, start, out, at);
    let counts = played.counts;
    text::tell_last_line::<T>(
        out,
        played.next,
        u64::from(counts.served),
        u64::from(counts.hits),
        u64::from(counts.misses),
        u64::from(counts.best),
    )
}

// Tells the answer of a file at the start of a buffer, and answers the offset behind it.
fn tell_answer<'a, T: Telling>(file: &'a [u8], out: &'a mut [u8]) -> usize
    requires { 0 + told_length T.told (answer_bytes file.now) ≤ told_room T.told T.written (length out.old) }
    ensures offset { result ≡ 0 + told_length T.told (answer_bytes file.now) }
    ensures text { out.new ≡ told_bytes T.told T.written out.old 0 (answer_bytes file.now) }
{
    let traced = trace::read(file);
    if let Some(refusal) = traced.refusal {
        return text::tell_refused::<T>(out, 0, u64::from(refusal.number()));
    }
    let run = traced.run;
    let requests = traced.requests;
    let next = text::tell_first_line::<T>(
        out,
        0,
        run.pages as u64,
        run.slots as u64,
        requests as u64,
    );
    tell_lines::<T>(file, traced.offset, requests, run, out, next)
}

// How long the answer of a file is, by playing its requests with nothing written.
fn size_of_answer(file: &[u8]) -> usize
    ensures { result ≡ length (answer_bytes file.now) }
{
    let mut none = [0; 1];
    tell_answer::<Measured>(file, &mut none)
}

// Whether the answer of a file fits in so many bytes. It is measured only where they are too few for the longest answer.
fn fits(file: &[u8], room: usize) -> bool
    ensures { result ≡ (length (answer_bytes file.now) ≤? room) }
{
    ROOM <= room || size_of_answer(file) <= room
}

// Writes the answer of a trace file to the start of a buffer and answers its length: 0, and nothing written, where it does not fit.
pub fn answer(file: &[u8], out: &mut [u8]) -> usize
    ensures offset { result ≡ answer_length file.now out.old }
    ensures text { out.new ≡ answered file.now out.old }
{
    if !fits(file, out.len()) {
        return 0;
    }
    tell_answer::<Written>(file, out)
}
