// Answers the questions on standard input, one to a line, each with one line on standard output. Assumes nothing of what it
// reads. A read that fails ends the input, and is then the program's error; a write that fails ends the program.
#![tactic(auto)]

ghost use Rattle.std.specs.Prelude.{◌≡◌, length};

use std::io;
use std::io::{Read, Write};

// A longer line is answered `bad line`.
const LONGEST: usize = 262144;

// One byte more than the longest line.
const LINE: usize = LONGEST + 1;

// Room for the longest answer, which repeats a buffer of the line behind two numbers.
const ROOM: usize = 263000;

// Room for the longest answer behind many others.
const OUT: usize = 600000;

// How much is read at once.
const PIECE: usize = 65536;

// How much is kept in buffers of fixed size (nothing allocates): bytes of the line that has begun, and bytes of answers.
#[derive(Clone, Copy)]
struct Kept {
    held: usize,
    at: usize,
}

// Writes the answers out where little room is left behind them, and answers how many bytes of them are kept.
fn spare<W: Write>(writer: &mut W, out: &[u8], at: usize) -> io::Result<usize> {
    if at < out.len() && ROOM <= out.len() - at {
        return Ok(at);
    }
    writer.write_all(fields::first(out, at))?;
    Ok(0)
}

// Answers the line of which some bytes are held. One byte more than the longest line stands for any longer one.
fn answer_held<W: Write>(
    writer: &mut W,
    line: &[u8],
    held: usize,
    out: &mut [u8],
    at: usize,
) -> io::Result<usize> {
    let end = if LONGEST < held {
        answers::bad(out, at)
    } else {
        kinds::answer(fields::first(line, held), out, at)
    };
    let next = fields::write_word(out, end, b"\n");
    spare(writer, out, next)
}

// Puts a part of a line behind what is held of it, as far as the buffer goes, and answers how much is held.
fn hold(line: &mut [u8], held: usize, part: &[u8]) -> usize {
    let Some(room) = line.get_mut(held..) else {
        return held;
    };
    let n = room.len().min(part.len());
    room[..n].copy_from_slice(&part[..n]);
    held + n
}

// Answers the lines that end in a piece of the input, and holds the one that begins there.
fn take<W: Write>(
    writer: &mut W,
    piece: &[u8],
    mut kept: Kept,
    line: &mut [u8],
    out: &mut [u8],
) -> io::Result<Kept> {
    for part in piece.split_inclusive(|c| *c == b'\n') {
        match part.strip_suffix(b"\n") {
            Some(end) => {
                let held = hold(line, kept.held, end);
                let at = answer_held(writer, line, held, out, kept.at)?;
                kept = Kept { held: 0, at };
            }
            None => kept.held = hold(line, kept.held, part),
        }
    }
    Ok(kept)
}

// Answers a last line that has no end, and writes out what answers are kept.
fn finish<W: Write>(writer: &mut W, kept: Kept, line: &[u8], out: &mut [u8]) -> io::Result<()> {
    let end = match kept.held {
        0 => kept.at,
        held => answer_held(writer, line, held, out, kept.at)?,
    };
    writer.write_all(fields::first(out, end))
}

// Answers every line. Nothing says that an input ends, so its pieces are counted, up to a number that none has.
fn answer_all<R: Read, W: Write>(
    reader: &mut R,
    writer: &mut W,
    piece: &mut [u8],
    line: &mut [u8],
    out: &mut [u8],
) -> io::Result<()> {
    let mut kept = Kept { held: 0, at: 0 };
    for _ in 0..u64::MAX {
        match reader.read(piece) {
            Ok(0) => break,
            Ok(n) => kept = take(writer, fields::first(piece, n), kept, line, out)?,
            Err(e) => {
                finish(writer, kept, line, out)?;
                return Err(e);
            }
        }
    }
    finish(writer, kept, line, out)
}

// A buffer of zeros; as a function, so that its length comes by a law and not by counting.
fn zeros<const N: usize>() -> [u8; N]
    ensures { N ≡ length result }
{
    [0; N]
}

fn main(rt: HostRuntime) -> io::Result<()> {
    let mut reader = rt.stdin();
    let mut writer = rt.stdout();
    let mut piece = zeros::<PIECE>();
    let mut line = zeros::<LINE>();
    let mut out = zeros::<OUT>();
    answer_all(&mut reader, &mut writer, &mut piece, &mut line, &mut out)
}
