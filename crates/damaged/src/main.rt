// Bad input for the readers, the writers and the frames, through the public calls: for each, the number of its refusal. An
// accepted call prints 0, and what it wrote as a sum over the buffer, so that a byte too many shows.
#![tactic(auto)]

use refusals::Refusal;
use run::Run;
use std::io;

fn number(rt: &impl Print, n: u64) -> io::Result<()> {
    print!(rt; "{n} ")
}

fn refusal(rt: &impl Print, refusal: Option<Refusal>) -> io::Result<()> {
    print!(rt; "{} ", refusals::number_in(refusal))
}

fn end_line(rt: &impl Print) -> io::Result<()> {
    println!(rt)
}

// A sum in which every byte of a buffer and its place count.
fn sum(b: &[u8]) -> u64 {
    let mut total: u64 = 0;
    for x in b {
        total = (total * 31 + u64::from(*x)) % 1000000007;
    }
    total
}

// The buffer with a 32-bit number put in at an offset.
fn with_number(b: [u8; 80], at: usize, n: u32) -> [u8; 80] {
    let mut d = b;
    if at < 76 {
        words::write_u32(&mut d, at, n);
    }
    d
}

// The 32-bit number at an offset.
fn number_in(b: [u8; 80], at: usize) -> u32 {
    if at < 76 { words::read_u32(&b, at) } else { 0 }
}

// The two readers of files.
#[derive(Clone, Copy)]
enum Reader {
    Image,
    Trace,
}

impl Reader {
    // What it refuses some bytes with.
    fn refusal(self, b: &[u8]) -> Option<Refusal> {
        match self {
            Reader::Image => Run::blank().restore(b).event.err(),
            Reader::Trace => trace::read(b).refusal,
        }
    }
}

// What a reader says of the first n bytes of b.
fn part(rt: &impl Print, b: [u8; 80], n: usize, reader: Reader) -> io::Result<()> {
    prefix(rt, &b, n, reader)
}

fn prefix(rt: &impl Print, b: &[u8], n: usize, reader: Reader) -> io::Result<()> {
    if n <= b.len() {
        refusal(rt, reader.refusal(&b[..n]))?;
    }
    Ok(())
}

// Each of the header's numbers one lower and one higher.
fn header_by_one(
    rt: &impl Print,
    b: [u8; 80],
    words: usize,
    n: usize,
    reader: Reader,
) -> io::Result<()> {
    for i in 0..words {
        if i < 20 {
            let x = number_in(b, 4 * i);
            if 0 < x {
                part(rt, with_number(b, 4 * i, x - 1), n, reader)?;
            }
            if x < 4294967295 {
                part(rt, with_number(b, 4 * i, x + 1), n, reader)?;
            }
        }
    }
    end_line(rt)
}

// N and k, at the offset, at 0, at both limits, past them and at 2^32 - 1.
fn size_at(
    rt: &impl Print,
    b: [u8; 80],
    at: usize,
    most: u32,
    n: usize,
    reader: Reader,
) -> io::Result<()> {
    part(rt, with_number(b, at, 0), n, reader)?;
    part(rt, with_number(b, at, 1), n, reader)?;
    part(rt, with_number(b, at, most), n, reader)?;
    if most < 4294967295 {
        part(rt, with_number(b, at, most + 1), n, reader)?;
    }
    part(rt, with_number(b, at, 4294967295), n, reader)
}

// Both sizes at their extremes, then every offset at 2^32 - 1.
fn extremes(
    rt: &impl Print,
    b: [u8; 80],
    words: usize,
    n: usize,
    reader: Reader,
) -> io::Result<()> {
    size_at(rt, b, 0, 1024, n, reader)?;
    size_at(rt, b, 4, 64, n, reader)?;
    for i in 3..words {
        if i < 20 {
            part(rt, with_number(b, 4 * i, 4294967295), n, reader)?;
        }
    }
    end_line(rt)
}

// Empty, under the header, one short, right, one long.
fn lengths(
    rt: &impl Print,
    b: [u8; 80],
    header: usize,
    n: usize,
    reader: Reader,
) -> io::Result<()> {
    part(rt, b, 0, reader)?;
    if 0 < header {
        part(rt, b, header - 1, reader)?;
    }
    part(rt, b, header, reader)?;
    if 0 < n {
        part(rt, b, n - 1, reader)?;
    }
    part(rt, b, n, reader)?;
    if n < 80 {
        part(rt, b, n + 1, reader)?;
    }
    end_line(rt)
}

fn with_byte(b: [u8; 80], at: usize, x: u8) -> [u8; 80] {
    let mut d = b;
    if at < 80 {
        d[at] = x;
    }
    d
}

// Marks and slots of trace A's start: pages 0 to 5 have the marks 131, 129, 0, 130, 0, 0, slots 0 to 2 the pages 1, 3, 0.
fn marks_and_slots(rt: &impl Print, b: [u8; 80]) -> io::Result<()> {
    // a mark with a layer above k; in layer 0; not cached; cached and in no slot
    part(rt, with_byte(b, 36, 132), 60, Reader::Image)?;
    part(rt, with_byte(b, 36, 128), 60, Reader::Image)?;
    part(rt, with_byte(b, 36, 3), 60, Reader::Image)?;
    part(rt, with_byte(b, 38, 128), 60, Reader::Image)?;
    // a slot named twice; of a page not below N; of another page; another priority
    part(rt, with_byte(b, 44, 1), 60, Reader::Image)?;
    part(rt, with_byte(b, 44, 6), 60, Reader::Image)?;
    part(rt, with_byte(b, 42, 2), 60, Reader::Image)?;
    part(rt, with_byte(b, 48, 11), 60, Reader::Image)?;
    // hits without served; best without misses; hits and misses whose sum in 32 bits would be served
    part(rt, with_number(b, 12, 1), 60, Reader::Image)?;
    part(rt, with_number(b, 20, 1), 60, Reader::Image)?;
    part(
        rt,
        with_number(with_number(b, 12, 4294967295), 16, 1),
        60,
        Reader::Image,
    )?;
    end_line(rt)
}

fn images(rt: &impl Print, run: Run) -> io::Result<()> {
    let mut b = [7u8; 80];
    let stored = run.store(&mut b);
    number(rt, stored.length as u64)?;
    refusal(rt, stored.refusal)?;
    number(rt, sum(&b))?;
    end_line(rt)?;
    lengths(rt, b, 36, 60, Reader::Image)?;
    header_by_one(rt, b, 9, 60, Reader::Image)?;
    extremes(rt, b, 9, 60, Reader::Image)?;
    marks_and_slots(rt, b)
}

// The image writer with a buffer one short, and of unsound runs.
fn store_refusals(rt: &impl Print, run: Run) -> io::Result<()> {
    let mut short = [7u8; 59];
    let stored = run.store(&mut short);
    number(rt, stored.length as u64)?;
    refusal(rt, stored.refusal)?;
    number(rt, sum(&short))?;
    let mut odd = run;
    let mut ranks = odd.ranks;
    ranks.priority[6] = 1;
    odd.ranks = ranks;
    let mut b = [7u8; 80];
    let unsound = odd.store(&mut b);
    refusal(rt, unsound.refusal)?;
    ranks.priority[6] = 0;
    odd.ranks = ranks;
    odd.held[3] = 5;
    let filled = odd.store(&mut b);
    refusal(rt, filled.refusal)?;
    odd.held[3] = 65535;
    odd.layer[1000] = 1;
    let placed = odd.store(&mut b);
    refusal(rt, placed.refusal)?;
    number(rt, sum(&b))?;
    end_line(rt)
}

fn written<'a>(
    rt: &impl Print,
    pages: usize,
    slots: usize,
    list: &'a [u16],
    priorities: &'a [u16],
    requests: &'a [u16],
) -> io::Result<()> {
    let mut b = [7u8; 80];
    let w = trace::write(pages, slots, list, priorities, requests, &mut b);
    number(rt, w.length as u64)?;
    refusal(rt, w.refusal)?;
    number(rt, sum(&b))
}

fn traces(rt: &impl Print) -> io::Result<()> {
    let list: [u16; 3] = [1, 3, 0];
    let priorities: [u16; 6] = [10, 40, 20, 30, 50, 5];
    let requests: [u16; 6] = [4, 0, 3, 4, 4, 5];
    let many = [0u16; 30001];
    written(rt, 6, 3, &list, &priorities, &requests)?;
    written(rt, 0, 3, &list, &priorities, &requests)?;
    written(rt, 6, 7, &list, &priorities, &requests)?;
    written(rt, 6, 2, &list, &priorities, &requests)?;
    written(rt, 6, 3, &list, &list, &requests)?;
    written(rt, 6, 3, &list, &priorities, &many)?;
    written(rt, 6, 3, &list, &priorities, &many[..20])?;
    end_line(rt)?;
    let mut b = [7u8; 80];
    let w = trace::write(6, 3, &list, &priorities, &requests, &mut b);
    refusal(rt, w.refusal)?;
    lengths(rt, b, 24, 54, Reader::Trace)?;
    header_by_one(rt, b, 6, 54, Reader::Trace)?;
    extremes(rt, b, 6, 54, Reader::Trace)?;
    part(rt, with_number(b, 8, 30001), 54, Reader::Trace)?;
    part(rt, with_number(b, 8, 4294967295), 54, Reader::Trace)?;
    part(rt, with_byte(b, 24, 6), 54, Reader::Trace)?;
    part(rt, with_byte(b, 24, 3), 54, Reader::Trace)?;
    part(rt, with_byte(b, 25, 255), 54, Reader::Trace)?;
    end_line(rt)
}

fn filled(rt: &impl Print, run: Run, page: usize, area: &mut [u8], bytes: &[u8]) -> io::Result<()> {
    refusal(rt, frames::fill(run, page, area, bytes).err())?;
    number(rt, sum(area))
}

fn frames_of(rt: &impl Print, run: Run) -> io::Result<()> {
    let page = [9u8; 65];
    let mut area = [1u8; 192];
    let mut short = [1u8; 191];
    let mut long = [1u8; 193];
    filled(rt, run, 3, &mut area, &page[..64])?;
    filled(rt, run, 6, &mut area, &page[..64])?;
    filled(rt, run, 3, &mut short, &page[..64])?;
    filled(rt, run, 3, &mut long, &page[..64])?;
    filled(rt, run, 3, &mut area, &page[..63])?;
    filled(rt, run, 3, &mut area, &page)?;
    filled(rt, run, 4, &mut area, &page[..64])?;
    filled(rt, Run::blank(), 3, &mut area, &page[..64])?;
    end_line(rt)
}

fn looked(rt: &impl Print, run: Run, page: usize, area: &[u8]) -> io::Result<()> {
    refusal(rt, frames::look_refusal(run, page, area).err())?;
    number(rt, sum(frames::look(run, page, area)))
}

fn looks(rt: &impl Print, run: Run) -> io::Result<()> {
    let page = [9u8; 64];
    let short = [1u8; 191];
    let mut area = [1u8; 192];
    filled(rt, run, 3, &mut area, &page)?;
    looked(rt, run, 3, &area)?;
    looked(rt, run, 1, &area)?;
    looked(rt, run, 4, &area)?;
    looked(rt, run, 6, &area)?;
    looked(rt, run, 3, &short)?;
    looked(rt, Run::blank(), 3, &area)?;
    end_line(rt)
}

fn main(rt: HostRuntime) -> io::Result<()> {
    let list: [u16; 3] = [1, 3, 0];
    let priorities: [u16; 6] = [10, 40, 20, 30, 50, 5];
    let begun = Run::start(6, 3, &list, &priorities);
    let run = begun.run;
    images(&rt, run)?;
    store_refusals(&rt, run)?;
    traces(&rt)?;
    frames_of(&rt, run)?;
    looks(&rt, run)
}
