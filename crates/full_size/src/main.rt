// Plays at full size through the public calls and prints what comes of it: the limits, a trace of 30,000 requests at
// N = 1024 and k = 64, the last requests of a run, trace A, and the calls on an unsound run.
#![tactic(auto)]

use refusals::{Refusal, number_in};
use run::{Run, Served};
use serve::Event;
use std::io;

// `hit` page, slot, best; `swap` page, slot, victim, best; `refused` page, number.
fn line(rt: &impl Print, page: u64, served: Served) -> io::Result<()> {
    let best = served.best;
    let event = served.event;
    match event {
        Event::Hit { slot } => println!(rt; "hit {page} {slot} {best}"),
        Event::Miss { slot, victim } => println!(rt; "swap {page} {slot} {victim} {best}"),
        Event::Refused(refusal) => println!(rt; "refused {page} {}", refusal.number()),
    }
}

fn counts(rt: &impl Print, run: Run) -> io::Result<()> {
    let served = run.counts.served;
    let hits = run.counts.hits;
    let misses = run.counts.misses;
    let best = run.counts.best;
    println!(rt; "served {served} hits {hits} misses {misses} best {best}")
}

// A number that looks random, below 2^31.
fn shaken(x: u64) -> u64 {
    (x % 2147483648 * 1103515245 + 12345) % 2147483648
}

// 64 pages from one on.
fn pages_from(first: u8) -> [u16; 64] {
    let mut list = [0u16; 64];
    for i in 0..64u16 {
        list[usize::from(i)] = i + u16::from(first);
    }
    list
}

// 30,000 requests, three of four of them to 96 pages, and some of pages that there are not.
fn long_trace(run: Run) -> Run {
    let mut r = run;
    let mut x: u64 = 1;
    for _ in 0..30000u16 {
        x = shaken(x);
        let wide = x / 4096 % 1040;
        let near = x / 65536 % 96;
        let page = if x / 1024 % 4 == 0 { wide } else { near };
        let served = r.request(page as usize);
        r = served.run;
    }
    r
}

// The last request that a run may serve, and one more.
fn last_requests(rt: &impl Print, run: Run) -> io::Result<()> {
    let mut r = run;
    let mut late = r.counts;
    late.served = 999999;
    late.hits = 999999;
    r.counts = late;
    let one = r.request(4);
    line(rt, 4, one)?;
    let two = one.run.request(0);
    line(rt, 0, two)?;
    counts(rt, two.run)
}

fn trace_a(rt: &impl Print) -> io::Result<()> {
    let list: [u16; 3] = [1, 3, 0];
    let priorities: [u16; 6] = [10, 40, 20, 30, 50, 5];
    let begun = Run::start(6, 3, &list, &priorities);
    let a = begun.run.request(4);
    line(rt, 4, a)?;
    let b = a.run.request(0);
    line(rt, 0, b)?;
    let c = b.run.request(3);
    line(rt, 3, c)?;
    let d = c.run.request(4);
    line(rt, 4, d)?;
    let e = d.run.request(4);
    line(rt, 4, e)?;
    line(rt, 6, e.run.trial(6))?;
    let f = e.run.request(5);
    line(rt, 5, f)?;
    counts(rt, f.run)?;
    last_requests(rt, begun.run)
}

// The number of a refusal, and a space.
fn told(rt: &impl Print, refusal: Option<Refusal>) -> io::Result<()> {
    print!(rt; "{} ", number_in(refusal))
}

fn start_refusal(rt: &impl Print, pages: usize, slots: usize, list: &[u16]) -> io::Result<()> {
    let begun = Run::start_default(pages, slots, list);
    told(rt, begun.refusal)
}

// The refusals of starts, and of calls on the blank run.
fn refusals(rt: &impl Print, list: &[u16]) -> io::Result<()> {
    start_refusal(rt, 1025, 64, list)?;
    start_refusal(rt, 1024, 65, list)?;
    start_refusal(rt, 1024, 63, list)?;
    let past = pages_from(1);
    start_refusal(rt, 64, 64, &past)?;
    let same = [7u16; 64];
    start_refusal(rt, 1024, 64, &same)?;
    start_refusal(rt, 64, 64, list)?;
    let begun = Run::start(1024, 64, list, list);
    told(rt, begun.refusal)?;
    let layer = Run::blank().layer(0);
    told(rt, layer.refusal)?;
    let set = Run::blank().selection();
    told(rt, set.refusal)?;
    println!(rt)
}

fn main(rt: HostRuntime) -> io::Result<()> {
    let list = pages_from(0);
    let begun = Run::start_default(1024, 64, &list);
    println!(rt; "{}", number_in(begun.refusal))?;
    let run = long_trace(begun.run);
    counts(&rt, run)?;
    refusals(&rt, &list)?;
    trace_a(&rt)
}
