// A replay: requests of a sound run, one after the other, over arrays that are changed in place, and told as they come. No turn tests
// soundness or copies the run. Tables are of fixed size, as in the crates `layers` and `slots`. Assumes nothing.
#![tactic(auto)]

ghost use Rattle.std.specs.Prelude.{◌≡◌, ℕ, ◌+◌, ◌≤◌, ◌<◌, length, slice_index_or};
ghost use Rattle.ranking.specs.Key.{Narrow, key_at, page_keys};
ghost use Rattle.slots.specs.Slots.{no_page, keys_of};
ghost use Rattle.run.specs.Sound.{Sound};
ghost use Rattle.run.specs.Request.{requested};
ghost use Rattle.run.specs.History.{run_after};
ghost use Rattle.trace.specs.Reading.{asked};
ghost use Rattle.text.specs.Told.{told_length, told_room, told_bytes};
ghost use Rattle.replay.specs.Replay.{state, outcome, Seated};
ghost use Rattle.replay.specs.Told.{event_lines};

use counts::{Counts, Turn};
use ranking::Key;
use run::Run;
use serve::Event;
use text::{Telling, Untold};

// What requests come to: the offset behind what is told of them, and the counts after them.
#[derive(Clone, Copy)]
pub struct Played {
    pub next: usize,
    pub counts: Counts,
}

// By slots, the key of the page in each, and that the priorities are as narrow as keys ask. Kept beside `slots::by_slot`: it makes k
// keys, where that one reads from a table of all.
fn seat_keys<'a>(priority: &'a [u16; 1024], held: &'a [u16; 64], slots: usize) -> [Key; 64]
    requires { (slots ≤ 64) × ((s : ℕ) → s < slots → slice_index_or held.now s no_page < 1024) }
    ensures table { result ≡ keys_of (key_at (page_keys priority.now)) held.now slots }
    ensures narrow { 0 < slots → Narrow priority.now }
{
    // Slices know their length, and that their entries are 16 bits wide.
    let numbers: &[u16] = priority;
    let entries: &[u16] = held;
    let mut keys: [Key; 64] = [0; 64];
    for s in 0..slots {
        let page = entries[s];
        keys[s] = ranking::key(numbers[page as usize], page);
    }
    keys
}

// One request of a page, any 16-bit number. Its tables stay parameters: as a struct with this as its method, which proves too, a sound
// step of a calm trace took 1.07 of its time.
fn ask<'a>(
    layer: &'a mut [u8; 1024],
    priority: &'a [u16; 1024],
    held: &'a mut [u16; 64],
    near: &'a mut [u8; 64],
    keys: &'a mut [Key; 64],
    pages: usize,
    slots: u8,
    page: u16,
    counts: Counts,
) -> Turn
    requires sound { Sound (state pages slots counts layer.old priority.now held.old) × (length layer.old ≡ 1024) × (length held.old ≡ 64) }
    requires nears { Seated slots layer.old priority.now held.old near.old keys.old }
    ensures answer { outcome pages slots result layer.new priority.now held.new ≡ requested (state pages slots counts layer.old priority.now held.old) page }
    ensures nears { Seated slots layer.new priority.now held.new near.new keys.new }
{
    let p = page as usize;
    let tested = counts::refusal(pages, counts.served, p, Run::MAX_SERVED);
    if let Err(refusal) = tested {
        return Turn {
            event: Event::Refused(refusal),
            best: 0,
            counts,
        };
    }
    let new = counts::new_page(layer[p]);
    let key = ranking::key(priority[p], page);
    let event = serve::step(layer, held, near, keys, pages, slots, page, key);
    counts::counted(counts, event, new)
}

// Plays the requests that begin at an offset of a file. Where they are told, the offset `at` moves by the length of their lines;
// where what is told is written, the lines stand in the buffer. The way of telling is a type, so that the compiler makes a loop of each.
pub fn play<'a, T: Telling>(
    file: &'a [u8],
    offset: usize,
    requests: usize,
    start: Run,
    out: &'a mut [u8],
    at: usize,
) -> Played
    requires { Sound start × (at + told_length T.told (event_lines start (asked file.now offset requests)) ≤ told_room T.told T.written (length out.old)) }
    ensures counts { result.counts ≡ (run_after start (asked file.now offset requests)).counts }
    ensures offset { result.next ≡ at + told_length T.told (event_lines start (asked file.now offset requests)) }
    ensures text { out.new ≡ told_bytes T.told T.written out.old at (event_lines start (asked file.now offset requests)) }
{
    let from = offset.min(file.len());
    let words = &file[from..];
    let pages = start.pages;
    let slots = start.slots;
    let k = (slots % 256) as u8;
    let priority = start.ranks.priority;
    let mut layer = start.layer;
    let mut held = start.held;
    let mut near = slots::by_slot(&layer, &held, slots, 0);
    let mut keys = seat_keys(&priority, &held, slots);
    let mut counts = start.counts;
    let mut next = at;
    for i in 0..requests {
        let page = trace::request_at(words, 0, i);
        let turn = ask(
            &mut layer, &priority, &mut held, &mut near, &mut keys, pages, k, page, counts,
        );
        next = text::tell_line::<T>(out, next, u64::from(page), turn.event, u64::from(turn.best));
        counts = turn.counts;
    }
    Played { next, counts }
}

// The misses of a run after the requests that begin at an offset of a file.
pub fn misses(file: &[u8], offset: usize, requests: usize, start: Run) -> u32
    requires { Sound start }
    ensures { result ≡ (run_after start (asked file.now offset requests)).counts.misses }
{
    let mut none = [0; 1];
    let played = play::<Untold>(file, offset, requests, start, &mut none, 0);
    played.counts.misses
}
