// The slots of a run: where a page is, and the searches of a miss. The tables are of fixed size and used up to
// `pages` and `slots`, since nothing allocates; these are numbers with a clause, since a type of them would be made anew at each call.
// Assumes nothing.
#![tactic(auto)]

ghost use Rattle.std.specs.Prelude.{◌≡◌, ◌&&◌, ℕ, suc, ◌<◌, ◌≤◌, slice_index_or, if◌then◌else◌};
ghost use Rattle.paging.specs.Sets.{first, ◌=?◌, ◌≤?◌, table};
ghost use Rattle.ranking.specs.Key.{no_key};
ghost use Rattle.slots.specs.Slots.{no_page, seat, found, entries_of, near_to, tally_of, least_key, leasts_of};

use ranking::Key;

// How many layers `reach` counts afresh.
const AFRESH: u8 = 4;

// How many slots of 64 there are from a slot on, `rest`, where it holds the page; else 0. A function of its own, as `pick` is.
fn left_if(entry: u16, page: u16, rest: u8) -> u8
    ensures { result ≡ (if entry =? page then rest else 0) }
{
    if entry == page { rest } else { 0 }
}

// The slot of a page, the first that holds it. A flat pass over all slots is faster than one that stops where it is found; counted
// from the end, a slot that does not hold the page is 0, which a compiler makes of the comparison by itself.
pub fn find(held: &[u16; 64], slots: usize, page: u16) -> Option<usize>
    requires { slots ≤ 64 }
    ensures { result ≡ found (seat held.now slots page) }
{
    let mut left: u8 = 0;
    let mut rest: u8 = 64;
    for entry in &held[..slots] {
        left = left.max(left_if(*entry, page, rest));
        rest -= 1;
    }
    if left == 0 {
        return None;
    }
    Some(usize::from(64 - left))
}

// By slots, the entry that a table of the pages has for the page in each; `none` for a slot that holds no page.
pub fn by_slot<'a, T: Copy>(
    table: &'a [T; 1024],
    held: &'a [u16; 64],
    slots: usize,
    none: T,
) -> [T; 64]
    requires { (slots ≤ 64) × ((s : ℕ) → s < slots → slice_index_or held.now s no_page < 1024) }
    ensures { result ≡ entries_of table.now held.now slots none }
{
    // A slice is known to fit into memory, whatever the type of its entries.
    let list: &[T] = table;
    let mut entries = [none; 64];
    for s in 0..slots {
        entries[s] = list[usize::from(held[s])];
    }
    entries
}

// How many of the first slots hold a page of a layer up to j.
fn count_to(near: &[u8; 64], slots: usize, j: u8) -> usize
    requires { slots ≤ 64 }
    ensures { result ≡ near_to near.now slots j }
{
    // in bytes, which the compiler adds up sixteen at a time
    let mut n: u8 = 0;
    for layer in &near[..slots] {
        n += u8::from(*layer <= j);
    }
    usize::from(n)
}

// How many of the first slots hold a page of each layer.
fn tally(near: &[u8; 64], slots: usize) -> [u8; 256]
    requires { slots ≤ 64 }
    ensures { result ≡ tally_of near.now slots }
{
    let mut sums = [0u8; 256];
    for layer in &near[..slots] {
        let j = layers::wide(*layer);
        sums[j] += 1;
    }
    sums
}

// For each j up to `slots`, how many of the first slots hold a page of a layer up to j: a running sum over the layers, O(k) for
// all j together.
pub fn counts(near: &[u8; 64], slots: u8) -> [u8; 65]
    requires { slots ≤ 64 }
    ensures { result ≡ table 65 (suc slots) 0 (near_to near.now slots) }
{
    let k = usize::from(slots);
    let sums = tally(near, k);
    let mut counts = [0u8; 65];
    let mut n = 0;
    for j in 0..k + 1 {
        n += sums[j];
        counts[j] = n;
    }
    counts
}

// As `reach`, by the sums of the layers: each j costs one addition.
// Kept as a loop that leaves by break with j as its value: document 01's form of a search over the layers from one upward.
fn reach_on(near: &[u8; 64], slots: u8, from: u8) -> Option<usize>
    requires { slots ≤ 64 }
    ensures { result ≡ found (first (suc slots) (λ j. from ≤? j && near_to near.now slots j =? j)) }
{
    let sums = tally(near, usize::from(slots));
    let mut n = count_to(near, usize::from(slots), from);
    let mut j = from;
    let full = loop {
        if slots < j {
            return None;
        }
        if n == usize::from(j) {
            break j;
        }
        j += 1;
        n += layers::wide(sums[usize::from(j)]);
    };
    Some(usize::from(full))
}

// The smallest j from `from` on, and at most `slots`, such that j slots hold a page of a layer up to j. A few layers are
// counted afresh, which is faster than their sums; where the search goes on, it goes on by the sums, so that it is O(k).
// Kept as a loop that leaves by break with j as its value: document 01's form of a search over the layers from one upward.
pub fn reach(near: &[u8; 64], slots: u8, from: u8) -> Option<usize>
    requires { slots ≤ 64 }
    ensures { result ≡ found (first (suc slots) (λ j. from ≤? j && near_to near.now slots j =? j)) }
{
    let mut j = from;
    let full = loop {
        if j > slots {
            return None;
        }
        if AFRESH <= j - from {
            return reach_on(near, slots, j);
        }
        if count_to(near, usize::from(slots), j) == usize::from(j) {
            break j;
        }
        j += 1;
    };
    Some(usize::from(full))
}

// The key of a page of a layer up to j; of any other the number that no key reaches. A function of its own, whose clause is the choice
// that `least_key` speaks of: no plainer inline.
fn pick(near: u8, j: u8, key: Key) -> Key
    ensures { result ≡ (if near ≤? j then key else no_key) }
{
    if near <= j { key } else { ranking::NO_KEY }
}

// The least key of the slots that hold a page of a layer up to j.
pub fn lowest<'a>(near: &'a [u8; 64], keys: &'a [Key; 64], slots: usize, j: u8) -> Key
    requires { slots ≤ 64 }
    ensures { result ≡ least_key near.now keys.now j slots }
{
    let mut least: Key = ranking::NO_KEY;
    for s in 0..slots {
        least = least.min(pick(near[s], j, keys[s]));
    }
    least
}

// The least key of the slots of each layer; the number that no key reaches, for a layer that no slot has.
fn leasts<'a>(near: &'a [u8; 64], keys: &'a [Key; 64], slots: usize) -> [Key; 256]
    requires { slots ≤ 64 }
    ensures { result ≡ leasts_of near.now keys.now slots }
{
    let mut least: [Key; 256] = [ranking::NO_KEY; 256];
    for s in 0..slots {
        let l = layers::wide(near[s]);
        least[l] = least[l].min(keys[s]);
    }
    least
}

// As `lowest`, for each j up to `slots`: a running minimum over the layers, O(k) for all j together.
pub fn lows<'a>(near: &'a [u8; 64], keys: &'a [Key; 64], slots: u8) -> [Key; 65]
    requires { slots ≤ 64 }
    ensures { result ≡ table 65 (suc slots) 0 (λ j. least_key near.now keys.now j slots) }
{
    let k = usize::from(slots);
    let least = leasts(near, keys, k);
    let mut lows: [Key; 65] = [0; 65];
    let mut low: Key = ranking::NO_KEY;
    for j in 0..k + 1 {
        low = low.min(least[j]);
        lows[j] = low;
    }
    lows
}
