// One request of a sound run, over its arrays, which are lent and changed in place: O(N + k) and no soundness test inside. A
// replay keeps the arrays and, by slots, the layers and keys of the pages in them; tables of fixed size, as in the crate `slots`. Assumes nothing.
#![tactic(auto)]

ghost use Rattle.std.specs.Prelude.{◌≡◌, false, ℕ, ◌<◌, ◌≤◌, length, set};
ghost use Rattle.paging.specs.Moves.{bar};
ghost use Rattle.layers.specs.Asked.{layer_at, asked, sunk};
ghost use Rattle.slots.specs.Slots.{seated, found, near_of};
ghost use Rattle.serve.specs.Step.{Ready, Steps, least_page, search_to};

use ranking::Key;
use refusals::Refusal;

// What a request comes to.
#[derive(Clone, Copy)]
pub enum Event {
    Hit { slot: usize },
    Miss { slot: usize, victim: usize },
    Refused(Refusal),
}

// The first layer that the search for a victim tries: the page's own, and not the one above it.
fn first_tried(own: u8) -> u8
    ensures { result ≡ own }
{
    own
}

// Up to which layer a miss of a page of layer i looks for its victim.
#[tactic(auto, unfolding(crate::specs::Step::search_to))]
fn search(near: &[u8; 64], slots: u8, i: u8) -> Option<usize>
    requires { slots ≤ 64 }
    ensures { result ≡ found (search_to near.now slots i) }
{
    if i == 0 {
        return Some(usize::from(slots));
    }
    slots::reach(near, slots, first_tried(i))
}

// The page that makes room for a page of layer i.
#[tactic(auto, using(crate::proofs::Victims::page_none, crate::proofs::Victims::page_found, crate::proofs::Victims::search_small))]
fn victim<'a>(near: &'a [u8; 64], keys: &'a [Key; 64], slots: u8, i: u8) -> Option<u16>
    requires { slots ≤ 64 }
    ensures { result ≡ found (least_page near.now keys.now slots (search_to near.now slots i)) }
{
    let j = search(near, slots, i)?;
    let key = slots::lowest(near, keys, usize::from(slots), j as u8);
    Some(ranking::page_of(key))
}

// The layers after a request of `page`, which is in slot s now: of all pages, and by slots.
fn settle<'a>(
    layer: &'a mut [u8; 1024],
    near: &'a mut [u8; 64],
    pages: usize,
    slots: u8,
    page: usize,
    s: usize,
)
    requires limits { (page < pages) × (pages ≤ 1024) × (0 < slots) × (slots ≤ 64) × (s < slots) }
    requires lengths { (length layer.old ≡ 1024) × (length near.old ≡ 64) }
    requires bounded { (q : ℕ) → q < pages → layer_at layer.old q ≤ slots }
    ensures layers { layer.new ≡ asked pages slots page layer.old }
    ensures nears { near.new ≡ set (sunk (bar slots (layer_at layer.old page)) slots near.old) s slots }
{
    let from = layers::first_sinking(layer[page], slots);
    layers::ask(layer, pages, slots, page, from);
    layers::sink(near, usize::from(slots), from);
    near[s] = slots;
}

// A request of a page that is in no slot: it takes the slot of its victim. 17: a miss finds no j, or its victim no slot.
#[tactic(auto, using(crate::proofs::Swaps::here))]
fn swap<'a>(
    layer: &'a mut [u8; 1024],
    held: &'a mut [u16; 64],
    near: &'a mut [u8; 64],
    keys: &'a mut [Key; 64],
    pages: usize,
    slots: u8,
    page: u16,
    key: Key,
) -> Event
    requires ready { Ready pages slots page layer.old held.old }
    requires nears { (near.old ≡ near_of layer.old held.old slots) × (length keys.old ≡ 64) }
    requires away { seated held.old slots page ≡ false }
    ensures { Steps pages slots page layer.old held.old keys.old key result layer.new held.new near.new keys.new }
{
    let p = usize::from(page);
    let Some(v) = victim(near, keys, slots, layer[p]) else {
        return Event::Refused(Refusal::NoVictim);
    };
    let Some(s) = slots::find(held, usize::from(slots), v) else {
        return Event::Refused(Refusal::NoVictim);
    };
    held[s] = page;
    keys[s] = key;
    settle(layer, near, pages, slots, p, s);
    let victim = usize::from(v);
    Event::Miss { slot: s, victim }
}

// A request of `page`, whose key after it is `key`: the event, and the arrays after it. They stay parameters, which is faster than a
// struct of them: `replay::ask` says how much.
#[tactic(auto, using(crate::proofs::Swaps::here, crate::proofs::Swaps::away))]
pub fn step<'a>(
    layer: &'a mut [u8; 1024],
    held: &'a mut [u16; 64],
    near: &'a mut [u8; 64],
    keys: &'a mut [Key; 64],
    pages: usize,
    slots: u8,
    page: u16,
    key: Key,
) -> Event
    requires ready { Ready pages slots page layer.old held.old }
    requires nears { (near.old ≡ near_of layer.old held.old slots) × (length keys.old ≡ 64) }
    ensures { Steps pages slots page layer.old held.old keys.old key result layer.new held.new near.new keys.new }
{
    let p = usize::from(page);
    let Some(s) = slots::find(held, usize::from(slots), page) else {
        return swap(layer, held, near, keys, pages, slots, page, key);
    };
    keys[s] = key;
    // The page of L_k is alone there, so that nothing moves.
    if layer[p] == slots {
        return Event::Hit { slot: s };
    }
    settle(layer, near, pages, slots, p, s);
    Event::Hit { slot: s }
}
