// The soundness test of a run's tables, in flat passes: O(N + k). That the cached set is the selection is seen by its
// certificate, without building the selection. Tables are of fixed size, as in the crates `layers` and `slots`. Assumes nothing.
#![tactic(auto)]

ghost use Rattle.std.specs.Prelude.{◌≡◌, List, Bool, true, false, ◌&&◌, ◌||◌, ℕ, suc, ◌<◌, ◌≤◌, length, replicate, slice_index_or};
ghost use Rattle.paging.specs.Sets.{each, table, ◌=?◌, ◌<?◌, ◌≤?◌};
ghost use Rattle.ranking.specs.Key.{Keyed, key_at};
ghost use Rattle.slots.specs.Slots.{no_page, seated};
ghost use Rattle.certify.specs.Test.{bar_key, layers_fit, ends_clear, certificate};
ghost use Rattle.certify.specs.Tables.{seats_fit, tables_sound};
ghost use Rattle.certify.specs.ByLayer.{Tabled};

use ranking::Key;

// For each j, the slots hold at most j pages of layers up to j: as many as the table says.
fn has_room(counts: &[u8; 65], slots: u8) -> bool
    requires { slots ≤ 64 }
    ensures { result ≡ each (suc slots) (λ j. slice_index_or counts.now j 0 ≤? j) }
{
    let mut room = true;
    for j in 0..slots + 1 {
        room &= counts[usize::from(j)] <= j;
    }
    room
}

// By layers, the least key up to the first full layer from it on, of the slots whose tables `counts` and `lows` are.
fn bars<'a>(counts: &'a [u8; 65], lows: &'a [Key; 65], slots: u8) -> [Key; 65]
    requires { slots ≤ 64 }
    ensures { (near keys : List ℕ) → Tabled near keys slots counts.now lows.now → result ≡ table 65 (suc slots) 0 (bar_key near keys slots) }
{
    let k = usize::from(slots);
    let mut bars: [Key; 65] = [0; 65];
    let mut bar = lows[k];
    for j in (0..k + 1).rev() {
        if layers::wide(counts[j]) == j {
            bar = lows[j];
        }
        bars[j] = bar;
    }
    bars
}

// Marks the pages in the slots; true where each is a page and none stands twice.
fn mark<'a>(marks: &'a mut [bool; 1024], held: &'a [u16; 64], pages: usize, slots: usize) -> bool
    requires { (pages ≤ 1024) × (slots ≤ 64) × (marks.old ≡ replicate 1024 false) }
    ensures result { result ≡ seats_fit pages slots held.now }
    ensures marked { result ≡ true → marks.new ≡ table 1024 pages false (seated held.now slots) }
{
    for entry in &held[..slots] {
        let page = usize::from(*entry);
        if pages <= page || marks[page] {
            return false;
        }
        marks[page] = true;
    }
    true
}

// A page that is in a slot, or of layer 0, or has a key that does not reach the bar. A function of its own, whose clause is the test of
// `certificate`: no plainer inline.
fn in_time(marked: bool, layer: u8, key: Key, bar: Key) -> bool
    ensures { result ≡ (marked || layer =? 0 || key <? bar) }
{
    marked || layer == 0 || key < bar
}

// No page outside the slots has a key that reaches the bar of its layer; layer 0 has no bar. Every page is looked at:
// a sound run has no late one, and on Arm a pass without a way out takes less time.
fn none_late<'a>(
    layer: &'a [u8; 1024],
    keys: &'a [Key; 1024],
    marks: &'a [bool; 1024],
    bars: &'a [Key; 65],
    pages: usize,
) -> bool
    requires { (pages ≤ 1024) × ((q : ℕ) → q < pages → slice_index_or layer.now q 0 ≤ 64) }
    ensures { result ≡ each pages (λ q. slice_index_or marks.now q false || slice_index_or layer.now q 0 =? 0 || key_at keys.now q <? slice_index_or bars.now (slice_index_or layer.now q 0) 0) }
{
    let mut all = true;
    for q in 0..pages {
        let l = layer[q];
        all &= in_time(marks[q], l, keys[q], bars[usize::from(l)]);
    }
    all
}

// The clauses on the layers: no page above layer k, a page in each of the layers 1 to k, just one in layer k.
#[tactic(auto, unfolding(crate::specs::Test::layers_fit))]
fn layers_fit(layer: &[u8; 1024], pages: usize, slots: usize) -> bool
    requires { (pages ≤ 1024) × (slots ≤ 64) }
    ensures { result ≡ layers_fit pages slots layer.now }
{
    let k = slots as u8;
    layers::bounded(layer, pages, k)
        && layers::filled(layer, pages, slots)
        && layers::pages_in(layer, pages, k) == 1
}

// The clauses on the entries that no page and no slot has.
#[tactic(auto, unfolding(crate::specs::Test::ends_clear))]
fn ends_clear<'a>(layer: &'a [u8; 1024], held: &'a [u16; 64], pages: usize, slots: usize) -> bool
    requires limits { (pages ≤ 1024) × (slots ≤ 64) }
    requires lengths { (length layer.now ≡ 1024) × (length held.now ≡ 64) }
    ensures { result ≡ ends_clear pages slots layer.now held.now }
{
    layers::only_from(layer, pages, 0) && layers::only_from(held, slots, 65535)
}

// The certificate: no page outside the slots is too late, and there is room for those in them.
fn certificate<'a>(
    layer: &'a [u8; 1024],
    keys: &'a [Key; 1024],
    held: &'a [u16; 64],
    marks: &'a [bool; 1024],
    pages: usize,
    slots: usize,
) -> bool
    requires limits { (pages ≤ 1024) × (slots ≤ 64) × (marks.now ≡ table 1024 pages false (seated held.now slots)) }
    requires bounded { (q : ℕ) → q < pages → slice_index_or layer.now q 0 ≤ slots }
    requires seats { (s : ℕ) → s < slots → slice_index_or held.now s no_page < pages }
    ensures { result ≡ certificate pages slots layer.now (key_at keys.now) held.now }
{
    let k = slots as u8;
    let near = slots::by_slot(layer, held, slots, 0);
    let seat_keys = slots::by_slot(keys, held, slots, 0);
    let counts = slots::counts(&near, k);
    let lows = slots::lows(&near, &seat_keys, k);
    let limits = bars(&counts, &lows, k);
    none_late(layer, keys, marks, &limits, pages) && has_room(&counts, k)
}

// The clauses of a sound run that speak of its tables of layers and slots, where `keys` stand for its ranking. It takes the parts of
// a run, and no struct of them, so that nothing is copied to have them tested.
pub fn tables<'a>(
    layer: &'a [u8; 1024],
    keys: &'a [Key; 1024],
    held: &'a [u16; 64],
    pages: usize,
    slots: usize,
) -> bool
    requires limits { (1 ≤ pages) × (pages ≤ 1024) × (1 ≤ slots) × (slots ≤ 64) × (slots ≤ pages) }
    requires lengths { (length layer.now ≡ 1024) × (length held.now ≡ 64) }
    ensures { (o : ℕ → ℕ → Bool) → Keyed pages o (key_at keys.now) → result ≡ tables_sound pages slots o layer.now held.now }
{
    if !layers_fit(layer, pages, slots) || !ends_clear(layer, held, pages, slots) {
        return false;
    }
    let mut marks = [false; 1024];
    mark(&mut marks, held, pages, slots) && certificate(layer, keys, held, &marks, pages, slots)
}
