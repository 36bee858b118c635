// The layer table: how a request moves it, and the tests of a sound run that look at it. The tables are of fixed size and used up to
// `pages` and `slots`, since nothing allocates; these are numbers with a clause, since a type of them would be made anew at each call.
// Assumes nothing.
#![tactic(auto)]

ghost use Rattle.std.specs.Prelude.{◌≡◌, ℕ, suc, ◌<◌, ◌≤◌, length, drop, take, slice_index_or};
ghost use Rattle.std.specs.List.{list_all};
ghost use Rattle.paging.specs.Sets.{count, each, any, ◌=?◌, ◌≤?◌};
ghost use Rattle.paging.specs.Layers.{in_layer};
ghost use Rattle.paging.specs.Moves.{bar};
ghost use Rattle.layers.specs.Asked.{layer_at, asked, lowered, sunk};
ghost use Rattle.layers.specs.Seen.{seen_marks, alone_in};

// The first layer that sinks when a page of layer i is requested.
pub fn first_sinking(i: u8, slots: u8) -> u8
    ensures { result ≡ bar slots i }
{
    if i == 0 { slots } else { i }
}

fn lower(from: u8, x: u8) -> u8
    requires { 0 < from }
    ensures { result ≡ lowered from x }
{
    if from <= x { x - 1 } else { x }
}

// The first n layers of a table, from layer `from` on, sink by one.
pub fn sink(layer: &mut [u8], n: usize, from: u8)
    requires { (0 < from) × (n ≤ length layer.old) }
    ensures { layer.new ≡ sunk from n layer.old }
{
    for x in layer[..n].iter_mut() {
        *x = lower(from, *x);
    }
}

// The layers after a request of `page`, whose layer makes `from` the first that sinks.
pub fn ask(layer: &mut [u8; 1024], pages: usize, slots: u8, page: usize, from: u8)
    requires known { (page < pages) × (pages ≤ 1024) × (0 < slots) × (length layer.old ≡ 1024) × (from ≡ bar slots (layer_at layer.old page)) }
    requires bounded { (q : ℕ) → q < pages → layer_at layer.old q ≤ slots }
    ensures { layer.new ≡ asked pages slots page layer.old }
{
    sink(layer, pages, from);
    layer[page] = slots;
}

// How many pages below `pages` are in layer j.
pub fn pages_in(layer: &[u8; 1024], pages: usize, j: u8) -> usize
    requires { pages ≤ 1024 }
    ensures { result ≡ count (in_layer (layer_at layer.now) j) pages }
{
    let mut n: u16 = 0;
    for x in &layer[..pages] {
        if *x == j {
            n += 1;
        }
    }
    usize::from(n)
}

// Whether a page is alone in its layer 1 to k.
pub fn alone(layer: &[u8; 1024], pages: usize, page: usize) -> bool
    requires { (page < pages) × (pages ≤ 1024) }
    ensures { result ≡ alone_in pages (layer_at layer.now) page }
{
    let j = layer[page];
    j != 0 && pages_in(layer, pages, j) == 1
}

// Each page below `pages` is in a layer 0 to k: their greatest layer is.
pub fn bounded(layer: &[u8; 1024], pages: usize, slots: u8) -> bool
    requires { pages ≤ 1024 }
    ensures { result ≡ each pages (λ q. layer_at layer.now q ≤? slots) }
{
    let mut most = 0;
    for x in &layer[..pages] {
        most = most.max(*x);
    }
    most <= slots
}

// A layer as an index. That it is a byte is said here, where it is known.
pub fn wide(x: u8) -> usize
    ensures { (result ≡ x) × (result < 256) }
{
    x as usize
}

// Which layers hold a page below `pages`: 1 for each that does.
fn seen(layer: &[u8; 1024], pages: usize) -> [u8; 256]
    requires { pages ≤ 1024 }
    ensures { result ≡ seen_marks pages (layer_at layer.now) }
{
    let mut marks = [0u8; 256];
    for x in &layer[..pages] {
        marks[usize::from(*x)] = 1;
    }
    marks
}

// Every layer 1 to k is marked.
fn all_marked(marks: &[u8; 256], slots: usize) -> bool
    requires { slots ≤ 64 }
    ensures { result ≡ list_all (λ mark. mark =? 1) (take slots (drop 1 marks.now)) }
{
    marks[1..slots + 1].iter().all(|mark| *mark == 1)
}

// Every layer 1 to k holds a page.
pub fn filled(layer: &[u8; 1024], pages: usize, slots: usize) -> bool
    requires { (pages ≤ 1024) × (slots ≤ 64) }
    ensures { result ≡ each slots (λ j. any pages (in_layer (layer_at layer.now) (suc j))) }
{
    let marks = seen(layer, pages);
    all_marked(&marks, slots)
}

// The entries of a table at `from` and above are all x. A count in one flat pass is faster than an early exit.
pub fn only_from<T: PartialEq + Copy>(table: &[T], from: usize, x: T) -> bool
    requires { (from ≤ length table.now) × (length table.now ≤ 1024) }
    ensures { result ≡ list_all (λ y. T.eq y x) (drop from table.now) }
{
    let mut others: u16 = 0;
    for y in &table[from..] {
        if *y != x {
            others += 1;
        }
    }
    others == 0
}
