// A stored run in bytes: the marks, the header's refusals, the tables of an image, and the writer. Tables are of fixed size, as in the
// crates `layers` and `slots`. Assumes nothing.
#![tactic(auto)]

ghost use Rattle.std.specs.Prelude.{false, ◌++◌, ◌≡◌, ℕ, ◌+◌, ◌*◌, ◌%◌, ◌≤◌, ◌<◌, length, slice_index_or};
ghost use Rattle.paging.specs.Sets.{◌≤?◌, listed, table};
ghost use Rattle.words.specs.Words.{words, word_at, put};
ghost use Rattle.refusals.specs.Numbers.{told};
ghost use Rattle.slots.specs.Slots.{no_page, seated};
ghost use Rattle.begin.specs.Limits.{most_pages, most_slots};
ghost use Rattle.image.specs.Layout.{mark_byte, image_header, offsets_right, image_bytes, image_length, image_refusal, image_layers, image_slots, image_priorities, marks_agree};

use refusals::Refusal;

// A mark byte: the layer in bits 0 to 6, cached in bit 7.
#[tactic(auto, using(crate::proofs::Bits::joined))]
fn mark(layer: u8, cached: bool) -> u8
    requires { layer < 128 }
    ensures { result ≡ mark_byte layer cached }
{
    (cached as u8) << 7 | layer
}

// The layer of a mark.
fn mark_layer(mark: u8) -> u8
    ensures { result ≡ mark % 128 }
{
    mark & 127
}

// Whether a mark says cached.
#[tactic(auto, using(crate::proofs::Bits::top_bit))]
fn mark_cached(mark: u8) -> bool
    ensures { result ≡ 128 ≤? mark }
{
    mark >> 7 == 1
}

// A number of the header, wide enough to compute with.
fn number_at(image: &[u8], at: usize) -> usize
    requires { at + 4 ≤ length image.now }
    ensures { (result ≡ word_at 4 image.now at) × (result ≤ 4294967295) }
{
    words::read_u32(image, at) as usize
}

// Whether the header's three offsets are those of the layout.
#[tactic(auto, unfolding(crate::specs::Layout::offsets_right))]
fn offsets_right(image: &[u8]) -> bool
    requires { 36 ≤ length image.now }
    ensures { result ≡ offsets_right image.now }
{
    let pages = number_at(image, 0);
    let slots = number_at(image, 4);
    number_at(image, 24) == 36
        && number_at(image, 28) == 36 + pages
        && number_at(image, 32) == 36 + pages + 2 * slots
}

// The refusal that the length and the header of an image give: 13, 2, 3, 15, 13. The limits are the run's.
pub fn refusal(image: &[u8], pagelimit: usize, slotlimit: usize) -> Result<(), Refusal>
    requires { (pagelimit ≡ most_pages) × (slotlimit ≡ most_slots) }
    ensures { told result ≡ image_refusal image.now }
{
    let length = image.len();
    if length < 36 {
        return Err(Refusal::Length);
    }
    let pages = number_at(image, 0);
    let slots = number_at(image, 4);
    begin::limits_refusal(pages, slots, pagelimit, slotlimit)?;
    if !offsets_right(image) {
        return Err(Refusal::Offset);
    }
    if length != 36 + 3 * pages + 2 * slots {
        return Err(Refusal::Length);
    }
    Ok(())
}

// The layer of each page, 0 from N on.
pub fn layers(image: &[u8], pages: usize) -> [u8; 1024]
    requires { (pages ≤ 1024) × (36 + pages ≤ length image.now) }
    ensures { result ≡ image_layers pages image.now }
{
    let mut layer: [u8; 1024] = [0; 1024];
    for (q, mark) in image[36..36 + pages].iter().enumerate() {
        layer[q] = mark_layer(*mark);
    }
    layer
}

// The page in each slot, no page from k on.
#[tactic(auto, unfolding(crate::specs::Layout::image_slots))]
pub fn slots(image: &[u8], pages: usize, slots: usize) -> [u16; 64]
    requires { (pages ≤ 1024) × (slots ≤ 64) × (36 + pages + 2 * slots ≤ length image.now) }
    ensures { result ≡ image_slots pages slots image.now }
{
    words::read_list(image, 36 + pages, slots, 65535)
}

// The priority of each page, 0 from N on.
#[tactic(auto, unfolding(crate::specs::Layout::image_priorities))]
pub fn priorities(image: &[u8], pages: usize, slots: usize) -> [u16; 1024]
    requires { (pages ≤ 1024) × (slots ≤ 64) × (36 + 3 * pages + 2 * slots ≤ length image.now) }
    ensures { result ≡ image_priorities pages slots image.now }
{
    words::read_list(image, 36 + pages + 2 * slots, pages, 0)
}

// The pages in the slots, marked. A number that is no page is passed over.
fn seated_marks(held: &[u16; 64], slots: usize) -> [bool; 1024]
    requires { slots ≤ 64 }
    ensures { result ≡ table 1024 1024 false (seated held.now slots) }
{
    let mut marks: [bool; 1024] = [false; 1024];
    for page in &held[..slots] {
        if *page < 1024 {
            marks[usize::from(*page)] = true;
        }
    }
    marks
}

// Whether the marks say cached exactly where a slot holds the page.
pub fn agree(image: &[u8], pages: usize, slots: usize) -> bool
    requires { (pages ≤ 1024) × (slots ≤ 64) × (36 + pages + 2 * slots ≤ length image.now) }
    ensures { result ≡ marks_agree pages slots image.now }
{
    // The number of slots hides the function of that name.
    let held = crate::slots(image, pages, slots);
    let marks = seated_marks(&held, slots);
    image[36..36 + pages]
        .iter()
        .enumerate()
        .all(|(q, mark)| mark_cached(*mark) == marks[q])
}

// What an image is written from: a run's numbers and its tables.
#[derive(Clone, Copy)]
pub struct Parts<'a> {
    pub pages: usize,
    pub slots: usize,
    pub served: u32,
    pub hits: u32,
    pub misses: u32,
    pub best: u32,
    pub layer: &'a [u8; 1024],
    pub priority: &'a [u16; 1024],
    pub held: &'a [u16; 64],
}

impl<'a> Parts<'a> {
    // Writes the nine numbers of the header.
    fn write_header(self, out: &mut [u8])
        requires { (self.pages ≤ 1024) × (self.slots ≤ 64) × (36 ≤ length out.old) }
        ensures { out.new ≡ put out.old 0 (words 4 (image_header self.entry.pages self.entry.slots self.entry.served self.entry.hits self.entry.misses self.entry.best)) }
    {
        let pages = self.pages as u32;
        let slots = self.slots as u32;
        let header = [
            pages,
            slots,
            self.served,
            self.hits,
            self.misses,
            self.best,
            36,
            36 + pages,
            36 + pages + 2 * slots,
        ];
        words::write_numbers(out, 0, &header);
    }

    // Writes the mark of each page.
    fn write_marks(self, out: &mut [u8])
        requires { (self.pages ≤ 1024) × (self.slots ≤ 64) × (36 + self.pages ≤ length out.old) × ((q : ℕ) → q < self.pages → slice_index_or self.layer.now q 0 ≤ 127) }
        ensures { out.new ≡ put out.old 36 (listed self.entry.pages (λ q. mark_byte (slice_index_or self.entry.layer.now q 0) (seated self.entry.held.now self.entry.slots q))) }
    {
        let layer = self.layer;
        let marks = seated_marks(self.held, self.slots);
        for q in 0..self.pages {
            out[36 + q] = mark(layer[q], marks[q]);
        }
    }

    // Writes the page in each slot and the priority of each page.
    fn write_lists(self, out: &mut [u8])
        requires { (self.pages ≤ 1024) × (self.slots ≤ 64) × (36 + 3 * self.pages + 2 * self.slots ≤ length out.old) }
        ensures { out.new ≡ put out.old (36 + self.entry.pages) (words 2 (listed self.entry.slots (λ s. slice_index_or self.entry.held.now s no_page)) ++ words 2 (listed self.entry.pages (λ q. slice_index_or self.entry.priority.now q 0))) }
    {
        // Slices know their lengths: slots below 64 and pages below 1024 are entries.
        let (held, priority) = (self.held, self.priority);
        let entries: &[u16] = held;
        let numbers: &[u16] = priority;
        let at = 36 + self.pages;
        words::write_list(out, at, &entries[..self.slots]);
        words::write_list(out, at + 2 * self.slots, &numbers[..self.pages]);
    }

    // Writes the image at the start of a buffer that has room for it. A mark has room for layers up to 127.
    #[tactic(auto, unfolding(crate::specs::Layout::image_length))]
    pub fn write(self, out: &mut [u8])
        requires limits { (self.pages ≤ 1024) × (self.slots ≤ 64) × (image_length self.pages self.slots ≤ length out.old) }
        requires narrow { (q : ℕ) → q < self.pages → slice_index_or self.layer.now q 0 ≤ 127 }
        ensures { out.new ≡ put out.old 0 (image_bytes self.entry.pages self.entry.slots self.entry.served self.entry.hits self.entry.misses self.entry.best self.entry.layer.now self.entry.priority.now self.entry.held.now) }
    {
        self.write_header(out);
        self.write_marks(out);
        self.write_lists(out);
    }
}
