// A run: what the board keeps, and every call on it that is not a file or a frame. What each call means is said in specs/.
// Tables are of fixed size, as in the crates `layers` and `slots`. Assumes nothing.
#![tactic(auto)]

ghost use Rattle.std.specs.Prelude.{◌≡◌, ◌<◌, length};
ghost use Rattle.ranking.specs.Key.{Narrow, page_keys};
ghost use Rattle.ranking.specs.Ranks.{fixed_ranks};
ghost use Rattle.refusals.specs.Numbers.{told};
ghost use Rattle.begin.specs.Refusals.{list_refusal};
ghost use Rattle.counts.specs.Counts.{most_served};
ghost use Rattle.serve.specs.Event.{values};
ghost use Rattle.image.specs.Layout.{image_refusal};
ghost use Rattle.run.specs.Numbers.{blank_run};
ghost use Rattle.run.specs.Start.{start_run, started, started_default};
ghost use Rattle.run.specs.Sound.{Sound, sound};
ghost use Rattle.run.specs.Testing.{parts_sound};
ghost use Rattle.run.specs.Request.{served, refused, requested, request_values, tried};
ghost use Rattle.run.specs.Serving.{RunKeys};
ghost use Rattle.run.specs.Questions.{refusal, layer_answer, certain_answer, selection_answer};
ghost use Rattle.run.specs.Stored.{image_run, image_described, restored, restore_refusal, reading_number, store_refusal, stored, stored_bytes, requested_in};

use counts::Counts;
use image::Parts;
use ranking::{Key, Ranks};
use refusals::Refusal;
use serve::Event;

#[derive(Clone, Copy)]
pub struct Run {
    pub pages: usize,
    pub slots: usize,
    pub counts: Counts,
    pub layer: [u8; 1024],
    pub ranks: Ranks,
    pub held: [u16; 64],
}

// A request or a trial: the run, the event, and best with this request counted.
#[derive(Clone, Copy)]
pub struct Served {
    pub run: Run,
    pub event: Event,
    pub best: u32,
}

// A start. Kept beside its refusal: document 01 gives every refusal a value, here the blank run, and the clause `started` says it.
#[derive(Clone, Copy)]
pub struct Started {
    pub run: Run,
    pub refusal: Option<Refusal>,
}

// The layer of a page. Kept beside its refusal: document 01 gives every refusal a value, here layer 0, and the clause `layer_answer` says it.
#[derive(Clone, Copy)]
pub struct LayerAnswer {
    pub layer: u8,
    pub refusal: Option<Refusal>,
}

// Whether a page is certain. Kept beside its refusal: document 01 gives every refusal a value, here false, and the clause `certain_answer` says it.
#[derive(Clone, Copy)]
pub struct CertainAnswer {
    pub certain: bool,
    pub refusal: Option<Refusal>,
}

// The plain selection. Kept beside its refusal: document 01 gives every refusal a value, here the empty set, and the clause `selection_answer` says it.
#[derive(Clone, Copy)]
pub struct SelectionAnswer {
    pub pages: [bool; 1024],
    pub refusal: Option<Refusal>,
}

// What the image reader comes to: its run, and whether it accepts the image. Kept beside each other, since document 01 has a reader
// hand back its run with the event, the blank run beside a refusal; the clause `restored` says it.
#[derive(Clone, Copy)]
pub struct Restored {
    pub run: Run,
    pub event: Result<(), Refusal>,
}

// What the image writer answers: how many bytes it wrote. Kept beside its refusal: document 01 gives every refusal a value, here 0, and the clause `stored` says it.
#[derive(Clone, Copy)]
pub struct Stored {
    pub length: usize,
    pub refusal: Option<Refusal>,
}

impl Run {
    pub const MAX_PAGES: usize = 1024;

    pub const MAX_SLOTS: usize = 64;

    pub const MAX_SERVED: u32 = 1000000;

    pub fn blank() -> Self
        ensures { result ≡ blank_run }
    {
        Self {
            pages: 0,
            slots: 0,
            counts: counts::none(),
            layer: [0u8; 1024],
            ranks: ranking::fixed([0u16; 1024]),
            held: [65535u16; 64],
        }
    }

    // A run that begins with the pages of a list in its slots.
    fn begun(pages: usize, slots: usize, list: &[u16], ranks: Ranks) -> Self
        requires { list_refusal pages slots list.now ≡ 0 }
        ensures { result ≡ start_run pages slots list.now ranks }
    {
        Self {
            pages,
            slots,
            counts: counts::none(),
            layer: begin::layers_of(list, pages),
            ranks,
            held: begin::padded(list, 65535),
        }
    }

    // Starts a run with a start list and a priority for each page. Refusals 2, 3, 4, 5, 6, 7: then the blank run.
    pub fn start(pages: usize, slots: usize, list: &[u16], priorities: &[u16]) -> Started
        ensures { result ≡ started pages slots list.now priorities.now }
    {
        let given = priorities.len();
        let tested = begin::refusal(pages, slots, list, given, Run::MAX_PAGES, Run::MAX_SLOTS);
        if let Err(refusal) = tested {
            return Started {
                run: Run::blank(),
                refusal: Some(refusal),
            };
        }
        let ranks = ranking::fixed(begin::padded(priorities, 0));
        Started {
            run: Run::begun(pages, slots, list, ranks),
            refusal: None,
        }
    }

    // The same with the default priorities: document 01's other start. What both do is `begin::refusal` and `begun`.
    pub fn start_default(pages: usize, slots: usize, list: &[u16]) -> Started
        ensures { result ≡ started_default pages slots list.now }
    {
        let tested = begin::refusal(pages, slots, list, pages, Run::MAX_PAGES, Run::MAX_SLOTS);
        if let Err(refusal) = tested {
            return Started {
                run: Run::blank(),
                refusal: Some(refusal),
            };
        }
        let ranks = ranking::fixed(begin::default_priorities(pages));
        Started {
            run: Run::begun(pages, slots, list, ranks),
            refusal: None,
        }
    }

    // A request of a page to a run that is known to be sound, and may serve one more, with the keys of its pages: O(N + k), and no
    // test inside. No part of it is a function that takes the run: each would copy it.
    fn serve(mut self, page: usize, keys: &[Key; 1024]) -> Served
        requires known { Sound self × (page < self.pages) × (self.counts.served < most_served) }
        requires keyed { RunKeys self keys.now }
        ensures { result ≡ served self page }
    {
        let pages = self.pages;
        let slots = self.slots;
        let mut layer = self.layer;
        let mut held = self.held;
        let mut near = slots::by_slot(&layer, &held, slots, 0);
        let mut seat_keys = slots::by_slot(keys, &held, slots, 0);
        let new = counts::new_page(layer[page]);
        let event = serve::step(
            &mut layer,
            &mut held,
            &mut near,
            &mut seat_keys,
            pages,
            (slots % 256) as u8,
            (page % 65536) as u16,
            keys[page],
        );
        let was = self.counts;
        let turn = counts::counted(was, event, new);
        let counts = turn.counts;
        let told = turn.event;
        self.layer = layer;
        self.held = held;
        self.counts = counts;
        Served {
            run: self,
            event: told,
            best: turn.best,
        }
    }

    // Whether the run of some parts is sound. It takes the parts, so that a request need not copy the run to have it tested.
    fn parts_sound<'a>(
        pages: usize,
        slots: usize,
        counts: Counts,
        layer: &'a [u8; 1024],
        priority: &'a [u16; 1024],
        held: &'a [u16; 64],
        keys: &'a [Key; 1024],
    ) -> bool
        requires lengths { (length layer.now ≡ 1024) × (length priority.now ≡ 1024) × (length held.now ≡ 64) }
        requires keyed { (keys.now ≡ page_keys priority.now) × Narrow priority.now }
        ensures { result ≡ parts_sound pages slots counts layer.now (fixed_ranks priority.now) held.now }
    {
        if begin::limits_refusal(pages, slots, Run::MAX_PAGES, Run::MAX_SLOTS).is_err() {
            return false;
        }
        if !counts::fit(counts, Run::MAX_SERVED) {
            return false;
        }
        if !layers::only_from(priority, pages, 0) {
            return false;
        }
        certify::tables(layer, keys, held, pages, slots)
    }

    // Whether the run is sound.
    pub fn is_sound(self) -> bool
        ensures { result ≡ sound self }
    {
        let keys = ranking::keys(&self.ranks.priority);
        let counts = self.counts;
        Run::parts_sound(
            self.pages,
            self.slots,
            counts,
            &self.layer,
            &self.ranks.priority,
            &self.held,
            &keys,
        )
    }

    fn refused(self, refusal: Refusal) -> Served
        ensures { result ≡ refused self refusal }
    {
        Served {
            run: self,
            event: Event::Refused(refusal),
            best: 0,
        }
    }

    // Serves a request: the next run with the event, and best with this request counted. Refusals 1, 8, 9, 17: then this run. The
    // run is not handed on before it is served, since each function that takes it copies it.
    pub fn request(mut self, page: usize) -> Served
        ensures answer { result ≡ requested self page }
        ensures numbers { values result.event ≡ request_values self page }
    {
        let keys = ranking::keys(&self.ranks.priority);
        let counts = self.counts;
        let is_sound = Run::parts_sound(
            self.pages,
            self.slots,
            counts,
            &self.layer,
            &self.ranks.priority,
            &self.held,
            &keys,
        );
        if !is_sound {
            return self.refused(Refusal::Unsound);
        }
        let tested = counts::refusal(self.pages, counts.served, page, Run::MAX_SERVED);
        if let Err(refusal) = tested {
            return self.refused(refusal);
        }
        self.serve(page, &keys)
    }

    // Answers as a request would, and keeps nothing: this run comes back.
    pub fn trial(mut self, page: usize) -> Served
        ensures answer { result ≡ tried self page }
        ensures numbers { values result.event ≡ request_values self page }
    {
        let served = self.request(page);
        let event = served.event;
        Served {
            run: self,
            event,
            best: served.best,
        }
    }

    // The first refusal of a question about a page: 1 or 8.
    fn question_refusal(self, page: usize) -> Result<(), Refusal>
        ensures { told result ≡ refusal self page }
    {
        if !self.is_sound() {
            return Err(Refusal::Unsound);
        }
        if self.pages <= page {
            return Err(Refusal::NoSuchPage);
        }
        Ok(())
    }

    // The layer of a page. Refusals 1, 8.
    pub fn layer(self, page: usize) -> LayerAnswer
        ensures { result ≡ layer_answer self page }
    {
        if let Err(refusal) = self.question_refusal(page) {
            return LayerAnswer {
                layer: 0,
                refusal: Some(refusal),
            };
        }
        let layer = self.layer;
        LayerAnswer {
            layer: layer[page],
            refusal: None,
        }
    }

    // Whether a page is certain: alone in its layer 1 to k. Refusals 1, 8.
    pub fn certain(self, page: usize) -> CertainAnswer
        ensures { result ≡ certain_answer self page }
    {
        if let Err(refusal) = self.question_refusal(page) {
            return CertainAnswer {
                certain: false,
                refusal: Some(refusal),
            };
        }
        let layer = self.layer;
        CertainAnswer {
            certain: layers::alone(&layer, self.pages, page),
            refusal: None,
        }
    }

    // The plain selection, built afresh from a copied layer table. Refusal 1: then the empty set.
    pub fn selection(self) -> SelectionAnswer
        ensures { result ≡ selection_answer self }
    {
        if !self.is_sound() {
            return SelectionAnswer {
                pages: [false; 1024],
                refusal: Some(Refusal::Unsound),
            };
        }
        let layer = self.layer;
        let keys = ranking::keys(&self.ranks.priority);
        SelectionAnswer {
            pages: selection::selected(layer, keys, self.pages, self.slots),
            refusal: None,
        }
    }

    // The run in an image whose length and header are right.
    fn of_image(image: &[u8]) -> Self
        requires { image_refusal image.now ≡ 0 }
        ensures { result ≡ image_run image.now }
    {
        let pages = words::read_u32(image, 0) as usize;
        let slots = words::read_u32(image, 4) as usize;
        Self {
            pages,
            slots,
            counts: Counts {
                served: words::read_u32(image, 8),
                hits: words::read_u32(image, 12),
                misses: words::read_u32(image, 16),
                best: words::read_u32(image, 20),
            },
            layer: image::layers(image, pages),
            ranks: ranking::fixed(image::priorities(image, pages, slots)),
            held: image::slots(image, pages, slots),
        }
    }

    // The run that an image describes, sound or not; the blank run where its length or header is wrong.
    pub fn in_image(image: &[u8]) -> Self
        ensures { result ≡ image_described image.now }
    {
        if image::refusal(image, Run::MAX_PAGES, Run::MAX_SLOTS).is_err() {
            return Run::blank();
        }
        Run::of_image(image)
    }

    // Takes up the run in an image in this one's place. Refusals 13 (under 36), 2, 3, 15, 13 (total), 1: then the blank run.
    pub fn restore(mut self, image: &[u8]) -> Restored
        ensures answer { result ≡ restored image.now }
        ensures number { reading_number result.event ≡ restore_refusal image.now }
    {
        if let Err(refusal) = image::refusal(image, Run::MAX_PAGES, Run::MAX_SLOTS) {
            return Restored {
                run: Run::blank(),
                event: Err(refusal),
            };
        }
        self = Run::of_image(image);
        if !image::agree(image, self.pages, self.slots) {
            return Restored {
                run: Run::blank(),
                event: Err(Refusal::Unsound),
            };
        }
        if !self.is_sound() {
            return Restored {
                run: Run::blank(),
                event: Err(Refusal::Unsound),
            };
        }
        Restored {
            run: self,
            event: Ok(()),
        }
    }

    // A request to the run in an image that the reader refuses: the blank run comes back. As a function of its own, so that a request that
    // is served makes no blank run.
    fn unread(refusal: Refusal) -> Served
        ensures { result ≡ refused blank_run refusal }
    {
        Run::blank().refused(refusal)
    }

    // Takes up the run in an image in this one's place and serves a request of it, with one soundness test for both. Refusals: the
    // image reader's, with the blank run; then 8, 9, 17, with the run in the image.
    pub fn request_in(mut self, image: &[u8], page: usize) -> Served
        ensures { result ≡ requested_in image.now page }
    {
        if let Err(refusal) = image::refusal(image, Run::MAX_PAGES, Run::MAX_SLOTS) {
            return Run::unread(refusal);
        }
        self = Run::of_image(image);
        if !image::agree(image, self.pages, self.slots) {
            return Run::unread(Refusal::Unsound);
        }
        let served = self.request(page);
        if let Event::Refused(refusal) = served.event {
            if refusal == Refusal::Unsound {
                return Run::unread(Refusal::Unsound);
            }
        }
        served
    }

    // The first refusal of the image writer: 1 or 16.
    fn store_refusal(self, out: &[u8]) -> Result<(), Refusal>
        ensures { told result ≡ store_refusal self out.now }
    {
        if !self.is_sound() {
            return Err(Refusal::Unsound);
        }
        if out.len() < 36 + 3 * self.pages + 2 * self.slots {
            return Err(Refusal::Room);
        }
        Ok(())
    }

    // What the run's image is written from: its numbers, and its tables as they lie in it. It asks for nothing, so that no method of a run
    // does: room, and layers that fit into a mark, are what the writer asks for, `image::Parts::write`.
    pub fn parts(&self) -> Parts<'_>
        ensures sizes { (result.pages ≡ self.now.pages) × (result.slots ≡ self.now.slots) }
        ensures numbers { (result.served ≡ self.now.counts.served) × (result.hits ≡ self.now.counts.hits) × (result.misses ≡ self.now.counts.misses) × (result.best ≡ self.now.counts.best) }
        ensures tables { (result.layer.now ≡ self.now.layer) × (result.priority.now ≡ self.now.ranks.priority) × (result.held.now ≡ self.now.held) }
    {
        Parts {
            pages: self.pages,
            slots: self.slots,
            served: self.counts.served,
            hits: self.counts.hits,
            misses: self.counts.misses,
            best: self.counts.best,
            layer: &self.layer,
            priority: &self.ranks.priority,
            held: &self.held,
        }
    }

    // Writes the run's image at the start of a buffer. Refusals 1, 16: then the buffer is as it was.
    pub fn store(self, out: &mut [u8]) -> Stored
        ensures answer { result ≡ stored self out.old }
        ensures buffer { out.new ≡ stored_bytes self out.old }
    {
        if let Err(refusal) = self.store_refusal(out) {
            return Stored {
                length: 0,
                refusal: Some(refusal),
            };
        }
        let pages = self.pages;
        let slots = self.slots;
        self.parts().write(out);
        Stored {
            length: 36 + 3 * pages + 2 * slots,
            refusal: None,
        }
    }
}
