// What a line asks: its words, read into values. A word that does not fit makes the line no question. Assumes nothing.
#![tactic(auto)]

ghost use Rattle.std.specs.Prelude.{◌≡◌, length, replicate};
ghost use Rattle.image.specs.Layout.{image_refusal};
ghost use Rattle.fields.specs.Fields.{word_of, list_after};
ghost use Rattle.asked.specs.Asked.{number_in, run_in, run_of, paged_of, start_of};

use run::Run;

// A run and a page.
#[derive(Clone, Copy)]
pub struct Paged {
    pub run: Run,
    pub page: usize,
}

// The numbers of pages and slots of a start, and how many pages its list has.
#[derive(Clone, Copy)]
pub struct StartWords {
    pub pages: usize,
    pub slots: usize,
    pub listed: usize,
}

// Room for the bytes or the numbers in any word of a line: of fixed size, since nothing allocates. The second promise is what lending the array as a slice needs.
pub fn room<T: Copy>(blank: T) -> [T; 131072]
    ensures entries { result ≡ replicate 131072 blank }
    ensures size { 131072 ≡ length result }
{
    [blank; 131072]
}

// A number below 2^32, wide enough for every call.
pub fn read_number(word: &[u8]) -> Option<u64>
    ensures { result ≡ number_in word.now }
{
    fields::number(word, u32::MAX)
}

// The run in an image; where marks and slots differ the blank run, which is unsound as well.
fn run_in(image: &[u8]) -> Run
    requires { image_refusal image.now ≡ 0 }
    ensures { result ≡ run_in image.now }
{
    let run = Run::in_image(image);
    if image::agree(image, run.pages, run.slots) {
        run
    } else {
        Run::blank()
    }
}

// The run of a record. One whose length or header is not a stored run's is refused, and so is a longer one.
pub fn read_run(word: &[u8]) -> Option<Run>
    ensures { result ≡ run_of word.now }
{
    let mut bytes: [u8; 3236] = [0; 3236];
    let n = fields::bytes(word, &mut bytes)?;
    let image = fields::first(&bytes, n);
    if image::refusal(image, Run::MAX_PAGES, Run::MAX_SLOTS).is_err() {
        return None;
    }
    Some(run_in(image))
}

// The record and the page that stand behind the first word.
pub fn read_paged(line: &[u8]) -> Option<Paged>
    ensures { result ≡ paged_of line.now }
{
    let run = read_run(fields::word(line, 1))?;
    let page = read_number(fields::word(line, 2))? as usize;
    Some(Paged { run, page })
}

// N, K and LIST, the words behind the first of a line that describes a start; the list goes to the start of a buffer.
pub fn read_start(line: &[u8], list: &mut [u16]) -> Option<StartWords>
    ensures words { result ≡ start_of (length list.old) line.now }
    ensures numbers { list.new ≡ list_after (word_of 3 line.now) list.old }
{
    let third = fields::list(fields::word(line, 3), list);
    let pages = read_number(fields::word(line, 1))? as usize;
    let slots = read_number(fields::word(line, 2))? as usize;
    let listed = third?;
    Some(StartWords {
        pages,
        slots,
        listed,
    })
}
