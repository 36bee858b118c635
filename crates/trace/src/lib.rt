// Trace files: the reader, the requests one by one, and the writer. Assumes nothing.
#![tactic(auto)]

ghost use Rattle.std.specs.Prelude.{◌≡◌, ◌≤◌, length};
ghost use Rattle.words.specs.Words.{words, put};
ghost use Rattle.refusals.specs.Numbers.{number};
ghost use Rattle.ranking.specs.Defaults.{default_priorities};
ghost use Rattle.trace.specs.Layout.{trace_header, trace_bytes, offsets_right};
ghost use Rattle.trace.specs.Layout.{traced, request_word, written, written_bytes};
ghost use Rattle.trace.specs.Reading.{header_told, no_trace};
ghost use Rattle.trace.specs.Writing.{Fits, no_file};

use refusals::Refusal;
use run::Run;

// What the reader answers: the started run, the number of requests, and where they begin. Kept beside its refusal as in the crate
// `run`: the blank run and zeros then, which the clause `traced` says.
#[derive(Clone, Copy)]
pub struct Traced {
    pub run: Run,
    pub requests: usize,
    pub offset: usize,
    pub refusal: Option<Refusal>,
}

// What the writer answers: how many bytes it wrote. Kept beside its refusal as in the crate `run`, and apart from the image
// writer's answer: the theorem `refused_write` names both of its values.
#[derive(Clone, Copy)]
pub struct Written {
    pub length: usize,
    pub refusal: Option<Refusal>,
}

// What a header that is right says: how many pages, slots and requests.
#[derive(Clone, Copy)]
struct Header {
    pages: usize,
    slots: usize,
    requests: usize,
}

// The header's three offsets are those of the layout.
#[tactic(auto, unfolding(crate::specs::Layout::offsets_right))]
fn offsets_right(file: &[u8]) -> bool
    requires { 24 ≤ length file.now }
    ensures { result ≡ offsets_right file.now }
{
    // Widened by `as`, here and below: a usize has no From of a u32.
    let pages = words::read_u32(file, 0) as usize;
    let slots = words::read_u32(file, 4) as usize;
    words::read_u32(file, 12) == 24
        && words::read_u32(file, 16) as usize == 24 + 2 * slots
        && words::read_u32(file, 20) as usize == 24 + 2 * slots + 2 * pages
}

// Reads the header. Refusals 13 (under 24 bytes), 2, 3, 14, 15, 13 (total).
fn read_header(file: &[u8]) -> Result<Header, Refusal>
    ensures { result ≡ header_told file.now }
{
    if file.len() < 24 {
        return Err(Refusal::Length);
    }
    let pages = words::read_u32(file, 0) as usize;
    let slots = words::read_u32(file, 4) as usize;
    let requests = words::read_u32(file, 8) as usize;
    begin::limits_refusal(pages, slots, Run::MAX_PAGES, Run::MAX_SLOTS)?;
    if 30000 < requests {
        return Err(Refusal::Requests);
    }
    if !offsets_right(file) {
        return Err(Refusal::Offset);
    }
    if file.len() != 24 + 2 * slots + 2 * pages + 2 * requests {
        return Err(Refusal::Length);
    }
    Ok(Header {
        pages,
        slots,
        requests,
    })
}

#[tactic(auto, unfolding(crate::specs::Reading::no_trace), using(crate::proofs::Reading::given_number))]
fn refused(refusal: Refusal) -> Traced
    ensures { result ≡ no_trace (number refusal) }
{
    Traced {
        run: Run::blank(),
        requests: 0,
        offset: 0,
        refusal: Some(refusal),
    }
}

// Reads a trace file. Refusals 13 (under 24 bytes), 2, 3, 14, 15, 13 (total), 5, 6.
#[tactic(auto, using(crate::proofs::Reading::header_room, crate::proofs::Reading::part_length))]
pub fn read(file: &[u8]) -> Traced
    ensures { result ≡ traced file.now }
{
    let Header {
        pages,
        slots,
        requests,
    } = match read_header(file) {
        Ok(header) => header,
        Err(refusal) => return refused(refusal),
    };
    let list: [u16; 64] = words::read_list(file, 24, slots, 0);
    let priorities: [u16; 1024] = words::read_list(file, 24 + 2 * slots, pages, 0);
    let started = Run::start(pages, slots, &list[..slots], &priorities[..pages]);
    if let Some(refusal) = started.refusal {
        return refused(refusal);
    }
    Traced {
        run: started.run,
        requests,
        offset: 24 + 2 * slots + 2 * pages,
        refusal: None,
    }
}

// The request at a place of a file whose requests begin at `offset`; 0 past the file's end.
#[tactic(auto, using(crate::proofs::Reading::request_past, crate::proofs::Reading::request_there))]
pub fn request_at(file: &[u8], offset: usize, index: usize) -> u16
    ensures { result ≡ request_word file.now offset index }
{
    if file.len() < offset || (file.len() - offset) / 2 <= index {
        return 0;
    }
    words::read_u16(file, offset + 2 * index)
}

// The six numbers of the header.
fn write_header(out: &mut [u8], pages: u32, slots: u32, requests: u32)
    requires { (24 ≤ length out.old) × (pages ≤ 1024) × (slots ≤ 64) }
    ensures { out.new ≡ put out.old 0 (words 4 (trace_header pages slots requests)) }
{
    let header = [
        pages,
        slots,
        requests,
        24,
        24 + 2 * slots,
        24 + 2 * slots + 2 * pages,
    ];
    words::write_numbers(out, 0, &header);
}

// The header and the three lists.
#[tactic(auto, using(crate::proofs::Writing::sections_written))]
fn write_sections<'a>(
    pages: usize,
    slots: usize,
    list: &'a [u16],
    priorities: &'a [u16],
    requests: &'a [u16],
    out: &'a mut [u8],
)
    requires { Fits pages slots list.now priorities.now requests.now out.old }
    ensures { out.new ≡ put out.old 0 (trace_bytes pages slots list.now priorities.now requests.now) }
{
    // The requires bounds all three, so that `as` cuts nothing.
    write_header(out, pages as u32, slots as u32, requests.len() as u32);
    words::write_list(out, 24, list);
    words::write_list(out, 24 + 2 * slots, priorities);
    words::write_list(out, 24 + 2 * slots + 2 * pages, requests);
}

#[tactic(auto, unfolding(crate::specs::Writing::no_file), using(crate::proofs::Reading::given_number))]
fn unwritten(refusal: Refusal) -> Written
    ensures { result ≡ no_file (number refusal) }
{
    Written {
        length: 0,
        refusal: Some(refusal),
    }
}

// Writes a trace file of a start with its priorities and requests. Refusals 2 to 7, 14, 16: then the buffer is as it was.
#[tactic(auto, using(crate::proofs::Writing::start_limits))]
pub fn write<'a>(
    pages: usize,
    slots: usize,
    list: &'a [u16],
    priorities: &'a [u16],
    requests: &'a [u16],
    out: &'a mut [u8],
) -> Written
    ensures answer { result ≡ written pages slots list.now priorities.now requests.now out.old }
    ensures buffer { out.new ≡ written_bytes pages slots list.now priorities.now requests.now out.old }
{
    if let Some(refusal) = Run::start(pages, slots, list, priorities).refusal {
        return unwritten(refusal);
    }
    if 30000 < requests.len() {
        return unwritten(Refusal::Requests);
    }
    let length = 24 + 2 * slots + 2 * pages + 2 * requests.len();
    if out.len() < length {
        return unwritten(Refusal::Room);
    }
    write_sections(pages, slots, list, priorities, requests, out);
    Written {
        length,
        refusal: None,
    }
}

// The same with the default priorities, which are written out.
#[tactic(auto, using(crate::proofs::Writing::limit_pages, crate::proofs::Writing::default_length))]
pub fn write_default<'a>(
    pages: usize,
    slots: usize,
    list: &'a [u16],
    requests: &'a [u16],
    out: &'a mut [u8],
) -> Written
    ensures answer { result ≡ written pages slots list.now (default_priorities pages) requests.now out.old }
    ensures buffer { out.new ≡ written_bytes pages slots list.now (default_priorities pages) requests.now out.old }
{
    if let Err(refusal) = begin::limits_refusal(pages, slots, Run::MAX_PAGES, Run::MAX_SLOTS) {
        return unwritten(refusal);
    }
    let priorities = begin::default_priorities(pages);
    write(pages, slots, list, &priorities[..pages], requests, out)
}
