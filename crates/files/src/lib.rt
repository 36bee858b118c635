// The questions about frames, files and images: the words of a line are read, the public call is made, and its answer written at
// an offset; each answers the offset behind it. That a word is read or the line is bad is a let-else at each: `?` cannot answer a number.
// Assumes nothing.
#![tactic(auto)]

ghost use Rattle.std.specs.Prelude.{length};
ghost use Rattle.refusals.specs.Numbers.{number_in};
ghost use Rattle.hexadecimal.specs.Room.{Wrote};
ghost use Rattle.files.specs.Files.{filled_texts, looked_texts, traced_texts, written_texts};
ghost use Rattle.files.specs.Files.{prioritised_texts, requested_texts, restored_texts, stored_texts, boarded_texts};
ghost use Rattle.files.specs.Files.{fill_answer, look_answer, readtrace_answer, writetrace_answer, readimage_answer, writeimage_answer, board_answer};

use refusals::Refusal;
use run::{Restored, Run};
use trace::Traced;

// The answer of a fill of an area.
fn filled<'a>(
    run: Run,
    page: usize,
    area: &'a mut [u8],
    bytes: &'a [u8],
    out: &mut [u8],
    at: usize,
) -> usize
    ensures { Wrote out.old at (filled_texts run page area.old bytes.now) result out.new }
{
    let refusal = frames::fill(run, page, area, bytes).err();
    let next = answers::first_word(out, at, refusal);
    if refusal.is_some() {
        return next;
    }
    answers::then_bytes(out, next, area)
}

// fill RECORD PAGE AREA BYTES
pub fn fill(line: &[u8], out: &mut [u8], at: usize) -> usize
    ensures { Wrote out.old at (fill_answer line.now) result out.new }
{
    let Some(paged) = asked::read_paged(line) else {
        return answers::bad(out, at);
    };
    let mut area = asked::room(0_u8);
    let Some(size) = fields::bytes(fields::word(line, 3), &mut area) else {
        return answers::bad(out, at);
    };
    let mut bytes = asked::room(0_u8);
    let Some(given) = fields::bytes(fields::word(line, 4), &mut bytes) else {
        return answers::bad(out, at);
    };
    filled(
        paged.run,
        paged.page,
        &mut area[..size],
        fields::first(&bytes, given),
        out,
        at,
    )
}

// The answer of a look at an area.
fn looked(run: Run, page: usize, area: &[u8], out: &mut [u8], at: usize) -> usize
    ensures { Wrote out.old at (looked_texts run page area.now) result out.new }
{
    let refusal = frames::look_refusal(run, page, area).err();
    let next = answers::first_word(out, at, refusal);
    answers::then_bytes(out, next, frames::look(run, page, area))
}

// look RECORD PAGE AREA
pub fn look(line: &[u8], out: &mut [u8], at: usize) -> usize
    ensures { Wrote out.old at (look_answer line.now) result out.new }
{
    let Some(paged) = asked::read_paged(line) else {
        return answers::bad(out, at);
    };
    let mut area = asked::room(0_u8);
    let Some(size) = fields::bytes(fields::word(line, 3), &mut area) else {
        return answers::bad(out, at);
    };
    looked(paged.run, paged.page, fields::first(&area, size), out, at)
}

// The answer of the trace reader.
fn trace_read(traced: Traced, out: &mut [u8], at: usize) -> usize
    ensures { Wrote out.old at (traced_texts traced) result out.new }
{
    let first = answers::first_word(out, at, traced.refusal);
    if traced.refusal.is_some() {
        return first;
    }
    let second = answers::then_number(out, first, traced.requests as u64);
    let third = answers::then_number(out, second, traced.offset as u64);
    answers::then_record(out, third, traced.run)
}

// readtrace BYTES
pub fn readtrace(line: &[u8], out: &mut [u8], at: usize) -> usize
    ensures { Wrote out.old at (readtrace_answer line.now) result out.new }
{
    let mut bytes = asked::room(0_u8);
    let Some(size) = fields::bytes(fields::word(line, 1), &mut bytes) else {
        return answers::bad(out, at);
    };
    trace_read(trace::read(fields::first(&bytes, size)), out, at)
}

// The answer of a writer: how much it wrote, and the whole buffer.
fn written(
    refusal: Option<Refusal>,
    length: usize,
    buffer: &[u8],
    out: &mut [u8],
    at: usize,
) -> usize
    ensures { Wrote out.old at (written_texts (number_in refusal) length buffer.now) result out.new }
{
    let first = answers::first_word(out, at, refusal);
    if refusal.is_some() {
        return first;
    }
    let second = answers::then_number(out, first, length as u64);
    answers::then_bytes(out, second, buffer)
}

// A trace file with a word for its priorities: `default`, or a list. Kept beside the like of it in calls, which makes other calls
// of other arguments: closures for both would be no plainer.
fn trace_by<'a>(
    pages: usize,
    slots: usize,
    list: &'a [u16],
    word: &'a [u8],
    requests: &'a [u16],
    buffer: &'a mut [u8],
    out: &mut [u8],
    at: usize,
) -> usize
    ensures { Wrote out.old at (prioritised_texts pages slots list.now word.now requests.now buffer.old) result out.new }
{
    if word == b"default".as_slice() {
        let done = trace::write_default(pages, slots, list, requests, buffer);
        return written(done.refusal, done.length, buffer, out, at);
    }
    let mut room = asked::room(0_u16);
    let Some(given) = fields::list(word, &mut room) else {
        return answers::bad(out, at);
    };
    let priorities = fields::first(&room, given);
    let done = trace::write(pages, slots, list, priorities, requests, buffer);
    written(done.refusal, done.length, buffer, out, at)
}

// The requests and the buffer of a trace writer, behind its start.
fn trace_requested<'a>(
    pages: usize,
    slots: usize,
    list: &'a [u16],
    line: &'a [u8],
    out: &mut [u8],
    at: usize,
) -> usize
    ensures { Wrote out.old at (requested_texts pages slots list.now line.now) result out.new }
{
    let mut requests = asked::room(0_u16);
    let Some(count) = fields::list(fields::word(line, 5), &mut requests) else {
        return answers::bad(out, at);
    };
    let mut buffer = asked::room(0_u8);
    let Some(size) = fields::bytes(fields::word(line, 6), &mut buffer) else {
        return answers::bad(out, at);
    };
    trace_by(
        pages,
        slots,
        list,
        fields::word(line, 4),
        fields::first(&requests, count),
        &mut buffer[..size],
        out,
        at,
    )
}

// writetrace N K LIST PRIORITIES REQUESTS BUFFER
pub fn writetrace(line: &[u8], out: &mut [u8], at: usize) -> usize
    ensures { Wrote out.old at (writetrace_answer line.now) result out.new }
{
    let mut list = asked::room(0_u16);
    let Some(words) = asked::read_start(line, &mut list) else {
        return answers::bad(out, at);
    };
    trace_requested(
        words.pages,
        words.slots,
        fields::first(&list, words.listed),
        line,
        out,
        at,
    )
}

// The answer of the image reader.
fn image_read(restored: Restored, out: &mut [u8], at: usize) -> usize
    ensures { Wrote out.old at (restored_texts restored) result out.new }
{
    match restored.event {
        Ok(()) => {
            let next = answers::first_word(out, at, None);
            answers::then_record(out, next, restored.run)
        }
        Err(refusal) => answers::refusal(out, at, refusal.number()),
    }
}

// readimage BYTES
pub fn readimage(line: &[u8], out: &mut [u8], at: usize) -> usize
    ensures { Wrote out.old at (readimage_answer line.now) result out.new }
{
    let mut bytes = asked::room(0_u8);
    let Some(size) = fields::bytes(fields::word(line, 1), &mut bytes) else {
        return answers::bad(out, at);
    };
    image_read(Run::blank().restore(fields::first(&bytes, size)), out, at)
}

// The answer of the image writer, over the whole of a buffer.
fn stored(run: Run, buffer: &mut [u8], out: &mut [u8], at: usize) -> usize
    ensures { Wrote out.old at (stored_texts run buffer.old) result out.new }
{
    let done = run.store(buffer);
    written(done.refusal, done.length, buffer, out, at)
}

// writeimage RECORD BUFFER
pub fn writeimage(line: &[u8], out: &mut [u8], at: usize) -> usize
    ensures { Wrote out.old at (writeimage_answer line.now) result out.new }
{
    let Some(run) = asked::read_run(fields::word(line, 1)) else {
        return answers::bad(out, at);
    };
    let mut buffer = asked::room(0_u8);
    let Some(size) = fields::bytes(fields::word(line, 2), &mut buffer) else {
        return answers::bad(out, at);
    };
    stored(run, &mut buffer[..size], out, at)
}

// The answer of the board entry, over the whole of a buffer.
fn boarded(image: &mut [u8], page: u32, out: &mut [u8], at: usize) -> usize
    ensures { Wrote out.old at (boarded_texts image.old page) result out.new }
{
    let packed = board::timonedra_serve(image, page);
    let next = fields::write_number(out, at, u64::from(packed));
    answers::then_bytes(out, next, image)
}

// board BYTES PAGE
pub fn serve_board(line: &[u8], out: &mut [u8], at: usize) -> usize
    ensures { Wrote out.old at (board_answer line.now) result out.new }
{
    let mut bytes = asked::room(0_u8);
    let Some(size) = fields::bytes(fields::word(line, 1), &mut bytes) else {
        return answers::bad(out, at);
    };
    let Some(page) = asked::read_number(fields::word(line, 2)) else {
        return answers::bad(out, at);
    };
    boarded(&mut bytes[..size], page as u32, out, at)
}
