// The questions about a run: the words of a line are read, the public call is made, and its answer written at an offset; each
// answers the offset behind it. Assumes nothing.
#![tactic(auto)]

ghost use Rattle.std.specs.Prelude.{◌≡◌, length};
ghost use Rattle.words.specs.Words.{put};
ghost use Rattle.refusals.specs.Numbers.{number_in};
ghost use Rattle.hexadecimal.specs.Room.{Wrote};
ghost use Rattle.answers.specs.Answers.{number_texts, unless_refused};
ghost use Rattle.calls.specs.Calls.{pages_of, started_texts, prioritised_texts, served_texts};
ghost use Rattle.calls.specs.Calls.{start_answer, request_answer, trial_answer, layer_answer, certain_answer, selection_answer, sound_answer};

use refusals::Refusal;
use run::{Run, Served, Started};
use serve::Event;

// The answer of a start.
fn started(start: Started, out: &mut [u8], at: usize) -> usize
    ensures { Wrote out.old at (started_texts start) result out.new }
{
    let next = answers::first_word(out, at, start.refusal);
    if start.refusal.is_some() {
        return next;
    }
    answers::then_record(out, next, start.run)
}

// A start with a word for its priorities: `default`, or a list. Kept beside files' `trace_by`, which makes other calls: closures for
// both are no plainer.
fn start_by<'a>(
    pages: usize,
    slots: usize,
    list: &'a [u16],
    word: &'a [u8],
    out: &mut [u8],
    at: usize,
) -> usize
    ensures { Wrote out.old at (prioritised_texts pages slots list.now word.now) result out.new }
{
    if word == b"default".as_slice() {
        return started(Run::start_default(pages, slots, list), out, at);
    }
    let mut room = asked::room(0_u16);
    let Some(given) = fields::list(word, &mut room) else {
        return answers::bad(out, at);
    };
    let priorities = fields::first(&room, given);
    started(Run::start(pages, slots, list, priorities), out, at)
}

// start N K LIST PRIORITIES
pub fn start(line: &[u8], out: &mut [u8], at: usize) -> usize
    ensures { Wrote out.old at (start_answer line.now) result out.new }
{
    let mut list = asked::room(0_u16);
    let Some(words) = asked::read_start(line, &mut list) else {
        return answers::bad(out, at);
    };
    start_by(
        words.pages,
        words.slots,
        fields::first(&list, words.listed),
        fields::word(line, 4),
        out,
        at,
    )
}

// The answer of a request: the event, and unless it is a refusal the next run's record.
fn answered(served: Served, out: &mut [u8], at: usize) -> usize
    ensures { Wrote out.old at (served_texts served) result out.new }
{
    let next = answers::event(out, at, served.event, served.best);
    match served.event {
        Event::Refused(_) => next,
        _ => answers::then_record(out, next, served.run),
    }
}

// request RECORD PAGE. Kept beside trial, layer and certain: what they share is one let-else, and a closure for the rest is longer.
pub fn request(line: &[u8], out: &mut [u8], at: usize) -> usize
    ensures { Wrote out.old at (request_answer line.now) result out.new }
{
    let Some(paged) = asked::read_paged(line) else {
        return answers::bad(out, at);
    };
    answered(paged.run.request(paged.page), out, at)
}

// trial RECORD PAGE
pub fn trial(line: &[u8], out: &mut [u8], at: usize) -> usize
    ensures { Wrote out.old at (trial_answer line.now) result out.new }
{
    let Some(paged) = asked::read_paged(line) else {
        return answers::bad(out, at);
    };
    let served = paged.run.trial(paged.page);
    answers::event(out, at, served.event, served.best)
}

// The number of a refusal, and where it is 0 a number behind it.
fn number_unless(refusal: Option<Refusal>, n: u64, out: &mut [u8], at: usize) -> usize
    ensures { Wrote out.old at (unless_refused (number_in refusal) (number_texts n)) result out.new }
{
    let next = answers::first_word(out, at, refusal);
    if refusal.is_some() {
        return next;
    }
    answers::then_number(out, next, n)
}

// layer RECORD PAGE
pub fn layer(line: &[u8], out: &mut [u8], at: usize) -> usize
    ensures { Wrote out.old at (layer_answer line.now) result out.new }
{
    let Some(paged) = asked::read_paged(line) else {
        return answers::bad(out, at);
    };
    let answer = paged.run.layer(paged.page);
    number_unless(answer.refusal, u64::from(answer.layer), out, at)
}

// certain RECORD PAGE
pub fn certain(line: &[u8], out: &mut [u8], at: usize) -> usize
    ensures { Wrote out.old at (certain_answer line.now) result out.new }
{
    let Some(paged) = asked::read_paged(line) else {
        return answers::bad(out, at);
    };
    let answer = paged.run.certain(paged.page);
    number_unless(answer.refusal, u64::from(answer.certain), out, at)
}

// The pages of a set, in rising order, at the start of a buffer; answers how many.
fn gather(pages: &[bool], list: &mut [u16]) -> usize
    requires { (length pages.now ≡ 1024) × (length list.old ≡ 1024) }
    ensures count { result ≡ length (pages_of pages.now) }
    ensures numbers { list.new ≡ put list.old 0 (pages_of pages.now) }
{
    let mut n = 0;
    for (q, is_in) in pages.iter().enumerate() {
        if *is_in {
            list[n] = q as u16;
            n += 1;
        }
    }
    n
}

// selection RECORD
pub fn selection(line: &[u8], out: &mut [u8], at: usize) -> usize
    ensures { Wrote out.old at (selection_answer line.now) result out.new }
{
    let Some(run) = asked::read_run(fields::word(line, 1)) else {
        return answers::bad(out, at);
    };
    let answer = run.selection();
    if answer.refusal.is_some() {
        return answers::first_word(out, at, answer.refusal);
    }
    let mut list: [u16; 1024] = [0; 1024];
    let n = gather(&answer.pages, &mut list);
    let next = fields::write_word(out, at, b"0 ");
    fields::write_list(out, next, fields::first(&list, n))
}

// sound RECORD
pub fn sound(line: &[u8], out: &mut [u8], at: usize) -> usize
    ensures { Wrote out.old at (sound_answer line.now) result out.new }
{
    let Some(run) = asked::read_run(fields::word(line, 1)) else {
        return answers::bad(out, at);
    };
    fields::write_number(out, at, u64::from(run.is_sound()))
}
