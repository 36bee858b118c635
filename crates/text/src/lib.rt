// The text of the trace program: written into a lent buffer, or only measured, or passed over. Assumes nothing.
#![tactic(auto)]

ghost use Rattle.std.specs.Prelude.{Bool, true, false, ◌++◌, ◌≡◌, ◌+◌, ◌≤◌, length};
ghost use Rattle.words.specs.Words.{put};
ghost use Rattle.text.specs.Text.{decimal, then_number, event_line, first_line, last_line, refused_line};
ghost use Rattle.text.specs.Told.{told_length, told_room, told_bytes};

use serve::Event;

// How many digits a number has.
fn digits(n: u64) -> usize
    ensures { result ≡ length (decimal n) }
{
    1 + n.checked_ilog10().unwrap_or(0) as usize
}

// Writes a number in decimal at an offset, last digit first, and answers the offset behind it.
pub fn write_number(out: &mut [u8], at: usize, n: u64) -> usize
    requires { at + length (decimal n) ≤ length out.old }
    ensures offset { result ≡ at + length (decimal n) }
    ensures text { out.new ≡ put out.old at (decimal n) }
{
    let end = at + digits(n);
    let mut left = n;
    for i in (at..end).rev() {
        out[i] = (48 + left % 10) as u8;
        left /= 10;
    }
    end
}

// Writes a word at an offset, and answers the offset behind it.
fn write_word(out: &mut [u8], at: usize, word: &[u8]) -> usize
    requires { at + length word.now ≤ length out.old }
    ensures offset { result ≡ at + length word.now }
    ensures text { out.new ≡ put out.old at word.now }
{
    let end = at + word.len();
    out[at..end].copy_from_slice(word);
    end
}

// A way to tell text at an offset: each answers the offset behind what it told. That the way is a type, and no value, has the
// compiler make each line once for each way.
pub trait Telling {
    ghost told: { Bool };

    ghost written: { Bool };

    // Tells a word.
    fn word(out: &mut [u8], at: usize, word: &[u8]) -> usize
        requires { at + told_length told word.now ≤ told_room told written (length out.old) }
        ensures offset { result ≡ at + told_length told word.now }
        ensures text { out.new ≡ told_bytes told written out.old at word.now };

    // Tells a number in decimal.
    fn number(out: &mut [u8], at: usize, n: u64) -> usize
        requires { at + told_length told (decimal n) ≤ told_room told written (length out.old) }
        ensures offset { result ≡ at + told_length told (decimal n) }
        ensures text { out.new ≡ told_bytes told written out.old at (decimal n) };
}

// Tells nothing: the offset stays.
pub struct Untold;

impl Telling for Untold {
    ghost told = { false };

    ghost written = { false };

    fn word(_out: &mut [u8], at: usize, _word: &[u8]) -> usize {
        at
    }

    fn number(_out: &mut [u8], at: usize, _n: u64) -> usize {
        at
    }
}

// Counts how long the text is, and writes nothing.
pub struct Measured;

impl Telling for Measured {
    ghost told = { true };

    ghost written = { false };

    fn word(_out: &mut [u8], at: usize, word: &[u8]) -> usize {
        at + word.len()
    }

    fn number(_out: &mut [u8], at: usize, n: u64) -> usize {
        at + digits(n)
    }
}

// Writes the text into the buffer.
pub struct Written;

impl Telling for Written {
    ghost told = { true };

    ghost written = { true };

    fn word(out: &mut [u8], at: usize, word: &[u8]) -> usize {
        write_word(out, at, word)
    }

    fn number(out: &mut [u8], at: usize, n: u64) -> usize {
        write_number(out, at, n)
    }
}

// Tells a space and a number.
fn tell_next<T: Telling>(out: &mut [u8], at: usize, n: u64) -> usize
    requires { at + told_length T.told (then_number n) ≤ told_room T.told T.written (length out.old) }
    ensures offset { result ≡ at + told_length T.told (then_number n) }
    ensures text { out.new ≡ told_bytes T.told T.written out.old at (then_number n) }
{
    let next = T::word(out, at, b" ");
    T::number(out, next, n)
}

// Tells a word, a space and a number.
fn tell_entry<T: Telling>(out: &mut [u8], at: usize, word: &[u8], n: u64) -> usize
    requires { at + told_length T.told (word.now ++ then_number n) ≤ told_room T.told T.written (length out.old) }
    ensures offset { result ≡ at + told_length T.told (word.now ++ then_number n) }
    ensures text { out.new ≡ told_bytes T.told T.written out.old at (word.now ++ then_number n) }
{
    let next = T::word(out, at, word);
    tell_next::<T>(out, next, n)
}

// Tells the line of a request. A line is at most 100 bytes long.
pub fn tell_line<T: Telling>(out: &mut [u8], at: usize, page: u64, event: Event, best: u64) -> usize
    requires { at + told_length T.told (event_line page event best) ≤ told_room T.told T.written (length out.old) }
    ensures offset { result ≡ at + told_length T.told (event_line page event best) }
    ensures text { out.new ≡ told_bytes T.told T.written out.old at (event_line page event best) }
{
    match event {
        Event::Hit { slot } => {
            let first = tell_entry::<T>(out, at, b"hit", page);
            let second = tell_next::<T>(out, first, slot as u64);
            let third = tell_next::<T>(out, second, best);
            T::word(out, third, b"\n")
        }
        Event::Miss { slot, victim } => {
            let first = tell_entry::<T>(out, at, b"swap", page);
            let second = tell_next::<T>(out, first, slot as u64);
            let third = tell_next::<T>(out, second, victim as u64);
            let fourth = tell_next::<T>(out, third, best);
            T::word(out, fourth, b"\n")
        }
        Event::Refused(refusal) => {
            let first = tell_entry::<T>(out, at, b"refused", page);
            let second = tell_next::<T>(out, first, u64::from(refusal.number()));
            T::word(out, second, b"\n")
        }
    }
}

// Tells the first line, of the sizes of a run and the number of its requests.
pub fn tell_first_line<T: Telling>(
    out: &mut [u8],
    at: usize,
    pages: u64,
    slots: u64,
    requests: u64,
) -> usize
    requires { at + told_length T.told (first_line pages slots requests) ≤ told_room T.told T.written (length out.old) }
    ensures offset { result ≡ at + told_length T.told (first_line pages slots requests) }
    ensures text { out.new ≡ told_bytes T.told T.written out.old at (first_line pages slots requests) }
{
    let first = tell_entry::<T>(out, at, b"pages", pages);
    let second = tell_entry::<T>(out, first, b" slots", slots);
    let third = tell_entry::<T>(out, second, b" requests", requests);
    T::word(out, third, b"\n")
}

// Tells the last line, of the counts of a run. It is at most 108 bytes long.
pub fn tell_last_line<T: Telling>(
    out: &mut [u8],
    at: usize,
    served: u64,
    hits: u64,
    misses: u64,
    best: u64,
) -> usize
    requires { at + told_length T.told (last_line served hits misses best) ≤ told_room T.told T.written (length out.old) }
    ensures offset { result ≡ at + told_length T.told (last_line served hits misses best) }
    ensures text { out.new ≡ told_bytes T.told T.written out.old at (last_line served hits misses best) }
{
    let first = tell_entry::<T>(out, at, b"served", served);
    let second = tell_entry::<T>(out, first, b" hits", hits);
    let third = tell_entry::<T>(out, second, b" misses", misses);
    let fourth = tell_entry::<T>(out, third, b" best", best);
    T::word(out, fourth, b"\n")
}

// Tells the line of a refused file, of the refusal's number.
pub fn tell_refused<T: Telling>(out: &mut [u8], at: usize, number: u64) -> usize
    requires { at + told_length T.told (refused_line number) ≤ told_room T.told T.written (length out.old) }
    ensures offset { result ≡ at + told_length T.told (refused_line number) }
    ensures text { out.new ≡ told_bytes T.told T.written out.old at (refused_line number) }
{
    let first = tell_entry::<T>(out, at, b"refused", number);
    T::word(out, first, b"\n")
}
