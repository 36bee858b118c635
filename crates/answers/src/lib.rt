// The words of an answer, written at an offset of a lent buffer; each answers the offset behind it. Assumes nothing.
#![tactic(auto)]

ghost use Rattle.refusals.specs.Numbers.{number_in};
ghost use Rattle.hexadecimal.specs.Room.{Wrote};
ghost use Rattle.answers.specs.Answers.{bad_line, refusal_texts, number_texts, bytes_texts, record_texts, event_texts};

use refusals::Refusal;
use run::Run;
use serve::Event;

// A line that is no question.
pub fn bad(out: &mut [u8], at: usize) -> usize
    ensures { Wrote out.old at bad_line result out.new }
{
    fields::write_word(out, at, b"bad line")
}

// A refusal alone, by its number: any number, so that a caller needs no case for it.
pub fn refusal(out: &mut [u8], at: usize, number: u8) -> usize
    ensures { Wrote out.old at (refusal_texts number) result out.new }
{
    fields::write_number(out, at, u64::from(number))
}

// The first word of an answer: the number of a refusal, 0 for none.
pub fn first_word(out: &mut [u8], at: usize, refused: Option<Refusal>) -> usize
    ensures { Wrote out.old at (refusal_texts (number_in refused)) result out.new }
{
    refusal(out, at, refusals::number_in(refused))
}

// A space and a number.
pub fn then_number(out: &mut [u8], at: usize, n: u64) -> usize
    ensures { Wrote out.old at (number_texts n) result out.new }
{
    let next = fields::write_word(out, at, b" ");
    fields::write_number(out, next, n)
}

// A space and bytes.
pub fn then_bytes(out: &mut [u8], at: usize, bytes: &[u8]) -> usize
    ensures { Wrote out.old at (bytes_texts bytes.now) result out.new }
{
    let next = fields::write_word(out, at, b" ");
    fields::write_bytes(out, next, bytes)
}

// A space and the record of a sound run; of any other run a space and no bytes.
pub fn then_record(out: &mut [u8], at: usize, run: Run) -> usize
    ensures { Wrote out.old at (record_texts run) result out.new }
{
    // The longest record has 36 + 3·1024 + 2·64 bytes.
    let mut image: [u8; 3236] = [0; 3236];
    let stored = run.store(&mut image);
    then_bytes(out, at, fields::first(&image, stored.length))
}

// What became of a request or a trial.
pub fn event(out: &mut [u8], at: usize, event: Event, best: u32) -> usize
    ensures { Wrote out.old at (event_texts event best) result out.new }
{
    // Kept as casts: u64 has no From<usize>.
    match event {
        Event::Hit { slot } => {
            let first = fields::write_word(out, at, b"0 hit");
            let second = then_number(out, first, slot as u64);
            then_number(out, second, u64::from(best))
        }
        Event::Miss { slot, victim } => {
            let first = fields::write_word(out, at, b"0 swap");
            let second = then_number(out, first, slot as u64);
            let third = then_number(out, second, victim as u64);
            then_number(out, third, u64::from(best))
        }
        Event::Refused(refused) => refusal(out, at, refused.number()),
    }
}
