// What a benchmark times, as C and Rust call it. A crate of its own, since C's exports need one. Assumes nothing.
#![tactic(auto)]

ghost use Rattle.std.specs.Prelude.{◌≡◌};
ghost use Rattle.player.specs.Answer.{answer_length, answered};
ghost use Rattle.timed.specs.Timed.{trace_misses};

// The misses of a trace, by sound steps over the run's arrays; 0 of a refused file.
#[unsafe(no_mangle)]
pub extern "C" fn timed_replay(file: &[u8]) -> u32
    ensures { result ≡ trace_misses file.now }
{
    timed::timed_replay(file)
}

// The same misses, by the public request.
#[unsafe(no_mangle)]
pub extern "C" fn timed_checked(file: &[u8]) -> u32
    ensures { result ≡ trace_misses file.now }
{
    timed::timed_checked(file)
}

// What the trace program prints of a file; 0 where it does not fit.
#[unsafe(no_mangle)]
pub extern "C" fn timed_text<'a>(file: &'a [u8], out: &'a mut [u8]) -> usize
    ensures offset { result ≡ answer_length file.now out.old }
    ensures text { out.new ≡ answered file.now out.old }
{
    timed::timed_text(file, out)
}
