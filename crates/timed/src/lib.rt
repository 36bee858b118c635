// What a benchmark times, exported for C and Rust: whole traces, by sound steps, by the checked request, and as text; an export for each.
// Assumes nothing.
#![tactic(auto)]

ghost use Rattle.std.specs.Prelude.{◌≡◌};
ghost use Rattle.run.specs.History.{run_after};
ghost use Rattle.trace.specs.Reading.{asked};
ghost use Rattle.player.specs.Answer.{answer_length, answered};
ghost use Rattle.timed.specs.Timed.{trace_misses};

use run::Run;

// The misses of a trace, by sound steps over the run's arrays; 0 of a refused file.
#[unsafe(no_mangle)]
pub extern "C" fn timed_replay(file: &[u8]) -> u32
    ensures { result ≡ trace_misses file.now }
{
    let traced = trace::read(file);
    if traced.refusal.is_some() {
        return 0;
    }
    replay::misses(file, traced.offset, traced.requests, traced.run)
}

// The misses of a run after the requests that begin at an offset of a file, each by the public request.
fn checked_misses(file: &[u8], offset: usize, requests: usize, start: Run) -> u32
    ensures { result ≡ (run_after start (asked file.now offset requests)).counts.misses }
{
    let mut run = start;
    for i in 0..requests {
        let page = trace::request_at(file, offset, i);
        let served = run.request(usize::from(page));
        run = served.run;
    }
    run.counts.misses
}

// The same misses, by the public request.
#[unsafe(no_mangle)]
pub extern "C" fn timed_checked(file: &[u8]) -> u32
    ensures { result ≡ trace_misses file.now }
{
    let traced = trace::read(file);
    if traced.refusal.is_some() {
        return 0;
    }
    checked_misses(file, traced.offset, traced.requests, traced.run)
}

// What the trace program prints of a file; 0 where it does not fit.
#[unsafe(no_mangle)]
pub extern "C" fn timed_text<'a>(file: &'a [u8], out: &'a mut [u8]) -> usize
    ensures offset { result ≡ answer_length file.now out.old }
    ensures text { out.new ≡ answered file.now out.old }
{
    player::answer(file, out)
}
