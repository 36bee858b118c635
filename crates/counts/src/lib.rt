// The counts of a run: their test, what a request adds to them, and the refusals that they give. Assumes nothing.
#![tactic(auto)]

ghost use Rattle.std.specs.Prelude.{◌≡◌, ◌+◌, ◌≤◌};
ghost use Rattle.paging.specs.Sets.{◌=?◌, bit};
ghost use Rattle.refusals.specs.Numbers.{told};
ghost use Rattle.counts.specs.Counts.{most_served, no_counts, counts_fit, page_refusal, turned};

use refusals::Refusal;
use serve::Event;

#[derive(Clone, Copy)]
pub struct Counts {
    pub served: u32,
    pub hits: u32,
    pub misses: u32,
    pub best: u32,
}

// What a request comes to: the event, best with this request counted (0 beside a refusal), and the counts after it.
#[derive(Clone, Copy)]
pub struct Turn {
    pub event: Event,
    pub best: u32,
    pub counts: Counts,
}

// The counts of a run that has served nothing.
pub fn none() -> Counts
    ensures { result ≡ no_counts }
{
    Counts {
        served: 0,
        hits: 0,
        misses: 0,
        best: 0,
    }
}

// The clauses of a sound run on its counts. Hits and misses are not added before it is known that the sum fits. The limit is that of
// the run's type, which hands it in.
pub fn fit(counts: Counts, most: u32) -> bool
    requires { most ≡ most_served }
    ensures { result ≡ counts_fit counts }
{
    if most < counts.served {
        return false;
    }
    if counts.served < counts.hits {
        return false;
    }
    if counts.served - counts.hits != counts.misses {
        return false;
    }
    counts.best <= counts.misses
}

// The refusal of a request to a sound run, by its numbers: 8 or 9. The limit is handed in, as in `fit`.
pub fn refusal(pages: usize, served: u32, page: usize, most: u32) -> Result<(), Refusal>
    requires { most ≡ most_served }
    ensures { told result ≡ page_refusal pages served page }
{
    if page >= pages {
        return Err(Refusal::NoSuchPage);
    }
    if most <= served {
        return Err(Refusal::AllServed);
    }
    Ok(())
}

// 1 for a page of L_0, else 0: what its request adds to best.
pub fn new_page(layer: u8) -> u32
    ensures { result ≡ bit (layer =? 0) }
{
    u32::from(layer == 0)
}

// The counts after an event; `new` is 1 for a page of L_0.
pub fn counted(counts: Counts, event: Event, new: u32) -> Turn
    requires { (counts.served + 1 ≤ 4294967295) × (counts.hits + 1 ≤ 4294967295) × (counts.misses + 1 ≤ 4294967295) × (counts.best + 1 ≤ 4294967295) × (new ≤ 1) }
    ensures { result ≡ turned counts new event }
{
    let served = counts.served + 1;
    let best = counts.best + new;
    match event {
        Event::Hit { .. } => Turn {
            event,
            best,
            counts: Counts {
                served,
                hits: counts.hits + 1,
                best,
                ..counts
            },
        },
        Event::Miss { .. } => Turn {
            event,
            best,
            counts: Counts {
                served,
                misses: counts.misses + 1,
                best,
                ..counts
            },
        },
        Event::Refused(_) => Turn {
            event,
            best: 0,
            counts,
        },
    }
}
