// The tests of a start list, and the tables of a started run. Assumes nothing.
#![tactic(auto)]

ghost use Rattle.std.specs.Prelude.{◌≡◌, true, ◌≤◌, length, slice_index_or};
ghost use Rattle.paging.specs.Sets.{table};
ghost use Rattle.ranking.specs.Defaults.{default_priorities};
ghost use Rattle.refusals.specs.Numbers.{told};
ghost use Rattle.begin.specs.Limits.{most_pages, most_slots, limits_refusal};
ghost use Rattle.begin.specs.Begin.{below, different, start_layers, start_priorities};
ghost use Rattle.begin.specs.Refusals.{list_refusal, start_refusal};

use refusals::Refusal;

// The refusal that N and k give by themselves: 2 or 3. The limits are those of the run's type, which hands them in.
pub fn limits_refusal(
    pages: usize,
    slots: usize,
    pagelimit: usize,
    slotlimit: usize,
) -> Result<(), Refusal>
    requires { (pagelimit ≡ most_pages) × (slotlimit ≡ most_slots) }
    ensures { told result ≡ limits_refusal pages slots }
{
    if pages < 1 || pagelimit < pages {
        return Err(Refusal::Pages);
    }
    if slots < 1 || slotlimit < slots || pages < slots {
        return Err(Refusal::Slots);
    }
    Ok(())
}

// Each start page is below `pages`.
fn all_below(list: &[u16], pages: usize) -> bool
    ensures { result ≡ below pages list.now }
{
    list.iter().all(|page| usize::from(*page) < pages)
}

// No start page stands twice.
fn all_different(list: &[u16]) -> bool
    ensures { result ≡ different list.now }
{
    list.iter()
        .enumerate()
        .all(|(i, page)| !list[..i].contains(page))
}

// The first refusal of a start that its numbers and its list give: 2 to 6.
#[tactic(auto, using(crate::proofs::RefusalLaws::refuse_below, crate::proofs::RefusalLaws::refuse_different, crate::proofs::RefusalLaws::refuse_nothing))]
fn list_refusal(
    pages: usize,
    slots: usize,
    list: &[u16],
    pagelimit: usize,
    slotlimit: usize,
) -> Result<(), Refusal>
    requires { (pagelimit ≡ most_pages) × (slotlimit ≡ most_slots) }
    ensures { told result ≡ list_refusal pages slots list.now }
{
    limits_refusal(pages, slots, pagelimit, slotlimit)?;
    if list.len() != slots {
        return Err(Refusal::StartLength);
    }
    if !all_below(list, pages) {
        return Err(Refusal::StartPage);
    }
    if !all_different(list) {
        return Err(Refusal::StartRepeat);
    }
    Ok(())
}

// The first refusal of a start with a list of so many priorities: 2 to 7.
pub fn refusal(
    pages: usize,
    slots: usize,
    list: &[u16],
    priorities: usize,
    pagelimit: usize,
    slotlimit: usize,
) -> Result<(), Refusal>
    requires { (pagelimit ≡ most_pages) × (slotlimit ≡ most_slots) }
    ensures { told result ≡ start_refusal pages slots list.now priorities }
{
    list_refusal(pages, slots, list, pagelimit, slotlimit)?;
    if priorities != pages {
        return Err(Refusal::Priorities);
    }
    Ok(())
}

// The layer of each page: i + 1 for the page at place i of the list, 0 for every other.
pub fn layers_of(list: &[u16], pages: usize) -> [u8; 1024]
    requires { (pages ≤ 1024) × (length list.now ≤ 64) × (below pages list.now ≡ true) × (different list.now ≡ true) }
    ensures { result ≡ start_layers pages list.now }
{
    let mut layer: [u8; 1024] = [0; 1024];
    for (i, page) in list.iter().enumerate() {
        layer[usize::from(*page)] = (i + 1) as u8;
    }
    layer
}

// A list at the start of a table, and `rest` in each entry after it: the priorities of the pages, the pages in the slots.
pub fn padded<const N: usize>(list: &[u16], rest: u16) -> [u16; N]
    requires { length list.now ≤ N }
    ensures { result ≡ table N (length list.now) rest (λ i. slice_index_or list.now i rest) }
{
    let mut table = [rest; N];
    table[..list.len()].copy_from_slice(list);
    table
}

// The default priority of each page.
pub fn default_priorities(pages: usize) -> [u16; 1024]
    requires { pages ≤ 1024 }
    ensures { result ≡ start_priorities pages (default_priorities pages) }
{
    let mut priority: [u16; 1024] = [0; 1024];
    for q in 0..pages {
        priority[q] = ranking::default_priority(q);
    }
    priority
}
