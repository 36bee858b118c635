// Filling a slot's frame, and looking at it. The run is not changed. Assumes nothing.
#![tactic(auto)]

ghost use Rattle.std.specs.Prelude.{◌≡◌, ◌≤◌, ◌<◌, length};
ghost use Rattle.words.specs.Words.{put};
ghost use Rattle.refusals.specs.Numbers.{told};
ghost use Rattle.slots.specs.Slots.{seat, found};
ghost use Rattle.run.specs.Sound.{Sound};
ghost use Rattle.frames.specs.Frames.{fill_refusal, filled, look_refusal, looked};
ghost use Rattle.frames.specs.Laws.{area_refusal};

use refusals::Refusal;
use run::Run;

// The refusals that Fill and Look begin with, for an area of some size: 1, 8, 10.
fn area_refusal(run: Run, page: usize, size: usize) -> Result<(), Refusal>
    ensures { told result ≡ area_refusal run page size 0 }
{
    if !run.is_sound() {
        return Err(Refusal::Unsound);
    }
    let pages = run.pages;
    // A sound run has at most 64 slots, so this fits.
    let frames = 64 * run.slots;
    if pages <= page {
        return Err(Refusal::NoSuchPage);
    }
    if size != frames {
        return Err(Refusal::Area);
    }
    Ok(())
}

// The slot of a page of a sound run.
fn find_slot(run: Run, page: usize) -> Option<usize>
    requires { Sound run × (page < run.pages) }
    ensures { result ≡ found (seat run.held run.slots page) }
{
    let held = run.held;
    slots::find(&held, run.slots, page as u16)
}

// Copies the 64 bytes of a page over the first 64 bytes of a part.
fn copy_page(part: &mut [u8], bytes: &[u8])
    requires { (64 ≤ length part.old) × (length bytes.now ≡ 64) }
    ensures { part.new ≡ put part.old 0 bytes.now }
{
    part[..64].copy_from_slice(&bytes[..64]);
}

// Puts the bytes of a page into its frame. Refusals 1, 8, 10, 11, 12: then the area is as it was.
pub fn fill<'a>(run: Run, page: usize, area: &'a mut [u8], bytes: &'a [u8]) -> Result<(), Refusal>
    ensures number { told result ≡ fill_refusal run page area.old bytes.now }
    ensures frames { area.new ≡ filled run page area.old bytes.now }
{
    area_refusal(run, page, area.len())?;
    if bytes.len() != 64 {
        return Err(Refusal::PageBytes);
    }
    let Some(slot) = find_slot(run, page) else {
        return Err(Refusal::NotCached);
    };
    let at = 64 * slot;
    copy_page(&mut area[at..], bytes);
    Ok(())
}

// Whether Look accepts. Refusals 1, 8, 10, 12.
pub fn look_refusal(run: Run, page: usize, area: &[u8]) -> Result<(), Refusal>
    ensures { told result ≡ look_refusal run page area.now }
{
    area_refusal(run, page, area.len())?;
    let Some(_) = find_slot(run, page) else {
        return Err(Refusal::NotCached);
    };
    Ok(())
}

// The frame of a page: the part of the caller's area, or the empty part at its start.
pub fn look(run: Run, page: usize, area: &[u8]) -> &[u8]
    ensures { result.now ≡ looked run page area.now }
{
    if area_refusal(run, page, area.len()).is_err() {
        return &area[..0];
    }
    let Some(slot) = find_slot(run, page) else {
        return &area[..0];
    };
    let start = 64 * slot;
    let end = start + 64;
    &area[start..end]
}
