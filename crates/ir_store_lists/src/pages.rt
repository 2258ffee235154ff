//! Slots of ids that were assigned in order. Each page of ids counts its first ids whose slots are consecutive. In up
//! to three positions, the cuts, one slot may be skipped, since the head of a block takes a slot.
ghost use Rattle.std.specs.Prelude.{◌≡◌, ℕ, ◌+◌, ◌*◌, ◌<◌, ◌++◌, ◌∷◌, [], length, MatchResult};
ghost use Rattle.ir_store_lists.specs.Pages.{step_at, trailing, slot_by, StoresFirstOnly, Counted, Forgotten, Learnt};

use std::alloc::AllocError;

/// The number of ids of a page.
const PAGE: usize = 64;

/// The cut of a page that has none: no position of a page is that large.
const NO_CUT: u8 = 64;

/// A page of ids. Cuts are positions in the page.
#[derive(Clone, Copy)]
pub(crate) struct IdPage {
    /// The slot of the first id, minus the id.
    shift: u32,
    /// The number of ids that are counted.
    count: u8,
    /// The cuts: from each of these positions on, slots are one larger.
    first: u8,
    second: u8,
    third: u8,
}

/// Returns 1 from the cut on, and 0 before it.
fn step_at(cut: u8, place: u8) -> usize
    ensures { result ≡ step_at cut place }
{
    if place < cut { 0 } else { 1 }
}

/// Returns the slot of the id at a position of a page, minus the id, if the id is counted.
fn trailing(page: &IdPage, place: u8) -> usize
    ensures is { result ≡ trailing page.now place }
    ensures few { result < 4294967300 }
{
    page.shift as usize
        + step_at(page.first, place)
        + step_at(page.second, place)
        + step_at(page.third, place)
}

/// Returns the slot of an id, if the id is counted.
pub(crate) fn slot_by(pages: &Vec<IdPage>, id: u32) -> Option<usize>
    ensures { result ≡ slot_by pages.now.items id }
{
    let id = id as usize;
    let page = pages.get(id / PAGE)?;
    let place = (id % PAGE) as u8;
    if place < page.count {
        Some(id + trailing(page, place))
    } else {
        None
    }
}

/// Returns a page that counts one id.
fn new_page(shift: u32) -> IdPage
    ensures { StoresFirstOnly shift result }
{
    IdPage {
        shift,
        count: 1,
        first: NO_CUT,
        second: NO_CUT,
        third: NO_CUT,
    }
}

/// Returns the page with a cut at the first position that isn't counted, if it has fewer than three cuts.
fn cut(page: IdPage) -> IdPage
    requires { page.count < 64 }
    ensures count { result.count ≡ page.count }
    ensures trailing { (p : ℕ) → p < page.count → trailing result p ≡ trailing page p }
{
    let mut page = page;
    if page.first == NO_CUT {
        page.first = page.count;
    } else if page.second == NO_CUT {
        page.second = page.count;
    } else if page.third == NO_CUT {
        page.third = page.count;
    }
    page
}

/// Returns the page with one more id counted.
fn with_one_more(page: IdPage) -> IdPage
    requires { page.count < 64 }
    ensures { result ≡ record page { count = page.count + 1 } }
{
    let mut page = page;
    page.count += 1;
    page
}

/// Counts the first id that isn't counted, whose slot is the id plus `shift`, with a cut if needed. If a cut doesn't
/// help either, the page is returned unchanged.
fn counted(page: IdPage, shift: usize) -> IdPage
    requires { page.count < 64 }
    ensures { Counted page.count shift page result }
{
    let place = page.count;
    if trailing(&page, place) == shift {
        return with_one_more(page);
    }
    let cut = cut(page);
    if trailing(&cut, place) == shift {
        return with_one_more(cut);
    }
    page
}

/// Stops counting an id and the ids after it in its page.
pub(crate) fn forget(pages: &mut Vec<IdPage>, id: u32)
    ensures { Forgotten id pages.old.items pages.new.items }
{
    let at = id as usize / PAGE;
    let place = (id as usize % PAGE) as u8;
    if at < pages.len() {
        let mut page = pages[at];
        if place < page.count {
            page.count = place;
            pages[at] = page;
        }
    }
}

/// Counts an id with its slot, if all earlier ids of its page are counted and the slot follows theirs. If memory for a
/// page runs out, the id isn't counted.
pub(crate) fn learn(pages: &mut Vec<IdPage>, id: u32, slot: u32)
    ensures { Learnt id slot pages.old.items pages.new.items }
{
    if slot < id {
        return;
    }
    let shift = slot - id;
    let at = id as usize / PAGE;
    let place = (id as usize % PAGE) as u8;
    if at < pages.len() {
        learn_in(pages, at, place, shift);
    } else if at == pages.len() && place == 0 {
        let _kept = open(pages, new_page(shift));
    }
}

/// Counts an id in an existing page. `place` is its position in the page; `shift` is its slot minus the id.
fn learn_in(pages: &mut Vec<IdPage>, at: usize, place: u8, shift: u32)
    requires at { at < length pages.old.items }
    requires place { place < 64 }
    ensures { Learnt (at * 64 + place) (at * 64 + place + shift) pages.old.items pages.new.items }
{
    let page = pages[at];
    if place == 0 {
        pages[at] = new_page(shift);
    } else if page.count == place {
        pages[at] = counted(page, shift as usize);
    }
}

/// Adds a page.
fn open(pages: &mut Vec<IdPage>, page: IdPage) -> Result<(), AllocError>
    ensures { MatchResult result (λ _. pages.new.items ≡ pages.old.items ++ page ∷ []) (λ _. pages.new.items ≡ pages.old.items) }
{
    match pages.push(page) {
        Ok(()) => Ok(()),
        Err(_) => Err(AllocError),
    }
}
