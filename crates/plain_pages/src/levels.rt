// The definition levels of a data page.
ghost use Rattle.std.specs.Prelude.{◌≡◌, ◌+◌, ◌^◌, ◌<◌, ◌≤◌, ◌==◌, length, take, if◌then◌else◌, IfOk};
ghost use Rattle.pme_base.specs.Causes.{CausedBy};
ghost use Rattle.pme_base.specs.Steps.{Answers, Quiet};
ghost use Rattle.plain_pages.specs.PageInside as inside;
ghost use Rattle.plain_pages.specs.Pages as pages;

use crate::faults::{bad_page, no_memory};
use crate::ranks::{NO_RANK, Ranks};
use hybrid_runs::first_values;
use pme_base::{OutOfMemory, PagePart, Place, Refusal};
use std::alloc::Global;

/// The decoded definition levels of a page: the rank of each cell, the number of defined values, and the offset in the
/// body at which the values begin.
#[derive(Debug, Drop)]
pub struct LevelsRead {
    pub ranks: Ranks,
    pub defined: usize,
    pub start: usize,
}

/// Reads the definition levels of a page with `count` cells. In a REQUIRED column they are all 1; in an OPTIONAL one
/// they are an RLE/bit-packed hybrid of bit width 1, preceded by its length in four bytes. BadPage reports the first
/// level that is missing or above 1.
#[tactic(auto, unfolding(crate::specs::PageInside::levels_read))]
pub fn read_levels(
    alloc: Global,
    place: &Place,
    optional: bool,
    count: usize,
    body: &[u8],
) -> Result<LevelsRead, Refusal>
    requires { count < 2 ^ 31 }
    ensures answers { Answers result (inside.levels_read place.now optional count body.now) }
    ensures count { IfOk result (λ levels. length levels.ranks ≡ count) }
    ensures start { IfOk result (λ levels. levels.start ≤ length body.now) }
    ensures near { IfOk result (λ levels. levels.start < 2 ^ 33) }
    ensures defined { IfOk result (λ levels. levels.defined ≤ count) }
    ensures quiet { Quiet result }
    ensures causes { CausedBy pages.is_page_cause result }
{
    if !optional {
        return Ok(LevelsRead {
            ranks: Ranks::every(count),
            defined: count,
            start: 0,
        });
    }
    let Some((size, rest)) = body.split_first_chunk::<4>() else {
        return Err(bad_page(place, PagePart::Levels, 0));
    };
    read_hybrid(
        alloc,
        place,
        count,
        u32::from_le_bytes(*size) as usize,
        rest,
    )
}

/// Reads `count` definition levels from a hybrid that takes the first `size` of `bytes`.
#[tactic(auto, unfolding(crate::specs::PageInside::levels_within, crate::specs::Pages::all_below))]
fn read_hybrid(
    alloc: Global,
    place: &Place,
    count: usize,
    size: usize,
    bytes: &[u8],
) -> Result<LevelsRead, Refusal>
    requires count { count < 2 ^ 31 }
    requires size { size < 2 ^ 32 }
    ensures answers { Answers result (inside.levels_within place.now count size bytes.now) }
    ensures count { IfOk result (λ levels. length levels.ranks ≡ count) }
    ensures start { IfOk result (λ levels. levels.start ≤ 4 + length bytes.now) }
    ensures near { IfOk result (λ levels. levels.start < 2 ^ 33) }
    ensures defined { IfOk result (λ levels. levels.defined ≤ count) }
    ensures quiet { Quiet result }
    ensures causes { CausedBy pages.is_page_cause result }
{
    if bytes.len() < size {
        return Err(bad_page(place, PagePart::Levels, 0));
    }
    let levels = match first_values(alloc, 1, count, &bytes[..size]) {
        Ok(levels) => levels,
        Err(_) => return Err(no_memory()),
    };
    let valid = count_below(2, levels.as_slice());
    if valid != count {
        return Err(bad_page(place, PagePart::Levels, valid));
    }
    match ranks_of_levels(alloc, 4 + size, levels.as_slice()) {
        Ok(read) => Ok(read),
        Err(_) => Err(no_memory()),
    }
}

/// The number of leading values that are below `limit`.
pub fn count_below(limit: usize, values: &[u32]) -> usize
    ensures { result ≡ pages.count_below limit values.now }
{
    let mut count = 0;
    for value in values {
        if *value as usize >= limit {
            return count;
        }
        count += 1;
    }
    count
}

/// The ranks of the cells with these definition levels, for a page whose values begin at offset `start`.
fn ranks_of_levels(alloc: Global, start: usize, levels: &[u32]) -> Result<LevelsRead, OutOfMemory>
    requires { length levels.now < 2 ^ 31 }
    ensures read { IfOk result (λ read. read ≡ inside.levels_before start levels.now) }
    ensures count { IfOk result (λ read. length read.ranks ≡ length levels.now) }
    ensures defined { IfOk result (λ read. read.defined ≤ length levels.now) }
    ensures start { IfOk result (λ read. read.start ≡ start) }
{
    let mut ranks = Vec::new(alloc);
    let mut defined = 0;
    for level in levels {
        ranks.push(rank(*level, defined))?;
        defined = defined_after(*level, defined);
    }
    Ok(LevelsRead {
        ranks: Ranks::listed(ranks),
        defined: defined as usize,
        start,
    })
}

fn rank(level: u32, defined: u32) -> u32
    ensures { result ≡ (if level == 0 then 4294967295 else defined) }
{
    if level == 0 { NO_RANK } else { defined }
}

fn defined_after(level: u32, defined: u32) -> u32
    requires { defined < 2 ^ 31 }
    ensures { result ≡ (if level == 0 then defined else defined + 1) }
{
    if level == 0 { defined } else { defined + 1 }
}
