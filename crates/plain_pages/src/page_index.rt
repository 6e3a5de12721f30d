// The index of a data page: for each cell its null state and the place of its value.
ghost use Rattle.std.specs.Prelude.{◌≡◌, ◌≤◌, ◌<◌, ◌^◌, true, length, take, IfOk, IfErr};
ghost use Rattle.std.specs.Prelude.{pos, ◌≤ℤ◌};
ghost use Rattle.std.specs.Int.{cast_unsigned, w32};
ghost use Rattle.std.specs.Option.{option_copied};
ghost use Rattle.pme_base.specs.Causes.{CausedBy};
ghost use Rattle.pme_base.specs.Steps.{Answers, Quiet};
ghost use Rattle.pme_base.specs.declared.refusal.PagePart.TheVariants.{Values};
ghost use Rattle.plain_pages.specs.PageInside as inside;
ghost use Rattle.plain_pages.specs.Pages as pages;
ghost use Rattle.plain_pages.specs.Plain as plain;

use crate::dictionary::Dictionary;
use crate::faults::{bad_page, no_memory};
use crate::levels::{count_below, read_levels};
use crate::places::Places;
use crate::plain::plain_places;
use crate::ranks::Ranks;
use hybrid_runs::first_values;
use parquet_types::{ColumnKind, ColumnSpec, DataHead};
use pme_base::{OutOfMemory, PagePart, Place, Refusal};
use std::alloc::Global;

/// An index of a page's cells: which are null, and at which places the values of the others begin. PLAIN values of a
/// fixed size need no memory; byte arrays and dictionary indexes need four bytes each (byte arrays in a body of 4 GiB
/// or more eight), and each cell of an OPTIONAL column needs four bytes more.
#[derive(Debug, Drop)]
pub struct PageIndex {
    pub(crate) kind: ColumnKind,
    pub(crate) coded: bool,
    pub(crate) ranks: Ranks,
    pub(crate) places: Places,
}

impl PageIndex {
    /// Builds the index of a data page's body. With encoding 0 its values are PLAIN, otherwise they are indexes into
    /// `dictionary`. BadPage reports the first faulty level, or, if all levels are valid, the first faulty value: one
    /// that the body doesn't hold completely, or an index at or above the number of entries.
    pub fn build(
        alloc: Global,
        place: &Place,
        spec: &ColumnSpec,
        head: &DataHead,
        dictionary: Option<&Dictionary>,
        body: &[u8],
    ) -> Result<PageIndex, Refusal>
        requires { pos 0 ≤ℤ head.now.num_values }
        ensures answers { Answers
            (inside.cells_by_index (pages.entries_of (option_copied dictionary.entry)) body.now result)
            (pages.page place.now spec.now head.now
            (pages.entries_of (option_copied dictionary.entry)) body.now) }
        ensures count { IfOk result (λ index.
            length (inside.cells_of index (pages.entries_of (option_copied dictionary.entry)) body.now)
            ≡ cast_unsigned w32 head.now.num_values) }
        ensures quiet { Quiet result }
        ensures causes { CausedBy pages.is_page_cause result }
    {
        read_index(alloc, place, spec, head, dictionary, body)
    }
}

/// `PageIndex::build`, with a contract over the fields of the index.
#[tactic(auto, unfolding(crate::specs::PageInside::index_read), using(crate::proofs::PageLemmas::cell_counts))]
fn read_index(
    alloc: Global,
    place: &Place,
    spec: &ColumnSpec,
    head: &DataHead,
    dictionary: Option<&Dictionary>,
    body: &[u8],
) -> Result<PageIndex, Refusal>
    requires { pos 0 ≤ℤ head.now.num_values }
    ensures answers { Answers
        (inside.cells_by_index (pages.entries_of (option_copied dictionary.entry)) body.now result)
        (inside.page_read place.now spec.now head.now
        (pages.entries_of (option_copied dictionary.entry)) body.now) }
    ensures count { IfOk result (λ index.
        length (inside.cells_of index (pages.entries_of (option_copied dictionary.entry)) body.now)
        ≡ cast_unsigned w32 head.now.num_values) }
    ensures quiet { Quiet result }
    ensures causes { CausedBy pages.is_page_cause result }
{
    let coded = head.encoding != 0;
    let levels = read_levels(alloc, place, spec.optional, head.num_values as usize, body)?;
    let values = DefinedValues {
        count: levels.defined,
        start: levels.start,
        entries: entry_count(dictionary),
    };
    let places = read_values(alloc, place, spec.kind, coded, &values, body)?;
    Ok(PageIndex {
        kind: spec.kind,
        coded,
        ranks: levels.ranks,
        places,
    })
}

/// The number of dictionary entries; 0 without a dictionary.
fn entry_count(dictionary: Option<&Dictionary>) -> usize
    ensures { result ≡ length (pages.entries_of (option_copied dictionary.entry)) }
{
    match dictionary {
        Some(dictionary) => dictionary.len(),
        None => 0,
    }
}

/// The defined values of a page: their number, the offset in the body at which they begin, and the number of entries
/// that the page's dictionary has.
#[derive(Drop)]
struct DefinedValues {
    count: usize,
    start: usize,
    entries: usize,
}

/// Reads the places of values: offsets in the body, or entry numbers if the values are dictionary indexes (`coded`).
#[tactic(auto, unfolding(crate::specs::PageInside::values_read))]
fn read_values(
    alloc: Global,
    place: &Place,
    kind: ColumnKind,
    coded: bool,
    defined: &DefinedValues,
    body: &[u8],
) -> Result<Places, Refusal>
    requires start { defined.now.start ≤ length body.now }
    requires near { defined.now.start < 2 ^ 33 }
    requires few { defined.now.count < 2 ^ 33 }
    ensures answers { Answers result (inside.values_read place.now kind coded defined.now.entries
        defined.now.count defined.now.start body.now) }
    ensures quiet { Quiet result }
    ensures causes { CausedBy pages.is_page_cause result }
{
    if coded {
        read_entries(
            alloc,
            place,
            defined.entries,
            defined.count,
            &body[defined.start..],
        )
    } else {
        read_plain(alloc, place, kind, defined.count, defined.start, body)
    }
}

/// Reads the places of `count` PLAIN values from offset `start` on.
#[tactic(auto, unfolding(crate::specs::Pages::all_there))]
fn read_plain(
    alloc: Global,
    place: &Place,
    kind: ColumnKind,
    count: usize,
    start: usize,
    body: &[u8],
) -> Result<Places, Refusal>
    requires start { start ≤ length body.now }
    requires near { start < 2 ^ 33 }
    requires few { count < 2 ^ 33 }
    ensures answers { Answers result (pages.all_there place.now Values count
        (plain.places kind count (plain.place_of_byte kind start) body.now)) }
    ensures quiet { Quiet result }
    ensures causes { CausedBy pages.is_page_cause result }
{
    let places = match plain_places(alloc, kind, count, start, body) {
        Ok(places) => places,
        Err(_) => return Err(no_memory()),
    };
    let valid = places.len();
    if valid != count {
        return Err(bad_page(place, PagePart::Values, valid));
    }
    Ok(places)
}

/// Reads `count` dictionary indexes, each below the number of entries.
#[tactic(auto, unfolding(crate::specs::Pages::all_below))]
fn read_entries(
    alloc: Global,
    place: &Place,
    entries: usize,
    count: usize,
    bytes: &[u8],
) -> Result<Places, Refusal>
    ensures answers { Answers result (pages.all_below place.now Values entries count
        (take count (pages.indexes bytes.now))) }
    ensures quiet { Quiet result }
    ensures causes { CausedBy pages.is_page_cause result }
{
    let indexes = match read_indexes(alloc, count, bytes) {
        Ok(indexes) => indexes,
        Err(_) => return Err(no_memory()),
    };
    let valid = count_below(entries, indexes.as_slice());
    if valid != count {
        return Err(bad_page(place, PagePart::Values, valid));
    }
    Ok(Places::listed(indexes))
}

/// Reads up to `count` dictionary indexes: a byte with their bit width, then a hybrid of that width. A width above 32
/// gives no indexes.
#[tactic(auto, unfolding(crate::specs::Pages::indexes))]
fn read_indexes(alloc: Global, count: usize, bytes: &[u8]) -> Result<Vec<u32>, OutOfMemory>
    ensures { IfOk result (λ indexes. indexes.items ≡ take count (pages.indexes bytes.now)) }
{
    match bytes {
        [] => Ok(Vec::new(alloc)),
        [width, runs @ ..] => {
            if *width > 32 {
                return Ok(Vec::new(alloc));
            }
            first_values(alloc, u32::from(*width), count, runs)
        }
    }
}
