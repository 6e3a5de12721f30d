// The cells of a data page, read through its index.
ghost use Rattle.std.specs.Prelude.{◌≡◌, ◌<◌, length, slice_get, unwrap_or, Some};
ghost use Rattle.std.specs.Option.{option_copied};
ghost use Rattle.plain_pages.specs.Cells.{cell_of, null as null_cell};
ghost use Rattle.plain_pages.specs.PageInside as inside;
ghost use Rattle.plain_pages.specs.Pages as pages;

use crate::cell_ref::CellRef;
use crate::dictionary::Dictionary;
use crate::page_index::PageIndex;
use crate::plain::cell_at;
use std::marker::Model;

/// The cells of a page, borrowed from its body and its dictionary. Contracts see it as the list of the cells.
#[derive(Drop)]
pub struct PageView<'a> {
    body: &'a [u8],
    index: &'a PageIndex,
    dictionary: Option<&'a Dictionary>,
}

impl<'a> Model for PageView<'a> {
    ghost use Rattle.std.specs.Prelude.{List};
    ghost use Rattle.std.specs.Option.{option_copied};
    ghost use Rattle.plain_pages.specs.Cells.{Cell};
    ghost use Rattle.plain_pages.specs.PageInside.{cells_of};
    ghost use Rattle.plain_pages.specs.Pages.{entries_of};

    ghost Value = { List Cell };

    ghost view = { λ v. cells_of v.index.now (entries_of (option_copied v.dictionary)) v.body.now };
}

impl<'a> PageView<'a> {
    /// The cells that `index` finds in `body`. With the body and the dictionary that the index was built from, these
    /// are the page's cells as `PageIndex::build` defines them.
    pub fn new(
        body: &'a [u8],
        index: &'a PageIndex,
        dictionary: Option<&'a Dictionary>,
    ) -> PageView<'a>
        ensures { result ≡ inside.cells_of index.now
            (pages.entries_of (option_copied dictionary.entry)) body.now }
    {
        PageView {
            body,
            index,
            dictionary,
        }
    }

    /// The number of cells, nulls included.
    #[tactic(auto, unfolding(crate::specs::PageInside::cells_of))]
    pub fn count(&self) -> usize
        ensures { result ≡ length self.now }
    {
        let index = self.index;
        index.ranks.len()
    }

    /// Cell number `i`, borrowed from the body or the dictionary without a copy.
    #[tactic(auto, unfolding(crate::specs::PageInside::cells_of))]
    pub fn cell(&self, i: usize) -> CellRef<'a>
        requires { i < length self.now }
        ensures { slice_get self.now i ≡ Some (cell_of result) }
    {
        let index = self.index;
        let Some(rank) = index.ranks.get(i) else {
            return CellRef::Null;
        };
        let Some(k) = rank else {
            return CellRef::Null;
        };
        let Some(place) = index.places.get(k) else {
            return CellRef::Null;
        };
        if index.coded {
            return entry_at(self.dictionary, place);
        }
        cell_at(index.kind, place, self.body)
    }
}

/// Entry number `i`, or null if there is no dictionary or it has fewer entries.
fn entry_at<'a>(dictionary: Option<&'a Dictionary>, i: usize) -> CellRef<'a>
    ensures { cell_of result ≡ pages.entry_at
        (pages.entries_of (option_copied dictionary.entry)) i }
{
    match dictionary {
        Some(dictionary) => dictionary.entry(i),
        None => CellRef::Null,
    }
}
