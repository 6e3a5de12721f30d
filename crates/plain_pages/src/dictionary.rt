// The entries of a dictionary page.
ghost use Rattle.std.specs.Prelude.{◌≡◌, true, length, slice_get, unwrap_or, IfErr};
ghost use Rattle.pme_base.specs.Causes.{CausedBy};
ghost use Rattle.pme_base.specs.Steps.{Answers, Quiet};
ghost use Rattle.plain_pages.specs.Cells.{cell_of, null as null_cell};
ghost use Rattle.plain_pages.specs.Pages as pages;

use crate::cell_ref::CellRef;
use crate::faults::{bad_page, no_memory};
use crate::places::Places;
use crate::plain::{cell_at, plain_places};
use parquet_types::{ColumnKind, ColumnSpec};
use pme_base::{Bytes, PagePart, Place, Refusal};
use std::alloc::Global;
use std::marker::Model;

/// The body of a dictionary page with the position of each entry. Contracts see it as the list of its entries.
#[derive(Debug, Drop)]
pub struct Dictionary {
    kind: ColumnKind,
    body: Bytes,
    places: Places,
}

impl Model for Dictionary {
    ghost use Rattle.std.specs.Prelude.{List, map};
    ghost use Rattle.plain_pages.specs.Cells.{Cell};
    ghost use Rattle.plain_pages.specs.Plain as plain;

    ghost Value = { List Cell };

    ghost view = { λ d. map (λ place. plain.cell_at d.kind place d.body) d.places };
}

impl Dictionary {
    /// Reads the dictionary of `count` PLAIN entries in `body`. BadPage reports the number of the first entry that
    /// `body` doesn't hold completely; bytes after the last entry are not read.
    #[tactic(auto, unfolding(crate::specs::Pages::all_there))]
    pub fn build(
        alloc: Global,
        place: &Place,
        spec: &ColumnSpec,
        count: u32,
        body: Bytes,
    ) -> Result<Dictionary, Refusal>
        ensures answers { Answers result (pages.dictionary place.now spec.now count body) }
        ensures quiet { Quiet result }
        ensures causes { CausedBy pages.is_page_cause result }
    {
        let places = match plain_places(alloc, spec.kind, count as usize, 0, body.as_slice()) {
            Ok(places) => places,
            Err(_) => return Err(no_memory()),
        };
        let valid = places.len();
        if valid != count as usize {
            return Err(bad_page(place, PagePart::Dictionary, valid));
        }
        Ok(Dictionary {
            kind: spec.kind,
            body,
            places,
        })
    }

    /// The number of entries.
    pub(crate) fn len(&self) -> usize
        ensures { result ≡ length self.now }
    {
        self.places.len()
    }

    /// Entry number `i`, or null if the dictionary has fewer entries.
    pub(crate) fn entry(&self, i: usize) -> CellRef<'_>
        ensures { cell_of result ≡ pages.entry_at self.now i }
    {
        match self.places.get(i) {
            Some(place) => cell_at(self.kind, place, self.body.as_slice()),
            None => CellRef::Null,
        }
    }
}
