// Places in a file: which part a refusal is about, and which part a module is.
ghost use Rattle.std.specs.Prelude.{◌≡◌, ◌≤◌, ◌↔◌, IsOk, IfOk};
ghost use Rattle.pme_base.specs.declared.place.PlaceKind.TheVariants as kind_of;
ghost use Rattle.pme_base.specs.Places.{NeedsColumn, NeedsPage, place_of};

use crate::limits::ORDINAL_LIMIT;
use thiserror::Error;

/// The kind of a place: the file itself, a module on its own, or a part of a file.
#[derive(Clone, Copy, Debug, PartialEq, Eq, Drop)]
pub enum PlaceKind {
    File,
    Loose,
    Footer,
    ColumnMetaData,
    DataPage,
    DictionaryPage,
    DataPageHeader,
    DictionaryPageHeader,
    ColumnIndex,
    OffsetIndex,
}

/// A place in a file. Ordinals that its kind doesn't use are 0; the others are at most 32,767.
#[derive(Clone, Copy, Debug, PartialEq, Eq, Drop)]
pub struct Place {
    pub kind: PlaceKind,
    pub row_group: u16,
    pub column: u16,
    pub page: u16,
}

/// An ordinal is above 32,767, the largest that a module's associated data can hold.
#[derive(Clone, Copy, Debug, PartialEq, Eq, Drop, Error)]
#[error("OrdinalTooLarge")]
pub struct OrdinalTooLarge;

impl Place {
    /// The file as a whole.
    pub fn file() -> Place
        ensures { result ≡ place_of kind_of.File 0 0 0 }
    {
        Place::without_ordinals(PlaceKind::File)
    }

    /// A module that belongs to no file.
    pub fn loose() -> Place
        ensures { result ≡ place_of kind_of.Loose 0 0 0 }
    {
        Place::without_ordinals(PlaceKind::Loose)
    }

    /// The footer.
    pub fn footer() -> Place
        ensures { result ≡ place_of kind_of.Footer 0 0 0 }
    {
        Place::without_ordinals(PlaceKind::Footer)
    }

    /// The part `kind` of a column chunk. `kind` must be one that has a row group and a column and no page.
    pub fn at_column(kind: PlaceKind, row_group: u32, column: u32) -> Result<Place, OrdinalTooLarge>
        requires { NeedsColumn kind }
        ensures accepted { IsOk result ↔ ((row_group ≤ ORDINAL_LIMIT) × (column ≤ ORDINAL_LIMIT)) }
        ensures place { IfOk result (λ place. place ≡ place_of kind row_group column 0) }
    {
        Place::checked(kind, row_group, column, 0)
    }

    /// The part `kind` of a data page. `kind` must be one that has a row group, a column and a page.
    pub fn at_page(
        kind: PlaceKind,
        row_group: u32,
        column: u32,
        page: u32,
    ) -> Result<Place, OrdinalTooLarge>
        requires { NeedsPage kind }
        ensures accepted { IsOk result ↔ ((row_group ≤ ORDINAL_LIMIT) × (column ≤ ORDINAL_LIMIT)
            × (page ≤ ORDINAL_LIMIT)) }
        ensures place { IfOk result (λ place. place ≡ place_of kind row_group column page) }
    {
        Place::checked(kind, row_group, column, page)
    }

    fn without_ordinals(kind: PlaceKind) -> Place
        ensures { result ≡ place_of kind 0 0 0 }
    {
        Place {
            kind,
            row_group: 0,
            column: 0,
            page: 0,
        }
    }

    fn checked(
        kind: PlaceKind,
        row_group: u32,
        column: u32,
        page: u32,
    ) -> Result<Place, OrdinalTooLarge>
        ensures accepted { IsOk result ↔ ((row_group ≤ ORDINAL_LIMIT) × (column ≤ ORDINAL_LIMIT)
            × (page ≤ ORDINAL_LIMIT)) }
        ensures place { IfOk result (λ place. place ≡ place_of kind row_group column page) }
    {
        if row_group > ORDINAL_LIMIT || column > ORDINAL_LIMIT || page > ORDINAL_LIMIT {
            return Err(OrdinalTooLarge);
        }
        Ok(Place {
            kind,
            row_group: row_group as u16,
            column: column as u16,
            page: page as u16,
        })
    }
}
