// The text of a place in a file.
ghost use Rattle.std.specs.Prelude.{◌≡◌, ◌++◌, OnOk};
ghost use Rattle.refusal_lines.specs.RefusalText as defined;

use crate::pieces::push_spaced_decimal;
use crate::words::kind_word;
use byte_texts::push_text;
use pme_base::{Bytes, OutOfMemory, Place, PlaceKind};

/// Appends a place: the word for its kind, and the ordinals that places of this kind have.
pub fn push_place(line: &mut Bytes, place: &Place) -> Result<(), OutOfMemory>
    ensures { OnOk result (line.new ≡ line.old ++ defined.place_text place.now) }
{
    push_text(line, kind_word(place.kind))?;
    push_ordinals(line, place)
}

fn push_ordinals(line: &mut Bytes, place: &Place) -> Result<(), OutOfMemory>
    ensures { OnOk result (line.new ≡ line.old ++ defined.ordinals_text place.now.kind place.now) }
{
    match place.kind {
        PlaceKind::File | PlaceKind::Loose | PlaceKind::Footer => Ok(()),
        PlaceKind::DataPage | PlaceKind::DataPageHeader => push_page(line, place),
        PlaceKind::ColumnMetaData
        | PlaceKind::DictionaryPage
        | PlaceKind::DictionaryPageHeader
        | PlaceKind::ColumnIndex
        | PlaceKind::OffsetIndex => push_column(line, place),
    }
}

/// Appends the row group and the column of a place.
fn push_column(line: &mut Bytes, place: &Place) -> Result<(), OutOfMemory>
    ensures { OnOk result (line.new ≡ line.old ++ defined.column_text place.now) }
{
    push_spaced_decimal(line, u64::from(place.row_group))?;
    push_spaced_decimal(line, u64::from(place.column))
}

/// Appends the row group, the column and the page of a place.
fn push_page(line: &mut Bytes, place: &Place) -> Result<(), OutOfMemory>
    ensures { OnOk result (line.new ≡ line.old ++ defined.page_text place.now) }
{
    push_column(line, place)?;
    push_spaced_decimal(line, u64::from(place.page))
}
