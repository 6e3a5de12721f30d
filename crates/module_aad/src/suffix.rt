// The AAD suffix: the type and the ordinals of a module.
ghost use Rattle.std.specs.Prelude.{◌≡◌, ◌≤◌, length, take};
ghost use Rattle.module_aad.specs.Aad.{IsModuleKind, type_byte, suffix as suffix_of};

use pme_base::{Place, PlaceKind};

// The suffix for a place, at the front of seven bytes, and its length.
pub(crate) fn suffix(place: &Place) -> ([u8; 7], usize)
    requires { IsModuleKind place.now.kind }
    ensures long { result.1 ≡ length (suffix_of place.now) }
    ensures fits { result.1 ≤ 7 }
    ensures suffix { take result.1 result.0 ≡ suffix_of place.now }
{
    let [r0, r1] = place.row_group.to_le_bytes();
    let [c0, c1] = place.column.to_le_bytes();
    let [p0, p1] = place.page.to_le_bytes();
    let length = match place.kind {
        PlaceKind::Footer => 1,
        PlaceKind::DataPage | PlaceKind::DataPageHeader => 7,
        _ => 5,
    };
    ([module_type(place.kind), r0, r1, c0, c1, p0, p1], length)
}

// The type of a module, as a byte.
fn module_type(kind: PlaceKind) -> u8
    requires { IsModuleKind kind }
    ensures { result ≡ type_byte kind }
{
    match kind {
        PlaceKind::Footer => 0,
        PlaceKind::ColumnMetaData => 1,
        PlaceKind::DataPage => 2,
        PlaceKind::DictionaryPage => 3,
        PlaceKind::DataPageHeader => 4,
        PlaceKind::DictionaryPageHeader => 5,
        PlaceKind::ColumnIndex => 6,
        PlaceKind::OffsetIndex => 7,
        PlaceKind::File | PlaceKind::Loose => unreachable!(),
    }
}
