// Tests of module_aad.
use module_aad::{AadRefusal, FileAad};
use pme_base::{Place, PlaceKind};
use std::test::Fail;

#[test]
fn writes_the_associated_data_of_each_place(rt: HostRuntime) -> Result<(), Fail> {
    let file = FileAad::new(rt.alloc(), b"p", &[0, 1, 2, 3, 4, 5, 6, 7])?;
    assert_eq!(rt; file.joined(), [0x70, 0, 1, 2, 3, 4, 5, 6, 7].as_slice());
    let rows: [(Place, &[u8]); 4] = [
        (
            Place::at_page(PlaceKind::DataPage, 1, 2, 3)?,
            &[0x70, 0, 1, 2, 3, 4, 5, 6, 7, 2, 1, 0, 2, 0, 3, 0],
        ),
        (
            Place::at_column(PlaceKind::DictionaryPage, 1, 2)?,
            &[0x70, 0, 1, 2, 3, 4, 5, 6, 7, 3, 1, 0, 2, 0],
        ),
        (Place::footer(), &[0x70, 0, 1, 2, 3, 4, 5, 6, 7, 0]),
        (
            Place::at_column(PlaceKind::OffsetIndex, 0, 32_767)?,
            &[0x70, 0, 1, 2, 3, 4, 5, 6, 7, 7, 0, 0, 0xff, 0x7f],
        ),
    ];
    for (place, expected) in rows {
        let mut into = [0; 1095];
        let length = file.write_aad(&place, &mut into);
        assert_eq!(rt; &into[..length], expected);
    }
    Ok(())
}

#[test]
fn refuses_long_prefixes_and_uniques(rt: HostRuntime) -> Result<(), Fail> {
    let zeros = [0; 1025];
    for (prefix, unique, refusal) in [
        (1024, 64, None),
        (1025, 64, Some(AadRefusal::PrefixTooLarge)),
        (1024, 65, Some(AadRefusal::UniqueTooLarge)),
        (1025, 65, Some(AadRefusal::PrefixTooLarge)),
    ] {
        let made = FileAad::new(rt.alloc(), &zeros[..prefix], &zeros[..unique]);
        assert_eq!(rt; made.err(), refusal);
    }
    Ok(())
}
