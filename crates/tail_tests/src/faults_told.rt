// Failing reads and key finders are answered as faults; and the metadata of the footer key.
use crate::failing_finder::FailingFinder;
use crate::sample_files::{COUNTER, ENCRYPTED, SIGNED, bytes_of};
use crate::tail_lines::spelled;
use footer_modes::{ReadOptions, footer_key_metadata, read_tail};
use pme_base::{Bytes, Cause, Detail, MemFiles, Place, plain_refusal, refusal_at};
use std::test::Fail;

#[test]
fn faults_are_told_as_such(rt: HostRuntime) -> Result<(), Fail> {
    let options = ReadOptions {
        gcm_only: false,
        allow_plain: true,
        module_limit: 0,
    };
    let file = bytes_of(rt.alloc(), ENCRYPTED)?;
    for call in 0..4 {
        let mut files = MemFiles::new(rt.alloc());
        files.store("f", file.as_slice())?;
        files.fail(call)?;
        let mut finder = FailingFinder::new();
        let refused = read_tail(rt.alloc(), &mut files, "f", None, &mut finder, &options).err();
        assert_eq!(rt; refused, Some(plain_refusal(Cause::ReadFault)));
    }
    let mut files = MemFiles::new(rt.alloc());
    files.store("f", file.as_slice())?;
    let mut finder = FailingFinder::new();
    let refused = read_tail(rt.alloc(), &mut files, "f", None, &mut finder, &options).err();
    assert_eq!(rt; refused, Some(plain_refusal(Cause::ServiceFault)));
    Ok(())
}

#[test]
fn the_metadata_of_the_key_need_no_key(rt: HostRuntime) -> Result<(), Fail> {
    let mut files = MemFiles::new(rt.alloc());
    for lines in [ENCRYPTED, SIGNED, COUNTER] {
        files.store("f", bytes_of(rt.alloc(), lines)?.as_slice())?;
        let metadata = footer_key_metadata(rt.alloc(), &mut files, "f")?;
        assert_eq!(rt; metadata, Some(Bytes::copy_of(rt.alloc(), b"kf")?));
    }
    let refused = footer_key_metadata(rt.alloc(), &mut files, "g").err();
    assert_eq!(rt; refused, Some(plain_refusal(Cause::NoFile)));
    files.store(
        "f",
        spelled(rt.alloc(), "PAR1 00 01000000 PAR1")?.as_slice(),
    )?;
    let refused = footer_key_metadata(rt.alloc(), &mut files, "f").err();
    let unencrypted = refusal_at(Cause::NotEncrypted, Place::footer(), 0, Detail::Nothing);
    assert_eq!(rt; refused, Some(unencrypted));
    Ok(())
}
