// Tests of crypto_module: whole modules.
use aes_block::AesKey;
use crypto_module::{
    ModuleKind, ModuleRefusal, OpenModule, extent, filling_extent, read_ctr, read_gcm, write_ctr,
    write_gcm,
};
use pme_base::{Bytes, Cause, Detail, Place, Refusal, refusal_at};
use std::test::Fail;

const LIMIT: u32 = 16_777_216;

// Test cases 1 and 2 of the GCM specification, with plaintexts of 0 and 16 bytes, as modules.
const EMPTY_TEXT: [u8; 32] = [
    28, 0, 0, 0, 0, 0, 0, 0, 0, 0, 0, 0, 0, 0, 0, 0, 88, 226, 252, 206, 250, 126, 48, 97, 54, 127,
    29, 87, 164, 231, 69, 90,
];

const ZERO_TEXT: [u8; 48] = [
    44, 0, 0, 0, 0, 0, 0, 0, 0, 0, 0, 0, 0, 0, 0, 0, 3, 136, 218, 206, 96, 182, 163, 146, 243, 40,
    194, 185, 113, 178, 254, 120, 171, 110, 71, 212, 44, 236, 19, 189, 245, 58, 103, 178, 18, 87,
    189, 223,
];

// A CTR module of 32 zero bytes with the same key and nonce: the encryption of counter blocks 1 and 2.
const COUNTER_TEXT: [u8; 48] = [
    44, 0, 0, 0, 0, 0, 0, 0, 0, 0, 0, 0, 0, 0, 0, 0, 88, 226, 252, 206, 250, 126, 48, 97, 54, 127,
    29, 87, 164, 231, 69, 90, 3, 136, 218, 206, 96, 182, 163, 146, 243, 40, 194, 185, 113, 178,
    254, 120,
];

const EMPTY_TAG: [u8; 16] = [
    88, 226, 252, 206, 250, 126, 48, 97, 54, 127, 29, 87, 164, 231, 69, 90,
];

const ZERO_TAG: [u8; 16] = [
    171, 110, 71, 212, 44, 236, 19, 189, 245, 58, 103, 178, 18, 87, 189, 223,
];

fn open(fill: bool, bytes: &mut [u8]) -> Result<OpenModule, Refusal> {
    let key = AesKey::new(&[0; 16]);
    match key {
        Ok(key) => read_gcm(&key, &[], &Place::loose(), 0, LIMIT, fill, bytes),
        Err(_) => Err(refused(Cause::Usage, 0, 0)),
    }
}

fn refused(cause: Cause, first: u64, second: u64) -> Refusal {
    refusal_at(cause, Place::loose(), 0, Detail::Pair(first, second))
}

#[test]
fn opens_the_standards_texts_of_zeros(rt: HostRuntime) -> Result<(), Fail> {
    let mut empty = EMPTY_TEXT;
    let opened = open(true, &mut empty)?;
    let expected = OpenModule {
        length: 0,
        consumed: 32,
        nonce: [0; 12],
        tag: EMPTY_TAG,
    };
    assert_eq!(rt; opened, expected);

    let mut zeros = ZERO_TEXT;
    let opened = open(true, &mut zeros)?;
    let expected = OpenModule {
        length: 16,
        consumed: 48,
        nonce: [0; 12],
        tag: ZERO_TAG,
    };
    assert_eq!(rt; opened, expected);
    assert_eq!(rt; &zeros[16..32], [0; 16].as_slice());
    Ok(())
}

#[test]
fn refuses_another_tag(rt: HostRuntime) {
    let mut bytes = EMPTY_TEXT;
    bytes[31] = 0x5b;
    let changed = bytes;
    let mut stored = EMPTY_TAG;
    stored[15] = 0x5b;
    let bad_tag = refusal_at(
        Cause::BadTag,
        Place::loose(),
        0,
        Detail::Tags(EMPTY_TAG, stored),
    );
    assert_eq!(rt; open(true, &mut bytes), Err(bad_tag));
    assert_eq!(rt; bytes, changed);
}

#[test]
fn judges_a_byte_after_the_module_where_it_must_fill(rt: HostRuntime) -> Result<(), Fail> {
    let mut bytes = [0; 33];
    bytes[..32].copy_from_slice(&EMPTY_TEXT);
    assert_eq!(rt;
        open(true, &mut bytes),
        Err(refused(Cause::BadLength, 28, 29))
    );
    assert_eq!(rt; open(false, &mut bytes)?.consumed, 32);
    Ok(())
}

#[test]
fn refuses_bad_frames(rt: HostRuntime) {
    let rows = [
        (0, [0; 4], Cause::Truncated, 4, 0),
        (3, [28, 0, 0, 0], Cause::Truncated, 4, 3),
        (31, [27, 0, 0, 0], Cause::BadLength, 27, 27),
        (32, [29, 0, 0, 0], Cause::Truncated, 33, 32),
        (4, [29, 0, 0, 1], Cause::TooLarge, 16_777_217, 16_777_216),
        (4, [28, 0, 0, 1], Cause::Truncated, 16_777_248, 4),
    ];
    for (length, field, cause, first, second) in rows {
        let mut bytes = [0; 32];
        bytes[..4].copy_from_slice(&field);
        let size: usize = length;
        assert!(rt; size <= 32);
        assert_eq!(rt;
            open(true, &mut bytes[..size]),
            Err(refused(cause, first, second))
        );
    }
}

#[test]
fn gives_the_size_of_modules_without_a_tag(rt: HostRuntime) {
    let place = Place::loose();
    let size_with = |counted: u8, room| extent(
        ModuleKind::Ctr,
        &place,
        0,
        LIMIT,
        &[counted, 0, 0, 0],
        room,
    );
    assert_eq!(rt; size_with(12, 12), Ok(16));
    assert_eq!(rt; size_with(11, 12), Err(refused(Cause::BadLength, 11, 12)));
    assert_eq!(rt; size_with(12, 11), Err(refused(Cause::Truncated, 16, 15)));
    let filling = filling_extent(ModuleKind::Ctr, &place, 0, LIMIT, &[12, 0, 0, 0], 12);
    assert_eq!(rt; filling, Ok(16));
}

#[test]
fn opens_and_writes_counter_mode(rt: HostRuntime) -> Result<(), Fail> {
    let key = AesKey::new(&[0; 16])?;
    let mut bytes = COUNTER_TEXT;
    let opened = read_ctr(&key, &Place::loose(), 0, LIMIT, &mut bytes)?;
    let expected = OpenModule {
        length: 32,
        consumed: 48,
        nonce: [0; 12],
        tag: [0; 16],
    };
    assert_eq!(rt; opened, expected);
    assert_eq!(rt; &bytes[16..], [0; 32].as_slice());
    let mut written = Bytes::new(rt.alloc());
    write_ctr(&key, &[0; 12], 32, &[0; 32], &mut written)?;
    assert_eq!(rt; written.as_slice(), COUNTER_TEXT.as_slice());
    Ok(())
}

#[test]
fn writes_the_standards_text_up_to_its_limit(rt: HostRuntime) -> Result<(), Fail> {
    let key = AesKey::new(&[0; 16])?;
    let mut written = Bytes::copy_of(rt.alloc(), &[7, 8])?;
    let refused = write_gcm(&key, &[], &[0; 12], 15, &[0; 16], &mut written);
    assert_eq!(rt; refused, Err(ModuleRefusal::TooLarge));
    assert_eq!(rt; written.as_slice(), [7, 8].as_slice());
    write_gcm(&key, &[], &[0; 12], 16, &[0; 16], &mut written)?;
    assert_eq!(rt; &written.as_slice()[2..], ZERO_TEXT.as_slice());
    Ok(())
}

#[test]
fn reads_back_what_it_wrote(rt: HostRuntime) -> Result<(), Fail> {
    let key = AesKey::new(&[3; 16])?;
    let mut written = Bytes::copy_of(rt.alloc(), &[7, 8])?;
    write_gcm(&key, &[1, 2, 3], &[9; 12], 21, &[5; 21], &mut written)?;
    let mut bytes = written.take();
    let module = bytes.slice_mut(2..);
    let opened = read_gcm(&key, &[1, 2, 3], &Place::loose(), 0, 21, true, module)?;
    assert_eq!(rt; (opened.length, opened.consumed), (21, 53));
    assert_eq!(rt; opened.nonce, [9; 12]);
    assert_eq!(rt; &bytes[..2], [7, 8].as_slice());
    assert_eq!(rt; &bytes[18..39], [5; 21].as_slice());
    Ok(())
}
