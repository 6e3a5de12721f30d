// Tests of key_rights.
use crate::drawing_maker::DrawingMaker;
use aes_block::AesKey;
use key_rights::{
    ColumnKey, FooterKey, IdKeys, KeyAnswer, KeyFinder, KeyMaker, KeysRefusal, MadeKey,
    MakeRefusal, NonceOwner, NonceRefusal, NonceSet, keys_are_hex,
};
use pme_base::{Bytes, MemRandom};
use std::alloc::Global;
use std::test::Fail;

// Each case: a keys file, and the first id without a valid key; `-` if all keys are valid.
const FILES: &str = r#"
{} -> -
{"k":"000102030405060708090a0B0C0D0E0F"} -> -
{"k":"000102030405060708090a0b0c0d0e0f1011121314151617"} -> -
{"k":"000102030405060708090a0b0c0d0e0f101112131415161718191a1b1c1d1e1f"} -> -
{"kf":"00"} -> kf
{"k":"000102030405060708090a0b0c0d0e0f0"} -> k
{"k":"000102030405060708090a0b0c0d0e0g"} -> k
{"k":"000102030405060708090a0b0c0d0e0f1011"} -> k
{"b":1,"a":"000102030405060708090a0b0c0d0e0f","aa":null,"B":"000102030405060708090a0b0c0d0e0f"} -> aa
{"k":1,"k":"000102030405060708090a0b0c0d0e0f"} -> -
{"":""} -> 
[] -> 
1 -> 
kf -> 
"#;

const KEYS: &[u8] = br#"{
    "kc": "202122232425262728292a2b2c2d2e2f",
    "footer": "303132333435363738393a3b3c3d3e3f",
    "column:a.b": "404142434445464748494a4b4c4d4e4f5051525354555657"
}"#;

#[test]
fn keys_are_lent(rt: HostRuntime) -> Result<(), Fail> {
    let footer = FooterKey::new(AesKey::new(&[7; 16])?);
    assert_eq!(rt; footer.key().bytes(), [7; 16].as_slice());
    let column = ColumnKey::new(AesKey::new(&[9; 32])?);
    assert_eq!(rt; column.key().bytes(), [9; 32].as_slice());
    Ok(())
}

#[test]
fn a_nonce_is_taken_once_by_each_owner(rt: HostRuntime) -> Result<(), Fail> {
    let rows: [(bool, &[u8], u8, bool); 9] = [
        (true, &[1], 0, true),
        (true, &[1], 0, false),
        (true, &[1], 1, true),
        (true, &[2], 0, true),
        (true, &[1, 0], 0, true),
        (true, &[], 0, true),
        (false, &[1], 0, true),
        (false, &[], 0, true),
        (false, &[1], 0, false),
    ];
    let mut nonces = NonceSet::new(rt.alloc());
    for (is_key, owner, byte, is_fresh) in rows {
        let bytes = Bytes::copy_of(rt.alloc(), owner)?;
        let owner = if is_key {
            NonceOwner::Key(bytes)
        } else {
            NonceOwner::Master(bytes)
        };
        let taken = nonces.take(&owner, [byte; 12]);
        assert_eq!(rt; taken.is_ok(), is_fresh);
        assert_eq!(rt; taken.err() == Some(NonceRefusal::Repeated), !is_fresh);
    }
    Ok(())
}

fn first_bad(alloc: Global, file: &[u8]) -> Result<Bytes, KeysRefusal> {
    match IdKeys::parse(alloc, file) {
        Ok(_) => Ok(Bytes::copy_of(alloc, b"-")?),
        Err(KeysRefusal::Bad(id)) => Ok(id),
        Err(KeysRefusal::OutOfMemory) => Err(KeysRefusal::OutOfMemory),
    }
}

#[test]
fn a_keys_file_gives_each_id_a_key(rt: HostRuntime) -> Result<(), Fail> {
    for row in FILES.lines() {
        if let Some((file, id)) = row.split_once(" -> ") {
            let first = first_bad(rt.alloc(), file.as_bytes())?;
            assert_eq!(rt; first.as_slice(), id.as_bytes(), "{file}");
        }
    }
    keys_are_hex();
    Ok(())
}

// The first byte of the key in an answer.
fn first_byte(answer: &KeyAnswer) -> Option<u8> {
    match answer {
        KeyAnswer::Held(key) => key.bytes().first().copied(),
        KeyAnswer::Absent => None,
        KeyAnswer::Refused(_, _) => None,
    }
}

#[test]
fn keys_are_found_by_metadata_or_path(rt: HostRuntime) -> Result<(), Fail> {
    let mut keys = IdKeys::parse(rt.alloc(), KEYS)?;
    let metadata: [(Option<&[u8]>, Option<u8>, Option<u8>); 4] = [
        (Some(b"kc"), Some(0x20), Some(0x20)),
        (Some(b"kx"), None, None),
        (Some(b""), None, None),
        (None, Some(0x30), Some(0x40)),
    ];
    for (metadata, of_footer, of_column) in metadata {
        let found = keys.footer_key(rt.alloc(), metadata)?;
        assert_eq!(rt; first_byte(&found), of_footer);
        let found = keys.column_key(rt.alloc(), metadata, "a.b")?;
        assert_eq!(rt; first_byte(&found), of_column);
    }
    let found = keys.column_key(rt.alloc(), None, "a")?;
    assert_eq!(rt; first_byte(&found), None);
    Ok(())
}

// The first byte of a key that was made, and its metadata.
fn made_text(alloc: Global, made: &MadeKey) -> Result<(Option<u8>, Bytes), Fail> {
    let metadata = Bytes::copy_of(alloc, made.metadata.as_slice())?;
    Ok((made.key.bytes().first().copied(), metadata))
}

#[test]
fn a_keys_file_makes_its_own_keys(rt: HostRuntime) -> Result<(), Fail> {
    let alloc = rt.alloc();
    let mut keys = IdKeys::parse(alloc, KEYS)?;
    let mut random = MemRandom::new(alloc, Bytes::new(alloc));
    let mut nonces = NonceSet::new(alloc);
    let footer = keys.make_footer(alloc, "kc", &mut random, &mut nonces)?;
    let (first, metadata) = made_text(alloc, &footer)?;
    assert_eq!(rt; first, Some(0x20));
    assert_eq!(rt; metadata.as_slice(), b"kc".as_slice());
    let column = keys.make_column(alloc, "column:a.b", &mut random, &mut nonces)?;
    let (first, metadata) = made_text(alloc, &column)?;
    assert_eq!(rt; first, Some(0x40));
    assert_eq!(rt; metadata.as_slice(), b"column:a.b".as_slice());
    let lacking = keys.make_column(alloc, "kd", &mut random, &mut nonces);
    assert_eq!(rt; lacking.err(), Some(MakeRefusal::Denied));
    assert!(rt; keys.external_text(alloc)?.is_none());
    Ok(())
}

#[test]
fn a_maker_takes_the_nonces_that_it_draws(rt: HostRuntime) -> Result<(), Fail> {
    let alloc = rt.alloc();
    // Two keys of sixteen bytes, each with the nonce 7 and eleven zeros; and then too few bytes for another key.
    let mut bytes = Bytes::new(alloc);
    for first in [1u8, 2] {
        bytes.push(first)?;
        bytes.extend(&[0; 15])?;
        bytes.push(7)?;
        bytes.extend(&[0; 11])?;
    }
    bytes.extend(&[0; 5])?;
    let mut random = MemRandom::new(alloc, bytes);
    let mut nonces = NonceSet::new(alloc);
    let mut maker = DrawingMaker {};
    let denied = maker.make_footer(alloc, "", &mut random, &mut nonces);
    assert_eq!(rt; denied.err(), Some(MakeRefusal::Denied));
    let made = maker.make_footer(alloc, "m", &mut random, &mut nonces)?;
    let (first, metadata) = made_text(alloc, &made)?;
    assert_eq!(rt; first, Some(1));
    assert_eq!(rt;
        metadata.as_slice(),
        [7, 0, 0, 0, 0, 0, 0, 0, 0, 0, 0, 0].as_slice()
    );
    let repeated = maker.make_column(alloc, "m", &mut random, &mut nonces);
    let nonce = [7, 0, 0, 0, 0, 0, 0, 0, 0, 0, 0, 0];
    assert_eq!(rt; repeated.err(), Some(MakeRefusal::NonceRepeated(nonce)));
    let ended = maker.make_column(alloc, "m", &mut random, &mut nonces);
    assert_eq!(rt; ended.err(), Some(MakeRefusal::RandomFault));
    Ok(())
}
