// `Tail::footer_bytes` holds the bytes of the footer, and `Protection::crypto_bytes` those of FileCryptoMetaData.
use crate::tail_lines::{file_of, spelled};
use footer_modes::{ReadOptions, Tail, read_tail};
use key_rights::IdKeys;
use pme_base::MemFiles;
use std::alloc::Global;
use std::process::Abort;
use std::test::Fail;

const KEYS: &[u8] = br#"{"kf":"000102030405060708090a0b0c0d0e0f"}"#;

// A footer of one INT64 column without row groups, and the same footer with an algorithm.
const FOOTER: &str = "1502 192c 4806736368656d61150200 15042500180161 00 1600 190c 00";

const SIGNED: &str =
    "1502 192c 4806736368656d61150200 15042500180161 00 1600 190c 4c1c2808 0001020304050607 0000 18026b66 00";

const FRONT: &str = "1c1c2808 0001020304050607 0000 18026b66 00";

fn tail_of(alloc: Global, line: &str) -> Result<Tail, Fail> {
    let mut files = MemFiles::new(alloc);
    let file = file_of(alloc, line)?.ok_or("file")?;
    files.store("f", file.as_slice())?;
    let mut finder = IdKeys::parse(alloc, KEYS)?;
    let options = ReadOptions {
        gcm_only: true,
        allow_plain: true,
        module_limit: 0,
    };
    match read_tail(alloc, &mut files, "f", None, &mut finder, &options) {
        Ok(tail) => Ok(tail),
        Err(_) => Err(Fail::from("refused")),
    }
}

fn check<R: Abort + AllocGlobal>(
    rt: &R,
    kind: &str,
    footer: &str,
    crypto: Option<&str>,
) -> Result<(), Fail> {
    let alloc = rt.alloc();
    let line = format!(in alloc; "{kind}, footer={footer}, front={FRONT}")?;
    let tail = tail_of(alloc, line.as_str())?;
    let bytes = spelled(alloc, footer)?;
    assert_eq!(rt; tail.footer_bytes, bytes, "{kind}");
    match (&tail.protection, crypto) {
        (Some(protection), Some(crypto)) => {
            let crypto = spelled(alloc, crypto)?;
            assert_eq!(rt; protection.crypto_bytes, crypto, "{kind}");
        }
        (None, None) => {}
        _ => assert!(rt; false, "{kind}"),
    }
    Ok(())
}

#[test]
fn a_tail_keeps_its_bytes(rt: HostRuntime) -> Result<(), Fail> {
    check(&rt, "seal", FOOTER, Some(FRONT))?;
    check(&rt, "sign", SIGNED, Some(""))?;
    check(&rt, "bare", FOOTER, None)
}
