// Tests of crypto_module: decryption in pieces.
ghost use Rattle.std.specs.Prelude.{◌≤◌};

use aes_block::AesKey;
use crypto_module::{Checking, read_gcm, write_gcm};
use pme_base::{Bytes, Place, Refusal};
use std::test::Fail;

/// Decrypts a module with 50 bytes of plaintext in place. Its ciphertext is hashed in two pieces, the first with `hashed`
/// bytes, and decrypted in two pieces, the first with `blocks` blocks.
fn open_in_pieces(
    key: &AesKey,
    module: &mut [u8; 82],
    hashed: usize,
    blocks: usize,
) -> Result<(), Refusal>
    requires hashed { hashed ≤ 50 }
    requires blocks { blocks ≤ 3 }
{
    let mut nonce = [0; 12];
    nonce.copy_from_slice(&module[4..16]);
    let mut stored = [0; 16];
    stored.copy_from_slice(&module[66..]);
    let mut checking = Checking::new(key, b"a", nonce, 50);
    checking.piece(&module[16..16 + hashed]);
    checking.piece(&module[16 + hashed..66]);
    let mut checked = checking.finish(&Place::loose(), 7, stored)?;
    let cut = 16 + 16 * blocks;
    checked.open(&mut module[16..cut]);
    checked.open(&mut module[cut..66]);
    Ok(())
}

#[test]
fn every_cut_opens_as_the_whole_module_does(rt: HostRuntime) -> Result<(), Fail> {
    let key = AesKey::new(&[3; 24])?;
    let mut written = Bytes::new(rt.alloc());
    write_gcm(&key, b"a", &[5; 12], 50, &[9; 50], &mut written)?;
    let Some(sealed) = written.as_slice().first_chunk::<82>() else {
        panic!(rt; "a module of 50 bytes of plaintext has 82 bytes");
    };
    let mut sealed = *sealed;
    for flipped in 0..2 {
        // First the correct module, then the module with one changed bit in its ciphertext.
        sealed[40] ^= flipped;
        let mut whole = sealed;
        let answer = match read_gcm(&key, b"a", &Place::loose(), 7, 50, true, &mut whole) {
            Ok(_) => Ok(()),
            Err(refusal) => Err(refusal),
        };
        for hashed in 0..51 {
            for blocks in 0..4 {
                let mut module = sealed;
                assert_eq!(rt; &open_in_pieces(&key, &mut module, hashed, blocks), &answer);
                assert_eq!(rt; module, whole);
            }
        }
    }
    Ok(())
}
