// Tests of aes_block.
use aes_block::{AesKey, BadKeyLength};
use std::test::Fail;

// The example vectors of FIPS 197, appendix C.
#[test]
fn encrypts_the_example_blocks(rt: HostRuntime) -> Result<(), Fail> {
    let key = [
        0, 1, 2, 3, 4, 5, 6, 7, 8, 9, 10, 11, 12, 13, 14, 15, 16, 17, 18, 19, 20, 21, 22, 23, 24,
        25, 26, 27, 28, 29, 30, 31,
    ];
    let block = 0x00112233445566778899aabbccddeeffu128.to_be_bytes();
    let expected = [
        (16, 0x69c4e0d86a7b0430d8cdb78070b4c55au128),
        (24, 0xdda97ca4864cdfe06eaf70a0ec0d7191),
        (32, 0x8ea2b7ca516745bfeafc49904b496089),
    ];
    for (length, sealed) in expected {
        let key = AesKey::new(&key[..length])?;
        assert_eq!(rt; key.encrypt_block(block), sealed.to_be_bytes());
        assert_eq!(rt; key.bytes().len(), length);
    }
    Ok(())
}

#[test]
fn refuses_other_key_lengths(rt: HostRuntime) {
    let bytes = [0; 33];
    for length in [0, 15, 17, 33] {
        assert_eq!(rt; AesKey::new(&bytes[..length]).err(), Some(BadKeyLength));
    }
}
