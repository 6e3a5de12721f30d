// Tests of gcm_field.
use gcm_field::{HashKey, plain_product};

// Test case 2 of the GCM specification: the hash key, the block of the ciphertext, and their product.
const KEY: [u8; 16] = [
    0x66, 0xe9, 0x4b, 0xd4, 0xef, 0x8a, 0x2c, 0x3b, 0x88, 0x4c, 0xfa, 0x59, 0xca, 0x34, 0x2b, 0x2e,
];

const BLOCK: [u8; 16] = [
    0x03, 0x88, 0xda, 0xce, 0x60, 0xb6, 0xa3, 0x92, 0xf3, 0x28, 0xc2, 0xb9, 0x71, 0xb2, 0xfe, 0x78,
];

const PRODUCT: [u8; 16] = [
    0x5e, 0x2e, 0xc7, 0x46, 0x91, 0x70, 0x62, 0x88, 0x2c, 0x85, 0xb0, 0x68, 0x53, 0x53, 0xde, 0xb7,
];

#[test]
fn first_step_of_test_case_2(rt: HostRuntime) {
    let key = HashKey::new(KEY);
    assert_eq!(rt; key.mul(BLOCK), PRODUCT);
    // The first bit of a block is the coefficient of x^0, so that `row(8)` is the key itself.
    assert_eq!(rt; *key.row(8), KEY);
}

#[test]
fn table_and_plain_loop_agree(rt: HostRuntime) {
    let key = HashKey::new(KEY);
    let mut x = BLOCK;
    for _ in 0..64 {
        let product = key.mul(x);
        assert_eq!(rt; plain_product(x, KEY), product);
        x = product;
    }
}
