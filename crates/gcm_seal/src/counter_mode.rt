// Counter mode (SP 800-38D, section 6.5), four blocks at a time.
ghost use Rattle.std.specs.Prelude.{◌≡◌, ℕ, ◌+◌, ◌-◌, ◌*◌, ◌/◌, ◌^◌, ◌<◌, ◌≤◌, length, take, bit_xor, slice_index, replicate};
ghost use Rattle.aes_block.specs.Aes.{aes};
ghost use Rattle.aes_block.specs.FourBlocks.{lane_block};
ghost use Rattle.gcm_seal.specs.Gcm.{counter_block, keystream_byte, gctr, hash_key};

use aes_block::AesKey;
use std::simd::prelude::*;

/// Encrypts or decrypts the buffer in place in counter mode, from counter `first` (GCTR of SP 800-38D, section 6.5). The
/// last counter that is used must be below 2^32.
pub fn gctr_in_place(key: &AesKey, nonce: &[u8; 12], first: u32, buffer: &mut [u8])
    requires { first + (length buffer.old + 15) / 16 ≤ 2 ^ 32 }
    ensures { buffer.new ≡ gctr key.now nonce.now first buffer.old }
{
    // A copy, so that the compiler knows that `buffer` doesn't alias it.
    let own_nonce = *nonce;
    let whole = buffer.len() / 64;
    for i in 0..whole {
        let stream = keystream(key, &own_nonce, first + 4 * i as u32);
        xor_stream(buffer, 64 * i, &stream, 64);
    }
    let rest = buffer.len() - 64 * whole;
    if rest > 0 {
        let stream = keystream(key, &own_nonce, first + 4 * whole as u32);
        xor_stream(buffer, 64 * whole, &stream, rest);
    }
}

// Encrypts a text of at most 64 bytes in counter mode from counter `first`. The result holds the ciphertext in its first
// bytes; the others have no meaning.
pub(crate) fn encrypt_short(key: &AesKey, nonce: &[u8; 12], first: u32, text: &[u8]) -> [u8; 64]
    requires { length text.now ≤ 64 }
    ensures { take (length text.now) result ≡ gctr key.now nonce.now first text.now }
{
    let mut stream = keystream(key, nonce, first);
    for j in 0..text.len() {
        stream[j] ^= text[j];
    }
    stream
}

// The hash subkey, and the mask that is XORed with the hash to give the tag: the encryption of a zero block and of counter
// block 1.
pub(crate) fn first_blocks(key: &AesKey, nonce: &[u8; 12]) -> ([u8; 16], [u8; 16])
    ensures subkey { result.0 ≡ hash_key key.now }
    ensures mask { result.1 ≡ aes key.now (counter_block nonce.now 1) }
{
    let [n0, n1, n2, n3, n4, n5, n6, n7, n8, n9, n10, n11] = *nonce;
    let blocks = u8x64::from_array([
        0, 0, 0, 0, 0, 0, 0, 0, 0, 0, 0, 0, 0, 0, 0, 0, n0, n1, n2, n3, n4, n5, n6, n7, n8, n9,
        n10, n11, 0, 0, 0, 1, 0, 0, 0, 0, 0, 0, 0, 0, 0, 0, 0, 0, 0, 0, 0, 0, 0, 0, 0, 0, 0, 0, 0,
        0, 0, 0, 0, 0, 0, 0, 0, 0,
    ]);
    let ciphers = key.encrypt_four(blocks);
    (
        ciphers.extract::<0, 16>().to_array(),
        ciphers.extract::<16, 16>().to_array(),
    )
}

// The keystream of four blocks. A counter has four bytes and wraps around to 0.
#[inline(always)]
fn keystream(key: &AesKey, nonce: &[u8; 12], first: u32) -> [u8; 64]
    ensures { (j : ℕ) → j < 64 → slice_index result j ≡ keystream_byte key.now nonce.now first j }
{
    key.encrypt_four(counter_blocks(nonce, first)).to_array()
}

// Four consecutive counter blocks.
#[inline(always)]
fn counter_blocks(nonce: &[u8; 12], first: u32) -> u8x64
    ensures { (b : ℕ) → b < 4 → lane_block result b ≡ counter_block nonce.now (first + b) }
{
    let [n0, n1, n2, n3, n4, n5, n6, n7, n8, n9, n10, n11] = *nonce;
    let [a0, a1, a2, a3] = first.to_be_bytes();
    let [b0, b1, b2, b3] = first.wrapping_add(1).to_be_bytes();
    let [c0, c1, c2, c3] = first.wrapping_add(2).to_be_bytes();
    let [d0, d1, d2, d3] = first.wrapping_add(3).to_be_bytes();
    u8x64::from_array([
        n0, n1, n2, n3, n4, n5, n6, n7, n8, n9, n10, n11, a0, a1, a2, a3, n0, n1, n2, n3, n4, n5,
        n6, n7, n8, n9, n10, n11, b0, b1, b2, b3, n0, n1, n2, n3, n4, n5, n6, n7, n8, n9, n10, n11,
        c0, c1, c2, c3, n0, n1, n2, n3, n4, n5, n6, n7, n8, n9, n10, n11, d0, d1, d2, d3,
    ])
}

// XORs the first `count` bytes of the stream into the buffer from index `at` on.
#[inline(always)]
fn xor_stream(buffer: &mut [u8], at: usize, stream: &[u8; 64], count: usize)
    requires in_stream { count ≤ 64 }
    requires in_buffer { at + count ≤ length buffer.old }
    ensures before { (k : ℕ) → k < at → slice_index buffer.new k ≡ slice_index buffer.old k }
    ensures inside { (j : ℕ) → j < count
        → slice_index buffer.new (at + j) ≡ bit_xor (slice_index buffer.old (at + j)) (slice_index stream.now j) }
    ensures after { (k : ℕ) → at + count ≤ k → slice_index buffer.new k ≡ slice_index buffer.old k }
{
    for j in 0..count {
        buffer[at + j] ^= stream[j];
    }
}
