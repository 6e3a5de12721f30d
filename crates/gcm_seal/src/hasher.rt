// GHASH and the tag of a ciphertext, computed piece by piece.
ghost use Rattle.std.specs.Prelude.{◌≡◌, ℕ, ◌+◌, ◌*◌, ◌^◌, ◌<◌, ◌≤◌, List, [], ◌∷◌, ◌++◌, length, take, slice_index, map, bit_xor};
ghost use Rattle.std.specs.Int.{w128, to_be_bytes};
ghost use Rattle.std.specs.List.{range_with_len};
ghost use Rattle.gcm_field.specs.Field.{polynomial, reversed};
ghost use Rattle.gcm_seal.specs.Gcm.{blocks_of, ghash, hash_key, tag_of, lengths_block};
ghost use Rattle.gcm_seal.specs.Hashing.{IsHashOf};

use crate::counter_mode::first_blocks;
use crate::sealed::TEXT_LIMIT;
use aes_block::AesKey;
use gcm_field::HashKey;
use std::marker::Model;

/// Computes the tag of a ciphertext that is given in pieces of any lengths.
#[derive(Drop)]
pub struct Hasher {
    key: HashKey,
    mask: [u8; 16],
    sum: u128,
    // The bytes after the last whole block; there are `rest_length` of them.
    rest: [u8; 16],
    rest_length: usize,
    aad_length: usize,
    length: usize,
}

impl Model for Hasher {
    ghost use Rattle.std.specs.Prelude.{◌<◌, ◌≤◌, take};
    ghost use Rattle.gcm_seal.specs.Hashing.{Hashed};
    ghost use Rattle.gcm_seal.specs.declared.sealed.TheConstants.{TEXT_LIMIT};

    ghost Value = { Hashed };

    ghost view = { λ h. record { key = h.key; mask = h.mask; sum = h.sum; rest = take h.rest_length h.rest; aad_length = h.aad_length; length = h.length } };

    ghost invariant = { λ h. (h.rest_length < 16) × (h.aad_length ≤ 4096) × (h.length ≤ TEXT_LIMIT) };
}

impl Hasher {
    /// Starts with associated data of at most 4,096 bytes and no ciphertext.
    pub fn new(key: &AesKey, nonce: &[u8; 12], aad: &[u8]) -> Hasher
        requires { length aad.now ≤ 4096 }
        ensures hash { IsHashOf result key.now nonce.now aad.now [] }
        ensures length { result.length ≡ 0 }
    {
        let (subkey, mask) = first_blocks(key, nonce);
        let hash_key = HashKey::new(subkey);
        let sum = absorb(&hash_key, 0, aad);
        Hasher {
            key: hash_key,
            mask,
            sum,
            rest: [0; 16],
            rest_length: 0,
            aad_length: aad.len(),
            length: 0,
        }
    }

    /// Hashes the next piece of the ciphertext. All pieces together may have at most 268,435,456 bytes.
    pub fn update(&mut self, ciphertext: &[u8])
        requires { self.old.length + length ciphertext.now ≤ TEXT_LIMIT }
        ensures hash { (key nonce aad text : List ℕ) → IsHashOf self.old key nonce aad text →
            IsHashOf self.new key nonce aad (text ++ ciphertext.now) }
        ensures length { self.new.length ≡ self.old.length + length ciphertext.now }
    {
        self.length += ciphertext.len();
        let missing = 16 - self.rest_length;
        if ciphertext.len() < missing {
            put(&mut self.rest, self.rest_length, ciphertext);
            self.rest_length += ciphertext.len();
        } else {
            let (head, others) = ciphertext.split_at(missing);
            put(&mut self.rest, self.rest_length, head);
            let (whole, tail) = others.split_at(others.len() / 16 * 16);
            let with_head = absorb(&self.key, self.sum, &self.rest);
            self.sum = absorb(&self.key, with_head, whole);
            put(&mut self.rest, 0, tail);
            self.rest_length = tail.len();
        }
    }

    /// The tag of the ciphertext (SP 800-38D, section 7.1).
    pub fn finish(self) -> [u8; 16]
        ensures { (key nonce aad text : List ℕ) → IsHashOf self key nonce aad text →
            result ≡ tag_of key nonce aad text }
    {
        let with_rest = absorb(&self.key, self.sum, &self.rest[..self.rest_length]);
        let lengths = encode_lengths(self.aad_length, self.length);
        tag_from_hash(absorb(&self.key, with_rest, &lengths), &self.mask)
    }

    /// The hash subkey with its table.
    pub fn hash_key(&self) -> &HashKey
        ensures kept { result.now ≡ self.now.key }
        ensures subkey { (key nonce aad text : List ℕ) → IsHashOf self.now key nonce aad text →
            result.now ≡ hash_key key }
    {
        &self.key
    }
}

// Continues GHASH from `sum` with the blocks of the text, the last of which is padded with zeros.
fn absorb(key: &HashKey, sum: u128, text: &[u8]) -> u128
    ensures { (xs : List (List ℕ)) → reversed sum ≡ ghash (polynomial key.now) xs
        → reversed result ≡ ghash (polynomial key.now) (xs ++ blocks_of text.now) }
{
    let mut hash = sum;
    for i in 0..text.len() / 16 {
        let mut block = [0; 16];
        block.copy_from_slice(&text[16 * i..16 * i + 16]);
        hash = key.mul_number(hash ^ u128::from_be_bytes(block));
    }
    if text.len() % 16 == 0 {
        return hash;
    }
    let mut block = [0; 16];
    put(&mut block, 0, &text[16 * (text.len() / 16)..]);
    key.mul_number(hash ^ u128::from_be_bytes(block))
}

// Copies the bytes into the block from index `at` on.
#[inline(always)]
fn put(block: &mut [u8; 16], at: usize, bytes: &[u8])
    requires { at + length bytes.now ≤ 16 }
    ensures whole { length block.new ≡ 16 }
    ensures before { (k : ℕ) → k < at → slice_index block.new k ≡ slice_index block.old k }
    ensures inside { (j : ℕ) → j < length bytes.now → slice_index block.new (at + j) ≡
        slice_index bytes.now j }
    ensures after { (k : ℕ) → at + length bytes.now ≤ k → slice_index block.new k ≡
        slice_index block.old k }
{
    for j in 0..bytes.len() {
        block[at + j] = bytes[j];
    }
}

// The last block that is hashed: the lengths of associated data and ciphertext in bits.
fn encode_lengths(aad_length: usize, length: usize) -> [u8; 16]
    requires short_aad { aad_length ≤ 4096 }
    requires short_text { length ≤ TEXT_LIMIT }
    ensures { result ≡ lengths_block aad_length length }
{
    let [a0, a1, a2, a3, a4, a5, a6, a7] = (8 * aad_length as u64).to_be_bytes();
    let [b0, b1, b2, b3, b4, b5, b6, b7] = (8 * length as u64).to_be_bytes();
    [
        a0, a1, a2, a3, a4, a5, a6, a7, b0, b1, b2, b3, b4, b5, b6, b7,
    ]
}

// The tag: the hash as a block, XORed with the mask.
fn tag_from_hash(hash: u128, mask: &[u8; 16]) -> [u8; 16]
    ensures { result ≡ map (λ i. bit_xor (slice_index (to_be_bytes w128 hash) i)
        (slice_index mask.now i)) (range_with_len 0 16) }
{
    let mut tag = hash.to_be_bytes();
    for i in 0..16 {
        tag[i] ^= mask[i];
    }
    tag
}
