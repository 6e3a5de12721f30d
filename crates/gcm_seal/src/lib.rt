//! AES-GCM (SP 800-38D) with nonces of 12 bytes and tags of 16 bytes: encryption and decryption in place, tags alone, and
//! counter mode alone. Nothing is allocated. The cipher is constant-time; the hash uses table look-ups and is not.
#![tactic(auto)]

ghost use Rattle.std.specs.Prelude.{◌≡◌, ℕ, ◌+◌, ◌*◌, List, [], ◌++◌, length, replicate};
ghost use Rattle.gcm_seal.specs.Gcm.{gctr, tag_of};
ghost use Rattle.gcm_seal.specs.Vectors.{zero_key, zero_nonce, tag_1, ciphertext_2, tag_2};

mod counter_mode;
mod hasher;
mod sealed;

pub use counter_mode::gctr_in_place;
pub use hasher::Hasher;
pub use sealed::{BadTag, TEXT_LIMIT, ctr_in_place, open_in_place, seal_in_place, sign, tag};

/// The definitions give test cases 1 and 2 of the GCM specification.
pub fn standard_vectors()
    ensures tag_1 { tag_of zero_key zero_nonce [] [] ≡ tag_1 }
    ensures ciphertext_2 { gctr zero_key zero_nonce 2 (replicate 16 0) ≡ ciphertext_2 }
    ensures tag_2 { tag_of zero_key zero_nonce [] ciphertext_2 ≡ tag_2 }
{}

/// Counter mode is its own inverse, keeps the length, and can be applied to two parts of a text separately if it is cut
/// between two blocks; a tag has 16 bytes.
pub fn laws()
    ensures inverse { (key nonce text : List ℕ) → (c : ℕ) →
        gctr key nonce c (gctr key nonce c text) ≡ text }
    ensures joined { (key nonce front back : List ℕ) → (c n : ℕ) → length front ≡ 16 * n
        → gctr key nonce c (front ++ back) ≡ gctr key nonce c front ++ gctr key nonce (c + n) back }
    ensures same_length { (key nonce text : List ℕ) → (c : ℕ) →
        length (gctr key nonce c text) ≡ length text }
    ensures tag_length { (key nonce aad text : List ℕ) → length (tag_of key nonce aad text) ≡ 16 }
{}
