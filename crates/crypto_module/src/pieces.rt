// Decryption of a GCM ciphertext in pieces: all pieces are hashed first, and decrypted once the tag has been found right.
ghost use Rattle.std.specs.Prelude.{◌≡◌, ◌+◌, ◌/◌, ◌%◌, ◌≤◌, ℕ, List, [], ◌++◌, length, length as length_of, IfOk, IfErr};
ghost use Rattle.gcm_seal.specs.Gcm.{gctr};
ghost use Rattle.pme_base.specs.Steps.{Quiet};
ghost use Rattle.pme_base.specs.declared.refusal.Cause.TheVariants as cause_of;
ghost use Rattle.crypto_module.specs.Pieces.{IsJoined, nothing_opened, tag_checked, without_value};

use aes_block::AesKey;
use gcm_seal::{Hasher, gctr_in_place};
use pme_base::{Cause, Detail, MODULE_LIMIT, Place, Refusal, refusal_at};
use std::marker::Model;

/// The counter of the first ciphertext block. Counter 1 is used for the tag (SP 800-38D, section 7.1).
const FIRST_COUNTER: u32 = 2;

/// A ciphertext whose tag is being computed piece by piece. The pieces may have any lengths.
#[derive(Drop)]
pub struct Checking<'k> {
    key: &'k AesKey,
    nonce: [u8; 12],
    hasher: Hasher,
    length: u32,
    left: u32,
}

impl<'k> Model for Checking<'k> {
    ghost use Rattle.std.specs.Prelude.{◌≡◌, ◌+◌, ◌≤◌};
    ghost use Rattle.pme_base.specs.declared.limits.TheConstants.{MODULE_LIMIT};
    ghost use Rattle.crypto_module.specs.Pieces.{Hashing};

    ghost Value = { Hashing };

    ghost view = { λ c. record { key = c.key.now; nonce = c.nonce; hashed = c.hasher; length = c.length; left = c.left } };

    ghost invariant = { λ c. (c.left + c.hasher.length ≡ c.length) × (c.length ≤ MODULE_LIMIT) };
}

impl<'k> Checking<'k> {
    /// Starts the check of a ciphertext of `length` bytes, at most 268,435,456, with associated data of at most 4,096
    /// bytes.
    pub fn new(key: &'k AesKey, aad: &[u8], nonce: [u8; 12], length: u32) -> Checking<'k>
        requires short_aad { length_of aad.now ≤ 4096 }
        requires short_text { length ≤ MODULE_LIMIT }
        ensures joined { IsJoined result aad.now [] }
        ensures left { result.left ≡ length }
        ensures length { result.length ≡ length }
        ensures key { result.key ≡ key.now }
        ensures nonce { result.nonce ≡ nonce }
    {
        let hasher = Hasher::new(key, &nonce, aad);
        Checking {
            key,
            nonce,
            hasher,
            length,
            left: length,
        }
    }

    /// The number of ciphertext bytes that have not been hashed yet.
    pub fn left(&self) -> u32
        ensures { result ≡ self.now.left }
    {
        self.left
    }

    /// Hashes the next piece of the ciphertext, which has at most `left()` bytes.
    pub fn piece(&mut self, ciphertext: &[u8])
        requires { length ciphertext.now ≤ self.old.left }
        ensures joined { (aad text : List ℕ) → IsJoined self.old aad text →
            IsJoined self.new aad (text ++ ciphertext.now) }
        ensures left { self.new.left + length ciphertext.now ≡ self.old.left }
        ensures key { self.new.key ≡ self.old.key }
        ensures nonce { self.new.nonce ≡ self.old.nonce }
        ensures length { self.new.length ≡ self.old.length }
    {
        self.hasher.update(ciphertext);
        self.left -= ciphertext.len() as u32;
    }

    /// Ends the check when all pieces have been hashed. If `stored` is the ciphertext's tag, the result allows its
    /// decryption; otherwise the error is BadTag at `place` and file offset `at`, with the computed tag and `stored`.
    pub fn finish(self, place: &Place, at: u64, stored: [u8; 16]) -> Result<Checked<'k>, Refusal>
        requires { self.left ≡ 0 }
        ensures answer { (aad text : List ℕ) → IsJoined self.entry aad text
            → without_value result ≡ tag_checked self.entry.key aad place.now at self.entry.nonce text stored }
        ensures checked { IfOk result (λ checked. checked ≡ nothing_opened self.entry) }
        ensures quiet { Quiet result }
        ensures cause { IfErr result (λ refusal. refusal.cause ≡ cause_of.BadTag) }
    {
        let key = self.key;
        let nonce = self.nonce;
        let length = self.length;
        let expected = self.hasher.finish();
        if expected != stored {
            let detail = Detail::Tags(expected, stored);
            return Err(refusal_at(Cause::BadTag, *place, at, detail));
        }
        Ok(Checked {
            key,
            nonce,
            length,
            opened: 0,
        })
    }
}

/// A ciphertext whose tag is right and which can be decrypted piece by piece from its front. Only `Checking::finish`
/// makes one.
#[derive(Drop)]
pub struct Checked<'k> {
    key: &'k AesKey,
    nonce: [u8; 12],
    length: u32,
    opened: u32,
}

impl<'k> Model for Checked<'k> {
    ghost use Rattle.std.specs.Prelude.{◌≤◌};
    ghost use Rattle.pme_base.specs.declared.limits.TheConstants.{MODULE_LIMIT};
    ghost use Rattle.crypto_module.specs.Pieces.{Opening};

    ghost Value = { Opening };

    ghost view = { λ c. record { key = c.key.now; nonce = c.nonce; length = c.length; opened = c.opened } };

    ghost invariant = { λ c. c.length ≤ MODULE_LIMIT };
}

impl<'k> Checked<'k> {
    /// The number of bytes that have been decrypted.
    pub fn opened(&self) -> u32
        ensures { result ≡ self.now.opened }
    {
        self.opened
    }

    /// Decrypts the next piece in place. The number of bytes decrypted before must be a multiple of 16, and the piece must
    /// not go past the end of the ciphertext.
    pub fn open(&mut self, piece: &mut [u8])
        requires aligned { self.old.opened % 16 ≡ 0 }
        requires inside { self.old.opened + length piece.old ≤ self.old.length }
        ensures opened { piece.new ≡ gctr self.old.key self.old.nonce
            (2 + self.old.opened / 16) piece.old }
        ensures counted { self.new ≡
            record self.old { opened = self.old.opened + length piece.old } }
    {
        gctr_in_place(
            self.key,
            &self.nonce,
            FIRST_COUNTER + self.opened / 16,
            piece,
        );
        self.opened += piece.len() as u32;
    }
}
