// The key schedule (FIPS 197, section 5.2).
ghost use Rattle.std.specs.Prelude.{◌≡◌, ◌<◌, ◌≤◌, ◌+◌, ◌*◌, ◌/◌, map, length, take};
ghost use Rattle.aes_block.specs.Aes.{IsKeyLength, schedule, schedule_term, word, next_word};
ghost use Rattle.aes_block.specs.Field.{sbox};

use crate::substitution::sub_bytes;
use std::simd::prelude::*;

// The round constants: powers of x in the field of AES.
const ROUND_CONSTANTS: [u8; 10] = [0x01, 0x02, 0x04, 0x08, 0x10, 0x20, 0x40, 0x80, 0x1b, 0x36];

// SubWord: the S-box of each byte.
fn sub_word(word: [u8; 4]) -> [u8; 4]
    ensures { result ≡ map sbox word }
{
    let mut lanes = [0; 64];
    lanes[..4].copy_from_slice(&word);
    let lanes = sub_bytes(u8x64::from_array(lanes)).to_array();
    [lanes[0], lanes[1], lanes[2], lanes[3]]
}

// The term that is XORed with word i - key_words to give word i; `previous` is word i - 1.
fn term(key_words: usize, i: usize, previous: [u8; 4]) -> [u8; 4]
    requires positive { 0 < key_words }
    requires few { (0 < i / key_words) × (i / key_words ≤ 10) }
    ensures { result ≡ schedule_term key_words i previous }
{
    if i % key_words == 0 {
        let [first, second, third, fourth] = previous;
        let [a, b, c, d] = sub_word([second, third, fourth, first]);
        [a ^ ROUND_CONSTANTS[i / key_words - 1], b, c, d]
    } else if key_words > 6 && i % key_words == 4 {
        sub_word(previous)
    } else {
        previous
    }
}

fn word_at(words: &[u8; 240], i: usize) -> [u8; 4]
    requires { i < 60 }
    ensures { result ≡ word words.now i }
{
    let at = 4 * i;
    [words[at], words[at + 1], words[at + 2], words[at + 3]]
}

// Word i of the schedule, from the words before it.
fn next(words: &[u8; 240], key_words: usize, i: usize) -> [u8; 4]
    requires positive { 0 < key_words }
    requires after { key_words ≤ i }
    requires inside { i < 60 }
    requires few { i / key_words ≤ 10 }
    ensures { result ≡ next_word key_words words.now i }
{
    let [a, b, c, d] = word_at(words, i - key_words);
    let [e, f, g, h] = term(key_words, i, word_at(words, i - 1));
    [a ^ e, b ^ f, c ^ g, d ^ h]
}

// The schedule of a key, padded with zeros to the length of the longest schedule.
pub(crate) fn expand(bytes: &[u8]) -> [u8; 240]
    requires { IsKeyLength (length bytes.now) }
    ensures key { take (length bytes.now) result ≡ bytes.now }
    ensures schedule { take (4 * length bytes.now + 112) result ≡ schedule bytes.now }
{
    let key_words = bytes.len() / 4;
    let mut words = [0; 240];
    words[..bytes.len()].copy_from_slice(bytes);
    for i in key_words..4 * (key_words + 7) {
        let word = next(&words, key_words, i);
        words[4 * i..4 * i + 4].copy_from_slice(&word);
    }
    words
}
