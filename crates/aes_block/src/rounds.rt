// The rounds of the cipher (FIPS 197, section 5.1), for four blocks at once.
//
// Between the rounds the state is kept over the basis in which the S-box is computed, which saves a change of basis in
// each round. A change of basis preserves XOR, so that ShiftRows, MixColumns and AddRoundKey work over that basis too.
ghost use Rattle.std.specs.Prelude.{◌≡◌, ◌<◌, ◌≤◌, ◌+◌, ◌*◌, ℕ, List, map, length};
ghost use Rattle.aes_block.specs.Aes.{shift_rows, round, round_key, cipher};
ghost use Rattle.aes_block.specs.FourBlocks.{lane_block};
ghost use Rattle.aes_block.specs.Basis.{basis, inner_key, IsState, IsKey};

use crate::lanes::{permute_bytes, spread};
use crate::substitution::{over_basis, sub_bytes_and_double, sub_bytes_over_basis};
use std::simd::prelude::*;

// ShiftRows: row r moves r places to the left. The state is stored column by column.
const ROWS: [u8; 16] = [0, 5, 10, 15, 4, 9, 14, 3, 8, 13, 2, 7, 12, 1, 6, 11];

// ShiftRows, followed by a rotation of each column by one, two and three bytes.
const ROWS_TURNED: [u8; 16] = [5, 10, 15, 0, 9, 14, 3, 4, 13, 2, 7, 8, 1, 6, 11, 12];

const ROWS_TURNED_TWICE: [u8; 16] = [10, 15, 0, 5, 14, 3, 4, 9, 2, 7, 8, 13, 6, 11, 12, 1];

const ROWS_TURNED_THRICE: [u8; 16] = [15, 0, 5, 10, 3, 4, 9, 14, 7, 8, 13, 2, 11, 12, 1, 6];

// The key of round r, once for each of the four blocks.
#[inline(always)]
fn key_of_round(round_keys: &[u8; 240], r: usize) -> u8x64
    requires { r < 15 }
    ensures { (b : ℕ) → b < 4 → lane_block result b ≡ round_key round_keys.now r }
{
    spread(u8x16::from_slice(&round_keys[16 * r..]))
}

// One round. Each byte a of the shifted state, with the three bytes b, c, d below it in its column, gives the next byte
// 2 a + 3 b + c + d, computed as 2 a + (b + 2 b) + (c + d).
#[inline(always)]
fn round(state: u8x64, key: u8x64) -> u8x64
    ensures { (b : ℕ) → (s k : List ℕ) → b < 4 → IsState (lane_block state b) s →
        IsKey (lane_block key b) k → IsState (lane_block result b) (round s k) }
{
    let (once, twice) = sub_bytes_and_double(state);
    let first = permute_bytes(twice, ROWS) ^ permute_bytes(once ^ twice, ROWS_TURNED);
    first ^ (permute_bytes(once, ROWS_TURNED_TWICE) ^ permute_bytes(once, ROWS_TURNED_THRICE)) ^ key
}

// The round keys over the other basis, XORed with the S-box's constant 0x63. MixColumns doesn't change a state whose bytes
// are all equal, so that the constant can be added together with the key.
pub(crate) fn inner_keys(round_keys: &[u8; 240]) -> [u8; 240]
    ensures { result ≡ map inner_key round_keys.now }
{
    let mut keys = [0; 240];
    for r in 0..15 {
        let key = over_basis(key_of_round(round_keys, r) ^ u8x64::splat(0x63));
        keys[16 * r..16 * r + 16].copy_from_slice(&key.extract::<0, 16>().to_array());
    }
    keys
}

// The cipher with n rounds and the final round.
#[inline(always)]
pub(crate) fn encrypt(
    round_keys: &[u8; 240],
    inner_keys: &[u8; 240],
    n: usize,
    blocks: u8x64,
) -> u8x64
    requires few { n < 14 }
    requires inner { inner_keys.now ≡ map inner_key round_keys.now }
    ensures { (b : ℕ) → b < 4 → lane_block result b ≡ cipher round_keys.now n
        (lane_block blocks b) }
{
    let mut state = over_basis(blocks ^ key_of_round(round_keys, 0));
    for r in 0..n {
        state = round(state, key_of_round(inner_keys, r + 1));
    }
    let key = key_of_round(round_keys, n + 1) ^ u8x64::splat(0x63);
    permute_bytes(sub_bytes_over_basis(state), ROWS) ^ key
}
