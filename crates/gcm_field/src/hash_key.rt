// Hash keys: multiplication by a table of the key's multiples.
ghost use Rattle.std.specs.Prelude.{◌≡◌, ℕ, ◌+◌, ◌*◌, ◌^◌, ◌<◌, List, [], ◌∷◌, map, replicate, bit_xor};
ghost use Rattle.std.specs.Int.{w128, to_be_bytes};
ghost use Rattle.gcm_field.specs.Field.{folded, field_mul, reversed, polynomial, prod};
ghost use Rattle.gcm_field.specs.Table.{multiple, table_of, table_row};

use crate::bitwise::times_x;
use std::marker::Model;

/// A hash key: the block `H` of SP 800-38D, with a table of its multiples. Contracts see it as the block.
#[derive(Drop)]
pub struct HashKey {
    block: [u8; 16],
    rows: [[u8; 16]; 16],
    table: [[u128; 16]; 32],
}

impl Model for HashKey {
    ghost use Rattle.std.specs.Prelude.{ℕ, List};

    ghost Value = { List ℕ };

    ghost use Rattle.gcm_field.specs.KeyInside.{IsTabled};

    ghost view = { λ k. k.block };

    ghost invariant = { IsTabled };
}

impl HashKey {
    /// Computes the table for a block.
    pub fn new(block: [u8; 16]) -> HashKey
        ensures { result ≡ block }
    {
        let mut table = [[0; 16]; 32];
        fill_table(&mut table, u128::from_be_bytes(block));
        let rows = blocks_of(&table[0]);
        HashKey { block, rows, table }
    }

    /// The product of the block `x` with the key, by the table.
    pub fn mul(&self, x: [u8; 16]) -> [u8; 16]
        ensures { result ≡ prod x self.now }
    {
        self.mul_number(u128::from_be_bytes(x)).to_be_bytes()
    }

    /// The product of the key with the block `16 * digit, 0, 0, .., 0`.
    pub fn row(&self, digit: usize) -> &[u8; 16]
        requires { digit < 16 }
        ensures { result.now ≡ prod ((16 * digit) ∷ replicate 15 0) self.now }
    {
        &self.rows[digit]
    }

    /// The product of a block with the key, where the blocks are big-endian numbers.
    #[inline(always)]
    pub fn mul_number(&self, x: u128) -> u128
        ensures { reversed result ≡ field_mul (reversed x) (polynomial self.now) }
    {
        let bytes = x.to_be_bytes();
        // Two sums that don't depend on each other, so that they are computed in parallel.
        let mut high = 0;
        let mut low = 0;
        for k in 0..16 {
            let byte = bytes[k];
            high ^= self.table[2 * k][(byte >> 4) as usize];
            low ^= self.table[2 * k + 1][(byte & 15) as usize];
        }
        high ^ low
    }
}

// The XOR of the terms a, b, c and d for each value of a half byte, where a belongs to its highest bit.
#[inline(always)]
fn sums(a: u128, b: u128, c: u128, d: u128) -> [u128; 16]
    ensures { result ≡ 0 ∷ d ∷ c ∷ bit_xor c d
        ∷ b ∷ bit_xor b d ∷ bit_xor b c ∷ bit_xor b (bit_xor c d)
        ∷ a ∷ bit_xor a d ∷ bit_xor a c ∷ bit_xor a (bit_xor c d)
        ∷ bit_xor a b ∷ bit_xor (bit_xor a b) d ∷ bit_xor (bit_xor a b) c ∷ bit_xor (bit_xor a b) (bit_xor c d) ∷ [] }
{
    let ab = a ^ b;
    let cd = c ^ d;
    [
        0,
        d,
        c,
        cd,
        b,
        b ^ d,
        b ^ c,
        b ^ cd,
        a,
        a ^ d,
        a ^ c,
        a ^ cd,
        ab,
        ab ^ d,
        ab ^ c,
        ab ^ cd,
    ]
}

// Fills the table with the product of `h` and each value of each half byte. The first bit of a block is the coefficient of
// x^0.
#[inline(always)]
fn fill_table(table: &mut [[u128; 16]; 32], h: u128)
    ensures { table.new ≡ table_of (reversed h) }
{
    let mut a = h;
    for k in 0..32 {
        let b = times_x(a);
        let c = times_x(b);
        let d = times_x(c);
        table[k] = sums(a, b, c, d);
        a = times_x(d);
    }
}

// A row of the table as blocks of bytes.
#[inline(always)]
fn blocks_of(row: &[u128; 16]) -> [[u8; 16]; 16]
    ensures { result ≡ map (to_be_bytes w128) row.now }
{
    let mut blocks = [[0; 16]; 16];
    for v in 0..16 {
        blocks[v] = row[v].to_be_bytes();
    }
    blocks
}
