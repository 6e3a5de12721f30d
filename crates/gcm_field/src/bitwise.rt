// Products in GF(2^128), computed bit by bit. Blocks are big-endian numbers here.
ghost use Rattle.std.specs.Prelude.{◌≡◌, ◌*◌, ◌<◌};
ghost use Rattle.gcm_field.specs.Field.{folded, field_mul, reversed, prod};

// The modulus without x^128. The first bit of a block is the coefficient of x^0.
const REDUCTION: u128 = 0xe1 << 120;

/// The product of a block with x: a right shift by one bit. If the bit that is shifted out is set, it is reduced.
#[inline(always)]
pub fn times_x(v: u128) -> u128
    ensures { reversed result ≡ folded (reversed v * 2) }
{
    let carry = if v % 2 == 1 { REDUCTION } else { 0 };
    (v / 2) ^ carry
}

/// The product of two blocks, computed bit by bit as in SP 800-38D, section 6.3. It is slow; tests compare the table-driven
/// product with it.
pub fn plain_product(x: [u8; 16], y: [u8; 16]) -> [u8; 16]
    ensures { result ≡ prod x y }
{
    product(u128::from_be_bytes(x), u128::from_be_bytes(y)).to_be_bytes()
}

/// The product of two blocks as numbers.
fn product(x: u128, y: u128) -> u128
    ensures { reversed result ≡ field_mul (reversed x) (reversed y) }
{
    let mut sum = 0;
    let mut shifted = y;
    for i in 0..128u32 {
        sum ^= where_set((x >> (127 - i)) % 2, shifted);
        shifted = times_x(shifted);
    }
    sum
}

// `v` if `bit` is 1, otherwise 0.
fn where_set(bit: u128, v: u128) -> u128
    requires { bit < 2 }
    ensures { result ≡ bit * v }
{
    if bit == 1 { v } else { 0 }
}
