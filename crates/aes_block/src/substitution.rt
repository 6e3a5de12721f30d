// The S-box (FIPS 197, section 5.1.1), applied to each byte of a vector.
//
// Over another basis a byte is a pair of elements i and k of the field with 16 elements, and its inverse can be computed
// with inverses in that field. The inverse of 0 is represented by 128, for infinity: the XOR of 128 and a half byte is at
// least 128, where a look-up gives 0.
ghost use Rattle.std.specs.Prelude.{◌≡◌, ◌/◌, ◌%◌, map};
ghost use Rattle.std.specs.Simd.Lanes.{Each1};
ghost use Rattle.aes_block.specs.Basis.{basis, high_index, low_index, affine, affine_once, affine_twice};
ghost use Rattle.aes_block.specs.Field.{sbox};
ghost use Rattle.aes_block.specs.HalfBytes.{IsIndex};

use crate::lanes::look_up;
use std::simd::prelude::*;

// The change to the other basis, for the low and the high half of a byte.
const BASIS_LOW: [u8; 16] = [
    0x00, 0x70, 0x2a, 0x5a, 0x98, 0xe8, 0xb2, 0xc2, 0x08, 0x78, 0x22, 0x52, 0x90, 0xe0, 0xba, 0xca,
];

const BASIS_HIGH: [u8; 16] = [
    0x00, 0x4d, 0x7c, 0x31, 0x7d, 0x30, 0x01, 0x4c, 0x81, 0xcc, 0xfd, 0xb0, 0xfc, 0xb1, 0x80, 0xcd,
];

// The inverse of a half byte, and the inverse multiplied by a constant.
const INVERSE: [u8; 16] = [
    0x80, 0x01, 0x08, 0x0d, 0x0f, 0x06, 0x05, 0x0e, 0x02, 0x0c, 0x0b, 0x0a, 0x09, 0x03, 0x07, 0x04,
];

const INVERSE_SCALED: [u8; 16] = [
    0x80, 0x07, 0x0b, 0x0f, 0x06, 0x0a, 0x04, 0x01, 0x09, 0x08, 0x05, 0x02, 0x0c, 0x0e, 0x0d, 0x03,
];

// The affine map of the inverse without its constant 0x63, looked up by the two indices that `inverse` gives: over the
// standard basis; and over the other basis, multiplied by 1 and by 2, which MixColumns needs.
const AFFINE_HIGH: [u8; 16] = [
    0x00, 0xc7, 0xbd, 0x6f, 0x17, 0x6d, 0xd2, 0xd0, 0x78, 0xa8, 0x02, 0xc5, 0x7a, 0xbf, 0xaa, 0x15,
];

const AFFINE_LOW: [u8; 16] = [
    0x00, 0x6a, 0xbb, 0x5f, 0xa5, 0x74, 0xe4, 0xcf, 0xfa, 0x35, 0x2b, 0x41, 0xd1, 0x90, 0x1e, 0x8e,
];

const ONCE_HIGH: [u8; 16] = [
    0x00, 0x3e, 0x50, 0xcb, 0x8f, 0xe1, 0x9b, 0xb1, 0x44, 0xf5, 0x2a, 0x14, 0x6e, 0x7a, 0xdf, 0xa5,
];

const ONCE_LOW: [u8; 16] = [
    0x00, 0x23, 0xe2, 0xfa, 0x15, 0xd4, 0x18, 0x36, 0xef, 0xd9, 0x2e, 0x0d, 0xc1, 0xcc, 0xf7, 0x3b,
];

const TWICE_HIGH: [u8; 16] = [
    0x00, 0x24, 0x71, 0x0b, 0xc6, 0x93, 0x7a, 0xe2, 0xcd, 0x2f, 0x98, 0xbc, 0x55, 0xe9, 0xb7, 0x5e,
];

const TWICE_LOW: [u8; 16] = [
    0x00, 0x29, 0xe1, 0x0a, 0x40, 0x88, 0xeb, 0x69, 0x4a, 0x23, 0x82, 0xab, 0xc8, 0x63, 0xa1, 0xc2,
];

#[inline(always)]
fn low_half(v: u8x64) -> u8x64
    ensures { result ≡ map (λ x. x % 16) v }
{
    v & u8x64::splat(15)
}

#[inline(always)]
fn high_half(v: u8x64) -> u8x64
    ensures { result ≡ map (λ x. x / 16) v }
{
    v >> u8x64::splat(4)
}

// Changes each byte to the other basis.
#[inline(always)]
pub(crate) fn over_basis(v: u8x64) -> u8x64
    ensures { result ≡ map basis v }
{
    look_up(BASIS_LOW, low_half(v)) ^ look_up(BASIS_HIGH, high_half(v))
}

// The two indices into the tables of the affine map, for bytes over the other basis.
#[inline(always)]
fn inverse(pairs: u8x64) -> (u8x64, u8x64)
    ensures high { result.0 ≡ map high_index pairs }
    ensures low { result.1 ≡ map low_index pairs }
    ensures indices { Each1 IsIndex result.0 × Each1 IsIndex result.1 }
{
    let i = high_half(pairs);
    let k = low_half(pairs);
    let j = i ^ k;
    let scaled = look_up(INVERSE_SCALED, k);
    let first = look_up(INVERSE, i) ^ scaled;
    let second = look_up(INVERSE, j) ^ scaled;
    (look_up(INVERSE, first) ^ j, look_up(INVERSE, second) ^ i)
}

// The S-box without the constant of the affine map: from the other basis to the standard basis.
#[inline(always)]
pub(crate) fn sub_bytes_over_basis(pairs: u8x64) -> u8x64
    ensures { result ≡ map affine pairs }
{
    let (high, low) = inverse(pairs);
    look_up(AFFINE_HIGH, high) ^ look_up(AFFINE_LOW, low)
}

// The S-box without the constant, with results over the other basis: multiplied by 1 and by 2.
#[inline(always)]
pub(crate) fn sub_bytes_and_double(pairs: u8x64) -> (u8x64, u8x64)
    ensures once { result.0 ≡ map affine_once pairs }
    ensures twice { result.1 ≡ map affine_twice pairs }
{
    let (high, low) = inverse(pairs);
    let once = look_up(ONCE_HIGH, high) ^ look_up(ONCE_LOW, low);
    let twice = look_up(TWICE_HIGH, high) ^ look_up(TWICE_LOW, low);
    (once, twice)
}

// SubBytes: the S-box of each byte, over the standard basis.
#[inline(always)]
pub(crate) fn sub_bytes(v: u8x64) -> u8x64
    ensures { result ≡ map sbox v }
{
    sub_bytes_over_basis(over_basis(v)) ^ u8x64::splat(0x63)
}
