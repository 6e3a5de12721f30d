// Operations on vectors of four blocks.
ghost use Rattle.std.specs.Prelude.{◌≡◌, ◌<◌, ℕ, map, length, slice_index, T};
ghost use Rattle.aes_block.specs.FourBlocks.{lane_block, four_times};
ghost use Rattle.aes_block.specs.HalfBytes.{found, IsIndex};
ghost use Rattle.std.specs.Simd.Lanes.{Each1, all_below};

use std::simd::prelude::*;

const FOUR_TIMES: [usize; 64] = [
    0, 1, 2, 3, 4, 5, 6, 7, 8, 9, 10, 11, 12, 13, 14, 15, 0, 1, 2, 3, 4, 5, 6, 7, 8, 9, 10, 11, 12,
    13, 14, 15, 0, 1, 2, 3, 4, 5, 6, 7, 8, 9, 10, 11, 12, 13, 14, 15, 0, 1, 2, 3, 4, 5, 6, 7, 8, 9,
    10, 11, 12, 13, 14, 15,
];

// A vector with four copies of a block.
#[inline(always)]
pub(crate) fn spread(block: u8x16) -> u8x64
    ensures { result ≡ four_times block }
{
    block.swizzle(FOUR_TIMES)
}

// The table's entry at each index; 0 for an index of 128 or more.
#[inline(always)]
pub(crate) fn look_up(table: [u8; 16], indices: u8x64) -> u8x64
    requires { Each1 IsIndex indices }
    ensures { result ≡ map (found table) indices }
{
    spread(u8x16::from_array(table)).swizzle_dyn_within::<16>(indices)
}

// Permutes the bytes of each block: byte j of the result is byte `order[j]`.
#[inline(always)]
pub(crate) fn permute_bytes(blocks: u8x64, order: [u8; 16]) -> u8x64
    requires { T (all_below 16 order) }
    ensures { (b : ℕ) → b < 4 → lane_block result b ≡
        map (slice_index (lane_block blocks b)) order }
{
    blocks.swizzle_dyn_within::<16>(spread(u8x16::from_array(order)))
}
