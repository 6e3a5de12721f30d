// Reads the values of runs.
ghost use Rattle.std.specs.Prelude.{◌≡◌, ◌≤◌, ◌<◌, ◌+◌, ◌-◌, ◌*◌, ◌^◌, ◌/◌, ◌==◌, ◌++◌, if◌then◌else◌, take, drop, length, replicate, min, vec_len, IfOk, OnOk};
ghost use Rattle.hybrid_runs.specs.Hybrid as hybrid;

use crate::bits::{Bits, le_number};
use crate::varint::header_of;
use pme_base::OutOfMemory;
use std::alloc::Global;

/// Reads the first `count` values, each of `width` bits, from `bytes`. If the bytes end or a run header is invalid
/// before that, the values up to there are the result. Bytes after the last value read are ignored.
pub fn first_values(
    alloc: Global,
    width: u32,
    count: usize,
    bytes: &[u8],
) -> Result<Vec<u32>, OutOfMemory>
    requires width { width ≤ 32 }
    ensures { IfOk result (λ values. values.items ≡ take count (hybrid.hybrid width bytes.now)) }
{
    let mut values = Vec::new(alloc);
    let mut rest = bytes;
    while values.len() < count {
        let Some((header, run)) = header_of(rest) else {
            break;
        };
        push_run(&mut values, count, width, header, run)?;
        rest = bytes_after(run, run_size(width, header));
    }
    Ok(values)
}

/// Appends the values of the run with the given header, until `values` holds `count`.
#[tactic(auto, unfolding(crate::specs::Hybrid::run_values))]
fn push_run(
    values: &mut Vec<u32>,
    count: usize,
    width: u32,
    header: u32,
    run: &[u8],
) -> Result<(), OutOfMemory>
    requires width { width ≤ 32 }
    requires room { vec_len values.old ≤ count }
    ensures { OnOk result (values.new.items ≡ values.old.items ++
        take (count - vec_len values.old) (hybrid.run_values width header run.now)) }
{
    let left = count - values.len();
    if header % 2 == 0 {
        push_copies(values, left.min((header / 2) as usize), width, run)
    } else {
        push_packed(values, left.min(8 * (header / 2) as usize), width, run)
    }
}

/// Appends `count` copies of the value at the start of `run`, or nothing if `run` is too short for a value.
fn push_copies(
    values: &mut Vec<u32>,
    count: usize,
    width: u32,
    run: &[u8],
) -> Result<(), OutOfMemory>
    requires width { width ≤ 32 }
    requires fits { vec_len values.old + count < 2 ^ 64 }
    ensures { OnOk result (values.new.items ≡
        values.old.items ++ hybrid.copies width count run.now) }
{
    let size = value_size(width);
    if run.len() < size {
        return Ok(());
    }
    let value = le_number(&run[..size]);
    let length = values.len();
    values.resize(length + count, value)?;
    Ok(())
}

/// Appends `count` bit-packed values, or as many as `run` holds.
fn push_packed(
    values: &mut Vec<u32>,
    count: usize,
    width: u32,
    run: &[u8],
) -> Result<(), OutOfMemory>
    requires width { width ≤ 32 }
    ensures { OnOk result (values.new.items ≡ values.old.items ++
        hybrid.packed width count (hybrid.le_number run.now) (8 * length run.now)) }
{
    let mut bits = Bits::new(run);
    for _ in 0..count {
        let Some((value, more)) = bits.next(width) else {
            return Ok(());
        };
        values.push(value)?;
        bits = more;
    }
    Ok(())
}

/// The size in bytes of a run without its header.
#[tactic(auto, unfolding(crate::specs::Hybrid::run_size))]
fn run_size(width: u32, header: u32) -> usize
    requires { width ≤ 32 }
    ensures { result ≡ hybrid.run_size width header }
{
    if header % 2 == 0 {
        value_size(width)
    } else {
        width as usize * (header / 2) as usize
    }
}

/// The size in bytes of the value of an RLE run.
fn value_size(width: u32) -> usize
    requires { width ≤ 32 }
    ensures size { result ≡ hybrid.value_size width }
    ensures small { result ≤ 4 }
{
    width.div_ceil(8) as usize
}

/// The bytes after the first `size`, or none if there are fewer.
fn bytes_after(bytes: &[u8], size: usize) -> &[u8]
    ensures { result.now ≡ drop size bytes.now }
{
    &bytes[size.min(bytes.len())..]
}
