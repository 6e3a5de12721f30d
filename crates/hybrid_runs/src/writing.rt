// Writes bits as one bit-packed run.
ghost use Rattle.std.specs.Prelude.{◌≡◌, ℕ, List, ◌+◌, ◌*◌, ◌^◌, ◌≤◌, ◌<◌, ◌++◌, length, take, OnOk, OnErr};
ghost use Rattle.hybrid_runs.specs.Written as written;

use pme_base::OutOfMemory;

/// Appends one bit-packed run of width 1: the lowest bit of each item of `bits`, padded with 0 bits to whole bytes.
/// On an error `into` keeps what it held before, perhaps followed by a part of the run.
#[tactic(auto, unfolding(crate::specs::Written::header_text))]
pub fn write_run(bits: &[u8], into: &mut Vec<u8>) -> Result<(), OutOfMemory>
    requires { length bits.now ≤ 16777216 }
    ensures appended { OnOk result (into.new.items ≡ into.old.items ++ written.run_text bits.now) }
    ensures kept { OnErr result (take (length into.old.items) into.new.items ≡ into.old.items) }
{
    let groups = groups_of(bits.len());
    write_varint(5, 2 * groups as u32 + 1, into)?;
    write_bits(bits, into)
}

/// The size in bytes of a run of `count` bits with its header.
#[tactic(auto, unfolding(crate::specs::Written::header_text))]
pub fn run_length(count: usize) -> u32
    requires { count ≤ 16777216 }
    ensures { (bits : List ℕ) → length bits ≡ count → length (written.run_text bits) ≡ result }
{
    let groups = groups_of(count) as u32;
    varint_length(5, 2 * groups + 1) + groups
}

/// Appends the lowest bit of each item of `bits`, eight to a byte from the lowest bit on, padded with 0 bits. On an
/// error `into` keeps what it held before, perhaps followed by a part of the bytes.
pub fn write_bits(bits: &[u8], into: &mut Vec<u8>) -> Result<(), OutOfMemory>
    ensures appended { OnOk result (into.new.items ≡ into.old.items ++ written.bits_text bits.now) }
    ensures kept { OnErr result (take (length into.old.items) into.new.items ≡ into.old.items) }
{
    let groups = groups_of(bits.len());
    let mut rest = bits;
    for _ in 0..groups {
        let (group, more) = rest.split_at(rest.len().min(8));
        into.push(byte_of(group))?;
        rest = more;
    }
    Ok(())
}

fn groups_of(count: usize) -> usize
    ensures { result ≡ written.groups_of count }
{
    count.div_ceil(8)
}

/// Up to eight bits as a byte, from the lowest bit on.
fn byte_of(bits: &[u8]) -> u8
    requires { length bits.now ≤ 8 }
    ensures number { result ≡ written.bits_number bits.now }
    ensures small { result < 2 ^ length bits.now }
{
    match bits {
        [] => 0,
        [bit, rest @ ..] => bit % 2 + 2 * byte_of(rest),
    }
}

fn write_varint(turns: u32, number: u32, into: &mut Vec<u8>) -> Result<(), OutOfMemory>
    ensures appended { OnOk result (into.new.items ≡
        into.old.items ++ written.varint_text turns number) }
    ensures kept { OnErr result (take (length into.old.items) into.new.items ≡ into.old.items) }
{
    if turns == 0 {
        return Ok(());
    }
    if number < 128 {
        into.push(number as u8)?;
        return Ok(());
    }
    into.push((number % 128 + 128) as u8)?;
    write_varint(turns - 1, number / 128, into)
}

fn varint_length(turns: u32, number: u32) -> u32
    ensures length { result ≡ length (written.varint_text turns number) }
    ensures most { result ≤ turns }
{
    if turns == 0 {
        return 0;
    }
    if number < 128 {
        return 1;
    }
    1 + varint_length(turns - 1, number / 128)
}
