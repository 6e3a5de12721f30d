// Reads the headers of runs.
ghost use Rattle.std.specs.Prelude.{◌≡◌, ◌<◌, ◌≤◌, ◌^◌, ◌*◌, option_map, length, IfSome};
ghost use Rattle.hybrid_runs.specs.Hybrid as hybrid;
ghost use Rattle.hybrid_runs.specs.Seen.{seen_pair};

/// Reads the header of a run, a varint of at most five bytes that fits 32 bits. The result has the bytes after it.
#[tactic(auto, unfolding(crate::specs::Hybrid::header))]
pub fn header_of(bytes: &[u8]) -> Option<(u32, &[u8])>
    ensures header { option_map seen_pair result ≡ hybrid.header bytes.now }
    ensures shorter { IfSome result (λ header. length header.1.now < length bytes.now) }
{
    let (number, rest) = varint(5, bytes)?;
    match u32::try_from(number) {
        Ok(header) => Some((header, rest)),
        Err(_) => None,
    }
}

fn varint(turns: u32, bytes: &[u8]) -> Option<(u64, &[u8])>
    requires { turns ≤ 5 }
    ensures varint { option_map seen_pair result ≡ hybrid.varint turns bytes.now }
    ensures small { IfSome result (λ found. found.0 < 2 ^ (7 * turns)) }
    ensures shorter { IfSome result (λ found. length found.1.now < length bytes.now) }
{
    if turns == 0 || bytes.is_empty() {
        return None;
    }
    let byte = bytes[0];
    if byte < 128 {
        return Some((u64::from(byte), &bytes[1..]));
    }
    let (number, rest) = varint(turns - 1, &bytes[1..])?;
    Some((u64::from(byte) - 128 + 128 * number, rest))
}
