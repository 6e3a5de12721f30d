// Helpers on byte slices.
ghost use Rattle.std.specs.Prelude.{◌≡◌, ◌≤◌, min, length, take, drop, ◌++◌};
ghost use Rattle.pme_base.specs.Outside.{AreBytes};

/// The bytes from offset `at` to the end; empty where `at` is at the end or past it.
pub fn rest_from(bytes: &[u8], at: u64) -> &[u8]
    ensures { result.now ≡ drop at bytes.now }
{
    let start = bytes.len().min(at as usize);
    &bytes[start..]
}

/// Copies as much of `from` as fits to the front of `into`. Returns the number of bytes copied.
pub fn copy_front(from: &[u8], into: &mut [u8]) -> usize
    ensures count { result ≡ min (length into.new) (length from.now) }
    ensures front { take result into.new ≡ take result from.now }
{
    let count = into.len().min(from.len());
    into[..count].copy_from_slice(&from[..count]);
    count
}

/// Does nothing at run time. Its contract says that each item of a byte slice is below 256, for use in proofs.
pub fn are_bytes(bytes: &[u8])
    ensures { AreBytes bytes.now }
{}
