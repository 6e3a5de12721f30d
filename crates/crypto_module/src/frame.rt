// The frame of a module: its size from the length field.
ghost use Rattle.std.specs.Prelude.{◌≡◌, ◌+◌, ◌-◌, ◌≤◌, true, length, take, IfOk};
ghost use Rattle.std.specs.Int.{w32, to_le_bytes};
ghost use Rattle.pme_base.specs.Causes.{CausedBy};
ghost use Rattle.pme_base.specs.Refusals.{pair_refusal};
ghost use Rattle.pme_base.specs.Steps.{Quiet};
ghost use Rattle.crypto_module.specs.Frames as frames;

use pme_base::{Cause, Detail, Place, Refusal, refusal_at};

/// The two forms of a module.
#[derive(Clone, Copy, Debug, PartialEq, Eq, Drop)]
pub enum ModuleKind {
    /// AES-GCM: the ciphertext follows a 12-byte nonce and precedes a 16-byte tag.
    Gcm,
    /// AES-CTR: the ciphertext follows a 12-byte nonce; there is no tag.
    Ctr,
}

/// The size in bytes of a whole module, including its length field.
///
/// `head` holds the first four bytes of the module, or all its bytes if there are fewer than four. `room` is the number
/// of bytes available after the length field. The errors, at `place` and file offset `at`, are checked in this order:
/// Truncated if `head` has fewer than four bytes; BadLength if the length field is below the size of a nonce and (in
/// GCM) a tag; TooLarge if the plaintext would exceed `limit`; Truncated if the module needs more than `room` bytes.
pub fn extent(
    kind: ModuleKind,
    place: &Place,
    at: u64,
    limit: u32,
    head: &[u8],
    room: u64,
) -> Result<u64, Refusal>
    ensures size { result ≡ frames.frame_size kind place.now at limit head.now room }
    ensures whole { IfOk result (λ size. size ≤ 4 + room) }
    ensures limited { IfOk result (λ size. size ≤ 4 + frames.overhead kind + limit) }
    ensures least { IfOk result (λ size. 4 + frames.overhead kind ≤ size) }
    ensures head { IfOk result (λ _. 4 ≤ length head.now) }
    ensures field { IfOk result (λ size. to_le_bytes w32 (size - 4) ≡ take 4 head.now) }
    ensures quiet { Quiet result }
    ensures causes { CausedBy frames.is_frame_cause result }
{
    let Some(field) = head.first_chunk::<4>() else {
        return Err(refuse(Cause::Truncated, place, at, 4, head.len() as u64));
    };
    let counted = u64::from(u32::from_le_bytes(*field));
    let overhead = overhead(kind);
    if counted < overhead {
        return Err(refuse(Cause::BadLength, place, at, counted, room));
    }
    let plain = counted - overhead;
    if plain > u64::from(limit) {
        return Err(refuse(Cause::TooLarge, place, at, plain, u64::from(limit)));
    }
    if room < counted {
        let available = room.saturating_add(4);
        return Err(refuse(Cause::Truncated, place, at, 4 + counted, available));
    }
    Ok(4 + counted)
}

/// The size of a module that must take up all of `room`: as `extent`, and then BadLength if bytes follow the module.
pub fn filling_extent(
    kind: ModuleKind,
    place: &Place,
    at: u64,
    limit: u32,
    head: &[u8],
    room: u64,
) -> Result<u64, Refusal>
    ensures size { result ≡ frames.checked_frame_size true kind place.now at limit head.now room }
    ensures whole { IfOk result (λ size. size ≡ 4 + room) }
    ensures limited { IfOk result (λ size. size ≤ 4 + frames.overhead kind + limit) }
    ensures least { IfOk result (λ size. 4 + frames.overhead kind ≤ size) }
    ensures head { IfOk result (λ _. 4 ≤ length head.now) }
    ensures field { IfOk result (λ size. to_le_bytes w32 (size - 4) ≡ take 4 head.now) }
    ensures quiet { Quiet result }
    ensures causes { CausedBy frames.is_frame_cause result }
{
    let size = extent(kind, place, at, limit, head, room)?;
    let counted = size - 4;
    if counted < room {
        return Err(refuse(Cause::BadLength, place, at, counted, room));
    }
    Ok(size)
}

/// The bytes that the length field counts in addition to the ciphertext.
fn overhead(kind: ModuleKind) -> u64
    ensures { result ≡ frames.overhead kind }
{
    match kind {
        ModuleKind::Gcm => 28,
        ModuleKind::Ctr => 12,
    }
}

fn refuse(cause: Cause, place: &Place, at: u64, first: u64, second: u64) -> Refusal
    ensures { result ≡ pair_refusal cause place.now at first second }
{
    refusal_at(cause, *place, at, Detail::Pair(first, second))
}
