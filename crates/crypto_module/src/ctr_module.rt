// Reading of CTR modules.
ghost use Rattle.std.specs.Prelude.{◌≡◌, ◌+◌, ◌-◌, ◌≤◌, ◌↔◌, ℕ, List, length, take, Ok, IsOk, IfOk, OnErr};
ghost use Rattle.std.specs.Int.{w32, to_le_bytes};
ghost use Rattle.pme_base.specs.Causes.{CausedBy};
ghost use Rattle.pme_base.specs.Steps.{Quiet};
ghost use Rattle.crypto_module.specs.Frames as frames;
ghost use Rattle.crypto_module.specs.Modules as modules;
ghost use Rattle.crypto_module.specs.Opening as opening;

use crate::frame::{ModuleKind, extent};
use crate::gcm_module::{OpenModule, nonce_of};
use aes_block::AesKey;
use gcm_seal::ctr_in_place;
use pme_base::{MODULE_LIMIT, Place, Refusal};

/// Decrypts the CTR module at the front of `bytes` in place: counter mode (SP 800-38D, section 6.5) from counter 1.
/// Afterwards the plaintext is the `length` bytes from offset 16 on, and all other bytes are unchanged. The `tag` of the
/// result is all zeros.
///
/// The errors are the ones that `extent` gives, where `room` is the number of bytes after the length field. An error leaves
/// `bytes` unchanged.
pub fn read_ctr(
    key: &AesKey,
    place: &Place,
    at: u64,
    limit: u32,
    bytes: &mut [u8],
) -> Result<OpenModule, Refusal>
    requires small_limit { limit ≤ MODULE_LIMIT }
    ensures answer { opening.left_by result bytes.new ≡
        opening.opened_ctr key.now place.now at limit bytes.old }
    ensures opened { IfOk result (λ open_module.
        opening.IsCtrOpened key.now limit bytes.old bytes.new open_module) }
    ensures consumed { IfOk result (λ open_module. frames.ctr_size place.now at limit bytes.old ≡
        Ok open_module.consumed) }
    ensures accepted { IsOk result ↔ ((plain : List ℕ) ×
        modules.HoldsCtr key.now plain limit bytes.old) }
    ensures unchanged { OnErr result (bytes.new ≡ bytes.old) }
    ensures quiet { Quiet result }
    ensures causes { CausedBy frames.is_frame_cause result }
{
    let size = ctr_size(place, at, limit, bytes)?;
    let nonce = nonce_of(bytes);
    ctr_in_place(key, &nonce, &mut bytes[16..size]);
    Ok(OpenModule {
        length: size - 16,
        consumed: size,
        nonce,
        tag: [0; 16],
    })
}

/// The size of the CTR module at the front of `bytes`, length field included.
fn ctr_size(place: &Place, at: u64, limit: u32, bytes: &[u8]) -> Result<usize, Refusal>
    ensures size { result ≡ frames.ctr_size place.now at limit bytes.now }
    ensures inside { IfOk result (λ size. size ≤ length bytes.now) }
    ensures limited { IfOk result (λ size. size ≤ limit + 16) }
    ensures least { IfOk result (λ size. 16 ≤ size) }
    ensures field { IfOk result (λ size. to_le_bytes w32 (size - 4) ≡ take 4 bytes.now) }
    ensures causes { CausedBy frames.is_frame_cause result }
{
    let head = &bytes[..bytes.len().min(4)];
    let room = bytes.len().saturating_sub(4) as u64;
    let size = extent(ModuleKind::Ctr, place, at, limit, head, room)?;
    Ok(size as usize)
}
