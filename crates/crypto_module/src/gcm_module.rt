// Reading of GCM modules.
ghost use Rattle.std.specs.Prelude.{◌≡◌, ◌+◌, ◌-◌, ◌≤◌, ◌↔◌, ℕ, List, length, take, Ok, IsOk, IfOk, OnErr};
ghost use Rattle.std.specs.Int.{w32, to_le_bytes};
ghost use Rattle.pme_base.specs.Causes.{CausedBy};
ghost use Rattle.pme_base.specs.Steps.{Quiet};
ghost use Rattle.crypto_module.specs.Frames as frames;
ghost use Rattle.crypto_module.specs.Modules as modules;
ghost use Rattle.crypto_module.specs.Opening as opening;

use crate::frame::{ModuleKind, extent, filling_extent};
use aes_block::AesKey;
use gcm_seal::open_in_place;
use pme_base::{Cause, Detail, MODULE_LIMIT, Place, Refusal, refusal_at};

/// A module that has been decrypted in place: the `length` of its plaintext in bytes, the number of bytes that the
/// whole module takes (`consumed`), its nonce, and its tag (all zeros for a CTR module, which has none).
#[derive(Clone, Copy, Debug, PartialEq, Eq, Drop)]
pub struct OpenModule {
    pub length: usize,
    pub consumed: usize,
    pub nonce: [u8; 12],
    pub tag: [u8; 16],
}

/// Decrypts the GCM module at the front of `bytes` in place (SP 800-38D, section 7.2). Afterwards the plaintext is the
/// `length` bytes from offset 16 on, and all other bytes are unchanged. With `fill` the module must take up all of
/// `bytes`. `aad` is the associated data, at most 4,096 bytes.
///
/// The errors, at `place` and file offset `at`, are checked in this order: the errors of `extent`, where `room` is the
/// number of bytes after the length field; with `fill`, BadLength if bytes follow the module; BadTag if the stored tag
/// differs from the tag that is computed from key, nonce, `aad` and ciphertext. An error leaves `bytes` unchanged.
pub fn read_gcm(
    key: &AesKey,
    aad: &[u8],
    place: &Place,
    at: u64,
    limit: u32,
    fill: bool,
    bytes: &mut [u8],
) -> Result<OpenModule, Refusal>
    requires short_aad { length aad.now ≤ 4096 }
    requires small_limit { limit ≤ MODULE_LIMIT }
    ensures answer { opening.left_by result bytes.new ≡
        opening.opened key.now aad.now place.now at limit fill bytes.old }
    ensures opened { IfOk result (λ open_module.
        opening.IsOpened key.now aad.now limit fill bytes.old bytes.new open_module) }
    ensures consumed { IfOk result (λ open_module.
        frames.gcm_size place.now at limit fill bytes.old ≡ Ok open_module.consumed) }
    ensures accepted { IsOk result ↔ ((plain : List ℕ) ×
        modules.HoldsGcm fill key.now aad.now plain limit bytes.old) }
    ensures unchanged { OnErr result (bytes.new ≡ bytes.old) }
    ensures quiet { Quiet result }
    ensures causes { CausedBy frames.is_module_cause result }
{
    let size = gcm_size(place, at, limit, fill, bytes)?;
    let nonce = nonce_of(&bytes[..size]);
    let tag = stored_of(&bytes[..size]);
    match open_in_place(key, &nonce, aad, &mut bytes[16..size - 16], &tag) {
        Ok(()) => Ok(OpenModule {
            length: size - 32,
            consumed: size,
            nonce,
            tag,
        }),
        Err(e) => {
            let detail = Detail::Tags(e.expected, e.stored);
            Err(refusal_at(Cause::BadTag, *place, at, detail))
        }
    }
}

/// The size of the GCM module at the front of `bytes`, length field included.
fn gcm_size(place: &Place, at: u64, limit: u32, fill: bool, bytes: &[u8]) -> Result<usize, Refusal>
    ensures size { result ≡ frames.gcm_size place.now at limit fill bytes.now }
    ensures inside { IfOk result (λ size. size ≤ length bytes.now) }
    ensures limited { IfOk result (λ size. size ≤ limit + 32) }
    ensures least { IfOk result (λ size. 32 ≤ size) }
    ensures field { IfOk result (λ size. to_le_bytes w32 (size - 4) ≡ take 4 bytes.now) }
    ensures causes { CausedBy frames.is_frame_cause result }
{
    let head = &bytes[..bytes.len().min(4)];
    let room = bytes.len().saturating_sub(4) as u64;
    let size = if fill {
        filling_extent(ModuleKind::Gcm, place, at, limit, head, room)?
    } else {
        extent(ModuleKind::Gcm, place, at, limit, head, room)?
    };
    Ok(size as usize)
}

/// The nonce of a module.
pub(crate) fn nonce_of(bytes: &[u8]) -> [u8; 12]
    requires { 16 ≤ length bytes.now }
    ensures { result ≡ modules.nonce_of bytes.now }
{
    let mut nonce = [0; 12];
    nonce.copy_from_slice(&bytes[4..16]);
    nonce
}

/// The tag that is stored at the end of a module.
fn stored_of(bytes: &[u8]) -> [u8; 16]
    requires { 16 ≤ length bytes.now }
    ensures { result ≡ modules.stored_of bytes.now }
{
    let mut tag = [0; 16];
    tag.copy_from_slice(&bytes[bytes.len() - 16..]);
    tag
}
