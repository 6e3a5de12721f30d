// The bytes of an encrypted or signed footer, after its tag was checked.
ghost use Rattle.std.specs.Prelude.{◌≡◌, ◌+◌, ◌≤◌, true, false, length, take, drop, Ok, Err, IfOk, IfErr};
ghost use Rattle.crypto_module.specs.Frames.{is_module_cause};
ghost use Rattle.crypto_module.specs.Opening.{opened};
ghost use Rattle.pme_base.specs.Causes.{CausedBy};
ghost use Rattle.pme_base.specs.Steps.{Answers, Quiet};
ghost use Rattle.key_rights.specs.Finding.{footer};
ghost use Rattle.module_aad.specs.Aad as associated;
ghost use Rattle.gcm_seal.specs.Gcm.{gctr, tag_of};
ghost use Rattle.footer_modes.specs.Causes.{is_footer_key_cause, FinderFails};
ghost use Rattle.footer_modes.specs.Ends.{footer_place};
ghost use Rattle.footer_modes.specs.TailOf as defined;
ghost use Rattle.footer_modes.specs.declared.mode.Magic.TheVariants as magic_is;

use crate::head::refused;
use crate::mode::Magic;
use aes_block::AesKey;
use crypto_module::read_gcm;
use gcm_seal::sign;
use key_rights::{FooterKey, KeyAnswer, KeyFinder, KeyTrouble};
use module_aad::FileAad;
use pme_base::{
    Bytes, Cause, Detail, FOOTER_AREA_LIMIT, FOOTER_LIMIT, Place, Refusal, plain_refusal,
    refusal_at,
};
use std::alloc::Global;

/// Asks for the footer's key by its metadata.
pub(crate) fn footer_key<K: KeyFinder>(
    alloc: Global,
    finder: &mut K,
    metadata: &Option<Bytes>,
) -> Result<FooterKey, Refusal>
    ensures answer { Answers result (defined.key_of (K.answer finder.old (footer metadata.now))) }
    ensures same { K.answer finder.new ≡ K.answer finder.old }
    ensures finder { FinderFails (K.faults finder.old) (K.faults finder.new) result }
    ensures causes { CausedBy is_footer_key_cause result }
{
    let answer = match metadata {
        Some(metadata) => finder.footer_key(alloc, Some(metadata.as_slice())),
        None => finder.footer_key(alloc, None),
    };
    match answer {
        Ok(KeyAnswer::Held(key)) => Ok(FooterKey::new(key)),
        Ok(KeyAnswer::Absent) => Err(refused(Cause::FooterKeyMissing, Detail::Nothing)),
        Ok(KeyAnswer::Refused(cause, detail)) => Err(refused(cause, detail)),
        Err(KeyTrouble::Failed) => Err(plain_refusal(Cause::ServiceFault)),
        Err(KeyTrouble::OutOfMemory) => Err(plain_refusal(Cause::OutOfMemory)),
    }
}

/// Decrypts an encrypted footer in place, or checks a signed one, and lends its bytes. The first `size` bytes of the area
/// come before the module or the nonce of the signature, which stands at the offset `at` of the file.
pub(crate) fn plain_of<'a>(
    magic: Magic,
    key: &AesKey,
    file: &FileAad,
    at: u64,
    size: usize,
    area: &'a mut [u8],
) -> Result<&'a [u8], Refusal>
    requires within { size ≤ length area.old }
    requires signed { magic ≡ magic_is.Par1 → size + 28 ≡ length area.old }
    requires short { length area.old ≤ FOOTER_AREA_LIMIT }
    ensures ok { IfOk result (λ plain. defined.plain_of magic key.now file.now at size area.old
        ≡ Ok plain.now) }
    ensures err { IfErr result (λ refusal. defined.plain_of magic key.now file.now at size area.old
        ≡ Err refusal) }
    ensures place { IfErr result (λ refusal. refusal.place ≡ footer_place) }
    ensures quiet { Quiet result }
    ensures causes { CausedBy is_module_cause result }
{
    let mut aad = [0; 1095];
    let length = file.write_aad(&Place::footer(), &mut aad);
    match magic {
        Magic::Pare => sealed_plain(key, &aad[..length], at, &mut area[size..]),
        Magic::Par1 => signed_plain(key, &aad[..length], at, size, area),
    }
}

/// Opens the module that fills these bytes.
fn sealed_plain<'a>(
    key: &AesKey,
    aad: &[u8],
    at: u64,
    module: &'a mut [u8],
) -> Result<&'a [u8], Refusal>
    requires short { length aad.now ≤ 4096 }
    ensures ok { IfOk result (λ plain.
        opened key.now aad.now footer_place at FOOTER_LIMIT true «module».old ≡ Ok plain.now) }
    ensures err { IfErr result (λ refusal.
        opened key.now aad.now footer_place at FOOTER_LIMIT true «module».old ≡ Err refusal) }
    ensures place { IfErr result (λ refusal. refusal.place ≡ footer_place) }
    ensures quiet { Quiet result }
    ensures causes { CausedBy is_module_cause result }
{
    match read_gcm(key, aad, &Place::footer(), at, FOOTER_LIMIT, true, module) {
        Ok(opened) => Ok(&module[16..][..opened.length]),
        Err(refusal) => Err(refusal),
    }
}

/// Checks the tag at the end of the area against the tag that sealing the first `size` bytes gives, under the nonce that
/// follows them.
fn signed_plain<'a>(
    key: &AesKey,
    aad: &[u8],
    at: u64,
    size: usize,
    area: &'a [u8],
) -> Result<&'a [u8], Refusal>
    requires short_aad { length aad.now ≤ 4096 }
    requires size { size + 28 ≡ length area.now }
    requires short { length area.now ≤ FOOTER_AREA_LIMIT }
    ensures ok { IfOk result (λ plain. defined.checked_area key.now aad.now at size area.now
        ≡ Ok plain.now) }
    ensures err { IfErr result (λ refusal. defined.checked_area key.now aad.now at size area.now
        ≡ Err refusal) }
    ensures place { IfErr result (λ refusal. refusal.place ≡ footer_place) }
    ensures quiet { Quiet result }
    ensures causes { CausedBy is_module_cause result }
{
    let plain = &area[..size];
    let nonce = nonce_of(&area[size..]);
    let stored = tag_of(&area[size..]);
    let expected = sign(key, &nonce, aad, plain);
    if expected != stored {
        let detail = Detail::Tags(expected, stored);
        return Err(refusal_at(Cause::BadTag, Place::footer(), at, detail));
    }
    Ok(plain)
}

/// The nonce of a signature.
fn nonce_of(signature: &[u8]) -> [u8; 12]
    requires { length signature.now ≡ 28 }
    ensures { result ≡ take 12 signature.now }
{
    let mut nonce = [0; 12];
    nonce.copy_from_slice(&signature[..12]);
    nonce
}

/// The tag of a signature.
fn tag_of(signature: &[u8]) -> [u8; 16]
    requires { length signature.now ≡ 28 }
    ensures { result ≡ drop 12 signature.now }
{
    let mut tag = [0; 16];
    tag.copy_from_slice(&signature[12..]);
    tag
}
