//! The encrypted modules of Parquet Modular Encryption: a length field, a nonce, a ciphertext and, in GCM, a tag. A
//! module is decrypted in place, a GCM module only if its tag is right. A ciphertext that is too long for memory is
//! authenticated piece by piece and then decrypted piece by piece. Modules are written to the end of a byte list.
#![tactic(auto)]

ghost use Rattle.crypto_module.specs.Opening.{OpensExactly, CtrOpensExactly, GcmReadsBack, CtrReadsBack};

mod ctr_module;
mod frame;
mod gcm_module;
mod pieces;
mod writing;

pub use ctr_module::read_ctr;
pub use frame::{ModuleKind, extent, filling_extent};
pub use gcm_module::{OpenModule, read_gcm};
pub use pieces::{Checked, Checking};
pub use writing::{ModuleRefusal, write_ctr, write_gcm};

/// Bytes decrypt to a plaintext if and only if they hold a GCM module of that plaintext.
pub fn opens_exactly_what_is_sealed()
    ensures { OpensExactly }
{}

/// Bytes decrypt to a plaintext if and only if they hold a CTR module of that plaintext.
pub fn opens_exactly_what_is_encrypted()
    ensures { CtrOpensExactly }
{}

/// A written module is read back with the same plaintext, nonce and, in GCM, tag.
pub fn reads_back_what_is_written()
    ensures gcm { GcmReadsBack }
    ensures ctr { CtrReadsBack }
{}
