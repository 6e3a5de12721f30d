// The footer of a file and how it is protected.
use crate::mode::FooterMode;
use key_rights::FooterKey;
use module_aad::FileAad;
use parquet_types::{AlgorithmMeta, FileMeta};
use pme_base::Bytes;

/// The end of a file: its footer, and how the footer is protected. The tag of an encrypted or signed footer was checked.
#[derive(Drop)]
pub struct Tail {
    pub mode: FooterMode,
    /// How the file is protected; None exactly where it is unencrypted.
    pub protection: Option<Protection>,
    pub footer: FileMeta,
    /// The footer's bytes: the plaintext of the footer's module, or the bytes of the struct in plain.
    pub footer_bytes: Bytes,
    /// The offset of the footer area, where the data end.
    pub data_end: u64,
    /// The offset of the length field of the footer's module, or of the nonce of a signed footer; `data_end` in an
    /// unencrypted file.
    pub at: u64,
}

/// How an encrypted or signed footer is protected.
#[derive(Drop)]
pub struct Protection {
    /// The algorithm of the file's modules.
    pub algorithm: AlgorithmMeta,
    /// The prefix of the associated data of all modules of the file.
    pub file_aad: FileAad,
    pub footer_key: FooterKey,
    /// The bytes of FileCryptoMetaData; empty for a signed footer.
    pub crypto_bytes: Bytes,
}

/// How a file is read.
#[derive(Clone, Copy, Debug, PartialEq, Eq, Drop)]
pub struct ReadOptions {
    /// Whether AES_GCM_CTR_V1, which leaves page bodies unauthenticated, is refused.
    pub gcm_only: bool,
    /// Whether an unencrypted file is read too.
    pub allow_plain: bool,
    /// Size limit of the plaintext of a page body in bytes, at most 268,435,456. The footer has its own limit.
    pub module_limit: u32,
}
