// Limits that several crates share, in bytes where they say nothing else. Clauses and definitions cite them by name.

/// Longest plaintext of a module.
pub const MODULE_LIMIT: u32 = 268_435_456;

/// Longest footer, without what encrypts or signs it.
pub const FOOTER_LIMIT: u32 = 16_777_216;

/// Longest footer area: a footer of `FOOTER_LIMIT`, and 65,536 bytes for FileCryptoMetaData and the footer's module or
/// signature.
pub const FOOTER_AREA_LIMIT: u32 = 16_842_752;

/// Longest file that is read whole: a keys file, or the file of `pme thrift`.
pub const SMALL_FILE_LIMIT: u32 = 16_777_216;

/// Longest AAD prefix.
pub const PREFIX_LIMIT: usize = 1_024;

/// Longest `aad_file_unique`.
pub const UNIQUE_LIMIT: usize = 64;

/// Most columns of a file, and most row groups.
pub const COLUMN_LIMIT: u32 = 32_768;

/// Largest ordinal of a row group, a column or a page.
pub const ORDINAL_LIMIT: u32 = 32_767;
