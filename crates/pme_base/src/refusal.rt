// Refusals: a cause, a place, an offset and further values.
ghost use Rattle.std.specs.Prelude.{◌≡◌};
ghost use Rattle.pme_base.specs.Refusals as defined;

use crate::bytes::Bytes;
use crate::place::Place;

/// Why a call refused its input. The program prints a number and a line for each.
#[derive(Clone, Copy, Debug, PartialEq, Eq, Drop)]
pub enum Cause {
    Truncated,
    BadLength,
    BadTag,
    BadThrift,
    MissingField,
    BadField,
    BadMagic,
    BadFooterLength,
    NotEncrypted,
    PrefixNeeded,
    PrefixUnused,
    PrefixDiffers,
    FooterKeyMissing,
    AlgorithmRefused,
    Unsupported,
    Mismatch,
    BadPage,
    Hidden,
    NoSuchColumn,
    BadMaterial,
    NoMaterial,
    WrapTag,
    KeyLength,
    NotExternal,
    Denied,
    ServiceFault,
    BadPolicy,
    FileExists,
    NonceRepeated,
    BadTable,
    BadRing,
    BadKeys,
    TooLarge,
    NoFile,
    ReadFault,
    WriteFault,
    RandomFault,
    Usage,
    OutOfMemory,
}

/// A struct of the file's metadata, by its name in `parquet.thrift`.
#[derive(Clone, Copy, Debug, PartialEq, Eq, Drop)]
pub enum StructName {
    FileCryptoMetaData,
    EncryptionAlgorithm,
    AesGcm,
    FileMetaData,
    SchemaElement,
    RowGroup,
    ColumnChunk,
    ColumnCryptoMetaData,
    EncryptionWithColumnKey,
    ColumnMetaData,
    PageHeader,
    DataPageHeader,
    DictionaryPageHeader,
    OffsetIndex,
    PageLocation,
    ColumnIndex,
}

/// Why bytes are not a struct of Thrift's compact protocol.
#[derive(Clone, Copy, Debug, PartialEq, Eq, Drop)]
pub enum ThriftFault {
    End,
    WrongType,
    Varint,
    Range,
    Repeated,
    Depth,
}

/// A part of a page's body.
#[derive(Clone, Copy, Debug, PartialEq, Eq, Drop)]
pub enum PagePart {
    Levels,
    Values,
    Dictionary,
}

/// What is wrong with an item of a key ring file.
#[derive(Clone, Copy, Debug, PartialEq, Eq, Drop)]
pub enum ItemWord {
    Json,
    Ring,
    Keys,
    Id,
    Version,
    Key,
    Repeated,
    Given,
    GivenId,
    GivenVersion,
    GivenRepeated,
}

/// The values that a refusal carries. Each cause has one variant.
#[derive(Debug, PartialEq, Drop)]
pub enum Detail {
    Nothing,
    Pair(u64, u64),
    Signed(i64, i64),
    Tags([u8; 16], [u8; 16]),
    Field(StructName, i16),
    Thrift(ThriftFault),
    Part(PagePart, u64),
    Nonce([u8; 12]),
    Name(Bytes),
    Names(Bytes, Bytes),
    Hexes(Bytes, Bytes),
    Item(u64, ItemWord),
    Entry(u64, u64),
}

/// A refusal: its cause, the place in the file, an offset in bytes, and further values.
#[derive(Debug, PartialEq, Drop)]
pub struct Refusal {
    pub cause: Cause,
    pub place: Place,
    pub at: u64,
    pub detail: Detail,
}

/// Builds a refusal from its parts.
pub fn refusal_at(cause: Cause, place: Place, at: u64, detail: Detail) -> Refusal
    ensures { result ≡ defined.refusal_at cause place at «detail» }
{
    Refusal {
        cause,
        place,
        at,
        detail,
    }
}

/// A refusal without a place, an offset or values.
pub fn plain_refusal(cause: Cause) -> Refusal
    ensures { result ≡ defined.plain_refusal cause }
{
    refusal_at(cause, Place::file(), 0, Detail::Nothing)
}
