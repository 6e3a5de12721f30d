// The words for kinds of places, structs, Thrift faults, page parts and faults of key ring files.
ghost use Rattle.std.specs.Prelude.{◌≡◌};
ghost use Rattle.refusal_lines.specs.DetailText as defined;
ghost use Rattle.refusal_lines.specs.RefusalText as refusal_text;

use pme_base::{ItemWord, PagePart, PlaceKind, StructName, ThriftFault};

/// The word for a kind of place.
pub fn kind_word(kind: PlaceKind) -> &'static str
    ensures { result.now ≡ refusal_text.kind_word kind }
{
    match kind {
        PlaceKind::File => "file",
        PlaceKind::Loose => "module",
        PlaceKind::Footer => "footer",
        PlaceKind::ColumnMetaData => "metadata",
        PlaceKind::DataPage => "page",
        PlaceKind::DictionaryPage => "dictionary",
        PlaceKind::DataPageHeader => "header",
        PlaceKind::DictionaryPageHeader => "dictionary-header",
        PlaceKind::ColumnIndex => "column-index",
        PlaceKind::OffsetIndex => "offset-index",
    }
}

/// The name of a Thrift struct.
pub fn struct_word(name: StructName) -> &'static str
    ensures { result.now ≡ defined.struct_word name }
{
    match name {
        StructName::FileCryptoMetaData => "FileCryptoMetaData",
        StructName::EncryptionAlgorithm => "EncryptionAlgorithm",
        StructName::AesGcm => "AesGcm",
        StructName::FileMetaData => "FileMetaData",
        StructName::SchemaElement => "SchemaElement",
        StructName::RowGroup => "RowGroup",
        StructName::ColumnChunk => "ColumnChunk",
        StructName::ColumnCryptoMetaData => "ColumnCryptoMetaData",
        StructName::EncryptionWithColumnKey => "EncryptionWithColumnKey",
        StructName::ColumnMetaData => "ColumnMetaData",
        StructName::PageHeader => "PageHeader",
        StructName::DataPageHeader => "DataPageHeader",
        StructName::DictionaryPageHeader => "DictionaryPageHeader",
        StructName::OffsetIndex => "OffsetIndex",
        StructName::PageLocation => "PageLocation",
        StructName::ColumnIndex => "ColumnIndex",
    }
}

/// The word for a fault in Thrift data.
pub fn fault_word(fault: ThriftFault) -> &'static str
    ensures { result.now ≡ defined.fault_word fault }
{
    match fault {
        ThriftFault::End => "end",
        ThriftFault::WrongType => "type",
        ThriftFault::Varint => "varint",
        ThriftFault::Range => "range",
        ThriftFault::Repeated => "repeated",
        ThriftFault::Depth => "depth",
    }
}

/// The word for a part of a page.
pub fn part_word(part: PagePart) -> &'static str
    ensures { result.now ≡ defined.part_word part }
{
    match part {
        PagePart::Levels => "levels",
        PagePart::Values => "values",
        PagePart::Dictionary => "dictionary",
    }
}

/// The word for a fault in an item of a key ring file.
pub fn item_word(word: ItemWord) -> &'static str
    ensures { result.now ≡ defined.item_word word }
{
    match word {
        ItemWord::Json => "json",
        ItemWord::Ring => "ring",
        ItemWord::Keys => "keys",
        ItemWord::Id => "id",
        ItemWord::Version => "version",
        ItemWord::Key => "key",
        ItemWord::Repeated => "repeated",
        ItemWord::Given => "given",
        ItemWord::GivenId => "given-id",
        ItemWord::GivenVersion => "given-version",
        ItemWord::GivenRepeated => "given-repeated",
    }
}
