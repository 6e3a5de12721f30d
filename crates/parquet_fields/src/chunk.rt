// Reads a ColumnChunk, its ColumnMetaData and its ColumnCryptoMetaData.
ghost use Rattle.std.specs.Prelude.{◌≡◌, refl, Ok};
ghost use Rattle.pme_base.specs.Causes.{CausedBy};
ghost use Rattle.parquet_fields.specs.Causes.{is_struct_cause};
ghost use Rattle.parquet_fields.specs.Calls.{column_meta_at};
ghost use Rattle.pme_base.specs.Steps.{Answers, Quiet};
ghost use Rattle.parquet_types.specs.declared.raw_footer.ColumnCrypto.TheVariants as crypto;
ghost use Rattle.parquet_fields.specs.Causes.{column_meta_causes, column_key_causes, footer_key_causes, column_crypto_causes, column_chunk_causes};
ghost use Rattle.parquet_fields.specs.Structs.{column_meta_none, column_meta_after, column_key_none, column_key_after, footer_key_none, footer_key_after, column_crypto_none, column_crypto_after, column_chunk_none, column_chunk_after, column_meta_of, column_key_of, column_crypto_of, column_chunk_of, one_key};

use crate::field_state::FieldState;
use crate::items::{Item, names_field};
use crate::struct_fields::{StructFields, read_front, struct_field, struct_item};
use crate::values::{binary_field, int32_field, int64_field};
use parquet_types::{ColumnChunk, ColumnCrypto, ColumnMeta, FieldRefusal, PathList};
use pme_base::{Bytes, Cause, Place, Refusal, StructName};
use std::alloc::Global;
use thrift_compact::{FieldHead, Reader, TKind, ThriftRefusal};

/// The field states of ColumnMetaData.
#[derive(Drop)]
pub(crate) struct ColumnMetaFields {
    kind: FieldState<i32>,
    path: FieldState<PathList>,
    codec: FieldState<i32>,
    num_values: FieldState<i64>,
    data_page_offset: FieldState<i64>,
    dictionary_page_offset: FieldState<i64>,
}

impl StructFields for ColumnMetaFields {
    type Made = ColumnMeta;

    ghost none = { column_meta_none };

    ghost after = { column_meta_after };

    ghost judged = { column_meta_of };

    ghost at_end = { λ known. refl };

    ghost at_field = { λ known id t fs. refl };

    ghost causes = { column_meta_causes };

    fn none() -> ColumnMetaFields {
        ColumnMetaFields {
            kind: FieldState::Absent,
            path: FieldState::Absent,
            codec: FieldState::Absent,
            num_values: FieldState::Absent,
            data_page_offset: FieldState::Absent,
            dictionary_page_offset: FieldState::Absent,
        }
    }

    fn read_field(
        &mut self,
        alloc: Global,
        reader: &mut Reader<'_>,
        head: FieldHead,
    ) -> Result<(), ThriftRefusal> {
        match head.id {
            1 => self.kind = int32_field(reader, head.kind)?,
            3 => self.path = names_field(alloc, reader, head.kind)?,
            4 => self.codec = int32_field(reader, head.kind)?,
            5 => self.num_values = int64_field(reader, head.kind)?,
            9 => self.data_page_offset = int64_field(reader, head.kind)?,
            11 => self.dictionary_page_offset = int64_field(reader, head.kind)?,
            _ => reader.skip(head.kind)?,
        }
        Ok(())
    }

    fn judge(self) -> Result<ColumnMeta, FieldRefusal> {
        let kind = self.kind.needed(StructName::ColumnMetaData, 1)?;
        let path = self.path.needed(StructName::ColumnMetaData, 3)?;
        let codec = self.codec.needed(StructName::ColumnMetaData, 4)?;
        let num_values = self.num_values.needed(StructName::ColumnMetaData, 5)?;
        let data_page_offset = self.data_page_offset.needed(StructName::ColumnMetaData, 9)?;
        let dictionary_page_offset = self
            .dictionary_page_offset
            .optional(StructName::ColumnMetaData, 11)?;
        Ok(ColumnMeta {
            kind,
            path,
            codec,
            num_values,
            data_page_offset,
            dictionary_page_offset,
        })
    }
}

/// The field states of EncryptionWithColumnKey.
#[derive(Drop)]
pub(crate) struct ColumnKeyFields {
    path: FieldState<PathList>,
    key_metadata: FieldState<Bytes>,
}

impl StructFields for ColumnKeyFields {
    type Made = ColumnCrypto;

    ghost none = { column_key_none };

    ghost after = { column_key_after };

    ghost judged = { column_key_of };

    ghost at_end = { λ known. refl };

    ghost at_field = { λ known id t fs. refl };

    ghost causes = { column_key_causes };

    fn none() -> ColumnKeyFields {
        ColumnKeyFields {
            path: FieldState::Absent,
            key_metadata: FieldState::Absent,
        }
    }

    fn read_field(
        &mut self,
        alloc: Global,
        reader: &mut Reader<'_>,
        head: FieldHead,
    ) -> Result<(), ThriftRefusal> {
        match head.id {
            1 => self.path = names_field(alloc, reader, head.kind)?,
            2 => self.key_metadata = binary_field(alloc, reader, head.kind)?,
            _ => reader.skip(head.kind)?,
        }
        Ok(())
    }

    fn judge(self) -> Result<ColumnCrypto, FieldRefusal> {
        let path = self.path.needed(StructName::EncryptionWithColumnKey, 1)?;
        let key_metadata = self
            .key_metadata
            .optional(StructName::EncryptionWithColumnKey, 2)?;
        Ok(ColumnCrypto::ColumnKey { path, key_metadata })
    }
}

/// EncryptionWithFooterKey has no fields.
#[derive(Drop)]
pub(crate) struct FooterKeyFields {}

impl StructFields for FooterKeyFields {
    type Made = ColumnCrypto;

    ghost none = { footer_key_none };

    ghost after = { footer_key_after };

    ghost judged = { λ known. Ok crypto.FooterKey };

    ghost at_end = { λ known. refl };

    ghost at_field = { λ known id t fs. refl };

    ghost causes = { footer_key_causes };

    fn none() -> FooterKeyFields {
        FooterKeyFields {}
    }

    fn read_field(
        &mut self,
        alloc: Global,
        reader: &mut Reader<'_>,
        head: FieldHead,
    ) -> Result<(), ThriftRefusal> {
        match head.id {
            _ => reader.skip(head.kind)?,
        }
        Ok(())
    }

    fn judge(self) -> Result<ColumnCrypto, FieldRefusal> {
        Ok(ColumnCrypto::FooterKey)
    }
}

/// The field states of the union ColumnCryptoMetaData.
#[derive(Drop)]
pub(crate) struct ColumnCryptoFields {
    footer: FieldState<ColumnCrypto>,
    column: FieldState<ColumnCrypto>,
}

impl StructFields for ColumnCryptoFields {
    type Made = ColumnCrypto;

    ghost none = { column_crypto_none };

    ghost after = { column_crypto_after };

    ghost judged = { column_crypto_of };

    ghost at_end = { λ known. refl };

    ghost at_field = { λ known id t fs. refl };

    ghost causes = { column_crypto_causes };

    fn none() -> ColumnCryptoFields {
        ColumnCryptoFields {
            footer: FieldState::Absent,
            column: FieldState::Absent,
        }
    }

    fn read_field(
        &mut self,
        alloc: Global,
        reader: &mut Reader<'_>,
        head: FieldHead,
    ) -> Result<(), ThriftRefusal> {
        match head.id {
            1 => self.footer = struct_field::<FooterKeyFields>(alloc, reader, head.kind)?,
            2 => self.column = struct_field::<ColumnKeyFields>(alloc, reader, head.kind)?,
            _ => reader.skip(head.kind)?,
        }
        Ok(())
    }

    fn judge(self) -> Result<ColumnCrypto, FieldRefusal> {
        let footer = self.footer.optional(StructName::ColumnCryptoMetaData, 1)?;
        let column = self.column.optional(StructName::ColumnCryptoMetaData, 2)?;
        one_of_both(footer, column)
    }
}

fn one_of_both(
    footer: Option<ColumnCrypto>,
    column: Option<ColumnCrypto>,
) -> Result<ColumnCrypto, FieldRefusal>
    ensures { result ≡ one_key footer column }
{
    match (footer, column) {
        (None, None) => Err(FieldRefusal {
            cause: Cause::Unsupported,
            name: StructName::ColumnCryptoMetaData,
            field: 1,
        }),
        (Some(key), None) => Ok(key),
        (None, Some(key)) => Ok(key),
        (Some(_), Some(_)) => Err(FieldRefusal {
            cause: Cause::BadField,
            name: StructName::ColumnCryptoMetaData,
            field: 2,
        }),
    }
}

/// The field states of ColumnChunk.
#[derive(Drop)]
pub(crate) struct ColumnChunkFields {
    file_path: FieldState<Bytes>,
    plain_meta: FieldState<ColumnMeta>,
    crypto: FieldState<ColumnCrypto>,
    sealed_meta: FieldState<Bytes>,
}

impl StructFields for ColumnChunkFields {
    type Made = ColumnChunk;

    ghost none = { column_chunk_none };

    ghost after = { column_chunk_after };

    ghost judged = { column_chunk_of };

    ghost at_end = { λ known. refl };

    ghost at_field = { λ known id t fs. refl };

    ghost causes = { column_chunk_causes };

    fn none() -> ColumnChunkFields {
        ColumnChunkFields {
            file_path: FieldState::Absent,
            plain_meta: FieldState::Absent,
            crypto: FieldState::Absent,
            sealed_meta: FieldState::Absent,
        }
    }

    fn read_field(
        &mut self,
        alloc: Global,
        reader: &mut Reader<'_>,
        head: FieldHead,
    ) -> Result<(), ThriftRefusal> {
        match head.id {
            1 => self.file_path = binary_field(alloc, reader, head.kind)?,
            3 => self.plain_meta = struct_field::<ColumnMetaFields>(alloc, reader, head.kind)?,
            8 => self.crypto = struct_field::<ColumnCryptoFields>(alloc, reader, head.kind)?,
            9 => self.sealed_meta = binary_field(alloc, reader, head.kind)?,
            _ => reader.skip(head.kind)?,
        }
        Ok(())
    }

    fn judge(self) -> Result<ColumnChunk, FieldRefusal> {
        let file_path = self.file_path.optional(StructName::ColumnChunk, 1)?;
        let plain_meta = self.plain_meta.optional(StructName::ColumnChunk, 3)?;
        let crypto = self.crypto.optional(StructName::ColumnChunk, 8)?;
        let sealed_meta = self.sealed_meta.optional(StructName::ColumnChunk, 9)?;
        Ok(ColumnChunk {
            file_path,
            plain_meta,
            crypto,
            sealed_meta,
        })
    }
}

impl Item for ColumnChunk {
    ghost use Rattle.parquet_fields.specs.Fields.{struct_of};
    ghost use Rattle.parquet_fields.specs.Structs.{column_chunk};

    ghost item = { struct_of column_chunk };

    fn read_item(
        alloc: Global,
        reader: &mut Reader<'_>,
        kind: TKind,
    ) -> Result<FieldState<ColumnChunk>, ThriftRefusal> {
        struct_item::<ColumnChunkFields>(alloc, reader, kind)
    }
}

/// Reads the ColumnMetaData at the start of `bytes`; bytes after the struct are ignored. Refusals are BadThrift,
/// MissingField, BadField, Unsupported or OutOfMemory, all but the last at `place`.
pub fn read_column_meta(alloc: Global, place: &Place, bytes: &[u8]) -> Result<ColumnMeta, Refusal>
    ensures answer { Answers result (column_meta_at place.now bytes.now) }
    ensures quiet { Quiet result }
    ensures causes { CausedBy is_struct_cause result }
{
    let (meta, _) = read_front::<ColumnMetaFields>(alloc, *place, bytes)?;
    Ok(meta)
}
