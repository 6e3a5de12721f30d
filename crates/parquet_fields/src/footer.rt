// Reads FileMetaData with its SchemaElements and RowGroups.
ghost use Rattle.std.specs.Prelude.{◌≡◌, refl};
ghost use Rattle.pme_base.specs.Causes.{CausedBy};
ghost use Rattle.parquet_fields.specs.Causes.{is_struct_cause};
ghost use Rattle.parquet_fields.specs.Calls.{struct_at};
ghost use Rattle.pme_base.specs.Steps.{Answers, Quiet};
ghost use Rattle.parquet_fields.specs.Causes.{schema_element_causes, row_group_causes, raw_file_meta_causes};
ghost use Rattle.parquet_fields.specs.Fields.{struct_of};
ghost use Rattle.parquet_fields.specs.Structs.{schema_element_none, schema_element_after, row_group_none, row_group_after, raw_file_meta_none, raw_file_meta_after, raw_file_meta, schema_element, schema_element_of, row_group, row_group_of, raw_file_meta_of};

use crate::algorithm::AlgorithmFields;
use crate::field_state::FieldState;
use crate::items::{Item, list_field};
use crate::struct_fields::{StructFields, read_front, struct_field, struct_item};
use crate::values::{binary_field, int16_field, int32_field, int64_field};
use parquet_types::{
    AlgorithmMeta, ColumnChunk, FieldRefusal, RawFileMeta, RowGroup, SchemaElement,
};
use pme_base::{Bytes, Place, Refusal, Sequence, StructName};
use std::alloc::Global;
use thrift_compact::{FieldHead, Reader, TKind, ThriftRefusal};

/// The field states of SchemaElement.
#[derive(Drop)]
pub(crate) struct SchemaElementFields {
    kind: FieldState<i32>,
    type_length: FieldState<i32>,
    repetition: FieldState<i32>,
    name: FieldState<Bytes>,
    num_children: FieldState<i32>,
    converted: FieldState<i32>,
}

impl StructFields for SchemaElementFields {
    type Made = SchemaElement;

    ghost none = { schema_element_none };

    ghost after = { schema_element_after };

    ghost judged = { schema_element_of };

    ghost at_end = { λ known. refl };

    ghost at_field = { λ known id t fs. refl };

    ghost causes = { schema_element_causes };

    fn none() -> SchemaElementFields {
        SchemaElementFields {
            kind: FieldState::Absent,
            type_length: FieldState::Absent,
            repetition: FieldState::Absent,
            name: FieldState::Absent,
            num_children: FieldState::Absent,
            converted: FieldState::Absent,
        }
    }

    fn read_field(
        &mut self,
        alloc: Global,
        reader: &mut Reader<'_>,
        head: FieldHead,
    ) -> Result<(), ThriftRefusal> {
        match head.id {
            1 => self.kind = int32_field(reader, head.kind)?,
            2 => self.type_length = int32_field(reader, head.kind)?,
            3 => self.repetition = int32_field(reader, head.kind)?,
            4 => self.name = binary_field(alloc, reader, head.kind)?,
            5 => self.num_children = int32_field(reader, head.kind)?,
            6 => self.converted = int32_field(reader, head.kind)?,
            _ => reader.skip(head.kind)?,
        }
        Ok(())
    }

    fn judge(self) -> Result<SchemaElement, FieldRefusal> {
        let kind = self.kind.optional(StructName::SchemaElement, 1)?;
        let type_length = self.type_length.optional(StructName::SchemaElement, 2)?;
        let repetition = self.repetition.optional(StructName::SchemaElement, 3)?;
        let name = self.name.needed(StructName::SchemaElement, 4)?;
        let num_children = self.num_children.optional(StructName::SchemaElement, 5)?;
        let converted = self.converted.optional(StructName::SchemaElement, 6)?;
        Ok(SchemaElement {
            kind,
            type_length,
            repetition,
            name,
            num_children,
            converted,
        })
    }
}

impl Item for SchemaElement {
    ghost item = { struct_of schema_element };

    fn read_item(
        alloc: Global,
        reader: &mut Reader<'_>,
        kind: TKind,
    ) -> Result<FieldState<SchemaElement>, ThriftRefusal> {
        struct_item::<SchemaElementFields>(alloc, reader, kind)
    }
}

/// The field states of RowGroup.
#[derive(Drop)]
pub(crate) struct RowGroupFields {
    chunks: FieldState<Sequence<ColumnChunk>>,
    num_rows: FieldState<i64>,
    ordinal: FieldState<i16>,
}

impl StructFields for RowGroupFields {
    type Made = RowGroup;

    ghost none = { row_group_none };

    ghost after = { row_group_after };

    ghost judged = { row_group_of };

    ghost at_end = { λ known. refl };

    ghost at_field = { λ known id t fs. refl };

    ghost causes = { row_group_causes };

    fn none() -> RowGroupFields {
        RowGroupFields {
            chunks: FieldState::Absent,
            num_rows: FieldState::Absent,
            ordinal: FieldState::Absent,
        }
    }

    fn read_field(
        &mut self,
        alloc: Global,
        reader: &mut Reader<'_>,
        head: FieldHead,
    ) -> Result<(), ThriftRefusal> {
        match head.id {
            1 => self.chunks = list_field(alloc, reader, head.kind)?,
            3 => self.num_rows = int64_field(reader, head.kind)?,
            7 => self.ordinal = int16_field(reader, head.kind)?,
            _ => reader.skip(head.kind)?,
        }
        Ok(())
    }

    fn judge(self) -> Result<RowGroup, FieldRefusal> {
        let chunks = self.chunks.needed(StructName::RowGroup, 1)?;
        let num_rows = self.num_rows.needed(StructName::RowGroup, 3)?;
        let ordinal = self.ordinal.optional(StructName::RowGroup, 7)?;
        Ok(RowGroup {
            chunks,
            num_rows,
            ordinal,
        })
    }
}

impl Item for RowGroup {
    ghost item = { struct_of row_group };

    fn read_item(
        alloc: Global,
        reader: &mut Reader<'_>,
        kind: TKind,
    ) -> Result<FieldState<RowGroup>, ThriftRefusal> {
        struct_item::<RowGroupFields>(alloc, reader, kind)
    }
}

/// The field states of FileMetaData.
#[derive(Drop)]
pub(crate) struct FileMetaFields {
    schema: FieldState<Sequence<SchemaElement>>,
    num_rows: FieldState<i64>,
    groups: FieldState<Sequence<RowGroup>>,
    algorithm: FieldState<AlgorithmMeta>,
    signing_key_metadata: FieldState<Bytes>,
}

impl StructFields for FileMetaFields {
    type Made = RawFileMeta;

    ghost none = { raw_file_meta_none };

    ghost after = { raw_file_meta_after };

    ghost judged = { raw_file_meta_of };

    ghost at_end = { λ known. refl };

    ghost at_field = { λ known id t fs. refl };

    ghost causes = { raw_file_meta_causes };

    fn none() -> FileMetaFields {
        FileMetaFields {
            schema: FieldState::Absent,
            num_rows: FieldState::Absent,
            groups: FieldState::Absent,
            algorithm: FieldState::Absent,
            signing_key_metadata: FieldState::Absent,
        }
    }

    fn read_field(
        &mut self,
        alloc: Global,
        reader: &mut Reader<'_>,
        head: FieldHead,
    ) -> Result<(), ThriftRefusal> {
        match head.id {
            2 => self.schema = list_field(alloc, reader, head.kind)?,
            3 => self.num_rows = int64_field(reader, head.kind)?,
            4 => self.groups = list_field(alloc, reader, head.kind)?,
            8 => self.algorithm = struct_field::<AlgorithmFields>(alloc, reader, head.kind)?,
            9 => self.signing_key_metadata = binary_field(alloc, reader, head.kind)?,
            _ => reader.skip(head.kind)?,
        }
        Ok(())
    }

    fn judge(self) -> Result<RawFileMeta, FieldRefusal> {
        let schema = self.schema.needed(StructName::FileMetaData, 2)?;
        let num_rows = self.num_rows.needed(StructName::FileMetaData, 3)?;
        let groups = self.groups.needed(StructName::FileMetaData, 4)?;
        let algorithm = self.algorithm.optional(StructName::FileMetaData, 8)?;
        let signing_key_metadata = self
            .signing_key_metadata
            .optional(StructName::FileMetaData, 9)?;
        Ok(RawFileMeta {
            schema,
            num_rows,
            groups,
            algorithm,
            signing_key_metadata,
        })
    }
}

/// Reads the FileMetaData at the start of `bytes` and gives its size in bytes. The rules on the values of its fields
/// are not applied. Refusals are as for `read_column_meta`.
pub fn read_raw_file_meta(
    alloc: Global,
    place: &Place,
    bytes: &[u8],
) -> Result<(RawFileMeta, usize), Refusal>
    ensures answer { Answers result (struct_at place.now raw_file_meta bytes.now) }
    ensures quiet { Quiet result }
    ensures causes { CausedBy is_struct_cause result }
{
    read_front::<FileMetaFields>(alloc, *place, bytes)
}
