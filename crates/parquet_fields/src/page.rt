// Reads page headers.
ghost use Rattle.std.specs.Prelude.{◌≡◌, refl};
ghost use Rattle.pme_base.specs.Causes.{CausedBy};
ghost use Rattle.parquet_fields.specs.Causes.{is_struct_cause};
ghost use Rattle.parquet_fields.specs.Calls.{page_head_at};
ghost use Rattle.pme_base.specs.Steps.{Answers, Quiet};
ghost use Rattle.parquet_fields.specs.Causes.{data_counts_causes, dictionary_counts_causes, page_head_causes};
ghost use Rattle.parquet_fields.specs.Structs.{data_counts_none, data_counts_after, dictionary_counts_none, dictionary_counts_after, page_head_none, page_head_after, data_counts_of, dictionary_counts_of, page_head_of, data_page as data_page_of, dictionary_page as dictionary_page_of, page_of_type as head_of_type};

use crate::field_state::FieldState;
use crate::page_parts::{DataCounts, DictionaryCounts};
use crate::struct_fields::{StructFields, read_front, struct_field};
use crate::values::int32_field;
use parquet_types::{DataHead, DictionaryHead, FieldRefusal, PageHead};
use pme_base::{Cause, Place, Refusal, StructName};
use std::alloc::Global;
use thrift_compact::{FieldHead, Reader, ThriftRefusal};

/// The field states of DataPageHeader.
#[derive(Drop)]
pub(crate) struct DataCountsFields {
    num_values: FieldState<i32>,
    encoding: FieldState<i32>,
    level_encoding: FieldState<i32>,
}

impl StructFields for DataCountsFields {
    type Made = DataCounts;

    ghost none = { data_counts_none };

    ghost after = { data_counts_after };

    ghost judged = { data_counts_of };

    ghost at_end = { λ known. refl };

    ghost at_field = { λ known id t fs. refl };

    ghost causes = { data_counts_causes };

    fn none() -> DataCountsFields {
        DataCountsFields {
            num_values: FieldState::Absent,
            encoding: FieldState::Absent,
            level_encoding: FieldState::Absent,
        }
    }

    fn read_field(
        &mut self,
        alloc: Global,
        reader: &mut Reader<'_>,
        head: FieldHead,
    ) -> Result<(), ThriftRefusal> {
        match head.id {
            1 => self.num_values = int32_field(reader, head.kind)?,
            2 => self.encoding = int32_field(reader, head.kind)?,
            3 => self.level_encoding = int32_field(reader, head.kind)?,
            _ => reader.skip(head.kind)?,
        }
        Ok(())
    }

    fn judge(self) -> Result<DataCounts, FieldRefusal> {
        let num_values = self.num_values.needed(StructName::DataPageHeader, 1)?;
        let encoding = self.encoding.needed(StructName::DataPageHeader, 2)?;
        let level_encoding = self.level_encoding.needed(StructName::DataPageHeader, 3)?;
        Ok(DataCounts {
            num_values,
            encoding,
            level_encoding,
        })
    }
}

/// The field states of DictionaryPageHeader.
#[derive(Drop)]
pub(crate) struct DictionaryCountsFields {
    num_values: FieldState<i32>,
    encoding: FieldState<i32>,
}

impl StructFields for DictionaryCountsFields {
    type Made = DictionaryCounts;

    ghost none = { dictionary_counts_none };

    ghost after = { dictionary_counts_after };

    ghost judged = { dictionary_counts_of };

    ghost at_end = { λ known. refl };

    ghost at_field = { λ known id t fs. refl };

    ghost causes = { dictionary_counts_causes };

    fn none() -> DictionaryCountsFields {
        DictionaryCountsFields {
            num_values: FieldState::Absent,
            encoding: FieldState::Absent,
        }
    }

    fn read_field(
        &mut self,
        alloc: Global,
        reader: &mut Reader<'_>,
        head: FieldHead,
    ) -> Result<(), ThriftRefusal> {
        match head.id {
            1 => self.num_values = int32_field(reader, head.kind)?,
            2 => self.encoding = int32_field(reader, head.kind)?,
            _ => reader.skip(head.kind)?,
        }
        Ok(())
    }

    fn judge(self) -> Result<DictionaryCounts, FieldRefusal> {
        let num_values = self.num_values.needed(StructName::DictionaryPageHeader, 1)?;
        let encoding = self.encoding.needed(StructName::DictionaryPageHeader, 2)?;
        Ok(DictionaryCounts {
            num_values,
            encoding,
        })
    }
}

/// The field states of PageHeader.
#[derive(Drop)]
pub(crate) struct PageHeadFields {
    page_type: FieldState<i32>,
    uncompressed: FieldState<i32>,
    compressed: FieldState<i32>,
    counts: FieldState<DataCounts>,
    dictionary: FieldState<DictionaryCounts>,
}

impl StructFields for PageHeadFields {
    type Made = PageHead;

    ghost none = { page_head_none };

    ghost after = { page_head_after };

    ghost judged = { page_head_of };

    ghost at_end = { λ known. refl };

    ghost at_field = { λ known id t fs. refl };

    ghost causes = { page_head_causes };

    fn none() -> PageHeadFields {
        PageHeadFields {
            page_type: FieldState::Absent,
            uncompressed: FieldState::Absent,
            compressed: FieldState::Absent,
            counts: FieldState::Absent,
            dictionary: FieldState::Absent,
        }
    }

    fn read_field(
        &mut self,
        alloc: Global,
        reader: &mut Reader<'_>,
        head: FieldHead,
    ) -> Result<(), ThriftRefusal> {
        match head.id {
            1 => self.page_type = int32_field(reader, head.kind)?,
            2 => self.uncompressed = int32_field(reader, head.kind)?,
            3 => self.compressed = int32_field(reader, head.kind)?,
            5 => self.counts = struct_field::<DataCountsFields>(alloc, reader, head.kind)?,
            7 => self.dictionary = struct_field::<DictionaryCountsFields>(
                alloc, reader, head.kind,
            )?,
            _ => reader.skip(head.kind)?,
        }
        Ok(())
    }

    fn judge(self) -> Result<PageHead, FieldRefusal> {
        let page_type = self.page_type.needed(StructName::PageHeader, 1)?;
        let uncompressed = self.uncompressed.needed(StructName::PageHeader, 2)?;
        let compressed = self.compressed.needed(StructName::PageHeader, 3)?;
        let counts = self.counts.optional(StructName::PageHeader, 5)?;
        let dictionary = self.dictionary.optional(StructName::PageHeader, 7)?;
        page_of_type(page_type, uncompressed, compressed, counts, dictionary)
    }
}

fn refused(cause: Cause, field: i16) -> FieldRefusal
    ensures { result ≡ record { cause = cause; name = StructName.PageHeader; field = field } }
{
    FieldRefusal {
        cause,
        name: StructName::PageHeader,
        field,
    }
}

// PageType 0 is a data page and 2 a dictionary page. Index pages (1) and data pages of version 2 (3) are unsupported.
fn page_of_type(
    page_type: i32,
    uncompressed: i32,
    compressed: i32,
    counts: Option<DataCounts>,
    dictionary: Option<DictionaryCounts>,
) -> Result<PageHead, FieldRefusal>
    ensures { result ≡ head_of_type page_type uncompressed compressed counts dictionary }
{
    match page_type {
        0 => data_page(uncompressed, compressed, counts),
        2 => dictionary_page(uncompressed, compressed, dictionary),
        1 => Err(refused(Cause::Unsupported, 1)),
        3 => Err(refused(Cause::Unsupported, 1)),
        _ => Err(refused(Cause::BadField, 1)),
    }
}

fn data_page(
    uncompressed: i32,
    compressed: i32,
    counts: Option<DataCounts>,
) -> Result<PageHead, FieldRefusal>
    ensures { result ≡ data_page_of uncompressed compressed counts }
{
    let Some(counts) = counts else {
        return Err(refused(Cause::MissingField, 5));
    };
    Ok(PageHead::Data(DataHead {
        uncompressed,
        compressed,
        num_values: counts.num_values,
        encoding: counts.encoding,
        level_encoding: counts.level_encoding,
    }))
}

fn dictionary_page(
    uncompressed: i32,
    compressed: i32,
    dictionary: Option<DictionaryCounts>,
) -> Result<PageHead, FieldRefusal>
    ensures { result ≡ dictionary_page_of uncompressed compressed dictionary }
{
    let Some(counts) = dictionary else {
        return Err(refused(Cause::MissingField, 7));
    };
    Ok(PageHead::Dictionary(DictionaryHead {
        uncompressed,
        compressed,
        num_values: counts.num_values,
        encoding: counts.encoding,
    }))
}

/// Reads the PageHeader at the start of `bytes` and gives its size in bytes. Refusals are as for `read_column_meta`.
pub fn read_page_head(
    alloc: Global,
    place: &Place,
    bytes: &[u8],
) -> Result<(PageHead, usize), Refusal>
    ensures answer { Answers result (page_head_at place.now bytes.now) }
    ensures quiet { Quiet result }
    ensures causes { CausedBy is_struct_cause result }
{
    read_front::<PageHeadFields>(alloc, *place, bytes)
}
