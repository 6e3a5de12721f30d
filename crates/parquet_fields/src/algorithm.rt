// Reads AesGcmV1, AesGcmCtrV1 and the union EncryptionAlgorithm.
ghost use Rattle.std.specs.Prelude.{◌≡◌, refl};
ghost use Rattle.parquet_fields.specs.Causes.{aes_gcm_causes, algorithm_causes};
ghost use Rattle.parquet_fields.specs.Structs.{aes_gcm_none, aes_gcm_after, algorithm_none, algorithm_after, aes_gcm_of, algorithm_of, algorithm_with, one_algorithm};

use crate::field_state::FieldState;
use crate::struct_fields::{StructFields, struct_field};
use crate::values::{binary_field, truth_field};
use parquet_types::{AlgorithmMeta, FieldRefusal};
use pme_base::{Bytes, Cause, StructName};
use std::alloc::Global;
use thrift_compact::{FieldHead, Reader, ThriftRefusal};

/// AesGcmV1 or AesGcmCtrV1, which have the same three fields.
#[derive(Debug, Drop)]
pub struct AesGcm {
    pub prefix: Option<Bytes>,
    pub unique: Bytes,
    pub supply: bool,
}

/// The field states of AesGcmV1 and AesGcmCtrV1.
#[derive(Drop)]
pub(crate) struct AesGcmFields {
    prefix: FieldState<Bytes>,
    unique: FieldState<Bytes>,
    supply: FieldState<bool>,
}

impl StructFields for AesGcmFields {
    type Made = AesGcm;

    ghost none = { aes_gcm_none };

    ghost after = { aes_gcm_after };

    ghost judged = { aes_gcm_of };

    ghost at_end = { λ known. refl };

    ghost at_field = { λ known id t fs. refl };

    ghost causes = { aes_gcm_causes };

    fn none() -> AesGcmFields {
        AesGcmFields {
            prefix: FieldState::Absent,
            unique: FieldState::Absent,
            supply: FieldState::Absent,
        }
    }

    fn read_field(
        &mut self,
        alloc: Global,
        reader: &mut Reader<'_>,
        head: FieldHead,
    ) -> Result<(), ThriftRefusal> {
        match head.id {
            1 => self.prefix = binary_field(alloc, reader, head.kind)?,
            2 => self.unique = binary_field(alloc, reader, head.kind)?,
            3 => self.supply = truth_field(reader, head.kind)?,
            _ => reader.skip(head.kind)?,
        }
        Ok(())
    }

    fn judge(self) -> Result<AesGcm, FieldRefusal> {
        let prefix = self.prefix.optional(StructName::AesGcm, 1)?;
        let unique = self.unique.needed(StructName::AesGcm, 2)?;
        let supply = self.supply.optional(StructName::AesGcm, 3)?;
        Ok(AesGcm {
            prefix,
            unique,
            supply: supply.unwrap_or(false),
        })
    }
}

/// The field states of the union EncryptionAlgorithm.
#[derive(Drop)]
pub(crate) struct AlgorithmFields {
    gcm: FieldState<AesGcm>,
    ctr: FieldState<AesGcm>,
}

impl StructFields for AlgorithmFields {
    type Made = AlgorithmMeta;

    ghost none = { algorithm_none };

    ghost after = { algorithm_after };

    ghost judged = { algorithm_of };

    ghost at_end = { λ known. refl };

    ghost at_field = { λ known id t fs. refl };

    ghost causes = { algorithm_causes };

    fn none() -> AlgorithmFields {
        AlgorithmFields {
            gcm: FieldState::Absent,
            ctr: FieldState::Absent,
        }
    }

    fn read_field(
        &mut self,
        alloc: Global,
        reader: &mut Reader<'_>,
        head: FieldHead,
    ) -> Result<(), ThriftRefusal> {
        match head.id {
            1 => self.gcm = struct_field::<AesGcmFields>(alloc, reader, head.kind)?,
            2 => self.ctr = struct_field::<AesGcmFields>(alloc, reader, head.kind)?,
            _ => reader.skip(head.kind)?,
        }
        Ok(())
    }

    fn judge(self) -> Result<AlgorithmMeta, FieldRefusal> {
        let gcm = self.gcm.optional(StructName::EncryptionAlgorithm, 1)?;
        let ctr = self.ctr.optional(StructName::EncryptionAlgorithm, 2)?;
        one_of_both(gcm, ctr)
    }
}

fn one_of_both(gcm: Option<AesGcm>, ctr: Option<AesGcm>) -> Result<AlgorithmMeta, FieldRefusal>
    ensures { result ≡ one_algorithm gcm ctr }
{
    match (gcm, ctr) {
        (None, None) => Err(FieldRefusal {
            cause: Cause::Unsupported,
            name: StructName::EncryptionAlgorithm,
            field: 1,
        }),
        (Some(part), None) => Ok(whole_algorithm(false, part)),
        (None, Some(part)) => Ok(whole_algorithm(true, part)),
        (Some(_), Some(_)) => Err(FieldRefusal {
            cause: Cause::BadField,
            name: StructName::EncryptionAlgorithm,
            field: 2,
        }),
    }
}

fn whole_algorithm(ctr: bool, part: AesGcm) -> AlgorithmMeta
    ensures { result ≡ algorithm_with ctr part }
{
    AlgorithmMeta {
        ctr,
        prefix: part.prefix,
        unique: part.unique,
        supply: part.supply,
    }
}
