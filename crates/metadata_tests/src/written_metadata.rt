// Written structs compared with bytes that were worked out by hand, and the footer of a signed file from another
// writer.
ghost use Rattle.std.specs.Prelude.{◌≡◌, ◌<◌, ◌≤◌, ◌+◌, pos, [], length, IfOk};
ghost use Rattle.std.specs.List.{All};
ghost use Rattle.thrift_compact.specs.Proper.{IsSmall};
ghost use Rattle.parquet_writing.specs.Fitting.{FitsOptional, FitsKind, FitsAlgorithm, FitsColumn, FitsChunk, FitsGroup, FitsFooter};

use parquet_meta::{
    AlgorithmMeta, ChunkCrypto, ColumnKind, ColumnSpec, DataHead, FlatSchema, FooterPlan,
    WrittenChunk, WrittenChunks, WrittenGroup, WrittenGroups, write_column_meta, write_file_crypto,
    write_file_meta, write_page_head,
};
use pme_base::{Bytes, OutOfMemory};
use std::alloc::Global;
use std::test::Fail;

fn spec(
    alloc: Global,
    name: &[u8],
    kind: ColumnKind,
    optional: bool,
    text: bool,
) -> Result<ColumnSpec, OutOfMemory>
    requires { IsSmall (length name.now) × FitsKind kind }
    ensures { IfOk result (λ column. FitsColumn column) }
{
    let name = Bytes::copy_of(alloc, name)?;
    Ok(ColumnSpec {
        name,
        kind,
        optional,
        text,
    })
}

fn id_spec(alloc: Global) -> Result<ColumnSpec, OutOfMemory>
    ensures { IfOk result (λ column. FitsColumn column) }
{
    spec(alloc, b"id", ColumnKind::Int64, false, false)
}

fn name_spec(alloc: Global) -> Result<ColumnSpec, OutOfMemory>
    ensures { IfOk result (λ column. FitsColumn column) }
{
    spec(alloc, b"name", ColumnKind::ByteArray, true, true)
}

fn secret_spec(alloc: Global) -> Result<ColumnSpec, OutOfMemory>
    ensures { IfOk result (λ column. FitsColumn column) }
{
    spec(alloc, b"secret", ColumnKind::ByteArray, false, false)
}

fn algorithm(
    alloc: Global,
    prefix: Option<Bytes>,
    unique: &[u8],
) -> Result<AlgorithmMeta, OutOfMemory>
    requires { FitsOptional prefix × IsSmall (length unique.now) }
    ensures { IfOk result (λ algorithm. FitsAlgorithm algorithm) }
{
    let unique = Bytes::copy_of(alloc, unique)?;
    Ok(AlgorithmMeta {
        ctr: false,
        prefix,
        unique,
        supply: false,
    })
}

fn id_chunk(alloc: Global) -> Result<WrittenChunk, OutOfMemory>
    ensures { IfOk result
        (λ chunk. FitsChunk chunk × (chunk.uncompressed ≡ pos 49) × (chunk.stored ≡ pos 49)) }
{
    let spec = id_spec(alloc)?;
    Ok(WrittenChunk {
        spec,
        num_values: 4,
        uncompressed: 49,
        stored: 49,
        start: 4,
        crypto: ChunkCrypto::Plain,
        sealed_meta: None,
        show_meta: true,
    })
}

fn name_chunk(alloc: Global) -> Result<WrittenChunk, OutOfMemory>
    ensures { IfOk result
        (λ chunk. FitsChunk chunk × (chunk.uncompressed ≡ pos 41) × (chunk.stored ≡ pos 105)) }
{
    let spec = name_spec(alloc)?;
    let sealed =
        b"5\x00\x00\x00\xc0\x1eR\xdd\xb7\x87[K\xd4s^:\xf8\xad\xd7\x14#\x00\x01H\x18\xcakZ\x8e\xec\x95+\x96D\x82\xaa\xa9\xde\xab\x0a_\xd382\x9b;\x82\xe9\xb0o\x12Wm\xcc\xafR\xdd";
    let sealed = Bytes::copy_of(alloc, sealed)?;
    Ok(WrittenChunk {
        spec,
        num_values: 4,
        uncompressed: 41,
        stored: 105,
        start: 53,
        crypto: ChunkCrypto::FooterKey,
        sealed_meta: Some(sealed),
        show_meta: true,
    })
}

fn secret_chunk(alloc: Global) -> Result<WrittenChunk, OutOfMemory>
    ensures { IfOk result
        (λ chunk. FitsChunk chunk × (chunk.uncompressed ≡ pos 37) × (chunk.stored ≡ pos 101)) }
{
    let spec = secret_spec(alloc)?;
    let sealed =
        b"8\x00\x00\x00&^\x16\xee\xe0?Yq\x8b\x9b]\x03\x05\x83)\x0e\xacV9&\xfd\x01\xdd`\xf8\x97th(\xed\x8e\xe5W\x22\xd5s\xdc7\xe7\xa0}\x12\xfb\xe9\xac\xdf\xbc\xd3Q\xa4\x7fl\xf71\x1aG";
    let sealed = Bytes::copy_of(alloc, sealed)?;
    let key = Bytes::copy_of(alloc, b"kc")?;
    Ok(WrittenChunk {
        spec,
        num_values: 4,
        uncompressed: 37,
        stored: 101,
        start: 158,
        crypto: ChunkCrypto::ColumnKey(Some(key)),
        sealed_meta: Some(sealed),
        show_meta: true,
    })
}

#[tactic(auto, using(crate::proofs::Plans::pushed))]
fn schema(alloc: Global) -> Result<FlatSchema, OutOfMemory>
    ensures { IfOk result (λ columns. (length columns ≡ 3) × All FitsColumn columns) }
{
    let mut schema = FlatSchema::new(alloc);
    schema.push(id_spec(alloc)?)?;
    schema.push(name_spec(alloc)?)?;
    schema.push(secret_spec(alloc)?)?;
    Ok(schema)
}

#[tactic(auto, using(crate::proofs::Plans::pushed))]
fn groups(alloc: Global) -> Result<WrittenGroups, OutOfMemory>
    ensures { IfOk result (λ groups. (length groups ≡ 1) × All FitsGroup groups) }
{
    let mut chunks = WrittenChunks::new(alloc);
    chunks.push(id_chunk(alloc)?)?;
    chunks.push(name_chunk(alloc)?)?;
    chunks.push(secret_chunk(alloc)?)?;
    let mut groups = WrittenGroups::new(alloc);
    groups.push(WrittenGroup {
        chunks,
        num_rows: 4,
    })?;
    Ok(groups)
}

/// The plan of a file of four rows with a signed footer.
fn signed_plan(alloc: Global) -> Result<FooterPlan, OutOfMemory>
    ensures { IfOk result (λ plan. FitsFooter plan) }
{
    let schema = schema(alloc)?;
    let groups = groups(alloc)?;
    let prefix = Bytes::copy_of(alloc, b"table")?;
    let algorithm = algorithm(alloc, Some(prefix), b"\x5f\xec\xeb\x66\xff\xc8\x6f\x38")?;
    let key = Bytes::copy_of(alloc, b"kf")?;
    Ok(FooterPlan {
        schema,
        num_rows: 4,
        groups,
        algorithm: Some(algorithm),
        signing_key_metadata: Some(key),
    })
}

/// The plan of a file without rows, whose one column has values of 5 bytes.
#[tactic(auto, using(crate::proofs::Plans::pushed))]
fn empty_plan(alloc: Global) -> Result<FooterPlan, OutOfMemory>
    ensures { IfOk result (λ plan. FitsFooter plan) }
{
    let mut schema = FlatSchema::new(alloc);
    schema.push(spec(alloc, b"f", ColumnKind::Fixed(5), false, false)?)?;
    Ok(FooterPlan {
        schema,
        num_rows: 0,
        groups: WrittenGroups::new(alloc),
        algorithm: None,
        signing_key_metadata: None,
    })
}

#[test]
fn writes_page_headers(rt: HostRuntime) -> Result<(), Fail> {
    let head = DataHead {
        uncompressed: 16,
        compressed: 16,
        num_values: 4,
        encoding: 0,
        level_encoding: 3,
    };
    let written = write_page_head(rt.alloc(), &head)?;
    let spelling = b"\x15\0\x15\x20\x15\x20\x2c\x15\x08\x15\0\x15\x06\x15\x06\0\0".as_slice();
    assert_eq!(rt; written.as_slice(), spelling);
    Ok(())
}

#[test]
fn writes_file_crypto_metadata(rt: HostRuntime) -> Result<(), Fail> {
    let algorithm = algorithm(rt.alloc(), None, b"\0\x01\x02\x03\x04\x05\x06\x07")?;
    let written = write_file_crypto(rt.alloc(), &algorithm, b"kf")?;
    let spelling = b"\x1c\x1c\x28\x08\0\x01\x02\x03\x04\x05\x06\x07\0\0\x18\x02kf\0".as_slice();
    assert_eq!(rt; written.as_slice(), spelling);
    Ok(())
}

#[test]
fn writes_the_metadata_of_a_column(rt: HostRuntime) -> Result<(), Fail> {
    let chunk = id_chunk(rt.alloc())?;
    let written = write_column_meta(rt.alloc(), &chunk)?;
    let spelling =
        b"\x15\x04\x19\x25\0\x06\x19\x18\x02id\x15\0\x16\x08\x16\x62\x16\x62\x26\x08\0".as_slice();
    assert_eq!(rt; written.as_slice(), spelling);
    Ok(())
}

#[test]
fn writes_a_signed_footer(rt: HostRuntime) -> Result<(), Fail> {
    let plan = signed_plan(rt.alloc())?;
    let written = write_file_meta(rt.alloc(), &plan)?;
    let spelling =
        b"\x15\x02\x19LH\x06schema\x15\x06\x00\x15\x04%\x00\x18\x02id\x00\x15\x0c%\x02\x18\x04name%\x00\x00\x15\x0c%\x00\x18\x06secret\x00\x16\x08\x19\x1c\x19<&\x08\x1c\x15\x04\x19%\x00\x06\x19\x18\x02id\x15\x00\x16\x08\x16b\x16b&\x08\x00\x00&j\x1c\x15\x0c\x19%\x00\x06\x19\x18\x04name\x15\x00\x16\x08\x16R\x16\xd2\x01&j\x00\x5c\x1c\x00\x00\x1895\x00\x00\x00\xc0\x1eR\xdd\xb7\x87[K\xd4s^:\xf8\xad\xd7\x14#\x00\x01H\x18\xcakZ\x8e\xec\x95+\x96D\x82\xaa\xa9\xde\xab\x0a_\xd382\x9b;\x82\xe9\xb0o\x12Wm\xcc\xafR\xdd\x00&\xbc\x02\x1c\x15\x0c\x19%\x00\x06\x19\x18\x06secret\x15\x00\x16\x08\x16J\x16\xca\x01&\xbc\x02\x00\x5c,\x19\x18\x06secret\x18\x02kc\x00\x00\x18<8\x00\x00\x00&^\x16\xee\xe0?Yq\x8b\x9b]\x03\x05\x83)\x0e\xacV9&\xfd\x01\xdd`\xf8\x97th(\xed\x8e\xe5W\x22\xd5s\xdc7\xe7\xa0}\x12\xfb\xe9\xac\xdf\xbc\xd3Q\xa4\x7fl\xf71\x1aG\x00\x16\xfe\x01\x16\x08&\x08\x16\xfe\x03\x14\x00\x00(\x03pme,\x1c\x18\x05table\x18\x08_\xec\xebf\xff\xc8o8\x00\x00\x18\x02kf\x00";
    assert_eq!(rt; written.as_slice(), spelling.as_slice());
    Ok(())
}

#[test]
fn writes_a_footer_without_row_groups(rt: HostRuntime) -> Result<(), Fail> {
    let plan = empty_plan(rt.alloc())?;
    let written = write_file_meta(rt.alloc(), &plan)?;
    let spelling =
        b"\x15\x02\x19\x2c\x48\x06schema\x15\x02\0\x15\x0e\x15\x0a\x15\0\x18\x01f\0\x16\0\x19\x0c\x28\x03pme\0".as_slice();
    assert_eq!(rt; written.as_slice(), spelling);
    Ok(())
}
