// Structs in bytes, and the results of reading them.
use parquet_fields::read_raw_file_meta;
use parquet_meta::{
    read_column_meta, read_file_crypto, read_file_meta, read_page_head, read_signing,
};
use pme_base::{Bytes, Detail, Place, Refusal};
use std::alloc::Global;
use std::process::Abort;
use std::test::Fail;

// Each line has a reader, the bytes in hex, and the expected result: the cause with the struct and the field id; `ok`
// and the size in bytes (0 if the reader gives none); or the error of the compact protocol and its offset. All were
// worked out by hand from the compact protocol: the header of a field is 16 times the difference to the id before
// plus the type (1 true, 2 false, 4 i16, 5 i32, 6 i64, 8 binary, 9 list, b map, c struct), and 00 ends a struct. The
// footer of 354 bytes was written by hand in the form of Arrow's writer, with statistics, logical types, key-value
// metadata, sorting columns, sizes, column orders and more. It was never compared with a file that Arrow wrote.
const CASES: &str = "\
crypto 1c1c2808000102030405060700 00 18026b66 00: ok 19
crypto 1c1c2808000102030405060700 00 18026b66 00 ff: ok 19
crypto 1c2c2808000102030405060700 00 00: ok 15
crypto 00: MissingField FileCryptoMetaData 1
crypto 18 00 00: BadField FileCryptoMetaData 1
crypto 1c 00 00: Unsupported EncryptionAlgorithm 1
crypto 1c 1c 280107 00 1c 280107 00 00 00: BadField EncryptionAlgorithm 2
crypto 1c 1c 00 00 00: MissingField AesGcm 2
crypto 1c 1c 15 02 00 00 00: BadField AesGcm 1
crypto 1c 1c 25 02 00 00 00: BadField AesGcm 2
crypto 1c 1c 280107 15 02 00 00 00: BadField AesGcm 3
crypto 1c 18 00 00 00: BadField EncryptionAlgorithm 1
crypto 1c 1c 280107 00 18 00 00 00: BadField EncryptionAlgorithm 2
crypto 1c 1c 280107 00 00 15 02 00: BadField FileCryptoMetaData 2
crypto 1c 1c 00 1c 00 00 15 02: End 8
crypto 1c 1c 00 00 18 02 6b: End 7
crypto 1c 1c 00 00 1d: WrongType 4
page 1500152015202c150815001506150600 00: ok 17
page 00: MissingField PageHeader 1
page 16 00 00: BadField PageHeader 1
page 15 00 00: MissingField PageHeader 2
page 15 00 18 00 00: BadField PageHeader 2
page 15 00 15 20 00: MissingField PageHeader 3
page 15 00 15 20 16 20 00: BadField PageHeader 3
page 15 00 15 20 15 20 00: MissingField PageHeader 5
page 15 00 15 20 15 20 28 00 00: BadField PageHeader 5
page 15 00 15 20 15 20 2c 00 00: MissingField DataPageHeader 1
page 15 00 15 20 15 20 2c 16 08 00 00: BadField DataPageHeader 1
page 15 00 15 20 15 20 2c 15 08 00 00: MissingField DataPageHeader 2
page 15 00 15 20 15 20 2c 15 08 11 00 00: BadField DataPageHeader 2
page 15 00 15 20 15 20 2c 15 08 15 00 00 00: MissingField DataPageHeader 3
page 15 00 15 20 15 20 2c 15 08 15 00 14 06 00 00: BadField DataPageHeader 3
page 15 04 15 20 15 20 00: MissingField PageHeader 7
page 15 04 15 20 15 20 49 0c 00: BadField PageHeader 7
page 15 04 15 20 15 20 4c 00 00: MissingField DictionaryPageHeader 1
page 15 04 15 20 15 20 4c 1c 00 00 00: BadField DictionaryPageHeader 1
page 15 04 15 20 15 20 4c 15 08 00 00: MissingField DictionaryPageHeader 2
page 15 04 15 20 15 20 4c 15 08 18 00 00 00: BadField DictionaryPageHeader 2
page 15 04 15 20 15 20 4c 15 08 15 00 00 00: ok 13
page 15 02 15 20 15 20 00: Unsupported PageHeader 1
page 15 06 15 20 15 20 00: Unsupported PageHeader 1
page 15 08 15 20 15 20 00: BadField PageHeader 1
page 15 01 15 20 15 20 00: BadField PageHeader 1
page 15 02 15 20 15 20 2c 00 00: MissingField DataPageHeader 1
column 15 02 29 18 01 61 15 00 16 08 46 08 26 04 00: ok 0
column 15 02 29 0c 15 00 16 08 46 08 00: ok 0
column 00: MissingField ColumnMetaData 1
column 16 02 00: BadField ColumnMetaData 1
column 15 02 00: MissingField ColumnMetaData 3
column 15 02 28 00 00: BadField ColumnMetaData 3
column 15 02 29 15 02 15 00 16 08 46 08 00: BadField ColumnMetaData 3
column 15 02 29 21 01 02 15 00 16 08 46 08 00: BadField ColumnMetaData 3
column 15 02 29 21 01 03 15 00 16 08 46 08 00: WrongType 5
column 15 02 29 18 01 61 00: MissingField ColumnMetaData 4
column 15 02 29 18 01 61 16 00 00: BadField ColumnMetaData 4
column 15 02 29 18 01 61 15 00 00: MissingField ColumnMetaData 5
column 15 02 29 18 01 61 15 00 15 08 00: BadField ColumnMetaData 5
column 15 02 29 18 01 61 15 00 16 08 00: MissingField ColumnMetaData 9
column 15 02 29 18 01 61 15 00 16 08 45 08 00: BadField ColumnMetaData 9
column 15 02 29 18 01 61 15 00 16 08 46 08 25 04 00: BadField ColumnMetaData 11
footer 00: MissingField FileMetaData 2
footer 28 00 00: BadField FileMetaData 2
footer 29 2c 48 00 00 00 00: MissingField SchemaElement 4
footer 29 15 02 16 00 00: BadField FileMetaData 2
footer 29 1c 45 02 00 00: BadField SchemaElement 4
footer 29 1c 16 02 38 00 00 00: BadField SchemaElement 1
footer 29 1c 26 02 28 00 00 00: BadField SchemaElement 2
footer 29 1c 36 02 18 00 00 00: BadField SchemaElement 3
footer 29 1c 48 00 16 02 00 00: BadField SchemaElement 5
footer 29 1c 48 00 26 02 00 00: BadField SchemaElement 6
footer 29 0c 00: MissingField FileMetaData 3
footer 29 0c 15 00 00: BadField FileMetaData 3
footer 29 0c 16 00 00: MissingField FileMetaData 4
footer 29 0c 16 00 16 00 00: BadField FileMetaData 4
footer 29 0c 16 00 19 1c 00 00: MissingField RowGroup 1
footer 29 0c 16 00 19 1c 15 00 00 00: BadField RowGroup 1
footer 29 0c 16 00 19 1c 19 0c 00 00: MissingField RowGroup 3
footer 29 0c 16 00 19 1c 19 0c 25 00 00 00: BadField RowGroup 3
footer 29 0c 16 00 19 1c 19 0c 26 00 45 00 00 00: BadField RowGroup 7
footer 29 0c 16 00 19 1c 19 1c 15 02 00 26 00 00 00: BadField ColumnChunk 1
footer 29 0c 16 00 19 1c 19 1c 35 02 00 26 00 00 00: BadField ColumnChunk 3
footer 29 0c 16 00 19 1c 19 1c 3c 00 00 26 00 00 00: MissingField ColumnMetaData 1
footer 29 0c 16 00 19 1c 19 1c 85 02 00 26 00 00 00: BadField ColumnChunk 8
footer 29 0c 16 00 19 1c 19 1c 95 02 00 26 00 00 00: BadField ColumnChunk 9
footer 29 0c 16 00 19 1c 19 1c 8c 00 00 26 00 00 00: Unsupported ColumnCryptoMetaData 1
footer 29 0c 16 00 19 1c 19 1c 8c 15 02 00 00 26 00 00 00: BadField ColumnCryptoMetaData 1
footer 29 0c 16 00 19 1c 19 1c 8c 1c 00 1c 19 08 00 00 00 26 00 00 00: BadField ColumnCryptoMetaData 2
footer 29 0c 16 00 19 1c 19 1c 8c 2c 00 00 00 26 00 00 00: MissingField EncryptionWithColumnKey 1
footer 29 0c 16 00 19 1c 19 1c 8c 2c 15 02 00 00 00 26 00 00 00: BadField EncryptionWithColumnKey 1
footer 29 0c 16 00 19 1c 19 1c 8c 2c 19 08 15 02 00 00 00 26 00 00 00: BadField EncryptionWithColumnKey 2
footer 29 0c 16 00 19 0c 4c 00 00: Unsupported EncryptionAlgorithm 1
footer 29 0c 16 00 19 0c 55 02 00: BadField FileMetaData 9
footer 29 0c 16 00 19 0c 00: ok 7
footer 11 19 0c 16 00 19 0c a2 13 07 14 02 15 02 16 02 17 0000000000000000 18 01 61 19 12 02 1a 21 01 02 1b 00 1b 01 81 01 61 01 1c 11 00 00: ok 47
meta 29 2c 48 01 73 15 02 00 15 04 25 00 18 01 61 00 16 00 19 0c 00: ok 21
meta 1504193c35001806736368656d611504001504250018026174251435021c8c111c2c0000000000150c2502180463697479250035041c1c0000001608191c192c26001c1504193500061019180261741500160816ee0116ee0126800126081c1808c0064c18240a0600180800401e18240a060016002808c0064c18240a0600180800401e18240a0600111100192c150415001502001500151015020016d804155e1c29061906000016c806151616f805153e0026001c150c19250006191804636974791500160816b00116b00126f6013c3602160418044f736c6f18044265726e111200191c150015001502003c161829260206000016de06151616b606151200169e031608191c15001211001608169e03140000192c180c4152524f573a736368656d6118082f2f2f2f2f773d3d0018046e6f7465001820706172717565742d6370702d6172726f772076657273696f6e2031352e302e30192c1c00001c000000: ok 354
sign 1504193c35001806736368656d611504001504250018026174251435021c8c111c2c0000000000150c2502180463697479250035041c1c0000001608191c192c26001c1504193500061019180261741500160816ee0116ee0126800126081c1808c0064c18240a0600180800401e18240a060016002808c0064c18240a0600180800401e18240a0600111100192c150415001502001500151015020016d804155e1c29061906000016c806151616f805153e0026001c150c19250006191804636974791500160816b00116b00126f6013c3602160418044f736c6f18044265726e111200191c150015001502003c161829260206000016de06151616b606151200169e031608191c15001211001608169e03140000192c180c4152524f573a736368656d6118082f2f2f2f2f773d3d0018046e6f7465001820706172717565742d6370702d6172726f772076657273696f6e2031352e302e30192c1c00001c000000: ok 354
sign 00: ok 1
sign 95 02 00: ok 3
sign 29 1c 00 16 00 00: ok 6
sign 8c 1c 280107 00 00 00: ok 8
sign 8c 1c 280107 00 00 18 01 61 00: ok 11
sign 8c 1c 280107 00 00 15 02 00: BadField FileMetaData 9
sign 8c 00 00: Unsupported EncryptionAlgorithm 1
sign 85 02 00: BadField FileMetaData 8
";

fn digit(c: char) -> Option<u8> {
    match c.to_digit(16) {
        Some(d) => u8::try_from(d).ok(),
        None => None,
    }
}

fn bytes_of(alloc: Global, hex: &str) -> Result<Bytes, Fail> {
    let mut bytes = Bytes::new(alloc);
    let mut high = None;
    for c in hex.chars() {
        match (digit(c), high) {
            (None, _) => {}
            (Some(d), None) => high = Some(d),
            (Some(d), Some(h)) => {
                bytes.push(h.saturating_mul(16).saturating_add(d))?;
                high = None;
            }
        }
    }
    Ok(bytes)
}

fn size_of<T: Drop>(read: Result<(T, usize), Refusal>) -> Result<usize, Refusal> {
    match read {
        Ok((_, size)) => Ok(size),
        Err(refusal) => Err(refusal),
    }
}

fn column_size(alloc: Global, bytes: &[u8]) -> Result<usize, Refusal> {
    read_column_meta(alloc, &Place::footer(), bytes)?;
    Ok(0)
}

fn signing_size(alloc: Global, bytes: &[u8]) -> Result<usize, Refusal> {
    let (_, _, size) = read_signing(alloc, bytes)?;
    Ok(size)
}

fn read_by(alloc: Global, reader: &str, bytes: &[u8]) -> Result<usize, Refusal> {
    let place = Place::footer();
    match reader {
        "crypto" => size_of(read_file_crypto(alloc, bytes)),
        "page" => size_of(read_page_head(alloc, &place, bytes)),
        "column" => column_size(alloc, bytes),
        "footer" => size_of(read_raw_file_meta(alloc, &place, bytes)),
        "sign" => signing_size(alloc, bytes),
        _ => size_of(read_file_meta(alloc, &place, bytes)),
    }
}

fn result_text(alloc: Global, read: Result<usize, Refusal>) -> Result<String, Fail> {
    let text = match read {
        Ok(size) => format!(in alloc; "ok {size}")?,
        Err(refusal) => match refusal.detail {
            Detail::Field(name, field) => format!(in alloc;
                "{:?} {name:?} {field}",
                refusal.cause
            )?,
            Detail::Thrift(why) => format!(in alloc; "{why:?} {}", refusal.at)?,
            _ => format!(in alloc; "{:?}", refusal.cause)?,
        },
    };
    Ok(text)
}

fn answers<R: Abort + AllocGlobal>(rt: &R, case: &str) -> Result<(), Fail> {
    let (input, answer) = case.split_once(": ").ok_or("case")?;
    let (reader, hex) = input.split_once(' ').ok_or("reader")?;
    let bytes = bytes_of(rt.alloc(), hex)?;
    let text = result_text(rt.alloc(), read_by(rt.alloc(), reader, bytes.as_slice()))?;
    assert_eq!(rt; text.as_str(), answer, "{case}");
    Ok(())
}

#[test]
fn structs_are_read_or_their_first_refusal_is_reported(rt: HostRuntime) -> Result<(), Fail> {
    for case in CASES.lines() {
        answers(&rt, case)?;
    }
    Ok(())
}
