// Tests of refusal_lines.
use byte_texts::{push_decimal, push_hex, push_signed, push_text, push_truth};
use pme_base::{
    Bytes, Cause, Detail, ItemWord, PagePart, Place, PlaceKind, Refusal, StructName, ThriftFault,
    refusal_at,
};
use refusal_lines::{push_place, refusal_line};
use std::process::Abort;
use std::test::Fail;

fn prints<R: Abort + AllocGlobal>(
    rt: &R,
    refusal: Refusal,
    subject: &str,
    line: &str,
) -> Result<(), Fail> {
    let printed = refusal_line(rt.alloc(), &refusal, subject.as_bytes())?;
    assert_eq!(rt; printed.as_slice(), line.as_bytes(), "{line}");
    Ok(())
}

fn about_file(cause: Cause, detail: Detail) -> Refusal {
    refusal_at(cause, Place::file(), 0, detail)
}

#[test]
fn prints_file_place_and_offset(rt: HostRuntime) -> Result<(), Fail> {
    let tags = Detail::Tags(
        0x58e2fccefa7e3061367f1d57a4e7455au128.to_be_bytes(),
        0x58e2fccefa7e3061367f1d57a4e7455bu128.to_be_bytes(),
    );
    let bad_tag = refusal_at(Cause::BadTag, Place::loose(), 0, tags);
    let line =
        "refused 3 BadTag in m.bin module at 0 58e2fccefa7e3061367f1d57a4e7455a 58e2fccefa7e3061367f1d57a4e7455b\n";
    prints(&rt, bad_tag, "m.bin", line)?;

    let truncated = refusal_at(Cause::Truncated, Place::loose(), 0, Detail::Pair(4, 0));
    prints(
        &rt,
        truncated,
        "m.bin",
        "refused 1 Truncated in m.bin module at 0 4 0\n",
    )?;

    let field = Detail::Field(StructName::SchemaElement, 4);
    let missing = refusal_at(Cause::MissingField, Place::footer(), 0, field);
    let line = "refused 5 MissingField in t.parquet footer at 0 SchemaElement.4\n";
    prints(&rt, missing, "t.parquet", line)?;

    let thrift = Detail::Thrift(ThriftFault::Repeated);
    let bad_thrift = refusal_at(Cause::BadThrift, Place::file(), 2, thrift);
    prints(
        &rt,
        bad_thrift,
        "t.bin",
        "refused 4 BadThrift in t.bin file at 2 repeated\n",
    )
}

#[test]
fn prints_ordinals_of_places(rt: HostRuntime) -> Result<(), Fail> {
    let metadata = Place::at_column(PlaceKind::ColumnMetaData, 0, 2)?;
    let mismatch = refusal_at(Cause::Mismatch, metadata, 0, Detail::Signed(-1, 4));
    let line = "refused 16 Mismatch in t.parquet metadata 0 2 at 0 -1 4\n";
    prints(&rt, mismatch, "t.parquet", line)?;

    let page = Place::at_page(PlaceKind::DataPage, 0, 1, 2)?;
    let bad_page = refusal_at(Cause::BadPage, page, 0, Detail::Part(PagePart::Values, 4));
    let line = "refused 17 BadPage in t.parquet page 0 1 2 at 0 values 4\n";
    prints(&rt, bad_page, "t.parquet", line)
}

#[test]
fn prints_file_alone_or_nothing(rt: HostRuntime) -> Result<(), Fail> {
    let usage = about_file(Cause::Usage, Detail::Nothing);
    prints(&rt, usage, "", "refused 64 Usage\n")?;
    let no_file = about_file(Cause::NoFile, Detail::Nothing);
    prints(&rt, no_file, "m.bin", "refused 60 NoFile in m.bin\n")?;
    let no_file = about_file(Cause::NoFile, Detail::Nothing);
    prints(&rt, no_file, "", "refused 60 NoFile in \n")?;
    let bad_table = about_file(Cause::BadTable, Detail::Entry(1, 3));
    prints(
        &rt,
        bad_table,
        "t.csv",
        "refused 40 BadTable in t.csv 1 3\n",
    )?;
    let bad_ring = about_file(Cause::BadRing, Detail::Item(1, ItemWord::Key));
    prints(
        &rt,
        bad_ring,
        "r.json",
        "refused 42 BadRing in r.json 1 key\n",
    )?;
    let repeated = about_file(Cause::NonceRepeated, Detail::Nonce([0; 12]));
    let line = "refused 33 NonceRepeated in t.parquet 000000000000000000000000\n";
    prints(&rt, repeated, "t.parquet", line)
}

#[test]
fn prints_names(rt: HostRuntime) -> Result<(), Fail> {
    let alloc = rt.alloc();
    let hexes = Detail::Hexes(Bytes::copy_of(alloc, b"p")?, Bytes::copy_of(alloc, b"q")?);
    let differs = about_file(Cause::PrefixDiffers, hexes);
    prints(
        &rt,
        differs,
        "t.parquet",
        "refused 12 PrefixDiffers in t.parquet 70 71\n",
    )?;
    let bad_keys = about_file(Cause::BadKeys, Detail::Name(Bytes::new(alloc)));
    prints(&rt, bad_keys, "k.json", "refused 43 BadKeys in k.json \n")?;
    let hidden = about_file(
        Cause::Hidden,
        Detail::Name(Bytes::copy_of(alloc, b"secret")?),
    );
    prints(
        &rt,
        hidden,
        "t.parquet",
        "refused 18 Hidden in t.parquet secret\n",
    )
}

#[test]
fn adds_pieces_of_text(rt: HostRuntime) -> Result<(), Fail> {
    let alloc = rt.alloc();
    let mut line = Bytes::new(alloc);
    push_text(&mut line, "at ")?;
    push_decimal(&mut line, 18_446_744_073_709_551_615)?;
    push_signed(&mut line, -9_223_372_036_854_775_808)?;
    push_hex(&mut line, &[0, 171, 255])?;
    push_truth(&mut line, true)?;
    push_truth(&mut line, false)?;
    push_place(
        &mut line,
        &Place::at_column(PlaceKind::DictionaryPageHeader, 0, 32_767)?,
    )?;
    let expected =
        b"at 18446744073709551615-922337203685477580800abfftruefalsedictionary-header 0 32767".as_slice();
    assert_eq!(rt; line.as_slice(), expected);
    Ok(())
}
