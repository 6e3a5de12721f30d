// Tests of json_text.
use json_text::{
    ListBuilder, ObjectBuilder, Value, base64_is_exact, base64_text, bytes_of_base64, bytes_of_hex,
    first_other_than_text, hex_is_exact, hex_text, list_at, read_json, text_at, text_value,
    text_value_of_bytes, truth_at, truth_value, whole_number_at, whole_number_value, write_json,
};
use pme_base::{Bytes, OutOfMemory};
use std::alloc::Global;
use std::test::Fail;

// Each case: a text, and its value written again, compact and with sorted names; `no` if the text is invalid (RFC 8259; for
// repeated names in an object, the rule of `serde_json`).
const TEXTS: &str = r#"
{"b":1, "a":[true, null]} -> {"a":[true,null],"b":1}
 { "a" : 1, "a" : {} } -> {"a":{}}
{"a":1,"B":2,"":3,"aa":4} -> {"":3,"B":2,"a":1,"aa":4}
"\u00e9\/\t" -> "é/\t"
[18446744073709551615,-9223372036854775808] -> [18446744073709551615,-9223372036854775808]
{"a":1,} -> no
{a:1} -> no
[01] -> no
[1 2] -> no
[] [] -> no
"\ud800" -> no
nul -> no
"#;

// Each case: a number, and the integer that it is read as.
const NUMBERS: &str = "
0 -> 0
18446744073709551615 -> 18446744073709551615
18446744073709551616 -> no
1.0 -> no
1e0 -> no
-0 -> no
-1 -> no
\"1\" -> no
";

// Each case: bytes, their base64 text (RFC 4648, section 10), and their hex text.
const CODES: &str = "
 ->  ->
f -> Zg== -> 66
fo -> Zm8= -> 666f
foo -> Zm9v -> 666f6f
foob -> Zm9vYg== -> 666f6f62
fooba -> Zm9vYmE= -> 666f6f6261
foobar -> Zm9vYmFy -> 666f6f626172
";

fn rewritten(alloc: Global, text: &[u8]) -> Result<Option<Bytes>, OutOfMemory> {
    match read_json(alloc, text)? {
        Some(value) => Ok(Some(write_json(alloc, &value)?)),
        None => Ok(None),
    }
}

fn shown(text: &Option<Bytes>) -> &[u8] {
    match text {
        Some(text) => text.as_slice(),
        None => b"no",
    }
}

#[test]
fn texts_are_read_and_written(rt: HostRuntime) -> Result<(), Fail> {
    for row in TEXTS.lines() {
        if let Some((text, expected)) = row.split_once(" -> ") {
            let again = rewritten(rt.alloc(), text.as_bytes())?;
            assert_eq!(rt; shown(&again), expected.as_bytes(), "{text}");
        }
    }
    let others: [&[u8]; 4] = [b"", b"\"\xff\"", b"\xef\xbb\xbf[]", b"\"\xed\xa0\x80\""];
    for text in others {
        let again = rewritten(rt.alloc(), text)?;
        assert_eq!(rt; shown(&again), b"no".as_slice());
    }
    Ok(())
}

#[test]
fn nesting_ends_at_127(rt: HostRuntime) -> Result<(), Fail> {
    for (depth, is_text) in [(127, true), (128, false)] {
        let mut text = Bytes::new(rt.alloc());
        for _ in 0..depth {
            text.push(b'[')?;
        }
        for _ in 0..depth {
            text.push(b']')?;
        }
        let again = rewritten(rt.alloc(), text.as_slice())?;
        assert_eq!(rt; again.is_some(), is_text);
    }
    Ok(())
}

fn whole_number(alloc: Global, number: &str) -> Result<Option<u64>, Fail> {
    let text = format!(in alloc; "{{\"n\":{number}}}")?;
    match read_json(alloc, text.as_bytes())? {
        Some(value) => Ok(whole_number_at(&value, "n")),
        None => Ok(None),
    }
}

#[test]
fn whole_numbers_have_no_point(rt: HostRuntime) -> Result<(), Fail> {
    for row in NUMBERS.lines() {
        if let Some((number, expected)) = row.split_once(" -> ") {
            let found = whole_number(rt.alloc(), number)?;
            assert_eq!(rt; found, expected.parse::<u64>().ok(), "{number}");
        }
    }
    Ok(())
}

fn built(alloc: Global) -> Result<Value, OutOfMemory> {
    let mut names = ListBuilder::new(alloc);
    names.push(text_value(alloc, "é")?)?;
    names.push(text_value_of_bytes(alloc, b"b")?)?;
    let mut object = ObjectBuilder::new(alloc);
    object.put(alloc, "number", whole_number_value(7))?;
    object.put(alloc, "names", names.finish())?;
    object.put(alloc, "is", truth_value(true))?;
    object.put(alloc, "id", text_value(alloc, "k")?)?;
    Ok(object.finish())
}

#[test]
fn members_are_found_by_name(rt: HostRuntime) -> Result<(), Fail> {
    let value = built(rt.alloc())?;
    let text = write_json(rt.alloc(), &value)?;
    let expected = "{\"id\":\"k\",\"is\":true,\"names\":[\"é\",\"b\"],\"number\":7}";
    assert_eq!(rt; text.as_slice(), expected.as_bytes());
    assert_eq!(rt; text_at(&value, "id").is_some_and(|id| id == "k"), true);
    assert_eq!(rt; whole_number_at(&value, "number"), Some(7));
    assert_eq!(rt; truth_at(&value, "is"), Some(true));
    assert_eq!(rt; list_at(&value, "names").map(|names| names.len()), Some(2));
    assert_eq!(rt; text_at(&value, "is").is_none(), true);
    let first = value
        .as_object()
        .and_then(|members| first_other_than_text(members));
    assert_eq!(rt; first.is_some_and(|name| name == "is"), true);
    Ok(())
}

#[test]
fn bytes_are_coded_and_decoded(rt: HostRuntime) -> Result<(), Fail> {
    for row in CODES.lines() {
        if let Some((bytes, texts)) = row.split_once(" -> ") {
            let (base64, hex) = texts.split_once(" ->").ok_or("no hex")?;
            let hex = hex.trim_start();
            assert_eq!(rt;
                base64_text(rt.alloc(), bytes.as_bytes())?.as_slice(),
                base64.as_bytes()
            );
            assert_eq!(rt;
                hex_text(rt.alloc(), bytes.as_bytes())?.as_slice(),
                hex.as_bytes()
            );
            let decoded = bytes_of_base64(rt.alloc(), base64.as_bytes())?;
            assert_eq!(rt; shown(&decoded), bytes.as_bytes());
            let decoded = bytes_of_hex(rt.alloc(), hex.as_bytes())?;
            assert_eq!(rt; shown(&decoded), bytes.as_bytes());
        }
    }
    base64_is_exact();
    hex_is_exact();
    Ok(())
}

#[test]
fn other_codes_are_refused(rt: HostRuntime) -> Result<(), Fail> {
    for text in ["Zg", "Zg=", "Zh==", "Zg==\n", "Z g=", "_w==", "Zg==Zg=="] {
        let decoded = bytes_of_base64(rt.alloc(), text.as_bytes())?;
        assert_eq!(rt; decoded.is_none(), true, "{text}");
    }
    for (text, is_hex) in [("aAFf", true), ("0", false), ("0g", false), ("0x00", false)] {
        let decoded = bytes_of_hex(rt.alloc(), text.as_bytes())?;
        assert_eq!(rt; decoded.is_some(), is_hex, "{text}");
    }
    Ok(())
}
