// Parsing the lines of `damaged_tails`: the file that a line names, and what is changed in it.
use crate::sample_files::{COUNTER, ENCRYPTED, SIGNED, bytes_of};
use aes_block::AesKey;
use footer_modes::{write_encrypted_tail, write_signed_tail};
use module_aad::FileAad;
use pme_base::Bytes;
use std::alloc::Global;
use std::test::Fail;

// The key `kf`, `aad_file_unique` and the nonce of the files that the tests make.
const KEY: [u8; 16] = [0, 1, 2, 3, 4, 5, 6, 7, 8, 9, 10, 11, 12, 13, 14, 15];

const UNIQUE: [u8; 8] = [0, 1, 2, 3, 4, 5, 6, 7];

const NONCE: [u8; 12] = [7; 12];

// The FileCryptoMetaData before a sealed footer: AES_GCM_V1, UNIQUE, and the key's metadata `kf`.
const FRONT: &str = "1c1c2808 0001020304050607 0000 18026b66 00";

// The parts of a footer in hex: the INT64 columns a, b and c, and two groups of 3 and 2 rows. A chunk of a is plain, one of
// b has the footer's key, and the first of c has a key of its own, whose metadata is `id`. The part `stop`, 00, ends it.
//
// In Thrift's compact protocol a field's first byte is 16 times the distance of its id from the one before, and the type:
// 1 true, 2 false, 4 i16, 5 i32, 6 i64, 8 binary, 9 list, c struct. Numbers are zigzag (06 is 3, 01 is -1), a list begins
// with 16 times its size and its elements' type, and 00 ends a struct.
const FOOTER: &str = "\
version=1502
schema=194c
root=4806736368656d61150600
a=15042500 180161 00
b=15042500 180162 00
c=15042500 180163 00
rows=160a
groups=192c
chunks=193c
chunk_a=00
chunk_b=8c1c00 00 00
chunk_c=8c2c19180163180269640000 00
group_rows=2606
ordinal=4400
group_end=00
second_group=193c 00 8c1c000000 00 2604 4402 00
creator=2803706d65
";

// The last fields of a signed footer: AES_GCM_V1, UNIQUE, and the key's metadata `kf`.
const SIGNING: &str = "\
algorithm=2c1c2808 0001020304050607 0000
metadata=18026b66
";

// The names of files and settings beside the names of the footer's parts.
const SETTINGS: &str = "\
absent, encrypted, signed, counter, bytes, seal, sign, bare,
prefix, gcm only, allow plain, no keys, key refused,
stop, footer, front, under";

/// The name and the value of a setting.
fn split_setting(word: &str) -> (&str, &str) {
    word.trim().split_once('=').unwrap_or((word.trim(), ""))
}

/// The value of a setting of a line: None if the line lacks the setting, an empty text if the setting has no value.
pub(crate) fn setting<'a>(line: &'a str, name: &str) -> Option<&'a str> {
    for word in line.split(',') {
        let (found, value) = split_setting(word);
        if found == name {
            return Some(value);
        }
    }
    None
}

fn is_part(name: &str) -> bool {
    for parts in [FOOTER, SIGNING] {
        for part in parts.lines() {
            let (found, _) = split_setting(part);
            if found == name {
                return true;
            }
        }
    }
    false
}

/// The first setting of a line that has none of the names.
pub(crate) fn unknown_setting(line: &str) -> Option<&str> {
    for word in line.split(',') {
        let (name, _) = split_setting(word);
        let known = setting(SETTINGS, name).is_some() || is_part(name);
        if !known && !name.starts_with('@') {
            return Some(name);
        }
    }
    None
}

/// Appends these bytes `count` times, a single byte in one step.
fn push_times(alloc: Global, bytes: &mut Bytes, part: &[u8], count: usize) -> Result<(), Fail> {
    if let [byte] = part {
        let mut run = Vec::new(alloc);
        run.resize(count, *byte)?;
        bytes.extend(run.as_slice())?;
    } else {
        for _turn in 0..count {
            bytes.extend(part)?;
        }
    }
    Ok(())
}

/// Appends the bytes that a word spells.
fn push_word(alloc: Global, bytes: &mut Bytes, word: &str) -> Result<(), Fail> {
    let (count, text) = match word.split_once('x') {
        Some((count, text)) => (count.parse()?, text),
        None => (1, word),
    };
    let part = match text {
        "PARE" => Bytes::copy_of(alloc, b"PARE")?,
        "PAR1" => Bytes::copy_of(alloc, b"PAR1")?,
        _ => Bytes::from_vec(hex::decode(alloc, text)?),
    };
    push_times(alloc, bytes, part.as_slice(), count)
}

/// Appends the bytes that the words of a text spell.
fn push_words(alloc: Global, bytes: &mut Bytes, text: &str) -> Result<(), Fail> {
    for word in text.split_whitespace() {
        push_word(alloc, bytes, word)?;
    }
    Ok(())
}

/// The bytes that the words of a text spell.
pub(crate) fn spelled(alloc: Global, text: &str) -> Result<Bytes, Fail> {
    let mut bytes = Bytes::new(alloc);
    push_words(alloc, &mut bytes, text)?;
    Ok(bytes)
}

/// Appends parts of a footer; a part that the line sets replaces the usual one.
fn push_parts(alloc: Global, bytes: &mut Bytes, line: &str, parts: &str) -> Result<(), Fail> {
    for part in parts.lines() {
        let (name, usual) = part.split_once('=').ok_or("part")?;
        push_words(alloc, bytes, setting(line, name).unwrap_or(usual))?;
    }
    Ok(())
}

/// The footer of a line, which ends with the parts `signing`.
fn footer_of(alloc: Global, line: &str, signing: &str) -> Result<Bytes, Fail> {
    let mut footer = Bytes::new(alloc);
    match setting(line, "footer") {
        Some(text) => push_words(alloc, &mut footer, text)?,
        None => {
            push_parts(alloc, &mut footer, line, FOOTER)?;
            push_parts(alloc, &mut footer, line, signing)?;
            push_parts(alloc, &mut footer, line, "stop=00")?;
        }
    }
    Ok(footer)
}

fn file_aad(alloc: Global, line: &str) -> Result<FileAad, Fail> {
    let prefix = spelled(alloc, setting(line, "under").unwrap_or(""))?;
    Ok(FileAad::new(alloc, prefix.as_slice(), &UNIQUE)?)
}

/// A file that consists of an encrypted footer alone.
fn sealed(alloc: Global, line: &str) -> Result<Bytes, Fail> {
    let key = AesKey::new(&KEY)?;
    let aad = file_aad(alloc, line)?;
    let front = spelled(alloc, setting(line, "front").unwrap_or(FRONT))?;
    let footer = footer_of(alloc, line, "")?;
    let mut file = Bytes::copy_of(alloc, b"PARE")?;
    write_encrypted_tail(
        alloc,
        &key,
        &aad,
        &NONCE,
        front.as_slice(),
        footer.as_slice(),
        &mut file,
    )?;
    Ok(file)
}

/// A file that consists of a signed footer alone.
fn signed(alloc: Global, line: &str) -> Result<Bytes, Fail> {
    let key = AesKey::new(&KEY)?;
    let aad = file_aad(alloc, line)?;
    let footer = footer_of(alloc, line, SIGNING)?;
    let mut file = Bytes::copy_of(alloc, b"PAR1")?;
    write_signed_tail(&key, &aad, &NONCE, footer.as_slice(), &mut file)?;
    Ok(file)
}

/// A file that consists of an unencrypted footer alone.
fn bare(alloc: Global, line: &str) -> Result<Bytes, Fail> {
    let footer = footer_of(alloc, line, "")?;
    let mut file = Bytes::copy_of(alloc, b"PAR1")?;
    let size = u32::try_from(footer.len()).ok().ok_or("size")?;
    file.extend(footer.as_slice())?;
    file.extend(&size.to_le_bytes())?;
    file.extend(b"PAR1")?;
    Ok(file)
}

fn unchanged(alloc: Global, line: &str) -> Result<Bytes, Fail> {
    let (first, _) = line.split_once(',').unwrap_or((line, ""));
    match first {
        "encrypted" => bytes_of(alloc, ENCRYPTED),
        "signed" => bytes_of(alloc, SIGNED),
        "counter" => bytes_of(alloc, COUNTER),
        "seal" => sealed(alloc, line),
        "sign" => signed(alloc, line),
        "bare" => bare(alloc, line),
        _ => spelled(alloc, setting(line, "bytes").ok_or("file")?),
    }
}

/// Overwrites the file from offset `at` on with these bytes.
fn put(file: &mut Vec<u8>, at: usize, bytes: &[u8]) -> Result<(), Fail> {
    let mut place = at;
    for byte in bytes {
        let slot = file.get_mut(place).ok_or("place")?;
        *slot = *byte;
        place += 1;
    }
    Ok(())
}

/// The file of a line; None for `absent`.
pub(crate) fn file_of(alloc: Global, line: &str) -> Result<Option<Bytes>, Fail> {
    if line == "absent" {
        return Ok(None);
    }
    let mut file = unchanged(alloc, line)?.take();
    for word in line.split(',') {
        let (name, text) = split_setting(word);
        if let Some(at) = name.strip_prefix('@') {
            let bytes = spelled(alloc, text)?;
            put(&mut file, at.parse()?, bytes.as_slice())?;
        }
    }
    Ok(Some(Bytes::from_vec(file)))
}
