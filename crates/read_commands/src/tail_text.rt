// The text of a file's tail.
ghost use Rattle.std.specs.Prelude.{◌≡◌, [], ◌∷◌, ◌++◌, codes, length, IfOk, OnOk};
ghost use Rattle.hex.specs.Hex.{encode_lower};
ghost use Rattle.table_text.specs.Texts as texts;
ghost use Rattle.read_commands.specs.TailText as defined;

use byte_texts::{push_decimal, push_hex, push_signed, push_text};
use command_line::AadPrefix;
use footer_modes::{FooterMode, Protection, Tail};
use parquet_types::{AlgorithmMeta, ColumnSpec};
use pme_base::{Bytes, OutOfMemory};
use std::alloc::Global;
use table_text::heading_text;

/// The text of a tail that was read with the prefix `supplied`, or with none.
pub fn tail_text(
    alloc: Global,
    tail: &Tail,
    supplied: &Option<AadPrefix>,
) -> Result<Bytes, OutOfMemory>
    ensures { IfOk result (λ text. text ≡ defined.tail_text tail.now supplied.now) }
{
    let mut text = Bytes::new(alloc);
    push_mode(&mut text, tail.mode)?;
    push_protection(&mut text, &tail.protection, supplied)?;
    push_columns(alloc, &mut text, tail.footer.schema.as_slice())?;
    push_counts(&mut text, tail.footer.groups.len(), tail.footer.num_rows)?;
    Ok(text)
}

fn push_mode(text: &mut Bytes, mode: FooterMode) -> Result<(), OutOfMemory>
    ensures { OnOk result (text.new
        ≡ text.old ++ defined.line_of (codes "mode ") (defined.mode_word mode)) }
{
    match mode {
        FooterMode::Encrypted => push_text(text, "mode encrypted\n"),
        FooterMode::Signed => push_text(text, "mode signed\n"),
        FooterMode::Unencrypted => push_text(text, "mode unencrypted\n"),
    }
}

/// The lines about the algorithm and the associated data; none for an unencrypted footer.
fn push_protection(
    text: &mut Bytes,
    protection: &Option<Protection>,
    supplied: &Option<AadPrefix>,
) -> Result<(), OutOfMemory>
    ensures { OnOk result (text.new
        ≡ text.old ++ defined.protection_lines protection.now supplied.now) }
{
    match protection {
        Some(protection) => push_algorithm_lines(text, &protection.algorithm, supplied),
        None => Ok(()),
    }
}

fn push_algorithm_lines(
    text: &mut Bytes,
    algorithm: &AlgorithmMeta,
    supplied: &Option<AadPrefix>,
) -> Result<(), OutOfMemory>
    ensures { OnOk result (text.new
        ≡ text.old ++ defined.algorithm_lines algorithm.now supplied.now) }
{
    push_algorithm(text, algorithm.ctr)?;
    push_hex_line(text, "unique ", algorithm.unique.as_slice())?;
    push_prefix(text, algorithm, supplied)
}

/// The algorithm's name, by whether page bodies are sealed in counter mode alone.
fn algorithm_name(ctr: bool) -> &'static str
    ensures { result.now ≡ defined.algorithm_name ctr }
{
    match ctr {
        true => "AES_GCM_CTR_V1",
        false => "AES_GCM_V1",
    }
}

fn push_algorithm(text: &mut Bytes, ctr: bool) -> Result<(), OutOfMemory>
    ensures { OnOk result (text.new
        ≡ text.old ++ defined.line_of (codes "algorithm ") (defined.algorithm_name ctr)) }
{
    push_text(text, "algorithm ")?;
    push_text(text, algorithm_name(ctr))?;
    text.push(b'\n')
}

/// A line of a name and bytes in hex.
fn push_hex_line(text: &mut Bytes, name: &str, bytes: &[u8]) -> Result<(), OutOfMemory>
    ensures { OnOk result (text.new
        ≡ text.old ++ defined.line_of name.now (encode_lower bytes.now)) }
{
    push_text(text, name)?;
    push_hex(text, bytes)?;
    text.push(b'\n')
}

fn push_prefix(
    text: &mut Bytes,
    algorithm: &AlgorithmMeta,
    supplied: &Option<AadPrefix>,
) -> Result<(), OutOfMemory>
    ensures { OnOk result (text.new ≡ text.old ++ defined.line_of (codes "prefix ")
        (defined.prefix_words algorithm.now.prefix algorithm.now.supply supplied.now)) }
{
    match &algorithm.prefix {
        Some(stored) => push_hex_line(text, "prefix stored ", stored.as_slice()),
        None => push_unstored(text, algorithm.supply, supplied),
    }
}

/// The line about a prefix that the file doesn't store.
fn push_unstored(
    text: &mut Bytes,
    supply: bool,
    supplied: &Option<AadPrefix>,
) -> Result<(), OutOfMemory>
    ensures { OnOk result (text.new ≡ text.old
        ++ defined.line_of (codes "prefix ") (defined.unstored_words supply supplied.now)) }
{
    if !supply {
        return push_text(text, "prefix none\n");
    }
    match supplied {
        Some(prefix) => push_hex_line(text, "prefix supplied ", prefix.as_slice()),
        None => push_text(text, "prefix none\n"),
    }
}

#[tactic(auto, using(crate::proofs::Columns::line_first, crate::proofs::Columns::none_left))]
fn push_columns(alloc: Global, text: &mut Bytes, columns: &[ColumnSpec]) -> Result<(), OutOfMemory>
    ensures { OnOk result (text.new ≡ text.old ++ defined.column_lines columns.now) }
{
    let mut rest = columns;
    while let [column, after @ ..] = rest {
        push_column(alloc, text, column)?;
        rest = after;
    }
    Ok(())
}

fn push_column(alloc: Global, text: &mut Bytes, column: &ColumnSpec) -> Result<(), OutOfMemory>
    ensures { OnOk result (text.new
        ≡ text.old ++ defined.line_of (codes "column ") (texts.heading_text column.now)) }
{
    let heading = heading_text(alloc, column)?;
    push_text(text, "column ")?;
    text.extend(heading.as_slice())?;
    text.push(b'\n')
}

fn push_counts(text: &mut Bytes, groups: usize, rows: i64) -> Result<(), OutOfMemory>
    ensures { OnOk result (text.new ≡ text.old ++ defined.count_line groups rows) }
{
    push_text(text, "groups ")?;
    push_decimal(text, groups as u64)?;
    push_text(text, " rows ")?;
    push_signed(text, rows)?;
    text.push(b'\n')
}
