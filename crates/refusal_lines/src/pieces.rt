// Appending a space and a text, a number or bytes to a line.
ghost use Rattle.std.specs.Prelude.{◌≡◌, ◌++◌, OnOk, OnErr, codes};
ghost use Rattle.std.specs.Fmt.{decimal, signed_decimal};
ghost use Rattle.hex.specs.Hex.{encode_lower};
ghost use Rattle.refusal_lines.specs.DetailText.{spaced, spaced_pair};

use byte_texts::{push_decimal, push_hex, push_signed, push_text};
use pme_base::{Bytes, OutOfMemory};

/// Appends a space and a text.
pub fn push_spaced_text(line: &mut Bytes, text: &str) -> Result<(), OutOfMemory>
    ensures { OnOk result (line.new ≡ line.old ++ spaced text.now) }
{
    push_text(line, " ")?;
    push_text(line, text)
}

/// Appends a space and bytes.
pub fn push_spaced_bytes(line: &mut Bytes, bytes: &[u8]) -> Result<(), OutOfMemory>
    ensures { OnOk result (line.new ≡ line.old ++ spaced bytes.now) }
{
    push_text(line, " ")?;
    line.extend(bytes)
}

/// Appends a space and a number in decimal.
pub fn push_spaced_decimal(line: &mut Bytes, number: u64) -> Result<(), OutOfMemory>
    ensures { OnOk result (line.new ≡ line.old ++ spaced (decimal number)) }
{
    push_text(line, " ")?;
    push_decimal(line, number)
}

/// Appends a space and a signed number in decimal.
pub fn push_spaced_signed(line: &mut Bytes, number: i64) -> Result<(), OutOfMemory>
    ensures { OnOk result (line.new ≡ line.old ++ spaced (signed_decimal number)) }
{
    push_text(line, " ")?;
    push_signed(line, number)
}

/// Appends a space and bytes as lower-case hex.
pub fn push_spaced_hex(line: &mut Bytes, bytes: &[u8]) -> Result<(), OutOfMemory>
    ensures { OnOk result (line.new ≡ line.old ++ spaced (encode_lower bytes.now)) }
{
    push_text(line, " ")?;
    push_hex(line, bytes)
}
