// Parsing of decimal integers.
ghost use Rattle.std.specs.Prelude.{◌≡◌};
ghost use Rattle.std.specs.Int.{w32, w64};
ghost use Rattle.table_text.specs.Numbers as numbers;

/// Parses an unsigned decimal number below 2^64, without a leading zero.
pub fn plain_read(digits: &[u8]) -> Option<u64>
    ensures { result ≡ numbers.plain_read digits.now }
{
    if !front_is_plain(digits) {
        return None;
    }
    let mut value = 0;
    for &digit in digits {
        value = with_digit(value, digit)?;
    }
    Some(value)
}

/// Whether `digits` isn't empty and has no leading zero; `0` itself is allowed.
fn front_is_plain(digits: &[u8]) -> bool
    ensures { result ≡ numbers.front_is_plain digits.now }
{
    !digits.is_empty() && (!begins_with_zero(digits) || digits.len() == 1)
}

fn begins_with_zero(digits: &[u8]) -> bool
    ensures { result ≡ numbers.begins_with_zero digits.now }
{
    !digits.is_empty() && digits[0] == b'0'
}

/// The number with one more digit at the end of `value`, if it is below 2^64.
fn with_digit(value: u64, digit: u8) -> Option<u64>
    ensures { result ≡ numbers.with_digit value digit }
{
    if !digit.is_ascii_digit() {
        return None;
    }
    value.checked_mul(10)?.checked_add(u64::from(digit - b'0'))
}

/// Parses a decimal number with an optional `-`, whose absolute value is below 2^64; neither a leading zero nor `-0` is
/// valid.
#[tactic(auto, unfolding(crate::specs::Numbers::decimal_read))]
fn decimal_read(field: &[u8]) -> Option<i128>
    ensures { result ≡ numbers.decimal_read field.now }
{
    if field.is_empty() || field[0] != b'-' {
        return Some(i128::from(plain_read(field)?));
    }
    if begins_with_zero(&field[1..]) {
        return None;
    }
    Some(-i128::from(plain_read(&field[1..])?))
}

/// Parses a decimal number that fits in 32 bits.
pub fn int32_read(field: &[u8]) -> Option<i32>
    ensures { result ≡ numbers.number_read w32 field.now }
{
    i32::try_from(decimal_read(field)?).ok()
}

/// Parses a decimal number that fits in 64 bits.
pub fn int64_read(field: &[u8]) -> Option<i64>
    ensures { result ≡ numbers.number_read w64 field.now }
{
    i64::try_from(decimal_read(field)?).ok()
}
