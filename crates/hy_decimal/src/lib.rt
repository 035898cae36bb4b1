//! Whole numbers as they are written in files and scripts.
#![tactic(auto)]

ghost use Rattle.std.specs.Prelude.{◌≡◌};
ghost use Rattle.hy_decimal.specs.Numbers.{number_of};

/// The number below 2^64 that is written so: decimal digits, the first of them no zero where others follow.
pub fn number(text: &[u8]) -> Option<u64>
    ensures { result ≡ number_of 64 text.now }
{
    if text.is_empty() || (text.len() > 1 && text[0] == b'0') {
        return None;
    }
    let mut number: u64 = 0;
    for byte in text {
        if !byte.is_ascii_digit() {
            return None;
        }
        number = number.checked_mul(10)?.checked_add((*byte - b'0').into())?;
    }
    Some(number)
}
