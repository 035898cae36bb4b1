//! The texts of generated rows.

ghost use Rattle.std.specs.Prelude.{◌≡◌, ◌<◌, ◌≤◌, ◌++◌, IfOk};
ghost use Rattle.std.specs.Fmt.{decimal};
ghost use Rattle.hy_rows.specs.Texts.{IsText};
ghost use Rattle.hy_tables.specs.Generated.{credit as credit_of, digit as digit_of, last_name as last_name_of, payment_information, syllable as syllable_of, with_four_digits};

use hy_rows::Text;
use std::alloc::{AllocError, Global};

/// The parts of a generated last name, one for each digit (TPC-C clause 4.3.2.3).
const SYLLABLES: [&str; 10] = [
    "BAR", "OUGHT", "ABLE", "PRI", "PRES", "ESE", "ANTI", "CALLY", "ATION", "EING",
];

/// Letters and a number.
pub(crate) fn name<const WIDTH: usize>(
    alloc: Global,
    letters: &str,
    number: u32,
) -> Result<Text<WIDTH>, AllocError>
    requires letters { IsText 4 letters.now }
    requires number { number < 1_000_000 }
    requires width { 10 ≤ WIDTH }
    requires small { WIDTH ≤ 64 }
    ensures { IfOk result (λ text. text ≡ letters.now ++ decimal number) }
{
    let made = format!(in alloc; "{letters}{number}")?;
    Ok(Text::of_bytes(made.as_bytes()))
}

/// What is noted of a payment in a district: the names of its warehouse and of the district.
pub(crate) fn information(
    alloc: Global,
    warehouse: u8,
    district: u8,
) -> Result<Text<24>, AllocError>
    ensures { IfOk result (λ text. text ≡ payment_information warehouse district) }
{
    let made = format!(in alloc; "W{warehouse}    D{district}")?;
    Ok(Text::of_bytes(made.as_bytes()))
}

/// The letter F and a number in four digits.
pub(crate) fn first_name(number: u16) -> Text<16>
    ensures { result ≡ with_four_digits 70 number }
{
    let made = [
        b'F',
        digit(number / 1000),
        digit(number / 100),
        digit(number / 10),
        digit(number),
    ];
    Text::of_bytes(&made)
}

/// The last name of the last three digits of a number.
pub(crate) fn last_name(alloc: Global, number: u16) -> Result<Text<16>, AllocError>
    ensures { IfOk result (λ text. text ≡ last_name_of number) }
{
    let hundreds = syllable(number / 100);
    let tens = syllable(number / 10);
    let ones = syllable(number);
    let made = format!(in alloc; "{hundreds}{tens}{ones}")?;
    Ok(Text::of_bytes(made.as_bytes()))
}

/// Bad credit for each tenth customer, and good credit for the others.
pub(crate) fn credit(number: u16) -> Text<2>
    ensures { result ≡ credit_of number }
{
    if number % 10 == 0 {
        Text::of_bytes(b"BC")
    } else {
        Text::of_bytes(b"GC")
    }
}

/// The syllable of the last digit of a number.
fn syllable(number: u16) -> &'static str
    ensures { result.now ≡ syllable_of number }
{
    SYLLABLES[usize::from(number % 10)]
}

/// The last digit of a number, as a byte.
fn digit(number: u16) -> u8
    ensures { result ≡ digit_of number }
{
    b'0' + (number % 10) as u8
}
