//! C_DATA of a customer, which a payment reads and writes by itself (TPC-C clause 2.5.2.2).

ghost use Rattle.std.specs.Prelude.{◌≡◌, ◌+◌, ◌<◌, ◌≤◌, [], ◌∷◌, ◌++◌, decimal, length};
ghost use Rattle.arrayvec.specs.ArrayVec.{array_vec_len};
ghost use Rattle.hy_rows.specs.Texts.{IsText};
ghost use Rattle.hy_commands.specs.Payments.{noted};
ghost use Rattle.hy_writers.specs.Payments.{note_of};

use arrayvec::ArrayVec;
use hy_commands::Payment;
use hy_rows::{Customer, Part, Text, WrittenPart};
use itoa::Buffer;

/// C_DATA of a customer, without the other columns.
#[derive(Clone, Copy, Debug)]
pub(crate) struct CustomerInformation {
    /// C_DATA.
    pub text: Text<500>,
}

impl Part<Customer> for CustomerInformation {
    ghost use Rattle.std.proofs.Common.{rules};
    ghost use Rattle.hy_writers.specs.Information.{information_in, information_of};
    ghost use Rattle.hy_writers.specs.inside.InformationLaws.{information_said};

    const OFFSET: usize = 74;

    const WIDTH: usize = 500;

    ghost OFFSET = { 74 };

    ghost WIDTH = { 500 };

    ghost part_of = { information_of };

    ghost part_of_bytes = { information_in };

    fn decode_part(bytes: &[u8]) -> CustomerInformation {
        CustomerInformation {
            text: Text::of_field(bytes),
        }
    }

    ghost inside = { Prim.search rules };

    ghost said = { information_said };
}

impl WrittenPart<Customer> for CustomerInformation {
    ghost use Rattle.hy_writers.specs.Information.{information_bytes, with_information};

    type Bytes = ArrayVec<u8, 500>;

    ghost with_part = { with_information };

    ghost bytes_of_part = { information_bytes };

    fn bytes(&self) -> ArrayVec<u8, 500> {
        let text = self.text.as_bytes();
        let mut bytes = ArrayVec::new();
        push_all(&mut bytes, text);
        if text.len() < 500 {
            bytes.push(0);
        }
        bytes
    }
}

/// Puts bytes behind others.
fn push_all(text: &mut ArrayVec<u8, 500>, bytes: &[u8])
    requires { array_vec_len text.old + length bytes.now ≤ 500 }
    ensures text { text.new.items ≡ text.old.items ++ bytes.now }
    ensures len { array_vec_len text.new ≡ array_vec_len text.old + length bytes.now }
{
    match text.try_extend_from_slice(bytes) {
        Ok(()) => {}
        Err(_) => unreachable!(),
    }
}

/// Puts a number in decimal digits behind other bytes, and a byte behind it.
fn push_number(text: &mut ArrayVec<u8, 500>, number: u64, end: u8)
    requires fits { array_vec_len text.old + 21 ≤ 500 }
    requires end { 0 < end }
    ensures text { text.new.items ≡ text.old.items ++ decimal number ++ end ∷ [] }
    ensures is_text { IsText 500 text.old.items → IsText 500 text.new.items }
    ensures len { array_vec_len text.new ≤ array_vec_len text.old + 21 }
{
    push_all(text, Buffer::new().format(number).as_bytes());
    text.push(end);
}

/// What a payment notes of a customer with a number.
fn note_of(payment: &Payment, customer: u16) -> ArrayVec<u8, 500>
    ensures note { result.items ≡ note_of payment.now customer }
    ensures is_text { IsText 500 result.items }
    ensures short { array_vec_len result ≤ 126 }
{
    let mut note = ArrayVec::new();
    push_number(&mut note, customer.into(), b' ');
    push_number(&mut note, payment.customer_district, b' ');
    push_number(&mut note, payment.customer_warehouse, b' ');
    push_number(&mut note, payment.district, b' ');
    push_number(&mut note, payment.warehouse, b' ');
    push_number(&mut note, payment.amount, b';');
    note
}

/// A note, and behind it what C_DATA had, cut at 500 characters.
fn cut(note: &[u8], old: &[u8]) -> ArrayVec<u8, 500>
    requires { length note.now ≤ 126 }
    ensures { result.items ≡ noted note.now old.now }
{
    let kept = (500 - note.len()).min(old.len());
    let mut bytes = ArrayVec::new();
    push_all(&mut bytes, note);
    push_all(&mut bytes, &old[..kept]);
    bytes
}

/// C_DATA behind a payment of a customer with a number: what it notes, and then what C_DATA had, cut at 500 characters.
pub(crate) fn noted(
    payment: &Payment,
    customer: u16,
    before: &CustomerInformation,
) -> CustomerInformation
    ensures { result.text ≡ noted (note_of payment.now customer) before.now.text }
{
    let note = note_of(payment, customer);
    let bytes = cut(note.as_slice(), before.text.as_bytes());
    CustomerInformation {
        text: Text::of_bytes(bytes.as_slice()),
    }
}
