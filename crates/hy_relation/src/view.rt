//! The bytes of a slot, and the row that they say.

ghost use Rattle.std.specs.Prelude.{◌≡◌, ◌+◌, ◌≤◌, ◌++◌, IfOk, OnOk, length, option_to_list};
ghost use Rattle.arrayvec.specs.ArrayVec.{array_vec_len};
ghost use Rattle.hy_rows.specs.Spelling.{is_live, row_of_slot, slot_width};
ghost use Rattle.hy_rows.specs.declared.catalogue.TheConstants.{MAX_SLOT_BYTES};

use arrayvec::ArrayVec;
use hy_rows::{FixedRow, MAX_SLOT_BYTES, Row};
use std::alloc::{AllocError, Global};

/// A copy of some bytes of a slot.
pub(crate) type SlotCopy = ArrayVec<u8, MAX_SLOT_BYTES>;

/// The bytes of a slot: where they lie on a page, or a copy of them.
#[derive(Drop)]
pub(crate) enum SlotView<'a> {
    Lent(&'a [u8]),
    Copied(SlotCopy),
}

impl<'a> SlotView<'a> {
    ghost use Rattle.hy_relation.specs.inside.Views.{bytes_of_view};

    /// The bytes.
    pub(crate) fn as_slice(&self) -> &[u8]
        ensures { result.now ≡ bytes_of_view self.now }
    {
        match self {
            SlotView::Lent(bytes) => bytes,
            SlotView::Copied(bytes) => bytes.as_slice(),
        }
    }
}

/// Appends some bytes of a page to a copy.
pub(crate) fn push_bytes(copy: &mut SlotCopy, bytes: &[u8])
    requires { array_vec_len copy.old + length bytes.now ≤ MAX_SLOT_BYTES }
    ensures bytes { copy.new.items ≡ copy.old.items ++ bytes.now }
    ensures len { array_vec_len copy.new ≡ array_vec_len copy.old + length bytes.now }
{
    match copy.try_extend_from_slice(bytes) {
        Ok(()) => {}
        Err(_) => unreachable!(),
    }
}

/// Whether a slot that begins with this mark has a row.
pub(crate) fn is_live(mark: &[u8]) -> bool
    requires { 1 ≤ length mark.now }
    ensures { result ≡ is_live mark.now }
{
    mark[0] == 1
}

/// The row that the bytes of a slot say, if the slot is live.
pub(crate) fn row_of<R: FixedRow>(slot: &[u8]) -> Option<R>
    requires { length slot.now ≡ slot_width R.BYTES }
    ensures { result ≡ row_of_slot R.row_of_bytes slot.now }
{
    if is_live(slot) {
        Some(R::read(&slot[1..]))
    } else {
        None
    }
}

/// Adds the row that the bytes of a slot say, if the slot is live. Only memory can lack.
pub(crate) fn push_row<R: Row>(
    alloc: Global,
    rows: &mut Vec<R>,
    slot: &[u8],
) -> Result<(), AllocError>
    requires { length slot.now ≡ slot_width R.BYTES }
    ensures { OnOk result (rows.new.items
        ≡ rows.old.items ++ option_to_list (row_of_slot R.row_of_bytes slot.now)) }
{
    if is_live(slot) {
        rows.push(R::decode(alloc, &slot[1..])?)?;
    }
    Ok(())
}
