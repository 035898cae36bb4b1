//! The bytes of the pages from 1 on, joined.

ghost use Rattle.std.specs.Prelude.{◌≡◌, ◌+◌, ◌%◌, ◌^◌, ◌<◌, ◌≤◌, ◌++◌, All, length, vec_capacity, vec_len};
ghost use Rattle.arrayvec.specs.ArrayVec.{array_vec_len};
ghost use Rattle.hy_page.specs.Bytes.{bytes_at, number_of};
ghost use Rattle.hy_rows.specs.Spelling.{slot_bytes};
ghost use Rattle.hy_rows.specs.Texts.{text_of};

use crate::decode::text_in;
use arrayvec::ArrayVec;
use hy_frames::Hold;
use hy_page::number;

/// Some bytes that one page has, where they lie.
pub(crate) fn bytes_on<const N: usize>(pages: &[Hold<N>], start: usize, count: usize) -> &[u8]
    requires sized { All (λ page. length page ≡ N) pages.now }
    requires some { 0 < count }
    requires within { start + count ≤ length (slot_bytes pages.now) }
    requires fits { start % N + count ≤ N }
    requires size { 256 ≤ N }
    requires small { N ≤ 65536 }
    ensures { result.now ≡ bytes_at (slot_bytes pages.now) start count }
{
    let offset = start % N;
    &pages[1 + start / N].page().bytes()[offset..offset + count]
}

/// Appends a few bytes to others.
fn push_few(few: &mut ArrayVec<u8, 8>, more: &[u8])
    requires { array_vec_len few.old + length more.now ≤ 8 }
    ensures bytes { few.new.items ≡ few.old.items ++ more.now }
    ensures len { array_vec_len few.new ≡ array_vec_len few.old + length more.now }
{
    match few.try_extend_from_slice(more) {
        Ok(()) => {}
        Err(_) => unreachable!(),
    }
}

/// The number in a few bytes that lie on two pages.
fn number_across<const N: usize>(pages: &[Hold<N>], start: usize, width: usize) -> u64
    requires bytes { length (slot_bytes pages.now) < 2 ^ 48 }
    requires sized { All (λ page. length page ≡ N) pages.now }
    requires within { start + width ≤ length (slot_bytes pages.now) }
    requires across { N < start % N + width }
    requires few { width ≤ 8 }
    requires size { 256 ≤ N }
    requires small { N ≤ 65536 }
    ensures { result ≡ number_of (bytes_at (slot_bytes pages.now) start width) }
{
    let front = N - start % N;
    let mut few = ArrayVec::new();
    push_few(&mut few, bytes_on(pages, start, front));
    push_few(&mut few, bytes_on(pages, start + front, width - front));
    number(few.as_slice())
}

/// The number in a few bytes.
pub(crate) fn number_on<const N: usize>(pages: &[Hold<N>], start: usize, width: usize) -> u64
    requires bytes { length (slot_bytes pages.now) < 2 ^ 48 }
    requires sized { All (λ page. length page ≡ N) pages.now }
    requires within { start + width ≤ length (slot_bytes pages.now) }
    requires some { 0 < width }
    requires few { width ≤ 8 }
    requires size { 256 ≤ N }
    requires small { N ≤ 65536 }
    ensures { result ≡ number_of (bytes_at (slot_bytes pages.now) start width) }
{
    if start % N + width <= N {
        number(bytes_on(pages, start, width))
    } else {
        number_across(pages, start, width)
    }
}

/// Copies the text that a field of so many bytes holds, page by page, behind other bytes, for which there is room.
pub(crate) fn copy_text<const N: usize>(
    pages: &[Hold<N>],
    start: usize,
    width: usize,
    copied: &mut Vec<u8>,
)
    requires bytes { length (slot_bytes pages.now) < 2 ^ 48 }
    requires sized { All (λ page. length page ≡ N) pages.now }
    requires within { start + width ≤ length (slot_bytes pages.now) }
    requires room { vec_len copied.old + width ≤ vec_capacity copied.old }
    requires size { 256 ≤ N }
    requires small { N ≤ 65536 }
    ensures { copied.new.items ≡ copied.old.items ++ text_of (bytes_at (slot_bytes pages.now) start width) }
{
    let end = start + width;
    let mut at = start;
    while at < end {
        let count = (end - at).min(N - at % N);
        let text = text_in(bytes_on(pages, at, count));
        push_bytes(copied, text);
        if text.len() < count {
            return;
        }
        at += count;
    }
}

/// Appends bytes to others, for which there is room.
fn push_bytes(copied: &mut Vec<u8>, more: &[u8])
    requires { vec_len copied.old + length more.now ≤ vec_capacity copied.old }
    ensures bytes { copied.new.items ≡ copied.old.items ++ more.now }
    ensures len { vec_len copied.new ≡ vec_len copied.old + length more.now }
    ensures capacity { vec_capacity copied.old ≤ vec_capacity copied.new }
{
    match copied.extend_from_slice(more) {
        Ok(()) => {}
        Err(_) => unreachable!(),
    }
}
