//! Pages: a fixed number of bytes, with little-endian fields among them.
#![tactic(auto)]

ghost use Rattle.std.specs.Prelude.{◌≡◌, ℕ, ◌+◌, ◌*◌, ◌^◌, ◌<◌, ◌≤◌, List, length, replicate};
ghost use Rattle.hy_page.specs.Bytes.{number_of, bytes_at, overwritten, AreBytes};

use std::marker::Model;

/// A page of `N` bytes.
#[derive(Drop)]
pub struct Page<const N: usize> {
    bytes: [u8; N],
}

// Clauses see a page as the list of its bytes.
impl<const N: usize> Model for Page<N> {
    ghost Value = { List ℕ };

    ghost view = { λ page. page.bytes };
}

impl<const N: usize> Page<N> {
    /// A page whose bytes are all zero.
    pub fn zero() -> Page<N>
        ensures { result ≡ replicate N 0 }
    {
        Page { bytes: [0; N] }
    }

    /// The bytes, of which there are `N`.
    pub fn bytes(&self) -> &[u8]
        ensures bytes { result.now ≡ self.now }
        ensures size { length self.now ≡ N }
        ensures range { AreBytes self.now }
    {
        let bytes = &self.bytes[..];
        know_range(bytes);
        bytes
    }

    /// The number in the `width` bytes from `offset` on, the lowest byte first.
    pub fn field(&self, offset: usize, width: usize) -> u64
        requires within { offset + width ≤ N }
        requires width { width ≤ 8 }
        ensures value { result ≡ number_of (bytes_at self.now offset width) }
        ensures range { result < 256 ^ width }
    {
        let whole = &self.bytes[..];
        number(&whole[offset..offset + width])
    }

    /// Writes bytes over those from `offset` on.
    pub fn write(&mut self, offset: usize, bytes: &[u8])
        requires { offset + length bytes.now ≤ N }
        ensures bytes { self.new ≡ overwritten self.old offset bytes.now }
        ensures size { length self.new ≡ N }
    {
        let whole = &mut self.bytes[..];
        whole[offset..offset + bytes.len()].copy_from_slice(bytes);
    }

    /// Makes all bytes zero.
    pub fn clear(&mut self)
        ensures { self.new ≡ replicate N 0 }
    {
        let whole = &mut self.bytes[..];
        whole.fill(0);
    }

    /// A second page with the same bytes.
    pub fn copy(&self) -> Page<N>
        ensures bytes { result ≡ self.now }
        ensures size { length result ≡ N }
    {
        Page { bytes: self.bytes }
    }
}

/// Each element of a slice of bytes is below 256.
fn know_range(bytes: &[u8])
    ensures { AreBytes bytes.now }
{}

/// The number that a few bytes spell, the lowest byte first.
pub fn number(bytes: &[u8]) -> u64
    requires { length bytes.now ≤ 8 }
    ensures value { result ≡ number_of bytes.now }
    ensures range { result < 256 ^ length bytes.now }
{
    let mut number = 0;
    for i in (0..bytes.len()).rev() {
        number = number * 256 + u64::from(bytes[i]);
    }
    number
}
