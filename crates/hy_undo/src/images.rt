//! Overwritten bytes, one write behind another in one buffer.

ghost use Rattle.std.specs.Prelude.{◌≡◌, ℕ, ◌+◌, ◌-◌, ◌^◌, ◌<◌, ◌≤◌, ◌↔◌, IsTrue, [], ◌∷◌, ◌++◌, length, map, take, drop, not, ◌&&◌, slice_index_or, sum_by, OnOk, OnErr};
ghost use Rattle.hy_undo.specs.inside.Fork.{addresses, address_at};
ghost use Rattle.std.specs.List.{list_any};
ghost use Rattle.hy_undo.specs.Touched.{touched, is_same_address, was_there};
ghost use Rattle.hy_undo.specs.inside.Pieces.{address_of_piece, piece_at, byte_count, images_of, last_bytes, touched_by};
ghost use Rattle.hy_page.specs.Bytes.{bytes_at};

use std::alloc::{AllocError, Global};
use std::marker::Model;

/// Where some overwritten bytes stood, and how many they are.
#[derive(Clone, Copy, Drop)]
pub(crate) struct Piece {
    pub(crate) segment: u32,
    pub(crate) page: u32,
    pub(crate) offset: u32,
    pub(crate) count: u32,
}

/// The bytes that the last write took away, and where they stood.
#[derive(Clone, Copy, Drop)]
pub(crate) struct LastImage<'a> {
    pub(crate) segment: u32,
    pub(crate) page: u32,
    pub(crate) offset: usize,
    pub(crate) bytes: &'a [u8],
}

/// The overwritten bytes, and for each write where they stood.
#[derive(Drop)]
pub(crate) struct Images {
    pieces: Vec<Piece>,
    bytes: Vec<u8>,
}

// Clauses see the list of images. The bytes of the pieces stand one behind another.
impl Model for Images {
    ghost use Rattle.std.specs.Prelude.{◌≡◌, List, length};
    ghost use Rattle.hy_undo.specs.UndoLog.{Image};
    ghost use Rattle.hy_undo.specs.inside.Pieces.{images_of, byte_count};

    ghost Value = { List Image };

    ghost view = { λ i. images_of i.bytes.items i.pieces.items };

    ghost invariant = { λ i. byte_count i.pieces.items ≡ length i.bytes.items };
}

impl Images {
    /// No image.
    pub(crate) fn new(alloc: Global) -> Images
        ensures { result ≡ [] }
    {
        Images {
            pieces: Vec::new(alloc),
            bytes: Vec::new(alloc),
        }
    }

    /// Adds an image behind all others.
    pub(crate) fn push(
        &mut self,
        segment: u32,
        page: u32,
        offset: u32,
        content: &[u8],
    ) -> Result<(), AllocError>
        requires { length content.now < 2 ^ 32 }
        ensures ok { OnOk result (self.new ≡ self.old ++ record {
          segment = segment;
          page = page;
          offset = offset;
          bytes = content.now;
        } ∷ []) }
        ensures err { OnErr result (self.new ≡ self.old) }
    {
        self.pieces.reserve(1)?;
        self.bytes.extend_from_slice(content)?;
        self.pieces.push_reserved(Piece {
            segment,
            page,
            offset,
            count: content.len() as u32,
        });
        Ok(())
    }

    /// The last image.
    pub(crate) fn last(&self) -> LastImage<'_>
        requires { 0 < length self.now }
        ensures { self.now ≡ take (length self.now - 1) self.now ++ record {
          segment = result.segment;
          page = result.page;
          offset = result.offset;
          bytes = result.bytes.now;
        } ∷ [] }
    {
        let piece = self.pieces[self.pieces.len() - 1];
        let rest = self.bytes.len() - piece.count as usize;
        LastImage {
            segment: piece.segment,
            page: piece.page,
            offset: piece.offset as usize,
            bytes: &self.bytes[rest..],
        }
    }

    /// The bytes of the last image.
    fn last_bytes(&self) -> &[u8]
        requires { 0 < length self.now }
        ensures { result.now ≡ last_bytes self.now }
    {
        self.last().bytes
    }

    /// The `count` bytes from an offset on of those that the last image has.
    pub(crate) fn last_part(&self, offset: usize, count: usize) -> &[u8]
        requires some { 0 < length self.now }
        requires within { offset + count ≤ length (last_bytes self.now) }
        ensures bytes { result.now ≡ bytes_at (last_bytes self.now) offset count }
        ensures size { length result.now ≡ count }
    {
        let kept = self.last_bytes();
        &kept[offset..offset + count]
    }

    /// How many images there are.
    pub(crate) fn len(&self) -> usize
        ensures { result ≡ length self.now }
    {
        self.pieces.len()
    }

    /// How many bytes all images have together.
    pub(crate) fn byte_count(&self) -> usize
        ensures { result ≡ sum_by (λ image. length image.bytes) self.now }
    {
        self.bytes.len()
    }

    /// The image of one number, where it and those before it have so many bytes together.
    pub(crate) fn image(&self, i: usize, end: usize) -> LastImage<'_>
        requires within { i < length self.now }
        requires end { end ≡ sum_by (λ image. length image.bytes) (take (i + 1) self.now) }
        ensures { slice_index_or self.now i (record { segment = 0; page = 0; offset = 0; bytes = [] })
            ≡ record {
              segment = result.segment;
              page = result.page;
              offset = result.offset;
              bytes = result.bytes.now;
            } }
    {
        image_in(self.pieces.as_slice(), self.bytes.as_slice(), i, end)
    }

    /// Where the image of one number stood.
    pub(crate) fn piece(&self, i: usize) -> Piece
        requires { i < length self.now }
        ensures { address_of_piece result ≡ address_at self.now i }
    {
        piece_in(self.pieces.as_slice(), i)
    }

    /// Whether the page of an image was there, when segments had so many pages, and no later image is of it.
    pub(crate) fn is_last_touched(&self, i: usize, counts: &[u32]) -> bool
        requires { i < length self.now }
        ensures { result ≡ (was_there counts.now (address_at self.now i)
            && not (list_any (is_same_address (address_at self.now i)) (drop (i + 1) (addresses self.now)))) }
    {
        is_last_in(self.pieces.as_slice(), i, counts)
    }

    /// Whether there is no image.
    pub(crate) fn is_empty(&self) -> bool
        ensures { IsTrue result ↔ (length self.now ≡ 0) }
    {
        self.pieces.is_empty()
    }

    /// Forgets the last image.
    pub(crate) fn drop_last(&mut self)
        requires { 0 < length self.old }
        ensures { self.new ≡ take (length self.old - 1) self.old }
    {
        if let Some(piece) = self.pieces.pop() {
            let rest = self.bytes.len() - piece.count as usize;
            self.bytes.truncate(rest);
        }
    }

    /// Forgets all images, and keeps the room for others.
    pub(crate) fn clear(&mut self)
        ensures { self.new ≡ [] }
    {
        self.pieces.clear();
        self.bytes.clear();
    }

    /// How many different pages have an image and were there at the begin, when segments had so many pages.
    pub(crate) fn touched(&self, counts: &[u32]) -> u64
        ensures { result ≡ touched (record { counts = counts.now; images = self.now }) }
    {
        touched_pieces(self.pieces.as_slice(), counts)
    }
}

/// The image of one piece, where it and those before it have so many bytes together.
fn image_in<'a>(pieces: &[Piece], bytes: &'a [u8], i: usize, end: usize) -> LastImage<'a>
    requires within { i < length pieces.now }
    requires end { end ≡ byte_count (take (i + 1) pieces.now) }
    requires fits { byte_count pieces.now ≡ length bytes.now }
    ensures { slice_index_or (images_of bytes.now pieces.now) i
        (record { segment = 0; page = 0; offset = 0; bytes = [] })
        ≡ record {
          segment = result.segment;
          page = result.page;
          offset = result.offset;
          bytes = result.bytes.now;
        } }
{
    let piece = pieces[i];
    let start = end - piece.count as usize;
    LastImage {
        segment: piece.segment,
        page: piece.page,
        offset: piece.offset as usize,
        bytes: &bytes[start..end],
    }
}

/// One of some pieces.
fn piece_in(pieces: &[Piece], i: usize) -> Piece
    requires { i < length pieces.now }
    ensures { address_of_piece result ≡ piece_at pieces.now i }
{
    pieces[i]
}

/// Whether the page of a piece was there, when segments had so many pages, and no later piece is of it.
fn is_last_in(pieces: &[Piece], i: usize, counts: &[u32]) -> bool
    requires { i < length pieces.now }
    ensures { result ≡ (was_there counts.now (piece_at pieces.now i)
        && not (list_any (is_same_address (piece_at pieces.now i)) (drop (i + 1) (map address_of_piece pieces.now)))) }
{
    let piece = pieces[i];
    was_there(piece, counts) && !is_page_among(piece, &pieces[i + 1..])
}

/// How many different pages pieces are of, among those that were there when segments had so many pages.
fn touched_pieces(pieces: &[Piece], counts: &[u32]) -> u64
    ensures { result ≡ touched_by pieces.now counts.now }
{
    let mut touched = 0;
    for (i, piece) in pieces.iter().enumerate() {
        if was_there(*piece, counts) && !is_page_among(*piece, &pieces[i + 1..]) {
            touched += 1;
        }
    }
    touched
}

/// Whether the page of a piece was there when segments had so many pages.
fn was_there(piece: Piece, counts: &[u32]) -> bool
    ensures { result ≡ was_there counts.now (address_of_piece piece) }
{
    match counts.get(piece.segment as usize) {
        Some(count) => piece.page < *count,
        None => false,
    }
}

/// Whether one of some pieces is of the page of this one.
fn is_page_among(piece: Piece, later: &[Piece]) -> bool
    ensures { result ≡ list_any (λ other. is_same_address (address_of_piece piece) (address_of_piece other))
        later.now }
{
    let Piece { segment, page, .. } = piece;
    later.iter().any(
        |other: &Piece| -> bool
            ensures { result ≡ is_same_address (record { segment = segment; page = page })
                (address_of_piece other.now) }
        { segment == other.segment && page == other.page },
    )
}
