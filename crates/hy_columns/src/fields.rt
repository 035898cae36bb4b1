//! Where the columns lie in the bytes of rows.

ghost use Rattle.std.specs.Prelude.{◌≡◌, ◌<◌, length};
ghost use Rattle.hy_rows.specs.Catalogue.{columns_of};
ghost use Rattle.hy_rows.specs.Spelling.{is_spanned};
ghost use Rattle.hy_columns.specs.inside.Fields.{IsField, segment_of};

use hy_rows::{Domain, Table, row_width};

/// No page has fewer bytes.
const LEAST_PAGE: usize = 256;

/// Where a column lies in the bytes of a row, and which values stand there.
#[derive(Clone, Copy)]
pub(crate) struct Field {
    /// Which values it has.
    pub(crate) domain: Domain,
    /// Where it begins.
    pub(crate) offset: usize,
}

/// The column at a place of a table: it begins where those before it end.
pub(crate) fn field_at(table: Table, place: usize) -> Field
    requires { place < length (columns_of table) }
    ensures { IsField (columns_of table) place result }
{
    let columns = table.columns();
    Field {
        domain: columns[place].domain,
        offset: row_width(&columns[..place]),
    }
}

/// The segment in which a table lies.
#[derive(Clone, Copy)]
pub(crate) struct Segment {
    /// Its number.
    pub(crate) number: u32,
    /// How many bytes a row has.
    pub(crate) row_bytes: usize,
}

impl Segment {
    /// Whether its slots are spanned, over the ends of pages.
    pub(crate) fn is_spanned(self) -> bool
        ensures { result ≡ is_spanned self.row_bytes }
    {
        self.row_bytes >= LEAST_PAGE
    }

    /// How many of them lie on a page of `N` bytes, and one where they are spanned or longer than it.
    pub(crate) fn slots_per_page<const N: usize>(self) -> usize
        ensures { 0 < result }
    {
        if self.is_spanned() {
            return 1;
        }
        (N / (1 + self.row_bytes)).max(1)
    }
}

/// The segment of a table; none of ITEM, which no pages hold.
pub(crate) fn segment_of(table: Table) -> Option<Segment>
    ensures { result ≡ segment_of table }
{
    let number = table.segment()?;
    Some(Segment {
        number,
        row_bytes: row_width(table.columns()),
    })
}
