//! The way from the root to the leaf of a key.

ghost use Rattle.std.specs.Prelude.{◌≡◌, ℕ, ◌+◌, ◌^◌, ◌<◌, ◌≤◌, length};
ghost use Rattle.hy_space.specs.Space.{HasPage};
ghost use Rattle.hy_joins.specs.of_nodes.Pages.{nodes_in, page_in};
ghost use Rattle.hy_joins.specs.of_nodes.Places.{IsSought};
ghost use Rattle.hy_trees.specs.Trees.{height_of};
ghost use Rattle.hy_joins.specs.of_nodes.Ways.{HasTree, LeadsTo};
ghost use Rattle.hy_index.specs.Searches.{found_in};
ghost use Rattle.hy_index.specs.Writes.{leaf_items};
ghost use Rattle.hy_joins.specs.of_nodes.Writes.{pages_of};
ghost use Rattle.hy_joins.specs.of_nodes.declared.key.TheConstants.{MAX_KEY_BYTES};

use hy_joins::hy_nodes::node::Sought;
use hy_joins::hy_nodes::{Tree, node};
use hy_space::Space;
use std::marker::Model;

/// How many pages look-ups have read.
#[derive(Debug, Drop)]
pub struct Reads {
    count: u64,
}

// Clauses see the number.
impl Model for Reads {
    ghost use Rattle.std.specs.Prelude.{ℕ};

    ghost Value = { ℕ };

    ghost view = { λ reads. reads.count };
}

impl Reads {
    /// No page.
    pub fn new() -> Reads
        ensures { result ≡ 0 }
    {
        Reads { count: 0 }
    }

    /// How many pages.
    pub fn count(&self) -> u64
        ensures { result ≡ self.now }
    {
        self.count
    }

    /// The bytes of a page, which is one page more.
    pub(crate) fn page<'a, const N: usize>(
        &mut self,
        space: &'a Space<N>,
        tree: Tree,
        page: u32,
    ) -> &'a [u8]
        requires { HasPage space.now tree.segment page }
        ensures bytes { result.now ≡ page_in space.now tree page }
        ensures size { length result.now ≡ N }
        ensures one { self.new ≤ self.old + 1 }
        ensures counted { self.old + 1 < 2 ^ 64 → self.new ≡ self.old + 1 }
    {
        self.count = self.count.saturating_add(1);
        tree.page(space, page)
    }
}

/// Where a key stands in a tree, or would stand: its leaf, and the place there.
#[derive(Clone, Copy)]
pub struct Position {
    pub leaf: u32,
    pub place: usize,
    pub is_there: bool,
}

/// The leaf in which a key stands, if it is there.
fn leaf_of<const N: usize>(tree: Tree, space: &Space<N>, key: &[u8], reads: &mut Reads) -> u32
    requires there { tree.segment < length space.now.owner }
    requires width { tree.key_bytes ≤ MAX_KEY_BYTES }
    requires key { length key.now ≡ tree.key_bytes }
    requires tree { HasTree N space.now tree }
    ensures leads { LeadsTo N space.now tree key.now 0 result }
    ensures count { reads.new ≤ reads.old + height_of (nodes_in space.now tree) + 1 }
    ensures counted { reads.old + (height_of (nodes_in space.now tree) + 1) < 2 ^ 64
        → reads.new ≡ reads.old + (height_of (nodes_in space.now tree) + 1) }
{
    space.sound();
    let mut page = 0;
    let mut depth = height_counted(tree, space, reads);
    while depth > 0 {
        let items = reads.page(space, tree, page);
        page = node::child(items, tree.key_bytes, node::child_place(items, key));
        depth -= 1;
    }
    page
}

/// How many pages stand above each leaf.
fn height_counted<const N: usize>(tree: Tree, space: &Space<N>, reads: &mut Reads) -> usize
    requires there { tree.segment < length space.now.owner }
    requires tree { HasTree N space.now tree }
    ensures height { result ≡ height_of (nodes_in space.now tree) }
    ensures one { reads.new ≤ reads.old + 1 }
    ensures counted { reads.old + 1 < 2 ^ 64 → reads.new ≡ reads.old + 1 }
{
    space.sound();
    node::height(reads.page(space, tree, 0))
}

/// Where a key stands, or would stand.
pub fn position_of<const N: usize>(
    tree: Tree,
    space: &Space<N>,
    key: &[u8],
    reads: &mut Reads,
) -> Position
    requires there { tree.segment < length space.now.owner }
    requires width { tree.key_bytes ≤ MAX_KEY_BYTES }
    requires key { length key.now ≡ tree.key_bytes }
    requires tree { HasTree N space.now tree }
    ensures leads { LeadsTo N space.now tree key.now 0 result.leaf }
    ensures sought { IsSought tree.key_bytes (page_in space.now tree result.leaf) key.now
        result.place result.is_there }
{
    let leaf = leaf_of(tree, space, key, reads);
    let sought = seek_in(tree, space, leaf, key, reads);
    Position {
        leaf,
        place: sought.place,
        is_there: sought.is_there,
    }
}

/// Where a key stands in its leaf, or would stand.
pub fn seek_in<const N: usize>(
    tree: Tree,
    space: &Space<N>,
    leaf: u32,
    key: &[u8],
    reads: &mut Reads,
) -> Sought
    requires there { tree.segment < length space.now.owner }
    requires width { tree.key_bytes ≤ MAX_KEY_BYTES }
    requires key { length key.now ≡ tree.key_bytes }
    requires tree { HasTree N space.now tree }
    requires leads { LeadsTo N space.now tree key.now 0 leaf }
    ensures sought { IsSought tree.key_bytes (page_in space.now tree leaf) key.now
        result.place result.is_there }
    ensures one { reads.new ≤ reads.old + 1 }
    ensures counted { reads.old + 1 < 2 ^ 64 → reads.new ≡ reads.old + 1 }
{
    space.sound();
    node::seek(reads.page(space, tree, leaf), key)
}

/// The slot of a key, if the key is there.
pub fn slot_of<const N: usize>(
    tree: Tree,
    space: &Space<N>,
    key: &[u8],
    reads: &mut Reads,
) -> Option<u64>
    requires there { tree.segment < length space.now.owner }
    requires width { tree.key_bytes ≤ MAX_KEY_BYTES }
    requires key { length key.now ≡ tree.key_bytes }
    requires tree { HasTree N space.now tree }
    ensures value { result ≡ found_in key.now (leaf_items tree.key_bytes (pages_of space.now tree.segment)) }
    ensures count { reads.new ≤ reads.old + height_of (nodes_in space.now tree) + 2 }
    ensures counted { reads.old + (height_of (nodes_in space.now tree) + 2) < 2 ^ 64
        → reads.new ≡ reads.old + (height_of (nodes_in space.now tree) + 2) }
{
    space.sound();
    let leaf = leaf_of(tree, space, key, reads);
    let items = reads.page(space, tree, leaf);
    let sought = node::seek(items, key);
    if sought.is_there {
        return Some(node::number(items, tree.key_bytes, sought.place));
    }
    None
}
