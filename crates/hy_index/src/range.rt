//! Entries in order: the first one from a key on, and those between two keys. The leaves have no links to one another: each
//! is found from the page above it, so that a split writes no further page.

ghost use Rattle.std.specs.Prelude.{◌≡◌, ℕ, ◌+◌, ◌<◌, ◌≤◌, ◌++◌, length, map, OnOk};
ghost use Rattle.std.specs.Option.{option_map};
ghost use Rattle.hy_trees.specs.Trees.{entries_under};
ghost use Rattle.hy_trees.specs.Searches.{between, first_from};
ghost use Rattle.hy_joins.specs.of_nodes.Nodes.{item_at, item_count, item_offset, items_of};
ghost use Rattle.hy_joins.specs.of_nodes.Places.{AreRising, HasItems};
ghost use Rattle.hy_joins.specs.of_nodes.Pages.{nodes_in};
ghost use Rattle.hy_index.specs.Parts.{IsPartAt};
ghost use Rattle.hy_index.specs.Writes.{entry_of};

use crate::key::{Entry, Key};
use hy_joins::hy_nodes::{Tree, node};
use hy_space::Space;
use std::alloc::AllocError;

/// The first entry under a page whose key isn't below another.
pub fn first_under<K: Key, const N: usize>(
    tree: Tree,
    space: &Space<N>,
    page: u32,
    depth: usize,
    key: &[u8],
) -> Option<Entry<K>>
    requires there { tree.segment < length space.now.owner }
    requires width { tree.key_bytes ≡ K.BYTES }
    requires key { length key.now ≡ tree.key_bytes }
    requires part { IsPartAt N space.now tree depth page }
    ensures { result ≡ option_map (entry_of K.key_of_bytes)
        (first_from key.now (entries_under (nodes_in space.now tree) depth page)) }
{
    space.sound();
    let items = tree.page(space, page);
    if depth == 0 {
        return first_in(items, key);
    }
    let place = node::child_place(items, key);
    let child = node::child(items, tree.key_bytes, place);
    let first = first_under(tree, space, child, depth - 1, key);
    if first.is_some() {
        return first;
    }
    if place + 1 == node::count(items) {
        return None;
    }
    let next = node::child(items, tree.key_bytes, place + 1);
    first_under(tree, space, next, depth - 1, key)
}

/// The first entry of a leaf whose key isn't below another.
fn first_in<K: Key>(items: &[u8], key: &[u8]) -> Option<Entry<K>>
    requires header { 8 ≤ length items.now }
    requires width { length key.now ≡ K.BYTES }
    requires within { HasItems K.BYTES items.now }
    requires rising { AreRising K.BYTES items.now (item_count items.now) }
    ensures { result ≡ option_map (entry_of K.key_of_bytes) (first_from key.now (items_of K.BYTES items.now)) }
{
    let sought = node::seek(items, key);
    if sought.place < node::count(items) {
        return Some(entry(items, sought.place));
    }
    None
}

/// The entry at a place of a leaf.
fn entry<K: Key>(items: &[u8], place: usize) -> Entry<K>
    requires within { item_offset K.BYTES (place + 1) ≤ length items.now }
    ensures { result ≡ entry_of K.key_of_bytes (item_at K.BYTES items.now place) }
{
    Entry {
        key: K::decode(node::key(items, K::BYTES, place)),
        slot: node::number(items, K::BYTES, place),
    }
}

/// Appends the entries under a page from one key on that are below another.
pub fn push_between<K: Key, const N: usize>(
    tree: Tree,
    space: &Space<N>,
    page: u32,
    depth: usize,
    low: &[u8],
    high: &[u8],
    entries: &mut Vec<Entry<K>>,
) -> Result<(), AllocError>
    requires there { tree.segment < length space.now.owner }
    requires width { tree.key_bytes ≡ K.BYTES }
    requires low { length low.now ≡ tree.key_bytes }
    requires high { length high.now ≡ tree.key_bytes }
    requires part { IsPartAt N space.now tree depth page }
    ensures { OnOk result (entries.new.items ≡ entries.old.items ++ map (entry_of K.key_of_bytes)
        (between low.now high.now (entries_under (nodes_in space.now tree) depth page))) }
{
    space.sound();
    let items = tree.page(space, page);
    if depth == 0 {
        return push_leaf(items, low, high, entries);
    }
    let start = node::child_place(items, low);
    let end = node::bound_from(items, high, start);
    for place in start..end {
        let child = node::child(items, tree.key_bytes, place);
        push_between(tree, space, child, depth - 1, low, high, entries)?;
    }
    Ok(())
}

/// Appends the entries of a leaf from one key on that are below another.
fn push_leaf<K: Key>(
    items: &[u8],
    low: &[u8],
    high: &[u8],
    entries: &mut Vec<Entry<K>>,
) -> Result<(), AllocError>
    requires header { 8 ≤ length items.now }
    requires low { length low.now ≡ K.BYTES }
    requires high { length high.now ≡ K.BYTES }
    requires within { HasItems K.BYTES items.now }
    requires rising { AreRising K.BYTES items.now (item_count items.now) }
    ensures { OnOk result (entries.new.items ≡ entries.old.items ++ map (entry_of K.key_of_bytes)
        (between low.now high.now (items_of K.BYTES items.now))) }
{
    let start = node::seek(items, low).place;
    let end = node::bound_from(items, high, start);
    for place in start..end {
        entries.push(entry(items, place))?;
    }
    Ok(())
}
