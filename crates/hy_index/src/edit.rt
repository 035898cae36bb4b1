//! Changes of one leaf: an entry more, another slot, an entry less.

ghost use Rattle.std.specs.Prelude.{◌≡◌, ◌+◌, ◌<◌, ◌≤◌, ◌⊎◌, false, true, length, find, None, IsSome, OnOk, IsOk, IsErrOf};
ghost use Rattle.hy_frames.specs.FrameTable.{free_of};
ghost use Rattle.hy_space.specs.Space.{page_count};
ghost use Rattle.hy_undo.specs.PrivatePages.{IsUndoLog};
ghost use Rattle.hy_undo.specs.Writes.{HasChild, IsOutOfFrames};
ghost use Rattle.hy_trees.specs.Nodes.{capacity, least_items, node_at};
ghost use Rattle.hy_trees.specs.Trees.{height_of};
ghost use Rattle.hy_trees.specs.Searches.{is_at, with_item, without};
ghost use Rattle.hy_joins.specs.of_nodes.Nodes.{item_count};
ghost use Rattle.hy_joins.specs.of_nodes.Pages.{nodes_in, page_in};
ghost use Rattle.hy_joins.specs.of_nodes.Places.{IsSought};
ghost use Rattle.hy_joins.specs.of_nodes.Ways.{HasFewFree, HasTree, KeepsPages, LeadsTo, entries_in};
ghost use Rattle.hy_joins.specs.of_nodes.Writes.{WritesSegment};

use crate::search::{Position, Reads, position_of, seek_in};
use hy_frames::Shortage;
use hy_joins::hy_nodes::{Tree, item_of};
use hy_joins::make_spare;
use hy_space::Space;
use hy_splits::make_room;
use hy_undo::Undo;

/// Gives a key a slot, in the place of the one that it had.
pub fn insert<const N: usize>(
    tree: Tree,
    space: &mut Space<N>,
    undo: &mut Undo<N>,
    key: &[u8],
    slot: u64,
) -> Result<(), Shortage>
    requires there { tree.segment < length space.old.owner }
    requires width { tree.key_bytes ≤ 48 }
    requires key { length key.now ≡ tree.key_bytes }
    requires tree { HasTree N space.old tree }
    requires undo_log { IsUndoLog N space.old undo.old }
    ensures writes { WritesSegment N tree.segment space.old space.new undo.old undo.new }
    ensures tree { OnOk result (HasTree N space.new tree) }
    ensures entries { OnOk result (entries_in space.new tree ≡ with_item key.now slot (entries_in space.old tree)) }
    ensures pages { KeepsPages N tree space.old space.new }
    ensures replaces { IsSome (find (is_at key.now) (entries_in space.old tree))
        → page_count space.new tree.segment ≡ page_count space.old tree.segment }
    ensures no_frame { IsErrOf result Shortage.NoFrame → free_of space.new.frames ≡ 0 }
    ensures wanted { IsErrOf result Shortage.NoFrame → HasChild space.new
        ⊎ ((find (is_at key.now) (entries_in space.old tree) ≡ None)
        × (capacity N tree.key_bytes ≤ length (entries_in space.old tree))
        × HasFewFree tree space.old (height_of (nodes_in space.old tree) + 3)) }
{
    space.sound();
    let at = position_of(tree, space, key, &mut Reads::new());
    if at.is_there {
        return tree.write_number(space, undo, at.leaf, at.place, slot);
    }
    if tree.count(space, at.leaf) == tree.capacity::<N>() {
        return insert_by_splits(tree, space, undo, key, slot);
    }
    put_new(tree, space, undo, at.leaf, at.place, key, slot)
}

/// Gives a new key a slot, where its leaf is full.
fn insert_by_splits<const N: usize>(
    tree: Tree,
    space: &mut Space<N>,
    undo: &mut Undo<N>,
    key: &[u8],
    slot: u64,
) -> Result<(), Shortage>
    requires there { tree.segment < length space.old.owner }
    requires width { tree.key_bytes ≤ 48 }
    requires key { length key.now ≡ tree.key_bytes }
    requires tree { HasTree N space.old tree }
    requires absent { find (is_at key.now) (entries_in space.old tree) ≡ None }
    requires undo_log { IsUndoLog N space.old undo.old }
    ensures writes { WritesSegment N tree.segment space.old space.new undo.old undo.new }
    ensures tree { OnOk result (HasTree N space.new tree) }
    ensures entries { OnOk result (entries_in space.new tree ≡ with_item key.now slot (entries_in space.old tree)) }
    ensures pages { KeepsPages N tree space.old space.new }
    ensures no_frame { IsErrOf result Shortage.NoFrame → free_of space.new.frames ≡ 0 }
    ensures wanted { IsErrOf result Shortage.NoFrame → HasChild space.new
        ⊎ HasFewFree tree space.old (height_of (nodes_in space.old tree) + 3) }
{
    let leaf = make_room(tree, space, undo, key)?;
    space.sound();
    let place = seek_in(tree, space, leaf, key, &mut Reads::new()).place;
    put_new(tree, space, undo, leaf, place, key, slot)
}

/// Gives a new key a slot, where its leaf has room.
fn put_new<const N: usize>(
    tree: Tree,
    space: &mut Space<N>,
    undo: &mut Undo<N>,
    leaf: u32,
    place: usize,
    key: &[u8],
    slot: u64,
) -> Result<(), Shortage>
    requires there { tree.segment < length space.old.owner }
    requires width { tree.key_bytes ≤ 48 }
    requires key { length key.now ≡ tree.key_bytes }
    requires tree { HasTree N space.old tree }
    requires leads { LeadsTo N space.old tree key.now 0 leaf }
    requires sought { IsSought tree.key_bytes (page_in space.old tree leaf) key.now place false }
    requires room { length (node_at (nodes_in space.old tree) leaf).items < capacity N tree.key_bytes }
    requires undo_log { IsUndoLog N space.old undo.old }
    ensures writes { WritesSegment N tree.segment space.old space.new undo.old undo.new }
    ensures tree { OnOk result (HasTree N space.new tree) }
    ensures entries { OnOk result (entries_in space.new tree ≡ with_item key.now slot (entries_in space.old tree)) }
    ensures pages { page_count space.new tree.segment ≡ page_count space.old tree.segment }
    ensures no_frame { IsErrOf result Shortage.NoFrame → IsOutOfFrames space.new }
{
    space.sound();
    let item = item_of(key, slot);
    tree.put_item(space, undo, leaf, place, item.as_slice())
}

/// Takes a key's entry away, if it has one.
pub fn remove<const N: usize>(
    tree: Tree,
    space: &mut Space<N>,
    undo: &mut Undo<N>,
    key: &[u8],
) -> Result<(), Shortage>
    requires there { tree.segment < length space.old.owner }
    requires width { tree.key_bytes ≤ 48 }
    requires key { length key.now ≡ tree.key_bytes }
    requires tree { HasTree N space.old tree }
    requires undo_log { IsUndoLog N space.old undo.old }
    ensures writes { WritesSegment N tree.segment space.old space.new undo.old undo.new }
    ensures tree { OnOk result (HasTree N space.new tree) }
    ensures entries { OnOk result (entries_in space.new tree ≡ without key.now (entries_in space.old tree)) }
    ensures absent { find (is_at key.now) (entries_in space.old tree) ≡ None
        → IsOk result × (space.new ≡ space.old) × (undo.new ≡ undo.old) }
    ensures pages { page_count space.new tree.segment ≡ page_count space.old tree.segment }
    ensures no_frame { IsErrOf result Shortage.NoFrame → IsOutOfFrames space.new }
{
    space.sound();
    let at = position_of(tree, space, key, &mut Reads::new());
    if at.is_there {
        return remove_there(tree, space, undo, at, key);
    }
    Ok(())
}

/// Takes the entry of a key away, which is there.
fn remove_there<const N: usize>(
    tree: Tree,
    space: &mut Space<N>,
    undo: &mut Undo<N>,
    at: Position,
    key: &[u8],
) -> Result<(), Shortage>
    requires there { tree.segment < length space.old.owner }
    requires width { tree.key_bytes ≤ 48 }
    requires key { length key.now ≡ tree.key_bytes }
    requires tree { HasTree N space.old tree }
    requires leads { LeadsTo N space.old tree key.now 0 at.leaf }
    requires sought { IsSought tree.key_bytes (page_in space.old tree at.leaf) key.now at.place true }
    requires found { IsSome (find (is_at key.now) (entries_in space.old tree)) }
    requires undo_log { IsUndoLog N space.old undo.old }
    ensures writes { WritesSegment N tree.segment space.old space.new undo.old undo.new }
    ensures tree { OnOk result (HasTree N space.new tree) }
    ensures entries { OnOk result (entries_in space.new tree ≡ without key.now (entries_in space.old tree)) }
    ensures pages { page_count space.new tree.segment ≡ page_count space.old tree.segment }
    ensures no_frame { IsErrOf result Shortage.NoFrame → IsOutOfFrames space.new }
{
    space.sound();
    if at.leaf == 0 || tree.count(space, at.leaf) > tree.least::<N>() {
        return take_there(tree, space, undo, at.leaf, at.place, key);
    }
    remove_by_joins(tree, space, undo, key)
}

/// Takes the entry of a key away, where its leaf has none to spare.
fn remove_by_joins<const N: usize>(
    tree: Tree,
    space: &mut Space<N>,
    undo: &mut Undo<N>,
    key: &[u8],
) -> Result<(), Shortage>
    requires there { tree.segment < length space.old.owner }
    requires width { tree.key_bytes ≤ 48 }
    requires key { length key.now ≡ tree.key_bytes }
    requires tree { HasTree N space.old tree }
    requires found { IsSome (find (is_at key.now) (entries_in space.old tree)) }
    requires undo_log { IsUndoLog N space.old undo.old }
    ensures writes { WritesSegment N tree.segment space.old space.new undo.old undo.new }
    ensures tree { OnOk result (HasTree N space.new tree) }
    ensures entries { OnOk result (entries_in space.new tree ≡ without key.now (entries_in space.old tree)) }
    ensures pages { page_count space.new tree.segment ≡ page_count space.old tree.segment }
    ensures no_frame { IsErrOf result Shortage.NoFrame → IsOutOfFrames space.new }
{
    let leaf = make_spare(tree, space, undo, key)?;
    space.sound();
    let place = seek_in(tree, space, leaf, key, &mut Reads::new()).place;
    take_there(tree, space, undo, leaf, place, key)
}

/// Takes the entry of a key out of its leaf, which is the root or has an item to spare.
fn take_there<const N: usize>(
    tree: Tree,
    space: &mut Space<N>,
    undo: &mut Undo<N>,
    leaf: u32,
    place: usize,
    key: &[u8],
) -> Result<(), Shortage>
    requires there { tree.segment < length space.old.owner }
    requires width { tree.key_bytes ≤ 48 }
    requires key { length key.now ≡ tree.key_bytes }
    requires tree { HasTree N space.old tree }
    requires leads { LeadsTo N space.old tree key.now 0 leaf }
    requires sought { IsSought tree.key_bytes (page_in space.old tree leaf) key.now place true }
    requires spare { (leaf ≡ 0) ⊎ (least_items N tree.key_bytes < length (node_at (nodes_in space.old tree) leaf).items) }
    requires undo_log { IsUndoLog N space.old undo.old }
    ensures writes { WritesSegment N tree.segment space.old space.new undo.old undo.new }
    ensures tree { OnOk result (HasTree N space.new tree) }
    ensures entries { OnOk result (entries_in space.new tree ≡ without key.now (entries_in space.old tree)) }
    ensures pages { page_count space.new tree.segment ≡ page_count space.old tree.segment }
    ensures no_frame { IsErrOf result Shortage.NoFrame → IsOutOfFrames space.new }
{
    space.sound();
    tree.take_items(space, undo, leaf, place, place + 1)
}
