//! Room for a new key. Each full page on the way from the root to the key's leaf is split, the upper ones before the lower
//! ones, so that each half has room in its parent. A split moves items, and changes no entry.
#![tactic(auto)]

ghost use Rattle.std.specs.Prelude.{◌≡◌, ◌≢◌, ℕ, ◌+◌, ◌-◌, ◌<◌, ◌≤◌, ◌⊎◌, ◌∷◌, ◌↔◌, [], IsTrue, length, max, min, replicate, OnOk, IfOk, IsErrOf};
ghost use Rattle.hy_frames.specs.FrameTable.{free_of};
ghost use Rattle.hy_space.specs.Space.{HasPage, page_count};
ghost use Rattle.hy_undo.specs.PrivatePages.{IsUndoLog};
ghost use Rattle.hy_undo.specs.Writes.{HasChild, IsOutOfFrames};
ghost use Rattle.hy_trees.specs.Nodes.{capacity, least_items, node_at, with_more};
ghost use Rattle.hy_trees.specs.Trees.{height_of};
ghost use Rattle.hy_trees.specs.Groups.{SetsItems};
ghost use Rattle.hy_nodes.specs.Pages.{nodes_in};
ghost use Rattle.hy_nodes.specs.Ways.{HasFewFree, HasTree, KeepsEntries, KeepsPages, LeadsTo};
ghost use Rattle.hy_nodes.specs.Writes.{WritesSegment};
ghost use Rattle.hy_splits.specs.Splits.{HasFree, IsFullChild, MovesItems, MovesOut, RaisesRoot, SplitsChild};

use hy_frames::Shortage;
use hy_nodes::{MAX_KEY_BYTES, Tree, copied, item_of, node};
use hy_space::Space;
use hy_undo::Undo;

/// The bytes of the key in front of which no key stands.
const LEAST_KEY: [u8; MAX_KEY_BYTES] = [0; MAX_KEY_BYTES];

/// The leaf of a key, with room for another item.
pub fn make_room<const N: usize>(
    tree: Tree,
    space: &mut Space<N>,
    undo: &mut Undo<N>,
    key: &[u8],
) -> Result<u32, Shortage>
    requires there { tree.segment < length space.old.owner }
    requires width { tree.key_bytes ≤ 48 }
    requires key { length key.now ≡ tree.key_bytes }
    requires tree { HasTree N space.old tree }
    requires undo_log { IsUndoLog N space.old undo.old }
    ensures writes { WritesSegment N tree.segment space.old space.new undo.old undo.new }
    ensures kept { OnOk result (KeepsEntries N tree space.old space.new (height_of (nodes_in space.old tree) + 3)) }
    ensures leaf { IfOk result (λ leaf. LeadsTo N space.new tree key.now 0 leaf
        × (length (node_at (nodes_in space.new tree) leaf).items < capacity N tree.key_bytes)) }
    ensures pages { KeepsPages N tree space.old space.new }
    ensures no_frame { IsErrOf result Shortage.NoFrame → free_of space.new.frames ≡ 0 }
    ensures wanted { IsErrOf result Shortage.NoFrame → HasChild space.new
        ⊎ HasFewFree tree space.old (height_of (nodes_in space.old tree) + 3) }
{
    space.sound();
    if is_full(tree, space, 0) {
        split_root(tree, space, undo, key)?;
        return room_below(tree, space, undo, key);
    }
    room_below(tree, space, undo, key)
}

/// The leaf of a key, with room for another item, where the root has room.
fn room_below<const N: usize>(
    tree: Tree,
    space: &mut Space<N>,
    undo: &mut Undo<N>,
    key: &[u8],
) -> Result<u32, Shortage>
    requires there { tree.segment < length space.old.owner }
    requires width { tree.key_bytes ≤ 48 }
    requires key { length key.now ≡ tree.key_bytes }
    requires tree { HasTree N space.old tree }
    requires room { length (node_at (nodes_in space.old tree) 0).items < capacity N tree.key_bytes }
    requires undo_log { IsUndoLog N space.old undo.old }
    ensures writes { WritesSegment N tree.segment space.old space.new undo.old undo.new }
    ensures kept { OnOk result (KeepsEntries N tree space.old space.new (height_of (nodes_in space.old tree))) }
    ensures leaf { IfOk result (λ leaf. LeadsTo N space.new tree key.now 0 leaf
        × (length (node_at (nodes_in space.new tree) leaf).items < capacity N tree.key_bytes)) }
    ensures pages { KeepsPages N tree space.old space.new }
    ensures no_frame { IsErrOf result Shortage.NoFrame → free_of space.new.frames ≡ 0 }
    ensures wanted { IsErrOf result Shortage.NoFrame → HasChild space.new
        ⊎ HasFewFree tree space.old (height_of (nodes_in space.old tree)) }
{
    let mut page = 0;
    let mut depth = tree.height(space);
    while depth > 0 {
        page = next_page(tree, space, undo, page, depth, key)?;
        depth -= 1;
    }
    Ok(page)
}

/// The next page on the way to a key, with room for another item, below a page that has room.
fn next_page<const N: usize>(
    tree: Tree,
    space: &mut Space<N>,
    undo: &mut Undo<N>,
    page: u32,
    depth: usize,
    key: &[u8],
) -> Result<u32, Shortage>
    requires there { tree.segment < length space.old.owner }
    requires width { tree.key_bytes ≤ 48 }
    requires key { length key.now ≡ tree.key_bytes }
    requires tree { HasTree N space.old tree }
    requires inner { 0 < depth }
    requires leads { LeadsTo N space.old tree key.now depth page }
    requires room { length (node_at (nodes_in space.old tree) page).items < capacity N tree.key_bytes }
    requires undo_log { IsUndoLog N space.old undo.old }
    ensures writes { WritesSegment N tree.segment space.old space.new undo.old undo.new }
    ensures kept { OnOk result (KeepsEntries N tree space.old space.new 1) }
    ensures next { IfOk result (λ next. LeadsTo N space.new tree key.now (depth - 1) next
        × (length (node_at (nodes_in space.new tree) next).items < capacity N tree.key_bytes)) }
    ensures pages { KeepsPages N tree space.old space.new }
    ensures no_frame { IsErrOf result Shortage.NoFrame → free_of space.new.frames ≡ 0 }
    ensures wanted { IsErrOf result Shortage.NoFrame → HasChild space.new ⊎ HasFewFree tree space.old 0 }
{
    space.sound();
    let place = node::child_place(tree.page(space, page), key);
    let child = tree.child(space, page, place);
    if is_full(tree, space, child) {
        return split_child(tree, space, undo, page, place, key);
    }
    Ok(child)
}

/// Whether a page has no room for another item.
fn is_full<const N: usize>(tree: Tree, space: &Space<N>, page: u32) -> bool
    requires width { tree.key_bytes ≤ 48 }
    requires page { HasPage space.now tree.segment page }
    ensures { IsTrue result
        ↔ length (node_at (nodes_in space.now tree) page).items ≡ capacity N tree.key_bytes }
{
    space.sound();
    tree.count(space, page) == tree.capacity::<N>()
}

/// Splits a full root, which becomes the parent of both halves.
fn split_root<const N: usize>(
    tree: Tree,
    space: &mut Space<N>,
    undo: &mut Undo<N>,
    key: &[u8],
) -> Result<(), Shortage>
    requires there { tree.segment < length space.old.owner }
    requires width { tree.key_bytes ≤ 48 }
    requires key { length key.now ≡ tree.key_bytes }
    requires tree { HasTree N space.old tree }
    requires full { length (node_at (nodes_in space.old tree) 0).items ≡ capacity N tree.key_bytes }
    requires undo_log { IsUndoLog N space.old undo.old }
    ensures writes { WritesSegment N tree.segment space.old space.new undo.old undo.new }
    ensures kept { OnOk result (KeepsEntries N tree space.old space.new 2) }
    ensures height { OnOk result (height_of (nodes_in space.new tree) ≡ height_of (nodes_in space.old tree) + 1) }
    ensures room { OnOk result (length (node_at (nodes_in space.new tree) 0).items < capacity N tree.key_bytes) }
    ensures pages { KeepsPages N tree space.old space.new }
    ensures no_frame { IsErrOf result Shortage.NoFrame → free_of space.new.frames ≡ 0 }
    ensures wanted { IsErrOf result Shortage.NoFrame → HasChild space.new ⊎ HasFewFree tree space.old 2 }
{
    space.sound();
    raise_root(tree, space, undo)?;
    split_child(tree, space, undo, 0, 0, key)?;
    Ok(())
}

/// Moves all items of the root to a page that becomes its only child.
fn raise_root<const N: usize>(
    tree: Tree,
    space: &mut Space<N>,
    undo: &mut Undo<N>,
) -> Result<(), Shortage>
    requires there { tree.segment < length space.old.owner }
    requires width { tree.key_bytes ≤ 48 }
    requires free { HasFree (nodes_in space.old tree) 0 }
    requires fits { length (node_at (nodes_in space.old tree) 0).items ≤ capacity N tree.key_bytes }
    requires height { height_of (nodes_in space.old tree) < 65535 }
    requires undo_log { IsUndoLog N space.old undo.old }
    ensures writes { WritesSegment N tree.segment space.old space.new undo.old undo.new }
    ensures raised { OnOk result (RaisesRoot (nodes_in space.old tree) (nodes_in space.new tree)
        (replicate tree.key_bytes 0)) }
    ensures pages { page_count space.new tree.segment ≤ page_count space.old tree.segment + 1 }
    ensures kept { (node_at (nodes_in space.old tree) 0).next ≢ 0
        → page_count space.new tree.segment ≡ page_count space.old tree.segment }
    ensures no_frame { IsErrOf result Shortage.NoFrame → free_of space.new.frames ≡ 0 }
    ensures wanted { IsErrOf result Shortage.NoFrame
        → HasChild space.new ⊎ ((node_at (nodes_in space.old tree) 0).next ≡ 0) }
{
    space.sound();
    let child = move_out(tree, space, undo, 0, 0)?;
    let whole = &LEAST_KEY[..];
    put_child(tree, space, undo, 0, 0, &whole[..tree.key_bytes], child)?;
    let height = tree.height(space);
    tree.write_height(space, undo, height + 1)
}

/// Splits a full child in two where a key would stand, as far as both halves stay filled enough: rising keys leave full
/// pages behind, also where others stand behind them. Gives the half to which the key leads.
fn split_child<const N: usize>(
    tree: Tree,
    space: &mut Space<N>,
    undo: &mut Undo<N>,
    page: u32,
    place: usize,
    key: &[u8],
) -> Result<u32, Shortage>
    requires there { tree.segment < length space.old.owner }
    requires width { tree.key_bytes ≤ 48 }
    requires key { length key.now ≡ tree.key_bytes }
    requires full { IsFullChild (capacity N tree.key_bytes) (nodes_in space.old tree) page place }
    requires undo_log { IsUndoLog N space.old undo.old }
    ensures writes { WritesSegment N tree.segment space.old space.new undo.old undo.new }
    ensures split { IfOk result (SplitsChild (least_items N tree.key_bytes) (capacity N tree.key_bytes)
        (nodes_in space.old tree) (nodes_in space.new tree) key.now page place) }
    ensures pages { page_count space.new tree.segment ≤ page_count space.old tree.segment + 1 }
    ensures kept { (node_at (nodes_in space.old tree) 0).next ≢ 0
        → page_count space.new tree.segment ≡ page_count space.old tree.segment }
    ensures no_frame { IsErrOf result Shortage.NoFrame → free_of space.new.frames ≡ 0 }
    ensures wanted { IsErrOf result Shortage.NoFrame
        → HasChild space.new ⊎ ((node_at (nodes_in space.old tree) 0).next ≡ 0) }
{
    space.sound();
    let child = tree.child(space, page, place);
    let at = split_place::<N>(tree, node::seek(tree.page(space, child), key).place);
    let right = move_out(tree, space, undo, child, at)?;
    let least = copied(node::key(tree.page(space, right), tree.key_bytes, 0));
    put_child(tree, space, undo, page, place + 1, least.as_slice(), right)?;
    if key.cmp(least.as_slice()).is_lt() {
        return Ok(child);
    }
    Ok(right)
}

/// How many items of a full page stay in it, where it is split for a key that would stand at a place.
fn split_place<const N: usize>(tree: Tree, place: usize) -> usize
    requires width { tree.key_bytes ≤ 48 }
    requires size { 256 ≤ N }
    ensures { result ≡ min (max place (least_items N tree.key_bytes))
        (capacity N tree.key_bytes - least_items N tree.key_bytes) }
{
    let least = tree.least::<N>();
    place.max(least).min(tree.capacity::<N>() - least)
}

/// Moves the items of a page from a place on to a page that is taken for them.
fn move_out<const N: usize>(
    tree: Tree,
    space: &mut Space<N>,
    undo: &mut Undo<N>,
    page: u32,
    place: usize,
) -> Result<u32, Shortage>
    requires there { tree.segment < length space.old.owner }
    requires width { tree.key_bytes ≤ 48 }
    requires free { HasFree (nodes_in space.old tree) page }
    requires place { place ≤ length (node_at (nodes_in space.old tree) page).items }
    requires fits { length (node_at (nodes_in space.old tree) page).items ≤ capacity N tree.key_bytes }
    requires undo_log { IsUndoLog N space.old undo.old }
    ensures writes { WritesSegment N tree.segment space.old space.new undo.old undo.new }
    ensures moved { IfOk result (MovesOut (nodes_in space.old tree) (nodes_in space.new tree) page place) }
    ensures there { IfOk result (λ right. right < page_count space.new tree.segment) }
    ensures pages { page_count space.new tree.segment ≤ page_count space.old tree.segment + 1 }
    ensures kept { (node_at (nodes_in space.old tree) 0).next ≢ 0
        → page_count space.new tree.segment ≡ page_count space.old tree.segment }
    ensures no_frame { IsErrOf result Shortage.NoFrame → free_of space.new.frames ≡ 0 }
    ensures wanted { IsErrOf result Shortage.NoFrame
        → HasChild space.new ⊎ ((node_at (nodes_in space.old tree) 0).next ≡ 0) }
{
    space.sound();
    let right = tree.take_page(space, undo)?;
    move_behind(tree, space, undo, page, place, right)?;
    Ok(right)
}

/// Moves the items of a page from a place on to another page, which has none.
fn move_behind<const N: usize>(
    tree: Tree,
    space: &mut Space<N>,
    undo: &mut Undo<N>,
    page: u32,
    place: usize,
    right: u32,
) -> Result<(), Shortage>
    requires width { tree.key_bytes ≤ 48 }
    requires page { HasPage space.old tree.segment page }
    requires right { HasPage space.old tree.segment right }
    requires differs { page ≢ right }
    requires place { place ≤ length (node_at (nodes_in space.old tree) page).items }
    requires fits { length (node_at (nodes_in space.old tree) page).items ≤ capacity N tree.key_bytes }
    requires empty { length (node_at (nodes_in space.old tree) right).items ≡ 0 }
    requires undo_log { IsUndoLog N space.old undo.old }
    ensures writes { WritesSegment N tree.segment space.old space.new undo.old undo.new }
    ensures moved { OnOk result (MovesItems (nodes_in space.old tree) (nodes_in space.new tree) page place right) }
    ensures pages { page_count space.new tree.segment ≡ page_count space.old tree.segment }
    ensures no_frame { IsErrOf result Shortage.NoFrame → IsOutOfFrames space.new }
{
    space.sound();
    let count = tree.count(space, page);
    tree.put_items(space, undo, page, place, count, right, 0)?;
    tree.take_items(space, undo, page, place, count)
}

/// Puts the item of a child into a page that has room for it, before the one at a place.
fn put_child<const N: usize>(
    tree: Tree,
    space: &mut Space<N>,
    undo: &mut Undo<N>,
    page: u32,
    place: usize,
    key: &[u8],
    child: u32,
) -> Result<(), Shortage>
    requires width { tree.key_bytes ≤ 48 }
    requires key { length key.now ≡ tree.key_bytes }
    requires page { HasPage space.old tree.segment page }
    requires place { place ≤ length (node_at (nodes_in space.old tree) page).items }
    requires room { length (node_at (nodes_in space.old tree) page).items < capacity N tree.key_bytes }
    requires undo_log { IsUndoLog N space.old undo.old }
    ensures writes { WritesSegment N tree.segment space.old space.new undo.old undo.new }
    ensures put { OnOk result (SetsItems (nodes_in space.old tree) (nodes_in space.new tree) page
        (with_more (node_at (nodes_in space.old tree) page) place (record { key = key.now; number = child } ∷ [])).items) }
    ensures pages { page_count space.new tree.segment ≡ page_count space.old tree.segment }
    ensures no_frame { IsErrOf result Shortage.NoFrame → IsOutOfFrames space.new }
{
    space.sound();
    let item = item_of(key, u64::from(child));
    tree.put_item(space, undo, page, place, item.as_slice())
}
