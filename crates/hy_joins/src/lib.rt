//! An item to spare, before a key is removed. Each page on the way from the root to the key's leaf that has as few items as
//! it may have gets some of a sibling, or is joined with it, the upper ones before the lower ones. That moves items, and
//! changes no entry.
#![tactic(auto)]

ghost use Rattle.std.specs.Prelude.{◌≡◌, ℕ, ◌+◌, ◌-◌, ◌/◌, ◌<◌, ◌≤◌, ◌⊎◌, List, length, suc, MatchOption, OnOk, IfOk, IsErrOf};
ghost use Rattle.hy_space.specs.Space.{page_count};
ghost use Rattle.hy_undo.specs.PrivatePages.{IsUndoLog};
ghost use Rattle.hy_undo.specs.Writes.{IsOutOfFrames};
ghost use Rattle.hy_trees.specs.Nodes.{capacity, least_items, node_at, with_key, with_node};
ghost use Rattle.hy_trees.specs.Trees.{height_of};
ghost use Rattle.hy_nodes.specs.Pages.{nodes_in};
ghost use Rattle.hy_nodes.specs.Ways.{HasTree, KeepsEntries, LeadsTo};
ghost use Rattle.hy_nodes.specs.Writes.{WritesSegment};
ghost use Rattle.hy_joins.specs.Pairs.{AtEach, HasChildToSpare, HasSpare, IsPage, IsPair, IsSmallRoot, IsWanting, IsWay, JoinsAt, LeadsOn, SharesLeft, SharesRight, child_at, items_at};

use hy_frames::Shortage;
use hy_nodes::{Tree, copied, node};
use hy_space::Space;
use hy_undo::Undo;

/// Two children of a page that stand side by side, and how many items each has.
#[derive(Clone, Copy)]
struct Pair {
    page: u32,
    left: usize,
    first: u32,
    second: u32,
    count: usize,
    more: usize,
}

/// The leaf of a key, with an item to spare, or the root.
pub fn make_spare<const N: usize>(
    tree: Tree,
    space: &mut Space<N>,
    undo: &mut Undo<N>,
    key: &[u8],
) -> Result<u32, Shortage>
    requires there { tree.segment < length space.old.owner }
    requires width { tree.key_bytes ≤ 48 }
    requires key { length key.now ≡ tree.key_bytes }
    requires tree { HasTree N space.old tree }
    requires undo_log { IsUndoLog N space.old undo.old }
    ensures writes { WritesSegment N tree.segment space.old space.new undo.old undo.new }
    ensures kept { OnOk result (KeepsEntries N tree space.old space.new 0) }
    ensures leaf { IfOk result (λ leaf. LeadsTo N space.new tree key.now 0 leaf
        × ((leaf ≡ 0) ⊎ (least_items N tree.key_bytes < length (node_at (nodes_in space.new tree) leaf).items))) }
    ensures pages { page_count space.new tree.segment ≡ page_count space.old tree.segment }
    ensures no_frame { IsErrOf result Shortage.NoFrame → IsOutOfFrames space.new }
{
    if let Some(pair) = small_root(tree, space) {
        lower_root(tree, space, undo, pair)?;
        return spare_below_root(tree, space, undo, key);
    }
    spare_below_root(tree, space, undo, key)
}

/// The root's two children, where their items fit in one page.
fn small_root<const N: usize>(tree: Tree, space: &Space<N>) -> Option<Pair>
    requires there { tree.segment < length space.now.owner }
    requires width { tree.key_bytes ≤ 48 }
    requires tree { HasTree N space.now tree }
    ensures { MatchOption result
        (HasSpare (least_items N tree.key_bytes) (capacity N tree.key_bytes) (nodes_in space.now tree)
        (height_of (nodes_in space.now tree)) 0)
        (λ pair. IsSmallRoot N space.now tree pair) }
{
    space.sound();
    if tree.height(space) == 0 {
        return None;
    }
    if tree.count(space, 0) > 2 {
        return None;
    }
    let pair = pair_at(tree, space, 0, 0);
    if pair.count + pair.more > tree.capacity::<N>() {
        return None;
    }
    Some(pair)
}

/// Two children of a page that stand side by side.
fn pair_at<const N: usize>(tree: Tree, space: &Space<N>, page: u32, left: usize) -> Pair
    requires there { tree.segment < length space.now.owner }
    requires width { tree.key_bytes ≤ 48 }
    requires tree { HasTree N space.now tree }
    requires leads { (key : List ℕ) × (depth : ℕ) × LeadsTo N space.now tree key (suc depth) page }
    requires within { left + 1 < length (items_at (nodes_in space.now tree) page) }
    ensures pair { IsPair N space.now tree result }
    ensures page { result.page ≡ page }
    ensures left { result.left ≡ left }
{
    space.sound();
    let first = tree.child(space, page, left);
    let second = tree.child(space, page, left + 1);
    let count = tree.count(space, first);
    let more = tree.count(space, second);
    Pair {
        page,
        left,
        first,
        second,
        count,
        more,
    }
}

/// Makes the items of the root's two children those of the root, and frees the children's pages.
fn lower_root<const N: usize>(
    tree: Tree,
    space: &mut Space<N>,
    undo: &mut Undo<N>,
    pair: Pair,
) -> Result<(), Shortage>
    requires width { tree.key_bytes ≤ 48 }
    requires tree { HasTree N space.old tree }
    requires root { IsSmallRoot N space.old tree pair }
    requires undo_log { IsUndoLog N space.old undo.old }
    ensures writes { WritesSegment N tree.segment space.old space.new undo.old undo.new }
    ensures kept { OnOk result (KeepsEntries N tree space.old space.new 0) }
    ensures spare { OnOk result (least_items N tree.key_bytes < length (items_at (nodes_in space.new tree) 0)) }
    ensures pages { page_count space.new tree.segment ≡ page_count space.old tree.segment }
    ensures no_frame { IsErrOf result Shortage.NoFrame → IsOutOfFrames space.new }
{
    space.sound();
    join(tree, space, undo, pair)?;
    tree.take_items(space, undo, 0, 0, 1)?;
    let count = tree.count(space, pair.first);
    tree.put_items(space, undo, pair.first, 0, count, 0, 0)?;
    let height = node::height(tree.page(space, 0));
    tree.write_height(space, undo, height - 1)?;
    tree.give_page(space, undo, pair.first)
}

/// The leaf of a key, with an item to spare, below a root that has one, or whose two children don't fit in one page.
fn spare_below_root<const N: usize>(
    tree: Tree,
    space: &mut Space<N>,
    undo: &mut Undo<N>,
    key: &[u8],
) -> Result<u32, Shortage>
    requires there { tree.segment < length space.old.owner }
    requires width { tree.key_bytes ≤ 48 }
    requires key { length key.now ≡ tree.key_bytes }
    requires tree { HasTree N space.old tree }
    requires spare { HasSpare (least_items N tree.key_bytes) (capacity N tree.key_bytes) (nodes_in space.old tree)
        (height_of (nodes_in space.old tree)) 0 }
    requires undo_log { IsUndoLog N space.old undo.old }
    ensures writes { WritesSegment N tree.segment space.old space.new undo.old undo.new }
    ensures kept { OnOk result (KeepsEntries N tree space.old space.new 0) }
    ensures leaf { IfOk result (λ leaf. LeadsTo N space.new tree key.now 0 leaf
        × ((leaf ≡ 0) ⊎ (least_items N tree.key_bytes < length (node_at (nodes_in space.new tree) leaf).items))) }
    ensures pages { page_count space.new tree.segment ≡ page_count space.old tree.segment }
    ensures no_frame { IsErrOf result Shortage.NoFrame → IsOutOfFrames space.new }
{
    let mut page = 0;
    let mut depth = tree.height(space);
    while depth > 0 {
        page = spare_child(tree, space, undo, page, depth, key)?;
        depth -= 1;
    }
    Ok(page)
}

/// The child of an inner page to which a key leads, with an item to spare.
fn spare_child<const N: usize>(
    tree: Tree,
    space: &mut Space<N>,
    undo: &mut Undo<N>,
    page: u32,
    depth: usize,
    key: &[u8],
) -> Result<u32, Shortage>
    requires there { tree.segment < length space.old.owner }
    requires width { tree.key_bytes ≤ 48 }
    requires key { length key.now ≡ tree.key_bytes }
    requires tree { HasTree N space.old tree }
    requires inner { 0 < depth }
    requires leads { LeadsTo N space.old tree key.now depth page }
    requires spare { HasSpare (least_items N tree.key_bytes) (capacity N tree.key_bytes) (nodes_in space.old tree)
        depth page }
    requires undo_log { IsUndoLog N space.old undo.old }
    ensures writes { WritesSegment N tree.segment space.old space.new undo.old undo.new }
    ensures kept { OnOk result (KeepsEntries N tree space.old space.new 0) }
    ensures leads { IfOk result (λ child. LeadsTo N space.new tree key.now (depth - 1) child) }
    ensures spare { IfOk result (λ child. HasSpare (least_items N tree.key_bytes) (capacity N tree.key_bytes)
        (nodes_in space.new tree) (depth - 1) child) }
    ensures pages { page_count space.new tree.segment ≡ page_count space.old tree.segment }
    ensures no_frame { IsErrOf result Shortage.NoFrame → IsOutOfFrames space.new }
{
    space.sound();
    let place = place_in(tree, space, page, depth, key);
    let child = tree.child(space, page, place);
    if tree.count(space, child) > tree.least::<N>() {
        return Ok(child);
    }
    let pair = pair_at(tree, space, page, place.saturating_sub(1));
    fill_child(tree, space, undo, pair, place)
}

/// The place of the child of an inner page on the way to a key.
fn place_in<const N: usize>(
    tree: Tree,
    space: &Space<N>,
    page: u32,
    depth: usize,
    key: &[u8],
) -> usize
    requires there { tree.segment < length space.now.owner }
    requires width { tree.key_bytes ≤ 48 }
    requires key { length key.now ≡ tree.key_bytes }
    requires tree { HasTree N space.now tree }
    requires leads { LeadsTo N space.now tree key.now depth page }
    requires inner { 0 < depth }
    ensures { IsWay (items_at (nodes_in space.now tree) page) key.now result }
{
    space.sound();
    node::child_place(tree.page(space, page), key)
}

/// Fills the child at a place, which has no item to spare, from a sibling, or joins both. Gives the child to which the key
/// leads then.
fn fill_child<const N: usize>(
    tree: Tree,
    space: &mut Space<N>,
    undo: &mut Undo<N>,
    pair: Pair,
    place: usize,
) -> Result<u32, Shortage>
    requires width { tree.key_bytes ≤ 48 }
    requires tree { HasTree N space.old tree }
    requires leads { (key : List ℕ) × (depth : ℕ) × LeadsOn N space.old tree key depth pair.page place }
    requires pair { IsPair N space.old tree pair }
    requires spare { HasChildToSpare (least_items N tree.key_bytes) (capacity N tree.key_bytes)
        (nodes_in space.old tree) pair.page }
    requires wanting { IsWanting (least_items N tree.key_bytes) pair place }
    requires undo_log { IsUndoLog N space.old undo.old }
    ensures writes { WritesSegment N tree.segment space.old space.new undo.old undo.new }
    ensures kept { OnOk result (KeepsEntries N tree space.old space.new 0) }
    ensures leads { IfOk result (λ child. (key : List ℕ) (depth : ℕ) → LeadsOn N space.old tree key depth pair.page place
        → LeadsTo N space.new tree key depth child) }
    ensures more { IfOk result (λ child. least_items N tree.key_bytes < length (items_at (nodes_in space.new tree) child)) }
    ensures pages { page_count space.new tree.segment ≡ page_count space.old tree.segment }
    ensures no_frame { IsErrOf result Shortage.NoFrame → IsOutOfFrames space.new }
{
    space.sound();
    if pair.count + pair.more <= tree.capacity::<N>() {
        join(tree, space, undo, pair)?;
        return Ok(pair.first);
    }
    if place == 0 {
        share_left(tree, space, undo, pair)?;
        return Ok(pair.first);
    }
    share_right(tree, space, undo, pair)?;
    Ok(pair.second)
}

/// Moves the items of the second of two children to the first one, and frees its page.
fn join<const N: usize>(
    tree: Tree,
    space: &mut Space<N>,
    undo: &mut Undo<N>,
    pair: Pair,
) -> Result<(), Shortage>
    requires width { tree.key_bytes ≤ 48 }
    requires pair { IsPair N space.old tree pair }
    requires fits { pair.count + pair.more ≤ capacity N tree.key_bytes }
    requires undo_log { IsUndoLog N space.old undo.old }
    ensures writes { WritesSegment N tree.segment space.old space.new undo.old undo.new }
    ensures joins { OnOk result (AtEach (nodes_in space.old tree) pair.page
        (λ free. JoinsAt (nodes_in space.old tree) (nodes_in space.new tree) free pair.page pair.left)) }
    ensures pages { page_count space.new tree.segment ≡ page_count space.old tree.segment }
    ensures no_frame { IsErrOf result Shortage.NoFrame → IsOutOfFrames space.new }
{
    space.sound();
    tree.put_items(
        space,
        undo,
        pair.second,
        0,
        pair.more,
        pair.first,
        pair.count,
    )?;
    tree.take_items(space, undo, pair.page, pair.left + 1, pair.left + 2)?;
    tree.give_page(space, undo, pair.second)
}

/// Moves half of the items that the second of two children has more than the first to the first one.
fn share_left<const N: usize>(
    tree: Tree,
    space: &mut Space<N>,
    undo: &mut Undo<N>,
    pair: Pair,
) -> Result<(), Shortage>
    requires width { tree.key_bytes ≤ 48 }
    requires pair { IsPair N space.old tree pair }
    requires less { pair.count < pair.more }
    requires undo_log { IsUndoLog N space.old undo.old }
    ensures writes { WritesSegment N tree.segment space.old space.new undo.old undo.new }
    ensures shares { OnOk result (AtEach (nodes_in space.old tree) pair.page
        (λ free. SharesLeft (nodes_in space.old tree) (nodes_in space.new tree) free pair.page pair.left
        ((pair.more - pair.count + 1) / 2))) }
    ensures pages { page_count space.new tree.segment ≡ page_count space.old tree.segment }
    ensures no_frame { IsErrOf result Shortage.NoFrame → IsOutOfFrames space.new }
{
    space.sound();
    let moved = (pair.more - pair.count).div_ceil(2);
    tree.put_items(space, undo, pair.second, 0, moved, pair.first, pair.count)?;
    tree.take_items(space, undo, pair.second, 0, moved)?;
    write_bound(tree, space, undo, pair)
}

/// Moves half of the items that the first of two children has more than the second to the second one.
fn share_right<const N: usize>(
    tree: Tree,
    space: &mut Space<N>,
    undo: &mut Undo<N>,
    pair: Pair,
) -> Result<(), Shortage>
    requires width { tree.key_bytes ≤ 48 }
    requires pair { IsPair N space.old tree pair }
    requires less { pair.more < pair.count }
    requires undo_log { IsUndoLog N space.old undo.old }
    ensures writes { WritesSegment N tree.segment space.old space.new undo.old undo.new }
    ensures shares { OnOk result (AtEach (nodes_in space.old tree) pair.page
        (λ free. SharesRight (nodes_in space.old tree) (nodes_in space.new tree) free pair.page pair.left
        (pair.count - (pair.count - pair.more + 1) / 2))) }
    ensures pages { page_count space.new tree.segment ≡ page_count space.old tree.segment }
    ensures no_frame { IsErrOf result Shortage.NoFrame → IsOutOfFrames space.new }
{
    space.sound();
    let start = pair.count - (pair.count - pair.more).div_ceil(2);
    tree.put_items(space, undo, pair.first, start, pair.count, pair.second, 0)?;
    tree.take_items(space, undo, pair.first, start, pair.count)?;
    write_bound(tree, space, undo, pair)
}

/// Makes the key of the second of two children that of its first item.
fn write_bound<const N: usize>(
    tree: Tree,
    space: &mut Space<N>,
    undo: &mut Undo<N>,
    pair: Pair,
) -> Result<(), Shortage>
    requires width { tree.key_bytes ≤ 48 }
    requires above { IsPage N space.old tree pair.page }
    requires child { IsPage N space.old tree pair.second }
    requires within { pair.left + 1 < length (items_at (nodes_in space.old tree) pair.page) }
    requires some { 0 < length (items_at (nodes_in space.old tree) pair.second) }
    requires undo_log { IsUndoLog N space.old undo.old }
    ensures writes { WritesSegment N tree.segment space.old space.new undo.old undo.new }
    ensures nodes { OnOk result (nodes_in space.new tree ≡ with_node (nodes_in space.old tree) pair.page
        (with_key (node_at (nodes_in space.old tree) pair.page) (pair.left + 1)
        (child_at (nodes_in space.old tree) pair.second 0).key)) }
    ensures pages { page_count space.new tree.segment ≡ page_count space.old tree.segment }
    ensures no_frame { IsErrOf result Shortage.NoFrame → IsOutOfFrames space.new }
{
    space.sound();
    let bound = copied(node::key(tree.page(space, pair.second), tree.key_bytes, 0));
    tree.write_key(space, undo, pair.page, pair.left + 1, bound.as_slice())
}

// what stands below, for the crates above
pub use hy_nodes;
