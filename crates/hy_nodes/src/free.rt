//! Pages that fell out of a tree and are used again before the segment grows. Page 0 names the first of them, and each
//! one the next; 0 is none. A free page has no items.

ghost use Rattle.std.specs.Prelude.{◌≡◌, ◌≢◌, ℕ, ◌+◌, ◌<◌, ◌≤◌, ◌⊎◌, ◌++◌, ◌∷◌, [], length, OnOk, OnErr, IfOk, IsErrOf};
ghost use Rattle.hy_frames.specs.FrameTable.{free_of};
ghost use Rattle.hy_space.specs.Space.{HasPage, page_count};
ghost use Rattle.hy_undo.specs.PrivatePages.{IsUndoLog};
ghost use Rattle.hy_undo.specs.Writes.{HasChild, IsOutOfFrames};
ghost use Rattle.hy_nodes.specs.Writes.{WritesSegment};
ghost use Rattle.hy_nodes.specs.Nodes.{item_count, item_offset};
ghost use Rattle.hy_trees.specs.Nodes.{TakesPage, no_node, node_at, with_free, with_next, with_node};
ghost use Rattle.hy_nodes.specs.Pages.{nodes_in, page_in};
ghost use Rattle.hy_nodes.specs.declared.key.TheConstants.{MAX_KEY_BYTES};

use crate::node;
use crate::pages::Tree;
use hy_frames::Shortage;
use hy_space::Space;
use hy_undo::Undo;

/// Where a page names the next free one.
const NEXT_OFFSET: usize = 4;

impl Tree {
    /// A page without items that isn't in the tree: the first free one, or one at the segment's end.
    pub fn take_page<const N: usize>(
        self,
        space: &mut Space<N>,
        undo: &mut Undo<N>,
    ) -> Result<u32, Shortage>
        requires root { HasPage space.old self.segment 0 }
        requires free { (node_at (nodes_in space.old self) 0).next < page_count space.old self.segment }
        requires undo_log { IsUndoLog N space.old undo.old }
        ensures writes { WritesSegment N self.segment space.old space.new undo.old undo.new }
        ensures taken { IfOk result (TakesPage (nodes_in space.old self) (nodes_in space.new self)) }
        ensures there { IfOk result (λ page. page < page_count space.new self.segment) }
        ensures pages { page_count space.new self.segment ≤ page_count space.old self.segment + 1 }
        ensures kept { (node_at (nodes_in space.old self) 0).next ≢ 0
            → page_count space.new self.segment ≡ page_count space.old self.segment }
        ensures err { OnErr result (page_count space.new self.segment ≡ page_count space.old self.segment) }
        ensures no_frame { IsErrOf result Shortage.NoFrame → free_of space.new.frames ≡ 0 }
        ensures wanted { IsErrOf result Shortage.NoFrame
            → HasChild space.new ⊎ ((node_at (nodes_in space.old self) 0).next ≡ 0) }
    {
        let first = self.next_free(space, 0);
        if first == 0 {
            return self.grow(space, undo);
        }
        let next = self.next_free(space, first);
        self.write_next(space, undo, 0, next)?;
        Ok(first)
    }

    /// A page behind all others.
    fn grow<const N: usize>(self, space: &mut Space<N>, undo: &Undo<N>) -> Result<u32, Shortage>
        requires there { self.segment < length space.old.owner }
        requires undo_log { IsUndoLog N space.old undo.now }
        ensures writes { WritesSegment N self.segment space.old space.new undo.now undo.now }
        ensures page { IfOk result (λ page. page ≡ length (nodes_in space.old self)) }
        ensures nodes { OnOk result (nodes_in space.new self ≡ nodes_in space.old self ++ no_node ∷ []) }
        ensures pages { OnOk result (page_count space.new self.segment ≡ page_count space.old self.segment + 1) }
        ensures err { OnErr result (space.new ≡ space.old) }
        ensures full { IsErrOf result Shortage.NoFrame → free_of space.old.frames ≡ 0 }
    {
        space.sound();
        undo.grow(space, self.segment)
    }

    /// Frees a page that fell out of the tree.
    pub fn give_page<const N: usize>(
        self,
        space: &mut Space<N>,
        undo: &mut Undo<N>,
        page: u32,
    ) -> Result<(), Shortage>
        requires width { self.key_bytes ≤ MAX_KEY_BYTES }
        requires root { HasPage space.old self.segment 0 }
        requires page { HasPage space.old self.segment page }
        requires differs { page ≢ 0 }
        requires items { item_offset self.key_bytes (item_count (page_in space.old self page)) ≤ N }
        requires undo_log { IsUndoLog N space.old undo.old }
        ensures writes { WritesSegment N self.segment space.old space.new undo.old undo.new }
        ensures nodes { OnOk result (nodes_in space.new self ≡ with_free (nodes_in space.old self) page) }
        ensures pages { page_count space.new self.segment ≡ page_count space.old self.segment }
        ensures no_frame { IsErrOf result Shortage.NoFrame → IsOutOfFrames space.new }
    {
        let first = self.next_free(space, 0);
        let count = self.count(space, page);
        self.take_items(space, undo, page, 0, count)?;
        self.write_next(space, undo, page, first)?;
        self.write_next(space, undo, 0, page)
    }

    /// The page that a page names as the next free one.
    fn next_free<const N: usize>(self, space: &Space<N>, page: u32) -> u32
        requires page { HasPage space.now self.segment page }
        ensures { result ≡ (node_at (nodes_in space.now self) page).next }
    {
        space.sound();
        node::next_free(self.page(space, page))
    }

    /// Makes a page name another one as the next free one.
    fn write_next<const N: usize>(
        self,
        space: &mut Space<N>,
        undo: &mut Undo<N>,
        page: u32,
        next: u32,
    ) -> Result<(), Shortage>
        requires page { HasPage space.old self.segment page }
        requires undo_log { IsUndoLog N space.old undo.old }
        ensures writes { WritesSegment N self.segment space.old space.new undo.old undo.new }
        ensures nodes { OnOk result (nodes_in space.new self ≡ with_node (nodes_in space.old self) page
            (with_next (node_at (nodes_in space.old self) page) next)) }
        ensures pages { page_count space.new self.segment ≡ page_count space.old self.segment }
        ensures no_frame { IsErrOf result Shortage.NoFrame → IsOutOfFrames space.new }
    {
        space.sound();
        let digits = next.to_le_bytes();
        self.write(space, undo, page, NEXT_OFFSET, &digits)
    }
}
