//! A page with several owners.

ghost use Rattle.std.specs.Prelude.{◌≡◌, ℕ, List, length, IfOk, IfErr};

use hy_page::Page;
use std::alloc::{AllocError, AllocFailed, Global};
use std::marker::Model;
use std::sync::Arc;

/// A page that can be shared, and that nobody changes while it is. The count of its owners stands apart from its bytes.
#[derive(Drop)]
pub struct Hold<const N: usize> {
    page: Arc<Box<Page<N>>>,
}

// Clauses see the bytes of the page.
impl<const N: usize> Model for Hold<N> {
    ghost use Rattle.std.specs.Prelude.{◌≡◌, ℕ, List, length};
    ghost use Rattle.std.specs.Arc.{arc_value};

    ghost Value = { List ℕ };

    ghost view = { λ hold. (arc_value hold.page).value };

    ghost invariant = { λ hold. length ((arc_value hold.page).value) ≡ N };
}

impl<const N: usize> Hold<N> {
    /// Makes a page one that can be shared, or gives it back where there is no memory. No byte of it is moved.
    pub(crate) fn new(
        alloc: Global,
        page: Box<Page<N>>,
    ) -> Result<Hold<N>, AllocFailed<Box<Page<N>>>>
        ensures ok { IfOk result (λ hold. hold ≡ page.entry.value) }
        ensures returned { IfErr result (λ failed. failed.value ≡ page.entry) }
    {
        let _bytes = page.bytes();
        match Arc::new(alloc, page) {
            Ok(page) => Ok(Hold { page }),
            Err(failed) => Err(failed),
        }
    }

    /// The page.
    pub fn page(&self) -> &Page<N>
        ensures bytes { result.now ≡ self.now }
        ensures size { length self.now ≡ N }
    {
        &self.page
    }

    /// What always holds of a hold: its page has `N` bytes.
    pub fn know_size(&self)
        ensures { length self.now ≡ N }
    {
        let _page = &self.page;
    }

    /// Another hold of the same page.
    pub(crate) fn try_clone(&self) -> Result<Hold<N>, AllocError>
        ensures { IfOk result (λ hold. hold ≡ self.now) }
    {
        let page = Arc::try_clone(&self.page)?;
        Ok(Hold { page })
    }

    /// The page, where this is its only hold, and otherwise the hold.
    pub(crate) fn into_page(self) -> Result<Box<Page<N>>, Hold<N>>
        ensures ok { IfOk result (λ page. page.value ≡ self.entry) }
        ensures shared { IfErr result (λ hold. hold ≡ self.entry) }
    {
        let Hold { page } = self;
        match Arc::try_unwrap(page) {
            Ok(page) => Ok(page),
            Err(page) => Err(Hold { page }),
        }
    }
}
