//! What audits of all books say together.

ghost use Rattle.std.specs.Prelude.{List, length, All};
ghost use Rattle.hy_ledger.specs.declared.view.ShareState.{ShareState};
ghost use Rattle.hy_ledger.specs.Books.{totals_of, totals_of_books, AreBooksFrom, Audits, BookState, IsCovered, IsWarehouse};

/// Where the books of warehouses 1 to the last were each audited beside the same shares, of these warehouses alone, all
/// shares together are covered by all books together.
pub fn audited_purses_are_covered()
    ensures { (books : List BookState) (shares : List ShareState) → AreBooksFrom 1 books → All (λ share. IsWarehouse (length books) share.warehouse) shares → All (λ book. Audits book shares) books → IsCovered (totals_of shares) (totals_of_books books) }
{}
