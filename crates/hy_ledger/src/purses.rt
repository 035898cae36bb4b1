//! Where purses come from.

ghost use Rattle.std.specs.Prelude.{◌≡◌, [], IfOk};
ghost use Rattle.std.specs.Arc.{arc_value};

use crate::accounts::Accounts;
use crate::purse::Purse;
use hy_worlds::World;
use std::alloc::{AllocError, Global};
use std::marker::PhantomData;
use std::sync::Arc;

/// Makes empty purses. All threads can share it.
#[derive(Drop)]
pub struct Purses<K: World> {
    pub(crate) accounts: Arc<Accounts, Global>,
    pub(crate) of: PhantomData<K>,
    ghost accounts_are: { arc_value accounts ≡ K.passes.accounts },
}

impl<K: World> Purses<K> {
    /// An empty purse. It is refused only where too many books and purses share the accounts. E1.
    pub fn purse(&self) -> Result<Purse<K>, AllocError>
        ensures { IfOk result (λ purse. purse.shares ≡ []) }
    {
        let accounts = Arc::try_clone(&self.accounts)?;
        let seat = self.accounts.admit();
        Ok(Purse {
            accounts,
            seat,
            commits: 0,
            cents: 0,
            of: PhantomData,
        })
    }
}
