//! The least and the greatest number by key, and how many there are.

ghost use Rattle.std.specs.Prelude.{◌≡◌, ◌<◌, ◌^◌, IfOk};

use indexmap::IndexMap;
use std::alloc::{AllocError, Global};
use std::hash::Hash;

/// How many numbers there are, the least and the greatest of them; all 0 where there is none.
#[derive(Clone, Copy)]
pub struct Numbers {
    pub count: u64,
    pub least: u32,
    pub greatest: u32,
}

impl Numbers {
    ghost use Rattle.hy_conditions.specs.Numbers.{with_number};

    /// One number more.
    pub fn with_number(self, number: u32) -> Numbers
        requires { self.count < 2 ^ 63 }
        ensures { result ≡ with_number self number }
    {
        Numbers {
            count: self.count + 1,
            least: if self.count == 0 {
                number
            } else {
                self.least.min(number)
            },
            greatest: self.greatest.max(number),
        }
    }
}

ghost use Rattle.hy_conditions.specs.Groups.{values_of};
ghost use Rattle.hy_conditions.specs.Numbers.{numbers_at, numbers_of};

/// For each key the numbers that stand with it.
pub fn numbers_by_key<K: Copy + Eq + Hash>(
    alloc: Global,
    entries: &[(K, u32)],
) -> Result<IndexMap<K, Numbers>, AllocError>
    ensures { IfOk result
        (λ groups. (key : K) → numbers_at K.eq groups key ≡ numbers_of (values_of K.eq key entries.now)) }
{
    let mut groups = IndexMap::new(alloc);
    for entry in entries {
        let (key, number) = *entry;
        let numbers = numbers_at(&groups, key).with_number(number);
        groups.insert(key, numbers)?;
    }
    Ok(groups)
}

/// The numbers that stand with a key.
pub fn numbers_at<K: Copy + Eq + Hash>(groups: &IndexMap<K, Numbers>, key: K) -> Numbers
    ensures { result ≡ numbers_at K.eq groups.now key }
{
    groups.get(&key).copied().unwrap_or(Numbers {
        count: 0,
        least: 0,
        greatest: 0,
    })
}
