//! Sums of amounts by key.

ghost use Rattle.std.specs.Prelude.{◌≡◌, ℕ, true, IfOk, OnOk};
ghost use Rattle.hy_conditions.specs.Groups.{IsSmall, sum_at, total, values_of};
ghost use Rattle.hy_conditions.specs.Runs.{IsSumOf, sum_with};

use indexmap::IndexMap;
use std::alloc::{AllocError, Global};
use std::hash::Hash;

/// Entries with one key that follow one another: the key, and the sum of their amounts.
#[derive(Clone, Copy)]
struct Run<K> {
    key: K,
    sum: i128,
}

/// Puts the sum of a run to what stands with its key. A sum of 0 is there without.
fn put_run<K: Copy + Eq + Hash>(sums: &mut IndexMap<K, i128>, run: Run<K>) -> Result<(), AllocError>
    requires fits { IsSmall (sum_with K.eq sums.old run run.key) }
    ensures { OnOk result ((key : K) → sum_at K.eq sums.new key ≡ sum_with K.eq sums.old run key) }
{
    if run.sum == 0 {
        return Ok(());
    }
    if let Some(earlier) = sums.insert(run.key, run.sum)? {
        sums.insert(run.key, earlier + run.sum)?;
    }
    Ok(())
}

/// The run to which entries with a key belong: this one or, once it is put away, a new one.
fn run_for<K: Copy + Eq + Hash>(
    sums: &mut IndexMap<K, i128>,
    run: Run<K>,
    key: K,
) -> Result<Run<K>, AllocError>
    requires fits { IsSmall (sum_with K.eq sums.old run run.key) }
    ensures key { IfOk result (λ made. K.eq made.key key ≡ true) }
    ensures sums { IfOk result (λ made. (other : K)
        → sum_with K.eq sums.new made other ≡ sum_with K.eq sums.old run other) }
    ensures few { IfOk result (λ made. (count : ℕ) → IsSumOf count run.sum → IsSumOf count made.sum) }
{
    if run.key == key {
        return Ok(run);
    }
    put_run(sums, run)?;
    Ok(Run { key, sum: 0 })
}

/// For each key the sum of the amounts that stand with it.
pub fn sums_by_key<K: Copy + Eq + Hash>(
    alloc: Global,
    entries: &[(K, i64)],
) -> Result<IndexMap<K, i128>, AllocError>
    ensures sums { IfOk result
        (λ sums. (key : K) → sum_at K.eq sums key ≡ total (values_of K.eq key entries.now)) }
    ensures small { IfOk result (λ sums. (key : K) → IsSmall (sum_at K.eq sums key)) }
{
    let mut sums = IndexMap::new(alloc);
    let Some((first, _)) = entries.first() else {
        return Ok(sums);
    };
    let mut run = Run {
        key: *first,
        sum: 0,
    };
    for entry in entries {
        let (key, amount) = *entry;
        run = run_for(&mut sums, run, key)?;
        run.sum += i128::from(amount);
    }
    put_run(&mut sums, run)?;
    Ok(sums)
}

/// The sum that stands with a key, 0 where there is none.
pub fn sum_at<K: Copy + Eq + Hash>(sums: &IndexMap<K, i128>, key: K) -> i128
    ensures { result ≡ sum_at K.eq sums.now key }
{
    sums.get(&key).copied().unwrap_or(0)
}
