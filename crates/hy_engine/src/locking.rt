//! How a lock is taken.

use std::hint::spin_loop;
use std::sync::{Mutex, MutexGuard, Wait};

/// So often a thread tries to take a lock before it sleeps: some ten microseconds.
const TRIES: u32 = 200;

/// So long it leaves the lock alone between two tries, which whoever gives it up would have to wait for.
const PAUSES: u32 = 10;

/// Takes a lock. Whoever holds one gives it up soon, so that it is tried for a while before the thread sleeps.
pub fn lock_soon<'a, R: Wait, T>(rt: &R, mutex: &'a Mutex<T>) -> MutexGuard<'a, T> {
    for _ in 0..TRIES {
        if let Some(guard) = mutex.try_lock() {
            return guard;
        }
        pause();
    }
    mutex.lock(rt)
}

/// Leaves a lock alone for a moment.
fn pause() {
    for _ in 0..PAUSES {
        spin_loop();
    }
}
