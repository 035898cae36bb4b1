//! A scan that threads share.

use crate::count::count_of;
use crate::scan::Scan;
use hy_rows::Table;
use std::thread::{Threads, join};

/// The rows of two tables, each counted by a thread of its own.
fn counts<R: Threads + Sync, const N: usize>(rt: &R, scan: &Scan<'_, N>) -> (usize, usize) {
    join(
        rt,
        || count_of(scan, Table::Stock),
        || count_of(scan, Table::Item),
    )
}

#[test]
fn threads_share_a_scan(rt: HostRuntime) {
    let scan = Scan::<256>::new(Vec::new(rt.alloc()), &[]);
    let (stock, items) = counts(&rt, &scan);
    assert!(rt; stock == 0);
    assert!(rt; items == 0);
}
