// The calls that the inner file gets when a file is synced only if it is dirty.
use sqlite_disk::{Disk, Fuse, Memory};
use std::alloc::Global;
use std::process::Abort;
use uu_files::SpoolDisk;

/// A file whose inner file answers so many calls.
fn file_of(alloc: Global, calls: u64) -> SpoolDisk<Fuse<Memory>> {
    SpoolDisk::new(Fuse::new(Memory::new(alloc), calls))
}

/// Three of these seven calls reach the inner file, which answers three: a sync of a file that may
/// not be synced, a write, and the sync after it.
fn expect_three_calls(rt: &impl Abort, alloc: Global) {
    let mut file = file_of(alloc, 3);
    assert!(rt; file.may_be_used(), "a sync of this file has failed");
    assert!(rt; file.sync().is_ok(), "the first sync");
    assert!(rt; file.sync().is_ok(), "a sync with nothing to sync");
    assert!(rt; file.write_at(0, b"x").is_ok(), "a write");
    assert!(rt; file.sync().is_ok(), "the sync behind it");
    assert!(rt; file.sync().is_ok(), "again nothing to sync");
    assert!(rt; file.write_at(0, b"y").is_err(), "a fourth call");
    assert!(rt; file.sync().is_err(), "the sync behind a write that failed");
}

/// The same for a change of the length.
fn expect_cut_is_synced(rt: &impl Abort, alloc: Global) {
    let mut file = file_of(alloc, 2);
    assert!(rt; file.may_be_used(), "a sync of this file has failed");
    assert!(rt; file.sync().is_ok(), "the first sync");
    assert!(rt; file.set_len(8).is_ok(), "a change of the length");
    assert!(rt; file.sync().is_err(), "the sync behind it is left out");
}

#[test]
fn a_file_is_synced_where_it_is_dirty_alone(rt: HostRuntime) {
    expect_three_calls(&rt, rt.alloc());
    expect_cut_is_synced(&rt, rt.alloc());
}
