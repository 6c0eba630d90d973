// Two files of a disk in memory. Like the program's files, they are synced only if they are dirty.
use sqlite::Options;
use sqlite_disk::{Crash, Disk, Files, Memory};
use std::alloc::Global;
use std::process::Abort;
use uu_files::SpoolDisk;

/// All pages stay in memory.
pub(crate) const MANY_PAGES: Options = Options {
    cache_pages: 2_000,
    spill_pages: 2_000,
    checkpoint_frames: 1_000,
    seed: 7,
};

/// Eight pages stay in memory, and a log of eight frames is copied into the database file.
pub(crate) const FEW_PAGES: Options = Options {
    cache_pages: 8,
    spill_pages: 4,
    checkpoint_frames: 8,
    seed: 7,
};

/// What the two files hold.
#[derive(Drop)]
pub(crate) struct Contents {
    log: Vec<u8>,
    db: Vec<u8>,
}

impl Contents {
    pub(crate) fn is_same(&self, other: &Contents) -> bool {
        self.log.as_slice() == other.log.as_slice() && self.db.as_slice() == other.db.as_slice()
    }

    pub(crate) fn copied(&self, rt: &impl Abort, alloc: Global) -> Contents {
        Contents {
            log: self.log.to_vec(alloc).expect(rt, "memory"),
            db: self.db.to_vec(alloc).expect(rt, "memory"),
        }
    }
}

/// Files that don't exist yet.
pub(crate) fn nothing(alloc: Global) -> Contents {
    Contents {
        log: Vec::new(alloc),
        db: Vec::new(alloc),
    }
}

/// The contents of files after a crash: what was synced, which every crash leaves, and all that was
/// written, which a crash may leave.
#[derive(Drop)]
pub(crate) struct Left {
    pub(crate) synced: Contents,
    pub(crate) written: Contents,
}

pub(crate) type MemoryFiles = Files<SpoolDisk<Memory>>;

fn file(rt: &impl Abort, alloc: Global, bytes: &[u8]) -> SpoolDisk<Memory> {
    let mut file = Memory::new(alloc);
    assert!(rt; file.write_at(0, bytes).is_ok(), "memory");
    assert!(rt; file.sync().is_ok(), "memory");
    SpoolDisk::new(file)
}

pub(crate) fn files_of(rt: &impl Abort, alloc: Global, contents: &Contents) -> MemoryFiles {
    Files {
        log: file(rt, alloc, &contents.log),
        db: file(rt, alloc, &contents.db),
    }
}

fn bytes_of(rt: &impl Abort, alloc: Global, file: &SpoolDisk<Memory>) -> Vec<u8> {
    file.inner().bytes().to_vec(alloc).expect(rt, "memory")
}

fn contents_of(rt: &impl Abort, alloc: Global, files: &MemoryFiles) -> Contents {
    Contents {
        log: bytes_of(rt, alloc, &files.log),
        db: bytes_of(rt, alloc, &files.db),
    }
}

pub(crate) fn left_of(rt: &impl Abort, alloc: Global, mut files: MemoryFiles) -> Left {
    let written = contents_of(rt, alloc, &files);
    files.log.crash();
    files.db.crash();
    Left {
        synced: contents_of(rt, alloc, &files),
        written,
    }
}
