//! How much the files of a spool may hold.
ghost use Rattle.std.specs.Prelude.{◌≡◌, ◌↔◌, ℕ, List, length, IsTrue, IfOk};
ghost use Rattle.uu_files.specs.Room.{HasOtherPages, IsLimit, most_pages};

use sqlite_disk::Disk;
use std::io;

/// The bytes of a page in a file.
pub(crate) const PAGE: usize = 4_096;

/// Where the header of a database file says the size of its pages, in two bytes: 16 and 0 are 4,096.
const PAGE_SIZE: usize = 16;

/// The end of these two bytes.
const PAGE_SIZE_END: usize = 18;

/// How long the database file may become. A file with pages of another size than 4,096 bytes has no
/// limit.
#[derive(Clone, Copy, Debug, PartialEq, Eq)]
pub struct Room {
    /// The limit in bytes. What is kept in memory of the file's pages is no more either.
    pub limit: usize,
    /// Whether the limit counts. It does for what adds to a spool, and not for what only reads or
    /// removes.
    pub counts: bool,
}

// The most pages of the database file, which has this many bytes, if the limit counts. A file that
// is longer than the limit keeps its pages.
pub(crate) fn most_pages(room: Room, length: usize) -> Option<usize>
    ensures { result ≡ most_pages room length }
{
    if room.counts {
        Some(room.limit.max(length) / PAGE)
    } else {
        None
    }
}

// The last page whose frames the log takes beside this database file. A failed read is an error.
pub(crate) fn most_beside<D: Disk>(room: Room, db: &mut D) -> io::Result<Option<usize>>
    requires { IsTrue (D.Disk.is_usable db.old) }
    ensures limit { IfOk result (λ most. IsTrue (D.Disk.is_clean db.new) → IsLimit room (D.Disk.seen db.old) most) }
    ensures seen { D.Disk.seen db.new ≡ D.Disk.seen db.old }
    ensures usable { IsTrue (D.Disk.is_usable db.new) }
    ensures crash { (c : List ℕ) → D.Disk.may_leave db.new c → D.Disk.may_leave db.old c }
{
    let bytes = db.len()?;
    let other = has_other_pages(db, bytes)?;
    Ok(if other { None } else { most_pages(room, bytes) })
}

// Whether the header of a database file of so many bytes says that its pages have another size.
fn has_other_pages<D: Disk>(db: &mut D, bytes: usize) -> io::Result<bool>
    requires usable { IsTrue (D.Disk.is_usable db.old) }
    ensures other { IfOk result (λ other. IsTrue (D.Disk.is_clean db.new) → bytes ≡ length (D.Disk.seen db.old) → IsTrue other ↔ HasOtherPages (D.Disk.seen db.old)) }
    ensures clean { IsTrue (D.Disk.is_clean db.new) → IsTrue (D.Disk.is_clean db.old) }
    ensures seen { D.Disk.seen db.new ≡ D.Disk.seen db.old }
    ensures usable { IsTrue (D.Disk.is_usable db.new) }
    ensures crash { (c : List ℕ) → D.Disk.may_leave db.new c → D.Disk.may_leave db.old c }
{
    if bytes < PAGE_SIZE_END {
        return Ok(false);
    }
    let mut size = [0u8; 2];
    db.read_at(PAGE_SIZE, &mut size)?;
    Ok(size[0] != 16 || size[1] != 0)
}
