//! A file of a spool: it leaves out syncs that would change nothing, and as a log it takes no page
//! beyond a limit.
ghost use Rattle.std.specs.Prelude.{◌≡◌, ◌<◌, ◌+◌, ◌^◌, ℕ, List, true, false, length, is_ok, None, IsErr, IsSomeAnd, IsTrue, OnOk};
ghost use Rattle.sqlite_disk.specs.Disk.{CountsFault, Cut, Follows, Holds, Mixed, Only, StaysFrozen, Torn};
ghost use Rattle.sqlite_disk.specs.Tally.{CountsRefusal};
ghost use Rattle.uu_files.specs.Room.{HasPageBeyond};

use crate::log_frames::admit;
use sqlite_disk::{Crash, Disk, Tally};
use std::io;

/// A file that passes each call on to another one, but for two.
///
/// It is synced only if it is dirty: written or cut since the last sync that worked. A sync that is
/// left out would change nothing, because a stop leaves exactly what the file shows. So a stop never
/// leaves more than the inner file could leave.
///
/// A frame of a page beyond the limit isn't written. So a log has only pages of a database file that
/// isn't longer than its limit, and can be copied into it at any time. The pages that the file has
/// may always be written.
#[derive(Drop)]
pub struct SpoolDisk<D: Disk> {
    inner: D,
    dirty: bool,
    most: Option<usize>,
    refused: u64,
    ghost synced: { dirty ≡ false → Only (D.Disk.seen inner) (D.Disk.may_leave inner) },
}

impl<D: Disk> SpoolDisk<D> {
    ghost use Rattle.uu_files.specs.Disk.{inner_of, is_dirty, most_of};

    /// The file, which may not be synced, and takes every page.
    pub fn new(inner: D) -> SpoolDisk<D>
        ensures inner { inner_of result ≡ inner }
        ensures dirty { is_dirty result ≡ true }
        ensures most { most_of result ≡ None }
    {
        SpoolDisk {
            inner,
            dirty: true,
            most: None,
            refused: 0,
        }
    }

    /// A file of which a stop leaves exactly what it shows, like one that was just synced. If it is
    /// a log, it takes no page beyond so many.
    pub fn synced(inner: D, most: Option<usize>) -> SpoolDisk<D>
        requires { Only (D.Disk.seen inner) (D.Disk.may_leave inner) }
        ensures inner { inner_of result ≡ inner }
        ensures clean { is_dirty result ≡ false }
        ensures most { most_of result ≡ most }
    {
        SpoolDisk {
            inner,
            dirty: false,
            most,
            refused: 0,
        }
    }

    /// The inner file, which gets the calls.
    pub fn inner(&self) -> &D
        ensures { result.now ≡ inner_of self.now }
    {
        &self.inner
    }
}

impl<D: Disk> Disk for SpoolDisk<D> {
    ghost use Rattle.uu_files.specs.Disk.{inner_of, most_of, faults_of, is_stopped, seen_in, left_by, is_clean_in};

    ghost seen = { seen_in };

    ghost may_leave = { left_by };

    ghost is_usable = { λ f. D.Disk.is_usable f.inner };

    ghost faults = { faults_of };

    ghost tally_of = { λ f. D.Disk.tally_of f.inner };

    ghost is_clean = { is_clean_in };

    ghost key_of = { λ f. D.Disk.key_of f.inner };

    ghost is_fair = { λ f. D.Disk.is_fair f.inner };

    // A sync that is left out works even after the inner file has stopped.
    ghost is_frozen = { is_stopped };

    ghost is_rotten = { λ f. D.Disk.is_rotten f.inner };

    ghost is_mixing = { λ f. D.Disk.is_mixing f.inner };

    ghost fair_if_clean = { λ f. D.Disk.fair_if_clean f.inner };

    ghost seen_may_stay = { λ f. D.Disk.seen_may_stay f.inner };

    fn mixes(&self) -> bool {
        self.inner.mixes()
    }

    fn key(&self) -> u64 {
        self.inner.key()
    }

    fn tally(&self) -> Tally {
        self.inner.tally()
    }

    fn may_be_used(&self) -> bool {
        self.inner.may_be_used()
    }

    fn len(&mut self) -> io::Result<usize> {
        self.inner.len()
    }

    fn read_at(&mut self, at: usize, buf: &mut [u8]) -> io::Result<()> {
        self.inner.read_at(at, buf)
    }

    fn read_checked(&mut self, key: u64, want: u64, at: usize, buf: &mut [u8]) -> io::Result<()> {
        self.inner.read_checked(key, want, at, buf)
    }

    fn write_at(&mut self, at: usize, bytes: &[u8]) -> io::Result<()>
        requires { IsTrue (D.Disk.is_usable (inner_of self.old)) }
        ensures written { OnOk result (0 < length bytes.now → Holds (seen_in self.new) at bytes.now) }
        ensures faults { CountsFault result (faults_of self.old) (faults_of self.new) }
        ensures clean { IsTrue (is_clean_in self.new) → IsTrue (is_clean_in self.old) }
        ensures calm { is_clean_in self.new ≡ is_clean_in self.old }
        ensures fair { D.Disk.is_fair (inner_of self.new) ≡ D.Disk.is_fair (inner_of self.old) }
        ensures frozen { IsTrue (is_stopped self.old) → IsErr result × StaysFrozen seen_in left_by is_clean_in is_stopped self.old self.new }
        ensures others { Torn at (length bytes.now) (seen_in self.old) (seen_in self.new) }
        ensures tally { CountsRefusal result (D.Disk.tally_of (inner_of self.old)) (D.Disk.tally_of (inner_of self.new)) }
        ensures key { D.Disk.key_of (inner_of self.new) ≡ D.Disk.key_of (inner_of self.old) }
        ensures usable { IsTrue (D.Disk.is_usable (inner_of self.new)) }
        ensures mixing { D.Disk.is_mixing (inner_of self.new) ≡ D.Disk.is_mixing (inner_of self.old) }
        ensures mixed { IsTrue (D.Disk.is_mixing (inner_of self.old)) → at + length bytes.now < 2 ^ 64 → Follows (Mixed at bytes.now) (left_by self.old) (left_by self.new) }
        ensures crash { Follows (Torn at (length bytes.now)) (left_by self.old) (left_by self.new) }
        ensures limited { IsSomeAnd (most_of self.old) (λ last. HasPageBeyond last at bytes.now) → IsErr result × (inner_of self.new ≡ inner_of self.old) }
        ensures admitted { ¬ IsSomeAnd (most_of self.old) (λ last. HasPageBeyond last at bytes.now) → CountsFault result (D.Disk.faults (inner_of self.old)) (D.Disk.faults (inner_of self.new)) }
        ensures most { most_of self.new ≡ most_of self.old }
    {
        admit(self.most, &mut self.refused, at, bytes)?;
        self.dirty = true;
        self.inner.write_at(at, bytes)
    }

    fn set_len(&mut self, len: usize) -> io::Result<()>
        requires { IsTrue (D.Disk.is_usable (inner_of self.old)) }
        ensures len { OnOk result (length (seen_in self.new) ≡ len) }
        ensures faults { CountsFault result (faults_of self.old) (faults_of self.new) }
        ensures clean { IsTrue (is_clean_in self.new) → IsTrue (is_clean_in self.old) }
        ensures calm { is_clean_in self.new ≡ is_clean_in self.old }
        ensures fair { D.Disk.is_fair (inner_of self.new) ≡ D.Disk.is_fair (inner_of self.old) }
        ensures frozen { IsTrue (is_stopped self.old) → IsErr result × StaysFrozen seen_in left_by is_clean_in is_stopped self.old self.new }
        ensures others { Cut len (seen_in self.old) (seen_in self.new) }
        ensures tally { CountsRefusal result (D.Disk.tally_of (inner_of self.old)) (D.Disk.tally_of (inner_of self.new)) }
        ensures key { D.Disk.key_of (inner_of self.new) ≡ D.Disk.key_of (inner_of self.old) }
        ensures usable { IsTrue (D.Disk.is_usable (inner_of self.new)) }
        ensures crash { Follows (Cut len) (left_by self.old) (left_by self.new) }
        ensures admitted { CountsFault result (D.Disk.faults (inner_of self.old)) (D.Disk.faults (inner_of self.new)) }
        ensures most { most_of self.new ≡ most_of self.old }
    {
        self.dirty = true;
        self.inner.set_len(len)
    }

    fn sync(&mut self) -> io::Result<()>
        requires { IsTrue (D.Disk.is_usable (inner_of self.old)) }
        ensures durable { OnOk result (Only (seen_in self.old) (left_by self.new)) }
        ensures faults { CountsFault result (faults_of self.old) (faults_of self.new) }
        ensures clean { IsTrue (is_clean_in self.new) → IsTrue (is_clean_in self.old) }
        ensures calm { is_clean_in self.new ≡ is_clean_in self.old }
        ensures fair { D.Disk.is_fair (inner_of self.new) ≡ D.Disk.is_fair (inner_of self.old) }
        ensures frozen { IsTrue (is_stopped self.old) → IsErr result × StaysFrozen seen_in left_by is_clean_in is_stopped self.old self.new }
        ensures seen { seen_in self.new ≡ seen_in self.old }
        ensures tally { CountsRefusal result (D.Disk.tally_of (inner_of self.old)) (D.Disk.tally_of (inner_of self.new)) }
        ensures key { D.Disk.key_of (inner_of self.new) ≡ D.Disk.key_of (inner_of self.old) }
        ensures rot { D.Disk.is_rotten (inner_of self.new) ≡ D.Disk.is_rotten (inner_of self.old) }
        ensures usable { D.Disk.is_usable (inner_of self.new) ≡ is_ok result }
        ensures crash { (c : List ℕ) → left_by self.new c → left_by self.old c }
        ensures most { most_of self.new ≡ most_of self.old }
    {
        if !self.dirty {
            return Ok(());
        }
        self.inner.sync()?;
        self.dirty = false;
        Ok(())
    }
}

/// The inner file comes back, with the same limit, and may not be synced.
impl<D: Crash> Crash for SpoolDisk<D> {
    fn crash(&mut self) {
        self.dirty = true;
        self.inner.crash();
    }
}
