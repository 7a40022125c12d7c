//! A file of a history that stops.

ghost use Rattle.std.specs.Prelude.{◌≡◌, ◌-◌, ◌↔◌, ◌++◌, ◌≤◌, ℕ, List, IfOk, IsErr, IsTrue, OnErr, OnOk, drop, length, take};
ghost use Rattle.permit_journal.specs.Files.{Grown, LeavesGrown, Only};

use permit_journal::file::{FileError, HistoryFile};

/// A file that passes so many calls on to the one within. Each call after those fails and changes nothing, as after a crash
/// at that moment.
#[derive(Drop)]
pub struct Stopping<H: HistoryFile> {
    inner: H,
    calls_left: u64,
}

/// Takes one call of those that are left, or fails.
fn take_call(calls_left: &mut u64) -> Result<(), FileError>
    ensures stopped { IsErr result ↔ (calls_left.old ≡ 0) }
    ensures taken { calls_left.new ≡ calls_left.old - 1 }
{
    if *calls_left == 0 {
        return Err(FileError);
    }
    *calls_left -= 1;
    Ok(())
}

impl<H: HistoryFile + Drop> Stopping<H> {
    ghost use Rattle.permit_history_tests.specs.Stopping.{calls_left, inner_of};

    /// The file over this one, which stops after so many calls.
    pub fn new(inner: H, calls: u64) -> Stopping<H>
        ensures inner { inner_of result ≡ inner }
        ensures calls { calls_left result ≡ calls }
    {
        Stopping {
            inner,
            calls_left: calls,
        }
    }

    /// The file within, as it is.
    pub fn into_inner(self) -> H
        ensures { result ≡ inner_of self }
    {
        let Stopping {
            inner,
            calls_left: _,
        } = self;
        inner
    }
}

impl<H: HistoryFile> HistoryFile for Stopping<H> {
    ghost view = { λ s. H.view s.inner };

    ghost leaves = { H.leaves };

    ghost clean_at_end = { λ s. H.clean_at_end s.inner };

    ghost leaves_nothing = { H.leaves_nothing };

    ghost leaves_all = { H.leaves_all };

    // Each call has the clauses of every file and two more: without a call left it fails and the file within stays.

    fn length(&mut self) -> Result<u64, FileError>
        ensures length { IfOk result (λ n. IsTrue (H.view self.new.inner).is_clean → n ≡ length (H.view self.old.inner).text) }
        ensures kept { (H.view self.new.inner).text ≡ (H.view self.old.inner).text }
        ensures crash { (c : List ℕ) → (H.view self.new.inner).may_leave c → (H.view self.old.inner).may_leave c }
        ensures at_end { (H.view self.old.inner).is_at_end → (H.view self.new.inner).is_at_end }
        ensures clean { IsTrue (H.view self.new.inner).is_clean → IsTrue (H.view self.old.inner).is_clean }
        ensures stopped { self.old.calls_left ≡ 0 → IsErr result × (self.new ≡ self.old) }
        ensures taken { self.new.calls_left ≡ self.old.calls_left - 1 }
    {
        take_call(&mut self.calls_left)?;
        self.inner.length()
    }

    fn read_at(&mut self, at: u64, room: &mut [u8]) -> Result<usize, FileError>
        ensures read { IfOk result (λ n. IsTrue (H.view self.new.inner).is_clean → take n room.new ≡ take (length room.old) (drop at (H.view self.old.inner).text)) }
        ensures within { IfOk result (λ n. n ≤ length room.old) }
        ensures kept { (H.view self.new.inner).text ≡ (H.view self.old.inner).text }
        ensures crash { (c : List ℕ) → (H.view self.new.inner).may_leave c → (H.view self.old.inner).may_leave c }
        ensures at_end { (H.view self.old.inner).is_at_end → (H.view self.new.inner).is_at_end }
        ensures clean { IsTrue (H.view self.new.inner).is_clean → IsTrue (H.view self.old.inner).is_clean }
        ensures stopped { self.old.calls_left ≡ 0 → IsErr result × (self.new ≡ self.old) }
        ensures taken { self.new.calls_left ≡ self.old.calls_left - 1 }
    {
        take_call(&mut self.calls_left)?;
        self.inner.read_at(at, room)
    }

    fn append(&mut self, bytes: &[u8]) -> Result<(), FileError>
        ensures written { (H.view self.old.inner).is_at_end → OnOk result ((H.view self.new.inner).text ≡ (H.view self.old.inner).text ++ bytes.now) }
        ensures part { (H.view self.old.inner).is_at_end → OnErr result (Grown H.leaves bytes.now (H.view self.old.inner).text (H.view self.new.inner).text) }
        ensures crash { (H.view self.old.inner).is_at_end → Only (H.view self.old.inner).text (H.view self.old.inner).may_leave
            → LeavesGrown H.leaves bytes.now (H.view self.old.inner).text (H.view self.new.inner).may_leave }
        ensures at_end { (H.view self.old.inner).is_at_end → (H.view self.new.inner).is_at_end }
        ensures clean { (H.view self.new.inner).is_clean ≡ (H.view self.old.inner).is_clean }
        ensures stopped { self.old.calls_left ≡ 0 → IsErr result × (self.new ≡ self.old) }
        ensures taken { self.new.calls_left ≡ self.old.calls_left - 1 }
    {
        take_call(&mut self.calls_left)?;
        self.inner.append(bytes)
    }

    fn sync(&mut self) -> Result<(), FileError>
        ensures durable { OnOk result (Only (H.view self.old.inner).text (H.view self.new.inner).may_leave) }
        ensures kept { (H.view self.new.inner).text ≡ (H.view self.old.inner).text }
        ensures crash { (c : List ℕ) → (H.view self.new.inner).may_leave c → (H.view self.old.inner).may_leave c }
        ensures at_end { (H.view self.old.inner).is_at_end → (H.view self.new.inner).is_at_end }
        ensures clean { (H.view self.new.inner).is_clean ≡ (H.view self.old.inner).is_clean }
        ensures stopped { self.old.calls_left ≡ 0 → IsErr result × (self.new ≡ self.old) }
        ensures taken { self.new.calls_left ≡ self.old.calls_left - 1 }
    {
        take_call(&mut self.calls_left)?;
        self.inner.sync()
    }

    fn cut(&mut self, to: u64) -> Result<(), FileError>
        ensures cut { to ≤ length (H.view self.old.inner).text → OnOk result ((H.view self.new.inner).text ≡ take to (H.view self.old.inner).text) }
        ensures part { (base bytes : List ℕ) → length base ≡ to → Grown H.leaves bytes base (H.view self.old.inner).text
            → Grown H.leaves bytes base (H.view self.new.inner).text }
        ensures crash { (base bytes : List ℕ) → length base ≡ to → LeavesGrown H.leaves bytes base (H.view self.old.inner).may_leave
            → LeavesGrown H.leaves bytes base (H.view self.new.inner).may_leave }
        ensures at_end { (H.view self.old.inner).is_at_end → (H.view self.new.inner).is_at_end }
        ensures clean { (H.view self.new.inner).is_clean ≡ (H.view self.old.inner).is_clean }
        ensures stopped { self.old.calls_left ≡ 0 → IsErr result × (self.new ≡ self.old) }
        ensures taken { self.new.calls_left ≡ self.old.calls_left - 1 }
    {
        take_call(&mut self.calls_left)?;
        self.inner.cut(to)
    }
}
