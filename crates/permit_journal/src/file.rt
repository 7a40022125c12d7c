//! What every file of a history promises.

ghost use Rattle.std.specs.Prelude.{◌≡◌, ◌≤◌, ◌++◌, ℕ, List, [], drop, length, take, IfOk, IsTrue, OnOk, OnErr};
ghost use Rattle.permit_journal.specs.Files.{FileView, Grown, LeavesGrown, Only};

/// A call of a file failed.
#[derive(Clone, Copy, Debug, PartialEq, Eq)]
pub struct FileError;

/// The file of a history's text. It is written at its end alone, and cut there.
///
/// What is written is on the disk once it is synced. Until then a crash may leave a part of it; but it leaves what was synced
/// before. A disk that loses what it said it had is none of these.
///
/// `crash` says of each call what a crash in it or after it may leave, whatever the call answered. A crash between two calls, in
/// the middle of what a journal does, is one of a file of which each call fails from that moment on and changes nothing. Such a
/// file over another keeps these clauses too: `Stopping` of `permit_history_tests` is one. So what is proved over every file is
/// proved of a crash at each moment.
pub trait HistoryFile {
    /// What contracts see of it: its text, what a crash may leave of it, whether it appends at the end of the text, and whether no call
    /// has returned something false.
    ghost view: { Self → FileView };

    /// Which parts the writing of these bytes may leave after the text where it is cut short.
    ghost leaves: { List ℕ → List ℕ → Type 0 };

    /// How many bytes it has.
    fn length(&mut self) -> Result<u64, FileError>
        ensures length { IfOk result (λ n. IsTrue (view self.new).is_clean → n ≡ length (view self.old).text) }
        ensures kept { (view self.new).text ≡ (view self.old).text }
        ensures crash { (c : List ℕ) → (view self.new).may_leave c → (view self.old).may_leave c }
        ensures at_end { (view self.old).is_at_end → (view self.new).is_at_end }
        ensures clean { IsTrue (view self.new).is_clean → IsTrue (view self.old).is_clean };

    /// Reads the bytes from there on into the room, as many as there are and have room. How many these are.
    fn read_at(&mut self, at: u64, room: &mut [u8]) -> Result<usize, FileError>
        ensures read { IfOk result (λ n. IsTrue (view self.new).is_clean → take n room.new ≡ take (length room.old) (drop at (view self.old).text)) }
        ensures within { IfOk result (λ n. n ≤ length room.old) }
        ensures kept { (view self.new).text ≡ (view self.old).text }
        ensures crash { (c : List ℕ) → (view self.new).may_leave c → (view self.old).may_leave c }
        ensures at_end { (view self.old).is_at_end → (view self.new).is_at_end }
        ensures clean { IsTrue (view self.new).is_clean → IsTrue (view self.old).is_clean };

    /// Writes the bytes at the end of the text. An error may leave a part there, and so may a crash, if the text was on the disk.
    fn append(&mut self, bytes: &[u8]) -> Result<(), FileError>
        ensures written { (view self.old).is_at_end → OnOk result ((view self.new).text ≡ (view self.old).text ++ bytes.now) }
        ensures part { (view self.old).is_at_end → OnErr result (Grown leaves bytes.now (view self.old).text (view self.new).text) }
        ensures crash { (view self.old).is_at_end → Only (view self.old).text (view self.old).may_leave
            → LeavesGrown leaves bytes.now (view self.old).text (view self.new).may_leave }
        ensures at_end { (view self.old).is_at_end → (view self.new).is_at_end }
        ensures clean { (view self.new).is_clean ≡ (view self.old).is_clean };

    /// Puts the text on the disk: from then on a crash leaves it whole.
    fn sync(&mut self) -> Result<(), FileError>
        ensures durable { OnOk result (Only (view self.old).text (view self.new).may_leave) }
        ensures kept { (view self.new).text ≡ (view self.old).text }
        ensures crash { (c : List ℕ) → (view self.new).may_leave c → (view self.old).may_leave c }
        ensures at_end { (view self.old).is_at_end → (view self.new).is_at_end }
        ensures clean { (view self.new).is_clean ≡ (view self.old).is_clean };

    /// Cuts the text to the length. Where a part of some bytes was after that length, an error may leave one there, and so
    /// may a crash.
    fn cut(&mut self, to: u64) -> Result<(), FileError>
        ensures cut { to ≤ length (view self.old).text → OnOk result ((view self.new).text ≡ take to (view self.old).text) }
        ensures part { (base bytes : List ℕ) → length base ≡ to → Grown leaves bytes base (view self.old).text → Grown leaves bytes base (view self.new).text }
        ensures crash { (base bytes : List ℕ) → length base ≡ to → LeavesGrown leaves bytes base (view self.old).may_leave
            → LeavesGrown leaves bytes base (view self.new).may_leave }
        ensures at_end { (view self.old).is_at_end → (view self.new).is_at_end }
        ensures clean { (view self.new).is_clean ≡ (view self.old).is_clean };

    /// It appends at the end of the text, if no call has returned something false.
    ghost clean_at_end: { (file : Self) → IsTrue (view file).is_clean → (view file).is_at_end };

    /// A writing that is cut short may leave nothing.
    ghost leaves_nothing: { (bytes : List ℕ) → leaves bytes [] };

    /// It may leave all of the bytes.
    ghost leaves_all: { (bytes : List ℕ) → leaves bytes bytes };
}
