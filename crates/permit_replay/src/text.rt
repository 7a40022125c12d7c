//! Replaying a text.

ghost use Rattle.std.specs.Prelude.{ℕ, List, vec_len, IfErr, IfOk, IfSome};
ghost use Rattle.permit_replay.specs.Holding.{IsBeginning};
ghost use Rattle.permit_replay.specs.Telling.{GoesOn, IsAtLine, IsToldWhole};
ghost use Rattle.permit_replay.specs.Texts.{IsReplayed, StopsAt};
ghost use Rattle.permit_replay.specs.declared.beginning.Beginning.{Beginning as TheBeginning};

use crate::beginning::Beginning;
use crate::fault::ReplayFault;
use crate::line::next_entry;
use crate::replayed::Replayed;
use permit_history::text::TextFault;
use permit_store::plain::PlainStore;
use permit_store::store::Store;
use std::alloc::Global;
use std::io::BufRead;

/// How a text goes on after the lines that were replayed.
#[derive(Drop)]
pub(crate) enum Progress {
    /// By one more line, which was replayed too.
    Line(Replayed),
    /// It ends, and its lines give these tables.
    End(PlainStore),
}

/// Replays the next line of a text, which has this number. After it `room` has the bytes of the line, with the LF.
pub(crate) fn replay_line<R: BufRead>(
    alloc: Global,
    replayed: Replayed,
    line: u64,
    source: &mut R,
    room: &mut Vec<u8>,
) -> Result<Progress, ReplayFault>
    ensures next { (beginning : TheBeginning) (bytes : List ℕ)
        → (at : IsAtLine ⟦<PlainStore as Store>⟧.view (IsBeginning ⟦<PlainStore as Store>⟧.view beginning) bytes (R.remaining source.old) line replayed)
        → IfOk result (GoesOn ⟦<PlainStore as Store>⟧.view (IsBeginning ⟦<PlainStore as Store>⟧.view beginning) bytes at.entries at.left (R.remaining source.new) (vec_len room.new)) }
    ensures stopped { (beginning : TheBeginning) (bytes : List ℕ)
        → IsAtLine ⟦<PlainStore as Store>⟧.view (IsBeginning ⟦<PlainStore as Store>⟧.view beginning) bytes (R.remaining source.old) line replayed
        → IfErr result (StopsAt ⟦<PlainStore as Store>⟧.view (IsBeginning ⟦<PlainStore as Store>⟧.view beginning) bytes) }
{
    match next_entry(alloc, source, room) {
        Ok(Some(entry)) => match replayed.take(alloc, &entry) {
            Ok(next) => Ok(Progress::Line(next)),
            Err(why) => Err(ReplayFault::Entry { line, why }),
        },
        Ok(None) => match replayed {
            Replayed::Open(store) => Ok(Progress::End(store)),
            Replayed::Nothing(_) | Replayed::Founded(_) => Err(ReplayFault::Short),
        },
        Err(TextFault::Line(fault)) => Err(ReplayFault::Line { line, fault }),
        Err(TextFault::Source(error)) => Err(ReplayFault::Source(error)),
    }
}

/// Replays a text to its end.
pub(crate) fn replay_whole<R: BufRead>(
    alloc: Global,
    beginning: Beginning,
    source: &mut R,
) -> Result<PlainStore, ReplayFault>
    ensures told { IfSome (R.remaining source.old) (λ bytes. IfOk result (IsToldWhole ⟦<PlainStore as Store>⟧.view (IsBeginning ⟦<PlainStore as Store>⟧.view beginning) bytes)) }
    ensures stopped { IfSome (R.remaining source.old) (λ bytes. IfErr result (StopsAt ⟦<PlainStore as Store>⟧.view (IsBeginning ⟦<PlainStore as Store>⟧.view beginning) bytes)) }
{
    let mut room = Vec::new(alloc);
    let mut replayed = Replayed::Nothing(beginning);
    for line in 1..u64::MAX {
        match replay_line(alloc, replayed, line, source, &mut room)? {
            Progress::Line(next) => replayed = next,
            Progress::End(store) => return Ok(store),
        }
    }
    Err(ReplayFault::Endless)
}

/// The tables of the history that a text gives, or the lowest line that is no next entry, with its reason. What is after
/// the last LF is no line, and is passed over.
///
/// It asks no policy: that of the day isn't known. So it takes each command that some policy could have allowed, and the tables
/// are those of the machine under a policy that allows everything. It keeps the tables and one line.
///
/// Where the text begins with a copy of an office's tables, they become its tables.
///
/// # Examples
///
/// ```
/// let text = format!(in alloc; "{FOUND}\n{UPGRADE}\n{ADD_CLERK}\n")?;
/// let mut source = text.as_bytes();
/// let Ok(mut store) = replay(alloc, Beginning::Founding, &mut source) else {
///     return Err(Fail::new("no tables"));
/// };
/// assert!(rt; store.desk()?.parties == 2);
/// ```
pub fn replay<R: BufRead>(
    alloc: Global,
    beginning: Beginning,
    source: &mut R,
) -> Result<PlainStore, ReplayFault>
    ensures replayed { IfSome (R.remaining source.old) (λ bytes. IfOk result (IsReplayed ⟦<PlainStore as Store>⟧.view (IsBeginning ⟦<PlainStore as Store>⟧.view beginning) bytes)) }
    ensures stopped { IfSome (R.remaining source.old) (λ bytes. IfErr result (StopsAt ⟦<PlainStore as Store>⟧.view (IsBeginning ⟦<PlainStore as Store>⟧.view beginning) bytes)) }
{
    replay_whole(alloc, beginning, source)
}
