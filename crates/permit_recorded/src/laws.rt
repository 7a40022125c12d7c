//! Laws of an office with a history: functions with nothing to do, whose contracts are the laws.

ghost use Rattle.std.specs.Prelude.{ℕ, List};
ghost use Rattle.permit_base.specs.declared.request.Request.{Request as TheRequest};
ghost use Rattle.permit_office.specs.Frames.{IsStep};
ghost use Rattle.permit_office.specs.Office.{OfficeView};
ghost use Rattle.permit_office.specs.declared.reply.Reply.{Reply as Given};
ghost use Rattle.permit_replay.specs.Holding.{IsBeginning};
ghost use Rattle.permit_replay.specs.declared.beginning.Beginning.{Beginning as TheBeginning};
ghost use Rattle.permit_recorded.specs.Laws.{GoesOnBehindItsText, KeepsItsHistory};
ghost use Rattle.permit_recorded.specs.Logs.{LogView};
ghost use Rattle.permit_recorded.specs.Recorded.{StepsWithHistory};

use crate::log::HistoryLog;
use permit_journal::file::HistoryFile;
use permit_office::log::Log;
use permit_store::plain::PlainStore;
use permit_store::store::Store;

/// A step of an office with a history keeps it. Where the text gave the history, it gives it afterwards: after a command that is done
/// with the command's line, and after any other reply as it was, unless the journal is shut. Where it begins with an office that was
/// there, it gives it over the same start. This is said of a journal that is settled.
pub fn a_step_keeps_the_history<S: Store, H: HistoryFile + Drop>()
    ensures { (digest : List ℕ) (asked : TheRequest) (day : ℕ) (old new : OfficeView S (LogView H)) (reply : Given)
        → IsStep S.view ⟦<HistoryLog<H> as Log>⟧ digest asked day old new reply
        → StepsWithHistory S.view H.view H.leaves digest asked day old new reply }
{}

/// Whatever requests an office serves, one after the other, its text gives the history whose tables its store holds, unless its
/// journal is shut. That history is what the machine makes of the requests that weren't refused for the store. This is said of
/// an office that was that of a history, as long as its store is without doubt.
pub fn an_office_keeps_its_history<S: Store, H: HistoryFile + Drop>()
    ensures { KeepsItsHistory S.view H.view ⟦<HistoryLog<H> as Log>⟧ }
{}

/// The same of an office that was opened with its history, whatever that began with: it goes on after what its text gives.
pub fn an_opened_office_goes_on<S: Store, H: HistoryFile + Drop>()
    ensures { (beginning : TheBeginning) → GoesOnBehindItsText S.view H.view ⟦<HistoryLog<H> as Log>⟧
        (IsBeginning ⟦<PlainStore as Store>⟧.view beginning) }
{}
