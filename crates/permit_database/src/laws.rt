//! Laws of an office with its history: functions with nothing to do, whose contracts are the laws.

ghost use Rattle.std.specs.Prelude.{ℕ, List};
ghost use Rattle.permit_base.specs.declared.request.Asked.{Asked};
ghost use Rattle.permit_history.specs.LineData.{text_of};
ghost use Rattle.permit_history.specs.Meaning.{Tells};
ghost use Rattle.permit_hall.specs.Runs.{Entry, Runs as ServedRuns};
ghost use Rattle.permit_import.specs.Runs.{Runs as ImportRuns};
ghost use Rattle.permit_office.specs.Office.{OfficeView};
ghost use Rattle.permit_office.specs.declared.reply.Reply.{Reply};
ghost use Rattle.permit_recorded.specs.Logs.{LogView};
ghost use Rattle.permit_recorded.specs.Runs.{Runs};
ghost use Rattle.permit_store.specs.Founding.{founding};
ghost use Rattle.permit_store.specs.declared.founder.Founder.{Founder};
ghost use Rattle.permit_wire.specs.Serving.{Steps, StepsOn};
ghost use Rattle.permit_wire.specs.declared.service.Dated.{Dated};
ghost use Rattle.permit_database.specs.Exchanges.{exchanges, exchanges_of};
ghost use Rattle.permit_database.specs.Founding.{first_entries};

use permit_journal::file::HistoryFile;
use permit_office::log::Log;
use permit_recorded::log::HistoryLog;
use permit_store::store::Store;

/// The text that a founding begins gives the history of the office that is founded.
pub fn a_beginning_tells_its_history()
    ensures { (founder : Founder) → Tells (text_of (first_entries founder)) (founding founder.name founder.digest founder.day) }
{}

/// An office that is served (`runs` of `IsServed`) goes on as `permit_recorded::laws::an_opened_office_goes_on` says.
pub fn a_served_office_goes_on<S: Store, H: HistoryFile + Drop>()
    ensures { (old new : OfficeView S (LogView H)) (served : List (Entry Asked Dated)) → ServedRuns (StepsOn S.view ⟦<HistoryLog<H> as Log>⟧) old served new
        → Runs (λ asked day reply. Steps S.view ⟦<HistoryLog<H> as Log>⟧ day asked reply) old (exchanges_of served) new }
{}

/// So does one into which records are imported (`runs` of `Imports`).
pub fn an_importing_office_goes_on<S: Store, H: HistoryFile + Drop>()
    ensures { (requests : List (Asked × ℕ)) (replies : List Reply) (old new : OfficeView S (LogView H))
        → ImportRuns (StepsOn S.view ⟦<HistoryLog<H> as Log>⟧) requests replies old new
        → Runs (λ asked day reply. Steps S.view ⟦<HistoryLog<H> as Log>⟧ day asked reply) old (exchanges requests replies) new }
{}
