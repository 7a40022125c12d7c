//! What work came to, and so what is printed of it.

use permit_answer::answer::Answer;
use permit_base::values::Day;
use permit_history::evidence::Evidence;
use permit_import::tally::Tally;
use permit_office::reply::Listing;
use permit_replay::alike::differing::Difference;
use permit_replay::opening::bringing::Brought;
use permit_replay::opening::placing::Place;
use permit_sql::fault::Fault;
use permit_store::rows::Desk;

/// What a plan came to.
#[derive(Drop)]
pub enum Outcome {
    /// The program's name was asked for.
    Name,
    /// What is said of a policy.
    Checked(String),
    /// The office is founded, with its first party.
    Founded,
    /// The database is of this version, with this many files that keep their list of inspections.
    Upgraded(u32),
    /// The database's tables are sound, and the desk counts its records.
    Sound(Desk),
    /// They are sound, and this is the evidence of the lines of a history whose tables they are.
    SoundBeside(Desk, Evidence),
    /// They aren't, and this is the first place.
    Unsound(Fault),
    /// They are those of the first lines of a history, as many as its place says.
    Standing(Place),
    /// They are sound, and differ from those of a history; this is the first place.
    Differing(Difference),
    /// The answer to a request.
    Answered(Answer),
    /// The files that may be listed.
    Listed(Listing),
    /// The register is written.
    Registered,
    /// The records are imported, and their lines are written.
    Imported(Tally),
    /// The office was served until its workers ended.
    Ended,
    /// The party with this number has the new token.
    Renewed(u32),
    /// The lines of a history are written.
    Told,
    /// They are written, and the tables lack so many of its commands.
    ToldBeside(u64),
    /// So many first lines of a history are as they were.
    Verified(u64),
    /// The office's history is begun, on its last day.
    Begun(Day),
    /// The office has the tables of a history.
    Replayed(Brought),
}
