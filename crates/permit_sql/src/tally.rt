//! What is known of a file while its papers are read.

ghost use Rattle.std.specs.Prelude.{◌≡◌, ◌<◌, ◌-◌, ◌^◌, length, Some};
ghost use Rattle.std.specs.List.{list_all};
ghost use Rattle.permit_sql.specs.Tested.{first_tally, next_tally, is_ended};
ghost use Rattle.permit_sql.specs.Named.{fault_at, fault_at_end, unended_from};

use crate::fault::{Fault, FileRule, PaperRule};
use permit_base::values::FileId;
use permit_core::state::FileState;
use permit_store::rows::Paper;

/// The day and the number of the last paper that was read of a file, the count of its papers, and how many open notices
/// are to come.
#[derive(Clone, Copy)]
pub(crate) struct Tally {
    /// The day of the last paper; that of the filing before the first one.
    pub(crate) day: u32,
    /// The number of the last paper, or 0.
    pub(crate) number: u32,
    /// The count in the file's row.
    pub(crate) papers: u16,
    /// How many of the open notices that the file's row counts weren't read.
    pub(crate) notices: u16,
}

/// The place of the tally of a file, where the tallies are in the order of the numbers of the files.
pub(crate) fn place_of(file: FileId) -> usize
    ensures { result ≡ file - 1 }
{
    file.get() as usize - 1
}

impl Tally {
    /// The tally before the file's papers are read.
    pub(crate) fn of(state: &FileState) -> Tally
        ensures { result ≡ first_tally state.now }
    {
        Tally {
            day: state.filed().get(),
            number: 0,
            papers: state.papers(),
            notices: state.notices(),
        }
    }

    /// The tally once the paper is read, where it has the next number and no earlier day, and is counted if it is open.
    pub(crate) fn after(self, paper: &Paper) -> Option<Tally>
        ensures { result ≡ next_tally paper.now (Some self) }
    {
        let day = paper.day.get();
        let number = paper.number.get();
        if number - 1 != self.number || day < self.day {
            return None;
        }
        let notices = if paper.is_open {
            self.notices.checked_sub(1)?
        } else {
            self.notices
        };
        Some(Tally {
            day,
            number,
            papers: self.papers,
            notices,
        })
    }

    /// What is wrong where the paper isn't the next one of its file.
    pub(crate) fn fault_at(self, paper: &Paper) -> Fault
        ensures { result ≡ fault_at self paper.now }
    {
        let file = Some(paper.file.get());
        let number = Some(paper.number.get());
        if paper.number.get() - 1 != self.number {
            let rule = PaperRule::Number;
            Fault::Paper { file, number, rule }
        } else if paper.day.get() < self.day {
            let rule = PaperRule::EarlyDay;
            Fault::Paper { file, number, rule }
        } else {
            let rule = FileRule::Notices;
            Fault::File { number: file, rule }
        }
    }

    /// What is wrong of the file where not all papers or not all open notices were read.
    fn fault_at_end(self, file: u32) -> Fault
        ensures { result ≡ fault_at_end self file }
    {
        let rule = if self.number == u32::from(self.papers) {
            FileRule::Notices
        } else {
            FileRule::Papers
        };
        Fault::File {
            number: Some(file),
            rule,
        }
    }

    /// Whether all papers and all open notices were read.
    fn is_ended(self) -> bool
        ensures { result ≡ is_ended self }
    {
        self.number == u32::from(self.papers) && self.notices == 0
    }
}

/// Whether all papers and all open notices of each file were read.
pub(crate) fn are_ended(tallies: &[Tally]) -> bool
    ensures { result ≡ list_all is_ended tallies.now }
{
    tallies.iter().all(|tally| tally.is_ended())
}

/// What is wrong of the first file of which not all papers or not all open notices were read. The files are numbered from 1.
pub(crate) fn first_unended(mut tallies: &[Tally]) -> Option<Fault>
    ensures { length tallies.entry.now < 2 ^ 32 → result ≡ unended_from 1 tallies.entry.now }
{
    let mut number = 1usize;
    'tallies: while let [tally, more @ ..] = tallies {
        if !tally.is_ended() {
            let file = u32::try_from(number).unwrap_or(u32::MAX);
            return Some(tally.fault_at_end(file));
        }
        number = number.saturating_add(1);
        tallies = more;
    }
    None
}
