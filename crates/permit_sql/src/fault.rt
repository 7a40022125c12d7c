//! The first place at which tables aren't sound, in words. None of them is a name, a text, a token or a digest.

ghost use Rattle.std.specs.Prelude.{◌≡◌, Some};
ghost use Rattle.std.specs.Fmt.{WritesOnOk};
ghost use Rattle.permit_sql.specs.FaultText.{row_text, pair_text, fault_text};
ghost use Rattle.permit_sql.specs.FaultText.{desk_words, upgrade_words, party_words, parcel_words, interest_words, file_words, paper_words};

use std::fmt;

/// A row, and what is wrong with it. A row whose number can't be read is named by its table alone.
#[derive(Clone, Copy, PartialEq, Eq)]
pub enum Fault {
    /// Of the desk.
    Desk(DeskRule),
    /// Of the upgrade.
    Upgrade(UpgradeRule),
    /// Of a party.
    Party {
        number: Option<u32>,
        rule: PartyRule,
    },
    /// Of a parcel.
    Parcel {
        number: Option<u32>,
        rule: ParcelRule,
    },
    /// Of an interest.
    Interest {
        parcel: Option<u32>,
        party: Option<u32>,
        rule: InterestRule,
    },
    /// Of a file.
    File {
        number: Option<u32>,
        rule: FileRule,
    },
    /// Of a paper.
    Paper {
        file: Option<u32>,
        number: Option<u32>,
        rule: PaperRule,
    },
}

/// A rule that the desk breaks.
#[derive(Clone, Copy, PartialEq, Eq)]
pub enum DeskRule {
    Row,
    Last,
    Parties,
    Parcels,
    Files,
    Records,
}

impl DeskRule {
    /// What is wrong, in words.
    pub fn words(self) -> &'static str
        ensures { result.now ≡ desk_words self }
    {
        match self {
            DeskRule::Row => "there isn't one row, of number 1 and version 2",
            DeskRule::Last => "last isn't from 1 to 100000",
            DeskRule::Parties => "parties isn't how many there are",
            DeskRule::Parcels => "parcels isn't how many there are",
            DeskRule::Files => "files isn't how many there are",
            DeskRule::Records => "there is no party, or there are more than 99999 of a table",
        }
    }
}

/// A rule that the upgrade breaks.
#[derive(Clone, Copy, PartialEq, Eq)]
pub enum UpgradeRule {
    Row,
    Files,
}

impl UpgradeRule {
    /// What is wrong, in words.
    pub fn words(self) -> &'static str
        ensures { result.now ≡ upgrade_words self }
    {
        match self {
            UpgradeRule::Row => "there isn't one row, of number 1",
            UpgradeRule::Files => "files isn't from 0 to the files of the desk",
        }
    }
}

/// A rule that a party breaks.
#[derive(Clone, Copy, PartialEq, Eq)]
pub enum PartyRule {
    Number,
    Name,
    Role,
    Digest,
    Official,
}

impl PartyRule {
    /// What is wrong, in words.
    pub fn words(self) -> &'static str
        ensures { result.now ≡ party_words self }
    {
        match self {
            PartyRule::Number => "its number isn't the next one",
            PartyRule::Name => "the name isn't a text within its limits",
            PartyRule::Role => "the role isn't the code of one",
            PartyRule::Digest => "the digest isn't 64 of the letters 0 to 9 and a to f",
            PartyRule::Official => "it isn't an official",
        }
    }
}

/// A rule that a parcel breaks.
#[derive(Clone, Copy, PartialEq, Eq)]
pub enum ParcelRule {
    Number,
    Lot,
    Address,
    Owner,
}

impl ParcelRule {
    /// What is wrong, in words.
    pub fn words(self) -> &'static str
        ensures { result.now ≡ parcel_words self }
    {
        match self {
            ParcelRule::Number => "its number isn't the next one",
            ParcelRule::Lot => "the lot isn't a text within its limits",
            ParcelRule::Address => "the address isn't a text within its limits",
            ParcelRule::Owner => "the owner isn't there",
        }
    }
}

/// A rule that an interest breaks.
#[derive(Clone, Copy, PartialEq, Eq)]
pub enum InterestRule {
    Parcel,
    Party,
}

impl InterestRule {
    /// What is wrong, in words.
    pub fn words(self) -> &'static str
        ensures { result.now ≡ interest_words self }
    {
        match self {
            InterestRule::Parcel => "the parcel isn't there",
            InterestRule::Party => "the party isn't there",
        }
    }
}

/// A rule that a file breaks.
#[derive(Clone, Copy, PartialEq, Eq)]
pub enum FileRule {
    Number,
    Parcel,
    Applicant,
    Contractor,
    Reviewer,
    Inspector,
    Kind,
    Valuation,
    Description,
    Filed,
    Stage,
    NoDeadline,
    EarlyDeadline,
    LateDeadline,
    Done,
    Request,
    RequestStage,
    Requested,
    Ask,
    Stopped,
    Temporary,
    TemporaryStage,
    Notices,
    NoticesStage,
    Papers,
}

impl FileRule {
    /// What is wrong, in words.
    pub fn words(self) -> &'static str
        ensures { result.now ≡ file_words self }
    {
        match self {
            FileRule::Number => "its number isn't the next one",
            FileRule::Parcel => "the parcel isn't there",
            FileRule::Applicant => "the applicant isn't there",
            FileRule::Contractor => "the contractor isn't there",
            FileRule::Reviewer => "the reviewer isn't a party with that role",
            FileRule::Inspector => "the inspector isn't a party with that role",
            FileRule::Kind => "the kind isn't the code of one",
            FileRule::Valuation => "the valuation isn't from 0 to 9999999999999",
            FileRule::Description => "the description isn't a text within its limits",
            FileRule::Filed => "filed isn't from 1 to the last day",
            FileRule::Stage => "the stage isn't the code of one that is kept",
            FileRule::NoDeadline => "a deadline is there in a stage without one, or the other way",
            FileRule::EarlyDeadline => "the deadline is below filed + 180",
            FileRule::LateDeadline => "the deadline is above 200000",
            FileRule::Done => "done isn't a number of steps that its stage may have",
            FileRule::Request => "the request isn't for the next step",
            FileRule::RequestStage => "a request is there outside of working and revoked",
            FileRule::Requested => "requested isn't a request's day, from filed to the last day",
            FileRule::Ask => "the ask isn't of as many days as its stage allows",
            FileRule::Stopped => "stopped isn't 0, or 1 in a stage that may be stopped",
            FileRule::Temporary => "temporary isn't from filed + 1 to the last day + 180",
            FileRule::TemporaryStage => "temporary is there in a stage or a kind that has none",
            FileRule::Notices => "notices isn't how many open notices it has",
            FileRule::NoticesStage => "notices are open outside of working and revoked",
            FileRule::Papers => "papers isn't how many it has, 9999 at most",
        }
    }
}

/// A rule that a paper breaks.
#[derive(Clone, Copy, PartialEq, Eq)]
pub enum PaperRule {
    File,
    Number,
    Uncounted,
    Twice,
    EarlyDay,
    LateDay,
    Author,
    Sort,
    Days,
    Text,
    Terms,
    Open,
    Rowid,
}

impl PaperRule {
    /// What is wrong, in words.
    pub fn words(self) -> &'static str
        ensures { result.now ≡ paper_words self }
    {
        match self {
            PaperRule::File => "the file isn't there",
            PaperRule::Number => "its number isn't the next one",
            PaperRule::Uncounted => "its number is above the papers of its file",
            PaperRule::Twice => "there is another with its number",
            PaperRule::EarlyDay => "the day is before that of the filing or of the paper before it",
            PaperRule::LateDay => "the day is after the last day",
            PaperRule::Author => "the author isn't there",
            PaperRule::Sort => "the sort isn't the code of one",
            PaperRule::Days => "the days aren't those that its sort may name",
            PaperRule::Text => "the text isn't one that its sort may have",
            PaperRule::Terms => "the terms aren't those that its sort may have",
            PaperRule::Open => "open isn't 0, or 1 of a notice",
            PaperRule::Rowid => "a rowid comes twice",
        }
    }
}

/// Writes the table, the number that there is, and the rule.
fn write_row<W: fmt::Write>(
    f: &mut fmt::Formatter<W>,
    table: &str,
    number: Option<u32>,
    rule: &str,
) -> fmt::Result
    ensures { WritesOnOk W.write_str_gives f.old result (row_text table.now number rule.now) f.new }
{
    match number {
        Some(number) => write!(f, "{table} {number}: {rule}"),
        None => write!(f, "{table}: {rule}"),
    }
}

/// Writes the table, the two numbers, where there are both, and the rule.
fn write_pair<W: fmt::Write>(
    f: &mut fmt::Formatter<W>,
    table: &str,
    numbers: (Option<u32>, Option<u32>),
    rule: &str,
) -> fmt::Result
    ensures { WritesOnOk W.write_str_gives f.old result (pair_text table.now numbers.0 numbers.1 rule.now) f.new }
{
    match numbers {
        (Some(one), Some(other)) => write!(f, "{table} {one} {other}: {rule}"),
        _ => write!(f, "{table}: {rule}"),
    }
}

impl fmt::Display for Fault {
    ghost output = { λ fault. Some (fault_text fault) };

    fn fmt<W: fmt::Write>(&self, f: &mut fmt::Formatter<W>) -> fmt::Result {
        match self {
            Fault::Desk(rule) => write_row(f, "desk", None, rule.words()),
            Fault::Upgrade(rule) => write_row(f, "upgrade", None, rule.words()),
            Fault::Party { number, rule } => write_row(f, "party", *number, rule.words()),
            Fault::Parcel { number, rule } => write_row(f, "parcel", *number, rule.words()),
            Fault::Interest {
                parcel,
                party,
                rule,
            } => write_pair(f, "interest", (*parcel, *party), rule.words()),
            Fault::File { number, rule } => write_row(f, "file", *number, rule.words()),
            Fault::Paper { file, number, rule } => write_pair(
                f,
                "paper",
                (*file, *number),
                rule.words(),
            ),
        }
    }
}
