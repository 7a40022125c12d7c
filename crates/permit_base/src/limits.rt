//! The numbers of the rules: how many records there are at most, and how many days each thing has.

ghost use Rattle.std.specs.Prelude.{◌≡◌, ◌+◌, ◌<◌, nat_lt, if◌then◌else◌, Some, None};
ghost use Rattle.permit_base.specs.Limits.{most_records};

/// The most parties, parcels and files, and so the greatest number of each.
pub const MOST_RECORDS: u32 = 99999;

/// The most papers of a file, and so the greatest number of one.
pub const MOST_PAPERS: u16 = 9999;

/// The latest day that the office takes, in days since 1970-01-01: 2243-10-17.
pub const LATEST_DAY: u32 = 100000;

/// The latest deadline of a file, in days since 1970-01-01: 2517-08-01.
pub const LATEST_DEADLINE: u32 = 200000;

/// The greatest amount, in cents.
pub const MOST_CENTS: u64 = 9999999999999;

/// The most days that a request names: those of an extension or of a temporary certificate.
pub const MOST_DAYS: u32 = 365;

/// The days that a filing, an issue and each activity give (IBC 2018, sections 105.3.2 and 105.5).
pub const TERM: u32 = 180;

/// The most days left before a deadline that is near.
pub const NEAR_DAYS: u32 = 30;

/// The most days of an extension before the permit is issued (IBC 2018, section 105.3.2).
pub const LONGEST_REVIEW_EXTENSION: u32 = 90;

/// The most days of an extension once the permit is issued (IBC 2018, section 105.5).
pub const LONGEST_PERMIT_EXTENSION: u32 = 180;

/// The most days of a temporary certificate.
pub const LONGEST_TEMPORARY: u32 = 180;

/// The number of the record after so many of its kind, where there may be one more.
pub fn number_after(count: u32) -> Option<u32>
    ensures exact { result ≡ (if nat_lt count most_records then Some (count + 1) else None) }
{
    if count < MOST_RECORDS {
        Some(count + 1)
    } else {
        None
    }
}
