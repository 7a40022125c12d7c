//! Long mixed histories through `step_as`: commands a second, and whether a command takes longer the longer the history
//! is. In the first a file follows the other from its filing to its certificate, so the count of files grows; in the
//! second the count of files is constant, and only the history grows.

use crate::clock::micros_since;
use crate::office::{INSPECTOR, OFFICIAL, PUBLIC, REVIEWER, day, digest_of, made, opened, text};
use crate::orders::{BEGINNING, COMPLETION, Caller, Order, ROUND};
use anyhow::{Result, anyhow};
use permit_base::request::Request;
use permit_base::values::{Cents, Day, Digest, FileId, ParcelId};
use permit_base::words::Kind;
use permit_office::office::Office;
use permit_store::plain::PlainStore;
use std::alloc::Global;
use std::rt::Files;
use std::time::{Clock, Instant};

/// How many commands `Site::live` gives: the filing, `BEGINNING` and `COMPLETION`.
const LIFE: u32 = 22;

/// How many commands `Site::work_on` gives a file: `ROUND`.
const TURN: u32 = 10;

/// Who works in an office.
#[derive(Drop)]
struct Callers {
    official: Digest,
    reviewer: Digest,
    inspector: Digest,
    public: Digest,
}

impl Callers {
    fn new(alloc: Global) -> Result<Callers> {
        Ok(Callers {
            official: digest_of(alloc, OFFICIAL)?,
            reviewer: digest_of(alloc, REVIEWER)?,
            inspector: digest_of(alloc, INSPECTOR)?,
            public: digest_of(alloc, PUBLIC)?,
        })
    }

    fn digest(&self, caller: Caller) -> Digest {
        match caller {
            Caller::Official => self.official,
            Caller::Reviewer => self.reviewer,
            Caller::Inspector => self.inspector,
            Caller::Public => self.public,
        }
    }
}

/// An office at work, and who works in it.
#[derive(Drop)]
struct Site {
    alloc: Global,
    office: Office<PlainStore>,
    callers: Callers,
    filing: Request,
    day: Day,
}

impl Site {
    fn opened(rt: &(impl Files + AllocGlobal), policy: &str) -> Result<Site> {
        let alloc = rt.alloc();
        Ok(Site {
            alloc,
            office: opened(rt, policy)?,
            callers: Callers::new(alloc)?,
            filing: filing(alloc)?,
            day: day()?,
        })
    }

    fn file(&mut self) -> Result<FileId> {
        let reply = self
            .office
            .step_as(&self.callers.public, &self.filing, self.day);
        made(&reply)?
            .and_then(FileId::new)
            .ok_or(anyhow!("no file"))
    }

    /// Gives an order on a file, wants it done, and gives the number of the paper that it makes.
    fn order(&mut self, file: FileId, order: Order, before: Option<u32>) -> Result<Option<u32>> {
        let caller = self.callers.digest(order.caller());
        let command = order.command(self.alloc, before)?;
        let request = Request::OnFile { file, command };
        made(&self.office.step_as(&caller, &request, self.day))
    }

    fn order_all(&mut self, file: FileId, orders: &[Order]) -> Result<()> {
        let mut made = None;
        for order in orders {
            made = self.order(file, *order, made)?;
        }
        Ok(())
    }

    /// A file that is at work: seven commands.
    fn begin(&mut self) -> Result<FileId> {
        let file = self.file()?;
        self.order_all(file, &BEGINNING)?;
        Ok(file)
    }

    /// A file's whole life.
    fn live(&mut self) -> Result<()> {
        let file = self.begin()?;
        self.order_all(file, &COMPLETION)
    }

    /// A round on each of the files, which are at work.
    fn work_on(&mut self, files: &[FileId]) -> Result<()> {
        for file in files {
            self.order_all(*file, &ROUND)?;
        }
        Ok(())
    }
}

/// The application that begins each file.
fn filing(alloc: Global) -> Result<Request> {
    Ok(Request::File {
        parcel: ParcelId::new(1).ok_or(anyhow!("no parcel"))?,
        kind: Kind::Construct,
        valuation: Cents::new(25_000_000).ok_or(anyhow!("no valuation"))?,
        description: text(alloc, "House")?,
    })
}

/// The sum of the tenths.
fn sum(tenths: &[u64; 10]) -> u64 {
    tenths
        .iter()
        .fold(0u64, |sum, tenth| sum.saturating_add(*tenth))
}

/// How many of the commands a second were done in so many microseconds.
fn a_second(commands: u64, micros: u64) -> u64 {
    commands.saturating_mul(1_000_000) / micros.max(1)
}

/// The nanoseconds of one of the commands that took so many microseconds.
fn nanos_each(micros: u64, commands: u32) -> u64 {
    micros.saturating_mul(1000) / u64::from(commands.max(1))
}

/// Prints the pace of a history whose tenths had so many commands each and took so many microseconds.
fn say(rt: &impl Print, what: &str, files: u32, commands: u32, tenths: &[u64; 10]) -> Result<()> {
    let count = u64::from(commands) * 10;
    let rate = a_second(count, sum(tenths));
    let first = nanos_each(tenths[0], commands);
    let last = nanos_each(tenths[9], commands);
    println!(rt;
        "{count} commands, {files} files {what}: {rate} commands a second; nanoseconds a command in the first tenth {first}, in the last {last}"
    )?;
    Ok(())
}

/// The microseconds of so many files' lives.
fn lives(rt: &impl Clock, site: &mut Site, files: u32) -> Result<u64> {
    let start = Instant::now(rt)?;
    for _ in 0..files {
        site.live()?;
    }
    micros_since(rt, start)
}

/// The microseconds of so many rounds over the files.
fn rounds(rt: &impl Clock, site: &mut Site, files: &[FileId], count: u32) -> Result<u64> {
    let start = Instant::now(rt)?;
    for _ in 0..count {
        site.work_on(files)?;
    }
    micros_since(rt, start)
}

/// A history of so many commands in which file follows file, each from its filing to its certificate.
pub fn measure_lives(
    rt: &(impl Files + Clock + Print + AllocGlobal),
    policy: &str,
    commands: u32,
) -> Result<()> {
    let mut site = Site::opened(rt, policy)?;
    let files = commands / LIFE / 10;
    let mut tenths = [0; 10];
    for tenth in &mut tenths {
        *tenth = lives(rt, &mut site, files)?;
    }
    say(
        rt,
        "from filing to certificate",
        files * 10,
        files * LIFE,
        &tenths,
    )
}

/// A history of so many commands on so many files at work, each in its turn.
pub fn measure_rounds(
    rt: &(impl Files + Clock + Print + AllocGlobal),
    policy: &str,
    commands: u32,
    files: u32,
) -> Result<()> {
    let mut site = Site::opened(rt, policy)?;
    let mut working = Vec::new(rt.alloc());
    for _ in 0..files {
        working.push(site.begin()?)?;
    }
    let count = (commands / TURN / 10 / files.max(1)).max(1);
    let given = count.saturating_mul(files).saturating_mul(TURN);
    let mut tenths = [0; 10];
    for tenth in &mut tenths {
        *tenth = rounds(rt, &mut site, &working, count)?;
    }
    say(rt, "at work", files, given, &tenths)
}
