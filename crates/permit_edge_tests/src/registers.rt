//! A register of many files, over vectors, and a writer that fails.

ghost use Rattle.std.specs.Prelude.{◌≤◌};

use permit_base::request::{Asked, Filter, Request};
use permit_base::values::Cents;
use permit_base::words::{Kind, RegisterKind};
use permit_office::office::Office;
use permit_office::reply::Reply;
use permit_report::register;
use permit_samples::ask::TOKENS;
use permit_samples::makers::{day, parcel, text, token};
use permit_samples::offices::over_vectors;
use permit_samples::opening::OPENING;
use permit_samples::script::play;
use permit_store::plain::PlainStore;
use permit_subcommands::failure::Failure;
use permit_subcommands::listing::{list, write_register};
use std::alloc::Global;
use std::io::{self, ErrorKind, Write};
use std::test::Fail;

/// The day of the filings.
const FILED_ON: u32 = 19723;

/// A writer that fails once it holds 300 bytes.
#[derive(Drop)]
struct Cut {
    bytes: [u8; 300],
    len: usize,
    ghost within: { len ≤ 300 },
}

impl Write for Cut {
    fn write(&mut self, bytes: &[u8]) -> io::Result<usize> {
        let free = self.bytes.len() - self.len;
        if free == 0 {
            return Err(io::Error::from(ErrorKind::BrokenPipe));
        }
        let count = bytes.len().min(free);
        self.bytes[self.len..self.len + count].copy_from_slice(&bytes[..count]);
        self.len += count;
        Ok(count)
    }

    fn flush(&mut self) -> io::Result<()> {
        Ok(())
    }
}

/// Party 5 files on parcel 1.
fn file(alloc: Global, office: &mut Office<PlainStore>) -> Result<(), Fail> {
    let request = Request::File {
        parcel: parcel(1)?,
        kind: Kind::Construct,
        valuation: Cents::new(25000000).ok_or("cents")?,
        description: text(alloc, "House")?,
    };
    let token = token(alloc, TOKENS[4])?;
    match office.step(&Asked { token, request }, day(FILED_ON)?) {
        Reply::Done { number: Some(_) } => Ok(()),
        _ => Err(Fail::new("a filing is refused")),
    }
}

#[test]
fn a_thousand_files_and_a_writer_that_fails(rt: HostRuntime) -> Result<(), Fail> {
    let alloc = rt.alloc();
    let mut office = over_vectors(alloc)?;
    play(alloc, &mut office, OPENING)?;
    for _ in 0..1000 {
        file(alloc, &mut office)?;
    }
    let official = TOKENS[0];
    let on = day(FILED_ON)?;
    let listing = list(&mut office, token(alloc, official)?, Filter::All, on)
        .ok()
        .ok_or("a listing")?;
    assert_eq!(rt; (listing.files.len(), listing.read), (1000, 1000));
    let mut whole = Vec::new(alloc);
    register(RegisterKind::Files, on, &listing.files, &mut whole)
        .ok()
        .ok_or("a register")?;
    let mut out = Vec::new(alloc);
    let token_of = token(alloc, official)?;
    let written = write_register(&mut office, token_of, RegisterKind::Files, on, &mut out);
    assert!(rt; written.is_ok());
    assert!(rt; out.as_slice() == whole.as_slice());
    let mut cut = Cut {
        bytes: [0; 300],
        len: 0,
    };
    let token_of = token(alloc, official)?;
    match write_register(&mut office, token_of, RegisterKind::Files, on, &mut cut) {
        Err(Failure::Output) => {}
        _ => return Err(Fail::new("a writer that fails is no fault of the output")),
    }
    assert!(rt; whole.starts_with(&cut.bytes));
    Ok(())
}
