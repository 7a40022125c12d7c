//! Parcel lists that are imported over vectors.

use crate::streams::{Narrow, Trickle};
use permit_import::fault::ImportFault;
use permit_import::heading::heading_reason;
use permit_import::importing::import;
use permit_import::tally::Tally;
use permit_office::office::Office;
use permit_samples::ask::TOKENS;
use permit_samples::held::Held;
use permit_samples::makers::{day, parcel, token};
use permit_samples::offices::over_vectors;
use permit_samples::opening::OPENING;
use permit_samples::script::play;
use permit_store::plain::PlainStore;
use permit_store::store::Store;
use std::alloc::Global;
use std::io::{Read, Write, sink};
use std::test::Fail;

/// The list of the worked rows.
const LIST: &str = "lot,address,owner\nB-1,1 High St,5\nB-2,2 High St,99\nB-1,Other,5\n";

/// The office with its seven parties and two parcels.
fn opened(alloc: Global) -> Result<Held<Office<PlainStore>>, Fail> {
    let mut office = Held::new(over_vectors(alloc)?);
    play(alloc, &mut office.value, OPENING)?;
    Ok(office)
}

/// How an import by the party ends on a day, and what it writes.
fn imported<R: Read + Drop>(
    alloc: Global,
    office: &mut Office<PlainStore>,
    letters: &str,
    number: u32,
    reader: R,
) -> Result<(Result<Tally, ImportFault>, String), Fail> {
    let token = token(alloc, letters)?;
    let mut out = Vec::new(alloc);
    let day = day(number)?;
    let ended = import(
        alloc,
        office,
        &token,
        day,
        false,
        reader,
        &mut out,
        &mut sink(),
    );
    Ok((ended, String::from_utf8(out).ok().ok_or("lines are text")?))
}

/// What an import of a whole list by the clerk writes, with its counts.
fn lines(
    alloc: Global,
    office: &mut Office<PlainStore>,
    list: &[u8],
) -> Result<((u32, u32, u32), String), Fail> {
    let (ended, lines) = imported(alloc, office, TOKENS[1], 19700, list)?;
    match ended {
        Ok(tally) => Ok(((tally.added, tally.kept, tally.refused), lines)),
        Err(_) => Err(Fail::new("an import with its counts")),
    }
}

/// How many parcels there are.
fn parcels(office: Held<Office<PlainStore>>) -> Result<u32, Fail> {
    let mut store = Held::new(office.into_inner().into_store());
    Ok(store.value.desk()?.parcels)
}

/// The address of a parcel.
fn address_of(
    alloc: Global,
    office: Held<Office<PlainStore>>,
    number: u32,
) -> Result<String, Fail> {
    let mut store = Held::new(office.into_inner().into_store());
    let found = Held::new(store.value.parcel(parcel(number)?)?);
    let found = found.value.as_ref().ok_or("a parcel")?;
    Ok(String::from_str(alloc, found.address.as_str())?)
}

#[test]
fn import_twice(rt: HostRuntime) -> Result<(), Fail> {
    let mut office = opened(rt.alloc())?;
    let (counts, first) = lines(rt.alloc(), &mut office.value, LIST.as_bytes())?;
    assert_eq!(rt;
        first.as_str(),
        "1 added 3\n2 refused: not admitted, person\n3 kept\nadded 1 kept 1 refused 1\n"
    );
    assert_eq!(rt; counts, (1, 1, 1));
    let (counts, again) = lines(rt.alloc(), &mut office.value, LIST.as_bytes())?;
    assert_eq!(rt;
        again.as_str(),
        "1 kept\n2 refused: not admitted, person\n3 kept\nadded 0 kept 2 refused 1\n"
    );
    assert_eq!(rt; counts, (0, 2, 1));
    assert_eq!(rt; parcels(office)?, 3);
    Ok(())
}

#[test]
fn import_denied(rt: HostRuntime) -> Result<(), Fail> {
    let mut office = opened(rt.alloc())?;
    let (ended, lines) = imported(
        rt.alloc(),
        &mut office.value,
        TOKENS[4],
        19700,
        LIST.as_bytes(),
    )?;
    assert_eq!(rt;
        lines.as_str(),
        "1 refused: denied by default\n2 refused: denied by default\n3 refused: denied by default\nadded 0 kept 0 refused 3\n"
    );
    assert!(rt; ended.is_ok());
    assert_eq!(rt; parcels(office)?, 2);
    Ok(())
}

#[test]
fn callers_and_days_are_told(rt: HostRuntime) -> Result<(), Fail> {
    let mut office = opened(rt.alloc())?;
    let list = b"lot,address,owner\nB-1,1 High St,5\n".as_slice();
    let (_, lines) = imported(
        rt.alloc(),
        &mut office.value,
        "0000000000000000",
        19700,
        list,
    )?;
    assert_eq!(rt;
        lines.as_str(),
        "1 refused: caller\nadded 0 kept 0 refused 1\n"
    );
    let (_, lines) = imported(rt.alloc(), &mut office.value, TOKENS[1], 19699, list)?;
    assert_eq!(rt;
        lines.as_str(),
        "1 refused: clock\nadded 0 kept 0 refused 1\n"
    );
    Ok(())
}

#[test]
fn another_first_record_is_a_fault(rt: HostRuntime) -> Result<(), Fail> {
    for list in [
        "",
        "\n\n",
        "lot,address\n",
        "lot,address,owner,more\n",
        "Lot,address,owner\n",
        "B-1,1 High St,5\n",
    ] {
        let mut office = opened(rt.alloc())?;
        let (ended, lines) = imported(
            rt.alloc(),
            &mut office.value,
            TOKENS[1],
            19700,
            list.as_bytes(),
        )?;
        assert!(rt; ended == Err(ImportFault::FirstRecord), "{list}");
        assert!(rt; lines.is_empty());
        assert_eq!(rt; parcels(office)?, 2);
    }
    Ok(())
}

#[test]
fn a_list_may_have_no_record_behind_the_first(rt: HostRuntime) -> Result<(), Fail> {
    let mut office = opened(rt.alloc())?;
    let (_, lines) = lines(rt.alloc(), &mut office.value, b"lot,address,owner")?;
    assert_eq!(rt; lines.as_str(), "added 0 kept 0 refused 0\n");
    Ok(())
}

#[test]
fn a_reader_that_fails_leaves_what_was_tried(rt: HostRuntime) -> Result<(), Fail> {
    let mut office = opened(rt.alloc())?;
    let reader = Trickle {
        rest: b"lot,address,owner\nB-1,1 High St,5\nB-2,2 Hi",
        fails: true,
    };
    let (ended, lines) = imported(rt.alloc(), &mut office.value, TOKENS[1], 19700, reader)?;
    assert!(rt; ended == Err(ImportFault::Reading));
    assert_eq!(rt; lines.as_str(), "1 added 3\n");
    assert_eq!(rt; parcels(office)?, 3);
    Ok(())
}

#[test]
fn a_writer_that_fails_leaves_what_was_tried(rt: HostRuntime) -> Result<(), Fail> {
    let whole = b"1 added 3\n2 refused: not admitted, person\n3 kept\nadded 1 kept 1 refused 1\n";
    for fails_at in [0, 4, 10, 30, 50, 60] {
        let mut office = opened(rt.alloc())?;
        let token = token(rt.alloc(), TOKENS[1])?;
        let mut out = Narrow::new(7, fails_at);
        let ended = import(
            rt.alloc(),
            &mut office.value,
            &token,
            day(19700)?,
            false,
            LIST.as_bytes(),
            &mut out,
            &mut sink(),
        );
        assert!(rt; ended == Err(ImportFault::Writing));
        assert!(rt; whole.starts_with(out.taken()) && out.taken().len() == fails_at);
        assert_eq!(rt; parcels(office)?, 3);
    }
    Ok(())
}

#[test]
fn records_out_of_form_are_refused_one_by_one(rt: HostRuntime) -> Result<(), Fail> {
    let mut office = opened(rt.alloc())?;
    let list =
        b"lot,address,owner\nB-1,1 High St\nB-1,1 High St,5,6\nB-1\nB-1,\xff,5\nb-1,1 High St,5\nB-1,,5\nB-1,1 High St,05\nB-1,1 High St,0\nB-1,1 High St,100000\nB-1,1 High St,+5\nB-1,1 High St,\nB-1,1 High St,5\n";
    let (counts, lines) = lines(rt.alloc(), &mut office.value, list)?;
    assert_eq!(rt;
        lines.as_str(),
        "1 refused: syntax\n2 refused: syntax\n3 refused: syntax\n4 refused: syntax\n5 refused: syntax\n6 refused: syntax\n7 refused: syntax\n8 refused: syntax\n9 refused: syntax\n10 refused: syntax\n11 refused: syntax\n12 added 3\nadded 1 kept 0 refused 11\n"
    );
    assert_eq!(rt; counts, (1, 0, 11));
    Ok(())
}

#[test]
fn quotes_marks_and_empty_lines_are_read_as_such(rt: HostRuntime) -> Result<(), Fail> {
    let mut office = opened(rt.alloc())?;
    let list = b"\xEF\xBB\xBFlot,address,owner\r\n\r\n\"B-1\",\"1, High \"\"St\"\"\",5\r\n\r\n";
    let (_, lines) = lines(rt.alloc(), &mut office.value, list)?;
    assert_eq!(rt; lines.as_str(), "1 added 3\nadded 1 kept 0 refused 0\n");
    assert_eq!(rt;
        address_of(rt.alloc(), office, 3)?.as_str(),
        "1, High \"St\""
    );
    Ok(())
}

/// What an import by a party writes that is asked to say why, with whether it ended with its counts: the lines of the records, and,
/// to a writer of its own, the causes.
fn explained<E: Write>(
    alloc: Global,
    office: &mut Office<PlainStore>,
    letters: &str,
    number: u32,
    list: &[u8],
    causes: &mut E,
) -> Result<(bool, String), Fail> {
    let token = token(alloc, letters)?;
    let day = day(number)?;
    let mut out = Vec::new(alloc);
    let ended = import(alloc, office, &token, day, true, list, &mut out, causes);
    Ok((
        ended.is_ok(),
        String::from_utf8(out).ok().ok_or("lines are text")?,
    ))
}

/// A list with six records that are refused.
const REFUSED: &[u8] =
    b"lot,address,owner\nB-1,1 High St\nB-1,\xff,5\nb-1,1 High St,5\nB-1,,5\nB-1,1 High St,05\nB-1,1 High St,99\nB-1,1 High St,5\nB-1,Other,5\n";

/// What is written of each of its records, and of the counts.
const REFUSED_LINES: &str =
    "1 refused: syntax\n2 refused: syntax\n3 refused: syntax\n4 refused: syntax\n5 refused: syntax\n6 refused: not admitted, person\n7 added 3\n8 kept\nadded 1 kept 1 refused 6\n";

/// Why those records are refused.
const REFUSED_CAUSES: &str =
    "1 why: record: field count 2: lot,address,owner\n2 why: address: not UTF-8\n3 why: lot: 1 to 20 of A-Z, 0-9 and -\n4 why: address: 1 to 2000 bytes without a control character\n5 why: owner: a party's number, 1 to 99999\n6 why: owner: no party has this number\n";

#[test]
fn each_refusal_is_explained_in_a_line(rt: HostRuntime) -> Result<(), Fail> {
    let mut office = opened(rt.alloc())?;
    let mut causes = Vec::new(rt.alloc());
    let (whole, lines) = explained(
        rt.alloc(),
        &mut office.value,
        TOKENS[1],
        19700,
        REFUSED,
        &mut causes,
    )?;
    assert!(rt; whole);
    assert_eq!(rt; lines.as_str(), REFUSED_LINES);
    assert!(rt; causes.as_slice() == REFUSED_CAUSES.as_bytes());
    Ok(())
}

#[test]
fn causes_that_cannot_be_written_change_no_line(rt: HostRuntime) -> Result<(), Fail> {
    for fails_at in [0, 20, 48, 60, 200] {
        for stalls in [false, true] {
            let mut office = opened(rt.alloc())?;
            let mut causes = if stalls {
                Narrow::stalling(7, fails_at)
            } else {
                Narrow::new(7, fails_at)
            };
            let (whole, lines) = explained(
                rt.alloc(),
                &mut office.value,
                TOKENS[1],
                19700,
                REFUSED,
                &mut causes,
            )?;
            assert!(rt; whole);
            assert_eq!(rt; lines.as_str(), REFUSED_LINES);
            assert!(rt; REFUSED_CAUSES.as_bytes().starts_with(causes.taken()));
            assert!(rt; causes.taken().len() == fails_at);
            assert_eq!(rt; parcels(office)?, 3);
        }
    }
    Ok(())
}

#[test]
fn what_the_office_refuses_is_explained(rt: HostRuntime) -> Result<(), Fail> {
    let list = b"lot,address,owner\nB-1,1 High St,5\n";
    for (letters, number, wanted, cause) in [
        (
            TOKENS[4],
            19700,
            "1 refused: denied by default\nadded 0 kept 0 refused 1\n",
            "1 why: policy: denied by default\n",
        ),
        (
            "nobodyhasthistoken",
            19700,
            "1 refused: caller\nadded 0 kept 0 refused 1\n",
            "1 why: token: no party has it\n",
        ),
        (
            TOKENS[1],
            0,
            "1 refused: clock\nadded 0 kept 0 refused 1\n",
            "1 why: day: before that of the last accepted command\n",
        ),
    ] {
        let mut office = opened(rt.alloc())?;
        let mut causes = Vec::new(rt.alloc());
        let (whole, lines) = explained(
            rt.alloc(),
            &mut office.value,
            letters,
            number,
            list,
            &mut causes,
        )?;
        assert!(rt; whole);
        assert_eq!(rt; lines.as_str(), wanted);
        assert!(rt; causes.as_slice() == cause.as_bytes());
    }
    Ok(())
}

#[test]
fn a_heading_that_is_wrong_is_shown(rt: HostRuntime) -> Result<(), Fail> {
    let empty: &[u8] = b"";
    let semicolons: &[u8] = b"lot;address;owner\nB-1;1 High St;5\n";
    let others: &[u8] = b"Lot,\x1b[1maddress,owner,more,still more\n";
    let long: &[u8] =
        b"lot,an-address-that-goes-on-and-on-and-on-and-on-and-on-and-on-and-on-and-on\n";
    for (list, wanted) in [
        (empty, "heading: lot,address,owner"),
        (semicolons, "heading `lot;address;owner`: lot,address,owner"),
        (
            others,
            "heading `Lot` `?[1maddress` `owner` `more`: lot,address,owner",
        ),
        (
            long,
            "heading `lot` `an-address-that-goes-on-and-on-and-on-and-on-and-on-and-on-a`: lot,address,owner",
        ),
    ] {
        let reason = heading_reason(rt.alloc(), list)?.ok_or("a reason")?;
        assert_eq!(rt; reason.as_str(), wanted);
        let mut office = opened(rt.alloc())?;
        let mut causes = Vec::new(rt.alloc());
        let (whole, lines) = explained(
            rt.alloc(),
            &mut office.value,
            TOKENS[1],
            19700,
            list,
            &mut causes,
        )?;
        assert!(rt; !whole);
        assert_eq!(rt; lines.as_str(), "");
        assert!(rt; causes.as_slice().is_empty());
        let (ended, fixed) = imported(rt.alloc(), &mut office.value, TOKENS[1], 19700, list)?;
        assert!(rt; ended == Err(ImportFault::FirstRecord));
        assert_eq!(rt; fixed.as_str(), "");
        assert_eq!(rt; parcels(office)?, 2);
    }
    Ok(())
}

#[test]
fn no_heading_is_shown_that_is_right_or_unread(rt: HostRuntime) -> Result<(), Fail> {
    assert!(rt; heading_reason(rt.alloc(), LIST.as_bytes())?.is_none());
    let reader = Trickle {
        rest: b"lot;address",
        fails: true,
    };
    assert!(rt; heading_reason(rt.alloc(), reader)?.is_none());
    Ok(())
}
