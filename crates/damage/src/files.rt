//! The damaged files, rule by rule.

use crate::sample::{SAMPLE, TURNED, patch, tell, with};
use anyhow::Context;
use records::reader::Record;
use records::record::{EVENT_LEN, Event};
use session::file::{SessionFile, open};
use std::alloc::{AllocError, Global};

/// Rule 1.
pub(crate) fn lengths(rt: &HostRuntime) -> anyhow::Result<()> {
    tell(rt, "the sample", &SAMPLE)?;
    for len in 0..21 {
        tell(rt, "cut", &SAMPLE[0..len])?;
    }
    tell(rt, "without its last byte", &SAMPLE[0..83])?;
    with(rt, SAMPLE, "length field one more", &[(16, 85)])?;
    with(rt, SAMPLE, "length field one less", &[(16, 83)])?;
    with(rt, SAMPLE, "length field 2^24 more", &[(19, 1)])?;
    with(
        rt,
        SAMPLE,
        "wrong length before a wrong edition",
        &[(16, 85), (0, 2)],
    )
}

/// Rule 2.
pub(crate) fn editions(rt: &HostRuntime) -> anyhow::Result<()> {
    with(rt, SAMPLE, "edition 0", &[(0, 0)])?;
    with(rt, SAMPLE, "edition 2", &[(0, 2)])?;
    with(rt, SAMPLE, "edition 257", &[(1, 1)])?;
    with(rt, SAMPLE, "edition 2 before no codes", &[(0, 2), (2, 0)])
}

/// Rule 3.
pub(crate) fn counts(rt: &HostRuntime) -> anyhow::Result<()> {
    with(rt, SAMPLE, "no codes", &[(2, 0)])?;
    with(rt, SAMPLE, "64 codes, which do not fit", &[(2, 64)])?;
    with(rt, SAMPLE, "65 codes", &[(2, 65)])?;
    with(rt, SAMPLE, "258 codes", &[(3, 1)])?;
    with(rt, SAMPLE, "no events", &[(4, 0)])?;
    with(
        rt,
        SAMPLE,
        "65,536 events, which do not fit",
        &[(4, 0), (6, 1)],
    )?;
    with(rt, SAMPLE, "65,537 events", &[(4, 1), (6, 1)])?;
    with(rt, SAMPLE, "no codes and no events", &[(2, 0), (4, 0)])?;
    with(
        rt,
        SAMPLE,
        "no events before misplaced codes",
        &[(4, 0), (8, 19)],
    )
}

/// Rule 4.
pub(crate) fn sections(rt: &HostRuntime) -> anyhow::Result<()> {
    with(rt, SAMPLE, "codes at byte 19", &[(8, 19)])?;
    with(rt, SAMPLE, "codes over the events by a byte", &[(8, 21)])?;
    with(rt, SAMPLE, "codes on the last event", &[(8, 68)])?;
    with(rt, SAMPLE, "codes past the end by a byte", &[(8, 69)])?;
    with(
        rt,
        SAMPLE,
        "codes near 2^32",
        &[(8, 248), (9, 255), (10, 255), (11, 255)],
    )?;
    with(rt, SAMPLE, "events over the codes by a byte", &[(12, 35)])?;
    with(rt, SAMPLE, "events past the end by a byte", &[(12, 37)])?;
    with(
        rt,
        SAMPLE,
        "events near 2^32",
        &[(12, 240), (13, 255), (14, 255), (15, 255)],
    )?;
    with(
        rt,
        SAMPLE,
        "misplaced codes before a bad code",
        &[(8, 19), (23, 3)],
    )
}

/// Sections in the other order, with gaps.
pub(crate) fn orders(rt: &HostRuntime) -> anyhow::Result<()> {
    tell(rt, "the turned sample", &TURNED)?;
    with(
        rt,
        TURNED,
        "turned, events moved up to the codes",
        &[(12, 24)],
    )?;
    with(
        rt,
        TURNED,
        "turned, events over the codes by a byte",
        &[(12, 25)],
    )?;
    with(
        rt,
        TURNED,
        "turned, codes right after the events",
        &[
            (8, 70),
            (70, 136),
            (71, 198),
            (72, 250),
            (73, 0),
            (74, 1),
            (75, 0),
            (76, 0),
            (77, 0),
            (81, 0),
            (80, 250),
            (79, 198),
            (78, 136),
            (82, 3),
            (83, 0),
            (84, 0),
        ],
    )?;
    with(
        rt,
        TURNED,
        "turned, codes over the events by a byte",
        &[(8, 69)],
    )?;
    with(rt, TURNED, "turned, events at byte 19", &[(12, 19)])?;
    with(
        rt,
        TURNED,
        "turned, codes to the end",
        &[
            (8, 74),
            (84, 250),
            (85, 0),
            (86, 1),
            (87, 0),
            (88, 0),
            (89, 0),
            (77, 0),
            (78, 1),
            (79, 0),
            (80, 0),
            (81, 0),
        ],
    )?;
    with(
        rt,
        TURNED,
        "turned, codes past the end by a byte",
        &[(8, 75)],
    )
}

/// Rule 5.
pub(crate) fn codes(rt: &HostRuntime) -> anyhow::Result<()> {
    with(rt, SAMPLE, "effect 3 in the first code", &[(23, 3)])?;
    with(rt, SAMPLE, "effect 3 in the last code", &[(31, 3)])?;
    with(rt, SAMPLE, "effect 255", &[(23, 255)])?;
    with(rt, SAMPLE, "factor 65,520", &[(24, 240), (25, 255)])?;
    with(rt, SAMPLE, "factor 65,521", &[(24, 241), (25, 255)])?;
    with(rt, SAMPLE, "first reserved byte", &[(26, 1)])?;
    with(
        rt,
        SAMPLE,
        "last reserved byte of the last code",
        &[(35, 1)],
    )?;
    with(rt, SAMPLE, "two bad codes", &[(23, 3), (31, 3)])?;
    with(
        rt,
        SAMPLE,
        "bad code before a bad event",
        &[(31, 3), (40, 2)],
    )
}

/// Rule 6: times of day, codes and flags.
pub(crate) fn events(rt: &HostRuntime) -> anyhow::Result<()> {
    with(
        rt,
        SAMPLE,
        "last millisecond of the day",
        &[(68, 255), (69, 91), (70, 38), (71, 5)],
    )?;
    with(
        rt,
        SAMPLE,
        "midnight",
        &[(68, 0), (69, 92), (70, 38), (71, 5)],
    )?;
    with(rt, SAMPLE, "last code", &[(40, 1)])?;
    with(rt, SAMPLE, "code past the last", &[(40, 2)])?;
    with(rt, SAMPLE, "code 255 in the last event", &[(72, 255)])?;
    with(rt, SAMPLE, "flag 2", &[(41, 2)])?;
    with(rt, SAMPLE, "flag 255 in the last event", &[(73, 255)])?;
    with(rt, SAMPLE, "two bad events", &[(40, 2), (72, 2)])?;
    with(
        rt,
        SAMPLE,
        "bad event behind a late one",
        &[(52, 9), (73, 2)],
    )
}

/// Rule 6: prices.
pub(crate) fn prices(rt: &HostRuntime) -> anyhow::Result<()> {
    with(rt, SAMPLE, "no flag, price 1", &[(60, 1)])?;
    with(rt, SAMPLE, "no flag, price -2^31", &[(63, 128)])?;
    with(rt, SAMPLE, "no flag, quantity 1", &[(64, 1)])?;
    with(rt, SAMPLE, "no flag, quantity 2^24", &[(67, 1)])?;
    with(rt, SAMPLE, "flag, price 0 and quantity 0", &[(57, 1)])?;
    with(rt, SAMPLE, "flag taken from a priced event", &[(41, 0)])
}

/// Rule 7.
pub(crate) fn times(rt: &HostRuntime) -> anyhow::Result<()> {
    with(rt, SAMPLE, "second event one earlier", &[(52, 9)])?;
    with(
        rt,
        SAMPLE,
        "last event one earlier than the one before",
        &[(68, 9)],
    )?;
    with(
        rt,
        SAMPLE,
        "last event at the time of the one before",
        &[(68, 10)],
    )?;
    with(rt, SAMPLE, "two late events", &[(52, 9), (68, 8)])?;
    with(rt, SAMPLE, "first event at time 0", &[(36, 0)])?;
    with(rt, SAMPLE, "first event later than the others", &[(36, 30)])
}

/// The largest file: 64 codes and 65,536 events, all of them zeros.
fn full_day(heap: Global) -> Result<Vec<u8>, AllocError> {
    let header: [u8; 20] = [
        1, 0, 64, 0, 0, 0, 1, 0, 20, 0, 0, 0, 20, 2, 0, 0, 20, 2, 16, 0,
    ];
    let mut file = header.to_vec(heap)?;
    file.resize(532 + 16 * 65_536, 0)?;
    Ok(file)
}

/// Files of 64 codes and 65,536 events.
pub(crate) fn full(rt: &HostRuntime) -> anyhow::Result<()> {
    let mut file = full_day(rt.alloc())?;
    tell(rt, "64 codes and 65,536 events", &file)?;
    let last = 532 + 16 * 65_535;
    patch(&mut file, &[(last + 4, 63)]);
    tell(rt, "full, the last event of code 63", &file)?;
    patch(&mut file, &[(last + 4, 64)]);
    tell(rt, "full, the last event of code 64", &file)?;
    patch(&mut file, &[(last + 4, 0), (last - 16, 1)]);
    tell(rt, "full, the last event late", &file)?;
    patch(&mut file, &[(last - 16, 0), (4, 1)]);
    tell(rt, "65,537 events", &file)?;
    patch(&mut file, &[(4, 0), (2, 65)]);
    tell(rt, "65 codes", &file)
}

/// A line for what a call of a reader gives.
fn tell_next(rt: &HostRuntime, record: Option<Record<EVENT_LEN>>) -> anyhow::Result<()> {
    match record {
        Some(record) => {
            let event = Event::decode(record.bytes);
            let place = record.place;
            println!(rt; "event {place}: time {}, price {}", event.time, event.price)?
        }
        None => println!(rt; "none")?,
    }
    Ok(())
}

/// A line for the code at a place.
fn tell_code(rt: &HostRuntime, file: &SessionFile, place: usize) -> anyhow::Result<()> {
    match file.code_at(place) {
        Some(code) => println!(rt;
            "code {place}: map {}, factor {}",
            code.phase_map, code.factor
        )?,
        None => println!(rt; "code {place}: none")?,
    }
    Ok(())
}

/// What the readers hand out, past the end too.
pub(crate) fn readers(rt: &HostRuntime) -> anyhow::Result<()> {
    let file = open(&TURNED).context("the turned sample is not accepted")?;
    let mut events = file.events();
    for _ in 0..5 {
        tell_next(rt, events.next())?;
    }
    for place in 0..3 {
        tell_code(rt, &file, place)?;
    }
    let past = file.event_at(3).is_none();
    println!(rt; "no event 3: {past}")?;
    Ok(())
}
