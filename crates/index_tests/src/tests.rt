use crate::ends::Ends;
use crate::vast::Vast;
use basic_schemes::flat::Flat;
use basic_schemes::halving::Halving;
use index::{Built, Draft, IndexFault};
use scheme::{CellNo, EventNo, Piece, Scheme};
use std::process::Abort;
use std::test::Fail;

const NOWHERE: Piece = Piece {
    cell: CellNo(99),
    first: EventNo(99),
    last: EventNo(99),
};

const NOTHING: Ends = Ends {
    first: 99,
    last: 99,
};

// Three items, and room for the cells of three events.
const TABLE: [Ends; 6] = [
    Ends { first: 0, last: 0 },
    Ends { first: 1, last: 1 },
    Ends { first: 2, last: 2 },
    NOTHING,
    NOTHING,
    NOTHING,
];

fn build(table: &mut [Ends]) -> Result<Built<Flat>, Fail> {
    let draft = Draft::new(Flat, 3).map_err(|_| Fail::new("not drafted"))?;
    draft.build(table).map_err(|_| Fail::new("not built"))
}

fn granted<X: Drop>(res: Result<X, IndexFault>) -> Result<X, Fail> {
    res.map_err(|_| Fail::new("refused"))
}

fn check_refused<X: Drop>(
    rt: &impl Abort,
    res: Result<X, IndexFault>,
    number: u32,
    place: u64,
) -> Result<(), Fail> {
    let fault = res.err().ok_or_else(|| Fail::new("granted"))?;
    assert_eq!(rt; fault.number(), number);
    assert_eq!(rt; fault.place(), place);
    Ok(())
}

fn ends(first: u32, last: u32) -> Ends {
    Ends { first, last }
}

fn piece(cell: u64, first: u32, last: u32) -> Piece {
    Piece {
        cell: CellNo(cell),
        first: EventNo(first),
        last: EventNo(last),
    }
}

#[test]
fn counts_of_events(rt: HostRuntime) -> Result<(), Fail> {
    check_refused(&rt, Draft::new(Flat, 0), 8, 0)?;
    assert!(rt; Draft::new(Flat, 1).is_ok());
    assert!(rt; Draft::new(Flat, 65_536).is_ok());
    check_refused(&rt, Draft::new(Flat, 65_537), 8, 65_537)
}

#[test]
fn tables_too_short(rt: HostRuntime) -> Result<(), Fail> {
    let mut table = TABLE;
    let draft = granted(Draft::new(Flat, 3))?;
    assert_eq!(rt; draft.cells(), 6);
    let built = draft.build(&mut table[0..5]);
    let refused = built
        .err()
        .ok_or_else(|| Fail::new("built over five cells"))?;
    assert_eq!(rt; refused.fault.number(), 9);
    assert_eq!(rt; refused.fault.place(), 6);
    assert!(rt; refused.draft.build(&mut table).is_ok());
    Ok(())
}

#[test]
fn other_tables_too_short(rt: HostRuntime) -> Result<(), Fail> {
    let mut table = TABLE;
    let built = build(&mut table)?;
    assert_eq!(rt; built.cells(), 6);
    let query = built.query(&table[0..5], EventNo(0), EventNo(9), &mut []);
    check_refused(&rt, query, 9, 6)?;
    let update = built.update(&mut table[0..5], EventNo(9), NOTHING);
    check_refused(&rt, update, 9, 6)
}

#[test]
fn cells_uncounted(rt: HostRuntime) -> Result<(), Fail> {
    let draft = granted(Draft::new(Vast::Uncounted, 3))?;
    let refused = draft
        .build(&mut TABLE)
        .err()
        .ok_or_else(|| Fail::new("built"))?;
    assert_eq!(rt; refused.fault.number(), 9);
    assert_eq!(rt; refused.fault.place(), 1 << 40);
    Ok(())
}

#[test]
fn runs_and_traces_refused(rt: HostRuntime) -> Result<(), Fail> {
    let mut table = TABLE;
    let built = build(&mut table)?;
    check_refused(
        &rt,
        built.query(&table, EventNo(2), EventNo(1), &mut []),
        10,
        1,
    )?;
    check_refused(
        &rt,
        built.query(&table, EventNo(0), EventNo(3), &mut []),
        10,
        3,
    )?;
    check_refused(
        &rt,
        built.query(&table, EventNo(0), EventNo(2), &mut []),
        11,
        1,
    )?;
    check_refused(&rt, built.update(&mut table, EventNo(3), NOTHING), 10, 3)
}

#[test]
fn trace_of_a_run(rt: HostRuntime) -> Result<(), Fail> {
    let mut table = TABLE;
    let mut trace = [NOWHERE; 2];
    let built = build(&mut table)?;
    let answer = granted(built.query(&table, EventNo(0), EventNo(2), &mut trace))?;
    assert_eq!(rt; answer.combinations, 0);
    assert_eq!(rt; answer.value, ends(0, 2));
    assert_eq!(rt; trace[0], piece(5, 0, 2));
    assert_eq!(rt; trace[1], NOWHERE);
    Ok(())
}

#[test]
fn tables_not_as_built(rt: HostRuntime) -> Result<(), Fail> {
    let mut table = TABLE;
    let mut trace = [NOWHERE; 1];
    let built = build(&mut table)?;
    table[5] = Ends { first: 7, last: 8 };
    let changed = granted(built.query(&table, EventNo(0), EventNo(2), &mut trace))?;
    assert_eq!(rt; changed.value, ends(7, 8));
    granted(built.update(&mut table, EventNo(1), Ends { first: 5, last: 6 }))?;
    assert_eq!(rt; table[1], ends(5, 6));
    assert_eq!(rt; table[0], ends(0, 0));
    Ok(())
}

#[test]
fn two_pieces_not_as_built(rt: HostRuntime) -> Result<(), Fail> {
    let mut table = TABLE;
    let mut trace = [NOWHERE; 2];
    let draft = granted(Draft::new(Halving, 3))?;
    let built = draft.build(&mut table).map_err(|_| Fail::new("not built"))?;
    table[3] = Ends { first: 7, last: 7 };
    table[5] = Ends { first: 8, last: 8 };
    let answer = granted(built.query(&table, EventNo(0), EventNo(2), &mut trace))?;
    assert_eq!(rt; answer.value, ends(7, 8));
    assert_eq!(rt; trace[0], piece(3, 0, 1));
    assert_eq!(rt; trace[1], piece(5, 2, 2));
    Ok(())
}
