//! Elements by example.

use crate::chain_map::ChainMap;
use crate::extreme::{Best, Extreme};
use crate::halt_summary::{HaltCounts, HaltSummary};
use crate::kind::{Entry, Kind, elements_of};
use records::record::{Code, Effect, Event};
use semigroup::{Semigroup, product_of};
use std::test::Fail;

fn entry(number: u16, factor: u16, effect: Effect, price: i32, quantity: u32) -> Entry {
    let event = Event {
        time: 0,
        code: 0,
        price_flag: 1,
        participant: 0,
        price,
        quantity,
    };
    let code = Code {
        phase_map: 0,
        effect: Some(effect),
        factor,
        reserved: 0,
    };
    Entry {
        number,
        event,
        code,
    }
}

/// The product of the entries' elements.
fn whole<K: Kind>(rt: &HostRuntime, entries: &[Entry]) -> Result<K, Fail> {
    let elements = elements_of::<K>(rt.alloc(), entries)?;
    Ok(product_of(&elements).ok_or("no events")?)
}

#[test]
fn resumptions_end_halts(rt: HostRuntime) -> Result<(), Fail> {
    let halt = entry(0, 1, Effect::Halt, 0, 0);
    let end = entry(0, 1, Effect::Resumption, 0, 0);
    let left = whole::<HaltSummary>(&rt, &[halt, halt])?;
    let right = whole::<HaltSummary>(&rt, &[end, end, end, halt])?;
    let expected = HaltCounts {
        events: 6,
        unmatched: 1,
        pending: 1,
    };
    assert_eq!(rt; left.combine(right).counts(), Some(expected));
    Ok(())
}

#[test]
fn first_of_equal_prices(rt: HostRuntime) -> Result<(), Fail> {
    let low = entry(0, 1, Effect::Nothing, 100, 10);
    let first = entry(3, 1, Effect::Nothing, 105, 4);
    let second = entry(4, 1, Effect::Nothing, 105, 9);
    let day = whole::<Extreme>(&rt, &[low, first, second])?;
    let expected = Best {
        price: 105,
        event: 3,
    };
    assert_eq!(rt; day.best(), Some(expected));
    Ok(())
}

#[test]
fn chain_of_three_events(rt: HostRuntime) -> Result<(), Fail> {
    let bought = entry(0, 1, Effect::Nothing, 100, 10);
    let doubled = entry(1, 2, Effect::Halt, 0, 0);
    let tripled = entry(2, 3, Effect::Resumption, 0, 0);
    let day = whole::<ChainMap>(&rt, &[bought, doubled, tripled])?;
    assert_eq!(rt; (day.apply(0), day.apply(1)), (60, 66));
    Ok(())
}
