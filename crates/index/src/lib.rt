//! An index over a lent table: drafted, built once, then queried and updated.
//!
//! A draft is a scheme and a number of events. A build moves it into a built index, which alone takes queries and
//! updates. Neither holds the table: each call is given it, checks it, and refuses with a fault that leaves every slice
//! as it was. Knows no scheme and no type of elements.

#![tactic(auto)]

mod building;
mod calls;
mod checks;
mod fault;

pub use fault::IndexFault;
use scheme::EventCount;

/// An index that is not built: it takes no queries and no updates.
#[derive(Debug, Drop)]
pub struct Draft<S> {
    events: EventCount,
    scheme: S,
}

/// An index that was built over a table, from its draft.
#[derive(Debug, Drop)]
pub struct Built<S> {
    draft: Draft<S>,
}

/// A build that was refused, with the draft handed back.
#[derive(Debug, Drop)]
pub struct Refused<S> {
    pub fault: IndexFault,
    pub draft: Draft<S>,
}
