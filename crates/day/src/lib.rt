//! A day: the events of a session file, each with its number and the record of its code.

#![tactic(auto)]

ghost use Rattle.std.specs.Prelude.{◌≡◌, IfOk};
ghost use Rattle.records.specs.Fields.{event_of};
ghost use Rattle.day.specs.Day.{numbered_entry, day_of};

use kinds::kind::Entry;
use records::reader::Record;
use records::record::{CODE_LEN, Code, EVENT_LEN, Event};
use session::file::SessionFile;
use std::alloc::{AllocError, Global};

/// The event of a record, with its number and the record of its code. A code that the file lacks is read as all zeros; an
/// accepted file lacks none.
fn entry_of(file: &SessionFile, record: &Record<'_, EVENT_LEN>) -> Entry
    ensures value { result ≡ numbered_entry file.now.bytes.now file.now.header record.now.place (event_of record.now.bytes.now) }
{
    let event = Event::decode(record.bytes);
    let code = file.code_at(usize::from(event.code));
    Entry {
        number: (record.place % 65_536) as u16,
        event,
        code: code.unwrap_or(Code::decode(&[0; CODE_LEN])),
    }
}

/// The entries of all events of a file, in their order.
pub fn entries_of(heap: Global, file: &SessionFile) -> Result<Vec<Entry>, AllocError>
    ensures entries { IfOk result (λ v. v.items ≡ day_of file.now.bytes.now file.now.header) }
{
    file.events()
        .map(|record| entry_of(file, &record))
        .collect(heap)
}
