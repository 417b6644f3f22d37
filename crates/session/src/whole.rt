//! A file that tells its length, and the checks of what else its header says.

ghost use Rattle.std.specs.Prelude.{◌≡◌, MatchResult};
ghost use Rattle.std.specs.Coded.{Coded-set};
ghost use Rattle.records.specs.Fields.{header_of};
ghost use Rattle.session.specs.Rules.{Whole, EditionOne, FewCodes, FewEvents, SectionsLie};
ghost use Rattle.session.specs.First.{First};

use crate::fault::FileFault;
use crate::headed::HeadedFile;
use records::record::{CODE_LEN, EVENT_LEN, HEADER_LEN, Header};

/// A file that has a header, which tells its length.
#[derive(Clone, Copy)]
pub(crate) struct WholeFile<'a> {
    bytes: &'a [u8],
    header: Header,
    ghost read: { header ≡ header_of bytes.now } by { Coded-set header-code header (header_of bytes.now) },
    ghost whole: { Whole bytes.now },
}

impl<'a> WholeFile<'a> {
    /// 1: the header is there, and tells the length.
    pub(crate) fn read(bytes: &'a [u8]) -> Result<WholeFile<'a>, FileFault>
        ensures first { MatchResult result (λ file. file.bytes.now ≡ bytes.now) (First bytes.now) }
    {
        let len = bytes.len();
        match Header::decode(bytes) {
            Some(header) if header.file_len as usize == len => Ok(WholeFile { bytes, header }),
            _ => Err(FileFault::Length { len }),
        }
    }

    /// 2: the edition.
    fn check_edition(&self) -> Result<(), FileFault>
        ensures first { MatchResult result (λ _. EditionOne self.now.bytes.now) (First self.now.bytes.now) }
    {
        if self.header.edition == 1 {
            Ok(())
        } else {
            Err(FileFault::Edition)
        }
    }

    /// 3: how many codes and events there are.
    fn check_counts(&self) -> Result<(), FileFault>
        requires edition { EditionOne self.now.bytes.now }
        ensures first { MatchResult result (λ _. FewCodes self.now.bytes.now × FewEvents self.now.bytes.now) (First self.now.bytes.now) }
    {
        match (self.header.codes, self.header.events) {
            (1..=64, 1..=65_536) => Ok(()),
            (1..=64, _) => Err(FileFault::Count { byte: 4 }),
            _ => Err(FileFault::Count { byte: 2 }),
        }
    }

    /// 4: where the sections lie.
    fn check_sections(&self) -> Result<(), FileFault>
        requires edition { EditionOne self.now.bytes.now }
        requires counts { FewCodes self.now.bytes.now × FewEvents self.now.bytes.now }
        ensures first { MatchResult result (λ _. SectionsLie self.now.bytes.now) (First self.now.bytes.now) }
    {
        let codes_at = self.header.codes_at as usize;
        let codes_end = codes_at + CODE_LEN * usize::from(self.header.codes);
        let events_at = self.header.events_at as usize;
        let events_end = events_at + EVENT_LEN * self.header.events as usize;
        let past_header = codes_at >= HEADER_LEN && events_at >= HEADER_LEN;
        let within = codes_end <= self.bytes.len() && events_end <= self.bytes.len();
        let apart = codes_end <= events_at || events_end <= codes_at;
        if past_header && within && apart {
            Ok(())
        } else {
            Err(FileFault::Sections)
        }
    }

    /// Rules 2 to 4, in their order.
    pub(crate) fn headed(&self) -> Result<HeadedFile<'a>, FileFault>
        ensures first { MatchResult result (λ file. file.bytes.now ≡ self.now.bytes.now) (First self.now.bytes.now) }
    {
        self.check_edition()?;
        self.check_counts()?;
        self.check_sections()?;
        Ok(HeadedFile {
            bytes: self.bytes,
            header: self.header,
        })
    }
}
