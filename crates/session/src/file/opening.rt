//! How a file is opened.

ghost use Rattle.std.specs.Prelude.{◌≡◌, is_ok, IfOk, Decides, MatchResult};
ghost use Rattle.session.specs.Rules.{WellFormed};
ghost use Rattle.session.specs.First.{First};
ghost use Rattle.session.specs.Computed.{first_refusal};
ghost use Rattle.session.specs.Opened.{refusal_in, FirstRefused, Accepted};

use super::SessionFile;
use crate::fault::FileFault;
use crate::whole::WholeFile;

/// Runs the checks in their order.
fn checked(bytes: &[u8]) -> Result<SessionFile<'_>, FileFault>
    ensures first { MatchResult result (λ _. WellFormed bytes.now) (First bytes.now) }
    ensures file { IfOk result (λ file. file.bytes.now ≡ bytes.now) }
{
    let file = WholeFile::read(bytes)?.headed()?;
    file.check_records()?;
    Ok(SessionFile {
        bytes,
        header: file.header,
    })
}

/// Opens a file: accepted if it is well formed, else refused by its first fault.
pub fn open(bytes: &[u8]) -> Result<SessionFile<'_>, FileFault>
    ensures accepted { Decides (is_ok result) (WellFormed bytes.now) }
    ensures refused { FirstRefused bytes.now result }
    ensures numbered { refusal_in result ≡ first_refusal bytes.now }
    ensures file { IfOk result (Accepted bytes.now) }
{
    checked(bytes)
}
