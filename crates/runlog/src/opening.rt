//! Opening a log into a place that the caller holds.
ghost use Rattle.std.specs.Prelude.{◌≡◌};
ghost use Rattle.runlog.specs.Reading.{reading, answer};
ghost use Rattle.runlog.specs.Opening.{run_of, Holds, Opens, Refuses};

use crate::fault::LogFault;
use crate::log::Log;

/// Opens the bytes as a log into the caller's place, or says what is wrong first and leaves the place as it is.
// What a caller goes on using is filled where the caller holds it, so the log is no part of the answer; `Log::try_from` gives it as one.
pub fn open_log<'a>(bytes: &'a [u8], into: &mut Log<'a>) -> Result<(), LogFault>
    ensures answers { result ≡ answer (reading bytes.now) }
    ensures holds { Holds bytes.entry into.old into.new result }
    ensures opens { Opens bytes.now (run_of into.new) result }
    ensures refuses { Refuses bytes.now result }
{
    *into = Log::try_from(bytes)?;
    Ok(())
}
