//! An opened log: the caller's bytes, which spell a full run. It keeps no copy of them.
ghost use Rattle.std.specs.Prelude.{IsOk};
ghost use Rattle.events.specs.Run.{FullRun};
ghost use Rattle.runlog.specs.Reading.{reading, shown};

use crate::fault::LogFault;
use crate::records::{Records, check};
use events::event::Event;
use executions::execution::Execution;
use executions::fault::CheckerFault;

/// `opens` says that the bytes read as a run, and `full` that this run is full.
// The bytes, and not the `Records` made of them, which a contract sees as events only.
#[derive(Drop)]
pub struct Log<'a> {
    pub(crate) bytes: &'a [u8],
    ghost opens: { IsOk (reading bytes.now) },
    ghost full: { FullRun (shown bytes.now) },
}

impl<'a> Log<'a> {
    ghost use Rattle.std.specs.Prelude.{◌≡◌, []};
    ghost use Rattle.runlog.specs.Opening.{run_of};

    /// The log of the run without events: what a caller holds before a log is opened into its place.
    pub fn empty() -> Log<'a>
        ensures { run_of result ≡ [] }
    {
        Log {
            bytes: &[4, 0, 2, 0, 0, 0],
        }
    }

    // The bytes as records once more. They are not read again.
    fn records(&self) -> Records<'a>
        ensures { result ≡ run_of self.now }
    {
        Records { bytes: self.bytes }
    }
}

/// The bytes as a log, or what is wrong with them first.
impl<'a> TryFrom<&'a [u8]> for Log<'a> {
    ghost use Rattle.runlog.specs.Opening.{LogOf};

    type Error = LogFault;

    ghost try_from_gives = { LogOf };

    fn try_from(bytes: &'a [u8]) -> Result<Self, LogFault> {
        check(bytes)?;
        Ok(Log { bytes })
    }
}

impl<'a> Execution for Log<'a> {
    ghost use Rattle.runlog.specs.Opening.{run_of};

    ghost events = { run_of };

    fn count(&self) -> usize {
        self.records().count()
    }

    fn event(&self, i: usize) -> Result<Event, CheckerFault> {
        if !(1..=self.count()).contains(&i) {
            return Err(CheckerFault::NoEvent(i));
        }
        Ok(self.records().event(i))
    }

    ghost full = { λ l. l.full };
}
