// What opening answers, in numbers.
use events::refusal::Refusal;
use executions::execution::Execution;
use runlog::log::Log;
use runlog::opening::open_log;

// The number of events, or the number and the place of the refusal. Not the cases of `LogFault`: documented are the numbers.
pub(crate) type Opened = Result<usize, (u8, usize)>;

pub(crate) fn opened(bytes: &[u8]) -> Opened {
    let mut log = Log::empty();
    open_log(bytes, &mut log).map_err(|fault| (fault.number(), fault.place()))?;
    Ok(log.count())
}
