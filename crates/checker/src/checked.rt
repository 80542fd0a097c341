//! What all the parts of a check answered.

use crate::judged::Judged;
use confirm::finding::Finding;
use executions::fault::CheckerFault;
use verdicts::verdict::Verdict;

/// What each part of a check answered. The refusals of the parts are among the answers.
#[derive(Drop)]
pub struct Checked {
    /// Of the run under the model that was asked for, over the caller's buffers.
    pub verdict: Result<Verdict, CheckerFault>,
    /// Of the order that a consistent verdict brings, where it is confirmed under that model; none with any other verdict.
    pub confirmed: Option<Result<Finding, CheckerFault>>,
    /// Of the caller's candidate for an order, where it is confirmed under that model.
    pub finding: Result<Finding, CheckerFault>,
    /// Of the run under RA, and under Relaxed.
    pub ra: Judged,
    pub relaxed: Judged,
    /// Of the strengthened view of the run under RC20, and of its relaxed view.
    pub through_strengthened: Judged,
    pub through_relaxed: Judged,
}
