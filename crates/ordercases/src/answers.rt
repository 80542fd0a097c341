// What confirming answers, by model and by number.
use confirm::by_model::confirm_under;
use confirm::by_number::confirm;
use confirm::finding::Finding;
use events::refusal::Refusal;
use executions::execution::Execution;
use executions::fault::CheckerFault;
use models::model::{AtLocation, AtWeak, AtWhole};
use models::rc20::Rc20Rule;
use models::rule::Rule;
use models::rules::{EmptyRule, ReadsFromRule};

// 0 for an order that passes, from 1 to 4 for the axiom that fails, and above that the number of a refusal.
pub(crate) fn number(answer: Result<Finding, CheckerFault>) -> u8 {
    match answer {
        Ok(finding) => finding.number(),
        Err(fault) => fault.number(),
    }
}

// At location, whole and weak scope. At weak scope the stores are not ordered.
fn at_each_scope<R: Rule, E: Execution>(rule: &R, run: &E, order: &[u16]) -> [u8; 3] {
    [
        number(confirm_under::<AtLocation<R>, E>(rule, run, order)),
        number(confirm_under::<AtWhole<R>, E>(rule, run, order)),
        number(confirm_under::<AtWeak<R>, E>(rule, run, &[])),
    ]
}

// With the rule of RC20, with reads-from and with none.
pub(crate) fn with_each_rule<E: Execution>(run: &E, order: &[u16]) -> [[u8; 3]; 3] {
    [
        at_each_scope(&Rc20Rule, run, order),
        at_each_scope(&ReadsFromRule, run, order),
        at_each_scope(&EmptyRule, run, order),
    ]
}

// Under the models from 1 to 5, of which the fourth is at weak scope.
pub(crate) fn by_number<E: Execution>(run: &E, order: &[u16]) -> [u8; 5] {
    [
        number(confirm(1, run, order)),
        number(confirm(2, run, order)),
        number(confirm(3, run, order)),
        number(confirm(4, run, &[])),
        number(confirm(5, run, order)),
    ]
}
