// The numbers of sorts of steps and of kinds of violations, and how many steps show a violation.
use std::test::Fail;
use verdicts::step::Sort;
use verdicts::verdict::Verdict;
use verdicts::violation::Violation;

const SORTS: [(Sort, u8, u16); 5] = [
    (Sort::Po, 1, 0),
    (Sort::Rf, 2, 0),
    (Sort::Before, 3, 0),
    (Sort::Read(512), 4, 512),
    (Sort::Hb, 5, 0),
];

const VIOLATIONS: [(Violation, u8, usize); 6] = [
    (Violation::Causal(8), 1, 8),
    (Violation::Twin(3, 9), 2, 0),
    (Violation::Weak(3, 9, 7), 3, 0),
    (Violation::Back, 4, 1),
    (Violation::Round(64, 5), 5, 5),
    (Violation::Whole(512), 6, 512),
];

#[test]
fn each_number(rt: HostRuntime) -> Result<(), Fail> {
    for (sort, number, load) in SORTS {
        assert_eq!(rt; (sort.number(), sort.load()), (number, load));
    }
    for (violation, number, steps) in VIOLATIONS {
        assert_eq!(rt;
            (violation.number(), violation.step_count()),
            (number, steps)
        );
        assert!(rt; !Verdict::Inconsistent(violation).is_consistent());
    }
    assert!(rt; Verdict::Consistent(0).is_consistent());
    assert!(rt; Verdict::Consistent(512).is_consistent());
    Ok(())
}
