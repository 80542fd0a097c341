// Each refusal at its edge, from both sides, and which one comes where several apply.
use crate::rows::outcome;
use std::test::Fail;

// First in a group is memory; each line after it is a call on it, the answer, and the memory after an obeyed call that
// changes something. The numbers 65537 and 65538 would be 1 and 2 if they were cut to 16 bits.
const GROUPS: &str = "
/
note 512 0 2 0 1    | refused 1 0
note 512 1 2 0 1    | noted 1 | 1.2.0.1
note 512 8 2 0 1    | noted 1 | 8.2.0.1
note 512 9 2 0 1    | refused 1 0
note 512 1 0 0 1    | refused 2 0
note 512 1 5 0 1    | refused 2 0
note 512 1 1 0 1    | noted 1 | 1.1.0.1
note 512 1 1 1 1    | noted 1 | 1.1.1.1
note 512 1 1 2 1    | refused 3 0
note 512 1 1 3 1    | refused 3 0
note 512 1 2 1 1    | refused 3 0
note 512 1 2 2 1    | noted 1 | 1.2.2.1
note 512 1 2 3 1    | refused 3 0
note 512 1 2 4 1    | refused 3 0
note 512 1 3 3 1    | noted 1 | 1.3.3.1
note 512 1 3 4 1    | refused 3 0
note 512 1 4 0 0    | noted 1 | 1.4.0.0
note 512 1 4 3 0    | noted 1 | 1.4.3.0
note 512 1 4 4 0    | refused 3 0
note 512 1 4 0 1    | refused 4 0
note 512 1 1 0 0    | refused 4 0
note 512 1 2 0 0    | refused 4 0
note 512 1 3 0 0    | refused 4 0
note 512 1 2 0 64   | noted 1 | 1.2.0.64
note 512 1 2 0 65   | refused 4 0
note 0 1 2 0 1      | refused 9 0
note 511 1 2 0 1    | refused 9 0
note 513 1 2 0 1    | noted 1 | 1.2.0.1
link 512 0 0        | refused 5 0
link 512 1 0        | refused 5 1
retract 511         | refused 9 0
retract 512         | refused 21 0
seal 511            | refused 9 0
seal 512            | done

511x1.4.0.0
note 512 8 2 2 64   | noted 512 | 511x1.4.0.0 8.2.2.64

512x1.2.0.1
note 512 1 2 0 1    | refused 20 0
note 600 1 2 0 1    | refused 20 0
note 512 1 2 0 99   | refused 4 0
note 512 1 2 3 99   | refused 3 0
note 512 1 9 9 99   | refused 2 0
note 512 9 9 9 99   | refused 1 0
note 511 9 9 9 99   | refused 9 0
link 512 512 0      | refused 6 512
link 512 513 0      | refused 5 513
retract 512         | done | 511x1.2.0.1 / 1.2.0.1

512x9.2.0.1
note 512 9 9 9 99   | refused 25 1
note 511 9 9 9 99   | refused 9 0

1.2.0.1 2.1.0.1.1
link 511 2 0        | refused 9 0
link 512 2 0        | done | 1.2.0.1 2.1.0.1
link 512 2 1        | done
retract 511         | refused 9 0
retract 512         | done | 1.2.0.1 / 2.1.0.1.1
seal 511            | refused 9 0
seal 512            | done

1.1.0.1.3 2.2.2.1 3.3.3.1 4.4.3.0 5.2.0.2 6.1.1.1 7.3.0.1 / 8.3.0.1
link 512 0 2        | refused 5 0
link 512 8 2        | refused 5 8
link 512 8 9        | refused 5 8
link 512 65537 2    | refused 5 65537
link 512 2 0        | refused 6 2
link 512 2 3        | refused 6 2
link 512 4 0        | refused 6 4
link 512 4 9        | refused 6 4
link 512 1 1        | refused 7 1
link 512 1 4        | refused 7 1
link 512 1 5        | refused 7 1
link 512 1 6        | refused 7 1
link 512 1 8        | refused 7 1
link 512 1 65538    | refused 7 1
link 512 3 3        | refused 7 3
link 512 1 0        | done | 1.1.0.1   2.2.2.1 3.3.3.1   4.4.3.0 5.2.0.2 6.1.1.1   7.3.0.1   / 8.3.0.1
link 512 1 2        | done | 1.1.0.1.2 2.2.2.1 3.3.3.1   4.4.3.0 5.2.0.2 6.1.1.1   7.3.0.1   / 8.3.0.1
link 512 3 7        | done | 1.1.0.1.3 2.2.2.1 3.3.3.1.7 4.4.3.0 5.2.0.2 6.1.1.1   7.3.0.1   / 8.3.0.1
link 512 6 3        | done | 1.1.0.1.3 2.2.2.1 3.3.3.1   4.4.3.0 5.2.0.2 6.1.1.1.3 7.3.0.1   / 8.3.0.1
link 512 7 2        | done | 1.1.0.1.3 2.2.2.1 3.3.3.1   4.4.3.0 5.2.0.2 6.1.1.1   7.3.0.1.2 / 8.3.0.1
seal 512            | refused 23 3

1.2.0.1 / 1.1.0.1.1 1.1.0.1
retract 512         | done | / 1.2.0.1 1.1.0.1.1 1.1.0.1
seal 512            | done

1.1.0.1.4 2.1.0.1.5 3.3.0.1.5 4.2.0.1 5.2.0.1
retract 512         | refused 22 2
seal 512            | done

1.3.0.1.2 2.3.0.1.1
retract 512         | refused 22 1

1.1.0.1 2.1.0.1.3 3.2.0.1
retract 512         | refused 22 2
seal 512            | refused 23 1

1.1.0.1 2.1.0.1.4 0.2.0.1 4.2.0.1
link 511 9 9        | refused 9 0
link 512 9 9        | refused 25 3
link 512 4 9        | refused 25 3
link 512 3 9        | refused 25 3
link 512 1 9        | refused 25 3
retract 511         | refused 9 0
retract 512         | refused 25 3
seal 511            | refused 9 0
seal 512            | refused 25 3
";

#[test]
fn each_row(rt: HostRuntime) -> Result<(), Fail> {
    for group in GROUPS.trim().split("\n\n") {
        let (before, rows) = group.split_once('\n').unwrap_or((group, ""));
        for row in rows.lines() {
            let (call, rest) = row.split_once('|').unwrap_or((row, ""));
            let (answer, after) = rest.split_once('|').unwrap_or((rest, before));
            let said = outcome(rt.alloc(), before, call, after)?;
            assert_eq!(rt; said.as_str(), answer.trim(), "{row}");
        }
    }
    Ok(())
}
