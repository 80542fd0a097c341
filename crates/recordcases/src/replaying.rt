// Calls given as values, carried out one after another.
use crate::words::{call, memory, said};
use sessions::calls::{Answer, Call};
use sessions::handed::ShortPart;
use sessions::replay::replay;
use std::alloc::Global;
use std::process::Abort;
use std::test::Fail;

const SCRIPT: &str = "
count                | barred
event 1              | barred
reopen               | barred
retract 600          | refused 21 0
note 512 1 2 2 1     | noted 1
note 511 2 1 1 1     | refused 9 0
note 600 9 1 1 1     | refused 1 0
note 600 2 1 2 1     | refused 3 0
note 600 2 1 1 1     | noted 2
seal 512             | refused 23 2
link 512 2 1         | done
link 600 2 2         | refused 7 2
link 512 3 1         | refused 5 3
link 512 1 0         | refused 6 1
link 0 2 0           | refused 9 0
note 513 1 3 3 1     | noted 3
link 512 2 3         | done
retract 512          | refused 22 2
link 512 2 1         | done
retract 511          | refused 9 0
retract 512          | done
seal 511             | refused 9 0
seal 600             | done
note 512 1 2 2 1     | barred
link 512 2 0         | barred
retract 512          | barred
seal 512             | barred
count                | count 2
event 1              | T1 W rel L1
event 2              | T2 R acq L1 from 1
event 0              | not shown, refused 5 0
event 3              | not shown, refused 5 3
reopen               | done
count                | barred
link 512 2 0         | done
seal 512             | refused 23 2
retract 512          | done
seal 512             | done
count                | count 1
seal 0               | barred
reopen               | done
retract 512          | done
retract 512          | refused 21 0
";

fn calls(heap: Global, script: &str) -> Result<Vec<Call>, Fail> {
    let mut calls = Vec::new(heap);
    for row in script.trim().lines() {
        let (words, _) = row.split_once('|').unwrap_or((row, ""));
        calls.push(call(words)?)?;
    }
    Ok(calls)
}

// Asserts each of the answers; those behind the last call are as they were before.
fn answered(rt: &impl Abort, heap: Global, script: &str, answers: &[Answer]) -> Result<(), Fail> {
    let mut rows = script.trim().lines();
    for answer in answers {
        let row = rows.next().unwrap_or("none | count 999");
        let (_, expected) = row.split_once('|').unwrap_or((row, ""));
        assert_eq!(rt; said(heap, *answer)?.as_str(), expected.trim(), "{row}");
    }
    Ok(())
}

const SHORT: &str = "
note 600 1 2 2 1 | refused 9 0
link 600 1 1     | refused 9 0
retract 600      | refused 9 0
seal 600         | refused 9 0
reopen           | barred
count            | barred
event 1          | barred
";

// Calls that are handed other memory, among others. None of these is obeyed, and while the record is sealed all are barred.
const OTHER: &str = "
note o0+511 1 2 2 1  | refused 9 0
retract o0+511       | refused 9 0
seal o0+0            | refused 9 0
note 512 1 2 2 1     | noted 1
note o0+511 2 1 1 1  | refused 9 0
note o0+511 9 9 9 99 | refused 9 0
note 512 2 1 1 1     | noted 2
link o0+511 2 1      | refused 9 0
link o2+511 2 1      | refused 9 0
seal 512             | refused 23 2
link 512 2 1         | done
link o0+511 2 0      | refused 9 0
link o0+511 3 9      | refused 9 0
retract o0+511       | refused 9 0
retract o511+1       | refused 9 0
seal o0+511          | refused 9 0
seal o89+511         | refused 9 0
seal o600+511        | refused 9 0
seal o999+0          | refused 9 0
seal 512             | done
note o0+511 1 2 2 1  | barred
link o0+511 2 0      | barred
retract o0+511       | barred
seal o0+511          | barred
count                | count 2
event 1              | T1 W rel L1
event 2              | T2 R acq L1 from 1
reopen               | done
retract o1+511       | refused 9 0
seal o0+511          | refused 9 0
retract 512          | done
retract o0+511       | refused 9 0
retract 512          | done
retract o0+511       | refused 9 0
";

// Calls, how many places there are for answers and how many of memory, and what these hold afterwards.
const RUNS: [(&str, usize, usize, &str); 13] = [
    (SCRIPT, 0, 513, ""),
    (SCRIPT, 4, 513, ""),
    (SCRIPT, 5, 513, "1.2.2.1"),
    (SCRIPT, 10, 513, "1.2.2.1 2.1.1.1"),
    (SCRIPT, 28, 513, "1.2.2.1 2.1.1.1.1 1.3.3.1"),
    (SCRIPT, 43, 513, "1.2.2.1 2.1.1.1 1.3.3.1"),
    (SCRIPT, 50, 513, "1.2.2.1 2.1.1.1 1.3.3.1"),
    (SHORT, 7, 511, ""),
    (SHORT, 7, 0, ""),
    (OTHER, 3, 513, ""),
    (OTHER, 9, 513, "1.2.2.1 2.1.1.1"),
    (OTHER, 24, 513, "1.2.2.1 2.1.1.1.1"),
    (OTHER, 34, 512, "1.2.2.1 2.1.1.1.1"),
];

// How many places the other memory has, and what it holds: nothing, no events, the record's own events, and others.
const OTHERS: [(usize, &str); 5] = [
    (0, ""),
    (511, ""),
    (600, ""),
    (600, "1.2.2.1 2.1.1.1.1 598x1.4.0.0"),
    (513, "1.2.0.1 1.2.0.2 511x1.4.0.0"),
];

// Carries out a script beside this other memory, and asserts what all the places hold afterwards.
fn replayed(
    rt: &impl Abort,
    heap: Global,
    run: (&str, usize, usize, &str),
    beside: (usize, &str),
) -> Result<(), Fail> {
    let (script, answers, places, after) = run;
    let (mut changed, _) = memory(heap, places, "")?;
    let (mut others, _) = memory(heap, beside.0, beside.1)?;
    let mut answers = vec![in heap; Answer::Counted(999); answers]?;
    let calls = calls(heap, script)?;
    replay(
        calls.as_slice(),
        changed.as_mut_slice(),
        others.as_mut_slice(),
        answers.as_mut_slice(),
    );
    answered(rt, heap, script, answers.as_slice())?;
    let (expected, _) = memory(heap, places, after)?;
    assert!(rt; changed == expected);
    let (expected, _) = memory(heap, beside.0, beside.1)?;
    assert!(rt; others == expected);
    Ok(())
}

fn beside_each(rt: &impl Abort, heap: Global, run: (&str, usize, usize, &str)) -> Result<(), Fail> {
    for beside in OTHERS {
        replayed(rt, heap, run, beside)?;
    }
    Ok(())
}

#[test]
fn each_script(rt: HostRuntime) -> Result<(), Fail> {
    for run in RUNS {
        beside_each(&rt, rt.alloc(), run)?;
    }
    Ok(())
}

#[test]
fn a_short_part(rt: HostRuntime) {
    let parts = [
        (0, true),
        (1, true),
        (511, true),
        (512, false),
        (usize::MAX, false),
    ];
    for (places, is_short) in parts {
        assert_eq!(rt; ShortPart::new(3, places).is_some(), is_short);
    }
}
