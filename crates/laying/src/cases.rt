// Small lists, gathered by the remainder of each number by 3.
ghost use Rattle.std.specs.Prelude.{ℕ, ◌<◌, ◌≤◌, IsTrue, length, slice_index};
ghost use Rattle.events.specs.Limits.{max_events};
ghost use Rattle.laying.specs.Gathers.{Different};

use crate::gather::gather;
use chains::chains::Numbers;
use events::limits::MAX_EVENTS;
use std::process::Abort;

// What each place has beforehand. It is no member.
const OLD: u16 = 7000;

#[derive(Drop)]
struct Row {
    members: &'static [u16],
    classes: &'static [u16],
    gathered: &'static [u16],
}

const fn given(members: &'static [u16], classes: &'static [u16], gathered: &'static [u16]) -> Row {
    Row {
        members,
        classes,
        gathered,
    }
}

fn remainders() -> Numbers {
    let mut class_of = [0; MAX_EVENTS + 1];
    for n in 0..class_of.len() {
        class_of[n] = (n % 3) as u16;
    }
    class_of
}

fn are_different(list: &[u16]) -> bool
    ensures { IsTrue result → Different list.now }
{
    for i in 0..list.len() {
        if list[..i].contains(&list[i]) {
            return false;
        }
    }
    true
}

fn are_small(list: &[u16]) -> bool
    ensures { IsTrue result → (i : ℕ) → i < length list.now → slice_index list.now i ≤ max_events }
{
    for i in 0..list.len() {
        if usize::from(list[i]) > MAX_EVENTS {
            return false;
        }
    }
    true
}

// Gathers each row into six places.
fn gather_each(rt: &impl Abort, rows: &[Row]) {
    let class_of = remainders();
    for (n, row) in rows.iter().enumerate() {
        let mut into = [OLD; 6];
        assert!(rt; are_small(row.members) && are_different(row.members));
        assert!(rt; are_different(row.classes) && row.members.len() <= into.len());
        let count = gather(row.members, &class_of, row.classes, &mut into);
        assert!(rt; into.starts_with(row.gathered), "row {n}");
        assert_eq!(rt; count, row.gathered.len(), "row {n}");
        assert!(rt; into.iter().skip(count).all(|e| *e == OLD), "row {n}");
    }
}

// The classes as they are listed, and the members of a class as they are.
#[test]
fn class_by_class(rt: HostRuntime) {
    let rows = [
        given(&[1, 2, 3, 4, 5, 6], &[0, 1, 2], &[3, 6, 1, 4, 2, 5]),
        given(&[1, 2, 3, 4, 5, 6], &[2, 0, 1], &[2, 5, 3, 6, 1, 4]),
        given(&[6, 5, 4, 3, 2, 1], &[0, 1, 2], &[6, 3, 4, 1, 5, 2]),
        given(&[5, 1, 4, 3, 2, 6], &[2, 0, 1], &[5, 2, 3, 6, 1, 4]),
        given(&[9, 3, 6], &[1, 2, 0], &[9, 3, 6]),
        given(&[512, 0, 511, 1], &[1, 0, 2], &[511, 1, 0, 512]),
    ];
    gather_each(&rt, &rows);
}

// Classes that are not asked for, or have no member.
#[test]
fn fewer(rt: HostRuntime) {
    let rows = [
        given(&[], &[], &[]),
        given(&[], &[2, 0, 1], &[]),
        given(&[4, 2, 3], &[], &[]),
        given(&[4, 2, 3], &[5, 65535], &[]),
        given(&[5, 1, 4, 3, 2, 6], &[1], &[1, 4]),
        given(&[5, 1, 4, 3, 2, 6], &[0, 4, 2], &[3, 6, 5, 2]),
    ];
    gather_each(&rt, &rows);
}
