// Pairs at the ends of the range and of words, and rows joined.
use crate::relation::Relation;

// Numbers, and whether each is in range.
const NUMBERS: [(usize, bool); 8] = [
    (0, false),
    (1, true),
    (2, true),
    (64, true),
    (65, true),
    (512, true),
    (513, false),
    (usize::MAX, false),
];

// Whether, of the pairs of these numbers, the relation has just those of one of a with b.
fn has_only(relation: &Relation, a: &[usize], b: usize) -> bool {
    for (x, _) in NUMBERS {
        for (y, _) in NUMBERS {
            if relation.contains(x, y) != (a.contains(&x) && y == b) {
                return false;
            }
        }
    }
    true
}

#[test]
fn one_pair(rt: HostRuntime) {
    for (a, a_fits) in NUMBERS {
        for (b, b_fits) in NUMBERS {
            let mut relation = Relation::empty();
            let fits = relation.insert(a, b);
            let kept = [a];
            assert!(rt; fits == (a_fits && b_fits));
            assert!(rt; has_only(&relation, &kept[..usize::from(fits)], b));
        }
    }
}

// The row of 64 takes in itself and rows that there are not, then is taken in by another, and takes that in.
#[test]
fn joined_rows(rt: HostRuntime) {
    let mut relation = Relation::empty();
    for a in [1, 64, 65, 512] {
        relation.insert(a, 64);
    }
    relation.absorb(64, 64);
    relation.absorb(64, 513);
    relation.absorb(0, 64);
    assert!(rt; has_only(&relation, &[1, 64, 65, 512], 64));
    relation.absorb(2, 64);
    relation.insert(2, 2);
    relation.absorb(64, 2);
    for x in [1, 2, 64, 65, 512] {
        assert!(rt; relation.contains(x, 2) && relation.contains(x, 64));
    }
}
