//! A list gathered class by class.
ghost use Rattle.std.specs.Prelude.{◌≡◌, ℕ, ◌<◌, ◌≤◌, length, take, drop, slice_index};
ghost use Rattle.events.specs.Limits.{max_events};
ghost use Rattle.laying.specs.Gathers.{Different, Gathers, OneGathering};

use chains::chains::Numbers;

// Writes the members of the classes into the first places of `into`, class by class as `classes` lists them, those of one class
// as `members` lists them, and answers how many they are. The other places stay as they were. Class 0 is a class like any other:
// its members are gathered if it is listed. The last clause is a theorem, and does not look at the answer: no other list gathers
// the same.
pub(crate) fn gather(
    members: &[u16],
    class_of: &Numbers,
    classes: &[u16],
    into: &mut [u16],
) -> usize
    requires fits { (i : ℕ) → i < length members.now → slice_index members.now i ≤ max_events }
    requires once { Different members.now }
    requires classes { Different classes.now }
    requires room { length members.now ≤ length into.old }
    ensures few { result ≤ length members.now }
    ensures rest { drop result into.new ≡ drop result into.old }
    ensures gathers { Gathers (slice_index class_of.now) members.now classes.now (take result into.new) }
    ensures one { OneGathering (slice_index class_of.now) members.now classes.now }
{
    let mut count = 0;
    for k in 0..classes.len() {
        for j in 0..members.len() {
            let member = members[j];
            if class_of[usize::from(member)] == classes[k] {
                into[count] = member;
                count += 1;
            }
        }
    }
    count
}
