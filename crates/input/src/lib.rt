//! Standard input for programs.
#![tactic(auto)]

ghost use Rattle.std.specs.Io.KnownBytes.{Consumes, IsAtEnd, ReadConsumes};
ghost use Rattle.std.specs.List.{range_with_len};
ghost use Rattle.std.specs.Prelude.{◌-◌, ◌<◌, ◌≡◌, ◌≤◌, drop, length, min, take, IfOk, IfSome, MatchResult, OnErr, Some, SomeIndex};

use std::io;
use std::io::Read;

// How much is read at a time.
const PART: usize = 512;

// One read. A read may leave anything behind the bytes that it gives, so it is handed memory of its own, and only what it gives is
// written.
fn read_once<R: Read>(input: &mut R, rest: &mut [u8]) -> io::Result<usize>
    ensures bound { IfOk result (λ n. n ≤ length rest.old) }
    ensures reads { ReadConsumes (R.remaining input.old) (R.remaining input.new) result rest.new }
    ensures rest { MatchResult result (λ n. drop n rest.new ≡ drop n rest.old) (λ _. rest.new ≡ rest.old) }
    ensures length { length rest.new ≡ length rest.old }
{
    let mut part = [0; PART];
    let room = PART.min(rest.len());
    let got = input.read(&mut part[..room])?;
    rest[..got].copy_from_slice(&part[..got]);
    Ok(got)
}

/// Fills the buffer from its front, as far as the input goes, and says how far. An input may deliver in parts, as a pipe
/// does; what does not fit is left unread. Every place behind the bytes that came is as it was. So it is at an error: what the
/// input lost before it stands at the front, but how many bytes those are is not said.
pub fn fill<R: Read>(input: &mut R, buffer: &mut [u8]) -> io::Result<usize>
    // At any input.
    ensures bound { IfOk result (λ n. n ≤ length buffer.old) }

    // Where the bytes that the input has left are known.
    ensures count { IfOk result (λ n. IfSome (R.remaining input.old)
        (λ xs. n ≡ min (length xs) (length buffer.old))) }
    ensures bytes { IfOk result (λ n.
        Consumes (R.remaining input.old) (R.remaining input.new) (take n buffer.new)) }
    ensures end { IfOk result (λ n. n < length buffer.old → IsAtEnd (R.remaining input.new)) }
    ensures rest { IfOk result (λ n. drop n buffer.new ≡ drop n buffer.old) }

    // An error does not say how many bytes came before it, but they are fewer than fit. That it is the error of a read,
    // no clause can say.
    ensures none_lost { OnErr result (SomeIndex buffer.new (λ n.
        Consumes (R.remaining input.old) (R.remaining input.new) (take n buffer.new) × (drop n buffer.new ≡ drop n buffer.old))) }
{
    let mut n = 0;
    // A `while`, since a read gives as many bytes as it likes: a `for` over the places would need a second way out.
    while n < buffer.len() {
        let got = read_once(input, &mut buffer[n..])?;
        if got == 0 {
            break;
        }
        n += got;
    }
    Ok(n)
}

#[cfg(test)]
mod tests {
    use super::*;
    use std::io::ErrorKind;
    use std::test::Fail;

    // Delivers the numbers from `next` on that are below `end`, one at a time.
    #[derive(Drop)]
    struct Trickle {
        next: u8,
        end: u8,
    }

    impl Read for Trickle {
        ghost remaining = { λ t. Some (range_with_len t.next (t.end - t.next)) };

        fn read(&mut self, buf: &mut [u8]) -> io::Result<usize> {
            if buf.is_empty() || self.next >= self.end {
                return Ok(0);
            }
            buf[0] = self.next;
            self.next += 1;
            Ok(1)
        }
    }

    #[test]
    fn goes_on_to_the_end_of_the_input(rt: HostRuntime) -> Result<(), Fail> {
        let mut buffer = [0; 8];
        let n = fill(&mut Trickle { next: 1, end: 6 }, &mut buffer)?;
        assert_eq!(rt; n, 5);
        assert_eq!(rt; buffer, [1, 2, 3, 4, 5, 0, 0, 0]);
        Ok(())
    }

    // Gives a byte, scribbles over the place behind it, and fails from the third read on.
    #[derive(Drop)]
    struct Scribbler {
        reads: usize,
    }

    impl Read for Scribbler {
        fn read(&mut self, buf: &mut [u8]) -> io::Result<usize> {
            self.reads = self.reads.saturating_add(1);
            if self.reads > 2 {
                return Err(ErrorKind::InvalidData.into());
            }
            if buf.len() < 2 {
                return Ok(0);
            }
            buf[0] = 7;
            buf[1] = 99;
            Ok(1)
        }
    }

    #[test]
    fn keeps_what_stands_behind(rt: HostRuntime) {
        let mut buffer = [5; 6];
        assert!(rt; fill(&mut Scribbler { reads: 0 }, &mut buffer).is_err());
        assert_eq!(rt; buffer, [7, 7, 5, 5, 5, 5]);
    }

    #[test]
    fn leaves_what_does_not_fit(rt: HostRuntime) -> Result<(), Fail> {
        let mut buffer = [0; 4];
        let mut input = Trickle { next: 1, end: 9 };
        assert_eq!(rt; fill(&mut input, &mut buffer)?, 4);
        assert_eq!(rt; buffer, [1, 2, 3, 4]);
        assert_eq!(rt; input.next, 5);
        Ok(())
    }
}
