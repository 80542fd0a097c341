//! A piece of a text, laid over memory from a place on.
ghost use Rattle.std.specs.Prelude.{decimal};
ghost use Rattle.writing.specs.Writes.{Puts};

use itoa::Buffer;

/// There is no room for a text.
#[derive(Drop)]
pub struct Full;

/// Lays this piece over the memory from this place on, as far as there is room, and answers the place behind it. So one that
/// writes a text piece by piece counts its characters where it is given no memory.
pub fn put(text: &mut [u8], at: usize, piece: &[u8]) -> usize
    ensures { Puts piece.now at text.old text.new result }
{
    if at < text.len() {
        let count = piece.len().min(text.len() - at);
        text[at..at + count].copy_from_slice(&piece[..count]);
    }
    at.saturating_add(piece.len())
}

/// The same of a number, in decimal digits.
pub fn put_number(text: &mut [u8], at: usize, n: usize) -> usize
    ensures { Puts (decimal n) at text.old text.new result }
{
    put(text, at, Buffer::new().format(n).as_bytes())
}

#[cfg(test)]
mod tests {
    use super::*;
    use std::test::Fail;

    fn put_rc20(text: &mut [u8]) -> usize {
        let at = put(text, 0, b"RC20 ");
        let at = put_number(text, at, 0);
        put_number(text, at, 512)
    }

    #[test]
    fn lays_one_behind_another_as_far_as_there_is_room(rt: HostRuntime) -> Result<(), Fail> {
        for (room, expected) in [
            (11, b"RC20 0512.."),
            (9, b"RC20 0512.."),
            (8, b"RC20 051..."),
            (2, b"RC........."),
            (0, b"..........."),
        ] {
            let mut text = [b'.'; 11];
            assert_eq!(rt; put_rc20(&mut text[..room]), 9);
            assert_eq!(rt; &text, expected);
        }
        Ok(())
    }

    #[test]
    fn counts_no_further_than_numbers_go(rt: HostRuntime) -> Result<(), Fail> {
        let mut text = [b'.'; 2];
        assert_eq!(rt; put(&mut text, usize::MAX - 1, b"RC20"), usize::MAX);
        assert_eq!(rt; &text, b"..");
        Ok(())
    }
}
