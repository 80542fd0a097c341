//! A number as one word.
ghost use Rattle.std.specs.Prelude.{decimal};
ghost use Rattle.verdicttext.specs.Text.{marked, space};
ghost use Rattle.writing.specs.Writes.{Puts};

use writing::put::{put, put_number};

// The number, after a space.
pub(crate) fn put_word(text: &mut [u8], at: usize, n: u16) -> usize
    ensures { Puts (marked space (decimal n)) at text.old text.new result }
{
    let at = put(text, at, b" ");
    put_number(text, at, usize::from(n))
}
