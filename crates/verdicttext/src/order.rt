//! An order of stores as text.
ghost use Rattle.std.specs.List.{flat_map};
ghost use Rattle.verdicttext.specs.Store.{store_text};
ghost use Rattle.verdicttext.specs.Text.{order_words, marked, space};
ghost use Rattle.writing.specs.Writes.{Puts};

use executions::execution::Execution;
use executions::kinds::location;
use writing::put::{put, put_number};

// A store at this location, where the store before it, if there is one, is at location `here`.
fn put_store(text: &mut [u8], at: usize, here: Option<u8>, location: u8, store: u16) -> usize
    ensures { Puts (store_text here location store) at text.old text.new result }
{
    if here == Some(location) {
        let at = put(text, at, b"<");
        return put_number(text, at, usize::from(store));
    }
    let at = put(text, at, b" ");
    let at = put_number(text, at, usize::from(location));
    let at = put(text, at, b":");
    put_number(text, at, usize::from(store))
}

// A word for each location, after a space.
pub(crate) fn put_order<E: Execution>(
    text: &mut [u8],
    place: usize,
    run: &E,
    stores: &[u16],
) -> usize
    ensures { Puts (flat_map (marked space) (order_words (E.Execution.events run.now) stores.now)) place text.old text.new result }
{
    let mut at = place;
    let mut here = None;
    for store in stores {
        let location = location(run, usize::from(*store));
        at = put_store(text, at, here, location, *store);
        here = Some(location);
    }
    at
}
