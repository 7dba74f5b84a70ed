// Traces that the tests read, byte by byte.
ghost use Rattle.std.specs.Prelude.{◌≡◌, is_ok};
ghost use Rattle.std.specs.Option.{option_map};
ghost use Rattle.sheet.specs.Sheets.{room};
ghost use Rattle.trace.specs.Reading.{reading};
ghost use Rattle.trace_tests.specs.Cases.{refusal_in, add_of_ticket};

use item::item::Item;
use item::ticket::Ticket;
use refusal::Refusal;
use sheet::operation::{Method, Operation};
use sheet::sheet::Sheet;
use trace::read::read;

// The trace of one add: ticket 7 by thread 1, from 1 to 2, on a queue with k 1.
pub const ONE: [u8; 34] = [
    0x10, 0, 0, 1, 0, 1, 0, 0, 0, 0, 0, 0, 0, 7, 0, 1, 0, 0, 0, 0, 0, 0, 0, 1, 0, 0, 0, 0, 0, 0, 0,
    2, 0, 0,
];

// The same add from the last instant to the last instant.
pub const TOP: [u8; 34] = [
    0x10, 0, 0, 1, 0, 1, 0, 0, 0, 0, 0, 0, 0, 7, 0, 1, 255, 255, 255, 255, 255, 255, 255, 255, 255,
    255, 255, 255, 255, 255, 255, 255, 0, 0,
];

// The trace of two adds: tickets 7 and 8.
pub const TWO: [u8; 60] = [
    0x10, 0, 0, 2, 0, 1, 0, 0, 0, 0, 0, 0, 0, 7, 0, 1, 0, 0, 0, 0, 0, 0, 0, 1, 0, 0, 0, 0, 0, 0, 0,
    2, 0, 0, 0, 0, 0, 8, 0, 1, 0, 0, 0, 0, 0, 0, 0, 3, 0, 0, 0, 0, 0, 0, 0, 4, 0, 0, 0, 1,
];

// The refusal of a trace that is read onto the sheet, or none.
pub fn refusal_of<I: Item>(bytes: &[u8], sheet: &mut Sheet<I>) -> Option<Refusal>
    ensures { result ≡ refusal_in (reading I.Item (room sheet.old) bytes.now) }
{
    read(bytes, sheet).err().map(Refusal::from)
}

// An add of a ticket by thread 0, at the instant 0.
pub fn add(number: u32) -> Operation<Ticket>
    ensures { result ≡ add_of_ticket number }
{
    Operation {
        method: Method::Add(Ticket { number }),
        thread: 0,
        start: 0,
        end: 0,
    }
}
