// A trace read onto a sheet and written back.
ghost use Rattle.std.specs.Prelude.{◌≡◌, ℕ, ◌≤◌, length, take, IfOk, MatchResult};
ghost use Rattle.sheet.specs.Sheets.{entered, room, SameLoan};
ghost use Rattle.trace.specs.Contents.{Sound};
ghost use Rattle.trace.specs.Reading.{reading};
ghost use Rattle.trace.specs.Reading.Outcome.{accepted};
ghost use Rattle.giving.specs.Fronts.{over};
ghost use Rattle.trace.specs.Answers.{sheet_after, shown, contents_of};
ghost use Rattle.trace.specs.Copying.{copying};

use crate::fault::CopyFault;
use crate::read::{Accepted, read};
use crate::write::write_of_kind;
use item::item::Item;
use sheet::sheet::Sheet;

// Reads a trace onto a sheet and writes it back into `out`, which then begins with the trace's own bytes.
pub fn copy<'a, I: Item>(
    bytes: &'a [u8],
    sheet: &mut Sheet<I>,
    out: &mut [u8],
) -> Result<Accepted<'a>, CopyFault>
    ensures answer { shown result ≡ copying (length out.old) (reading I.Item (room sheet.old) bytes.now) }
    ensures entered { entered sheet.new ≡ sheet_after (entered sheet.old) (reading I.Item (room sheet.old) bytes.now) }
    ensures loan { SameLoan sheet.old sheet.new }
    ensures written_back_is_its_own_bytes { MatchResult result (λ _. out.new ≡ over bytes.now out.old) (λ _. out.new ≡ out.old) }
    ensures written_reads_as_what_went_in { IfOk result (λ a. (n : ℕ) → length (entered sheet.new) ≤ n → reading I.Item n (take (length bytes.now) out.new) ≡ accepted (contents_of a (entered sheet.new))) }
    ensures accepted_is_sound { IfOk result (λ a. Sound I.Item (room sheet.old) (contents_of a (entered sheet.new))) }
{
    let accepted = read(bytes, sheet)?;
    let numbers = accepted.order.numbers::<1024>();
    let order = &numbers[..accepted.order.len()];
    write_of_kind(sheet, accepted.kind, accepted.k, order, out)?;
    Ok(accepted)
}
