// Cases of items: a number unpacked and packed again.
ghost use Rattle.std.specs.Prelude.{◌≡◌};
ghost use Rattle.item.specs.Lanes.{lane_number, lane_named};
ghost use Rattle.text.specs.Contents.{content, with_words};
ghost use Rattle.comparison.specs.Cases.{number_again, item_case, or_no_case};

use crate::words::{item_words, no_case};
use item::fault::ItemFault;
use item::item::Item;
use item::lane::Lane;
use record::bytes::number_at;
use text::text::Text;

// The number of the item that the number names.
fn packed_again<I: Item>(number: u64) -> Result<u64, ItemFault>
    ensures { result ≡ number_again I.Item.number (I.Item.named number) }
{
    Ok(I::unpack(number)?.pack())
}

// The number of the lane of a number.
fn lane_again(number: u8) -> Result<u64, ItemFault>
    ensures { result ≡ number_again lane_number (lane_named number) }
{
    Ok(u64::from(u8::from(Lane::try_from(number)?)))
}

// The answer to a case of an item, or that it is none.
pub(crate) fn item_answer(body: &[u8], text: &mut Text)
    ensures { content text.new ≡ with_words (or_no_case (item_case body.now)) (content text.old) }
{
    if body.len() < 9 {
        return no_case(text);
    }
    let number = number_at(body, 1, 8);
    // Kept (no plainer): the item type is known at run time only, and a match is what picks a type then.
    let answer = match body[0] {
        0 => packed_again::<item::ticket::Ticket>(number),
        1 => packed_again::<item::stamp::Stamp>(number),
        2 => lane_again(body[8]),
        _ => return no_case(text),
    };
    item_words(answer, text);
}
