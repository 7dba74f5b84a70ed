// The first 8 bytes of a trace: item type, kind, how many operations, and k.
ghost use Rattle.std.specs.Prelude.{◌≡◌, ℕ, ◌+◌, ◌*◌, ◌≤◌, length, IfOk};
ghost use Rattle.frame.specs.Headers.{frame_of};

use crate::fault::FrameFault;
use crate::kind::Kind;
use crate::layout::{HEADER_LEN, OPERATION_LEN};
use record::bytes::number_at;

// What the header of a trace says: the kind of strict object, the number of operations and the bound k.
#[derive(Clone, Copy, PartialEq, Eq, Debug)]
pub struct Header {
    pub kind: Kind,
    pub count: u16,
    pub k: u16,
}

// The header of a trace of that item type, or the first of its checks that fails.
pub fn read_header(bytes: &[u8], item_type: u8) -> Result<Header, FrameFault>
    ensures answer { result ≡ frame_of item_type bytes.now }
    ensures long { IfOk result (λ h. length bytes.now ≡ 8 + 26 * h.count) }
{
    if bytes.len() < HEADER_LEN {
        return Err(FrameFault::Short);
    }
    let word = number_at(bytes, 0, 2);
    let count = number_at(bytes, 2, 2);
    let k = number_at(bytes, 4, 2);
    let spare = number_at(bytes, 6, 2);
    if word / 4096 != 1 {
        return Err(FrameFault::Version);
    }
    let kind = Kind::try_from((word / 256 % 16) as u8)?;
    if word / 16 % 16 != u64::from(item_type) {
        return Err(FrameFault::ItemType);
    }
    if word % 16 != 0 || spare != 0 {
        return Err(FrameFault::SpareBit);
    }
    if count > 1024 {
        return Err(FrameFault::Count);
    }
    if bytes.len() != HEADER_LEN + OPERATION_LEN * count as usize {
        return Err(FrameFault::Length);
    }
    Ok(Header {
        kind,
        count: count as u16,
        k: k as u16,
    })
}
