// Operations that do the same with the same item.
ghost use Rattle.std.specs.Prelude.{◌≡◌, ◌<◌, length, IfSome};
ghost use Rattle.sheet.specs.Alike.{alike, first_alike_in};

use crate::operation::{Method, Operation};
use item::item::Item;

// Whether two methods both add, or both take, the same item.
// Kept (rule of the project): a derived == would not go through the item's own `same`.
pub fn are_alike<I: Item>(one: &Method<I>, other: &Method<I>) -> bool
    ensures { result ≡ alike I.Item.number one.now other.now }
{
    match (one, other) {
        (Method::Add(x), Method::Add(y)) | (Method::Take(x), Method::Take(y)) => x.same(y),
        _ => false,
    }
}

// The lowest number of an operation that adds, or takes, the item that the method adds, or takes.
pub fn first_alike<I: Item>(records: &[Operation<I>], method: &Method<I>) -> Option<usize>
    ensures within { IfSome result (λ k. k < length records.now) }
    ensures first { result ≡ first_alike_in I.Item.number method.now 0 records.now }
{
    records
        .iter()
        .position(|earlier| are_alike(&earlier.method, method))
}
