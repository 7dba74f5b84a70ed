// The add of a take's item.
ghost use Rattle.std.specs.Prelude.{◌≡◌, ◌<◌, length, IfSome};
ghost use Rattle.sheet.specs.declared.operation.Method.TheVariants.{Add};
ghost use Rattle.sheet.specs.Alike.{alike};
ghost use Rattle.sheet.specs.Pairing.{add_matching, LowestAdd};

use crate::alike::are_alike;
use crate::operation::{Method, Operation};
use item::item::Item;

// Whether a method adds the item.
// Not inlined, so that the compiler keeps the sequence of `adds_if_same`.
#[inline(never)]
fn adds<I: Item>(method: &Method<I>, item: &I) -> bool
    ensures { result ≡ alike I.Item.number method.now (Add item.now) }
{
    are_alike(method, &Method::Add(*item))
}

// The same, but compares the item first: where adds and takes alternate, a processor may predict the kind wrongly at
// every other record, and few records have the item.
fn adds_if_same<I: Item>(method: &Method<I>, item: &I) -> bool
    ensures { result ≡ alike I.Item.number method.now (Add item.now) }
{
    match method {
        Method::Add(other) | Method::Take(other) => other.same(item) && adds(method, item),
        Method::FoundEmpty => false,
    }
}

// The number of the add that a take of the item belongs to: the lowest-numbered add of the same item, or none.
pub fn add_of<I: Item>(records: &[Operation<I>], taken: &I) -> Option<usize>
    ensures within { IfSome result (λ k. k < length records.now) }
    ensures answer { result ≡ add_matching I.Item.number taken.now records.now }
    ensures lowest_add_of_the_item { LowestAdd I.Item.number (I.Item.number taken.now) records.now result }
{
    let item = *taken;
    records
        .iter()
        .position(|earlier| adds_if_same(&earlier.method, &item))
}
