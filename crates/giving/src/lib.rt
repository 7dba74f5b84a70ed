// Lists of codes in the order in which a strict object would give them: where a code stands, how often, and what
// stays of the order when another code comes in or leaves.
#![tactic(auto)]

ghost use Rattle.std.specs.Prelude.{◌≡◌, ℕ, ◌<◌, ◌≤◌, length, nat_lt, slice_index, IfSome, IsNone};
ghost use Rattle.std.specs.List.{insert};
ghost use Rattle.giving.specs.Lists.{times, place, first_place, stands, Once};
ghost use Rattle.giving.specs.Laws.{OrderAfterChange, TimesAfterChange};

// The first place of a code, if it stands in the list. A code that does not stand in it and is then put in has its seat
// as its place.
pub fn place_of(code: u16, list: &[u16]) -> Option<usize>
    ensures value { result ≡ first_place code list.now }
    ensures within { IfSome result (λ i. i < length list.now) }
    ensures there { IfSome result (λ i. slice_index list.now i ≡ code) }
    ensures only { Once list.now → (k : ℕ) → k < length list.now → slice_index list.now k ≡ code → result ≡ Some k }
    ensures seated { IsNone result → (seat : ℕ) → seat ≤ length list.now → place code (insert list.now seat code) ≡ seat }
{
    list.iter().position(|held| code == *held)
}

// How often a code stands in the list: some times exactly where it has a place there. One time less after that code
// was taken out, and one more after it was put in.
pub fn times_of(code: u16, list: &[u16]) -> usize
    ensures value { result ≡ times code list.now }
    ensures some { nat_lt 0 result ≡ stands code list.now }
    ensures changed { TimesAfterChange code list.now result }
{
    list.iter().filter(|held| code == **held).count()
}

// Whether one code stands before another. A third code that leaves, or comes in at any seat, changes nothing of it.
pub fn stands_before(one: u16, other: u16, list: &[u16]) -> bool
    ensures value { result ≡ nat_lt (place one list.now) (place other list.now) }
    ensures kept { OrderAfterChange one other list.now result }
{
    match (place_of(one, list), place_of(other, list)) {
        (Some(i), Some(j)) => i < j,
        (Some(_), None) => true,
        (None, _) => false,
    }
}
