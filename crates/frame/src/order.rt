// The proposed order: two bytes for each number.
ghost use Rattle.std.specs.Prelude.{◌≡◌, length, map};
ghost use Rattle.std.specs.Int.{from_be_bytes, w16};
ghost use Rattle.std.specs.List.{slice_get};
ghost use Rattle.frame.specs.Orders.{order_of, first_numbers};

use std::array;

// The order of a trace: numbers of 16 bits.
// Kept (no plainer): no impl Model, since `new` promises the bytes themselves, from which one definition gives the numbers.
#[derive(Clone, Copy, PartialEq, Eq, Debug)]
pub struct Order<'a> {
    bytes: &'a [u8],
}

impl<'a> Order<'a> {
    pub fn new(bytes: &'a [u8]) -> Order<'a>
        ensures { result.bytes.now ≡ bytes.now }
    {
        Order { bytes }
    }

    // The two bytes of each number.
    fn pairs(&self) -> &'a [[u8; 2]]
        ensures { map (from_be_bytes w16) result.now ≡ order_of self.now }
    {
        self.bytes.as_chunks::<2>().0
    }

    // How many numbers there are.
    pub fn len(&self) -> usize
        ensures { result ≡ length (order_of self.now) }
    {
        self.pairs().len()
    }

    // The number at a place, or none.
    pub fn at(&self, i: usize) -> Option<u16>
        ensures { result ≡ slice_get (order_of self.now) i }
    {
        self.pairs().get(i).map(|pair| u16::from_be_bytes(*pair))
    }

    // The first `N` numbers, with 0 past the last.
    pub fn numbers<const N: usize>(&self) -> [u16; N]
        ensures { result ≡ first_numbers N (order_of self.now) }
    {
        array::from_fn(|i| self.at(i).unwrap_or(0))
    }
}
