// What a text is made of.

// A word as it stands, or a number in decimal digits.
#[derive(Clone, Copy, PartialEq, Eq, Debug)]
pub enum Piece<'a> {
    Word(&'a str),
    Number(u64),
}
