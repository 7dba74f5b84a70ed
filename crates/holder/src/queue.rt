// The queue: what came first is given first.
ghost use Rattle.holder.specs.Kinds.{queue_given, queue_seat};
ghost use Rattle.holder.specs.Given.{front_laws};

use crate::line::{End, Line};

// The front of the row: the giving list is the row itself.
pub struct Front;

impl End for Front {
    ghost given = { queue_given };

    ghost seat = { queue_seat };

    ghost across = { λ n i. i };

    ghost laws = { front_laws };

    fn place(_n: u16, i: u16) -> u16 {
        i
    }
}

pub type Queue = Line<Front>;
