// The queue by counting answers as the queue does.
ghost use Rattle.std.specs.Prelude.{◌≡◌, true, []};
ghost use Rattle.holder.specs.Meanings.{meaning};
ghost use Rattle.turns.specs.Calls.{answered, after_all};
ghost use Rattle.holder.specs.Kinds.{queue_list, queue_seat};
ghost use Rattle.counting.specs.Slots.{codes};

use crate::queue::CountingQueue;
use holder::queue::Queue;
use turns::calls::{HolderTurn, answer_alike};

// Gives both the same calls, each cleared first, writes down the answers of the queue, and says whether the other
// answers alike throughout: it always does.
pub fn answers_as_queue(
    queue: &mut Queue,
    counting: &mut CountingQueue,
    turns: &mut [HolderTurn],
) -> bool
    ensures alike { result ≡ true }
    ensures answers { turns.new ≡ answered queue_seat (meaning [] 0) turns.old }
    ensures left { meaning (queue_list queue.new) queue.new.row.added ≡ after_all queue_seat (meaning [] 0) turns.old }
    ensures right { meaning (codes counting.new.arrivals.slots) counting.new.added ≡ after_all queue_seat (meaning [] 0) turns.old }
{
    answer_alike(queue, counting, turns)
}
