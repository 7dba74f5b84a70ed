// Slots for the calls on a docket that bytes say.
ghost use Rattle.std.specs.Prelude.{◌≡◌, ◌||◌, map, is_err, IfOk, IfErr};
ghost use Rattle.std.specs.Iterator.{YieldsFirstBy, item_count};
ghost use Rattle.std.specs.Option.{option_map};
ghost use Rattle.docket.specs.Slots.{call_of};
ghost use Rattle.comparison.specs.Heaps.{has_refused};
ghost use Rattle.comparison.specs.Calls.{with_number, run_of_numbers, certify_of_numbers, front_docket_call, docket_calls, call_said, TakesMemory};

use crate::heap::Heap;
use crate::numbers::next_number;
use calls::fault::{DocketFault, RefusalCode};
use docket::buffers::OwnBuffers;
use docket::slot::Slot;
use std::alloc::AllocError;

// A call as bytes say it: a run along the order that its bytes say, a certify into buffers of so many entries.
#[derive(Clone, Copy, PartialEq, Eq, Debug)]
pub(crate) enum SaidCall<'a> {
    Place {
        operation: u16,
    },
    Run {
        order: &'a [u8],
    },
    Lift,
    Certify {
        ranks: u16,
        instants: u16,
        latenesses: u16,
    },
}

// The run at the front of the bytes, and the bytes behind it; none where no whole one stands there.
fn next_run(bytes: &[u8]) -> Option<(SaidCall<'_>, &[u8])>
    ensures { option_map (λ p. (call_said p.0, p.1.now)) result ≡ with_number bytes.now run_of_numbers }
{
    let (count, behind) = next_number(bytes)?;
    let (order, behind) = behind.split_at_checked(2 * count as usize)?;
    Some((SaidCall::Run { order }, behind))
}

// The certify at the front of the bytes, and the bytes behind it; none where no whole one stands there.
fn next_certify(bytes: &[u8]) -> Option<(SaidCall<'_>, &[u8])>
    ensures { option_map (λ p. (call_said p.0, p.1.now)) result ≡ certify_of_numbers bytes.now }
{
    let (ranks, behind) = next_number(bytes)?;
    let (instants, behind) = next_number(behind)?;
    let (latenesses, behind) = next_number(behind)?;
    let call = SaidCall::Certify {
        ranks,
        instants,
        latenesses,
    };
    Some((call, behind))
}

// The call at the front of the bytes, and the bytes behind it; none where no whole call stands there.
fn next_call(bytes: &[u8]) -> Option<(SaidCall<'_>, &[u8])>
    ensures { option_map (λ p. (call_said p.0, p.1.now)) result ≡ front_docket_call bytes.now }
{
    let (tag, behind) = bytes.split_first()?;
    match tag {
        0 => {
            let (operation, behind) = next_number(behind)?;
            Some((SaidCall::Place { operation }, behind))
        }
        1 => next_run(behind),
        2 => Some((SaidCall::Lift, behind)),
        3 => next_certify(behind),
        _ => None,
    }
}

// The calls that the bytes say, one after another.
// Kept (no plainer): as one generic iterator for cases, calls on a holder and calls on a docket it takes a trait with a law, for three bodies of three lines.
#[derive(Drop)]
struct Calls<'a>(&'a [u8]);

impl<'a> Iterator for Calls<'a> {
    type Item = SaidCall<'a>;

    ghost next_gives = { YieldsFirstBy call_said (λ calls. docket_calls calls.0.now) };

    ghost remaining = { item_count (λ calls. docket_calls calls.0.now) };

    fn next(&mut self) -> Option<SaidCall<'a>> {
        let (call, behind) = next_call(self.0)?;
        self.0 = behind;
        Some(call)
    }
}

// A slot for a call, in which nothing is answered yet.
fn slot_for(heap: &mut Heap, call: SaidCall) -> Result<Slot, AllocError>
    ensures call { IfOk result (λ slot. call_of slot ≡ call_said call.entry) }
    ensures taken { IfErr result (λ _. TakesMemory (call_said call.entry)) }
    ensures refused { has_refused heap.new ≡ (is_err result || has_refused heap.old) }
{
    let answer = Err(DocketFault::NothingToLift);
    match call {
        SaidCall::Place { operation } => Ok(Slot::Place { operation, answer }),
        SaidCall::Run { order } => Ok(Slot::Run {
            order: heap.numbers(order)?,
            new: 0,
            stopped: RefusalCode::default(),
        }),
        SaidCall::Lift => Ok(Slot::Lift { answer }),
        SaidCall::Certify {
            ranks,
            instants,
            latenesses,
        } => Ok(Slot::Certify {
            buffers: OwnBuffers {
                ranks: heap.copies(0xffffu16, ranks)?,
                instants: heap.copies(0xffff_ffff_ffff_ffffu64, instants)?,
                latenesses: heap.copies(0xffffu16, latenesses)?,
            },
            answer: Err(DocketFault::NothingToLift),
        }),
    }
}

// Slots with all the calls that the bytes say.
pub(crate) fn all_slots(heap: &mut Heap, calls: &[u8]) -> Result<Vec<Slot>, AllocError>
    ensures calls { IfOk result (λ v. map call_of v.items ≡ docket_calls calls.now) }
    ensures refused { has_refused heap.new ≡ (is_err result || has_refused heap.old) }
{
    let mut slots = heap.nothing();
    for call in Calls(calls) {
        let slot = slot_for(heap, call)?;
        heap.push(&mut slots, slot)?;
    }
    Ok(slots)
}
