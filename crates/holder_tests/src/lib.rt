// Tests of the three kinds of holder against the plain list that each stands for.
#![tactic(auto)]

#[cfg(test)]
mod plain {
    // A plain list of codes that answers calls by looking through it, and a fixed list of calls for it.
    use holder::fault::HolderFault;
    use std::test::Fail;
    use turns::calls::{HolderAnswer, HolderCall, HolderTurn};

    // Where a new code goes.
    #[derive(Clone, Copy)]
    pub enum Seat {
        End,
        Front,
    }

    #[derive(Drop)]
    pub struct Plain {
        pub list: Vec<u16>,
        pub adds: u16,
        pub seat: Seat,
    }

    impl Plain {
        fn add(&mut self, code: u16) -> Result<HolderAnswer, Fail> {
            if code > 1023 {
                return Ok(Err(HolderFault::CodeTooLarge));
            }
            if self.list.contains(&code) {
                return Ok(Err(HolderFault::AlreadyHeld));
            }
            if self.adds > 1023 {
                return Ok(Err(HolderFault::AddsUsedUp));
            }
            self.adds += 1;
            match self.seat {
                Seat::End => self.list.push(code)?,
                Seat::Front => self.list.insert(0, code)?,
            }
            Ok(Ok(None))
        }

        fn take(&mut self, code: u16) -> HolderAnswer {
            let i = self
                .list
                .iter()
                .position(|held| *held == code)
                .ok_or(HolderFault::NotHeld)?;
            self.list.remove(i);
            Ok(None)
        }

        pub fn answer(&mut self, call: HolderCall) -> Result<HolderAnswer, Fail> {
            let answer = match call {
                HolderCall::Clear => {
                    self.list.clear();
                    self.adds = 0;
                    Ok(None)
                }
                HolderCall::Count => Ok(Some(u16::try_from(self.list.len())?)),
                HolderCall::Rank(code) => {
                    match self.list.iter().position(|held| *held == code) {
                        Some(i) => Ok(Some(u16::try_from(i)?)),
                        None => Err(HolderFault::NotHeld),
                    }
                }
                HolderCall::At(place) => self
                    .list
                    .get(place as usize)
                    .copied()
                    .map(Some)
                    .ok_or(HolderFault::NoSuchPlace),
                HolderCall::Add(code) => self.add(code)?,
                HolderCall::Take(code) => self.take(code),
            };
            Ok(answer)
        }
    }

    // The next of a fixed row of numbers that look like chance.
    fn next(x: u32) -> u32 {
        x.wrapping_mul(1664525).wrapping_add(1013904223)
    }

    // The call that a number stands for: half of them adds, a quarter takes, and a code in a dozen is too large.
    fn call_of(x: u32) -> HolderCall {
        let code = ((x >> 8) % 1111) as u16;
        match x >> 28 {
            0..=7 => HolderCall::Add(code),
            8..=11 => HolderCall::Take(code),
            12..=13 => HolderCall::Rank(code),
            14 => HolderCall::At(code),
            _ => HolderCall::Count,
        }
    }

    // Calls with the answers of the plain list beside them, and the codes that it has in the end.
    #[derive(Drop)]
    pub struct Played {
        pub turns: Vec<HolderTurn>,
        pub list: Vec<u16>,
    }

    // 7,500 calls on the plain list, the 6,001st of them a clear.
    pub fn play(seat: Seat, rt: HostRuntime) -> Result<Played, Fail> {
        let mut plain = Plain {
            list: Vec::new(rt.alloc()),
            adds: 0,
            seat,
        };
        let mut turns = Vec::new(rt.alloc());
        let mut x: u32 = 20_261;
        for i in 0..7500u16 {
            x = next(x);
            let call = if i == 6000 {
                HolderCall::Clear
            } else {
                call_of(x)
            };
            let answer = plain.answer(call)?;
            turns.push(HolderTurn { call, answer })?;
        }
        Ok(Played {
            turns,
            list: plain.list,
        })
    }
}

#[cfg(test)]
mod tests {
    use crate::plain::{Seat, play};
    use counting::answers_as_queue::answers_as_queue;
    use counting::queue::CountingQueue;
    use holder::fault::HolderFault;
    use holder::holder::Holder;
    use holder::queue::Queue;
    use holder::stack::Stack;
    use refusal::{Layer, Refusal};
    use std::test::Fail;
    use turns::calls::{HolderTurn, answers_agree};

    // Whether a holder answers the calls as the plain list of that seat does.
    fn agrees<H: Holder + Drop>(mut holder: H, seat: Seat, rt: HostRuntime) -> Result<bool, Fail> {
        let played = play(seat, rt)?;
        Ok(answers_agree(&mut holder, &played.turns))
    }

    // What an entry of a buffer has before a call: no code is so large.
    const BLANK: u16 = 9_999;

    // Whether a holder writes the first codes of the list over the front of a buffer of so many entries, says how many,
    // and leaves the entries past them.
    fn writes_front<H: Holder>(
        holder: &H,
        list: &[u16],
        entries: usize,
        rt: HostRuntime,
    ) -> Result<bool, Fail> {
        let mut buffer = vec![in rt.alloc(); BLANK; entries]?;
        let written = holder.front(&mut buffer);
        let as_wanted = buffer.iter().enumerate().all(|(i, entry)| *entry
            == list.get(i).copied().unwrap_or(BLANK));
        Ok(as_wanted && written == list.len().min(entries))
    }

    // The same of an empty holder, and after the calls for buffers shorter than the list, as long and longer.
    fn fronts_agree<H: Holder + Drop>(
        mut holder: H,
        seat: Seat,
        rt: HostRuntime,
    ) -> Result<bool, Fail> {
        let empty = writes_front(&holder, &[], 5, rt)?;
        let played = play(seat, rt)?;
        answers_agree(&mut holder, &played.turns);
        let held = played.list.len();
        let short = writes_front(&holder, &played.list, held / 2, rt)?;
        let exact = writes_front(&holder, &played.list, held, rt)?;
        let long = writes_front(&holder, &played.list, 1100, rt)?;
        Ok(empty && short && exact && long)
    }

    #[test]
    fn fronts_are_those_of_the_plain_list(rt: HostRuntime) -> Result<(), Fail> {
        assert!(rt; fronts_agree(Queue::new(), Seat::End, rt)?);
        assert!(rt; fronts_agree(Stack::new(), Seat::Front, rt)?);
        assert!(rt; fronts_agree(CountingQueue::new(), Seat::End, rt)?);
        Ok(())
    }

    #[test]
    fn queue_is_its_plain_list(rt: HostRuntime) -> Result<(), Fail> {
        assert!(rt; agrees(Queue::new(), Seat::End, rt)?);
        Ok(())
    }

    #[test]
    fn stack_is_its_plain_list(rt: HostRuntime) -> Result<(), Fail> {
        assert!(rt; agrees(Stack::new(), Seat::Front, rt)?);
        Ok(())
    }

    #[test]
    fn counting_queue_is_its_plain_list(rt: HostRuntime) -> Result<(), Fail> {
        assert!(rt; agrees(CountingQueue::new(), Seat::End, rt)?);
        Ok(())
    }

    #[test]
    fn counting_queue_answers_as_the_queue(rt: HostRuntime) -> Result<(), Fail> {
        let mut turns = play(Seat::Front, rt)?.turns;
        let mut queue = Queue::new();
        let mut counting = CountingQueue::new();
        assert!(rt; answers_as_queue(&mut queue, &mut counting, &mut turns));
        Ok(())
    }

    // The calls tell the seats apart: a stack does not answer as a queue.
    #[test]
    fn stack_is_no_queue(rt: HostRuntime) -> Result<(), Fail> {
        assert!(rt; !agrees(Stack::new(), Seat::End, rt)?);
        Ok(())
    }

    // How often a number is refused by.
    fn refused(turns: &[HolderTurn], number: u8) -> usize {
        turns
            .iter()
            .filter(|turn| {
                turn.answer
                    .is_err_and(|fault| Refusal::from(fault).number == number)
            })
            .count()
    }

    #[test]
    fn every_refusal_is_among_the_answers(rt: HostRuntime) -> Result<(), Fail> {
        let turns = play(Seat::End, rt)?.turns;
        for number in 40..=44 {
            assert!(rt; refused(&turns, number) > 100);
        }
        Ok(())
    }

    #[test]
    fn refusals_in_plain_numbers(rt: HostRuntime) {
        let refusal = Refusal::from(HolderFault::AddsUsedUp);
        assert_eq!(rt; refusal.layer, Layer::Holder);
        assert_eq!(rt; refusal.number, 42);
        assert_eq!(rt; refusal.place, 0);
        assert_eq!(rt; refusal.detail, 0);
    }
}
