// Tests of dockets, through the function that answers a list of calls.
#![tactic(auto)]

#[cfg(test)]
mod lists {
    // Histories, lists of calls, and what was answered.
    use calls::certificate::Certificate;
    use calls::fault::{DocketFault, RefusalCode};
    use docket::buffers::OwnBuffers;
    use docket::slot::Slot;
    use item::ticket::Ticket;
    use sheet::operation::{Method, Operation};
    use std::test::*;

    pub fn during(method: Method<Ticket>, start: u64, end: u64) -> Operation<Ticket> {
        Operation {
            method,
            thread: 1,
            start,
            end,
        }
    }

    // Six operations: three adds, and takes of the third, the first and the second item.
    pub fn six() -> [Operation<Ticket>; 6] {
        let a = Ticket { number: 10 };
        let b = Ticket { number: 11 };
        let c = Ticket { number: 12 };
        [
            during(Method::Add(a), 0, 10),
            during(Method::Add(b), 5, 15),
            during(Method::Add(c), 20, 30),
            during(Method::Take(c), 40, 50),
            during(Method::Take(a), 45, 55),
            during(Method::Take(b), 60, 70),
        ]
    }

    pub fn nothing() -> RefusalCode {
        RefusalCode::default()
    }

    // A run of the order, and a certify with a buffer entry for each of its numbers.
    pub fn examination(order: &[u16], rt: HostRuntime) -> Result<Vec<Slot>, Fail> {
        let run = Slot::Run {
            order: order.to_vec(rt.alloc())?,
            new: 0,
            stopped: nothing(),
        };
        let certify = Slot::Certify {
            buffers: OwnBuffers {
                ranks: vec![in rt.alloc(); 9u16; order.len()]?,
                instants: vec![in rt.alloc(); 9u64; order.len()]?,
                latenesses: vec![in rt.alloc(); 9u16; order.len()]?,
            },
            answer: Err(DocketFault::NothingToLift),
        };
        Ok(vec![in rt.alloc(); run, certify]?)
    }

    // What stopped the first run.
    pub fn stop_of(slots: &[Slot]) -> Option<RefusalCode> {
        slots.iter().find_map(|slot| match slot {
            Slot::Run { stopped, .. } => Some(*stopped),
            _ => None,
        })
    }

    // The certificate, where one was granted and the buffers are as given.
    pub fn granted(slots: &[Slot], r: &[u16], i: &[u64], l: &[u16]) -> Option<Certificate> {
        slots.iter().find_map(|slot| match slot {
            Slot::Certify {
                buffers,
                answer: Ok(certificate),
            } if buffers.ranks.as_slice() == r
                && buffers.instants.as_slice() == i
                && buffers.latenesses.as_slice() == l => { Some(*certificate) }
            _ => None,
        })
    }

    // The certificate, where one was granted, whatever the buffers hold.
    pub fn certificate_of(slots: &[Slot]) -> Option<Certificate> {
        slots.iter().find_map(|slot| match slot {
            Slot::Certify {
                answer: Ok(certificate),
                ..
            } => Some(*certificate),
            _ => None,
        })
    }
}

#[cfg(test)]
mod tests {
    use crate::lists::{certificate_of, during, examination, granted, nothing, six, stop_of};
    use calls::certificate::Certificate;
    use calls::fault::RefusalCode;
    use docket::answer_calls::answer_calls;
    use docket::slot::Slot;
    use holder::holder::Holder;
    use holder::queue::Queue;
    use holder::stack::Stack;
    use item::ticket::Ticket;
    use sheet::operation::Method;
    use sheet::sheet::Sheet;
    use std::test::*;

    fn refusal(number: u8, place: u16, detail: u16) -> Option<RefusalCode> {
        Some(RefusalCode {
            number,
            place,
            detail,
        })
    }

    fn certificate(total: u32, largest: u16, first: u16) -> Option<Certificate> {
        Some(Certificate {
            total,
            largest,
            first,
        })
    }

    // What the six operations are answered, examined in their order with that holder and bound.
    fn examined<H: Holder + Drop>(holder: H, k: u16, rt: HostRuntime) -> Result<Vec<Slot>, Fail> {
        let mut memory = [six()[0]; 6];
        let mut sheet = Sheet::new(&mut memory);
        for operation in six() {
            let _ = sheet
                .enter(operation)
                .map_err(|_| Fail::new("an operation was not entered"))?;
        }
        let mut slots = examination(&[0, 1, 2, 3, 4, 5], rt)?;
        let docket = answer_calls(&sheet, holder, k, &mut slots);
        drop(docket);
        Ok(slots)
    }

    #[test]
    fn queue_with_bound_two(rt: HostRuntime) -> Result<(), Fail> {
        let slots = examined(Queue::new(), 2, rt)?;
        assert_eq!(rt; stop_of(&slots), Some(nothing()));
        let written = granted(
            &slots,
            &[0, 0, 0, 2, 0, 0],
            &[0, 5, 20, 40, 45, 60],
            &[1, 1, 0, 0, 0, 0],
        );
        assert_eq!(rt; written, certificate(2, 2, 3));
        Ok(())
    }

    #[test]
    fn queue_with_bound_one(rt: HostRuntime) -> Result<(), Fail> {
        let slots = examined(Queue::new(), 1, rt)?;
        assert_eq!(rt; stop_of(&slots), refusal(35, 3, 2));
        Ok(())
    }

    #[test]
    fn stack_with_bound_one(rt: HostRuntime) -> Result<(), Fail> {
        let slots = examined(Stack::new(), 1, rt)?;
        let written = granted(
            &slots,
            &[0, 0, 0, 0, 1, 0],
            &[0, 5, 20, 40, 45, 60],
            &[0, 1, 0, 0, 0, 0],
        );
        assert_eq!(rt; written, certificate(1, 1, 4));
        Ok(())
    }

    // What stops a run of 1,023 adds and a found-empty, all at one instant, and what certificate it gets.
    fn full(k: u16, rt: HostRuntime) -> Result<(Option<RefusalCode>, Option<Certificate>), Fail> {
        let mut memory = [six()[0]; 1024];
        let mut sheet = Sheet::new(&mut memory);
        for i in 0..1023u16 {
            let item = Ticket {
                number: u32::from(i),
            };
            let add = during(Method::Add(item), 0, 0);
            let _ = sheet
                .enter(add)
                .map_err(|_| Fail::new("an add was not entered"))?;
        }
        let empty = during(Method::FoundEmpty, 0, 0);
        let _ = sheet
            .enter(empty)
            .map_err(|_| Fail::new("the found-empty was not entered"))?;
        let order: Vec<u16> = (0..1024u16).collect(rt.alloc())?;
        let mut slots = examination(&order, rt)?;
        let docket = answer_calls(&sheet, Queue::new(), k, &mut slots);
        drop(docket);
        Ok((stop_of(&slots), certificate_of(&slots)))
    }

    #[test]
    fn found_empty_beside_as_many_as_the_bound(rt: HostRuntime) -> Result<(), Fail> {
        let (stop, written) = full(1023, rt)?;
        assert_eq!(rt; stop, Some(nothing()));
        assert_eq!(rt; written, certificate(1023, 1023, 1023));
        Ok(())
    }

    #[test]
    fn found_empty_beside_one_too_many(rt: HostRuntime) -> Result<(), Fail> {
        let (stop, written) = full(1022, rt)?;
        assert_eq!(rt; stop, refusal(35, 1023, 1023));
        assert_eq!(rt; written, None);
        Ok(())
    }
}
