// Tests of items, sheet and trace: every refusal, and the limits.
#![tactic(auto)]

pub mod cases;

#[cfg(test)]
mod tests {
    use crate::cases::{ONE, TOP, TWO, add, refusal_of};
    use item::lane::Lane;
    use item::stamp::Stamp;
    use item::ticket::Ticket;
    use refusal::{Layer, Refusal};
    use sheet::operation::{Method, Operation};
    use sheet::sheet::Sheet;
    use std::test::Fail;
    use trace::copy::copy;
    use trace::read::read;
    use trace::write::write;

    // A refusal with no detail.
    fn refused(layer: Layer, number: u8, place: u16) -> Option<Refusal> {
        Some(Refusal {
            layer,
            number,
            place,
            detail: 0,
        })
    }

    // The bytes with one of them changed.
    fn with_byte<const N: usize>(mut bytes: [u8; N], at: usize, to: u8) -> [u8; N] {
        if let Some(byte) = bytes.get_mut(at) {
            *byte = to;
        }
        bytes
    }

    // The refusal of a trace of tickets, with that memory for its operations.
    fn refusal_within(bytes: &[u8], memory: &mut [Operation<Ticket>]) -> Option<Refusal> {
        refusal_of::<Ticket>(bytes, &mut Sheet::new(memory))
    }

    // The refusal of a trace of tickets, with memory for two operations.
    fn ticket_refusal(bytes: &[u8]) -> Option<Refusal> {
        refusal_within(bytes, &mut [add(0); 2])
    }

    // The refusal of the trace of one add, a stamp with those two upper bits of case and six of lane.
    fn stamp_refusal(case_and_lane: u8) -> Option<Refusal> {
        let mut bytes = ONE;
        bytes[1] = 0x10;
        bytes[9] = case_and_lane;
        let blank = Operation {
            method: Method::FoundEmpty,
            thread: 0,
            start: 0,
            end: 0,
        };
        let mut memory = [blank; 1];
        refusal_of::<Stamp>(&bytes, &mut Sheet::new(&mut memory))
    }

    // The refusal of the trace of one add, with one byte changed.
    fn changed(at: usize, to: u8) -> Option<Refusal> {
        ticket_refusal(&with_byte(ONE, at, to))
    }

    // The number of the refusal of writing tickets with that kind, k 1 and that order.
    fn write_refusal(sheet: &Sheet<Ticket>, kind: u8, order: &[u16], out: &mut [u8]) -> Option<u8> {
        let fault = write(sheet, kind, 1, order, out).err()?;
        Some(Refusal::from(fault).number)
    }

    // The refusal of copying a trace of tickets, with memory for two operations.
    fn copy_refusal(bytes: &[u8], out: &mut [u8]) -> Option<Refusal> {
        let mut memory = [add(0); 2];
        let mut sheet = Sheet::<Ticket>::new(&mut memory);
        copy(bytes, &mut sheet, out).err().map(Refusal::from)
    }

    #[test]
    fn headers(rt: HostRuntime) {
        assert_eq!(rt; ticket_refusal(&ONE), None);
        assert_eq!(rt; ticket_refusal(&ONE[0..7]), refused(Layer::Frame, 1, 0));
        assert_eq!(rt; changed(0, 0x20), refused(Layer::Frame, 2, 0));
        assert_eq!(rt; changed(0, 0x13), refused(Layer::Frame, 3, 0));
        assert_eq!(rt; changed(1, 0x20), refused(Layer::Frame, 4, 0));
        assert_eq!(rt; changed(1, 0x01), refused(Layer::Frame, 5, 0));
        assert_eq!(rt; changed(7, 0x01), refused(Layer::Frame, 5, 0));
        assert_eq!(rt; changed(2, 0x05), refused(Layer::Frame, 6, 0));
        assert_eq!(rt; ticket_refusal(&ONE[0..33]), refused(Layer::Frame, 7, 0));
        assert_eq!(rt; ticket_refusal(&[0x12, 0, 0, 0, 0xff, 0xff, 0, 0]), None);
    }

    #[test]
    fn records(rt: HostRuntime) {
        assert_eq!(rt; changed(8, 0xc0), refused(Layer::Record, 10, 0));
        assert_eq!(rt; changed(8, 0x01), refused(Layer::Record, 11, 0));
        assert_eq!(rt; changed(9, 0x01), refused(Layer::Item, 12, 0));
        assert_eq!(rt; changed(8, 0x80), refused(Layer::Record, 13, 0));
        assert_eq!(rt; changed(31, 0x00), refused(Layer::Sheet, 21, 0));
        assert_eq!(rt; changed(31, 0x01), None);
    }

    #[test]
    fn times_at_the_top(rt: HostRuntime) {
        assert_eq!(rt; ticket_refusal(&TOP), None);
        assert_eq!(rt;
            ticket_refusal(&with_byte(TOP, 31, 0xfe)),
            refused(Layer::Sheet, 21, 0)
        );
    }

    #[test]
    fn stamps(rt: HostRuntime) {
        assert_eq!(rt; stamp_refusal(0x00), None);
        assert_eq!(rt; stamp_refusal(0x7f), None);
        assert_eq!(rt; stamp_refusal(0x01), refused(Layer::Item, 12, 0));
        assert_eq!(rt; stamp_refusal(0x80), refused(Layer::Item, 12, 0));
        assert_eq!(rt;
            Lane::try_from(64).err().map(|fault| fault.refusal(0)),
            refused(Layer::Item, 12, 0)
        );
    }

    #[test]
    fn twice_and_too_many(rt: HostRuntime) {
        let mut bytes = TWO;
        assert_eq!(rt; ticket_refusal(&bytes), None);
        assert_eq!(rt;
            refusal_within(&bytes, &mut [add(0); 1]),
            refused(Layer::Sheet, 20, 1)
        );
        bytes[37] = 7;
        assert_eq!(rt; ticket_refusal(&bytes), refused(Layer::Sheet, 22, 1));
        bytes[8] = 0x40;
        assert_eq!(rt; ticket_refusal(&bytes), None);
        bytes[32] = 0x40;
        assert_eq!(rt; ticket_refusal(&bytes), refused(Layer::Sheet, 23, 1));
    }

    #[test]
    fn refused_record_leaves_the_earlier_ones(rt: HostRuntime) {
        let mut bytes = TWO;
        bytes[37] = 7;
        let mut memory = [add(0); 2];
        let mut sheet = Sheet::<Ticket>::new(&mut memory);
        assert!(rt; read::<Ticket>(&bytes, &mut sheet).is_err());
        assert_eq!(rt; sheet.count(), 1);
        assert!(rt; read::<Ticket>(&bytes[0..59], &mut sheet).is_err());
        assert_eq!(rt; sheet.count(), 1);
    }

    #[test]
    fn writing(rt: HostRuntime) {
        let mut memory = [add(0); 1];
        let mut sheet = Sheet::<Ticket>::new(&mut memory);
        assert!(rt; sheet.enter(add(5)).is_ok());
        let mut out = [9u8; 36];
        assert_eq!(rt;
            write::<Ticket>(&sheet, 3, 1, &[0, 1], &mut out[0..33]).is_ok(),
            false
        );
        assert_eq!(rt; write_refusal(&sheet, 3, &[0, 1], &mut out[0..33]), Some(3));
        assert_eq!(rt;
            write_refusal(&sheet, 2, &[0, 1], &mut out[0..33]),
            Some(52)
        );
        assert_eq!(rt; write_refusal(&sheet, 2, &[0], &mut out[0..33]), Some(51));
        assert!(rt; out == [9u8; 36]);
        assert!(rt; write::<Ticket>(&sheet, 2, 1, &[0], &mut out).is_ok());
        assert_eq!(rt; out[35], 9);
        assert_eq!(rt; ticket_refusal(&out[0..34]), None);
    }

    #[test]
    fn copying(rt: HostRuntime) {
        let mut out = [9u8; 61];
        assert_eq!(rt;
            copy_refusal(&TWO, &mut out[0..59]),
            refused(Layer::Frame, 51, 0)
        );
        assert_eq!(rt;
            copy_refusal(&TWO[0..59], &mut out),
            refused(Layer::Frame, 7, 0)
        );
        assert!(rt; out == [9u8; 61]);
        assert_eq!(rt; copy_refusal(&TWO, &mut out), None);
        assert!(rt; out.starts_with(&TWO));
        assert_eq!(rt; out[60], 9);
    }

    #[test]
    fn a_full_sheet(rt: HostRuntime) -> Result<(), Fail> {
        let heap = rt.alloc();
        let mut memory = [add(0); 1025];
        let mut sheet = Sheet::<Ticket>::new(&mut memory);
        let order: Vec<u16> = (0..1024u16).collect(heap)?;
        for number in order.iter() {
            assert!(rt; sheet.enter(add(u32::from(*number))).is_ok());
        }
        assert_eq!(rt;
            sheet.enter(add(5000)).err().map(Refusal::from),
            refused(Layer::Sheet, 20, 1024)
        );
        let mut out = vec![in heap; 0u8; 26632]?;
        assert!(rt; write::<Ticket>(&sheet, 0, 1, order.as_slice(), out.as_mut_slice()).is_ok());
        assert_eq!(rt; refusal_within(out.as_slice(), &mut [add(0); 1024]), None);
        assert_eq!(rt;
            ticket_refusal(out.as_slice()),
            refused(Layer::Sheet, 20, 2)
        );
        Ok(())
    }
}
