// Worked cases of both wires.
#![tactic(auto)]

#[cfg(test)]
mod tests {
    use base::{Fault, Layer, PACKET_BYTES, UNITS};
    use boxes::Boxes;
    use bus::{Bus, BusSlot};
    use std::process::Abort;
    use std::test::Fail;
    use wire::{Counts, Found, Slot, Tally, Wire, WireFault};

    // One byte more, and one less, than the longest packet.
    const LONG: usize = PACKET_BYTES + 1;

    const SHORT: usize = PACKET_BYTES - 1;

    // A buffer with room behind the longest packet.
    const WIDE: usize = PACKET_BYTES + 8;

    // The most places of a box.
    const BOX: usize = boxes::PLACES as usize;

    // A full box refuses, and the other boxes are as free as before.
    #[test]
    fn full_box(rt: HostRuntime) -> Result<(), Fail> {
        let mut slots = [Slot::empty(); 2];
        let mut line = Boxes::make(2, 1, &mut slots)?;
        line.post(0, 1, &[1, 2, 3])?;
        assert_eq!(rt; line.post(0, 1, &[4]), Err(WireFault::Full(1)));
        assert_eq!(rt;
            line.counts(0)?,
            Counts {
                waiting: 0,
                free: 1,
            }
        );
        assert_eq!(rt;
            line.counts(1)?,
            Counts {
                waiting: 1,
                free: 0,
            }
        );
        Ok(())
    }

    // The places of a bus are shared: what waits for one unit takes them from all.
    #[test]
    fn full_bus(rt: HostRuntime) -> Result<(), Fail> {
        let mut slots = [BusSlot::empty(); 2];
        let mut line = Bus::make(3, 2, &mut slots)?;
        line.post(2, 0, &[1])?;
        line.post(2, 0, &[2])?;
        assert_eq!(rt; line.post(2, 1, &[3]), Err(WireFault::Full(1)));
        assert_eq!(rt;
            line.counts(0)?,
            Counts {
                waiting: 2,
                free: 0,
            }
        );
        assert_eq!(rt;
            line.counts(1)?,
            Counts {
                waiting: 0,
                free: 0,
            }
        );
        Ok(())
    }

    // A drop in the middle: the later packet moves up, the other unit's stays.
    fn drop_in_the_middle<W: Wire>(rt: &impl Abort, line: &mut W) -> Result<(), Fail> {
        let mut into = [9; PACKET_BYTES];
        line.post(0, 1, &[10])?;
        line.post(1, 0, &[20])?;
        line.post(1, 1, &[30, 31])?;
        line.post(0, 1, &[])?;
        line.drop(1, 1)?;
        assert_eq!(rt;
            line.look(1, 0, &mut into)?,
            Found {
                sender: 0,
                length: 1,
            }
        );
        assert_eq!(rt; into[0], 10);
        assert_eq!(rt;
            line.look(1, 1, &mut into)?,
            Found {
                sender: 0,
                length: 0,
            }
        );
        assert_eq!(rt; line.look(1, 2, &mut into), Err(WireFault::NoPacket(2)));
        assert_eq!(rt;
            line.look(0, 0, &mut into)?,
            Found {
                sender: 1,
                length: 1,
            }
        );
        assert_eq!(rt; into[0], 20);
        assert_eq!(rt; into[1], 9);
        Ok(())
    }

    #[test]
    fn drop_in_boxes(rt: HostRuntime) -> Result<(), Fail> {
        let mut slots = [Slot::empty(); 6];
        let mut line = Boxes::make(2, 3, &mut slots)?;
        drop_in_the_middle(&rt, &mut line)
    }

    #[test]
    fn drop_on_the_bus(rt: HostRuntime) -> Result<(), Fail> {
        let mut slots = [BusSlot::empty(); 4];
        let mut line = Bus::make(2, 4, &mut slots)?;
        drop_in_the_middle(&rt, &mut line)
    }

    // A look into a longer buffer keeps what stands behind the packet.
    fn look_into_more<W: Wire>(rt: &impl Abort, line: &mut W) -> Result<(), Fail> {
        let mut into = [7; WIDE];
        line.post(0, 0, &[1, 2])?;
        assert_eq!(rt;
            line.look(0, 0, &mut into)?,
            Found {
                sender: 0,
                length: 2,
            }
        );
        assert_eq!(rt; into[1], 2);
        assert_eq!(rt; into[2], 7);
        assert_eq!(rt; into[WIDE - 1], 7);
        assert_eq!(rt;
            line.look(0, 0, &mut [0; SHORT]),
            Err(WireFault::ShortBuffer(0))
        );
        Ok(())
    }

    #[test]
    fn long_buffer(rt: HostRuntime) -> Result<(), Fail> {
        let mut slots = [Slot::empty(); 1];
        let mut line = Boxes::make(1, 1, &mut slots)?;
        look_into_more(&rt, &mut line)?;
        let mut shared = [BusSlot::empty(); 1];
        let mut row = Bus::make(1, 1, &mut shared)?;
        look_into_more(&rt, &mut row)
    }

    // The questions are asked by number: a long packet to a full box is 71, to a box that is not there 70.
    fn ask_in_order<W: Wire>(rt: &impl Abort, line: &mut W) -> Result<(), Fail> {
        line.post(0, 0, &[])?;
        assert_eq!(rt; line.post(0, 0, &[0; LONG]), Err(WireFault::TooLong(0)));
        assert_eq!(rt; line.post(0, 5, &[0; LONG]), Err(WireFault::NotServed(5)));
        assert_eq!(rt; line.post(1, 0, &[]), Err(WireFault::NotServed(0)));
        Ok(())
    }

    #[test]
    fn order_of_questions(rt: HostRuntime) -> Result<(), Fail> {
        let mut slots = [Slot::empty(); 1];
        let mut line = Boxes::make(1, 1, &mut slots)?;
        ask_in_order(&rt, &mut line)?;
        let mut shared = [BusSlot::empty(); 1];
        let mut row = Bus::make(1, 1, &mut shared)?;
        ask_in_order(&rt, &mut row)
    }

    // A send to all lays what there is room for.
    #[test]
    fn send_to_all(rt: HostRuntime) -> Result<(), Fail> {
        let mut slots = [Slot::empty(); 3];
        let mut line = Boxes::make(3, 1, &mut slots)?;
        line.post(0, 1, &[1])?;
        assert_eq!(rt; line.send_all(2, 3, &[5])?, Tally { laid: 2, lost: 1 });
        let mut shared = [BusSlot::empty(); 2];
        let mut row = Bus::make(3, 2, &mut shared)?;
        assert_eq!(rt; row.send_all(2, 3, &[5])?, Tally { laid: 2, lost: 1 });
        assert_eq!(rt; row.send_all(3, 3, &[5]), Err(WireFault::NotServed(0)));
        assert_eq!(rt; row.send_all(0, 4, &[5]), Err(WireFault::NotServed(3)));
        Ok(())
    }

    // The bounds of making.
    #[test]
    fn making(rt: HostRuntime) {
        let mut slots = [Slot::empty(); BOX];
        let mut shared = [BusSlot::empty(); 3];
        assert!(rt; Boxes::make(1, boxes::PLACES, &mut slots).is_ok());
        assert!(rt; Boxes::make(1, boxes::PLACES + 1, &mut slots).is_err());
        assert!(rt; Boxes::make(UNITS + 1, 1, &mut slots).is_err());
        assert!(rt; Boxes::make(0, 1, &mut slots).is_err());
        assert!(rt; Bus::make(UNITS, 3, &mut shared).is_ok());
        assert!(rt; Bus::make(UNITS, 4, &mut shared).is_err());
        assert_eq!(rt; WireFault::BadMemory.code(), Layer::Wire.refusal(75, 0));
    }
}
