// Worked cases of a unit: every refusal with its number and place, expected values worked out by hand.
#![tactic(auto)]

#[cfg(test)]
mod tests {
    use base::{Fault, Layer};
    use rows::Row;
    use std::process::Abort;
    use std::test::Fail;
    use table::{Quorum, Table};
    use ticket::Writing;
    use unit::{ControlUnit, Letter, Sends, UnitFault};

    const MILL: Table<'static> = Table {
        units: 4,
        faults: &[1, 2, 4, 8],
        quorums: &[
            Quorum { set: 15, class: 1 },
            Quorum { set: 7, class: 2 },
            Quorum { set: 11, class: 2 },
            Quorum { set: 13, class: 2 },
            Quorum { set: 14, class: 2 },
        ],
    };

    const A: Writing = Writing {
        a: 1,
        b: 0,
        c: 0,
        d: 0,
    };

    const B: Writing = Writing { a: 2, ..A };

    // The call is refused with this number and place.
    fn refused(rt: &impl Abort, did: Result<Sends, UnitFault>, number: u32, place: usize) {
        assert_eq!(rt;
            did.map_err(|fault| fault.code()),
            Err(Layer::Unit.refusal(number, place))
        );
    }

    // The call is accepted, and the row goes out or not.
    fn accepted(rt: &impl Abort, did: Result<Sends, UnitFault>, row: bool) {
        assert_eq!(rt; did.map(|sends| sends.row), Ok(row));
    }

    // From view 0 to 7; not to 8 and not to 0.
    #[test]
    fn raises(rt: HostRuntime) {
        let mut unit = ControlUnit::fresh();
        refused(&rt, unit.raise(2, 8), 26, 2);
        refused(&rt, unit.raise(2, 0), 26, 2);
        assert_eq!(rt; unit.view(), 0);
        accepted(&rt, unit.raise(2, 7), false);
        assert_eq!(rt; unit.view(), 7);
        refused(&rt, unit.raise(2, 7), 26, 2);
    }

    // Unit 0 leads views 0 and 4 of four units; above view 0 a put needs reports.
    #[test]
    fn puts(rt: HostRuntime) -> Result<(), Fail> {
        let passed = MILL.pass()?;
        let mut unit = ControlUnit::fresh();
        refused(&rt, unit.put(&passed, 1, A), 22, 1);
        accepted(&rt, unit.put(&passed, 0, A), false);
        refused(&rt, unit.put(&passed, 0, A), 23, 0);
        accepted(&rt, unit.raise(0, 4), false);
        refused(&rt, unit.put(&passed, 0, A), 24, 0);
        Ok(())
    }

    // The row of a ticket with a set, and no mark.
    fn row(ticket: Writing, set: u32) -> Row {
        Row {
            ticket,
            set,
            mark: false,
        }
    }

    // A put by another, for another view, where a row stands, and one that no report allows; a row of another ticket.
    #[test]
    fn letters(rt: HostRuntime) -> Result<(), Fail> {
        let passed = MILL.pass()?;
        let mut unit = ControlUnit::fresh();
        let put_0 = Letter::Put { view: 0, ticket: A };
        let put_1 = Letter::Put { view: 1, ticket: A };
        let row_a = Letter::Row {
            view: 0,
            row: row(A, 0),
        };
        let row_b = Letter::Row {
            view: 0,
            row: row(B, 0),
        };
        refused(&rt, unit.receive(&passed, 3, put_0), 50, 3);
        refused(&rt, unit.receive(&passed, 1, put_1), 51, 1);
        accepted(&rt, unit.receive(&passed, 0, put_0), true);
        refused(&rt, unit.receive(&passed, 0, put_0), 52, 0);
        accepted(&rt, unit.receive(&passed, 2, row_a), false);
        refused(&rt, unit.receive(&passed, 2, row_b), 54, 2);
        accepted(&rt, unit.raise(3, 1), false);
        refused(&rt, unit.receive(&passed, 1, put_1), 53, 1);
        Ok(())
    }

    // Reports A, A and B with the set of quorum 14 tear the choice: the leader of view 1 may put nothing.
    #[test]
    fn reports(rt: HostRuntime) -> Result<(), Fail> {
        let passed = MILL.pass()?;
        let mut unit = ControlUnit::fresh();
        let a = Letter::Report {
            view: 1,
            rows: &[Some(row(A, 0)), None, None, None, None, None, None, None],
        };
        let b = Letter::Report {
            view: 1,
            rows: &[Some(row(B, 16)), None, None, None, None, None, None, None],
        };
        refused(&rt, unit.receive(&passed, 2, a), 55, 2);
        accepted(&rt, unit.raise(1, 1), false);
        accepted(&rt, unit.receive(&passed, 0, a), false);
        accepted(&rt, unit.receive(&passed, 0, a), false);
        refused(&rt, unit.receive(&passed, 0, b), 56, 0);
        accepted(&rt, unit.receive(&passed, 1, a), false);
        refused(&rt, unit.put(&passed, 1, B), 24, 1);
        accepted(&rt, unit.receive(&passed, 2, b), false);
        refused(&rt, unit.put(&passed, 1, B), 25, 1);
        Ok(())
    }
}
