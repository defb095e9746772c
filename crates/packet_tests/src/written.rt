// Tickets and messages written, and read back.
use crate::helpers::laid_out;
use packet::{Message, read};
use packet_write::{write, write_put, write_report, write_row};
use rows::Row;
use std::test::Fail;
use ticket::{Looms, Order, Plan, Writing};

// The rose damask: pattern 1987, 4800 ends, 3200 picks, revision 1.
const DAMASK: Writing = Writing {
    a: 1987,
    b: 4800,
    c: 3200,
    d: 1,
};

#[test]
fn a_plan_is_sixteen_bytes(rt: HostRuntime) -> Result<(), Fail> {
    let plan = Plan::new(1987, 4800, 3200, 1).ok_or("no plan")?;
    let bytes = ticket::write(&plan);
    assert_eq!(rt;
        bytes,
        [0, 0, 7, 195, 0, 0, 18, 192, 0, 0, 12, 128, 0, 0, 0, 1]
    );
    assert_eq!(rt; ticket::read::<Plan>(&bytes)?, plan);
    Ok(())
}

#[test]
fn an_order_is_sixteen_bytes(rt: HostRuntime) -> Result<(), Fail> {
    let order = Order::Hold(Looms::new(513).ok_or("no looms")?);
    let bytes = ticket::write(&order);
    assert_eq!(rt; bytes, [0, 0, 0, 1, 0, 0, 2, 1, 0, 0, 0, 0, 0, 0, 0, 0]);
    assert_eq!(rt; ticket::read::<Order>(&bytes)?, order);
    Ok(())
}

#[test]
fn a_put_is_written_and_the_rest_is_kept(rt: HostRuntime) -> Result<(), Fail> {
    let mut out = [9; 256];
    assert_eq!(rt; write_put(5, DAMASK, &mut out), Some(24));
    let want = laid_out(rt.alloc(), &[1, 5, 1987, 4800, 3200, 1])?;
    assert!(rt; out.starts_with(&want));
    assert!(rt; out[24..].iter().all(|byte| *byte == 9));
    Ok(())
}

#[test]
fn a_row_wants_32_bytes(rt: HostRuntime) -> Result<(), Fail> {
    let row = Row {
        ticket: DAMASK,
        set: 18,
        mark: true,
    };
    let mut few = [9; 31];
    assert_eq!(rt; write_row(1, row, &mut few), None);
    assert_eq!(rt; few, [9; 31]);
    let mut out = [9; 32];
    assert_eq!(rt; write_row(1, row, &mut out), Some(32));
    let want = laid_out(rt.alloc(), &[2, 1, 1987, 4800, 3200, 1, 18, 1])?;
    assert_eq!(rt; out.as_slice(), want.as_slice());
    Ok(())
}

#[test]
fn a_report_is_written_and_read_back(rt: HostRuntime) -> Result<(), Fail> {
    let row = Row {
        ticket: DAMASK,
        set: 4,
        mark: false,
    };
    let mut out = [9; 256];
    assert_eq!(rt;
        write_report(3, &[None, Some(row), None], &mut out),
        Some(48)
    );
    let want = laid_out(rt.alloc(), &[3, 3, 3, 0, 1, 1987, 4800, 3200, 1, 4, 0, 0])?;
    assert!(rt; out.starts_with(&want));
    assert_eq!(rt; out[48], 9);
    let Message::Report(report) = read::<Plan>(&out[0..48], 3)? else {
        panic!(rt; "no report");
    };
    assert_eq!(rt; report.offset(), 12);
    for (view, entry) in [None, Some(row), None, None].iter().enumerate() {
        assert_eq!(rt; report.entry(view as u32), *entry, "view {view}");
    }
    let mut again = [7; 47];
    assert_eq!(rt; write(Message::Report(report), &mut again), None);
    assert_eq!(rt; again, [7; 47]);
    Ok(())
}
