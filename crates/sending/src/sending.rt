// What a unit sends goes out.
ghost use Rattle.std.specs.Prelude.{◌≡◌, ◌<◌, ◌≤◌, take, IfSome};
ghost use Rattle.base.specs.Limits.{packet_bytes, units_most};
ghost use Rattle.unit.specs.Letters.{said_of};
ghost use Rattle.unit.specs.States.{means as state_of, own_at};
ghost use Rattle.unit.specs.Sending.{only_if, put_said, row_said, report_said, outgoing};
ghost use Rattle.calls.specs.Calls.{GoesOut, packet_said};
ghost use Rattle.sending.specs.Letters.{said_in, EntryFits, RowsFit, IsOwn};
ghost use Rattle.sending.specs.Went.{Went};

use base::{PACKET_BYTES, VIEW_COUNT};
use packet_write::{write_put, write_report, write_row};
use rows::Row;
use unit::{ControlUnit, Letter, Sends};
use wire::{Tally, Wire, send_all};

// A letter's packet is written to the front of the bytes; answers its length.
fn write(letter: Letter<'_>, bytes: &mut [u8; PACKET_BYTES]) -> usize
    requires { IsOwn letter }
    ensures packet { take result bytes.new ≡ packet_said (said_of letter.entry) }
    ensures short { result ≤ packet_bytes }
{
    match letter {
        Letter::Put { view, ticket } => write_put(view, ticket, bytes).unwrap(),
        Letter::Row { view, row } => write_row(view, row, bytes).unwrap(),
        Letter::Report { view, rows } => {
            write_report(view, &rows[..view as usize], bytes).unwrap()
        }
    }
}

// A letter, if there is one, to each unit that the wire serves.
fn send<W: Wire>(wire: &mut W, me: u32, letter: Option<Letter<'_>>) -> Tally
    requires named { me < (W.means wire.old).served }
    requires own { IfSome letter IsOwn }
    ensures { Went W.rule (W.means wire.old).served me (said_in letter.entry) (W.means wire.old) (W.means wire.new) result }
{
    let Some(letter) = letter else {
        return Tally { laid: 0, lost: 0 };
    };
    let n = wire.served();
    let mut bytes = [0; PACKET_BYTES];
    let length = write(letter, &mut bytes);
    send_all(wire, me, n, &bytes[..length]).unwrap()
}

// A unit's put, if it is wanted and there.
fn put_letter(unit: &ControlUnit, wanted: bool) -> Option<Letter<'static>>
    ensures said { said_in result ≡ only_if wanted (put_said (state_of unit.now).view (state_of unit.now).put) }
    ensures own { IfSome result IsOwn }
{
    let view = unit.view();
    if wanted {
        unit.put_ticket().map(|ticket| Letter::Put { view, ticket })
    } else {
        None
    }
}

// Its own row of its view, if it is wanted and there.
fn row_letter(unit: &ControlUnit, wanted: bool) -> Option<Letter<'static>>
    ensures said { said_in result ≡ only_if wanted (row_said (state_of unit.now).view (own_at (state_of unit.now) (state_of unit.now).view)) }
    ensures own { IfSome result IsOwn }
{
    let view = unit.view();
    if wanted {
        unit.own_row(view).map(|row| Letter::Row { view, row })
    } else {
        None
    }
}

// The numbers of a row fit their words, and so do those of lent rows. Tried: that numbers fit by their type is told to
// a proof of an entry by value, and of no entry in a lent or an owned list, read in a loop or not.
fn entry_fits(_entry: Option<Row>)
    ensures { EntryFits _entry }
{}

fn rows_fit(rows: &[Option<Row>; VIEW_COUNT])
    ensures { RowsFit rows.now }
{
    for entry in rows {
        entry_fits(*entry);
    }
}

// Its report, if it is wanted: its rows are read only then.
fn send_report<W: Wire>(wire: &mut W, me: u32, unit: &ControlUnit, wanted: bool) -> Tally
    requires { me < (W.means wire.old).served }
    ensures { Went W.rule (W.means wire.old).served me (only_if wanted (report_said (state_of unit.now))) (W.means wire.old) (W.means wire.new) result }
{
    if !wanted {
        return Tally { laid: 0, lost: 0 };
    }
    let rows = unit.report();
    rows_fit(&rows);
    let report = Letter::Report {
        view: unit.view(),
        rows: &rows,
    };
    send(wire, me, Some(report))
}

// What a unit sends goes out in order: its put, its row, its report.
pub fn go_out<W: Wire>(wire: &mut W, me: u32, unit: &ControlUnit, sends: Sends) -> Tally
    requires named { me < (W.means wire.old).served }
    requires few { (W.means wire.old).served ≤ units_most }
    ensures out { GoesOut W.rule (W.means wire.old).served me (outgoing sends (state_of unit.now)) (W.means wire.old) (W.means wire.new) result.laid result.lost }
    ensures served { (W.means wire.new).served ≡ (W.means wire.old).served }
{
    let put = send(wire, me, put_letter(unit, sends.put));
    let row = send(wire, me, row_letter(unit, sends.row));
    let report = send_report(wire, me, unit, sends.report);
    Tally {
        laid: put.laid + (row.laid + report.laid),
        lost: put.lost + (row.lost + report.lost),
    }
}
