// What a packet's message hands a unit.
ghost use Rattle.std.specs.Prelude.{◌≡◌};
ghost use Rattle.packet.specs.Said.{meaning};
ghost use Rattle.unit.specs.Letters.{said_of};
ghost use Rattle.calls.specs.Calls.{heard_as};

use base::VIEW_COUNT;
use packet::Message;
use rows::Row;
use unit::Letter;

// A message as a letter; a report's rows are laid out by view.
pub(crate) fn letter_of<'a>(
    message: Message<'_>,
    rows: &'a mut [Option<Row>; VIEW_COUNT],
) -> Letter<'a>
    ensures { said_of result ≡ heard_as (meaning message.entry) }
{
    match message {
        Message::Put { view, ticket } => Letter::Put { view, ticket },
        Message::Row { view, row } => Letter::Row { view, row },
        Message::Report(report) => {
            report.copy_to(rows);
            Letter::Report {
                view: report.view(),
                rows,
            }
        }
    }
}
