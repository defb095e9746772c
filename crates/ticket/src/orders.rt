// Piece orders as a kind of ticket.
ghost use Rattle.std.specs.Prelude.{◌≡◌, Some, None};
ghost use Rattle.ticket.specs.Orders.{order_writing, order_refuses, datum_fits};
ghost use Rattle.ticket.specs.ByWriting.{orders_apart, orders_whole};
ghost use Rattle.std.proofs.Common.{rules};

use crate::bounds::{looms_fit, picks_fit};
use crate::fault::TicketFault;
use crate::kind::Ticket;
use crate::order::{Looms, Order, Pick};
use crate::writing::Writing;

// The first word of each order's writing.
const RUN: u32 = 0;

const HOLD: u32 = 1;

const CUT: u32 = 2;

// Whether a datum goes with the word that says which order.
fn datum_fits(order: u32, datum: u32) -> bool
    ensures { result ≡ datum_fits order datum }
{
    match order {
        RUN => datum == 0,
        HOLD => looms_fit(datum),
        CUT => picks_fit(datum),
        _ => false,
    }
}

// An order's writing: which one, its datum, and two words of 0.
fn order_words(order: u32, datum: u32) -> Writing
    ensures { result ≡ record { a = order; b = datum; c = 0; d = 0 } }
{
    Writing {
        a: order,
        b: datum,
        c: 0,
        d: 0,
    }
}

impl Ticket for Order {
    ghost written = { order_writing };

    ghost refuses = { order_refuses };

    ghost fits = { Prim.search rules };

    ghost apart = { λ s t e. orders_apart s t e };

    ghost own = { Prim.search rules };

    ghost whole = { λ w f e. orders_whole w f e };

    fn writing(&self) -> Writing {
        match self {
            Order::Run => order_words(RUN, 0),
            Order::Hold(looms) => order_words(HOLD, looms.set()),
            Order::Cut(pick) => order_words(CUT, pick.number()),
        }
    }

    fn check(writing: Writing) -> Result<(), TicketFault> {
        if writing.c == 0 && writing.d == 0 && datum_fits(writing.a, writing.b) {
            Ok(())
        } else {
            Err(TicketFault::NotOfTheKind)
        }
    }

    fn of_writing(writing: Writing) -> Result<Order, TicketFault> {
        match (writing.a, writing.b, writing.c, writing.d) {
            (RUN, 0, 0, 0) => Ok(Order::Run),
            (HOLD, set, 0, 0) => {
                Looms::new(set)
                    .map(Order::Hold)
                    .ok_or(TicketFault::NotOfTheKind)
            }
            (CUT, number, 0, 0) => {
                Pick::new(number)
                    .map(Order::Cut)
                    .ok_or(TicketFault::NotOfTheKind)
            }
            _ => Err(TicketFault::NotOfTheKind),
        }
    }
}
