//! Laws that no other call states.
ghost use Rattle.std.specs.Prelude.{◌≡◌, Some};
ghost use Rattle.px_turn.specs.declared.view.View.{View};
ghost use Rattle.px_turn.specs.Seats.{IsWhole, AreMadeOnce};

use crate::listed::Listed;
use crate::turn::{Seat, Turn};

fn asks_sync<X: Sync>(_shared: &X) {}

fn asks_send<X: Send>(_sent: &X) {}

/// A turn may be shared among threads, and a seat may go to another, where the value may.
pub fn across_threads<T: Listed + Send>(turn: &Turn<T>, seat: &Seat<T>) {
    asks_sync(turn);
    asks_send(seat);
}

/// What `close` tells says who made each entry: each position behind the opening is one that just one of the seats has
/// made, and no other is one of any.
pub fn each_made_once<T: Listed>()
    ensures { (v : View T T.Item) (value opening : T) → IsWhole T.list T.goes_on v value → v.opening ≡ Some opening
        → AreMadeOnce T.list v opening }
{}
