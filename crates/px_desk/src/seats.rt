// All seats of a turn, dealt out and gathered again.
ghost use Rattle.std.specs.Prelude.{◌≡◌, ◌≢◌, ◌≤◌, [], map, vec_capacity};
ghost use Rattle.std.specs.List.{All};
ghost use Rattle.px_turn.specs.Seats.{view, IsSeatOf, IsOut};
ghost use Rattle.px_desk.specs.Seats.{views_of, HasTaken};

use px_turn::{Listed, Seat, Turn};

// So many seats in the order of their numbers: the first one, and those that are split from it. There is room for them.
pub(crate) fn deal<T: Listed>(
    turn: &Turn<T>,
    first: Seat<T>,
    room: Vec<Seat<T>>,
    seats: u8,
) -> Vec<Seat<T>>
    requires own { IsSeatOf turn.now first × IsOut first }
    requires first { ((view first).number ≡ 0) × ((view first).splits ≡ 0) }
    requires least { 1 ≤ seats }
    requires most { seats ≤ 8 }
    requires empty { room.items ≡ [] }
    requires room { seats ≤ vec_capacity room }
    ensures own { All (λ seat. IsSeatOf turn.now seat × IsOut seat) result.items }
    ensures views { map view result.items ≡ views_of (view first) seats }
{
    let mut first = first;
    let mut list = room;
    for split in 0..seats - 1 {
        list.push_reserved(turn.split(&mut first));
    }
    if list.insert(0, first).is_err() {
        unreachable!();
    }
    list
}

// The first seat, into which the others are taken.
pub(crate) fn gather<T: Listed>(turn: &Turn<T>, first: Seat<T>, others: Vec<Seat<T>>) -> Seat<T>
    requires own { IsSeatOf turn.now first × IsOut first }
    requires alone { (view first).joined ≡ [] }
    requires others { All (λ seat. IsSeatOf turn.now seat × IsOut seat) others.items }
    requires later { All (λ seat. ((view seat).number ≢ 0) × ((view seat).joined ≡ [])) others.items }
    ensures own { IsSeatOf turn.now result × IsOut result }
    ensures taken { HasTaken (view first) (map view others.items) (view result) }
{
    let mut first = first;
    for seat in others {
        turn.join(&mut first, seat);
    }
    first
}
