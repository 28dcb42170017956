// Workers, engaged with the seats of a desk and let go again.
ghost use Rattle.std.specs.Prelude.{◌≡◌, ◌≤◌, [], map, length, vec_len, vec_capacity};
ghost use Rattle.px_crew.specs.Work.{workers_of, places_of};

use px_script::Worker;

/// A worker for each seat, that goes on from the place beside it. There is room for them.
pub(crate) fn engage<S: Drop>(room: Vec<Worker<S>>, seats: Vec<S>, places: &[u32]) -> Vec<Worker<S>>
    requires empty { room.items ≡ [] }
    requires room { vec_len seats ≤ vec_capacity room }
    requires same { vec_len seats ≡ length places.now }
    ensures { result.items ≡ workers_of seats.items places.now }
{
    let mut workers = room;
    for seat in seats {
        let at = places[workers.len()];
        workers.push_reserved(Worker::new(seat, at));
    }
    workers
}

/// The seats of the workers, whose places are written down. There is room for them.
pub(crate) fn release<S: Drop>(room: Vec<S>, workers: Vec<Worker<S>>, places: &mut [u32]) -> Vec<S>
    requires empty { room.items ≡ [] }
    requires room { vec_len workers ≤ vec_capacity room }
    requires same { vec_len workers ≡ length places.old }
    ensures seats { result.items ≡ map (λ worker. worker.seat) workers.items }
    ensures places { places.new ≡ places_of workers.items }
{
    let mut seats = room;
    for worker in workers {
        places[seats.len()] = worker.at;
        seats.push_reserved(worker.into_seat());
    }
    seats
}
