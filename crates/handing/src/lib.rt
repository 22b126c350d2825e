// Parts of two requests, on the queues alone: evict_one's own pops (RULES 5.4), by which a pair is handed out and becomes no
// ghost, or goes back to Main's head; and the drain of a queue, of which clear (RULES 5.5) needs two. An edit of the requests
// rechecks neither.
#![tactic(auto)]

ghost use Rattle.std.specs.Prelude.{[], ◌∷◌, ◌≤◌, length};
ghost use Rattle.rules.specs.State.{queue_of};
ghost use Rattle.store.specs.Holds.{state_in, Keeps, Held};
ghost use Rattle.store.specs.Seats.{queue_kind};
ghost use Rattle.wire.specs.Wire.{told};
ghost use Rattle.handing.specs.Handing.{Comes, first_of, Starts, PopsOut, second_of, Drained};

use rules::{GuestBlock, PhysicalBlock};
use store::{QueueKind, Shape};
use wire::Reply;

// One of evict_one's own pops, from a queue that is not empty: a pair that leaves is handed out and becomes no ghost; there is none where the entry
// went back to Main's head.
fn pop_out(s: &mut [u8], z: Shape, q: QueueKind) -> Option<(GuestBlock, PhysicalBlock)>
    requires { Held z s.old × (1 ≤ length (queue_of (queue_kind q) (state_in z s.old))) }
    ensures { PopsOut z s.old s.new (queue_kind q) result }
{
    let cold = evict::pop_tail(s, z, q)?;
    store::remove_at(s, z, q, cold.node);
    Some((cold.key, cold.value))
}

// The second pop, from Main, which has the entry that the first one sent back.
fn second(s: &mut [u8], z: Shape) -> Reply
    requires { Held z s.old × (1 ≤ length (state_in z s.old).main) }
    ensures { Comes z s.old s.new (second_of (state_in z s.old)) (told result ∷ []) }
{
    match pop_out(s, z, QueueKind::Main) {
        Some((k, v)) => Reply::Handed(k, v),
        None => Reply::Miss,
    }
}

// The first pop, from a queue that is not empty, and the second where the first one hands nothing out.
fn first(s: &mut [u8], z: Shape, q: QueueKind) -> Reply
    requires { Held z s.old × Starts z s.old (queue_kind q) × (1 ≤ length (queue_of (queue_kind q) (state_in z s.old))) }
    ensures { Comes z s.old s.new (first_of (state_in z s.old)) (told result ∷ []) }
{
    match pop_out(s, z, q) {
        Some((k, v)) => Reply::Handed(k, v),
        None => second(s, z),
    }
}

// The queue of the first pop: Small unless it is empty.
fn first_queue(s: &[u8], z: Shape) -> QueueKind
    requires { Held z s.now }
    ensures { Starts z s.now (queue_kind result) }
{
    if store::len_of(s, z, QueueKind::Small) == 0 {
        return QueueKind::Main;
    }
    QueueKind::Small
}

// What evict_one hands out after eviction, by one or two pops.
pub fn hand_out(s: &mut [u8], z: Shape) -> Reply
    requires { Held z s.old }
    ensures { Comes z s.old s.new (first_of (state_in z s.old)) (told result ∷ []) }
{
    let q = first_queue(s, z);
    if store::len_of(s, z, q) == 0 {
        return Reply::Miss;
    }
    first(s, z, q)
}

// Takes all entries out of a queue.
pub fn drain(s: &mut [u8], z: Shape, q: QueueKind)
    requires { Keeps z s.old }
    ensures { Drained z s.old s.new (queue_kind q) }
{
    while 0 < store::len_of(s, z, q) {
        let x = store::tail_of(s, z, q);
        store::remove_at(s, z, q, x);
    }
}
