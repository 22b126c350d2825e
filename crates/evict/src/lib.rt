// Eviction on the store (RULES 4): the pop of a queue's tail, one step, and steps until a pair has left. The pops are counted by
// walking.
#![tactic(auto)]

ghost use Rattle.std.specs.Prelude.{◌≡◌, ◌≤◌, ◌<◌, length};
ghost use Rattle.rules.specs.State.{queue_of, residents};
ghost use Rattle.rules.specs.Eviction.{evict, evict_if_full};
ghost use Rattle.store.specs.Holds.{state_in, Held};
ghost use Rattle.store.specs.Seats.{queue_kind, Tail};
ghost use Rattle.evict.specs.Evicts.{cool_to, Picks, PopsTail, StepsOn, Steps, Makes, Leaves};

use rules::{GuestBlock, PhysicalBlock};
use store::{Limit, QueueKind, Shape};

// A tail whose frequency is 0, still at its node, with its pair.
#[derive(Clone, Copy)]
pub struct Cold {
    pub node: usize,
    pub key: GuestBlock,
    pub value: PhysicalBlock,
}

// A pair that was pushed out, and from which queue.
#[derive(Clone, Copy)]
pub struct Pushed {
    pub from: QueueKind,
    pub key: GuestBlock,
    pub value: PhysicalBlock,
}

// What an eviction comes to: the pair that left, if one did, and how many pops it took.
#[derive(Clone, Copy)]
pub struct Evicted {
    pub pushed: Option<Pushed>,
    pub pops: u64,
}

// The queue whose tail is popped: Small above its limit, otherwise Main unless it is empty.
fn victim(s: &[u8], z: Shape) -> QueueKind
    requires { Held z s.now }
    ensures { Picks z s.now (queue_kind result) }
{
    let small = store::len_of(s, z, QueueKind::Small);
    if store::limit_of(s, z, Limit::Small) < small || store::len_of(s, z, QueueKind::Main) == 0 {
        QueueKind::Small
    } else {
        QueueKind::Main
    }
}

// The frequency, above 0, of an entry that goes back becomes 0 from Small, and one less from Main.
fn cooled(q: QueueKind, freq: u8) -> u8
    requires { 0 < freq }
    ensures { result ≡ cool_to (queue_kind q) freq }
{
    match q {
        QueueKind::Small => 0,
        QueueKind::Main => freq - 1,
    }
}

// Pops the tail of a queue that is not empty. An entry with a frequency above 0 goes to Main's head, cooled; any other stays where it is, for the
// caller to take out, with a ghost or without one.
pub fn pop_tail(s: &mut [u8], z: Shape, q: QueueKind) -> Option<Cold>
    requires { Held z s.old × (1 ≤ length (queue_of (queue_kind q) (state_in z s.old))) }
    ensures { PopsTail z s.old s.new (queue_kind q) result }
{
    let node = store::tail_of(s, z, q);
    let entry = store::entry_at(s, z, node);
    if 0 < entry.freq {
        store::reattach_main_head(s, z, q, node, cooled(q, entry.freq));
        return None;
    }
    Some(Cold {
        node,
        key: entry.key,
        value: entry.value,
    })
}

// The last entry of a queue leaves; what leaves Small becomes a ghost.
fn leave(s: &mut [u8], z: Shape, q: QueueKind, x: usize)
    requires { Held z s.old × Tail z s.old (queue_kind q) x }
    ensures { Leaves z s.old s.new (queue_kind q) x }
{
    match q {
        QueueKind::Small => ghost_list::record_tail(s, z, x),
        QueueKind::Main => store::remove_at(s, z, QueueKind::Main, x),
    }
}

// The tail of the queue that was picked goes to Main's head, or it leaves and is told.
fn try_evict_from_queue(s: &mut [u8], z: Shape, q: QueueKind) -> Option<Pushed>
    requires { Held z s.old × Picks z s.old (queue_kind q) × (1 ≤ length (queue_of (queue_kind q) (state_in z s.old))) }
    ensures { StepsOn z s.old s.new (queue_kind q) result }
{
    let cold = pop_tail(s, z, q)?;
    leave(s, z, q, cold.node);
    Some(Pushed {
        from: q,
        key: cold.key,
        value: cold.value,
    })
}

// One step of the rule, on a cache that is not empty.
fn step(s: &mut [u8], z: Shape) -> Option<Pushed>
    requires { Held z s.old × (1 ≤ residents (state_in z s.old)) }
    ensures { Steps z s.old s.new result }
{
    let q = victim(s, z);
    try_evict_from_queue(s, z, q)
}

// Steps until a pair has left. Each step that moves an entry lowers the sum of frequencies, so the loop ends. The pops are counted, and index
// nothing.
fn evict(s: &mut [u8], z: Shape) -> Evicted
    requires { Held z s.old × (1 ≤ residents (state_in z s.old)) }
    ensures { Makes z s.old s.new (evict (state_in z s.old)) result }
{
    let mut pops = 0;
    loop {
        let left = step(s, z);
        pops += 1;
        if left.is_some() {
            return Evicted { pushed: left, pops };
        }
    }
}

fn residents_of(s: &[u8], z: Shape) -> u64
    requires { Held z s.now }
    ensures { result ≡ residents (state_in z s.now) }
{
    store::len_of(s, z, QueueKind::Small) + store::len_of(s, z, QueueKind::Main)
}

// Eviction where the cache is full; otherwise nothing.
pub fn evict_if_needed(s: &mut [u8], z: Shape) -> Evicted
    requires { Held z s.old }
    ensures { Makes z s.old s.new (evict_if_full (state_in z s.old)) result }
{
    if residents_of(s, z) < store::limit_of(s, z, Limit::Capacity) {
        return Evicted {
            pushed: None,
            pops: 0,
        };
    }
    evict(s, z)
}
