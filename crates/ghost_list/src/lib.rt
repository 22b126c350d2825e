// The ghost list on the store (RULES 3): the original's `record`, `remove`, `evict_lru` and `clear`, each with what it
// gives back. Keys are found by the index, and a key that moves to the front touches its neighbours only.
#![tactic(auto)]

ghost use Rattle.std.specs.Prelude.{◌≡◌, ◌≤◌};
ghost use Rattle.rules.specs.State.{Queue, keyed};
ghost use Rattle.store.specs.Holds.{state_in, Keeps, Held};
ghost use Rattle.store.specs.Seats.{Tail};
ghost use Rattle.store.specs.Looks.{Lacks};
ghost use Rattle.ghost_list.specs.Ghosts.{Recorded, Took, Lost, RoomMade, Trimmed, Emptied, RecordedTail};

use rules::GuestBlock;
use store::{Limit, Lookup, QueueKind, Shape};

// Drops the oldest ghost and gives it back, or nothing if there is none.
pub fn evict_lru(s: &mut [u8], z: Shape) -> Option<GuestBlock>
    requires { Keeps z s.old }
    ensures { Lost z s.old s.new result }
{
    if store::ghost_len(s, z) == 0 {
        return None;
    }
    let x = store::oldest_of(s, z);
    let k = store::ghost_at(s, z, x);
    store::remove_ghost(s, z, x);
    Some(k)
}

// Takes a key off the ghosts, and says whether it was there.
pub fn remove(s: &mut [u8], z: Shape, k: GuestBlock) -> bool
    requires { Held z s.old }
    ensures { Took z s.old s.new k.0 result }
{
    let Lookup::Ghost(x) = store::look(s, z, k) else {
        return false;
    };
    store::remove_ghost(s, z, x);
    true
}

// Drops the oldest ghost where the list is full, and gives it back.
fn make_room(s: &mut [u8], z: Shape) -> Option<GuestBlock>
    requires { Keeps z s.old }
    ensures { RoomMade z s.old s.new result }
{
    if store::ghost_len(s, z) < store::limit_of(s, z, Limit::Ghosts) {
        return None;
    }
    evict_lru(s, z)
}

// Puts a key that stands nowhere in front; where the list is full the oldest is dropped and given back.
fn record_new(s: &mut [u8], z: Shape, k: GuestBlock) -> Option<GuestBlock>
    requires { Held z s.old × Lacks z s.old k.0 × (1 ≤ (state_in z s.old).limits.ghost_limit) }
    ensures { Recorded z s.old s.new k.0 result }
{
    let given = make_room(s, z);
    store::push_front(s, z, k);
    given
}

// Records a key that is not resident: in front, from its place if it is there already. With limit 0 nothing happens.
pub fn record(s: &mut [u8], z: Shape, k: GuestBlock) -> Option<GuestBlock>
    requires { Held z s.old × (keyed k.0 (state_in z s.old) ≡ 0) }
    ensures { Recorded z s.old s.new k.0 result }
{
    if store::limit_of(s, z, Limit::Ghosts) == 0 {
        return None;
    }
    match store::look(s, z, k) {
        Lookup::Ghost(x) => {
            store::move_to_front(s, z, x);
            None
        }
        Lookup::Resident(..) => None,
        Lookup::Absent => record_new(s, z, k),
    }
}

// Drops the oldest ghost where there are more than the limit.
fn trim(s: &mut [u8], z: Shape)
    requires { Keeps z s.old }
    ensures { Trimmed z s.old s.new }
{
    if store::limit_of(s, z, Limit::Ghosts) < store::ghost_len(s, z) {
        evict_lru(s, z);
    }
}

// Records the key of Small's last entry, which leaves: its node is relinked, so that the index is not walked. The list may be one too long for a
// moment, and then the oldest goes; with limit 0 that is the key itself.
pub fn record_tail(s: &mut [u8], z: Shape, x: usize)
    requires { Held z s.old × Tail z s.old Queue.Small x }
    ensures { RecordedTail z s.old s.new x }
{
    store::detach_to_ghosts(s, z, QueueKind::Small, x);
    trim(s, z);
}

// Takes all ghosts off.
pub fn clear(s: &mut [u8], z: Shape)
    requires { Keeps z s.old }
    ensures { Emptied z s.old s.new }
{
    while 0 < store::ghost_len(s, z) {
        evict_lru(s, z);
    }
}
