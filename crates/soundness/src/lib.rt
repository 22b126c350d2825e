// The soundness check (RULES 1.2, RULES 1.3): whether bytes that nobody vouches for hold a sound state. Both answers are proved right: no damaged
// store passes, and no store that holds a state is turned away. It walks the whole store, so a call asks it once.
#![tactic(auto)]

ghost use Rattle.std.specs.Prelude.{◌≤◌, ◌<◌, length};
ghost use Rattle.cells.specs.Decides.{Decides, All};
ghost use Rattle.nodes.specs.Nodes.{Room};
ghost use Rattle.rules.specs.State.{Fine};
ghost use Rattle.rules.specs.Refusals.{store_bytes};
ghost use Rattle.sizing.specs.Answers.{the_limits_of};
ghost use Rattle.store.specs.Holds.{state_in, Keeps, Held};
ghost use Rattle.soundness.specs.Checks.{Shaped, Few, Cool, Checks};

use rules::Turned;
use sizing::Limits;
use store::{Limit, QueueKind, Shape};

// Whether limits, which may be any numbers, are those of a sound state.
fn limits_fine(limits: Limits) -> bool
    ensures { Decides (Fine (the_limits_of limits)) result }
{
    limits.capacity != 0
        && limits.capacity <= rules::MOST
        && limits.small_limit <= limits.capacity
        && limits.ghost_limit <= rules::MOST
}

// Whether residents and ghosts are no more than the limits allow. What is left of the capacity after Small is compared with Main, so that no sum overflows.
fn few_enough(s: &[u8], z: Shape) -> bool
    requires { Keeps z s.now }
    ensures { Decides (Few (state_in z s.now)) result }
{
    let capacity = store::limit_of(s, z, Limit::Capacity);
    let small = store::len_of(s, z, QueueKind::Small);
    let main = store::len_of(s, z, QueueKind::Main);
    small <= capacity
        && main <= capacity - small
        && store::ghost_len(s, z) <= store::limit_of(s, z, Limit::Ghosts)
}

// Whether node x, if it is a resident's, has a frequency of 3 at most. The frequencies of ghosts and of free nodes are of no account.
fn is_cool(s: &[u8], z: Shape, x: usize) -> bool
    requires { Room z s.now × (x < z.room) }
    ensures { Decides (Cool z s.now x) result }
{
    let entry = store::entry_at(s, z, x);
    entry.freq <= rules::MAX_FREQ || !store::holds_resident(s, z, x)
}

// Whether every node is so.
fn all_cool(s: &[u8], z: Shape) -> bool
    requires { Room z s.now }
    ensures { Decides (All (Cool z s.now) z.room) result }
{
    (0..z.room).all(|x| is_cool(s, z, x))
}

// Whether a store is sound at the shape of its own limits. That no key stands twice is the index's affair; that keys and values are 64 bits wide, the bytes'.
fn is_held(s: &[u8], z: Shape) -> bool
    requires { Room z s.now × Shaped z s.now }
    ensures { Decides (Held z s.now) result }
{
    store::check_lists_and_index(s, z) && few_enough(s, z) && all_cool(s, z)
}

// The numbers of nodes and buckets of a sound store, or that it is damaged. Only the number of its bytes is asked for.
pub fn check(s: &[u8]) -> Result<Shape, Turned>
    requires { store_bytes ≤ length s.now }
    ensures { Checks s.now result }
{
    let limits = store::limits_of(s);
    if !limits_fine(limits) {
        return Err(Turned::DamagedStore);
    }
    let z = store::shape_of(limits);
    if !is_held(s, z) {
        return Err(Turned::DamagedStore);
    }
    Ok(z)
}
