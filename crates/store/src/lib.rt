// The one door to a store (RULES 1.3; docs/STORE.md): limits and lengths, where a key stands, the entry at a node, and the moves of a node, each
// said in terms of the state that the store holds. The crates above call no crate below this one, and see no field: they hand over and get guest and
// physical blocks, which are different types down to the field that is written.
#![tactic(auto)]

ghost use Rattle.std.specs.Prelude.{◌≡◌, ◌≤◌, ◌<◌, length};
ghost use Rattle.cells.specs.Decides.{Decides};
ghost use Rattle.nodes.specs.Nodes.{Room};
ghost use Rattle.lists.specs.Kinds.{number};
ghost use Rattle.pool.specs.Carries.{Pooled, CanMove, Moved};
ghost use Rattle.rules.specs.State.{Queue, queue_of, Fine};
ghost use Rattle.rules.specs.Refusals.{store_bytes};
ghost use Rattle.sizing.specs.Answers.{the_limits_of};
ghost use Rattle.store.specs.Holds.{list_no, state_in, shape_for, Keeps, Held};
ghost use Rattle.store.specs.Entries.{GetsEntry, GetsGhost, HoldsResident};
ghost use Rattle.store.specs.Seats.{queue_kind, limit_in, Seated, Tail, GhostSeated, Oldest, CanAttachHead, AttachedHead, CanPushFront, PushedFront};
ghost use Rattle.store.specs.Seats.{FreqSet, ValueReplaced, EntryRemoved, Reattached, DetachedToGhosts, GhostRemoved, Fronted};
ghost use Rattle.store.specs.Looks.{Looks};
ghost use Rattle.store.specs.Created.{Limited, SetUp, Stated};

use lists::ListKind;
use nodes::Column;
pub use nodes::Shape;
use rules::{GuestBlock, PhysicalBlock};
use sizing::Limits;

// The two queues of residents.
#[derive(Clone, Copy)]
pub enum QueueKind {
    Small,
    Main,
}

// An entry: the pair and its frequency.
#[derive(Clone, Copy)]
pub struct Entry {
    pub key: GuestBlock,
    pub value: PhysicalBlock,
    pub freq: u8,
}

// Where a key stands: resident at a node, a ghost at a node, or neither. Callers go three ways, so that none of them is a lesser `None`.
#[derive(Clone, Copy)]
pub enum Lookup {
    Resident(QueueKind, usize),
    Ghost(usize),
    Absent,
}

// The limits, by the number of the header's cell that each one has.
#[derive(Clone, Copy)]
pub enum Limit {
    Capacity = 0,
    Small = 1,
    Ghosts = 2,
}

// A queue's list.
impl From<QueueKind> for ListKind {
    ghost from_gives = { λ q t. number t ≡ list_no (queue_kind q) };

    fn from(q: QueueKind) -> ListKind {
        match q {
            QueueKind::Small => ListKind::Small,
            QueueKind::Main => ListKind::Main,
        }
    }
}

// One of the limits.
pub fn limit_of(s: &[u8], z: Shape, which: Limit) -> u64
    requires { Keeps z s.now }
    ensures { result ≡ limit_in which (state_in z s.now) }
{
    nodes::get64(s, z, Column::Head, which as usize)
}

// How many entries a queue has.
pub fn len_of(s: &[u8], z: Shape, q: QueueKind) -> u64
    requires { Keeps z s.now }
    ensures { result ≡ length (queue_of (queue_kind q) (state_in z s.now)) }
{
    lists::length_of(s, z, ListKind::from(q))
}

// How many ghosts there are. A queue holds entries and the ghost list keys, so that what is said of the state is not one thing for both: one function for
// all three lists would ask which it is in its clauses. So it is with `oldest_of`.
pub fn ghost_len(s: &[u8], z: Shape) -> u64
    requires { Keeps z s.now }
    ensures { result ≡ length (state_in z s.now).ghosts }
{
    lists::length_of(s, z, ListKind::Ghosts)
}

// The last entry of a queue that is not empty.
pub fn tail_of(s: &[u8], z: Shape, q: QueueKind) -> usize
    requires { Keeps z s.now × (1 ≤ length (queue_of (queue_kind q) (state_in z s.now))) }
    ensures { Tail z s.now (queue_kind q) result }
{
    lists::tail_of(s, z, ListKind::from(q))
}

// The oldest ghost, where there is one.
pub fn oldest_of(s: &[u8], z: Shape) -> usize
    requires { Keeps z s.now × (1 ≤ length (state_in z s.now).ghosts) }
    ensures { Oldest z s.now result }
{
    lists::tail_of(s, z, ListKind::Ghosts)
}

// One walk along the key's chain tells all three apart, since residents and ghosts share the index. A node that the index holds is in one of the three
// lists, so that what is neither a ghost nor in Small is in Main.
pub fn look(s: &[u8], z: Shape, k: GuestBlock) -> Lookup
    requires { Held z s.now }
    ensures { Looks z s.now k.0 result }
{
    let Some(x) = key_index::find(s, z, k.0) else {
        return Lookup::Absent;
    };
    let t = nodes::get(s, z, Column::Queue, x);
    if t == ListKind::Ghosts.number() {
        return Lookup::Ghost(x);
    }
    if t == ListKind::Small.number() {
        return Lookup::Resident(QueueKind::Small, x);
    }
    Lookup::Resident(QueueKind::Main, x)
}

// The entry at a node.
pub fn entry_at(s: &[u8], z: Shape, x: usize) -> Entry
    requires { Room z s.now × (x < z.room) }
    ensures { GetsEntry z s.now x result }
{
    Entry {
        key: GuestBlock(nodes::get64(s, z, Column::Key, x)),
        value: PhysicalBlock(nodes::get64(s, z, Column::Value, x)),
        freq: nodes::get(s, z, Column::Freq, x) as u8,
    }
}

// The ghost at a node.
pub fn ghost_at(s: &[u8], z: Shape, x: usize) -> GuestBlock
    requires { Room z s.now × (x < z.room) }
    ensures { GetsGhost z s.now x result }
{
    GuestBlock(nodes::get64(s, z, Column::Key, x))
}

// Whether a node says that it is in one of the two queues.
pub fn holds_resident(s: &[u8], z: Shape, x: usize) -> bool
    requires { Room z s.now × (x < z.room) }
    ensures { Decides (HoldsResident z s.now x) result }
{
    let list = nodes::get(s, z, Column::Queue, x);
    list == ListKind::Small.number() || list == ListKind::Main.number()
}

// Whether the lists and the index of bytes that nobody vouches for are as they should be.
pub fn check_lists_and_index(s: &[u8], z: Shape) -> bool
    requires { Room z s.now }
    ensures { Decides (Pooled z s.now) result }
{
    pool::check_pool(s, z)
}

// The entry at a node gets another frequency.
pub fn set_freq(s: &mut [u8], z: Shape, x: usize, n: u8)
    requires { Keeps z s.old × (x < z.room) }
    ensures { FreqSet z s.old s.new x n }
{
    nodes::set(s, z, Column::Freq, x, n as usize);
}

// The entry at a node gets another value and another frequency.
pub fn replace(s: &mut [u8], z: Shape, x: usize, v: PhysicalBlock, n: u8)
    requires { Keeps z s.old × (x < z.room) }
    ensures { ValueReplaced z s.old s.new x v.0 n }
{
    nodes::set64(s, z, Column::Value, x, v.0);
    nodes::set(s, z, Column::Freq, x, n as usize);
}

// The entry of a queue at a node leaves; the node is free.
pub fn remove_at(s: &mut [u8], z: Shape, q: QueueKind, x: usize)
    requires { Keeps z s.old × Seated z s.old (queue_kind q) x }
    ensures { EntryRemoved z s.old s.new (queue_kind q) x }
{
    pool::release(s, z, ListKind::from(q), x);
}

// Moves node x of list t to Main's head. Where that is its own list no length and no tag changes, so its links alone are written.
fn move_to_main(s: &mut [u8], z: Shape, t: ListKind, x: usize)
    requires { Room z s.old × CanMove z s.old (number t) (list_no Queue.Main) x }
    ensures { Moved z s.old s.new (number t) (list_no Queue.Main) x }
{
    if t == ListKind::Main {
        pool::move_to_head(s, z, t, x);
    } else {
        pool::move_to(s, z, t, ListKind::Main, x);
    }
}

// The entry of a queue at a node goes to Main's head with another frequency.
pub fn reattach_main_head(s: &mut [u8], z: Shape, q: QueueKind, x: usize, n: u8)
    requires { Keeps z s.old × Seated z s.old (queue_kind q) x }
    ensures { Reattached z s.old s.new (queue_kind q) x n }
{
    move_to_main(s, z, ListKind::from(q), x);
    nodes::set(s, z, Column::Freq, x, n as usize);
}

// The entry of a queue at a node leaves, and the node becomes the newest ghost: its key is in the index already.
pub fn detach_to_ghosts(s: &mut [u8], z: Shape, q: QueueKind, x: usize)
    requires { Keeps z s.old × Seated z s.old (queue_kind q) x }
    ensures { DetachedToGhosts z s.old s.new (queue_kind q) x }
{
    pool::move_to(s, z, ListKind::from(q), ListKind::Ghosts, x);
}

// A new pair goes to the head of a queue with frequency 0.
pub fn attach_head(s: &mut [u8], z: Shape, q: QueueKind, k: GuestBlock, v: PhysicalBlock)
    requires { Keeps z s.old × CanAttachHead z s.old k.0 }
    ensures { AttachedHead z s.old s.new (queue_kind q) k.0 v.0 }
{
    pool::fill(s, z, ListKind::from(q), k.0, v.0);
}

// The ghost at a node is taken off.
pub fn remove_ghost(s: &mut [u8], z: Shape, x: usize)
    requires { Keeps z s.old × GhostSeated z s.old x }
    ensures { GhostRemoved z s.old s.new x }
{
    pool::release(s, z, ListKind::Ghosts, x);
}

// The ghost at a node goes to the front.
pub fn move_to_front(s: &mut [u8], z: Shape, x: usize)
    requires { Keeps z s.old × GhostSeated z s.old x }
    ensures { Fronted z s.old s.new x }
{
    pool::move_to_head(s, z, ListKind::Ghosts, x);
}

// A new ghost goes in front. Its node's value is of no account.
pub fn push_front(s: &mut [u8], z: Shape, k: GuestBlock)
    requires { Keeps z s.old × CanPushFront z s.old k.0 }
    ensures { PushedFront z s.old s.new k.0 }
{
    pool::fill(s, z, ListKind::Ghosts, k.0, 0);
}

// The numbers of nodes and of buckets that a store has by its limits.
pub fn shape_of(limits: Limits) -> Shape
    requires { Fine (the_limits_of limits) }
    ensures { result ≡ shape_for (the_limits_of limits) }
{
    let room = (limits.capacity + limits.ghost_limit) as usize;
    Shape {
        room,
        buckets: 3 * room,
    }
}

// Writes the limits to the header.
fn set_limits(s: &mut [u8], z: Shape, limits: Limits)
    requires { Room z s.old }
    ensures { Limited z s.old s.new (the_limits_of limits) }
{
    nodes::set64(
        s,
        z,
        Column::Head,
        Limit::Capacity as usize,
        limits.capacity,
    );
    nodes::set64(
        s,
        z,
        Column::Head,
        Limit::Small as usize,
        limits.small_limit,
    );
    nodes::set64(
        s,
        z,
        Column::Head,
        Limit::Ghosts as usize,
        limits.ghost_limit,
    );
}

// Creates a store with these limits from any bytes: it holds the empty state.
pub fn set_up(s: &mut [u8], limits: Limits)
    requires { Fine (the_limits_of limits) × (store_bytes ≤ length s.old) }
    ensures { SetUp (the_limits_of limits) s.old s.new }
{
    let z = shape_of(limits);
    set_limits(s, z, limits);
    pool::set_up(s, z);
}

// The limits in the header of any bytes. It stands at the same place whatever they are, so the least shape serves to read it.
pub fn limits_of(s: &[u8]) -> Limits
    requires { store_bytes ≤ length s.now }
    ensures { Stated s.now (the_limits_of result) }
{
    let least = Shape {
        room: 1,
        buckets: 1,
    };
    Limits {
        capacity: nodes::get64(s, least, Column::Head, Limit::Capacity as usize),
        small_limit: nodes::get64(s, least, Column::Head, Limit::Small as usize),
        ghost_limit: nodes::get64(s, least, Column::Head, Limit::Ghosts as usize),
    }
}
