// The slot pool with its free list (RULES 1.3): the lists and the key index joined. Every node is in
// one of the four lists at all times, so a freed slot is used again, and those that are not free are
// found by their keys. These are all the ways in which a node changes its list.
#![tactic(auto)]

ghost use Rattle.cells.specs.Decides.{Decides};
ghost use Rattle.nodes.specs.Nodes.{cols, Room};
ghost use Rattle.lists.specs.Kinds.{number};
ghost use Rattle.key_index.specs.Stored.{CanJoin};
ghost use Rattle.pool.specs.Carries.{Pooled, CanMove, Moved, CanRelease, Released, CanFill, Filled, PoolSetUp};
ghost use Rattle.pool.specs.Relist.{CanRelist, Relisted};
ghost use Rattle.pool.specs.Entry.{Entered};

use lists::ListKind;
use nodes::{Column, Shape};

// Takes node x out of list t and puts it at the head of list u. The index is left to the callers.
fn relist(s: &mut [u8], z: Shape, t: ListKind, u: ListKind, x: usize)
    requires room { Room z s.old }
    requires can_relist { CanRelist z s.old (number t) (number u) x }
    ensures { Relisted z s.old s.new (number t) (number u) x }
{
    lists::detach(s, z, t, x);
    lists::attach(s, z, u, x);
}

// Moves node x from list t to the head of list u. It keeps its entry.
pub fn move_to(s: &mut [u8], z: Shape, t: ListKind, u: ListKind, x: usize)
    requires room { Room z s.old }
    requires can_move { CanMove z s.old (number t) (number u) x }
    ensures { Moved z s.old s.new (number t) (number u) x }
{
    relist(s, z, t, u, x);
}

// Moves node x to the head of its own list: the same as a move from list t to list t, by six links and nothing else.
pub fn move_to_head(s: &mut [u8], z: Shape, t: ListKind, x: usize)
    requires room { Room z s.old }
    requires can_move { CanMove z s.old (number t) (number t) x }
    ensures { Moved z s.old s.new (number t) (number t) x }
{
    lists::to_front(s, z, t, x);
}

// Frees node x of list t: its key is found no more.
pub fn release(s: &mut [u8], z: Shape, t: ListKind, x: usize)
    requires room { Room z s.old }
    requires can_release { CanRelease z s.old (number t) x }
    ensures { Released z s.old s.new (number t) x }
{
    key_index::remove(s, z, x);
    relist(s, z, t, ListKind::Free, x);
}

// Writes what the free node x is to hold. What it held before is of no account.
fn enter(s: &mut [u8], z: Shape, x: usize, k: u64, v: u64)
    requires { Room z s.old × CanJoin z (cols z s.old) x k }
    ensures { Entered z s.old s.new x k v }
{
    key_index::add(s, z, x, k);
    nodes::set64(s, z, Column::Value, x, v);
    nodes::set(s, z, Column::Freq, x, 0);
}

// Fills a free node with a key that no node in use has, at the head of list t, and answers the node.
pub fn fill(s: &mut [u8], z: Shape, t: ListKind, k: u64, v: u64) -> usize
    requires room { Room z s.old }
    requires can_fill { CanFill z s.old (number t) k }
    ensures { Filled z s.old s.new (number t) k v result }
{
    let x = lists::head_node_of(s, z, ListKind::Free);
    enter(s, z, x, k, v);
    relist(s, z, ListKind::Free, t, x);
    x
}

// Sets a pool up from any bytes: every node is free, and no key is found.
pub fn set_up(s: &mut [u8], z: Shape)
    requires { Room z s.old }
    ensures { PoolSetUp z s.old s.new }
{
    lists::set_up(s, z);
    key_index::set_up(s, z);
}

// Whether bytes that nobody vouches for are a pool.
pub fn check_pool(s: &[u8], z: Shape) -> bool
    requires { Room z s.now }
    ensures { Decides (Pooled z s.now) result }
{
    lists::check_lists(s, z) && census::check_index(s, z)
}
