// The four lists of the store: Free, Small, Main and Ghosts, so that every slot is in one of them
// (RULES 1.3). Each is circular and doubly linked, with a sentinel of its own behind the nodes, so
// that attach and detach have no branch. A node's field Queue is its list's number, and the header
// keeps the lists' lengths.
#![tactic(auto)]

ghost use Rattle.std.specs.Prelude.{◌≡◌, ◌+◌, ◌<◌};
ghost use Rattle.cells.specs.Decides.{Decides, All};
ghost use Rattle.nodes.specs.Nodes.{Field, cols, Room, GetsField};
ghost use Rattle.lists.specs.Kinds.{number};
ghost use Rattle.lists.specs.Check.{Listed, Counted, StepOk, Home, Leads, ListOk, PairOk};
ghost use Rattle.lists.specs.Fresh.{all_free, Fresh, EmptyList};
ghost use Rattle.lists.specs.Lists.{list_count, Lists, CanUnlink, Unlinked, CanLink, Linked, CanDetach, Detached, CanAttach, Attached, CanFront, ToFront};

use nodes::{Column, Shape};

// The lists.
#[derive(Clone, Copy, PartialEq, Eq)]
pub enum ListKind {
    Free,
    Small,
    Main,
    Ghosts,
}

impl ListKind {
    // The list's number, which is the tag of its nodes.
    pub fn number(self) -> usize
        ensures value { result ≡ number self }
        ensures below { result < list_count }
    {
        self as usize
    }
}

// The header's cell for the length of list 0; the others follow.
const LENGTHS: usize = 4;

// How many nodes list t has.
pub fn length_of(s: &[u8], z: Shape, t: ListKind) -> u64
    requires { Room z s.now }
    ensures { GetsField z s.now Field.Head (4 + number t) result }
{
    nodes::get64(s, z, Column::Head, LENGTHS + t.number())
}

// The newest node of list t, and the list's sentinel where there is none.
pub fn head_node_of(s: &[u8], z: Shape, t: ListKind) -> usize
    requires { Room z s.now }
    ensures { GetsField z s.now Field.Next (z.room + number t) result }
{
    nodes::get(s, z, Column::Next, z.room + t.number())
}

// The oldest node of list t, and the list's sentinel where there is none. It differs from the newest in the column alone: one function for both would be
// `nodes::get`.
pub fn tail_of(s: &[u8], z: Shape, t: ListKind) -> usize
    requires { Room z s.now }
    ensures { GetsField z s.now Field.Prev (z.room + number t) result }
{
    nodes::get(s, z, Column::Prev, z.room + t.number())
}

// Takes node x out of its ring.
fn unlink(s: &mut [u8], z: Shape, x: usize)
    requires room { Room z s.old }
    requires can_unlink { CanUnlink z s.old x }
    ensures { Unlinked z s.old s.new x }
{
    let n = nodes::get(s, z, Column::Next, x);
    let p = nodes::get(s, z, Column::Prev, x);
    nodes::set(s, z, Column::Next, p, n);
    nodes::set(s, z, Column::Prev, n, p);
}

// Puts node x at the head of the ring of the sentinel h.
fn link(s: &mut [u8], z: Shape, h: usize, x: usize)
    requires room { Room z s.old }
    requires can_link { CanLink z s.old h x }
    ensures { Linked z s.old s.new h x }
{
    let n = nodes::get(s, z, Column::Next, h);
    nodes::set(s, z, Column::Next, x, n);
    nodes::set(s, z, Column::Next, h, x);
    nodes::set(s, z, Column::Prev, x, h);
    nodes::set(s, z, Column::Prev, n, x);
}

// Detach: takes node x out of list t, wherever it stands there.
pub fn detach(s: &mut [u8], z: Shape, t: ListKind, x: usize)
    requires room { Room z s.old }
    requires can_detach { CanDetach z s.old (number t) x }
    ensures { Detached z s.old s.new (number t) x }
{
    let n = length_of(s, z, t);
    unlink(s, z, x);
    nodes::set64(s, z, Column::Head, LENGTHS + t.number(), n - 1);
}

// Attach: puts node x, which is in no list, at the head of list t.
pub fn attach(s: &mut [u8], z: Shape, t: ListKind, x: usize)
    requires room { Room z s.old }
    requires can_attach { CanAttach z s.old (number t) x }
    ensures { Attached z s.old s.new (number t) x }
{
    let n = length_of(s, z, t);
    nodes::set(s, z, Column::Queue, x, t.number());
    link(s, z, z.room + t.number(), x);
    nodes::set64(s, z, Column::Head, LENGTHS + t.number(), n + 1);
}

// Puts node x of list t at the head of it. The list's length and the node's tag are what they were, so
// the links alone are written.
pub fn to_front(s: &mut [u8], z: Shape, t: ListKind, x: usize)
    requires room { Room z s.old }
    requires can_front { CanFront z s.old (number t) x }
    ensures { ToFront z s.old s.new (number t) x }
{
    let h = z.room + t.number();
    unlink(s, z, x);
    link(s, z, h, x);
}

// Whether the lengths in the header come to the number of nodes. Four numbers of 64 bits may come to more than fits in one.
fn counted(s: &[u8], z: Shape) -> bool
    requires { Room z s.now }
    ensures { Decides (Counted z s.now) result }
{
    let free = length_of(s, z, ListKind::Free) as u128;
    let small = length_of(s, z, ListKind::Small) as u128;
    let main = length_of(s, z, ListKind::Main) as u128;
    let ghosts = length_of(s, z, ListKind::Ghosts) as u128;
    free + small + main + ghosts == z.room as u128
}

// Whether y, to which node u leads, is a node of list t that leads back.
fn step_ok(s: &[u8], z: Shape, t: ListKind, u: usize, y: usize) -> bool
    requires { Room z s.now }
    ensures { Decides (StepOk z s.now (number t) u y) result }
{
    y < z.room
        && nodes::get(s, z, Column::Prev, y) == u
        && nodes::get(s, z, Column::Queue, y) == t.number()
}

// Whether node u is the last of list t.
fn comes_home(s: &[u8], z: Shape, t: ListKind, u: usize) -> bool
    requires { Room z s.now × (u < z.room + 4) }
    ensures { Decides (Home z s.now (number t) u) result }
{
    let sent = z.room + t.number();
    nodes::get(s, z, Column::Next, u) == sent && nodes::get(s, z, Column::Prev, sent) == u
}

// Whether list t leads from node u back to its sentinel over n nodes. No link is trusted: the walk goes
// on only over nodes, and takes n steps.
fn rest_ok(s: &[u8], z: Shape, t: ListKind, n: u64, u: usize) -> bool
    requires { Room z s.now × (u < z.room + 4) }
    ensures { Decides (Leads z s.now (number t) n u) result }
{
    let mut at = u;
    for _ in 0..n {
        let y = nodes::get(s, z, Column::Next, at);
        if !step_ok(s, z, t, at, y) {
            return false;
        }
        at = y;
    }
    comes_home(s, z, t, at)
}

// Whether list t leads from its sentinel back to it over as many nodes as the header says.
fn list_ok(s: &[u8], z: Shape, t: ListKind) -> bool
    requires { Room z s.now }
    ensures { Decides (ListOk z s.now (number t)) result }
{
    rest_ok(s, z, t, length_of(s, z, t), z.room + t.number())
}

// Whether lists t and v both do. They are walked side by side as far as the shorter one goes, so that
// the waits for memory of one fall into those of the other.
fn pair_ok(s: &[u8], z: Shape, t: ListKind, v: ListKind) -> bool
    requires { Room z s.now }
    ensures { Decides (PairOk z s.now (number t) (number v)) result }
{
    let a = length_of(s, z, t);
    let b = length_of(s, z, v);
    let shorter = a.min(b);
    let mut u = z.room + t.number();
    let mut w = z.room + v.number();
    for _ in 0..shorter {
        let x = nodes::get(s, z, Column::Next, u);
        let y = nodes::get(s, z, Column::Next, w);
        if !step_ok(s, z, t, u, x) {
            return false;
        }
        if !step_ok(s, z, v, w, y) {
            return false;
        }
        u = x;
        w = y;
    }
    rest_ok(s, z, t, a - shorter, u) && rest_ok(s, z, v, b - shorter, w)
}

// Whether all four lists do. Main and Ghosts, the long ones, go as a pair.
fn lists_ok(s: &[u8], z: Shape) -> bool
    requires { Room z s.now }
    ensures { Decides (All (ListOk z s.now) list_count) result }
{
    list_ok(s, z, ListKind::Free)
        && list_ok(s, z, ListKind::Small)
        && pair_ok(s, z, ListKind::Main, ListKind::Ghosts)
}

// Whether bytes that nobody vouches for are four lists with every node in one. The lengths are summed
// first, so that the walks take as many steps as there are nodes, whatever the bytes are.
pub fn check_lists(s: &[u8], z: Shape) -> bool
    requires { Room z s.now }
    ensures { Decides (Listed z s.now) result }
{
    counted(s, z) && lists_ok(s, z)
}

// Makes list t empty, whatever the bytes were: its sentinel is its own neighbour.
fn empty(s: &mut [u8], z: Shape, t: ListKind)
    requires { Room z s.old }
    ensures { EmptyList z s.old s.new (number t) }
{
    let sent = z.room + t.number();
    nodes::set(s, z, Column::Next, sent, sent);
    nodes::set(s, z, Column::Prev, sent, sent);
    nodes::set64(s, z, Column::Head, LENGTHS + t.number(), 0);
}

// Makes all four empty.
fn empty_all(s: &mut [u8], z: Shape)
    requires { Room z s.old }
    ensures { Fresh z s.old s.new 0 }
{
    empty(s, z, ListKind::Free);
    empty(s, z, ListKind::Small);
    empty(s, z, ListKind::Main);
    empty(s, z, ListKind::Ghosts);
}

// Frees every node, where all lists are empty.
fn free_all(s: &mut [u8], z: Shape)
    requires room { Room z s.old }
    requires lists { Lists z (cols z s.old) (all_free 0) }
    ensures { Fresh z s.old s.new z.room }
{
    for x in 0..z.room {
        attach(s, z, ListKind::Free, x);
    }
}

// Sets the lists up from any bytes: every node is free.
pub fn set_up(s: &mut [u8], z: Shape)
    requires { Room z s.old }
    ensures { Fresh z s.old s.new z.room }
{
    empty_all(s, z);
    free_all(s, z);
}
