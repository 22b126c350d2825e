// The check of a key index in bytes that nobody vouches for (RULES 1.3): whether they index their live nodes. Heads and links may lead
// anywhere. Nodes are counted: each is visited once and walked over at most once, so that no chosen keys make the check slow. Of a node's tag only this
// counts here: 0 says that it is free, and any other number that it is live. Which list a live node is in is for the crates above.
#![tactic(auto)]

ghost use Rattle.std.specs.Prelude.{◌<◌};
ghost use Rattle.cells.specs.Decides.{Decides};
ghost use Rattle.nodes.specs.Nodes.{Field, cols, Room, GetsField};
ghost use Rattle.key_index.specs.Stored.{col, Indexes};
ghost use Rattle.census.specs.Check.{LeadsUp, EndOk, LinkOk, WalkSays, Behind, Visits, Counts, leads, is_going_on};

use nodes::{Column, Shape};

// Whether the end of chains leads to itself, and its tag says free.
fn end_ok(s: &[u8], z: Shape) -> bool
    requires { Room z s.now }
    ensures { Decides (EndOk z (cols z s.now)) result }
{
    nodes::get(s, z, Column::Chain, z.room) == z.room
        && nodes::get(s, z, Column::Queue, z.room) == 0
}

// Whether a link `m` behind a node with the key `k` ends the chain, or leads to a larger key.
fn leads_up(s: &[u8], z: Shape, k: u64, m: usize) -> bool
    requires { Room z s.now }
    ensures { Decides (LeadsUp z.room (col (cols z s.now Field.Key)) k m) result }
{
    if m < z.room {
        k < nodes::get64(s, z, Column::Key, m)
    } else {
        m == z.room
    }
}

// Whether a node may stand in the chain of the bucket `b`: it is live and of that bucket, and its link
// ends the chain or leads to a larger key.
fn link_ok(s: &[u8], z: Shape, b: usize, x: usize) -> bool
    requires { Room z s.now × (x < z.room) }
    ensures { Decides (LinkOk z (cols z s.now) b x) result }
{
    let k = nodes::get64(s, z, Column::Key, x);
    let next = nodes::get(s, z, Column::Chain, x);
    nodes::get(s, z, Column::Queue, x) != 0
        && key_index::bucket_of_key(k, z.buckets) == b
        && leads_up(s, z, k, next)
}

// How many nodes the chain from the node `h` on has, or `None` where it is no chain of the bucket `b`. The
// links may be anything; it ends because the keys rise, so that no node is passed twice. The loop follows
// links, and `count` is no index into anything.
fn walk(s: &[u8], z: Shape, b: usize, h: usize) -> Option<usize>
    requires { Room z s.now × (h < z.room) }
    ensures { WalkSays z (cols z s.now) b h result }
{
    let mut at = h;
    let mut count = 0;
    while at < z.room {
        if !link_ok(s, z, b, at) {
            return None;
        }
        at = nodes::get(s, z, Column::Chain, at);
        count += 1;
    }
    Some(count)
}

// Whether `h` is a live node with a key below `k`, and `x` is behind it.
fn is_behind(s: &[u8], z: Shape, h: usize, x: usize, k: u64) -> bool
    requires { Room z s.now }
    ensures { Decides (Behind z (cols z s.now) h x k) result }
{
    h < z.room
        && nodes::get(s, z, Column::Queue, h) != 0
        && nodes::get(s, z, Column::Chain, h) == x
        && nodes::get64(s, z, Column::Key, h) < k
}

// How many nodes a node with the tag `t` vouches for: the first of a chain for itself, and the second for
// itself and for all behind it, which are walked: `None` where they are no chain of the bucket. Few chains
// have more than two nodes.
fn visit(s: &[u8], z: Shape, x: usize, t: usize) -> Option<usize>
    requires { Room z s.now × (x < z.room) × GetsField z s.now Field.Queue x t }
    ensures { Visits z (cols z s.now) x result }
{
    if t == 0 {
        return Some(0);
    }
    let k = nodes::get64(s, z, Column::Key, x);
    let b = key_index::bucket_of_key(k, z.buckets);
    let h = nodes::get(s, z, Column::Bucket, b);
    if h == x {
        Some(1)
    } else if is_behind(s, z, h, x, k) {
        walk(s, z, b, x)
    } else {
        Some(0)
    }
}

// Whether a head leads to something, and is not the end of chains. Both are numbers of two bytes, and are compared as
// such, by the remainder: so compiled code takes many heads at a time.
fn head_leads(s: &[u8], z: Shape, b: usize) -> bool
    requires { Room z s.now × (b < z.buckets) }
    ensures { Decides (0 < leads z (cols z s.now) b) result }
{
    nodes::get(s, z, Column::Bucket, b) as u16 != (z.room % 0x1_0000) as u16
}

// How many heads lead to something. They are counted in four bytes, for the same reason.
fn count_heads(s: &[u8], z: Shape) -> usize
    requires { Room z s.now }
    ensures { Counts (leads z (cols z s.now)) z.buckets result }
{
    let mut count = 0;
    for b in 0..z.buckets {
        count += u32::from(head_leads(s, z, b));
    }
    count as usize
}

// Whether a node is live and its link leads to something; `t` is its tag.
fn link_leads(s: &[u8], z: Shape, x: usize, t: usize) -> bool
    requires { Room z s.now × (x < z.room) × GetsField z s.now Field.Queue x t }
    ensures { Decides (0 < is_going_on z (cols z s.now) x) result }
{
    t != 0 && nodes::get(s, z, Column::Chain, x) != z.room
}

// Whether the nodes stand where `heads` heads should lead. Each node is visited once, and walked over at
// most once. As many heads and links of live nodes lead on as there are live nodes, and each live node is
// vouched for, that is, one of them leads to it as it should: so they lead to nothing else.
fn nodes_stand(s: &[u8], z: Shape, heads: usize) -> bool
    requires { Room z s.now × EndOk z (cols z s.now) × Counts (leads z (cols z s.now)) z.buckets heads }
    ensures { Decides (Indexes z (cols z s.now)) result }
{
    let mut sum = 0;
    let mut live = 0;
    let mut links = 0;
    for x in 0..z.room {
        let t = nodes::get(s, z, Column::Queue, x);
        let Some(m) = visit(s, z, x, t) else {
            return false;
        };
        sum += m;
        live += usize::from(t != 0);
        links += usize::from(link_leads(s, z, x, t));
    }
    heads + links == live && sum == live
}

// Whether a store that nobody vouches for indexes its live nodes.
pub fn check_index(s: &[u8], z: Shape) -> bool
    requires { Room z s.now }
    ensures { Decides (Indexes z (cols z s.now)) result }
{
    end_ok(s, z) && nodes_stand(s, z, count_heads(s, z))
}
