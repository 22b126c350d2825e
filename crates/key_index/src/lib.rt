// The key index of bounded size: which live node holds a key. It stands for the original's hash map,
// in lent memory (RULES 1.3): a head for each bucket, and in each node a link to the next of its bucket,
// in the order of their keys. The number of nodes ends a chain. It is a sentinel's: that leads to itself
// and is free, so that of the end of a chain may be read what is read of a node. A tag of 0 says free, and any other live: which list a live node is in
// is for the crates above.
#![tactic(auto)]

ghost use Rattle.std.specs.Prelude.{◌≡◌, ◌<◌};
ghost use Rattle.nodes.specs.Nodes.{too_many_buckets, Field, cols, Room};
ghost use Rattle.key_index.specs.Links.{Whole};
ghost use Rattle.key_index.specs.Index.{bucket_of};
ghost use Rattle.key_index.specs.Walks.{FirstIs, Goes, InFront, Gap};
ghost use Rattle.key_index.specs.Stored.{col, LiveIn, Indexes, IsFound, CanJoin, Joins, Unchains, EmptyBuckets, Empties};

use nodes::{Column, Shape};

// The bucket of a key.
pub fn bucket_of_key(k: u64, buckets: usize) -> usize
    requires { (0 < buckets) × (buckets < too_many_buckets) }
    ensures { (result ≡ bucket_of k buckets) × (result < buckets) }
{
    let folded = (k / 0x1_0000_0000 * 2246822507 + k % 0x1_0000_0000) % 0x1_0000_0000;
    let mixed = folded * 2654435769 % 0x1_0000_0000;
    (mixed * buckets as u64 / 0x1_0000_0000) as usize
}

// The first node with a key in the chain whose first link is `h`, if one has it. This walk and the two
// below follow links, and count nothing: an iterator over a chain would hold the same loop, and no less.
fn first_in(s: &[u8], z: Shape, h: usize, k: u64) -> Option<usize>
    requires { Room z s.now × Whole z.room (col (cols z s.now Field.Chain)) h }
    ensures { FirstIs z.room (col (cols z s.now Field.Key)) (col (cols z s.now Field.Chain)) k h result }
{
    let mut at = h;
    while at < z.room {
        if nodes::get64(s, z, Column::Key, at) == k {
            return Some(at);
        }
        at = nodes::get(s, z, Column::Chain, at);
    }
    None
}

// The live node that holds a key, if there is one.
pub fn find(s: &[u8], z: Shape, k: u64) -> Option<usize>
    requires { Room z s.now × Indexes z (cols z s.now) }
    ensures { IsFound z (cols z s.now) k result }
{
    let b = bucket_of_key(k, z.buckets);
    let h = nodes::get(s, z, Column::Bucket, b);
    first_in(s, z, h, k)
}

// The place of the key `k` in the chain whose first link is `h`: the last node with a smaller key, or
// the end where the first node has none. The end is the number that stands for it in the store's links.
fn place_of(s: &[u8], z: Shape, h: usize, k: u64) -> usize
    requires { Room z s.now × Whole z.room (col (cols z s.now Field.Chain)) h }
    ensures { Gap z.room (col (cols z s.now Field.Key)) (col (cols z s.now Field.Chain)) k h result }
{
    let mut at = h;
    let mut low = z.room;
    while at < z.room {
        if k <= nodes::get64(s, z, Column::Key, at) {
            return low;
        }
        low = at;
        at = nodes::get(s, z, Column::Chain, at);
    }
    low
}

// The free node `x` gets the key `k`, and stands in the key's chain behind the smaller keys. Its tag is
// left for the caller to write.
pub fn add(s: &mut [u8], z: Shape, x: usize, k: u64)
    requires { Room z s.old × CanJoin z (cols z s.old) x k }
    ensures { Joins z (cols z s.old) (cols z s.new) x k }
{
    let b = bucket_of_key(k, z.buckets);
    let h = nodes::get(s, z, Column::Bucket, b);
    let p = place_of(s, z, h, k);
    if p < z.room {
        let next = nodes::get(s, z, Column::Chain, p);
        nodes::set64(s, z, Column::Key, x, k);
        nodes::set(s, z, Column::Chain, x, next);
        nodes::set(s, z, Column::Chain, p, x);
    } else {
        nodes::set64(s, z, Column::Key, x, k);
        nodes::set(s, z, Column::Chain, x, h);
        nodes::set(s, z, Column::Bucket, b, x);
    }
}

// The node in front of `x` in the chain that goes on from the node `h`.
fn in_front(s: &[u8], z: Shape, h: usize, x: usize) -> usize
    requires { Room z s.now × Goes z.room (col (cols z s.now Field.Chain)) h x }
    ensures { InFront z.room (col (cols z s.now Field.Chain)) h x result }
{
    let mut p = h;
    loop {
        let next = nodes::get(s, z, Column::Chain, p);
        if next == x {
            return p;
        }
        p = next;
    }
}

// Takes the live node `x` out of the chain of its key. Its tag is left for the caller to write.
pub fn remove(s: &mut [u8], z: Shape, x: usize)
    requires { Room z s.old × Indexes z (cols z s.old) × LiveIn z (cols z s.old) x }
    ensures { Unchains z (cols z s.old) (cols z s.new) x }
{
    let k = nodes::get64(s, z, Column::Key, x);
    let b = bucket_of_key(k, z.buckets);
    let h = nodes::get(s, z, Column::Bucket, b);
    let next = nodes::get(s, z, Column::Chain, x);
    if h == x {
        nodes::set(s, z, Column::Bucket, b, next);
    } else {
        let p = in_front(s, z, h, x);
        nodes::set(s, z, Column::Chain, p, next);
    }
}

// Empties every bucket.
fn empty_buckets(s: &mut [u8], z: Shape)
    requires { Room z s.old }
    ensures { EmptyBuckets z (cols z s.old) (cols z s.new) }
{
    for b in 0..z.buckets {
        nodes::set(s, z, Column::Bucket, b, z.room);
    }
}

// Empties every chain, for a store in which no node is live, and sets up the end of chains.
pub fn set_up(s: &mut [u8], z: Shape)
    requires { Room z s.old }
    ensures { Empties z (cols z s.old) (cols z s.new) }
{
    empty_buckets(s, z);
    nodes::set(s, z, Column::Chain, z.room, z.room);
    nodes::set(s, z, Column::Queue, z.room, 0);
}
