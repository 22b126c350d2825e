// The requests on the store (RULES 5): lookup, peek, remove, insert, evict_one and clear, each with the replies that the rules
// give it. A key is looked up once a request. No request fails on a store that holds a sound state, and no number stands for "none".
#![tactic(auto)]

ghost use Rattle.std.specs.Prelude.{◌≡◌, ◌+◌, min};
ghost use Rattle.rules.specs.State.{max_freq};
ghost use Rattle.rules.specs.Records.{Request};
ghost use Rattle.store.specs.Holds.{Held};
ghost use Rattle.store.specs.Seats.{queue_kind};
ghost use Rattle.store.specs.Looks.{Lacks};
ghost use Rattle.wire.specs.Wire.{asked};
ghost use Rattle.requests.specs.Answers.{alone, Answers, Arrives};

use evict::Pushed;
use rules::{GuestBlock, PhysicalBlock};
use store::{Lookup, QueueKind, Shape};
use wire::Reply;

// What a request answers: the pair that eviction pushed out, if it did, and the closing reply.
#[derive(Clone, Copy)]
pub struct Spoken {
    pub pushed: Option<Pushed>,
    pub closing: Reply,
}

// The answer where no pair was pushed out.
fn alone(closing: Reply) -> Spoken
    ensures { result ≡ alone closing }
{
    Spoken {
        pushed: None,
        closing,
    }
}

// A frequency raised: one more, at most the highest.
fn raised(freq: u8) -> u8
    ensures { result ≡ min max_freq (freq + 1) }
{
    if freq < rules::MAX_FREQ {
        freq + 1
    } else {
        rules::MAX_FREQ
    }
}

// Lookup: the value, and the frequency raised. No list is reordered.
fn get(s: &mut [u8], z: Shape, k: GuestBlock) -> Spoken
    requires { Held z s.old }
    ensures { Answers z s.old s.new (Request.GT k.0) result }
{
    let Lookup::Resident(_, x) = store::look(s, z, k) else {
        return alone(Reply::Miss);
    };
    let entry = store::entry_at(s, z, x);
    store::set_freq(s, z, x, raised(entry.freq));
    alone(Reply::Hit(entry.value))
}

// Peek: the value, and no change at all.
fn peek(s: &[u8], z: Shape, k: GuestBlock) -> Spoken
    requires { Held z s.now }
    ensures { Answers z s.now s.now (Request.PK k.0) result }
{
    let Lookup::Resident(_, x) = store::look(s, z, k) else {
        return alone(Reply::Miss);
    };
    alone(Reply::Hit(store::entry_at(s, z, x).value))
}

// Remove: a resident pair goes out; the ghosts stay as they are.
fn remove(s: &mut [u8], z: Shape, k: GuestBlock) -> Spoken
    requires { Held z s.old }
    ensures { Answers z s.old s.new (Request.RM k.0) result }
{
    let Lookup::Resident(q, x) = store::look(s, z, k) else {
        return alone(Reply::Miss);
    };
    let gone = store::entry_at(s, z, x).value;
    store::remove_at(s, z, q, x);
    alone(Reply::Gone(gone))
}

// A pair whose key stands nowhere goes in: eviction first where the cache is full.
fn arrive(s: &mut [u8], z: Shape, q: QueueKind, k: GuestBlock, v: PhysicalBlock) -> Spoken
    requires { Held z s.old × Lacks z s.old k.0 }
    ensures { Arrives z s.old s.new (queue_kind q) k.0 v.0 result }
{
    let evicted = evict::evict_if_needed(s, z);
    store::attach_head(s, z, q, k, v);
    Spoken {
        pushed: evicted.pushed,
        closing: Reply::New(evicted.pops),
    }
}

// Insert: a resident key gets the value and is raised; a ghost comes off its list, before eviction could drop it, and goes to Main; any other key
// goes to Small.
fn insert(s: &mut [u8], z: Shape, k: GuestBlock, v: PhysicalBlock) -> Spoken
    requires { Held z s.old }
    ensures { Answers z s.old s.new (Request.IN k.0 v.0) result }
{
    match store::look(s, z, k) {
        Lookup::Resident(_, x) => {
            let old = store::entry_at(s, z, x);
            store::replace(s, z, x, v, raised(old.freq));
            alone(Reply::Replaced(old.value))
        }
        Lookup::Ghost(x) => {
            store::remove_ghost(s, z, x);
            arrive(s, z, QueueKind::Main, k, v)
        }
        Lookup::Absent => arrive(s, z, QueueKind::Small, k, v),
    }
}

// evict_one: eviction where the cache is full, and then one or two pops of its own.
fn evict_one(s: &mut [u8], z: Shape) -> Spoken
    requires { Held z s.old }
    ensures { Answers z s.old s.new Request.EV result }
{
    let pushed = evict::evict_if_needed(s, z).pushed;
    let closing = handing::hand_out(s, z);
    Spoken { pushed, closing }
}

// Clear: ghosts and queues become empty, node by node, so that it costs what is there.
fn clear(s: &mut [u8], z: Shape) -> Spoken
    requires { Held z s.old }
    ensures { Answers z s.old s.new Request.CL result }
{
    ghost_list::clear(s, z);
    handing::drain(s, z, QueueKind::Small);
    handing::drain(s, z, QueueKind::Main);
    alone(Reply::Cleared)
}

// Any request.
pub fn apply(s: &mut [u8], z: Shape, q: wire::Request) -> Spoken
    requires { Held z s.old }
    ensures { Answers z s.old s.new (asked q) result }
{
    match q {
        wire::Request::Get(k) => get(s, z, k),
        wire::Request::Peek(k) => peek(s, z, k),
        wire::Request::Remove(k) => remove(s, z, k),
        wire::Request::Insert(k, v) => insert(s, z, k, v),
        wire::Request::Evict => evict_one(s, z),
        wire::Request::Clear => clear(s, z),
    }
}
