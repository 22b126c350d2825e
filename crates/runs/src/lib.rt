// Requests carried out one after the other (RULES 7.2, RULES 7.3) on a store that holds a state: those of a run of bytes, and those that a piece of a stream
// completes, with the record that was cut before it. What is asked of the bytes and of the reply room is asked by the calls above.
#![tactic(auto)]

ghost use Rattle.std.specs.Prelude.{◌++◌, ◌+◌, ◌≤◌, length, Ok};
ghost use Rattle.rules.specs.Bytes.{longest_record, encode_all, parse_from, parse};
ghost use Rattle.rules.specs.Carry.{last_offset, carry_bytes, left_by};
ghost use Rattle.rules.specs.Refusals.{most_request_bytes};
ghost use Rattle.wire.specs.Wire.{Wrote};
ghost use Rattle.wire.specs.CarriedOut.{HasRoom};
ghost use Rattle.carry.specs.Carries.{kept_in, Brings};
ghost use Rattle.evict.specs.Evicts.{pushed_of};
ghost use Rattle.requests.specs.Answers.{spoken_of};
ghost use Rattle.store.specs.Holds.{Held};
ghost use Rattle.runs.specs.Runs.{Runs, asked_across, FedOn};

use carry::{Brought, Head};
use evict::Pushed;
use requests::Spoken;
use rules::Turned;
use store::{QueueKind, Shape};
use wire::{Reply, Stop};

// What a feed that was not turned away answers.
#[derive(Clone, Copy)]
pub enum Fed {
    // So many reply bytes; the stream goes on.
    Done(usize),
    // So many reply bytes, and the offset of the unknown mark that stops the stream now.
    Stopped(usize, u64),
}

// Writes the reply of a pair that was pushed out, if one was.
fn put_pushed(replies: &mut [u8], at: usize, pushed: Option<Pushed>) -> usize
    requires { at + length (encode_all (pushed_of pushed)) ≤ length replies.old }
    ensures { Wrote replies.old at (encode_all (pushed_of pushed)) replies.new result }
{
    match pushed {
        None => at,
        Some(pair) => match pair.from {
            QueueKind::Small => {
                wire::put_reply(replies, at, Reply::FromSmall(pair.key, pair.value))
            }
            QueueKind::Main => wire::put_reply(replies, at, Reply::FromMain(pair.key, pair.value)),
        },
    }
}

// Writes what a request answered, and gives the offset after it.
fn put_spoken(replies: &mut [u8], at: usize, spoken: Spoken) -> usize
    requires { at + length (encode_all (spoken_of spoken)) ≤ length replies.old }
    ensures { Wrote replies.old at (encode_all (spoken_of spoken)) replies.new result }
{
    let middle = put_pushed(replies, at, spoken.pushed);
    wire::put_reply(replies, middle, spoken.closing)
}

// Carries out the requests from `at` on, in order, up to the end or to a record that is none, and writes their replies from `out` on. A record says itself
// where the next one begins, so there is no range to go over.
pub fn run_from(
    store: &mut [u8],
    z: Shape,
    requests: &[u8],
    at: usize,
    replies: &mut [u8],
    out: usize,
) -> usize
    requires held { Held z store.old }
    requires has_room { HasRoom (parse_from requests.now at).requests replies.old out }
    ensures { Runs z store.old store.new (parse_from requests.now at).requests
        replies.old replies.new out result }
{
    let mut from = at;
    let mut end = out;
    while let Ok((q, after)) = wire::next(requests, from) {
        let spoken = requests::apply(store, z, q);
        end = put_spoken(replies, end, spoken);
        from = after;
    }
    end
}

// Carries out the requests of what stands in front of a piece, and then those of the piece from `from` on.
fn run_both(
    store: &mut [u8],
    z: Shape,
    head: &[u8],
    piece: &[u8],
    from: usize,
    replies: &mut [u8],
) -> usize
    requires held { Held z store.old }
    requires has_room { HasRoom (asked_across head.now piece.now from) replies.old 0 }
    ensures { Runs z store.old store.new (asked_across head.now piece.now from) replies.old replies.new 0 result }
{
    let middle = run_from(store, z, head, 0, replies, 0);
    run_from(store, z, piece, from, replies, middle)
}

// A feed of what stands in front of a piece, a whole record or nothing, and of the piece from `from` on. The piece's first byte has the offset `base`.
fn feed_whole(
    store: &mut [u8],
    z: Shape,
    carry: &mut [u8],
    base: u64,
    head: &[u8],
    piece: &[u8],
    from: usize,
    replies: &mut [u8],
) -> Result<Fed, Turned>
    requires { Held z store.old × (carry_bytes ≤ length carry.old) × (from ≤ length piece.now) × (length piece.now ≤ most_request_bytes)
        × (length head.now ≤ longest_record) × (base + length piece.now ≤ last_offset) }
    ensures { FedOn z store.old store.new carry.old carry.new replies.old replies.new
        (asked_across head.now piece.now from)
        (left_by base piece.now (parse_from piece.now from).end) result }
{
    let first = wire::survey_all(head);
    let rest = wire::survey_from(piece, from);
    let room = first.room + rest.room;
    if replies.len() < room {
        return Err(Turned::NoRoom(room as u64));
    }
    let out = run_both(store, z, head, piece, from, replies);
    let end = base + rest.at as u64;
    match rest.stop {
        Stop::Unknown => {
            carry::put(carry, end, true, piece, piece.len());
            Ok(Fed::Stopped(out, end))
        }
        Stop::Cut | Stop::Whole => {
            carry::put(carry, end, false, piece, rest.at);
            Ok(Fed::Done(out))
        }
    }
}

// A feed of a stream that goes on: the record that was cut is put together with the piece's first bytes.
pub fn feed_going(
    store: &mut [u8],
    z: Shape,
    carry: &mut [u8],
    offset: u64,
    count: usize,
    piece: &[u8],
    replies: &mut [u8],
) -> Result<Fed, Turned>
    requires { Held z store.old × Brings carry.old (Ok (Brought.Going offset count)) × (offset + count + length piece.now ≤ last_offset)
        × (length piece.now ≤ most_request_bytes) }
    ensures { FedOn z store.old store.new carry.old carry.new replies.old replies.new
        (parse (kept_in carry.old count ++ piece.now)).requests
        (left_by offset (kept_in carry.old count ++ piece.now) (parse (kept_in carry.old count ++ piece.now)).end) result }
{
    let mut head = [0u8; carry::HEAD_BYTES];
    match carry::join(carry::kept(carry, count), piece, &mut head) {
        Head::Cut(n) => {
            carry::put(carry, offset, false, &head[0..n], 0);
            Ok(Fed::Done(0))
        }
        Head::Unknown => {
            carry::put(carry, offset, true, piece, piece.len());
            Ok(Fed::Stopped(0, offset))
        }
        Head::Whole(n) => feed_whole(
            store,
            z,
            carry,
            offset + count as u64,
            &head[0..n],
            piece,
            n - count,
            replies,
        ),
    }
}
