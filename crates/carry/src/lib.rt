// What a stream carries from one feed to the next (RULES 7.4), in bytes that the caller lends: read and judged, written, and the record that was
// cut put together with the start of the next piece. It knows no store and no engine.
#![tactic(auto)]

ghost use Rattle.std.specs.Prelude.{◌≡◌, true, ◌+◌, ◌≤◌, length, drop, replicate};
ghost use Rattle.rules.specs.Bytes.{longest_record, spot_at};
ghost use Rattle.rules.specs.Carry.{most_kept, waits, carry_bytes, kept_room};
ghost use Rattle.carry.specs.Carries.{kept_in, LaidOut, Halts, GoesOn, Brings, CarryPut};
ghost use Rattle.carry.specs.Heads.{HeadFilled, HeadJoins};

use rules::Turned;
use wire::Stop;

// Where the number of bytes kept stands, the byte that says whether the stream has stopped, and the first of the bytes kept. The offset is in front.
const COUNT_AT: usize = 8;

const STOPPED_AT: usize = 9;

const KEPT_AT: usize = 10;

// The longest record, and one byte less: what is kept of a record at the most.
pub const HEAD_BYTES: usize = 18;

const MOST_KEPT: usize = 17;

// What the bytes lent to a feed or a finish say.
#[derive(Clone, Copy)]
pub enum Brought {
    // A stream that goes on: the offset of the first byte kept, and how many bytes are kept.
    Going(u64, usize),
    // One that an unknown mark stopped: the mark's offset.
    Stopped(u64),
}

// What the bytes kept begin, with the piece behind them. Each of the three has a step of its own behind it, and none is a refusal.
#[derive(Clone, Copy)]
pub enum Head {
    // A whole record of so many bytes; of none where no byte was kept.
    Whole(usize),
    // A record that is cut still: all that there is, so many bytes.
    Cut(usize),
    // A mark that no request has.
    Unknown,
}

// Lays the record out over zeros, where it is wanted: an array that a function hands out is copied once more.
fn lay_out(form: &mut [u8; rules::CARRY_BYTES], offset: u64, stopped: bool, kept: &[u8])
    requires { (form.old ≡ replicate carry_bytes 0) × (length kept.now ≤ kept_room) }
    ensures { LaidOut (record { offset = offset; kept = kept.now; stopped = stopped }) form.new }
{
    cells::put::<8>(form, 0, offset);
    cells::put::<1>(form, COUNT_AT, kept.len() as u64);
    cells::put::<1>(form, STOPPED_AT, stopped as u64);
    cells::copy(kept, &mut form[KEPT_AT..]);
}

// Writes the record. The bytes kept are those of `from` from `at` on; whether the stream has stopped is a byte of the record like the others.
pub fn put(carry: &mut [u8], offset: u64, stopped: bool, from: &[u8], at: usize)
    requires { (carry_bytes ≤ length carry.old) × (at ≤ length from.now) × (length from.now ≤ at + kept_room) }
    ensures { CarryPut carry.old (record { offset = offset; kept = drop at from.now; stopped = stopped }) carry.new }
{
    let mut form = [0u8; rules::CARRY_BYTES];
    lay_out(&mut form, offset, stopped, &from[at..]);
    cells::copy(&form, carry);
}

// A record that says that the stream has stopped: nothing is kept, and both bytes of the mark have come.
fn judge_stopped(offset: u64, kept: &[u8]) -> Result<Brought, Turned>
    ensures { Halts offset kept.now result }
{
    if !kept.is_empty() || u64::MAX - 2 < offset {
        return Err(Turned::BadCarry);
    }
    Ok(Brought::Stopped(offset))
}

// A record that says that the stream goes on: what is kept is no whole record, and no mark that is known to be none.
fn judge_going(offset: u64, kept: &[u8]) -> Result<Brought, Turned>
    ensures { GoesOn offset kept.now result }
{
    let count = kept.len();
    if u64::MAX - offset < count as u64 {
        return Err(Turned::BadCarry);
    }
    match wire::next(kept, 0) {
        Ok(_) => Err(Turned::BadCarry),
        Err(stop) => match stop {
            Stop::Unknown => Err(Turned::BadCarry),
            Stop::Cut | Stop::Whole => Ok(Brought::Going(offset, count)),
        },
    }
}

// The bytes kept, in the bytes lent: so many.
pub fn kept(carry: &[u8], count: usize) -> &[u8]
    requires { (carry_bytes ≤ length carry.now) × (count ≤ most_kept) }
    ensures { result.now ≡ kept_in carry.now count }
{
    &carry[KEPT_AT..KEPT_AT + count]
}

// What the bytes lent say; or they are no record that a feed could have left. They are the one form of what they say: nothing else stands in them.
pub fn read(carry: &[u8]) -> Result<Brought, Turned>
    ensures { Brings carry.now result }
{
    if carry.len() < rules::CARRY_BYTES {
        return Err(Turned::BadCarry);
    }
    let count = carry[COUNT_AT] as usize;
    if MOST_KEPT < count {
        return Err(Turned::BadCarry);
    }
    let kept = kept(carry, count);
    let offset = cells::get::<8>(carry, 0);
    let stopped = carry[STOPPED_AT] == 1;
    let mut form = [0u8; rules::CARRY_BYTES];
    lay_out(&mut form, offset, stopped, kept);
    if !cells::same(&carry[..rules::CARRY_BYTES], &form) {
        return Err(Turned::BadCarry);
    }
    if offset % 2 == 1 {
        return Err(Turned::BadCarry);
    }
    if stopped {
        judge_stopped(offset, kept)
    } else {
        judge_going(offset, kept)
    }
}

// Puts the bytes kept and the first of the piece into the buffer, as many as a record can have, and gives how many they are.
fn fill_head(kept: &[u8], piece: &[u8], head: &mut [u8]) -> usize
    requires { (length kept.now ≤ most_kept) × (length head.old ≡ longest_record) }
    ensures { HeadFilled kept.now piece.now head.new result }
{
    let count = kept.len();
    let more = piece.len().min(HEAD_BYTES - count);
    cells::copy(kept, head);
    cells::copy(&piece[..more], &mut head[count..]);
    count + more
}

// The record that the bytes kept begin, put together in the buffer with the piece's first bytes.
pub fn join(kept: &[u8], piece: &[u8], head: &mut [u8]) -> Head
    requires { (length kept.now ≤ most_kept) × (waits (spot_at kept.now 0) ≡ true) × (length head.old ≡ longest_record) }
    ensures { HeadJoins kept.now piece.now head.new result }
{
    if kept.is_empty() {
        return Head::Whole(0);
    }
    let n = fill_head(kept, piece, head);
    match wire::next(&head[..n], 0) {
        Ok((_, after)) => Head::Whole(after),
        Err(Stop::Unknown) => Head::Unknown,
        Err(Stop::Cut) => Head::Cut(n),
        // Not met: there are bytes.
        Err(Stop::Whole) => Head::Whole(0),
    }
}
