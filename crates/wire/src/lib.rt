// Requests read from bytes and replies written as bytes (RULES 6): two-byte marks compared on reading and written before each reply,
// one record at an offset, the walk over all records that gives their reply room or where they break off.
#![tactic(auto)]

ghost use Rattle.std.specs.Prelude.{◌≡◌, ◌++◌, ◌+◌, ◌≤◌, length};
ghost use Rattle.rules.specs.Bytes.{bytes_of, encode, row, reading_at, parse_from, parse};
ghost use Rattle.rules.specs.Refusals.{most_request_bytes};
ghost use Rattle.wire.specs.Wire.{told, meaning, Marked, Meets, Spots, Asks, surveyed, Wrote};

use rules::{GuestBlock, Kind, PhysicalBlock, Row};

#[derive(Clone, Copy)]
pub enum Request {
    Get(GuestBlock),
    Peek(GuestBlock),
    Remove(GuestBlock),
    Insert(GuestBlock, PhysicalBlock),
    Evict,
    Clear,
}

#[derive(Clone, Copy)]
pub enum Reply {
    Miss,
    Cleared,
    Hit(PhysicalBlock),
    Replaced(PhysicalBlock),
    New(u64),
    Gone(PhysicalBlock),
    Handed(GuestBlock, PhysicalBlock),
    FromSmall(GuestBlock, PhysicalBlock),
    FromMain(GuestBlock, PhysicalBlock),
}

// Why no request stands at an offset: how the walk over all records ends.
#[derive(Clone, Copy)]
pub enum Stop {
    // The end of the bytes: all records are whole.
    Whole,
    // A mark that no row has.
    Unknown,
    // A record whose bytes are not all there.
    Cut,
}

// What all records ask for: the sum of their reply room, the offset where the walk ended, and how.
#[derive(Clone, Copy)]
pub struct Survey {
    pub room: usize,
    pub at: usize,
    pub stop: Stop,
}

// Whether the two bytes at an offset are a mark. Two bytes by their places say it as plainly as a range and an `==` of slices.
fn marked(s: &[u8], at: usize, mark: &[u8; 2]) -> bool
    requires { at + 2 ≤ length s.now }
    ensures { Marked s.now at mark.now result }
{
    s[at] == mark[0] && s[at + 1] == mark[1]
}

// The row of the mark at an offset. It leaves the loop with a copy, so that the table is not read again.
fn find_row(s: &[u8], at: usize) -> Option<Row>
    requires { at + 2 ≤ length s.now }
    ensures { Meets s.now at result }
{
    for i in 0..rules::ROWS {
        let row = rules::row_of(i);
        if marked(s, at, &row.mark) {
            return Some(row);
        }
    }
    None
}

// What stands at an offset, by its mark and its length: the row of a record all of whose bytes are there.
fn spot_at(s: &[u8], at: usize) -> Result<Row, Stop>
    ensures { Spots s.now at result }
{
    if s.len() <= at {
        return Err(Stop::Whole);
    }
    if s.len() - at < 2 {
        return Err(Stop::Cut);
    }
    let Some(row) = find_row(s, at) else {
        return Err(Stop::Unknown);
    };
    if s.len() - at < row.bytes {
        return Err(Stop::Cut);
    }
    Ok(row)
}

// The request of a record all of whose bytes are there.
fn request_at(s: &[u8], at: usize, kind: Kind) -> Request
    requires { at + (row kind).bytes ≤ length s.now }
    ensures { Asks s.now at kind result }
{
    match kind {
        Kind::Get => Request::Get(GuestBlock(cells::get::<8>(s, at + 2))),
        Kind::Peek => Request::Peek(GuestBlock(cells::get::<8>(s, at + 2))),
        Kind::Remove => Request::Remove(GuestBlock(cells::get::<8>(s, at + 2))),
        Kind::Insert => Request::Insert(
            GuestBlock(cells::get::<8>(s, at + 2)),
            PhysicalBlock(cells::get::<8>(s, at + 10)),
        ),
        Kind::Evict => Request::Evict,
        Kind::Clear => Request::Clear,
    }
}

// The request at an offset, with the offset after it.
pub fn next(s: &[u8], at: usize) -> Result<(Request, usize), Stop>
    ensures { meaning result ≡ reading_at s.now at }
{
    let row = spot_at(s, at)?;
    Ok((request_at(s, at, row.kind), at + row.bytes))
}

// The walk over the records from an offset on: the reply room of those that are whole, and where and how it ends. A record says itself where the next one
// begins, so there is no range to go over.
pub fn survey_from(s: &[u8], start: usize) -> Survey
    requires { (start ≤ length s.now) × (length s.now ≤ most_request_bytes) }
    ensures { result ≡ surveyed (length s.now) (parse_from s.now start) }
{
    let mut at = start;
    let mut room = 0;
    loop {
        match spot_at(s, at) {
            Ok(row) => {
                at += row.bytes;
                room += row.room;
            }
            Err(stop) => return Survey { room, at, stop },
        }
    }
}

// The walk over all records.
pub fn survey_all(s: &[u8]) -> Survey
    requires { length s.now ≤ most_request_bytes }
    ensures { result ≡ surveyed (length s.now) (parse s.now) }
{
    survey_from(s, 0)
}

// Each writer writes at an offset and gives the offset after it: a mark, a number, a mark and a number, a mark and two.
// One writer of any count of numbers would be a loop with an invariant over one or two of them, which is no plainer.
fn put_mark(replies: &mut [u8], at: usize, mark: [u8; 2]) -> usize
    requires { at + 2 ≤ length replies.old }
    ensures { Wrote replies.old at mark replies.new result }
{
    replies[at] = mark[0];
    replies[at + 1] = mark[1];
    at + 2
}

fn put_number(replies: &mut [u8], at: usize, v: u64) -> usize
    requires { at + 8 ≤ length replies.old }
    ensures { Wrote replies.old at (bytes_of 8 v) replies.new result }
{
    cells::put::<8>(replies, at, v);
    at + 8
}

fn put_one(replies: &mut [u8], at: usize, mark: [u8; 2], v: u64) -> usize
    requires { at + 10 ≤ length replies.old }
    ensures { Wrote replies.old at (mark ++ bytes_of 8 v) replies.new result }
{
    let middle = put_mark(replies, at, mark);
    put_number(replies, middle, v)
}

fn put_two(replies: &mut [u8], at: usize, mark: [u8; 2], k: u64, v: u64) -> usize
    requires { at + 18 ≤ length replies.old }
    ensures { Wrote replies.old at (mark ++ bytes_of 8 k ++ bytes_of 8 v) replies.new result }
{
    let middle = put_one(replies, at, mark, k);
    put_number(replies, middle, v)
}

// The one function that writes a reply.
pub fn put_reply(replies: &mut [u8], at: usize, reply: Reply) -> usize
    requires { at + length (encode (told reply)) ≤ length replies.old }
    ensures { Wrote replies.old at (encode (told reply)) replies.new result }
{
    match reply {
        Reply::Miss => put_mark(replies, at, *b"MI"),
        Reply::Cleared => put_mark(replies, at, *b"OK"),
        Reply::Hit(v) => put_one(replies, at, *b"HI", v.0),
        Reply::Replaced(v) => put_one(replies, at, *b"RE", v.0),
        Reply::New(n) => put_one(replies, at, *b"NW", n),
        Reply::Gone(v) => put_one(replies, at, *b"GO", v.0),
        Reply::Handed(k, v) => put_two(replies, at, *b"EX", k.0, v.0),
        Reply::FromSmall(k, v) => put_two(replies, at, *b"ES", k.0, v.0),
        Reply::FromMain(k, v) => put_two(replies, at, *b"EM", k.0, v.0),
    }
}
