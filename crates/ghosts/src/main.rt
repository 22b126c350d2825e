// Drives the ghost list by itself (RULES 3) through what the original's `GhostList` was asked, and prints what each call gives
// back, to be compared with what the original gave back. The cache relinks a leaving pair's node, so nothing else calls `record` and `remove` by a key.
// Standard input is a run of records, a letter and a number of 8 bytes, least significant first: N and a limit, for a new list; R and a key, record; D and a
// key, remove; E, evict_lru; C, clear. A line is printed for each. At a record that is cut or has another letter, whose limit is too large, or before which
// there is no list, that is said, and the run is over.
#![tactic(auto)]

ghost use Rattle.std.specs.Prelude.{◌≤◌, ◌≡◌, IfSome, IfOk};
ghost use Rattle.rules.specs.State.{most};
ghost use Rattle.ghost_list.specs.Ghosts.{GhostsAlone};
ghost use Rattle.ghosts.specs.Operations.{wants_of, wanted_in, Opened, Taken};

use rules::GuestBlock;
use sizing::Limits;
use std::fmt;
use store::Shape;

// A letter and a number.
const RECORD_BYTES: usize = 9;

// The bytes that a list stands in, as many as a store needs.
type StoreBytes = [u8; intake::LARGE_BYTES];

// What the list can do.
#[derive(Clone, Copy)]
enum Operation {
    Record(GuestBlock),
    Remove(GuestBlock),
    Oldest,
    Clear,
}

// What a record asks for.
#[derive(Clone, Copy)]
enum Wanted {
    New(u64),
    Of(Operation),
}

// What an operation answered: a key if it dropped one, whether a key was there, or no more than that it is done.
#[derive(Clone, Copy)]
enum Answer {
    Dropped(Option<GuestBlock>),
    Was(bool),
    Cleared,
}

impl fmt::Display for Answer {
    fn fmt<W: fmt::Write>(&self, f: &mut fmt::Formatter<W>) -> fmt::Result {
        match *self {
            Answer::Dropped(Some(GuestBlock(k))) => write!(f, "dropped {k}"),
            Answer::Dropped(None) => write!(f, "nothing"),
            Answer::Was(true) => write!(f, "was there"),
            Answer::Was(false) => write!(f, "was not there"),
            Answer::Cleared => write!(f, "cleared"),
        }
    }
}

// A record at which the run is over.
#[derive(Clone, Copy)]
struct BadRecord;

impl fmt::Display for BadRecord {
    fn fmt<W: fmt::Write>(&self, f: &mut fmt::Formatter<W>) -> fmt::Result {
        write!(f, "bad record")
    }
}

// A new and empty list, which is a store whose capacity no resident takes up.
fn begin(s: &mut StoreBytes, limit: u64) -> Shape
    requires { limit ≤ most }
    ensures { Opened s.new limit result }
{
    let limits = Limits {
        capacity: 1,
        small_limit: 0,
        ghost_limit: limit,
    };
    store::set_up(s, limits);
    store::shape_of(limits)
}

// One operation on the list.
fn take(s: &mut [u8], z: Shape, o: Operation) -> Answer
    requires { GhostsAlone z s.old }
    ensures { Taken z s.old s.new o result }
{
    match o {
        Operation::Record(k) => Answer::Dropped(ghost_list::record(s, z, k)),
        Operation::Remove(k) => Answer::Was(ghost_list::remove(s, z, k)),
        Operation::Oldest => Answer::Dropped(ghost_list::evict_lru(s, z)),
        Operation::Clear => {
            ghost_list::clear(s, z);
            Answer::Cleared
        }
    }
}

// What a letter with its number asks for, if it is one of the five.
fn wanted_by(letter: u8, n: u64) -> Option<Wanted>
    ensures { result ≡ wants_of letter n }
{
    match letter {
        b'N' => Some(Wanted::New(n)),
        b'R' => Some(Wanted::Of(Operation::Record(GuestBlock(n)))),
        b'D' => Some(Wanted::Of(Operation::Remove(GuestBlock(n)))),
        b'E' => Some(Wanted::Of(Operation::Oldest)),
        b'C' => Some(Wanted::Of(Operation::Clear)),
        _ => None,
    }
}

// What a record asks for; one that is cut short asks for nothing.
fn read(bytes: &[u8]) -> Option<Wanted>
    ensures { result ≡ wanted_in bytes.now }
{
    if bytes.len() < RECORD_BYTES {
        return None;
    }
    wanted_by(cells::get::<1>(bytes, 0) as u8, cells::get::<8>(bytes, 1))
}

// A line that cannot be written is left out, and the run goes on.
fn say(rt: &impl Print, line: impl fmt::Display + Drop) {
    let _ = rt.println(line);
}

// A new list, whatever stood in the store before.
fn open(rt: &impl Print, s: &mut StoreBytes, limit: u64) -> Result<Shape, BadRecord>
    ensures { IfOk result (λ z. GhostsAlone z s.new) }
{
    if rules::MOST < limit {
        return Err(BadRecord);
    }
    let z = begin(s, limit);
    say(rt, format_args!("new {limit}"));
    Ok(z)
}

// One record, on the list if there is one: only a new one will do where there is none.
fn turn(
    rt: &impl Print,
    s: &mut StoreBytes,
    list: Option<Shape>,
    record: &[u8],
) -> Result<Shape, BadRecord>
    requires { IfSome list (λ z. GhostsAlone z s.old) }
    ensures { IfOk result (λ z. GhostsAlone z s.new) }
{
    match read(record).ok_or(BadRecord)? {
        Wanted::New(limit) => open(rt, s, limit),
        Wanted::Of(o) => {
            let z = list.ok_or(BadRecord)?;
            say(rt, take(s, z, o));
            Ok(z)
        }
    }
}

// All records, the last of which may be cut; and the list that they leave.
fn turns(rt: &impl Print, s: &mut StoreBytes, input: &[u8]) -> Result<Option<Shape>, BadRecord>
    ensures { IfOk result (λ o. IfSome o (λ z. GhostsAlone z s.new)) }
{
    let mut list = None;
    for record in input.chunks(RECORD_BYTES) {
        list = Some(turn(rt, s, list, record)?);
    }
    Ok(list)
}

fn main(rt: HostRuntime) {
    let mut store = intake::zeros::<{ intake::LARGE_BYTES }>();
    let mut input = intake::zeros::<{ intake::LARGE_BYTES }>();
    let n = intake::read_full(&mut rt.stdin(), &mut input);
    if let Err(bad) = turns(&rt, &mut store, &input[..n]) {
        say(&rt, bad);
    }
}
