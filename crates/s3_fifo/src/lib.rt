// The mapping cache's whole calls (RULES 7): creation, running requests, and requests fed in pieces, as functions of the cache's own type. They ask nothing of
// their caller: every byte that is lent is checked here, a call is turned away exactly in the cases of the table of refusals (RULES 8), and then no byte has
// changed.
#![tactic(auto)]

ghost use Rattle.std.specs.Prelude.{◌≡◌, ◌≤◌, ◌<◌, length, Ok};
ghost use Rattle.rules.specs.Sizing.{defaults_for};
ghost use Rattle.rules.specs.Refusals.{store_bytes, most_request_bytes};
ghost use Rattle.sizing.specs.Answers.{asks_of};
ghost use Rattle.carry.specs.Carries.{Brings};
ghost use Rattle.store.specs.Holds.{Held};
ghost use Rattle.s3_fifo.specs.Away.{TurnsAway};
ghost use Rattle.s3_fifo.specs.Calls.{Created, Called};
ghost use Rattle.s3_fifo.specs.Feeds.{FedAs, FinishAs};

use carry::Brought;
use rules::Turned;
use runs::Fed;
use sizing::Settings;
use store::Shape;
use wire::Stop;

// What a call whose requests are too long is turned away for: a damaged store comes first. That this is a second place to check
// from keeps the check a function of its own in what is compiled: within the loop over the requests it would take the registers
// that the loop needs (docs/SPEED.md).
fn refusal_of_long(store: &[u8], requests: &[u8]) -> Turned
    requires { (store_bytes ≤ length store.now) × (most_request_bytes < length requests.now) }
    ensures { TurnsAway store.now requests.now result }
{
    match soundness::check(store) {
        Err(turned) => turned,
        Ok(_) => Turned::LongRequests,
    }
}

// A call on a store that holds a state: what its requests are turned away for, or their run.
fn run_sound(
    store: &mut [u8],
    z: Shape,
    requests: &[u8],
    replies: &mut [u8],
) -> Result<usize, Turned>
    requires { Held z store.old × (store_bytes ≤ length store.old) × (length requests.now ≤ most_request_bytes) }
    ensures { Called store.old requests.now replies.old result store.new replies.new }
{
    let survey = wire::survey_all(requests);
    match survey.stop {
        Stop::Unknown | Stop::Cut => Err(Turned::BadRecord(survey.at as u64)),
        Stop::Whole => {
            let room = survey.room;
            if replies.len() < room {
                return Err(Turned::NoRoom(room as u64));
            }
            Ok(runs::run_from(store, z, requests, 0, replies, 0))
        }
    }
}

// A feed on a store that holds a state.
fn feed_sound(
    store: &mut [u8],
    z: Shape,
    brought: Brought,
    carry: &mut [u8],
    piece: &[u8],
    replies: &mut [u8],
) -> Result<Fed, Turned>
    requires { Held z store.old × (store_bytes ≤ length store.old) × Brings carry.old (Ok brought) }
    ensures { FedAs store.old carry.old piece.now replies.old result
        store.new carry.new replies.new }
{
    match brought {
        Brought::Stopped(at) => {
            if rules::MOST_REQUEST_BYTES < piece.len() {
                return Err(Turned::LongRequests);
            }
            Err(Turned::BadRecord(at))
        }
        Brought::Going(offset, count) => {
            if u64::MAX - offset - (count as u64) < piece.len() as u64 {
                return Err(Turned::BadCarry);
            }
            if rules::MOST_REQUEST_BYTES < piece.len() {
                return Err(Turned::LongRequests);
            }
            runs::feed_going(store, z, carry, offset, count, piece, replies)
        }
    }
}

// The cache's own type. The cache itself stands in a store that the caller lends.
#[derive(Clone, Copy)]
pub struct S3FifoCache;

impl S3FifoCache {
    pub const MAX_FREQ: u8 = rules::MAX_FREQ;

    pub const DEFAULT_SMALL_RATIO: f64 = 0.1;

    pub const DEFAULT_GHOST_RATIO: f64 = 0.9;

    // The one fixed size of a store.
    pub const STORE_BYTES: usize = 61696;

    // What a feed carries to the next.
    pub const CARRY_BYTES: usize = rules::CARRY_BYTES;

    // The version of the interface. It stands here alone: header, wrapper and programs take it from here (tools/version).
    pub const VERSION: [u8; 5] = *b"0.5.0";

    // The settings that a capacity alone stands for.
    pub fn settings(capacity: u64) -> Settings
        ensures { asks_of result ≡ defaults_for capacity }
    {
        Settings {
            capacity,
            small_ratio: S3FifoCache::DEFAULT_SMALL_RATIO,
            ghost_ratio: S3FifoCache::DEFAULT_GHOST_RATIO,
        }
    }

    // Creates a cache in the store, whatever bytes it held before.
    pub fn create(settings: Settings, store: &mut [u8]) -> Result<(), Turned>
        ensures { Created settings store.old result store.new }
    {
        let limits = sizing::size(settings)?;
        if S3FifoCache::STORE_BYTES <= store.len() {
            store::set_up(store, limits);
            Ok(())
        } else {
            Err(Turned::ShortStore)
        }
    }

    // Runs requests on the cache in the store, in order, and writes their replies. Soundness is tested once a call.
    pub fn run(store: &mut [u8], requests: &[u8], replies: &mut [u8]) -> Result<usize, Turned>
        ensures { Called store.old requests.now replies.old result store.new replies.new }
    {
        if store.len() < S3FifoCache::STORE_BYTES {
            return Err(Turned::ShortStore);
        }
        if rules::MOST_REQUEST_BYTES < requests.len() {
            return Err(refusal_of_long(store, requests));
        }
        let shape = soundness::check(store)?;
        run_sound(store, shape, requests, replies)
    }

    // Feeds a piece of a stream of requests: carries out the records that it completes, and keeps a record that it cuts for the next feed. What is
    // carried from feed to feed stands in bytes that the caller lends, all zero for a new stream.
    pub fn feed(
        store: &mut [u8],
        carry: &mut [u8],
        piece: &[u8],
        replies: &mut [u8],
    ) -> Result<Fed, Turned>
        ensures { FedAs store.old carry.old piece.now replies.old result
            store.new carry.new replies.new }
    {
        let brought = carry::read(carry);
        if store.len() < S3FifoCache::STORE_BYTES {
            return Err(Turned::ShortStore);
        }
        let z = soundness::check(store)?;
        feed_sound(store, z, brought?, carry, piece, replies)
    }

    // Whether a stream may end here: it has not stopped, and no record is cut.
    pub fn finish(carry: &[u8]) -> Result<(), Turned>
        ensures { FinishAs carry.now result }
    {
        match carry::read(carry)? {
            Brought::Going(_, 0) => Ok(()),
            Brought::Going(offset, _) | Brought::Stopped(offset) => Err(Turned::BadRecord(offset)),
        }
    }
}
