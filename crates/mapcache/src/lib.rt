// The library that hosts link (RULES 7): the cache's calls for C. A slice is a pointer and a length; an answer is one number,
// the reply bytes or minus the refusal's number, and the refusal's detail goes out beside it. Each function states what the call below it states.
#![tactic(auto)]

ghost use Rattle.std.specs.Prelude.{◌≡◌, pos, neg_ℤ};
ghost use Rattle.rules.specs.Refusals.{store_bytes};
ghost use Rattle.s3_fifo.specs.Calls.{created_says, ran_says};
ghost use Rattle.s3_fifo.specs.Feeds.{fed_says, replies_in};
ghost use Rattle.mapcache.specs.Codes.{code_of, detail_in, FitsIn, as_told, CreatedAs, CalledAs, FedWith, FinishedWith};

use rules::Turned;
use runs::Fed;
use s3_fifo::S3FifoCache;
use sizing::Settings;

// A refusal's number with a minus sign: the answer of a call for C is one signed number.
fn minus(number: u8) -> i64
    ensures { result ≡ neg_ℤ (pos number) }
{
    -(number as i64)
}

// The number that stands for an answer.
fn code(answer: Result<usize, Turned>) -> i64
    requires { FitsIn (ran_says answer) }
    ensures { result ≡ code_of (ran_says answer) }
{
    match answer {
        Ok(n) => n as i64,
        Err(turned) => minus(turned.number()),
    }
}

// The detail that goes with it.
fn detail_of(answer: Result<usize, Turned>) -> u64
    ensures { result ≡ detail_in (ran_says answer) }
{
    match answer {
        Ok(_) => 0,
        Err(turned) => turned.detail(),
    }
}

// The answer of a creation or a finish, which write no replies.
fn without_replies(answer: Result<(), Turned>) -> Result<usize, Turned>
    ensures { ran_says result ≡ created_says answer }
{
    answer.map(|()| 0)
}

// The answer of a feed, where a stream that stops is told as a bad record.
fn with_stops(answer: Result<Fed, Turned>) -> Result<usize, Turned>
    ensures { ran_says result ≡ as_told (fed_says answer) }
{
    match answer? {
        Fed::Done(n) => Ok(n),
        Fed::Stopped(_, at) => Err(Turned::BadRecord(at)),
    }
}

// A feed's reply bytes, which count also where the stream stops.
fn fed_replies(answer: Result<Fed, Turned>) -> u64
    ensures { result ≡ replies_in (fed_says answer) }
{
    match answer {
        Ok(Fed::Done(n) | Fed::Stopped(n, _)) => n as u64,
        Err(_) => 0,
    }
}

// The bytes that a store needs.
#[unsafe(no_mangle)]
pub extern "C" fn mapcache_store_bytes() -> u64
    ensures { result ≡ store_bytes }
{
    S3FifoCache::STORE_BYTES as u64
}

#[unsafe(no_mangle)]
pub extern "C" fn mapcache_create(
    capacity: u64,
    small_ratio: f64,
    ghost_ratio: f64,
    store: &mut [u8],
) -> i64
    ensures { CreatedAs capacity small_ratio ghost_ratio store.old result store.new }
{
    let settings = Settings {
        capacity,
        small_ratio,
        ghost_ratio,
    };
    code(without_replies(S3FifoCache::create(settings, store)))
}

#[unsafe(no_mangle)]
pub extern "C" fn mapcache_run(
    store: &mut [u8],
    requests: &[u8],
    replies: &mut [u8],
    detail: &mut u64,
) -> i64
    ensures { CalledAs store.old requests.now replies.old result detail.new
        store.new replies.new }
{
    let ran = S3FifoCache::run(store, requests, replies);
    *detail = detail_of(ran);
    code(ran)
}

#[unsafe(no_mangle)]
pub extern "C" fn mapcache_feed(
    store: &mut [u8],
    carry: &mut [u8],
    piece: &[u8],
    replies: &mut [u8],
    replied: &mut u64,
    detail: &mut u64,
) -> i64
    ensures { FedWith store.old carry.old piece.now replies.old result replied.new detail.new
        store.new carry.new replies.new }
{
    let fed = S3FifoCache::feed(store, carry, piece, replies);
    *replied = fed_replies(fed);
    let told = with_stops(fed);
    *detail = detail_of(told);
    code(told)
}

#[unsafe(no_mangle)]
pub extern "C" fn mapcache_finish(carry: &[u8], detail: &mut u64) -> i64
    ensures { FinishedWith carry.now result detail.new }
{
    let finish = without_replies(S3FifoCache::finish(carry));
    *detail = detail_of(finish);
    code(finish)
}
