// The replay program (RULES 9): settings and requests from standard input, replies or one NO record to standard output, in binary.
// What it writes for what it has read is one function over slices with its contract, `reply_within`; the rest reads and writes.
#![tactic(auto)]

ghost use Rattle.std.specs.Prelude.{◌≡◌, ◌≤◌, length, drop, IfOk, IfSome};
ghost use Rattle.rules.specs.Refusals.{store_bytes};
ghost use Rattle.rules.specs.Sizing.{settings_bytes, settings_of};
ghost use Rattle.rules.specs.Verdict.{on_asked};
ghost use Rattle.sizing.specs.Answers.{asks_of};
ghost use Rattle.wire.specs.Wire.{Wrote};
ghost use Rattle.s3_fifo.specs.Calls.{ran_says};
ghost use Rattle.replay.specs.Output.{no_record, no_bytes, output_for};
ghost use Rattle.replay.specs.Output.{ReplyAs, most_input, reply_room, written_for};
ghost use Rattle.rules.specs.Refusals.{number_of, detail_of};

use intake::Cut;
use rules::Turned;
use s3_fifo::S3FifoCache;
use sizing::Settings;
use std::env::{Env, FillError};
use std::io;

// The settings, the most request bytes of a call, and one byte more, so that more than that shows.
const MOST_INPUT_BYTES: usize = 32795;

// The mark of a refusal.
const NO: [u8; 2] = *b"NO";

// The mark, the number in one byte, and the detail in 8.
const NO_BYTES: usize = 11;

// Writes the record of a refusal.
fn put_refusal(out: &mut [u8], turned: Turned) -> usize
    requires { no_bytes ≤ length out.old }
    ensures { Wrote out.old 0 (no_record (number_of turned) (detail_of turned)) out.new result }
{
    cells::copy(&NO, out);
    cells::put::<1>(out, 2, turned.number() as u64);
    cells::put::<8>(out, 3, turned.detail());
    NO_BYTES
}

// Creates a cache in the store, and runs all requests on it as one call: the replies stand at the start of what was lent for them.
fn run_on(
    store: &mut [u8],
    settings: Settings,
    requests: &[u8],
    replies: &mut [u8],
) -> Result<usize, Turned>
    requires { store_bytes ≡ length store.old }
    ensures { ReplyAs (on_asked (asks_of settings) requests.now (length replies.old)) (ran_says result) replies.old replies.new }
{
    S3FifoCache::create(settings, store)?;
    S3FifoCache::run(store, requests, replies)
}

// The same, for settings and requests as they stand in an input.
fn run_asked(input: &[u8], replies: &mut [u8]) -> Result<usize, Turned>
    ensures { ReplyAs (on_asked (settings_of input.now) (drop settings_bytes input.now) (length replies.old)) (ran_says result) replies.old replies.new }
{
    let Some(settings) = sizing::read_settings(input) else {
        return Err(Turned::BadRecord(0));
    };
    let mut store = intake::zeros::<{ S3FifoCache::STORE_BYTES }>();
    run_on(
        &mut store,
        settings,
        &input[sizing::SETTINGS_BYTES..],
        replies,
    )
}

// The output for an input: it stands at the start of the replies, and the result is how many bytes it has.
fn reply_to(input: &[u8], replies: &mut [u8]) -> usize
    requires { no_bytes ≤ length replies.old }
    ensures { Wrote replies.old 0 (output_for input.now (length replies.old)) replies.new result }
{
    match run_asked(input, replies) {
        Ok(n) => n,
        Err(turned) => put_refusal(replies, turned),
    }
}

// What the program writes for what it has read.
fn reply_within(input: &[u8], replies: &mut [u8]) -> usize
    requires { (length input.now ≤ most_input) × (reply_room ≡ length replies.old) }
    ensures wrote { Wrote replies.old 0 (written_for input.now) replies.new result }
    ensures upper_bound { result ≤ length replies.new }
{
    reply_to(input, replies)
}

// Reads as much of the input as the program looks at, and answers it: what it writes, where it is known what the reader gives, is what stands in
// `written_for` of all of that. A read that fails is no end, and nothing is answered.
fn reply_read<S: io::Read>(from: &mut S, replies: &mut [u8]) -> Result<usize, Cut>
    requires { reply_room ≡ length replies.old }
    ensures wrote { IfOk result (λ n. IfSome (S.remaining from.old) (λ xs. Wrote replies.old 0 (written_for xs) replies.new n)) }
    ensures upper_bound { IfOk result (λ n. n ≤ length replies.new) }
{
    let mut input = intake::zeros::<MOST_INPUT_BYTES>();
    let n = intake::try_read_full(from, &mut input)?;
    Ok(reply_within(&input[..n], replies))
}

fn put<R: Print + Eprint>(rt: &R, bytes: &[u8]) {
    if rt.write_all(bytes).is_err() {
        let _ = eprintln!(rt; "replay: cannot write standard output");
    }
}

// All of the input, answered on standard output.
fn replay<S: io::Read, R: Print + Eprint>(from: &mut S, rt: &R) {
    let mut replies = intake::zeros::<{ intake::LARGE_BYTES }>();
    match reply_read(from, &mut replies) {
        Ok(n) => put(rt, &replies[..n]),
        Err(_) => {
            let _ = eprintln!(rt; "replay: cannot read standard input");
        }
    }
}

// The one argument that the program knows asks for its version.
fn tell<R: Print + Eprint>(rt: &R, argument: &[u8]) {
    if cells::same(argument, b"--version") {
        let _ = rt.write_all(b"mapcache-replay ");
        let _ = rt.write_all(&S3FifoCache::VERSION);
        let _ = rt.write_all(b"\n");
    } else {
        let _ = eprintln!(rt;
            "replay: it reads standard input and writes standard output; its only argument is --version"
        );
    }
}

fn main(rt: HostRuntime) {
    // A longer argument is none that the program knows.
    let mut argument = intake::zeros::<{ intake::ARGUMENT_BYTES }>();
    match rt.arg(1, &mut argument) {
        Ok(n) => tell(&rt, &argument[..n]),
        Err(FillError::TooLong) => tell(&rt, b""),
        Err(FillError::NotPresent) => replay(&mut rt.stdin(), &rt),
    }
}
