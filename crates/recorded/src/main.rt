// Recorded runs (RULES 8, RULES 10): replays files of recorded calls over the library, and says of each file how
// many gave what is written there. The last argument names a file of steps, those before it files of cases.
// A case: lengths of input and output, 4 bytes each; the input, which is settings and requests; the output, which is their replies on a fresh store.
// A step: what `Step` has, in 32 bytes; input; output. All steps of a file work on one store.
#![tactic(auto)]

ghost use Rattle.std.specs.Prelude.{◌≡◌, ◌≤◌, ◌==◌, length, replicate, IfOk, IfSome};
ghost use Rattle.std.specs.List.{list_all};
ghost use Rattle.cells.specs.Decides.{Decides};
ghost use Rattle.s3_fifo.specs.Calls.{ran_says};
ghost use Rattle.recorded.specs.Told.{told_of};
ghost use Rattle.recorded.specs.Compared.{unwritten, SameFrom, WroteOnly, bytes_kept_from, AnsweredAs, CreatedAsWritten, RanAsWritten, CaseAsWritten};
ghost use Rattle.recorded.specs.Fresh.{Accepted};
ghost use Rattle.recorded.specs.Steps.{CreatedIn, RanIn, Laid, step_of, more_of, counted_as};
ghost use Rattle.recorded.specs.Steps.{NextStep, NextCase, TurnTaken};
ghost use Rattle.recorded.specs.Steps.{Prepared, CreateStepped, CallStepped, RunStepped, Stepped, StepWent, CaseRun, CaseWent};

use rules::Turned;
use s3_fifo::S3FifoCache;
use sizing::Settings;
use std::env::{Env, FillError};
use std::rt::Files;
use std::{fmt, fs, io};

// What stands in the reply buffer before a call, so that untouched bytes can be told.
const UNTOUCHED: u8 = 165;

// The file is cut short, or has a case or step that is too long for the buffers.
#[derive(Clone, Copy)]
struct Broken;

// An answer as the files have it: the refusal's number and detail, or 0, 0 and the number of reply bytes.
#[derive(Clone, Copy, PartialEq, Eq)]
struct Told {
    number: u32,
    detail: u64,
    count: usize,
}

// What a step does.
#[derive(Clone, Copy)]
enum Act {
    Fill,
    Lay,
    Create,
    Run,
}

// No step has this kind.
#[derive(Clone, Copy)]
struct NoAct;

// A step. One that fills makes all bytes of the store the byte `number`; one that lays puts the input into it at `room`; one that creates does so with the
// settings in the input; one that runs takes the input's requests, with `room` bytes for replies. A call is lent the first `store` bytes, and must answer
// `number`, `detail` and the output.
#[derive(Clone, Copy)]
struct Step {
    kind: Option<Act>,
    store: usize,
    room: usize,
    number: u32,
    input: usize,
    output: usize,
    detail: u64,
}

// What the cases or steps so far gave.
#[derive(Clone, Copy)]
struct Tally {
    taken: u64,
    differ: u64,
}

// What a case or step has in the file behind its head.
#[derive(Drop)]
struct Part {
    input: [u8; intake::LARGE_BYTES],
    output: [u8; intake::LARGE_BYTES],
}

// What calls work on: the store, what it was before a call, and the bytes for replies.
#[derive(Drop)]
struct Bench {
    store: [u8; intake::LARGE_BYTES],
    before: [u8; intake::LARGE_BYTES],
    out: [u8; intake::LARGE_BYTES],
}

// An answer of the library; a creation's has no reply bytes.
impl From<Result<usize, Turned>> for Told {
    ghost from_gives = { λ answer r. r ≡ told_of (ran_says answer) };

    fn from(answer: Result<usize, Turned>) -> Told {
        match answer {
            Ok(count) => Told {
                number: 0,
                detail: 0,
                count,
            },
            Err(why) => Told {
                number: why.number() as u32,
                detail: why.detail(),
                count: 0,
            },
        }
    }
}

// Reads exactly n bytes to the start of buf: a file that has fewer, or wants more than buf has, is broken.
fn read_part<R: io::Read>(from: &mut R, buf: &mut [u8], n: usize) -> Result<(), Broken>
    ensures { IfOk result (λ x. n ≤ length buf.new) }
{
    if buf.len() < n || intake::read_full(from, &mut buf[..n]) < n {
        return Err(Broken);
    }
    Ok(())
}

// Reads the next N bytes of a file, if it does not end before them.
fn read_head<const N: usize, R: io::Read>(from: &mut R) -> Result<Option<[u8; N]>, Broken>
    ensures { IfOk result (λ o. IfSome o (λ h. length h ≡ N)) }
{
    let mut head = intake::zeros::<N>();
    let got = intake::read_full(from, &mut head);
    if got == 0 {
        return Ok(None);
    }
    if got < N {
        return Err(Broken);
    }
    Ok(Some(head))
}

// Whether a and b are the same from a place on: both must reach to it, since a slice can be cut no further.
fn same_from(a: &[u8], b: &[u8], from: usize) -> bool
    ensures { Decides (SameFrom a.now b.now from) result }
{
    from <= a.len() && from <= b.len() && cells::same(&a[from..], &b[from..])
}

// Whether all bytes of s are one byte.
fn all_are(s: &[u8], byte: u8) -> bool
    ensures { result ≡ list_all (λ b. b == byte) s.now }
{
    for i in 0..s.len() {
        if s[i] != byte {
            return false;
        }
    }
    true
}

// Whether out starts with all of wanted, and the rest of it is untouched.
fn wrote_only(out: &[u8], wanted: &[u8]) -> bool
    ensures { Decides (WroteOnly out.now wanted.now) result }
{
    let n = wanted.len();
    n <= out.len() && cells::same(&out[..n], wanted) && all_are(&out[n..], UNTOUCHED)
}

// Makes all bytes for replies untouched.
fn clear(out: &mut [u8])
    ensures { out.new ≡ replicate (length out.old) unwritten }
{
    out.fill(UNTOUCHED);
}

// From where on the store must be as before: all of it after a refusal, otherwise what stands behind the bytes that a cache needs.
fn kept_from(t: Told) -> usize
    ensures { result ≡ bytes_kept_from t }
{
    if t.number == 0 {
        S3FifoCache::STORE_BYTES
    } else {
        0
    }
}

// Creates in the first n bytes of the store: it lends those alone, and tells the answer.
fn create_in(store: &mut [u8], n: usize, settings: Settings) -> Told
    requires { n ≤ length store.old }
    ensures { CreatedIn n settings store.old result store.new }
{
    Told::from(S3FifoCache::create(settings, &mut store[..n]).map(|()| 0))
}

// Runs on the first n bytes of the store, with the first m bytes for replies: it lends those alone, and tells the answer.
fn run_in(store: &mut [u8], n: usize, requests: &[u8], out: &mut [u8], m: usize) -> Told
    requires { (n ≤ length store.old) × (m ≤ length out.old) }
    ensures { RanIn n m store.old requests.now out.old result store.new out.new }
{
    Told::from(S3FifoCache::run(&mut store[..n], requests, &mut out[..m]))
}

// Lays bytes into the store at a place, and answers whether they fit.
fn lay(store: &mut [u8], at: usize, piece: &[u8]) -> bool
    ensures { Laid at piece.now store.old store.new result }
{
    if store.len() < at || store.len() - at < piece.len() {
        return false;
    }
    cells::copy(piece, &mut store[at..]);
    true
}

// Whether a creation answers the number, and keeps of the store what it should: it compares the number, and the store from where it is kept.
fn created_as(number: u32, t: Told, before: &[u8], store: &[u8]) -> bool
    ensures { Decides (CreatedAsWritten number t before.now store.now) result }
{
    t.number == number && same_from(before, store, kept_from(t))
}

// Whether a call answers the number, the detail and so many bytes.
fn answered(number: u32, detail: u64, count: usize, t: Told) -> bool
    ensures { Decides (AnsweredAs number detail count t) result }
{
    t == Told {
        number,
        detail,
        count,
    }
}

// Whether it also writes the output and nothing else, and keeps of the store what it should: it compares all of the answer, all bytes for replies, and
// the store from where it is kept.
fn ran_as(s: Step, output: &[u8], t: Told, out: &[u8], before: &[u8], store: &[u8]) -> bool
    ensures { Decides (RanAsWritten s output.now t out.now before.now store.now) result }
{
    answered(s.number, s.detail, output.len(), t)
        && wrote_only(out, output)
        && same_from(before, store, kept_from(t))
}

// Whether a case's call answers that all went well, and writes the output and nothing else: it compares the answer and all bytes for replies.
fn case_as(output: &[u8], t: Told, out: &[u8]) -> bool
    ensures { Decides (CaseAsWritten output.now t out.now) result }
{
    answered(0, 0, output.len(), t) && wrote_only(out, output)
}

impl Bench {
    // A creation, and whether it answers and keeps what it should.
    fn create_step(&mut self, s: Step, input: &[u8]) -> bool
        ensures { CreateStepped s input.now self.old.store result self.new.store }
    {
        if self.store.len() < s.store {
            return false;
        }
        cells::copy(&self.store, &mut self.before);
        match sizing::read_settings(input) {
            None => false,
            Some(settings) => {
                let t = create_in(&mut self.store, s.store, settings);
                created_as(s.number, t, &self.before, &self.store)
            }
        }
    }

    // Keeps the store as it is before a call, and makes all bytes for the replies untouched.
    fn prepare(&mut self)
        ensures { Prepared self.old.store (length self.old.out) self.new.before self.new.out × (self.new.store ≡ self.old.store) }
    {
        cells::copy(&self.store, &mut self.before);
        clear(&mut self.out);
    }

    // A call, and whether it answers, writes and keeps what it should.
    fn call_step(&mut self, s: Step, input: &[u8], output: &[u8]) -> bool
        requires { (s.store ≤ length self.old.store) × (s.room ≤ length self.old.out) }
        ensures { CallStepped s input.now output.now self.old.before self.old.store self.old.out result self.new.store }
    {
        let t = run_in(&mut self.store, s.store, input, &mut self.out, s.room);
        ran_as(s, output, t, &self.out, &self.before, &self.store)
    }

    // The same as a step, which may ask for more than there is.
    fn run_step(&mut self, s: Step, input: &[u8], output: &[u8]) -> bool
        ensures { RunStepped s input.now output.now self.old.store (length self.old.out) result self.new.store }
    {
        if self.store.len() < s.store || self.out.len() < s.room {
            return false;
        }
        self.prepare();
        self.call_step(s, input, output)
    }

    // One step, and whether it went as written.
    fn take_step(&mut self, s: Step, input: &[u8], output: &[u8]) -> bool
        ensures { Stepped s input.now output.now self.old.store (length self.old.out) result self.new.store }
    {
        match s.kind {
            Some(Act::Fill) => {
                self.store.fill((s.number % 256) as u8);
                true
            }
            Some(Act::Lay) => lay(&mut self.store, s.room, input),
            Some(Act::Create) => self.create_step(s, input),
            Some(Act::Run) => self.run_step(s, input, output),
            None => false,
        }
    }

    // The requests behind the settings, on the store that they made.
    fn run_case(&mut self, requests: &[u8], output: &[u8]) -> bool
        ensures { CaseRun requests.now output.now self.old.store (length self.old.out) result }
    {
        clear(&mut self.out);
        let room = self.out.len();
        let t = run_in(
            &mut self.store,
            S3FifoCache::STORE_BYTES,
            requests,
            &mut self.out,
            room,
        );
        case_as(output, t, &self.out)
    }

    // One case: settings and requests on a fresh store.
    fn take_case(&mut self, input: &[u8], output: &[u8]) -> bool
        ensures { Decides (Accepted input.now (length self.old.out) output.now) result }
    {
        if input.len() < sizing::SETTINGS_BYTES {
            return false;
        }
        match sizing::read_settings(input) {
            None => false,
            Some(settings) => {
                let made = create_in(&mut self.store, S3FifoCache::STORE_BYTES, settings);
                if made.number != 0 {
                    return false;
                }
                self.run_case(&input[sizing::SETTINGS_BYTES..], output)
            }
        }
    }
}

impl TryFrom<u32> for Act {
    type Error = NoAct;

    ghost use Rattle.std.specs.Result.{result_ok};
    ghost use Rattle.recorded.specs.Steps.{act_of};

    ghost try_from_gives = { λ n r. result_ok r ≡ act_of n };

    fn try_from(n: u32) -> Result<Act, NoAct> {
        match n {
            0 => Ok(Act::Fill),
            1 => Ok(Act::Lay),
            2 => Ok(Act::Create),
            3 => Ok(Act::Run),
            _ => Err(NoAct),
        }
    }
}

// The step that 32 bytes hold.
fn step_of(head: &[u8]) -> Step
    requires { 32 ≤ length head.now }
    ensures { result ≡ step_of head.now }
{
    Step {
        kind: Act::try_from(cells::get::<4>(head, 0) as u32).ok(),
        store: cells::get::<4>(head, 4) as usize,
        room: cells::get::<4>(head, 8) as usize,
        number: cells::get::<4>(head, 12) as u32,
        input: cells::get::<4>(head, 16) as usize,
        output: cells::get::<4>(head, 20) as usize,
        detail: cells::get::<8>(head, 24),
    }
}

// There is no heap, so the buffers are as long for every case or step, and how much of them one has are numbers from its head: `step_with` and
// `case_with` make slices of these, and what they call takes slices alone.
impl Part {
    // Reads n bytes of input, and after them m bytes of output.
    fn read<R: io::Read>(&mut self, from: &mut R, n: usize, m: usize) -> Result<(), Broken>
        ensures { IfOk result (λ x. (n ≤ length self.new.input) × (m ≤ length self.new.output)) }
    {
        read_part(from, &mut self.input, n)?;
        read_part(from, &mut self.output, m)
    }

    // Takes the step s with the first bytes of input and output.
    fn step_with(&self, bench: &mut Bench, s: Step) -> bool
        requires { (s.input ≤ length self.now.input) × (s.output ≤ length self.now.output) }
        ensures { StepWent s self.now.input self.now.output bench.old.store (length bench.old.out) result bench.new.store }
    {
        bench.take_step(s, &self.input[..s.input], &self.output[..s.output])
    }

    // Takes the case that is the first n bytes of input and the first m of output.
    fn case_with(&self, bench: &mut Bench, n: usize, m: usize) -> bool
        requires { (n ≤ length self.now.input) × (m ≤ length self.now.output) }
        ensures { CaseWent n m self.now.input self.now.output (length bench.old.out) result }
    {
        bench.take_case(&self.input[..n], &self.output[..m])
    }
}

// What a file is a run of: one after another is read and taken, and answers whether it went as written. Nothing comes at the end of the file.
trait Takes {
    ghost use Rattle.std.specs.Prelude.{List, ℕ, Bool, Option, Result};
    ghost use Rattle.recorded.specs.declared.Broken.{Broken};

    ghost goes: { List ℕ → List ℕ → List ℕ → ℕ → Result (Option Bool) Broken → List ℕ → Type 0 };

    fn next<R: io::Read>(
        from: &mut R,
        part: &mut Part,
        bench: &mut Bench,
    ) -> Result<Option<bool>, Broken>
        ensures { goes part.new.input part.new.output bench.old.store (length bench.old.out) result bench.new.store };
}

// The steps of a file, which all work on one store.
struct StepTaker;

impl Takes for StepTaker {
    ghost goes = { NextStep };

    fn next<R: io::Read>(
        from: &mut R,
        part: &mut Part,
        bench: &mut Bench,
    ) -> Result<Option<bool>, Broken> {
        let Some(head) = read_head::<32, R>(from)? else {
            return Ok(None);
        };
        let s = step_of(&head);
        part.read(from, s.input, s.output)?;
        Ok(Some(part.step_with(bench, s)))
    }
}

// The cases of a file, each on a fresh store.
struct CaseTaker;

impl Takes for CaseTaker {
    ghost goes = { λ input output store room r store'. NextCase input output room r };

    fn next<R: io::Read>(
        from: &mut R,
        part: &mut Part,
        bench: &mut Bench,
    ) -> Result<Option<bool>, Broken> {
        let Some(head) = read_head::<8, R>(from)? else {
            return Ok(None);
        };
        let n = cells::get::<4>(&head, 0) as usize;
        let m = cells::get::<4>(&head, 4) as usize;
        part.read(from, n, m)?;
        Ok(Some(part.case_with(bench, n, m)))
    }
}

// One more, as far as there are numbers.
fn more(n: u64) -> u64
    ensures { result ≡ more_of n }
{
    n.saturating_add(1)
}

impl Tally {
    // The tally after one more.
    fn counted(self, well: bool) -> Tally
        ensures { result ≡ counted_as self well }
    {
        Tally {
            taken: more(self.taken),
            differ: if well { self.differ } else { more(self.differ) },
        }
    }
}

impl fmt::Display for Tally {
    fn fmt<W: fmt::Write>(&self, f: &mut fmt::Formatter<W>) -> fmt::Result {
        let Tally { taken, differ } = *self;
        write!(f, "{taken} replayed, {differ} differ")
    }
}

// One more case or step, and the tally after it.
fn turn<T: Takes, R: io::Read>(
    from: &mut R,
    t: Tally,
    part: &mut Part,
    bench: &mut Bench,
) -> Result<Option<Tally>, Broken>
    ensures { TurnTaken T.goes t part.new.input part.new.output bench.old.store (length bench.old.out) result bench.new.store }
{
    Ok(T::next(from, part, bench)?.map(|well| t.counted(well)))
}

// All of a file; what does not agree is named, by its number in the file from 1 on, as soon as it is met. Nothing says that a file ends, so the turns have
// numbers too, of which no run comes to the last.
fn replay<T: Takes, P: Print, R: io::Read>(rt: &P, from: &mut R) -> io::Result<()> {
    let mut part = Part {
        input: intake::zeros(),
        output: intake::zeros(),
    };
    let mut bench = Bench {
        store: intake::zeros(),
        before: intake::zeros(),
        out: intake::zeros(),
    };
    let mut t = Tally {
        taken: 0,
        differ: 0,
    };
    for _ in 0..u64::MAX {
        match turn::<T, R>(from, t, &mut part, &mut bench) {
            Ok(Some(next)) => {
                if next.differ != t.differ {
                    let number = next.taken;
                    println!(rt; "not as recorded: number {number}")?;
                }
                t = next;
            }
            Ok(None) => break,
            Err(Broken) => return println!(rt; "{t}, and the file is broken"),
        }
    }
    println!(rt; "{t}")
}

// Replays the file of this name. One that is no text cannot be opened.
fn replay_named<T: Takes, R: Files + Print>(rt: &R, path: &[u8]) -> io::Result<()> {
    match str::from_utf8(path) {
        Ok(name) => replay_opened::<T, R, _>(rt, fs::open(rt, name)),
        Err(_) => println!(rt; ": cannot be opened"),
    }
}

// Replays a file, if it could be opened.
fn replay_opened<T: Takes, P: Print, R: io::Read + Drop>(
    rt: &P,
    opened: io::Result<R>,
) -> io::Result<()> {
    match opened {
        Ok(mut file) => {
            print!(rt; ": ")?;
            replay::<T, P, R>(rt, &mut file)
        }
        Err(_) => println!(rt; ": cannot be opened"),
    }
}

// The bytes of argument i, at the start of buf, and how many they are: none where it is too long. Nothing where there is no such argument.
fn argument<R: Env>(rt: &R, i: usize, buf: &mut [u8]) -> Option<usize>
    ensures { IfSome result (λ n. n ≤ length buf.new) }
{
    match rt.arg(i, buf) {
        Ok(n) => Some(n),
        Err(FillError::TooLong) => Some(0),
        Err(FillError::NotPresent) => None,
    }
}

// Whether there is an argument i.
fn has_argument<R: Env>(rt: &R, i: usize) -> bool {
    let mut buf = intake::zeros::<{ intake::ARGUMENT_BYTES }>();
    argument(rt, i, &mut buf).is_some()
}

// Replays the file that argument i names.
fn replay_arg<T: Takes, R: Files + Print + Env>(rt: &R, i: usize) -> io::Result<()> {
    let mut path = intake::zeros::<{ intake::ARGUMENT_BYTES }>();
    let n = argument(rt, i, &mut path).unwrap_or(0);
    rt.write_all(&path[..n])?;
    replay_named::<T, R>(rt, &path[..n])
}

// The last argument names a file of steps, and those before it files of cases.
fn main(rt: HostRuntime) -> io::Result<()> {
    for i in 1..usize::MAX {
        if !has_argument(&rt, i) {
            break;
        }
        if has_argument(&rt, i + 1) {
            replay_arg::<CaseTaker, HostRuntime>(&rt, i)?;
        } else {
            replay_arg::<StepTaker, HostRuntime>(&rt, i)?;
        }
    }
    Ok(())
}
