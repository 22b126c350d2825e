// What the programs share to take their input in (RULES 9, RULES 10): buffers, and reading until one is full.
#![tactic(auto)]

ghost use Rattle.std.specs.Prelude.{◌≡◌, ◌≤◌, ◌<◌, length, take, IfOk, IfErr};
ghost use Rattle.std.specs.Io.KnownBytes.{Consumes, IsAtEnd};

use std::io::Read;

// Enough for an argument.
pub const ARGUMENT_BYTES: usize = 4096;

// Enough for a store, for requests or for replies.
pub const LARGE_BYTES: usize = 65536;

// Before a read failed so many bytes had come.
#[derive(Clone, Copy)]
pub struct Cut(pub usize);

// Zeros, of which the contract gives the number alone, so that no proof has to write them out.
pub fn zeros<const N: usize>() -> [u8; N]
    ensures { N ≡ length result }
{
    [0; N]
}

// Reads until buf is full, the input ends or a read fails, and says how many bytes came: they stand at the start of buf.
pub fn try_read_full<R: Read>(from: &mut R, buf: &mut [u8]) -> Result<usize, Cut>
    ensures upper_bound { IfOk result (λ n. n ≤ length buf.new) }
    ensures cut { IfErr result (λ c. c.0 ≤ length buf.new) }
    ensures bytes { IfOk result (λ n. Consumes (R.remaining from.old) (R.remaining from.new) (take n buf.new)) }
    ensures end { IfOk result (λ n. n < length buf.new → IsAtEnd (R.remaining from.new)) }
    ensures bytes_cut { IfErr result (λ c. Consumes (R.remaining from.old) (R.remaining from.new) (take c.0 buf.new)) }
{
    let mut done = 0;
    // What a read brings is not known before, so there is no range to go over.
    while done < buf.len() {
        match from.read(&mut buf[done..]) {
            Ok(0) => return Ok(done),
            Ok(n) => done += n,
            Err(_) => return Err(Cut(done)),
        }
    }
    Ok(done)
}

// The same, where a read that fails counts as the end: how many bytes came.
pub fn read_full<R: Read>(from: &mut R, buf: &mut [u8]) -> usize
    ensures upper_bound { result ≤ length buf.new }
    ensures bytes { Consumes (R.remaining from.old) (R.remaining from.new) (take result buf.new) }
{
    match try_read_full(from, buf) {
        Ok(n) => n,
        Err(Cut(n)) => n,
    }
}
