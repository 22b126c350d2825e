// The numbers that the cache's own type and the crates below it fix, a name and a value to a line, ratios by the bits of the double. Header, wrapper and
// tools are compared with what this prints (`make constants`), so that each number stands once in the proved code. The version is not among them: it would
// stand a second time, in what this is to print.
#![tactic(auto)]

use s3_fifo::S3FifoCache;
use std::io;

// A line with a number.
fn line(rt: &impl Print, name: &str, value: u64) -> io::Result<()> {
    println!(rt; "{name} {value}")
}

// A line with a ratio, by its bits. A NaN has no bits that mean anything, and none stands here: it would be a line too few.
fn ratio(rt: &impl Print, name: &str, value: f64) -> io::Result<()> {
    if value.is_nan() {
        return Ok(());
    }
    line(rt, name, value.to_bits())
}

fn main(rt: HostRuntime) -> io::Result<()> {
    line(&rt, "max_freq", S3FifoCache::MAX_FREQ as u64)?;
    ratio(&rt, "default_small_ratio", S3FifoCache::DEFAULT_SMALL_RATIO)?;
    ratio(&rt, "default_ghost_ratio", S3FifoCache::DEFAULT_GHOST_RATIO)?;
    line(&rt, "store_bytes", S3FifoCache::STORE_BYTES as u64)?;
    line(&rt, "most", rules::MOST)?;
    line(&rt, "most_request_bytes", rules::MOST_REQUEST_BYTES as u64)?;
    line(&rt, "carry_bytes", S3FifoCache::CARRY_BYTES as u64)?;
    line(&rt, "settings_bytes", sizing::SETTINGS_BYTES as u64)?;
    let settings = S3FifoCache::settings(100);
    line(&rt, "settings_capacity", settings.capacity)?;
    ratio(&rt, "settings_small_ratio", settings.small_ratio)?;
    ratio(&rt, "settings_ghost_ratio", settings.ghost_ratio)
}
