// Sizing: from settings to the limits of the queues, or to a refusal with its number; and settings read
// from the bytes of CF. It serves RULES 2, and of RULES 8 the refusals 1 to 5; CF is in RULES 9.
#![tactic(auto)]

ghost use Rattle.std.specs.Prelude.{◌≡◌, not, ◌≤◌, ◌<◌, ◌+◌, ◌^◌, length, T};
ghost use Rattle.std.specs.Float.Ieee.{is_nan, of_bits};
ghost use Rattle.std.specs.Float.{binary64};
ghost use Rattle.rules.specs.State.{most};
ghost use Rattle.rules.specs.Sizing.{is_bad_ratio, product, settings_at, settings_of};
ghost use Rattle.sizing.specs.Answers.{sized_of, sizing_of, asks_of, asked_of};
ghost use Rattle.sizing.specs.Cut.{Factors, cut};

use rules::Turned;

// The mark of a settings record, and its bytes, mark and all.
const CF: [u8; 2] = *b"CF";

pub const SETTINGS_BYTES: usize = 26;

// The settings, one record: a capacity and two ratios.
#[derive(Clone, Copy)]
pub struct Settings {
    pub capacity: u64,
    pub small_ratio: f64,
    pub ghost_ratio: f64,
}

// What the settings come to.
#[derive(Clone, Copy)]
pub struct Limits {
    pub capacity: u64,
    pub small_limit: u64,
    pub ghost_limit: u64,
}

// Whether x is no ratio: a NaN, an infinity, or below zero. -0.0 is not below 0.0, and a NaN is below nothing,
// the infinity 1.0 / 0.0 included. It only compares: `is_finite` takes x from itself, which for an infinity is an invalid operation,
// and a host may have those trapped.
fn bad_ratio(x: f64) -> bool
    ensures { result ≡ is_bad_ratio x }
{
    x < 0.0 || !(x < 1.0 / 0.0)
}

// The whole number nearest to the size of x, halves up, worked out from the bits. It is cut off at 2^52.
fn round_half_up(x: f64) -> u64
    requires { T (not (is_nan x)) }
    ensures { result ≡ cut x }
{
    let bits = f64::to_bits(x);
    let field = bits % 0x8000_0000_0000_0000 / 0x10_0000_0000_0000;
    if field < 1022 {
        return 0;
    }
    if 1074 < field {
        return 0x10_0000_0000_0000;
    }
    let digits = 0x10_0000_0000_0000 + bits % 0x10_0000_0000_0000;
    ((digits >> (1074 - field)) + 1) / 2
}

// Capacity times a ratio, rounded once, and taken to the nearest whole number.
fn limit(capacity: u64, ratio: f64) -> u64
    requires { Factors capacity ratio }
    ensures { result ≡ cut (product capacity ratio) }
{
    round_half_up(capacity as f64 * ratio)
}

// The limits for these settings, or the refusal, at a largest capacity and ghost limit of `top`. The tests
// stand in the order of the refusals.
fn size_up_to(top: u64, s: Settings) -> Result<Limits, Turned>
    requires { top < 2 ^ 52 }
    ensures { sized_of result ≡ sizing_of top s }
{
    let capacity = s.capacity;
    let small_ratio = s.small_ratio;
    let ghost_ratio = s.ghost_ratio;
    if capacity == 0 {
        return Err(Turned::NoCapacity);
    }
    if top < capacity {
        return Err(Turned::CapacityAbove);
    }
    if bad_ratio(small_ratio) || 1.0 < small_ratio {
        return Err(Turned::SmallRatio);
    }
    if bad_ratio(ghost_ratio) {
        return Err(Turned::GhostRatio);
    }
    let small_limit = limit(capacity, small_ratio);
    let ghost_limit = limit(capacity, ghost_ratio);
    if top < ghost_limit {
        return Err(Turned::GhostLimit);
    }
    Ok(Limits {
        capacity,
        small_limit,
        ghost_limit,
    })
}

// The limits for these settings, or the refusal.
pub fn size(s: Settings) -> Result<Limits, Turned>
    ensures { sized_of result ≡ sizing_of most s }
{
    size_up_to(rules::MOST, s)
}

// The double that has these bits. A NaN pattern gives the NaN, which `from_bits` does not.
fn double_of(bits: u64) -> f64
    ensures { result ≡ of_bits binary64 bits }
{
    if 0x7ff0_0000_0000_0000 < bits % 0x8000_0000_0000_0000 {
        return 0.0 / 0.0;
    }
    f64::from_bits(bits)
}

// The settings that 24 bytes from `at` on hold.
fn decode(s: &[u8], at: usize) -> Settings
    requires { at + 24 ≤ length s.now }
    ensures { asks_of result ≡ settings_at s.now at }
{
    Settings {
        capacity: cells::get::<8>(s, at),
        small_ratio: double_of(cells::get::<8>(s, at + 8)),
        ghost_ratio: double_of(cells::get::<8>(s, at + 16)),
    }
}

// The settings of a CF record at the start of s; none where its bytes are wrong or too few.
pub fn read_settings(s: &[u8]) -> Option<Settings>
    ensures { asked_of result ≡ settings_of s.now }
{
    if s.len() < SETTINGS_BYTES || s[0] != CF[0] || s[1] != CF[1] {
        return None;
    }
    Some(decode(s, 2))
}
