//! Whole numbers without a sign.
ghost use Rattle.std.specs.Prelude.{◌≡◌, ◌*◌, ◌/◌, ◌%◌, ◌^◌, ◌<◌, ◌≤◌};
ghost use Rattle.std.specs.Option.{SomeIff};
ghost use Rattle.sj_decimal.specs.Limits.{max_scale, magnitude_limit};
ghost use Rattle.sj_decimal.specs.Normal.{reduced};

/// The most digits that the coefficient of an exact number has.
pub const MAX_DIGITS: u32 = 38;

/// The least number with more digits than that, which no coefficient reaches.
pub(crate) const LIMIT: u128 = 100_000_000_000_000_000_000_000_000_000_000_000_000;

/// The most decimals that an exact number has.
pub(crate) const MAX_SCALE: u32 = 38;

// A magnitude of 64 bits with so many zeros behind it is below the limit.
const SHORT_SCALE: u32 = 18;

/// `magnitude / 10^scale` in normal form.
pub(crate) fn reduce(magnitude: u128, scale: u32) -> (u128, u32)
    ensures { result ≡ reduced magnitude scale }
{
    if magnitude > u64::MAX as u128 {
        return reduce_long(magnitude, scale);
    }
    let (left, places) = reduce_short(magnitude as u64, scale);
    (left as u128, places)
}

// Most magnitudes fit 64 bits, where a processor divides by 10 without a call.
#[inline(always)]
pub(crate) fn reduce_short(magnitude: u64, scale: u32) -> (u64, u32)
    ensures { result ≡ reduced magnitude scale }
{
    if magnitude == 0 {
        return (0, 0);
    }
    let mut left = magnitude;
    let mut places = scale;
    while places > 0 && left % 10 == 0 {
        left /= 10;
        places -= 1;
    }
    (left, places)
}

#[inline(never)]
fn reduce_long(magnitude: u128, scale: u32) -> (u128, u32)
    requires { 0 < magnitude }
    ensures { result ≡ reduced magnitude scale }
{
    let mut long = magnitude;
    let mut places = scale;
    while places > 0 && long % 10 == 0 {
        long /= 10;
        places -= 1;
    }
    (long, places)
}

const POWER_COUNT: usize = MAX_DIGITS as usize + 1;

/// The powers of ten up to the limit.
const POWERS: [u128; POWER_COUNT] = [
    1,
    10,
    100,
    1_000,
    10_000,
    100_000,
    1_000_000,
    10_000_000,
    100_000_000,
    1_000_000_000,
    10_000_000_000,
    100_000_000_000,
    1_000_000_000_000,
    10_000_000_000_000,
    100_000_000_000_000,
    1_000_000_000_000_000,
    10_000_000_000_000_000,
    100_000_000_000_000_000,
    1_000_000_000_000_000_000,
    10_000_000_000_000_000_000,
    100_000_000_000_000_000_000,
    1_000_000_000_000_000_000_000,
    10_000_000_000_000_000_000_000,
    100_000_000_000_000_000_000_000,
    1_000_000_000_000_000_000_000_000,
    10_000_000_000_000_000_000_000_000,
    100_000_000_000_000_000_000_000_000,
    1_000_000_000_000_000_000_000_000_000,
    10_000_000_000_000_000_000_000_000_000,
    100_000_000_000_000_000_000_000_000_000,
    1_000_000_000_000_000_000_000_000_000_000,
    10_000_000_000_000_000_000_000_000_000_000,
    100_000_000_000_000_000_000_000_000_000_000,
    1_000_000_000_000_000_000_000_000_000_000_000,
    10_000_000_000_000_000_000_000_000_000_000_000,
    100_000_000_000_000_000_000_000_000_000_000_000,
    1_000_000_000_000_000_000_000_000_000_000_000_000,
    10_000_000_000_000_000_000_000_000_000_000_000_000,
    100_000_000_000_000_000_000_000_000_000_000_000_000,
];

/// `10^places`.
pub(crate) fn power_of_ten(places: u32) -> u128
    requires { places ≤ max_scale }
    ensures value { result ≡ 10 ^ places }
    ensures positive { 0 < result }
    ensures bound { result ≤ magnitude_limit }
{
    POWERS[places as usize]
}

/// The quotient and the remainder. Most numbers fit 64 bits, where one division gives both without a call.
pub(crate) fn divided(magnitude: u128, divisor: u128) -> (u128, u128)
    requires { 0 < divisor }
    ensures quotient { result.0 ≡ magnitude / divisor }
    ensures rest { result.1 ≡ magnitude % divisor }
{
    let longest = u64::MAX as u128;
    if magnitude > longest || divisor > longest {
        return (magnitude / divisor, magnitude % divisor);
    }
    let (short, by) = (magnitude as u64, divisor as u64);
    ((short / by) as u128, (short % by) as u128)
}

/// `magnitude * 10^places`, where that is below the limit.
pub(crate) fn scaled(magnitude: u128, places: u32) -> Option<u128>
    ensures { SomeIff result (magnitude * 10 ^ places < magnitude_limit) (magnitude * 10 ^ places) }
{
    if places == 0 {
        return if magnitude < LIMIT {
            Some(magnitude)
        } else {
            None
        };
    }
    if magnitude == 0 {
        return Some(0);
    }
    if magnitude <= u64::MAX as u128 && places <= SHORT_SCALE {
        return Some(magnitude * power_of_ten(places));
    }
    if places > MAX_SCALE {
        return None;
    }
    let power = power_of_ten(places);
    if magnitude > (LIMIT - 1) / power {
        return None;
    }
    Some(magnitude * power)
}
