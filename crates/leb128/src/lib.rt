//! Unsigned numbers below 2^32 as groups of seven bits, low group first. The top bit is set on all
//! bytes but the last, and only the shortest form of a number is read or written.
#![tactic(auto)]

ghost use Rattle.std.specs.Prelude.{◌≡◌, ℕ, ◌+◌, ◌-◌, ◌*◌, ◌^◌, ◌<◌, ◌≤◌, length, MatchOption};
ghost use Rattle.leb128.specs.Laws.{Reading};
ghost use Rattle.leb128.specs.Number.{decode, encode, follow, group_count, groups, limit, overwritten, read_at, refusal_of, replaced};

/// Why no number was read.
#[derive(Clone, Copy, PartialEq, Eq, Debug)]
pub enum Fault {
    /// The bytes end before the last byte of the number.
    EndsEarly,
    /// The number has a shorter form: its last byte of several is 0.
    NotShortest,
    /// The number has more than 32 bits: its fifth byte is above 15.
    TooWide,
}

/// The number by which the fault is reported.
impl From<Fault> for u32 {
    ghost from_gives = { λ fault number. number ≡ refusal_of fault };

    fn from(fault: Fault) -> u32 {
        match fault {
            Fault::EndsEarly => 10,
            Fault::NotShortest => 11,
            Fault::TooWide => 12,
        }
    }
}

/// A number that was read, and the position after its last byte.
#[derive(Clone, Copy, PartialEq, Eq, Debug)]
pub struct Number {
    pub value: u32,
    pub next: usize,
}

// The most that the fifth byte of a number may be: four bits are left for it.
const MOST_OF_FIFTH: u8 = 15;

// The bytes of a number from one of them on, of which `left` may follow the next: their value and
// length. The first byte of a number of several is not 0, and four may follow it.
fn read_following(bytes: &[u8], left: u32) -> Result<(u32, usize), Fault>
    requires { left ≤ 4 }
    ensures { result ≡ follow bytes.now left }
{
    match bytes {
        [] => Err(Fault::EndsEarly),
        [0, ..] => Err(Fault::NotShortest),
        [byte, ..] if left == 0 && *byte > MOST_OF_FIFTH => Err(Fault::TooWide),
        [byte, ..] if *byte < 128 => Ok((u32::from(*byte), 1)),
        [byte, rest @ ..] => {
            let (value, length) = read_following(rest, left - 1)?;
            Ok((u32::from(*byte - 128) + 128 * value, length + 1))
        }
    }
}

/// Reads the number at the position `at`. Most numbers have one or two bytes, so these are looked at
/// first.
pub fn read(bytes: &[u8], at: usize) -> Result<Number, Fault>
    ensures value { result ≡ read_at bytes.now at }
    ensures laws { Reading bytes.now at result }
{
    let Some(&byte) = bytes.get(at) else {
        return Err(Fault::EndsEarly);
    };
    if byte < 128 {
        return Ok(Number {
            value: u32::from(byte),
            next: at + 1,
        });
    }
    match bytes.get(at + 1) {
        Some(&second) if 0 < second && second < 128 => Ok(Number {
            value: u32::from(byte - 128) + 128 * u32::from(second),
            next: at + 2,
        }),
        _ => {
            let (value, length) = read_following(&bytes[at..], 4)?;
            Ok(Number {
                value,
                next: at + length,
            })
        }
    }
}

// How many groups of seven bits `value` has.
fn group_count(value: u32) -> usize
    ensures { result ≡ group_count value }
{
    match value {
        ..0x80 => 1,
        ..0x4000 => 2,
        ..0x20_0000 => 3,
        ..0x1000_0000 => 4,
        _ => 5,
    }
}

/// How many bytes the written form of `value` has, one for each group of seven bits.
pub fn encoded_len(value: u32) -> usize
    ensures length { result ≡ length (encode value) }
    ensures range { (1 ≤ result) × (result ≤ 5) }
{
    group_count(value)
}

// Writes the groups of `value`, of which at most `left` follow the first.
fn write_groups(out: &mut [u8], at: usize, value: u32, left: u32)
    requires low { value < limit left }
    requires room { at + length (groups left value) ≤ length out.old }
    ensures { out.new ≡ replaced out.old at (groups left value) }
{
    if value < 128 {
        out[at] = value as u8;
    } else {
        out[at] = 128 + (value % 128) as u8;
        write_groups(out, at + 1, value / 128, left - 1);
    }
}

/// Writes `value` at the position `at` and tells the position after it. Without room for all of its
/// bytes it writes nothing and answers `None`.
pub fn write(out: &mut [u8], at: usize, value: u32) -> Option<usize>
    ensures { MatchOption result ((length out.old < at + length (encode value)) × (out.new ≡ out.old)) (λ next. (next ≡ at + length (encode value)) × (next ≤ length out.old) × (out.new ≡ overwritten out.old at (encode value))) }
{
    let next = at.checked_add(encoded_len(value))?;
    if next > out.len() {
        return None;
    }
    write_groups(out, at, value, 4);
    Some(next)
}
