//! The decimal text of a whole number, and a whole number read from a text.

#![tactic(auto)]

ghost use Rattle.std.specs.Prelude.{◌≡◌, ◌^◌, ◌<◌, ◌++◌, length, drop, pos, neg_ℤ, MatchOption};
ghost use Rattle.std.specs.Option.{option_map};
ghost use Rattle.numerals.specs.Bounds.{at_most};
ghost use Rattle.numerals.specs.Decimal.{whole_text, natural_of, if_fits, whole_of};
ghost use Rattle.numerals.specs.Laws.{ReadsWhatIsSpelled, ReadsBack, AtMost20Bytes, NoLeadingZero};

use itoa::Buffer;

/// Lays the bytes at the front of `out` and answers how many there are; nothing where `out` is shorter.
pub fn write_bytes(bytes: &[u8], out: &mut [u8]) -> Option<usize>
    ensures { MatchOption result ((length out.old < length bytes.now) × (out.new ≡ out.old)) (λ k. (k ≡ length bytes.now) × (out.new ≡ bytes.now ++ drop k out.old)) }
{
    let end = bytes.len();
    // `get_mut` was tried: it says nothing of the buffer where there is no room.
    if out.len() < end {
        return None;
    }
    out[..end].copy_from_slice(bytes);
    Some(end)
}

// The decimal text of `n`, laid into the buffer.
#[tactic(auto, using(crate::proofs::Texts::written_is))]
fn decimal(n: i64, buffer: &mut Buffer) -> &[u8]
    ensures { result.now ≡ whole_text n }
{
    buffer.format(n).as_bytes()
}

/// Writes the decimal text of `n` at the front of `out` and answers its length; nothing where `out` is shorter than the text.
// Into a caller's buffer, since rendering never allocates.
#[tactic(auto, using(crate::proofs::Lawful::at_most_20_bytes, crate::proofs::Lawful::no_leading_zero))]
pub fn write_whole(n: i64, out: &mut [u8]) -> Option<usize>
    ensures written { MatchOption result ((length out.old < length (whole_text n)) × (out.new ≡ out.old)) (λ k. (k ≡ length (whole_text n)) × (out.new ≡ whole_text n ++ drop k out.old)) }
    ensures short { AtMost20Bytes }
    ensures first { NoLeadingZero }
{
    write_bytes(decimal(n, &mut Buffer::new()), out)
}

// 2^63, the size of the least number of 64 signed bits.
const MOST: u64 = 1 << 63;

// The value of one or more digits and nothing else, where it is at most 2^63.
// The library's `from_utf8` and `parse` were here: they read a text whole that its first byte refuses, and took a third longer.
fn size_of(digits: &[u8]) -> Option<u64>
    ensures { result ≡ at_most (2 ^ 63) (natural_of digits.now) }
{
    if digits.is_empty() {
        return None;
    }
    let mut size = 0u64;
    for c in digits {
        if !c.is_ascii_digit() {
            return None;
        }
        let digit = u64::from(*c - b'0');
        if size > (MOST - digit) / 10 {
            return None;
        }
        size = size * 10 + digit;
    }
    Some(size)
}

// The number of that size.
fn positive(size: Option<u64>) -> Option<i64>
    ensures { result ≡ if_fits (option_map pos size) }
{
    0i64.checked_add_unsigned(size?)
}

// The same with a minus sign.
fn negative(size: Option<u64>) -> Option<i64>
    ensures { result ≡ if_fits (option_map (λ n. neg_ℤ (pos n)) size) }
{
    0i64.checked_sub_unsigned(size?)
}

/// Reads a text of an optional sign and one or more digits as a number of 64 signed bits; nothing where the text is none, or its value is beyond.
#[tactic(auto, using(crate::proofs::Readings::whole_minus, crate::proofs::Readings::whole_plus, crate::proofs::Readings::whole_plain, crate::proofs::Lawful::reads_what_is_spelled, crate::proofs::Lawful::reads_back))]
pub fn read_whole(text: &[u8]) -> Option<i64>
    ensures value { result ≡ whole_of text.now }
    ensures spelled { ReadsWhatIsSpelled }
    ensures back { ReadsBack }
{
    match text {
        [b'-', digits @ ..] => negative(size_of(digits)),
        [b'+', digits @ ..] => positive(size_of(digits)),
        _ => positive(size_of(text)),
    }
}
