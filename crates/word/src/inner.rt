// What our own crates call of the word layer: the two ways to deposit and the two ways to extract, which ask that the count is the mask's,
// deposit by either of its ways with that checked, and select.
ghost use Rattle.std.specs.Prelude.{◌≡◌, count_ones};
ghost use Rattle.rows.specs.Word.{bits_of};
ghost use Rattle.rows.specs.Lists.{select};
ghost use Rattle.rows.specs.Pdep.{pdep, pext};
ghost use Rattle.rows.specs.WordAnswer.{deposited};

use super::forms::{deposit_two_holes, deposit_two_lowest, extract_two_holes, extract_two_lowest};
use super::num::{any, if_odd, lowest};
use network::inner::{counts_of_bytes, deposit_bytewise, extract_bytewise};
use places::inner::place_in;
use rows::inner::verdicts::refusal;
use rows::{Reason, Refusal, Way};

// The network choice: closed forms for at most two set bits or two clear bits, the byte network otherwise.
pub fn deposit_portable(source: u64, mask: u64, count: u32) -> u64
    requires { count ≡ count_ones mask }
    ensures { result ≡ pdep 64 source mask }
{
    match count {
        0..=2 => deposit_two_lowest(source, mask),
        62.. => deposit_two_holes(source, mask),
        _ => deposit_bytewise(source, mask),
    }
}

// The loop form, for a sparse self: bit by bit, until the mask or the source has no bit left.
pub fn deposit_portable_loop(source: u64, mask: u64, count: u32) -> u64
    requires { count ≡ count_ones mask }
    ensures { result ≡ pdep 64 source mask }
{
    if count <= 2 {
        return deposit_two_lowest(source, mask);
    }
    // A turn clears the mask's lowest set bit: no index is counted.
    let mut s = source;
    let mut m = mask;
    let mut result: u64 = 0;
    while m != 0 && s != 0 {
        result |= if_odd(lowest(m), s);
        s >>= 1;
        m &= m - 1;
    }
    result
}

// Deposit by either way. The claimed count must be the mask's: refusal 4.
pub fn deposit_by(way: Way, source: u64, mask: u64, claimed: u64) -> Result<u64, Refusal>
    ensures { result ≡ deposited source mask claimed }
{
    if claimed != u64::count_ones(mask) as u64 {
        return Err(refusal(Reason::CountDiffers));
    }
    let count = claimed as u32;
    match way {
        Way::Network => Ok(deposit_portable(source, mask, count)),
        Way::Loop => Ok(deposit_portable_loop(source, mask, count)),
    }
}

// The network choice, as deposit has it: each source bit at a set bit of the mask goes to the rank of that bit.
pub fn extract_portable(source: u64, mask: u64, count: u32) -> u64
    requires { count ≡ count_ones mask }
    ensures { result ≡ pext 64 source mask }
{
    match count {
        0..=2 => extract_two_lowest(source, mask),
        62.. => extract_two_holes(source, mask),
        _ => extract_bytewise(source, mask),
    }
}

// The loop form of extract, for a sparse self: bit by bit, the mask's lowest first.
pub fn extract_portable_loop(source: u64, mask: u64, count: u32) -> u64
    requires { count ≡ count_ones mask }
    ensures { result ≡ pext 64 source mask }
{
    if count <= 2 {
        return extract_two_lowest(source, mask);
    }
    let mut m = mask;
    let mut result: u64 = 0;
    for k in 0..count {
        result |= any(source & lowest(m)) << k;
        m &= m - 1;
    }
    result
}

// The position of the set bit that has the rank, and 64 where there is none. Bytes are skipped by their counts, which are had at once; in
// the byte that holds the rank, the table has the place.
pub fn select_bit_position(word: u64, rank: u32) -> u32
    ensures { result ≡ select (bits_of 64 word) rank }
{
    let mut left = rank;
    let mut rest = word;
    let mut counts = counts_of_bytes(word);
    for bit_offset in (0..64).step_by(8) {
        let count = (counts & 0xff) as u32;
        if left < count {
            let byte = (rest & 0xff) as u32;
            return bit_offset + place_in(byte, left);
        }
        left -= count;
        rest >>= 8;
        counts >>= 8;
    }
    64
}
