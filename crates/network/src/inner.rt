// What our own crates call of the network: deposit and extract a byte at a time, and the counts of a word's bytes.
ghost use Rattle.std.specs.Prelude.{◌≡◌, count_ones};
ghost use Rattle.rows.specs.Pdep.{pdep, pext};
ghost use Rattle.network.specs.Lanes.{each};

use super::lanes::{below, compress, counts, gather, join, pack, spread};

// Deposit a byte at a time.
pub fn deposit_bytewise(source: u64, mask: u64) -> u64
    ensures { result ≡ pdep 64 source mask }
{
    let low = gather(source, below(mask));
    let p = compress(mask);
    let landed = p.landed;
    spread(low & p.packed, landed) & mask
}

// Extract a byte at a time: the network that deposit runs backwards.
pub fn extract_bytewise(source: u64, mask: u64) -> u64
    ensures { result ≡ pext 64 source mask }
{
    let p = compress(mask);
    let landed = p.landed;
    join(pack(source & mask, landed), below(mask))
}

// In each byte, the count of its set bits.
pub fn counts_of_bytes(word: u64) -> u64
    ensures { result ≡ each count_ones 8 word }
{
    counts(word)
}
