// What the query daemon calls: numbers only. The crate host_c exports both functions to C.
#![tactic(auto)]

ghost use Rattle.std.specs.Prelude.{◌≡◌};
ghost use Rattle.rows.specs.Word.{bits_of};
ghost use Rattle.rows.specs.Lists.{select};
ghost use Rattle.rows.specs.Pdep.{pdep};

// Deposit by the mask's own count: it never refuses.
pub fn boltamber_deposit(source: u64, mask: u64) -> u64
    ensures { result ≡ pdep 64 source mask }
{
    word::inner::deposit_portable(source, mask, u64::count_ones(mask))
}

// The position of the set bit that has the rank, and 64 where refusal 9 holds: the rank is not below the word's set bits.
// Below 64 the walk over the bytes finds that out, with no count of the whole word.
pub fn boltamber_select(word: u64, rank: u64) -> u64
    ensures { result ≡ select (bits_of 64 word) rank }
{
    if rank > 63 {
        return 64;
    }
    word::inner::select_bit_position(word, rank as u32) as u64
}
