// A byte in every byte of a word.
ghost use Rattle.std.specs.Prelude.{◌≡◌};
ghost use Rattle.network.specs.Lanes.{in_each};

// b in every byte of a word.
pub fn bytes(b: u8) -> u64
    ensures { result ≡ in_each 8 b }
{
    b as u64 * 0x0101_0101_0101_0101
}
