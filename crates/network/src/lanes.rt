// The stages of the byte network, on all eight bytes of a word at once.
//
// In each byte the mask's bits are packed at the low end, and what moved is kept. A set bit has to move down by the number of clear bits
// below it, which is at most 7: stage i, of three, moves by 2^i the bits whose number has digit i set (`one_stage`). The source's bits come
// packed, and the stages undone on them, the last one first, take each to where the mask's bit came from (`spread`). Extract has the same
// stages done on the source's bits at the mask's (`pack`).
// A picture of the stages is in `specs/Lanes`.
ghost use Rattle.std.specs.Prelude.{◌≡◌, ℕ, ◌*◌, ◌/◌, ◌%◌, ◌^◌, ◌<◌, ◌⊎◌, [], ◌∷◌, count_ones};
ghost use Rattle.network.specs.Lanes.{before, down8, each, each2, gathered, joined, landed8, landed_at, move_to, packed8, packed_at, parity8};
ghost use Rattle.network.specs.Lanes.{undo_from, up8, zeros8};

use super::num::bytes;

// In each byte, the count of its set bits.
pub fn counts(mask: u64) -> u64
    ensures { result ≡ each count_ones 8 mask }
{
    let pairs = mask - ((mask >> 1) & bytes(0x55));
    let nibbles = (pairs & bytes(0x33)) + ((pairs >> 2) & bytes(0x33));
    (nibbles + (nibbles >> 4)) & bytes(0x0f)
}

// In each byte, the mask's set bits in the bytes below it. One product sums them for all bytes; no sum passes a byte.
pub fn below(mask: u64) -> u64
    ensures { result ≡ before 8 0 mask }
{
    counts(mask).wrapping_mul(bytes(1)) << 8
}

// In byte j, the 8 bits of the source from the number in byte j of from on. `join` shifts the other way round at either place, and one function
// of both would need two closures to say where a byte comes from and where it goes.
pub fn gather(source: u64, from: u64) -> u64
    requires { (j : ℕ) → from / 2 ^ (8 * j) % 256 < 64 }
    ensures { result ≡ gathered 8 source from }
{
    let mut result: u64 = 0;
    for byte in 0u32..8 {
        let at = (from >> (8 * byte)) & 0xff;
        result |= ((source >> at) & 0xff) << (8 * byte);
    }
    result
}

// The bytes of packed joined: byte j from the bit on that byte j of to says. `gather` takes such a word apart.
pub fn join(packed: u64, to: u64) -> u64
    requires { (j : ℕ) → to / 2 ^ (8 * j) % 256 < 64 }
    ensures { result ≡ joined 64 8 packed to }
{
    let mut result: u64 = 0;
    for byte in 0u32..8 {
        let at = (to >> (8 * byte)) & 0xff;
        result |= ((packed >> (8 * byte)) & 0xff) << at;
    }
    result
}

// x moved up by k within each byte.
pub fn up(x: u64, k: u32) -> u64
    requires { k < 8 }
    ensures { result ≡ each (up8 k) 8 x }
{
    (x << k) & bytes(0xffu8 << k)
}

// x moved down by k within each byte.
pub fn down(x: u64, k: u32) -> u64
    requires { k < 8 }
    ensures { result ≡ each (down8 k) 8 x }
{
    (x >> k) & bytes(0xffu8 >> k)
}

// In each byte, at each bit, the parity of the set bits of zeros at it and at every shift-th place below. The zeros stand side by side in
// groups of shift, so this is the parity of the groups at the bit and below.
pub fn parity(zeros: u64, shift: u32) -> u64
    requires { (shift ≡ 1) ⊎ ((shift ≡ 2) ⊎ (shift ≡ 4)) }
    ensures { result ≡ each (parity8 shift) 8 zeros }
{
    let mut p = zeros;
    // the length doubles: it is what the loop has come to, and no index
    let mut len = shift;
    while len < 8 {
        p ^= up(p, len);
        len <<= 1;
    }
    p
}

// One stage of the compression: the zeros and the packed mask after it, and where the bits that it moved have landed.
#[derive(Drop)]
pub struct Stage {
    pub zeros: u64,
    pub packed: u64,
    pub landed: u64,
}

// Before the stage a bit of packed has still to move by the number of zeros below it, and the zeros stand side by side in groups of shift,
// where packed is clear. The bits above an odd number of groups, which the parity tells, move now, by one group. Each second group stays, and
// takes in the shift places below it: the bits there have moved down, over the group before, which goes. So the groups are twice as long, and
// half as many. No two bits meet: what a bit has moved more than the bit below it is at most the number of clear bits between the two.
pub fn one_stage(zeros: u64, packed: u64, shift: u32) -> Stage
    requires { (shift ≡ 1) ⊎ ((shift ≡ 2) ⊎ (shift ≡ 4)) }
    ensures { (result.zeros ≡ each (zeros8 shift) 8 zeros) × (result.packed ≡ each2 (packed8 shift) 8 zeros packed) × (result.landed ≡ each2 (landed8 shift) 8 zeros packed) }
{
    let p = parity(zeros, shift);
    let moving = packed & p;
    let landed = down(moving, shift);
    let left = zeros & !p;
    Stage {
        zeros: left ^ down(left, shift),
        packed: packed ^ (moving ^ landed),
        landed,
    }
}

// The mask's compression in each byte: what is packed, and where the bits that each stage moved have landed.
#[derive(Drop)]
pub struct Packed {
    pub packed: u64,
    pub landed: [u64; 3],
}

pub fn compress(mask: u64) -> Packed
    ensures { (result.packed ≡ each (packed_at 3) 8 mask) × (result.landed ≡ each (landed_at 0) 8 mask ∷ each (landed_at 1) 8 mask ∷ each (landed_at 2) 8 mask ∷ []) }
{
    let mut packed = mask;
    let mut zeros = !mask;
    let mut landed = [0u64; 3];
    for i in 0usize..3 {
        let s = one_stage(zeros, packed, 1u32 << i);
        zeros = s.zeros;
        packed = s.packed;
        landed[i] = s.landed;
    }
    Packed { packed, landed }
}

// The stages undone, the last one first: the bits at the places where a stage's bits landed go up again by its shift.
pub fn spread(low: u64, landed: [u64; 3]) -> u64
    ensures { result ≡ undo_from 64 landed 3 low }
{
    let mut result = low;
    for i in (0usize..3).rev() {
        let l = landed[i];
        result = (result & !l) | ((result & l) << (1u32 << i));
    }
    result
}

// The stages done on bits that lie among the mask's, the first one first: the bits that a stage moves go down by its shift.
pub fn pack(bits: u64, landed: [u64; 3]) -> u64
    ensures { result ≡ move_to 64 landed 3 bits }
{
    let mut result = bits;
    for i in 0usize..3 {
        let l = landed[i];
        let shift = 1u32 << i;
        result = (result & !(l << shift)) | ((result >> shift) & l);
    }
    result
}
