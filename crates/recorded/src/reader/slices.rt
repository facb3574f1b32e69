// Slices told as arithmetic stretches: the number of stretches, then each stretch.
ghost use Rattle.std.specs.Iterator.{at_most};

use super::{Malformed, Reader};

// What a slice has, and how it is told.
pub trait Element: Copy {
    fn of(told: u64) -> Self;

    fn told(self) -> u64;
}

impl Element for u64 {
    fn of(told: u64) -> u64 {
        told
    }

    fn told(self) -> u64 {
        self
    }
}

// A row number is the low half of what is told. Held to what is told it is made a word: a told element of 2^32 or more equals no row.
impl Element for u32 {
    fn of(told: u64) -> u32 {
        (told % 4294967296) as u32
    }

    fn told(self) -> u64 {
        u64::from(self)
    }
}

// `count` elements: the value, the value + step, the value + 2 * step and so on modulo 2^64.
#[derive(Drop)]
struct Stretch {
    count: u64,
    value: u64,
    step: u64,
}

impl Iterator for Stretch {
    type Item = u64;

    ghost remaining = { λ s. at_most s.count };

    fn next(&mut self) -> Option<u64> {
        if self.count == 0 {
            return None;
        }
        self.count -= 1;
        let value = self.value;
        self.value = value.wrapping_add(self.step);
        Some(value)
    }
}

impl Stretch {
    // A stretch is told as its count, its first element and its step. All three are read, whichever is malformed.
    fn read(reader: &mut Reader<'_>) -> Result<Stretch, Malformed> {
        Ok(Stretch {
            count: reader.digits(),
            value: reader.digits(),
            step: reader.number()?,
        })
    }

    // What the slice has after the stretch, where it begins with it.
    fn strip_from<'a, T: Element>(self, slice: &'a [T]) -> Option<&'a [T]> {
        let (front, rest) = slice.split_at_checked(self.count as usize)?;
        let begins = front.iter().map(|element| element.told()).eq(self);
        begins.then_some(rest)
    }
}

// The told slice laid over the front of `into`. One that has no room there is malformed.
pub fn fill<'a, T: Element>(
    reader: &mut Reader<'_>,
    into: &'a mut [T],
) -> Result<&'a mut [T], Malformed> {
    let mut at: usize = 0;
    for _ in 0..reader.digits() {
        let stretch = Stretch::read(reader)?;
        let count = stretch.count as usize;
        if count > into.len() - at {
            return Err(reader.spoil());
        }
        let end = at + count;
        for (element, value) in into[at..end].iter_mut().zip(stretch) {
            *element = T::of(value);
        }
        at = end;
    }
    Ok(&mut into[..at])
}

// Whether `slice` is the told slice, neither longer nor shorter. Where they differ it still reads to the told slice's end.
pub fn compare<T: Element>(reader: &mut Reader<'_>, slice: &[T]) -> Result<bool, Malformed> {
    let mut rest = Some(slice);
    for _ in 0..reader.number()? {
        let stretch = Stretch::read(reader)?;
        rest = match rest {
            Some(slice) => stretch.strip_from(slice),
            None => None,
        };
    }
    Ok(rest.is_some_and(|slice| slice.is_empty()))
}
