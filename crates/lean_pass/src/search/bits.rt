//! Sets of general bytes that are copied and joined often.

/// How many words of 64 bits the general bytes take.
const WORDS: usize = 6;

#[derive(Clone, Copy, PartialEq, Eq)]
pub struct Bits {
    words: [u64; 6],
}

fn mask(number: usize) -> u64 {
    1u64 << (number % 64)
}

impl Bits {
    pub fn none() -> Bits {
        Bits { words: [0; 6] }
    }

    pub fn all() -> Bits {
        Bits {
            words: [u64::MAX; 6],
        }
    }

    pub fn has(&self, number: usize) -> bool {
        let word = number / 64;
        word < WORDS && self.words[word] & mask(number) != 0
    }

    pub fn put(&mut self, number: usize) {
        let word = number / 64;
        if word < WORDS {
            self.words[word] |= mask(number);
        }
    }

    pub fn take(&mut self, number: usize) {
        let word = number / 64;
        if word < WORDS {
            self.words[word] &= !mask(number);
        }
    }

    pub fn join(self, other: Bits) -> Bits {
        let mut words = self.words;
        for word in 0..WORDS {
            words[word] |= other.words[word];
        }
        Bits { words }
    }

    pub fn meet(self, other: Bits) -> Bits {
        let mut words = self.words;
        for word in 0..WORDS {
            words[word] &= other.words[word];
        }
        Bits { words }
    }

    pub fn without(self, other: Bits) -> Bits {
        let mut words = self.words;
        for word in 0..WORDS {
            words[word] &= !other.words[word];
        }
        Bits { words }
    }
}
