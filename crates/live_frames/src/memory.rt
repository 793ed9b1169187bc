//! The chip's data memory: which bytes of it are taken.

ghost use Rattle.std.specs.Prelude.{◌≡◌, ℕ, ◌+◌, ◌<◌, ◌≤◌, ◌↔◌, ◌||◌, true, false, IsTrue, MatchOption};
ghost use Rattle.live_frames.specs.Memory as stated;
ghost use Rattle.live_frames.specs.Memory.{is_taken, IsFree, IsLowestIn, IsFull, IsLowest, AreFull, regions};

/// How many addresses data memory has.
const ADDRESSES: usize = 512;

// The bytes of the largest region.
const LARGEST: u64 = 96;

/// A run of bytes.
#[derive(Clone, Copy)]
pub struct Span {
    pub address: u16,
    pub size: u16,
}

// The bytes that objects and frames can have (Microchip data sheet DS39582, data memory organization);
// 70h to 7Fh, which each bank shows, are kept for other things.
const FIRST: Span = Span {
    address: 0x20,
    size: 0x50,
};

const SECOND: Span = Span {
    address: 0xA0,
    size: 0x50,
};

const THIRD: Span = Span {
    address: 0x110,
    size: 0x60,
};

const FOURTH: Span = Span {
    address: 0x190,
    size: 0x60,
};

/// Which addresses are taken.
#[derive(Clone, Copy)]
pub struct Taken {
    pub marks: [bool; 512],
}

impl Taken {
    /// None is.
    pub fn none() -> Taken
        ensures { (x : ℕ) → is_taken result.marks x ≡ false }
    {
        Taken {
            marks: [false; 512],
        }
    }

    fn mark(&mut self, address: usize)
        ensures here { address < 512 → is_taken self.new.marks address ≡ true }
        ensures others { (x : ℕ) → (x ≡ address → ⊥) → is_taken self.new.marks x ≡ is_taken self.old.marks x }
    {
        if address < ADDRESSES {
            self.marks[address] = true;
        }
    }

    /// Takes a run of bytes, as far as data memory goes.
    pub fn take(&mut self, span: Span)
        ensures { (x : ℕ) → x < 512 → is_taken self.new.marks x ≡ (stated.covers span.address span.size x || is_taken self.old.marks x) }
    {
        for k in 0..span.size {
            self.mark(span.address as usize + k as usize);
        }
    }

    fn is_taken(&self, address: usize) -> bool
        ensures { result ≡ is_taken self.now.marks address }
    {
        match self.marks.get(address) {
            Some(mark) => *mark,
            None => false,
        }
    }

    // Whether no byte of a run is taken.
    fn is_free(&self, span: Span) -> bool
        ensures { IsTrue result ↔ IsFree (λ x. is_taken self.now.marks x ≡ true) span.address span.size }
    {
        for k in 0..span.size {
            if self.is_taken(span.address as usize + k as usize) {
                return false;
            }
        }
        true
    }

    // The lowest address of a region at which so many bytes are free.
    fn lowest_in(&self, region: Span, size: u16) -> Option<u16>
        requires { region.address + region.size ≤ 512 }
        ensures { MatchOption result (IsFull (λ x. is_taken self.now.marks x ≡ true) region size) (λ address. IsLowestIn (λ x. is_taken self.now.marks x ≡ true) region size address) }
    {
        if size > region.size {
            return None;
        }
        for k in 0..region.size - size + 1 {
            let span = Span {
                address: region.address + k,
                size,
            };
            if self.is_free(span) {
                return Some(span.address);
            }
        }
        None
    }

    // The lowest address at which so many bytes are free within one region, in the first region that
    // has such an address.
    fn lowest(&self, size: u16) -> Option<u16>
        ensures { MatchOption result (AreFull (λ x. is_taken self.now.marks x ≡ true) regions size) (λ address. IsLowest (λ x. is_taken self.now.marks x ≡ true) regions size address) }
    {
        if let Some(address) = self.lowest_in(FIRST, size) {
            return Some(address);
        }
        if let Some(address) = self.lowest_in(SECOND, size) {
            return Some(address);
        }
        if let Some(address) = self.lowest_in(THIRD, size) {
            return Some(address);
        }
        self.lowest_in(FOURTH, size)
    }

    /// Where something of so many bytes stands.
    pub fn find(&self, size: u64) -> Option<Span>
        ensures { MatchOption result (stated.HasNoPlace (λ x. is_taken self.now.marks x ≡ true) size) (λ span. stated.Stands (λ x. is_taken self.now.marks x ≡ true) size span.address × (span.size ≡ size) × (span.size ≤ 96)) }
    {
        if size > LARGEST {
            return None;
        }
        let size = size as u16;
        if size == 0 {
            return Some(Span {
                address: FIRST.address,
                size,
            });
        }
        match self.lowest(size) {
            Some(address) => Some(Span { address, size }),
            None => None,
        }
    }

    /// How many addresses are taken.
    pub fn count(&self) -> u16
        ensures { result ≡ stated.count_below (is_taken self.now.marks) 512 }
    {
        let mut count = 0;
        for address in 0..ADDRESSES {
            count += self.counted(address);
        }
        count
    }

    fn counted(&self, address: usize) -> u16
        ensures { result ≡ stated.counted (is_taken self.now.marks) address }
    {
        if self.is_taken(address) { 1 } else { 0 }
    }
}
