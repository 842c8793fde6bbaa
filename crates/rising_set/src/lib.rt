// A set of numbers below 3072, a bit each, from which the lowest is taken first. The word that holds the lowest is in hand.
#![tactic(auto)]

ghost use Rattle.std.specs.Prelude.{◌≡◌, ◌*◌, ◌/◌, ◌%◌, ◌<◌, ◌≤◌};
ghost use Rattle.word_bits.specs.Words.{digit};
ghost use Rattle.rising_set.specs.Members.{Rising, Put, Taken, Lowest, Opened};

// A set's numbers are bits of so many words.
pub const WORDS: usize = 48;

pub const NUMBERS: usize = 64 * WORDS;

// Word `at` is in hand, `word` are its digits, and digit w of `held` says whether word w, a later one, has something in it.
// The words themselves stand beside it: what is in hand is passed by value, so that a pass has it in registers.
#[derive(Clone, Copy, Drop)]
pub struct RisingSet {
    pub at: usize,
    pub word: u64,
    pub held: u64,
}

impl RisingSet {
    // Nothing is in the set.
    pub const EMPTY: RisingSet = RisingSet {
        at: 0,
        word: 0,
        held: 0,
    };

    // Puts k into the set, of which nothing is below the word in hand.
    pub fn put_in(self, words: &mut [u64; WORDS], k: usize) -> RisingSet
        requires { Rising words.old self × (64 * self.at ≤ k) × (k < NUMBERS) }
        ensures { Put words.old self k words.new result }
    {
        let w = k / 64;
        let b = k % 64;
        if w == self.at {
            return RisingSet {
                word: self.word | (1 << b),
                ..self
            };
        }
        words[w] |= 1 << b;
        RisingSet {
            held: self.held | (1 << w),
            ..self
        }
    }

    // Takes k, which is in the word in hand, out of the set.
    pub fn take_out(self, k: usize) -> RisingSet
        requires { (k / 64 ≡ self.at) × (digit self.word (k % 64) ≡ 1) }
        ensures { Taken self k result }
    {
        RisingSet {
            word: self.word ^ (1 << (k % 64)),
            ..self
        }
    }

    // The lowest number of the word in hand, in which there is one.
    pub fn lowest(self) -> usize
        requires { (self.word ≡ 0 → ⊥) × (self.at < WORDS) }
        ensures { Lowest self result }
    {
        self.at * 64 + word_bits::lowest(self.word)
    }

    // The same set, with the word in hand that holds the lowest number; no digit of it is 1 where the set is empty.
    pub fn next(self, words: &mut [u64; WORDS]) -> RisingSet
        requires { Rising words.old self }
        ensures { Opened words.old self words.new result }
    {
        if self.word != 0 || self.held == 0 {
            return self;
        }
        let w = word_bits::lowest(self.held);
        let word = words[w];
        words[w] = 0;
        RisingSet {
            at: w,
            word,
            held: self.held ^ (1 << w),
        }
    }
}
