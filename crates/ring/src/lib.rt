// Numbers that wrap. What is done with them is defined in specs/Ring.antt, once for every width, and has its laws in proofs/.

#![tactic(auto)]

ghost use Rattle.std.specs.Prelude.{◌≡◌, ℕ, ◌-◌, ◌^◌, ◌<◌, Result};
ghost use Rattle.refusal.specs.declared.Field.{Field};
ghost use Rattle.refusal.specs.declared.Refusal.{Refusal};
ghost use Rattle.ring.specs.Ring.{truncated, made_in, after, before, distance, half, compared, is_less, signed_distance};

use refusal::{Field, Refusal};
use std::num::wrapping_add_u32;

// How one number stands to another.
// No Option of the library's Ordering: Opposite is an answer. Less is not transitive, so this is no PartialOrd either.
#[derive(Clone, Copy, Debug)]
pub enum Ordering {
    Less,
    Equal,
    Greater,
    // Half the ring apart: neither before nor after.
    Opposite,
}

// A number and the one after it.
#[derive(Clone, Copy)]
pub struct Incremented<N> {
    pub was: N,
    pub next: N,
}

// A kind of numbers that wrap, each stored in a word, which may lie outside the ring.
pub trait RingNumber: Copy {
    // How many bits the ring's numbers have.
    ghost width: { ℕ };

    ghost word: { Self → ℕ };

    ghost from_word: { ℕ → Self };

    ghost made: { ℕ → Result Self Refusal };

    ghost MAX: { ℕ };

    ghost MAX_DIFF: { ℕ };

    ghost MASK: { ℕ };

    ghost FIELD: { Field };

    const MAX: u32;

    const MAX_DIFF: u32;

    // The bits that a number of the ring has.
    const MASK: u32;

    // The field that is too narrow for a number outside the ring.
    const FIELD: Field;

    // The number that this word stores, in the ring or not.
    fn from_word(number: u32) -> Self
        ensures { result ≡ from_word number };

    fn word(self) -> u32
        ensures { result ≡ word self };

    // By the crate's names, as with all below, and no From and TryFrom: who has both files open finds them.
    #[tactic(auto, using(crate::proofs::Laws::mask_laws))]
    fn new_truncate(from: u32) -> Self
        ensures { word result ≡ truncated width from }
    {
        Self::from_word(from & Self::MASK)
    }

    // Refuses what is outside the ring.
    #[tactic(auto, unfolding(crate::specs::Ring::made_in))]
    fn new(from: u32) -> Result<Self, Refusal>
        ensures { result ≡ made from }
    {
        if from < Self::MAX {
            Ok(Self::from_word(from))
        } else {
            Err(Refusal::FieldTooWide(Self::FIELD))
        }
    }

    fn as_raw(self) -> u32
        ensures { result ≡ truncated width (word self) }
    {
        Self::new_truncate(self.word()).word()
    }

    // `other` steps after this number. 2^32 is a whole number of rings, so the sum may wrap there first.
    #[tactic(auto, using(crate::proofs::Laws::mask_laws))]
    fn add(self, other: u32) -> Self
        ensures { word result ≡ after width (word self) other }
    {
        Self::from_word(wrapping_add_u32(self.word(), other) & Self::MASK)
    }

    // `other` steps before this number.
    fn sub(self, other: u32) -> Self
        ensures { word result ≡ before width (word self) other }
    {
        self.add(Self::MAX - Self::new_truncate(other).word())
    }

    // How many steps lead from `other` to this number: the crate's difference of two numbers.
    fn distance(self, other: Self) -> u32
        ensures { result ≡ distance width (word self) (word other) }
    {
        self.sub(other.word()).word()
    }

    #[tactic(auto, unfolding(crate::specs::Ring::ordered))]
    fn cmp(self, other: Self) -> Ordering
        ensures { result ≡ compared width (word self) (word other) }
    {
        let diff = self.distance(other);
        if diff == 0 {
            return Ordering::Equal;
        }
        if diff == Self::MAX_DIFF {
            return Ordering::Opposite;
        }
        if diff < Self::MAX_DIFF {
            Ordering::Greater
        } else {
            Ordering::Less
        }
    }

    // Whether `cmp` says Less.
    #[tactic(auto, using(crate::proofs::Laws::less_laws))]
    fn lt(self, other: Self) -> bool
        ensures { result ≡ is_less (compared width (word self) (word other)) }
    {
        Self::MAX_DIFF < self.distance(other)
    }

    // The distance as a signed number, negative exactly where `cmp` says Less or Opposite.
    #[tactic(auto, using(crate::proofs::Laws::sign_laws))]
    fn signed_distance(self, other: Self) -> i32
        ensures { result ≡ signed_distance width (word self) (word other) }
    {
        let diff = self.distance(other);
        if diff < Self::MAX_DIFF {
            return diff as i32;
        }
        -((Self::MAX - diff) as i32)
    }

    fn increment(self) -> Incremented<Self>
        ensures { (word result.was ≡ truncated width (word self)) × (word result.next ≡ after width (word self) 1) }
    {
        Incremented {
            was: Self::new_truncate(self.word()),
            next: self.add(1),
        }
    }

    ghost some_bits: { 0 < width };

    // A word has a bit left for a sign.
    ghost in_word: { width < 32 };

    ghost stored: { (a : ℕ) → word (from_word a) ≡ a };

    ghost checked: { (a : ℕ) → made a ≡ made_in width from_word FIELD a };

    ghost whole: { MAX ≡ 2 ^ width };

    ghost halved: { MAX_DIFF ≡ half width };

    ghost masked: { MASK ≡ 2 ^ width - 1 };
}
