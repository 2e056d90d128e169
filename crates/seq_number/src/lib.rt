// Sequence numbers: a packet's place in its stream, of 31 bits.

#![tactic(auto)]

ghost use Rattle.std.specs.Prelude.{refl};
ghost use lib.Dec.{ltb→lt};
ghost use Rattle.refusal.specs.declared.Field.TheVariants.{Sequence};
ghost use Rattle.seq_number.specs.SeqNumber.{made};

use refusal::Field;
use ring::RingNumber;

#[derive(Clone, Copy)]
pub struct SeqNumber(pub u32);

impl RingNumber for SeqNumber {
    ghost width = { 31 };

    ghost word = { λ a. a.0 };

    ghost from_word = { λ a. record { 0 = a } };

    ghost made = { made };

    ghost MAX = { 0x8000_0000 };

    ghost MAX_DIFF = { 0x4000_0000 };

    ghost MASK = { 0x7fff_ffff };

    ghost FIELD = { Sequence };

    // Written out, since a constant of a type cannot be computed from its width.
    const MAX: u32 = 0x8000_0000;

    const MAX_DIFF: u32 = 0x4000_0000;

    const MASK: u32 = SeqNumber::MAX - 1;

    const FIELD: Field = Field::Sequence;

    fn from_word(number: u32) -> SeqNumber {
        SeqNumber(number)
    }

    fn word(self) -> u32 {
        self.0
    }

    ghost some_bits = { ltb→lt 0 31 tt };

    ghost in_word = { ltb→lt 31 32 tt };

    ghost stored = { λ a. refl };

    ghost checked = { λ a. refl };

    ghost whole = { refl };

    ghost halved = { refl };

    ghost masked = { refl };
}
