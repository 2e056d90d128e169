// Message numbers: a message's place in its stream, of 26 bits.

#![tactic(auto)]

ghost use Rattle.std.specs.Prelude.{refl};
ghost use lib.Dec.{ltb→lt};
ghost use Rattle.refusal.specs.declared.Field.TheVariants.{Message};
ghost use Rattle.msg_number.specs.MsgNumber.{made};

use refusal::Field;
use ring::RingNumber;

#[derive(Clone, Copy)]
pub struct MsgNumber(pub u32);

impl RingNumber for MsgNumber {
    ghost width = { 26 };

    ghost word = { λ a. a.0 };

    ghost from_word = { λ a. record { 0 = a } };

    ghost made = { made };

    ghost MAX = { 0x400_0000 };

    ghost MAX_DIFF = { 0x200_0000 };

    ghost MASK = { 0x3ff_ffff };

    ghost FIELD = { Message };

    // Written out, since a constant of a type cannot be computed from its width.
    const MAX: u32 = 0x400_0000;

    const MAX_DIFF: u32 = 0x200_0000;

    const MASK: u32 = MsgNumber::MAX - 1;

    const FIELD: Field = Field::Message;

    fn from_word(number: u32) -> MsgNumber {
        MsgNumber(number)
    }

    fn word(self) -> u32 {
        self.0
    }

    ghost some_bits = { ltb→lt 0 26 tt };

    ghost in_word = { ltb→lt 26 32 tt };

    ghost stored = { λ a. refl };

    ghost checked = { λ a. refl };

    ghost whole = { refl };

    ghost halved = { refl };

    ghost masked = { refl };
}
