// The answer of a C function in one number: a value by itself, or a refusal's number above what the refusal carries.

#![tactic(auto)]

ghost use Rattle.std.specs.Prelude.{◌≡◌};
ghost use Rattle.answer.specs.Packed.{packed_low, packed_size_low};

use refusal::Refusal;

// Of what is carried the low 32 bits, which are all of it in every answer that is given: proofs/Halves.antt has that packed whole.
pub fn pack(r: Refusal) -> u64
    ensures { result ≡ packed_low r }
{
    r.number() * 0x1_0000_0000 + r.carried() % 0x1_0000_0000
}

// A value by itself, or the refusal packed.
#[tactic(auto, unfolding(crate::specs::Packed::packed_size_low))]
pub fn packed(answer: Result<usize, Refusal>) -> u64
    ensures { result ≡ packed_size_low answer }
{
    match answer {
        Ok(value) => value as u64,
        Err(r) => pack(r),
    }
}
