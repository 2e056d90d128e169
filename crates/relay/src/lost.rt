// Why a number is lost, for a C program.
ghost use Rattle.std.specs.Prelude.{◌≡◌};
ghost use Rattle.why_lost.specs.WhyLost.{why_lost_bytes};
ghost use Rattle.relay.specs.Lost.{packed_lost, not_lost};

use answer::pack;

// The value where no item covers the number: it is no place, since every place is below the limit. The definition is not_lost.
const NOT_LOST: u64 = 0xFFFF_FFFF;

pub fn xez_why_lost(list: &[u8], number: u32) -> u64
    ensures { result ≡ packed_lost (why_lost_bytes list.now number) }
{
    match why_lost::why_lost_bytes(list, number) {
        Ok(Some(place)) => place as u64,
        Ok(None) => NOT_LOST,
        Err(r) => pack(r),
    }
}
