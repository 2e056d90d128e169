// Two lists merged, for a C program.
ghost use Rattle.relay.specs.Merged.{Merges};

use answer::packed;

#[tactic(auto, using(crate::proofs::Packs::merged_whole))]
pub fn xez_merge(oldest: u32, first: &[u8], second: &[u8], output: &mut [u8]) -> u64
    ensures { Merges oldest first.now second.now output.old result output.new }
{
    packed(merge::merge_bytes(oldest, first, second, output))
}
