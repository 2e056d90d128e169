// The C functions, declared in include/xezalbur.h: here the two that write lists, which take words as bytes, four big-endian to a
// word; why a number is lost in lost, two lists merged in merged, data packets in data, key material in key. Each packs the refusal number and its own value or the carried number
// into one u64. The buffers of a call must not overlap: that is the C side's duty.

#![tactic(auto)]

pub mod data;
pub mod key;
pub mod lost;
pub mod merged;

ghost use Rattle.relay.specs.Lists.{Compresses, Expands};

use answer::packed;

#[tactic(auto, using(crate::proofs::Packs::compressed_whole))]
pub fn xez_compress(input: &[u8], output: &mut [u8]) -> u64
    ensures { Compresses input.now output.old result output.new }
{
    packed(byte_compression::compress_bytes(input, output))
}

#[tactic(auto, using(crate::proofs::Packs::expanded_whole))]
pub fn xez_expand(input: &[u8], output: &mut [u8]) -> u64
    ensures { Expands input.now output.old result output.new }
{
    packed(byte_expansion::decompress_bytes(input, output))
}
