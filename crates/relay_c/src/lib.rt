// The C functions, declared in include/xezalbur.h, under the names that a C program calls: each is its namesake of relay, with the same clauses. The buffers of a call must not overlap: that is the C side's duty.

#![tactic(auto)]

ghost use Rattle.std.specs.Prelude.{◌≡◌};
ghost use Rattle.data_fields.specs.Data.{ReadsData, WritesData, size_on_wire};
ghost use Rattle.key_fields.specs.Key.{ReadsKey};
ghost use Rattle.relay.specs.Lists.{Compresses, Expands};
ghost use Rattle.relay.specs.Lost.{packed_lost};
ghost use Rattle.relay.specs.Merged.{Merges};
ghost use Rattle.why_lost.specs.WhyLost.{why_lost_bytes};

#[unsafe(no_mangle)]
pub extern "C" fn xez_compress(input: &[u8], output: &mut [u8]) -> u64
    ensures { Compresses input.now output.old result output.new }
{
    relay::xez_compress(input, output)
}

#[unsafe(no_mangle)]
pub extern "C" fn xez_expand(input: &[u8], output: &mut [u8]) -> u64
    ensures { Expands input.now output.old result output.new }
{
    relay::xez_expand(input, output)
}

#[unsafe(no_mangle)]
pub extern "C" fn xez_why_lost(list: &[u8], number: u32) -> u64
    ensures { result ≡ packed_lost (why_lost_bytes list.now number) }
{
    relay::lost::xez_why_lost(list, number)
}

#[unsafe(no_mangle)]
pub extern "C" fn xez_merge(oldest: u32, first: &[u8], second: &[u8], output: &mut [u8]) -> u64
    ensures { Merges oldest first.now second.now output.old result output.new }
{
    relay::merged::xez_merge(oldest, first, second, output)
}

#[unsafe(no_mangle)]
pub extern "C" fn xez_read_data(packet: &[u8], fields: &mut [u32]) -> u64
    ensures { ReadsData packet.now fields.old result fields.new }
{
    relay::data::xez_read_data(packet, fields)
}

#[unsafe(no_mangle)]
pub extern "C" fn xez_write_data(fields: &[u32], payload: &[u8], packet: &mut [u8]) -> u64
    ensures { WritesData fields.now payload.now packet.old result packet.new }
{
    relay::data::xez_write_data(fields, payload, packet)
}

#[unsafe(no_mangle)]
pub extern "C" fn xez_wire_size(family: u32, bytes: usize) -> u64
    ensures { result ≡ size_on_wire family bytes }
{
    relay::data::xez_wire_size(family, bytes)
}

#[unsafe(no_mangle)]
pub extern "C" fn xez_read_key(message: &[u8], fields: &mut [u32]) -> u64
    ensures { ReadsKey message.now fields.old result fields.new }
{
    relay::key::xez_read_key(message, fields)
}
