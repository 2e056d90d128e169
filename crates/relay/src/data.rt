// Data packets: the functions of data_fields under the names that include/xezalbur.h declares.
ghost use Rattle.std.specs.Prelude.{◌≡◌};
ghost use Rattle.data_fields.specs.Data.{ReadsData, WritesData, size_on_wire};

pub fn xez_read_data(packet: &[u8], fields: &mut [u32]) -> u64
    ensures { ReadsData packet.now fields.old result fields.new }
{
    data_fields::read_data(packet, fields)
}

pub fn xez_write_data(fields: &[u32], payload: &[u8], packet: &mut [u8]) -> u64
    ensures { WritesData fields.now payload.now packet.old result packet.new }
{
    data_fields::write_data(fields, payload, packet)
}

pub fn xez_wire_size(family: u32, bytes: usize) -> u64
    ensures { result ≡ size_on_wire family bytes }
{
    data_fields::wire_size(family, bytes)
}
