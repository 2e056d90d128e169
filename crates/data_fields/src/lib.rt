// A data packet's fields as words of a C program: ten words of the program's own for the header, one that it may give for
// the family, and the payload where it lies. What the words mean, and what is answered, stands in specs/Data.antt.

#![tactic(auto)]

ghost use Rattle.std.specs.Prelude.{◌≡◌, ◌++◌, ◌≤◌, length, drop};
ghost use Rattle.wire.specs.Lent.{Wrote};
ghost use Rattle.data_packet.specs.Reading.{parsed};
ghost use Rattle.data_packet.specs.Writing.{bytes_of};
ghost use Rattle.data_fields.specs.Data.{field_count, family_in, begins, ends, odd, even, fields_of, location_from, record_from, encryption_given, record_given, data_answered, fields_left, data_written, ReadsData, WritesData, size_on_wire};

use answer::packed;
use data_packet::{DataPacket, SocketId, TimeStamp};
use msg_number::MsgNumber;
use packet_kinds::{DataEncryption, IpFamily, PacketLocation};
use refusal::Refusal;
use seq_number::SeqNumber;

// How many words a header's fields take, and so where the family stands.
const FIELDS: usize = 10;

// The family that the program gives, V4 where it gives none.
#[tactic(auto, unfolding(packet_kinds::specs::Kinds::family))]
fn family_in(fields: &[u32]) -> IpFamily
    ensures { result ≡ family_in fields.now }
{
    match fields.get(FIELDS) {
        Some(version) => IpFamily::from(*version),
        None => IpFamily::V4,
    }
}

// A function for each flag's word, as specs/Data.antt has a definition for each.
fn begins(location: PacketLocation) -> u32
    ensures { result ≡ begins location }
{
    u32::from(matches!(location, PacketLocation::First | PacketLocation::Only))
}

fn ends(location: PacketLocation) -> u32
    ensures { result ≡ ends location }
{
    u32::from(matches!(location, PacketLocation::Last | PacketLocation::Only))
}

fn odd(key: DataEncryption) -> u32
    ensures { result ≡ odd key }
{
    u32::from(key == DataEncryption::Odd)
}

fn even(key: DataEncryption) -> u32
    ensures { result ≡ even key }
{
    u32::from(key == DataEncryption::Even)
}

// Puts what a record has of the header. As an array that is copied, the ten words would pass through the stack, and reading took half as long again.
fn put_fields(p: DataPacket, into: &mut [u32])
    requires { field_count ≤ length into.old }
    ensures { into.new ≡ fields_of p ++ drop field_count into.old }
{
    into[0] = p.seq_number.0;
    into[1] = begins(p.message_loc);
    into[2] = ends(p.message_loc);
    into[3] = u32::from(p.in_order_delivery);
    into[4] = odd(p.encryption);
    into[5] = even(p.encryption);
    into[6] = u32::from(p.retransmitted);
    into[7] = p.message_number.0;
    into[8] = p.timestamp.0;
    into[9] = p.dest_sockid.0;
}

// Reads a packet into words, of which the family's stays as it is, and answers the payload's length.
#[tactic(auto, unfolding(crate::specs::Data::data_answered, crate::specs::Data::fields_left), using(data_packet::proofs::Read::read_whole))]
fn read(packet: &[u8], into: &mut [u32]) -> Result<usize, Refusal>
    ensures answer { result ≡ data_answered (parsed packet.now (family_in into.old)) (length packet.now) (length into.old) }
    ensures leaves { into.new ≡ fields_left (parsed packet.now (family_in into.old)) into.old }
{
    let p = DataPacket::parse(packet, family_in(into))?;
    if into.len() < FIELDS {
        return Err(Refusal::NoRoom(FIELDS));
    }
    put_fields(p, into);
    Ok(packet.len() - DataPacket::SRT_HEADER_SIZE)
}

// Reads a packet into the program's words, of which the family's stays as it is, and answers the payload's length.
pub fn read_data(packet: &[u8], fields: &mut [u32]) -> u64
    ensures { ReadsData packet.now fields.old result fields.new }
{
    packed(read(packet, fields))
}

fn location_from(begins: bool, ends: bool) -> PacketLocation
    ensures { result ≡ location_from begins ends }
{
    match (begins, ends) {
        (true, true) => PacketLocation::Only,
        (true, false) => PacketLocation::First,
        (false, true) => PacketLocation::Last,
        (false, false) => PacketLocation::Middle,
    }
}

// Both keys up is no key at all.
fn encryption_from(odd: bool, even: bool) -> Result<DataEncryption, Refusal>
    ensures { result ≡ encryption_given odd even }
{
    match (odd, even) {
        (true, true) => Err(Refusal::BadDataEncryption(0x18)),
        (true, false) => Ok(DataEncryption::Odd),
        (false, true) => Ok(DataEncryption::Even),
        (false, false) => Ok(DataEncryption::None),
    }
}

// The record that the words make, which are a C program's, lent as they lie. A flag's word is up where it is not 0.
#[tactic(auto, unfolding(crate::specs::Data::record_given, crate::specs::Data::record_from))]
fn record_from(fields: &[u32]) -> Result<DataPacket, Refusal>
    ensures { result ≡ record_given fields.now }
{
    if fields.len() < FIELDS {
        return Err(Refusal::NotEnoughData);
    }
    Ok(DataPacket {
        seq_number: SeqNumber(fields[0]),
        message_loc: location_from(fields[1] != 0, fields[2] != 0),
        in_order_delivery: fields[3] != 0,
        encryption: encryption_from(fields[4] != 0, fields[5] != 0)?,
        retransmitted: fields[6] != 0,
        message_number: MsgNumber(fields[7]),
        timestamp: TimeStamp(fields[8]),
        dest_sockid: SocketId(fields[9]),
        family: family_in(fields),
    })
}

// Writes the record that words make, with a payload, and answers the packet's length.
#[tactic(auto, unfolding(crate::specs::Data::data_written))]
fn write(fields: &[u32], payload: &[u8], into: &mut [u8]) -> Result<usize, Refusal>
    ensures { Wrote (data_written fields.now (length payload.now) (length into.old)) (bytes_of (record_from fields.now) payload.now) into.old result into.new }
{
    record_from(fields)?.serialize(payload, into)
}

// Writes the record that the program's words make, with a payload, and answers the packet's length.
pub fn write_data(fields: &[u32], payload: &[u8], packet: &mut [u8]) -> u64
    ensures { WritesData fields.now payload.now packet.old result packet.new }
{
    packed(write(fields, payload, packet))
}

// What a packet of that family, given as in the words, takes up on the wire with so many bytes of payload.
pub fn wire_size(family: u32, bytes: usize) -> u64
    ensures { result ≡ size_on_wire family bytes }
{
    packed(DataPacket::size_on_wire(IpFamily::from(family), bytes))
}
