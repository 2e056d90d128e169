// Data packets: a header of 16 bytes, and the payload, which is lent and never held. What the bytes mean stands in
// specs/Layout.antt; what is read and what is written, and what is refused, in specs/Reading.antt and specs/Writing.antt.

#![tactic(auto)]

ghost use Rattle.std.specs.Prelude.{◌≡◌, ◌+◌, ◌≤◌, ◌<◌, ◌^◌, ◌++◌, length, drop};
ghost use Rattle.wire.specs.Lent.{Wrote};
ghost use Rattle.data_packet.specs.Layout.{header_size, record_of};
ghost use Rattle.data_packet.specs.Reading.{parsed, Payload};
ghost use Rattle.data_packet.specs.Writing.{bit_of, second_word, bytes_of, judged, wire_size};

use msg_number::MsgNumber;
use packet_kinds::{DataEncryption, IpFamily, PacketLocation};
use refusal::{Field, Refusal};
use ring::RingNumber;
use seq_number::SeqNumber;

// Microseconds since the connection began.
#[derive(Clone, Copy)]
pub struct TimeStamp(pub u32);

#[derive(Clone, Copy)]
pub struct SocketId(pub u32);

//  0                   1                   2                   3
//  0 1 2 3 4 5 6 7 8 9 0 1 2 3 4 5 6 7 8 9 0 1 2 3 4 5 6 7 8 9 0 1
//  +-+-+-+-+-+-+-+-+-+-+-+-+-+-+-+-+-+-+-+-+-+-+-+-+-+-+-+-+-+-+-+-+
//  |0|                   Packet Sequence Number                    |
//  +-+-+-+-+-+-+-+-+-+-+-+-+-+-+-+-+-+-+-+-+-+-+-+-+-+-+-+-+-+-+-+-+
//  |P P|O|K K|R|                 Message Number                    |
//  +-+-+-+-+-+-+-+-+-+-+-+-+-+-+-+-+-+-+-+-+-+-+-+-+-+-+-+-+-+-+-+-+
//  |                          Time Stamp                           |
//  +-+-+-+-+-+-+-+-+-+-+-+-+-+-+-+-+-+-+-+-+-+-+-+-+-+-+-+-+-+-+-+-+
//  |                    Destination Socket ID                      |
//  +-+-+-+-+-+-+-+-+-+-+-+-+-+-+-+-+-+-+-+-+-+-+-+-+-+-+-+-+-+-+-+-+
//  |                          Payload ..                           |
//
// P: location (10 first, 00 middle, 01 last, 11 only). O: in order. K: key (00 none, 01 even, 10 odd). R: sent again.
#[derive(Clone, Copy)]
pub struct DataPacket {
    // A ring number of 31 bits.
    pub seq_number: SeqNumber,
    pub message_loc: PacketLocation,
    pub in_order_delivery: bool,
    pub encryption: DataEncryption,
    pub retransmitted: bool,
    // A ring number of 26 bits.
    pub message_number: MsgNumber,
    pub timestamp: TimeStamp,
    pub dest_sockid: SocketId,
    // In none of the bytes: given to the reader, and kept.
    pub family: IpFamily,
}

impl DataPacket {
    // With the 20 bytes of IPv4 and the 8 of UDP, as the crate counts.
    pub const HEADER_SIZE: usize = 44;

    // With the 40 bytes of IPv6 and the 8 of UDP.
    pub const HEADER_SIZE_V6: usize = 64;

    // The four words before the payload.
    pub const SRT_HEADER_SIZE: usize = 16;

    pub const PAYLOAD_MAX: usize = 65535;

    // The record that a header's bits make, whatever they are.
    #[tactic(auto, unfolding(crate::specs::Layout::record_of))]
    fn header(buf: &[u8], family: IpFamily) -> DataPacket
        ensures { result ≡ record_of buf.now family }
    {
        let second = wire::word_at(buf, 1);
        DataPacket {
            seq_number: SeqNumber::new_truncate(wire::word_at(buf, 0)),
            message_loc: PacketLocation::from(second / 0x4000_0000 % 4),
            in_order_delivery: second / 0x2000_0000 % 2 == 1,
            encryption: DataEncryption::from(second / 0x800_0000 % 4),
            retransmitted: second / 0x400_0000 % 2 == 1,
            message_number: MsgNumber::new_truncate(second),
            timestamp: TimeStamp(wire::word_at(buf, 2)),
            dest_sockid: SocketId(wire::word_at(buf, 3)),
            family,
        }
    }

    // Reads any bytes that came by that family. The payload is what follows the header, to the end: `payload` lends it.
    #[tactic(auto, unfolding(crate::specs::Reading::parsed))]
    pub fn parse(buf: &[u8], family: IpFamily) -> Result<DataPacket, Refusal>
        ensures { result ≡ parsed buf.now family }
    {
        if buf.len() < DataPacket::SRT_HEADER_SIZE {
            return Err(Refusal::NotEnoughData);
        }
        if DataPacket::SRT_HEADER_SIZE + DataPacket::PAYLOAD_MAX < buf.len() {
            return Err(Refusal::TooLong(DataPacket::PAYLOAD_MAX));
        }
        if wire::word_at(buf, 0) / 0x8000_0000 % 2 == 1 {
            return Err(Refusal::ControlBit);
        }
        if wire::word_at(buf, 1) / 0x800_0000 % 4 == 3 {
            return Err(Refusal::BadDataEncryption(0x18));
        }
        Ok(DataPacket::header(buf, family))
    }

    // The bytes after the header, lent on; none where the packet is refused. The family changes nothing here.
    #[tactic(auto, using(crate::proofs::Read::read_whole))]
    pub fn payload(buf: &[u8]) -> &[u8]
        ensures { Payload buf.entry result }
    {
        match DataPacket::parse(buf, IpFamily::V4) {
            Ok(_) => &buf[DataPacket::SRT_HEADER_SIZE..],
            Err(_) => &buf[..0],
        }
    }

    // The word that holds the location, the flags, the key and the message number.
    #[tactic(auto, unfolding(crate::specs::Writing::second_word))]
    fn second_word(self) -> u32
        requires { self.message_number.0 < 2 ^ 26 }
        ensures { result ≡ second_word self }
    {
        u32::from(self.message_loc) * 0x4000_0000
            + u32::from(self.in_order_delivery) * 0x2000_0000
            + u32::from(self.encryption) * 0x800_0000
            + u32::from(self.retransmitted) * 0x400_0000
            + self.message_number.0
    }

    // Writes the packet to the front of a buffer that has room for it.
    fn put(self, payload: &[u8], into: &mut [u8])
        requires message_number_bound { self.message_number.0 < 2 ^ 26 }
        requires room { header_size + length payload.now ≤ length into.old }
        ensures { into.new ≡ bytes_of self payload.now ++ drop (header_size + length payload.now) into.old }
    {
        let end = DataPacket::SRT_HEADER_SIZE + payload.len();
        wire::put_word(self.seq_number.0, &mut into[0..4]);
        wire::put_word(self.second_word(), &mut into[4..8]);
        wire::put_word(self.timestamp.0, &mut into[8..12]);
        wire::put_word(self.dest_sockid.0, &mut into[12..16]);
        copy::put(payload, &mut into[DataPacket::SRT_HEADER_SIZE..end]);
    }

    // The answer to a write, from the record, the payload's length and the room.
    #[tactic(auto, unfolding(crate::specs::Writing::judged))]
    fn judge(self, bytes: usize, room: usize) -> Result<usize, Refusal>
        ensures { result ≡ judged self bytes room }
    {
        if DataPacket::PAYLOAD_MAX < bytes {
            return Err(Refusal::TooLong(DataPacket::PAYLOAD_MAX));
        }
        if SeqNumber::MAX <= self.seq_number.0 {
            return Err(Refusal::FieldTooWide(Field::Sequence));
        }
        if MsgNumber::MAX <= self.message_number.0 {
            return Err(Refusal::FieldTooWide(Field::Message));
        }
        let needed = DataPacket::SRT_HEADER_SIZE + bytes;
        if room < needed {
            return Err(Refusal::NoRoom(needed));
        }
        Ok(needed)
    }

    // Judged whole before the first byte is written, since a refusal may leave nothing behind.
    pub fn serialize(self, payload: &[u8], into: &mut [u8]) -> Result<usize, Refusal>
        ensures { Wrote (judged self (length payload.now) (length into.old)) (bytes_of self payload.now) into.old result into.new }
    {
        let size = self.judge(payload.len(), into.len())?;
        self.put(payload, into);
        Ok(size)
    }

    // What a packet with so many bytes of payload takes up on the wire, with the headers of IP and UDP.
    #[tactic(auto, unfolding(crate::specs::Writing::wire_size))]
    pub fn size_on_wire(family: IpFamily, bytes: usize) -> Result<usize, Refusal>
        ensures { result ≡ wire_size family bytes }
    {
        if bytes <= DataPacket::PAYLOAD_MAX {
            match family {
                IpFamily::V4 => Ok(DataPacket::HEADER_SIZE + bytes),
                IpFamily::V6 => Ok(DataPacket::HEADER_SIZE_V6 + bytes),
            }
        } else {
            Err(Refusal::TooLong(DataPacket::PAYLOAD_MAX))
        }
    }

    // What the packet takes up on the wire.
    pub fn wire_size(self, payload: &[u8]) -> Result<usize, Refusal>
        ensures { result ≡ wire_size self.family (length payload.now) }
    {
        DataPacket::size_on_wire(self.family, payload.len())
    }
}
