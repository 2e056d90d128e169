// Questions on data packets, of IPv4 and of IPv6: a packet read and written, its payload, and its size on the wire.
use super::Parts;
use super::say::{Answer, Out, Refused, unpacked, wrote};
use data_packet::{DataPacket, SocketId, TimeStamp};
use msg_number::MsgNumber;
use packet_kinds::{DataEncryption, IpFamily, PacketLocation};
use seq_number::SeqNumber;
use std::fmt::{self, Write};

// The longest payload whose size on the wire is asked.
const LONGEST: usize = 70000;

#[derive(Clone, Copy)]
pub enum Question {
    Read(IpFamily),
    Payload,
    Write(DataPacket),
    // Its size with a payload of so many zeros.
    WireSize(DataPacket, usize),
    // What a C program is told of the size, of a family that it names by any number.
    SizeToC { family: u32, bytes: usize },
}

// Questions to 24, and those plus 100, are of IPv4.
fn family(number: u32) -> IpFamily {
    if number % 100 <= 24 {
        IpFamily::V4
    } else {
        IpFamily::V6
    }
}

// Kinds are read and written by tables of this program's own: what is asked about cannot garble what is asked.
fn location_of(n: u32) -> PacketLocation {
    match n {
        1 => PacketLocation::Last,
        2 => PacketLocation::First,
        3 => PacketLocation::Only,
        _ => PacketLocation::Middle,
    }
}

fn encryption_of(n: u32) -> DataEncryption {
    match n {
        1 => DataEncryption::Even,
        2 => DataEncryption::Odd,
        _ => DataEncryption::None,
    }
}

// Each with the space before it, as the flags below.
fn location(location: PacketLocation) -> &'static str {
    match location {
        PacketLocation::Middle => " 0",
        PacketLocation::Last => " 1",
        PacketLocation::First => " 2",
        PacketLocation::Only => " 3",
    }
}

fn encryption(encryption: DataEncryption) -> &'static str {
    match encryption {
        DataEncryption::None => " 0",
        DataEncryption::Even => " 1",
        DataEncryption::Odd => " 2",
    }
}

fn flag(up: bool) -> &'static str {
    if up { " 1" } else { " 0" }
}

fn packet(numbers: [u32; 8], family: IpFamily) -> DataPacket {
    let [
        sequence,
        location,
        in_order,
        key,
        retransmitted,
        message,
        time,
        socket,
    ] = numbers;
    DataPacket {
        seq_number: SeqNumber(sequence),
        message_loc: location_of(location),
        in_order_delivery: in_order == 1,
        encryption: encryption_of(key),
        retransmitted: retransmitted == 1,
        message_number: MsgNumber(message),
        timestamp: TimeStamp(time),
        dest_sockid: SocketId(socket),
        family,
    }
}

fn record(packet: DataPacket, payload: &[u8], out: &mut Out) -> fmt::Result {
    write!(
        out,
        "ok {}{}{}{}{}",
        packet.seq_number.0,
        location(packet.message_loc),
        flag(packet.in_order_delivery),
        encryption(packet.encryption),
        flag(packet.retransmitted)
    )?;
    write!(
        out,
        " {} {} {}",
        packet.message_number.0, packet.timestamp.0, packet.dest_sockid.0
    )?;
    match packet.wire_size(payload) {
        Ok(size) => write!(out, " {size} ")?,
        Err(_) => write!(out, " none ")?,
    }
    out.hex(payload)
}

impl Question {
    // The question of a number from 21 to 30, or that plus 100.
    pub fn new(number: u32, numbers: [u32; 8]) -> Question {
        let family = family(number);
        match number {
            21 | 25 => Question::Read(family),
            22 | 26 | 122 | 126 => Question::Write(packet(numbers, family)),
            23 => Question::Payload,
            29 => Question::SizeToC {
                family: numbers[0],
                bytes: numbers[1] as usize,
            },
            _ => Question::WireSize(packet(numbers, family), numbers[0] as usize),
        }
    }

    // Says how many bytes of the buffer may be others now.
    pub fn answer(
        self,
        parts: Parts<'_>,
        into: &mut [u8],
        out: &mut Out,
    ) -> Result<usize, fmt::Error> {
        match self {
            Question::Read(family) => match DataPacket::parse(parts.first, family) {
                Ok(packet) => record(packet, DataPacket::payload(parts.first), out)?,
                Err(why) => write!(out, "{}", Refused::from(why))?,
            },
            Question::Payload => out.ok_hex(DataPacket::payload(parts.first))?,
            Question::Write(packet) => {
                let written = packet.serialize(parts.first, into);
                return wrote(written, parts.given, into, out);
            }
            Question::WireSize(packet, bytes) => {
                if let Some(payload) = [0; LONGEST].get(..bytes) {
                    let answer = packet.wire_size(payload);
                    write!(out, "{}", Answer(answer.map_err(Refused::from)))?;
                }
            }
            Question::SizeToC { family, bytes } => {
                let packed = relay::data::xez_wire_size(family, bytes);
                write!(out, "{}", Answer(unpacked(packed)))?;
            }
        }
        Ok(0)
    }
}
