// Reads and writes packets and prints each answer, a line for each: the two packets of RULES 4, every value of byte 4,
// every length at the two limits, the order of the refusals, and writes with what they leave in the buffer; all of it for
// IPv4, and then for IPv6 but for the longest packet, which takes too many steps of the interpreter to be read twice. What it
// must print is what tests/models/data_packet_cases.py prints, which shares nothing with it.

#![tactic(auto)]

use data_packet::{DataPacket, SocketId, TimeStamp};
use msg_number::MsgNumber;
use packet_kinds::{DataEncryption, IpFamily, PacketLocation};
use refusal::Refusal;
use seq_number::SeqNumber;
use std::fmt::{self, Write};
use std::ops::Range;

const STDOUT: i32 = 1;

// Standard output, by the kit's io: over the runtime of std this takes more than twenty million steps of the interpreter.
// What it does not take is dropped, and all that comes after is tried.
#[derive(Clone, Copy)]
struct Out;

impl Write for Out {
    fn write_str(&mut self, text: &str) -> fmt::Result {
        io::write_all(STDOUT, text.as_bytes());
        Ok(())
    }
}

// A refusal by its number, with what it carries: each program says that by itself, since the library prints nothing.
#[derive(Clone, Copy)]
struct Refused(Refusal);

impl fmt::Display for Refused {
    fn fmt<W: Write>(&self, f: &mut fmt::Formatter<W>) -> fmt::Result {
        let why = self.0;
        write!(f, "refused {} {}", why.number(), why.carried())
    }
}

#[derive(Clone, Copy)]
struct Size(Result<usize, Refusal>);

impl fmt::Display for Size {
    fn fmt<W: Write>(&self, f: &mut fmt::Formatter<W>) -> fmt::Result {
        match self.0 {
            Ok(n) => write!(f, "{n}"),
            Err(why) => write!(f, "{}", Refused(why)),
        }
    }
}

fn location(location: PacketLocation) -> &'static str {
    match location {
        PacketLocation::First => "first",
        PacketLocation::Middle => "middle",
        PacketLocation::Last => "last",
        PacketLocation::Only => "only",
    }
}

fn encryption(encryption: DataEncryption) -> &'static str {
    match encryption {
        DataEncryption::None => "none",
        DataEncryption::Even => "even",
        DataEncryption::Odd => "odd",
    }
}

fn name(family: IpFamily) -> &'static str {
    match family {
        IpFamily::V4 => "IPv4",
        IpFamily::V6 => "IPv6",
    }
}

#[derive(Clone, Copy)]
struct Packet(DataPacket);

impl fmt::Display for Packet {
    fn fmt<W: Write>(&self, f: &mut fmt::Formatter<W>) -> fmt::Result {
        let packet = self.0;
        write!(
            f,
            "{} {} {} {} {}",
            packet.seq_number.0,
            location(packet.message_loc),
            u8::from(packet.in_order_delivery),
            encryption(packet.encryption),
            u8::from(packet.retransmitted)
        )?;
        write!(
            f,
            " {} {} {} {}",
            packet.message_number.0,
            packet.timestamp.0,
            packet.dest_sockid.0,
            name(packet.family)
        )
    }
}

// How long a payload is, and its first and last byte.
#[derive(Clone, Copy)]
struct Payload<'a>(&'a [u8]);

impl fmt::Display for Payload<'_> {
    fn fmt<W: Write>(&self, f: &mut fmt::Formatter<W>) -> fmt::Result {
        let payload = self.0;
        write!(f, "payload {}", payload.len())?;
        match (payload.first(), payload.last()) {
            (Some(first), Some(last)) => write!(f, " {first} {last}"),
            _ => Ok(()),
        }
    }
}

// Writes what was read into a buffer of 65,600 bytes, and prints whether its first bytes are the packet again, and the byte
// after them.
fn write_back(packet: DataPacket, bytes: &[u8]) -> fmt::Result {
    let mut into = [0x77u8; 65600];
    let size = packet.serialize(DataPacket::payload(bytes), &mut into);
    write!(Out, " back {}", Size(size))?;
    if let Ok(n) = size {
        if n < into.len() {
            write!(Out, " {} {}", u8::from(&into[..n] == bytes), into[n])?;
        }
    }
    Ok(())
}

fn read(bytes: &[u8], family: IpFamily) -> fmt::Result {
    let payload = DataPacket::payload(bytes);
    match DataPacket::parse(bytes, family) {
        Ok(packet) => {
            write!(Out, " accepted {} {}", Packet(packet), Payload(payload))?;
            write!(Out, " wire {}", Size(packet.wire_size(payload)))?;
            write_back(packet, bytes)?;
            writeln!(Out)
        }
        Err(why) => writeln!(Out, " {} {}", Refused(why), Payload(payload)),
    }
}

// The packet of RULES 4, with another byte 4.
fn read_with(byte: u8, family: IpFamily) -> fmt::Result {
    write!(Out, "byte 4 {byte}")?;
    read(
        &[0, 0, 0, 5, byte, 0, 0, 9, 0, 0, 1, 0, 0, 0, 0, 2, 0xAA],
        family,
    )
}

fn every_byte(family: IpFamily) -> fmt::Result {
    for byte in 0..=255 {
        read_with(byte, family)?;
    }
    Ok(())
}

// The first n bytes of a long packet.
fn read_first(bytes: &[u8], n: usize, family: IpFamily) -> fmt::Result {
    let Some(front) = bytes.get(..n) else {
        return Ok(());
    };
    write!(Out, "length {n}")?;
    read(front, family)
}

// A packet whose payload's bytes count up from 1, to 250 and from 0 again.
fn fill(bytes: &mut [u8]) {
    for i in DataPacket::SRT_HEADER_SIZE..bytes.len() {
        bytes[i] = ((i - 15) % 251) as u8;
    }
}

fn lengths(bytes: &[u8], of: Range<usize>, family: IpFamily) -> fmt::Result {
    for n in of {
        read_first(bytes, n, family)?;
    }
    Ok(())
}

fn set(bytes: &mut [u8], i: usize, byte: u8) {
    if let Some(at) = bytes.get_mut(i) {
        *at = byte;
    }
}

// The first n bytes with other bytes 0 and 4.
fn read_with_two(
    bytes: &mut [u8],
    first: u8,
    fifth: u8,
    n: usize,
    family: IpFamily,
) -> fmt::Result {
    set(bytes, 0, first);
    set(bytes, 4, fifth);
    write!(Out, "bytes 0 and 4 {first} {fifth}, ")?;
    read_first(bytes, n, family)
}

// The buffer's first twenty bytes, in hexadecimal.
fn show_buffer(into: &[u8]) -> fmt::Result {
    for byte in into.iter().take(20) {
        write!(Out, "{byte:02x}")?;
    }
    writeln!(Out)
}

fn record(sequence: u32, message: u32, family: IpFamily) -> DataPacket {
    DataPacket {
        seq_number: SeqNumber(sequence),
        message_loc: PacketLocation::First,
        in_order_delivery: false,
        encryption: DataEncryption::Odd,
        retransmitted: true,
        message_number: MsgNumber(message),
        timestamp: TimeStamp(0xFFFF_FFFF),
        dest_sockid: SocketId(0x0102_0304),
        family,
    }
}

// The first n bytes after a long packet's header.
fn after_header(bytes: &[u8], n: usize) -> &[u8] {
    bytes
        .get(DataPacket::SRT_HEADER_SIZE..)
        .and_then(|rest| rest.get(..n))
        .unwrap_or(&bytes[..0])
}

// Writes a payload where there is room for `room` bytes, and prints the answer and the buffer's front.
fn write(
    sequence: u32,
    message: u32,
    payload: &[u8],
    room: usize,
    family: IpFamily,
) -> fmt::Result {
    let mut buffer = [0x77; 65600];
    let into: &mut [u8] = &mut buffer;
    write!(Out, "write {sequence} {message} {} {room}:", payload.len())?;
    if room <= into.len() {
        let record = record(sequence, message, family);
        let size = record.serialize(payload, &mut into[..room]);
        write!(Out, " {}", Size(size))?;
    }
    write!(Out, " ")?;
    show_buffer(into)
}

fn writes(bytes: &[u8], family: IpFamily) -> fmt::Result {
    for (sequence, message, n, room) in [
        (5, 9, 0, 15),
        (5, 9, 0, 16),
        (5, 9, 2, 17),
        (5, 9, 2, 18),
        (5, 9, 2, 20),
        (0x7FFF_FFFF, 0x3FF_FFFF, 1, 20),
        (0x8000_0000, 0x3FF_FFFF, 1, 20),
        (0x7FFF_FFFF, 0x400_0000, 1, 20),
        (0x8000_0000, 0x400_0000, 1, 0),
        (0xFFFF_FFFF, 0xFFFF_FFFF, 65536, 0),
        (5, 9, 65535, 65550),
        (5, 9, 65536, 65552),
    ] {
        write(sequence, message, after_header(bytes, n), room, family)?;
    }
    Ok(())
}

fn wire_size(payload: &[u8], family: IpFamily) -> fmt::Result {
    let size = record(0, 0, family).wire_size(payload);
    writeln!(Out, "wire size {}: {}", payload.len(), Size(size))
}

fn cases(bytes: &[u8], family: IpFamily) -> fmt::Result {
    every_byte(family)?;
    lengths(bytes, 0..21, family)?;
    writes(bytes, family)?;
    for n in [0, 1, 65535, 65536] {
        wire_size(after_header(bytes, n), family)?;
    }
    Ok(())
}

// Where several refusals are true, the first in the order is given.
fn doubly_faulty(bytes: &mut [u8], family: IpFamily) -> fmt::Result {
    for (first, fifth, n) in [
        (0x80, 0xFF, 15),
        (0x80, 0xFF, 65552),
        (0x80, 0xFF, 16),
        (0x7F, 0xFF, 16),
        (0x7F, 0xE7, 20),
    ] {
        read_with_two(bytes, first, fifth, n, family)?;
    }
    Ok(())
}

fn run() -> fmt::Result {
    let mut long = [0; 65560];
    let bytes: &mut [u8] = &mut long;
    fill(bytes);
    cases(bytes, IpFamily::V4)?;
    lengths(bytes, 65551..65554, IpFamily::V4)?;
    cases(bytes, IpFamily::V6)?;
    lengths(bytes, 65552..65554, IpFamily::V6)?;
    doubly_faulty(bytes, IpFamily::V4)?;
    doubly_faulty(bytes, IpFamily::V6)
}

fn main() {
    // It goes to its end whatever standard output takes: `Out` does not fail.
    let _ = run();
}
