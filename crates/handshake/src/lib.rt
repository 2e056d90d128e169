// The handshake extension: types 1 and 2.

#![tactic(auto)]

ghost use Rattle.std.specs.Prelude.{◌≡◌, ◌<◌, length};
ghost use Rattle.handshake.specs.Handshake.{handshake_read, handshake_written, handshake_bytes};
ghost use Rattle.wire.specs.Lent.{Wrote};

use copy::put;
use refusal::{Field, Refusal};
use wire::word_at;

//   0                   1                   2                   3
//   0 1 2 3 4 5 6 7 8 9 0 1 2 3 4 5 6 7 8 9 0 1 2 3 4 5 6 7 8 9 0 1
//  +-+-+-+-+-+-+-+-|-+-+-+-+-+-+-+-|-+-+-+-+-+-+-+-|-+-+-+-+-+-+-+-+
//  |                          SRT version                          |
//  +-+-+-+-+-+-+-+-|-+-+-+-+-+-+-+-|-+-+-+-+-+-+-+-|-+-+-+-+-+-+-+-+
//  |             dropped on reading                |   SRT flags   |
//  +-+-+-+-+-+-+-+-|-+-+-+-+-+-+-+-|-+-+-+-+-+-+-+-|-+-+-+-+-+-+-+-+
//  |      send latency, ms         |      receive latency, ms      |
//  +-+-+-+-+-+-+-+-|-+-+-+-+-+-+-+-|-+-+-+-+-+-+-+-|-+-+-+-+-+-+-+-+
#[derive(Clone, Copy)]
pub struct SrtHandshake {
    // major * 0x10000 + minor * 0x100 + patch; the top byte is kept as it came.
    pub version: u32,
    // Only the low 8 bits can be written.
    pub flags: u32,
    // The draft calls this one the receiver's delay.
    pub send_latency: u16,
    pub recv_latency: u16,
}

impl SrtHandshake {
    // The length on the wire.
    pub const SIZE: usize = 12;

    // The record, and how many bytes it uses.
    pub fn parse(buf: &[u8]) -> Result<(SrtHandshake, usize), Refusal>
        ensures { result ≡ handshake_read buf.now }
    {
        if buf.len() < SrtHandshake::SIZE {
            return Err(Refusal::NotEnoughData);
        }
        let latencies = word_at(buf, 2);
        let handshake = SrtHandshake {
            version: word_at(buf, 0),
            flags: word_at(buf, 1) % 256,
            send_latency: (latencies / 0x1_0000) as u16,
            recv_latency: (latencies % 0x1_0000) as u16,
        };
        Ok((handshake, SrtHandshake::SIZE))
    }

    // The twelve bytes of a record whose flags have 8 bits.
    fn bytes(self) -> [u8; 12]
        requires { self.flags < 256 }
        ensures { result ≡ handshake_bytes self }
    {
        let version = self.version.to_be_bytes();
        let send = self.send_latency.to_be_bytes();
        let recv = self.recv_latency.to_be_bytes();
        [
            version[0],
            version[1],
            version[2],
            version[3],
            0,
            0,
            0,
            self.flags as u8,
            send[0],
            send[1],
            recv[0],
            recv[1],
        ]
    }

    pub fn serialize(self, into: &mut [u8]) -> Result<usize, Refusal>
        ensures { Wrote (handshake_written self (length into.old)) (handshake_bytes self) into.old result into.new }
    {
        if 256 <= self.flags {
            return Err(Refusal::FieldTooWide(Field::HandshakeFlags));
        }
        if into.len() < SrtHandshake::SIZE {
            return Err(Refusal::NoRoom(SrtHandshake::SIZE));
        }
        put(&self.bytes(), into);
        Ok(SrtHandshake::SIZE)
    }
}
