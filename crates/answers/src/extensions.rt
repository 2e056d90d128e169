// Questions on extensions: one read by its type, with its type and its size in words; a handshake, a group and key material
// written; the salt, the wrapped keys and the auth of key material, and why it is refused.
use super::Parts;
use super::say::{Out, Refused, wrote};
use extension::SrtControlPacket;
use group::{Group, GroupType};
use handshake::SrtHandshake;
use key_kinds::{CipherType, PacketType};
use key_material::{Auth, KeyingMaterialMessage};
use std::fmt::{self, Write};

#[derive(Clone, Copy)]
pub enum Question {
    Read(u16),
    Type(u16),
    SizeInWords(u16),
    WriteHandshake(SrtHandshake),
    WriteGroup(Group),
    WriteKey(KeyingMaterialMessage),
    Salt,
    WrappedKeys,
    Auth,
    WhyRefused,
}

// Of a number that is judged before to have no more bits.
fn half(n: u32) -> u16 {
    (n & 0xffff) as u16
}

// Flags of more than 8 bits are as much too wide as those of 8.
fn byte(n: u32) -> u8 {
    u8::try_from(n).unwrap_or(255)
}

// The type as the reader has it, or always as one that it does not know.
fn group_type(n: u8, unrecognized: bool) -> GroupType {
    if unrecognized {
        GroupType::Unrecognized(n)
    } else {
        GroupType::from(n)
    }
}

// Kinds are read and written by tables of this program's own: what is asked about cannot garble what is asked.
fn packet_type_of(n: u32) -> PacketType {
    match n {
        1 => PacketType::MediaStream,
        _ => PacketType::KeyingMaterial,
    }
}

// Any other number is none.
fn cipher_of(n: u32) -> CipherType {
    match n {
        1 => CipherType::Ecb,
        2 => CipherType::Ctr,
        3 => CipherType::Cbc,
        _ => CipherType::None,
    }
}

// Each with the space before it.
fn packet_type(kind: PacketType) -> &'static str {
    match kind {
        PacketType::MediaStream => " 1",
        PacketType::KeyingMaterial => " 2",
    }
}

fn cipher(cipher: CipherType) -> &'static str {
    match cipher {
        CipherType::None => " 0",
        CipherType::Ecb => " 1",
        CipherType::Ctr => " 2",
        CipherType::Cbc => " 3",
    }
}

impl Question {
    // The question of a number from 31 to 40.
    pub fn new(number: u32, numbers: [u32; 8]) -> Question {
        let [a, b, c, d, ..] = numbers;
        match number {
            31 => Question::Read(half(a)),
            32 => Question::Type(half(a)),
            33 => Question::SizeInWords(half(a)),
            34 => Question::WriteHandshake(SrtHandshake {
                version: a,
                flags: b,
                send_latency: half(c),
                recv_latency: half(d),
            }),
            35 => Question::WriteGroup(Group {
                ty: group_type(byte(a), b == 1),
                flags: byte(c),
                weight: half(d),
            }),
            // The record's places and lengths are not looked at, so they are none that a reader gives.
            36 => Question::WriteKey(KeyingMaterialMessage {
                pt: packet_type_of(a),
                key_flags: byte(b),
                keki: c,
                cipher: cipher_of(d),
                auth: Auth::None,
                salt_at: 1,
                salt_len: 3,
                wrapped_keys_at: 5,
                wrapped_keys_len: 7,
            }),
            37 => Question::Salt,
            38 => Question::WrappedKeys,
            40 => Question::WhyRefused,
            _ => Question::Auth,
        }
    }

    // Says how many bytes of the buffer may be others now.
    pub fn answer(
        self,
        parts: Parts<'_>,
        into: &mut [u8],
        out: &mut Out,
    ) -> Result<usize, fmt::Error> {
        let part = parts.first;
        match self {
            Question::WriteHandshake(handshake) => {
                return wrote(handshake.serialize(into), parts.given, into, out);
            }
            Question::WriteGroup(group) => {
                return wrote(group.serialize(into), parts.given, into, out);
            }
            Question::WriteKey(key) => {
                let written = key.serialize(part, parts.second, into);
                return wrote(written, parts.given, into, out);
            }
            Question::Read(kind) => read(SrtControlPacket::parse(kind, part), part, out)?,
            Question::Type(kind) => {
                write!(out, "ok {}", SrtControlPacket::parse(kind, part).type_id())?;
            }
            Question::SizeInWords(kind) => {
                write!(
                    out,
                    "ok {}",
                    SrtControlPacket::parse(kind, part).size_words()
                )?;
            }
            Question::Salt => out.ok_hex(KeyingMaterialMessage::salt(part))?,
            Question::WrappedKeys => {
                out.ok_hex(KeyingMaterialMessage::wrapped_keys(part))?;
            }
            Question::Auth => auth(part, out)?,
            Question::WhyRefused => why(part, out)?,
        }
        Ok(0)
    }
}

fn read(packet: SrtControlPacket, part: &[u8], out: &mut Out) -> fmt::Result {
    match packet {
        SrtControlPacket::Reject { used } => write!(out, "ok 0 {used}"),
        SrtControlPacket::HandshakeRequest { handshake, used } => {
            write!(out, "ok 1")?;
            handshake_fields(handshake, used, out)
        }
        SrtControlPacket::HandshakeResponse { handshake, used } => {
            write!(out, "ok 2")?;
            handshake_fields(handshake, used, out)
        }
        SrtControlPacket::KeyRefreshRequest { key, used } => {
            write!(out, "ok 3")?;
            key_fields(key, used, part, out)
        }
        SrtControlPacket::KeyRefreshResponse { key, used } => {
            write!(out, "ok 4")?;
            key_fields(key, used, part, out)
        }
        SrtControlPacket::Group { group, used } => {
            write!(out, "ok 8 ")?;
            name(group.ty, out)?;
            write!(out, " {} {} {used}", group.flags, group.weight)
        }
        SrtControlPacket::Refused { refusal, .. } => write!(out, "{}", Refused::from(refusal)),
    }
}

fn handshake_fields(handshake: SrtHandshake, used: usize, out: &mut Out) -> fmt::Result {
    write!(out, " {} {}", handshake.version, handshake.flags)?;
    write!(
        out,
        " {} {} {used}",
        handshake.send_latency, handshake.recv_latency
    )
}

fn key_fields(key: KeyingMaterialMessage, used: usize, part: &[u8], out: &mut Out) -> fmt::Result {
    write!(
        out,
        "{} {} {}",
        packet_type(key.pt),
        key.key_flags,
        key.keki
    )?;
    write!(out, "{} {}", cipher(key.cipher), key.salt_at)?;
    write!(out, " {} ", key.wrapped_keys_at)?;
    out.hex(KeyingMaterialMessage::salt(part))?;
    write!(out, " ")?;
    out.hex(KeyingMaterialMessage::wrapped_keys(part))?;
    write!(out, " {used}")
}

fn name(ty: GroupType, out: &mut Out) -> fmt::Result {
    match ty {
        GroupType::Undefined => write!(out, "undefined"),
        GroupType::Broadcast => write!(out, "broadcast"),
        GroupType::MainBackup => write!(out, "backup"),
        GroupType::Balancing => write!(out, "balancing"),
        GroupType::Multicast => write!(out, "multicast"),
        GroupType::Unrecognized(n) => write!(out, "unrecognized {n}"),
    }
}

fn auth(part: &[u8], out: &mut Out) -> fmt::Result {
    match KeyingMaterialMessage::parse(part) {
        Ok((key, _)) => match key.auth {
            Auth::None => write!(out, "ok 0"),
        },
        Err(why) => write!(out, "{}", Refused::from(why)),
    }
}

// A refusal with the last byte that the failed check looked at.
fn why(part: &[u8], out: &mut Out) -> fmt::Result {
    let Err(fault) = key_checks::judge(part) else {
        return write!(out, "ok");
    };
    let refused = Refused::from(fault.refusal);
    match fault.looked {
        Some(offset) => write!(out, "{refused} at {offset}"),
        None => write!(out, "{refused} nowhere"),
    }
}
