// The choice by type among handshake, key material and group: the crate's srt.rs.

#![tactic(auto)]

ghost use Rattle.std.specs.Prelude.{◌≡◌};
ghost use Rattle.extension.specs.Choice.{named, choice, type_id, key_words, size_words};

use group::Group;
use handshake::SrtHandshake;
use key_material::KeyingMaterialMessage;
use refusal::Refusal;

// What reading an extension answers: the part that its type names, with the part's own record and how many bytes it
// used, or the type and why its part is refused.
#[derive(Clone, Copy)]
pub enum SrtControlPacket {
    // ID = 0, which reads nothing.
    Reject {
        used: usize,
    },
    // ID = 1
    HandshakeRequest {
        handshake: SrtHandshake,
        used: usize,
    },
    // ID = 2
    HandshakeResponse {
        handshake: SrtHandshake,
        used: usize,
    },
    // ID = 3
    KeyRefreshRequest {
        key: KeyingMaterialMessage,
        used: usize,
    },
    // ID = 4
    KeyRefreshResponse {
        key: KeyingMaterialMessage,
        used: usize,
    },
    // ID = 8
    Group {
        group: Group,
        used: usize,
    },
    // A variant, and no Err, since a refused part has a type and a size as well: `type_id` and `size_words` answer for it.
    Refused {
        packet_type: u16,
        refusal: Refusal,
    },
}

// The part that a type names, or why it is refused.
// The type is any 16 bits of the wire, and each has an answer.
fn part(kind: u16, buf: &[u8]) -> Result<SrtControlPacket, Refusal>
    ensures { named kind result ≡ choice kind buf.now }
{
    let part = match kind {
        0 => SrtControlPacket::Reject { used: 0 },
        1 => {
            let (handshake, used) = SrtHandshake::parse(buf)?;
            SrtControlPacket::HandshakeRequest { handshake, used }
        }
        2 => {
            let (handshake, used) = SrtHandshake::parse(buf)?;
            SrtControlPacket::HandshakeResponse { handshake, used }
        }
        3 => {
            let (key, used) = KeyingMaterialMessage::parse(buf)?;
            SrtControlPacket::KeyRefreshRequest { key, used }
        }
        4 => {
            let (key, used) = KeyingMaterialMessage::parse(buf)?;
            SrtControlPacket::KeyRefreshResponse { key, used }
        }
        8 => {
            let (group, used) = Group::parse(buf)?;
            SrtControlPacket::Group { group, used }
        }
        // Texts and the filter.
        5..=7 => return Err(Refusal::LaterType(kind)),
        _ => return Err(Refusal::UnsupportedSrtExtensionType(kind)),
    };
    Ok(part)
}

// The words of a key message: those before the salt, the salt's and the wrapped keys'.
fn key_words(key: KeyingMaterialMessage) -> usize
    ensures { result ≡ key_words key }
{
    4 + key.salt_len / 4 + key.wrapped_keys_len / 4
}

impl SrtControlPacket {
    pub fn parse(kind: u16, buf: &[u8]) -> SrtControlPacket
        ensures { result ≡ choice kind buf.now }
    {
        match part(kind, buf) {
            Ok(part) => part,
            Err(refusal) => SrtControlPacket::Refused {
                packet_type: kind,
                refusal,
            },
        }
    }

    // The type that chose the part: a method, by the crate's name.
    pub fn type_id(self) -> u16
        ensures { result ≡ type_id self }
    {
        match self {
            SrtControlPacket::Reject { .. } => 0,
            SrtControlPacket::HandshakeRequest { .. } => 1,
            SrtControlPacket::HandshakeResponse { .. } => 2,
            SrtControlPacket::KeyRefreshRequest { .. } => 3,
            SrtControlPacket::KeyRefreshResponse { .. } => 4,
            SrtControlPacket::Group { .. } => 8,
            SrtControlPacket::Refused { packet_type, .. } => packet_type,
        }
    }

    // The size in 32-bit words; a refused part has none.
    pub fn size_words(self) -> usize
        ensures { result ≡ size_words self }
    {
        match self {
            SrtControlPacket::Reject { .. } | SrtControlPacket::Refused { .. } => 0,
            SrtControlPacket::HandshakeRequest { .. }
            | SrtControlPacket::HandshakeResponse { .. } => 3,
            SrtControlPacket::KeyRefreshRequest { key, .. }
            | SrtControlPacket::KeyRefreshResponse { key, .. } => key_words(key),
            SrtControlPacket::Group { .. } => 1,
        }
    }
}
