// The kinds that a key message names: its packet type and its cipher, and the number of each.

#![tactic(auto)]

ghost use Rattle.std.specs.Prelude.{◌≡◌};
ghost use Rattle.key_kinds.specs.Kinds.{packet_type, packet_type_byte, cipher_type, cipher_byte};

#[derive(Clone, Copy)]
pub enum PacketType {
    // 1, a media stream message.
    MediaStream,
    // 2, a keying material message.
    KeyingMaterial,
}

#[derive(Clone, Copy)]
pub enum CipherType {
    None,
    Ecb,
    Ctr,
    Cbc,
}

// The packet type of four bits: 1, or any other for 2.
impl From<u8> for PacketType {
    ghost from_gives = { λ bits pt. pt ≡ packet_type bits };

    fn from(bits: u8) -> PacketType {
        match bits {
            1 => PacketType::MediaStream,
            _ => PacketType::KeyingMaterial,
        }
    }
}

// The four bits of a packet type.
impl From<PacketType> for u8 {
    ghost from_gives = { λ pt bits. bits ≡ packet_type_byte pt };

    fn from(pt: PacketType) -> u8 {
        match pt {
            PacketType::MediaStream => 1,
            PacketType::KeyingMaterial => 2,
        }
    }
}

// The cipher of a byte: 0, 1, 2, or any other for 3.
impl From<u8> for CipherType {
    ghost from_gives = { λ byte cipher. cipher ≡ cipher_type byte };

    fn from(byte: u8) -> CipherType {
        match byte {
            0 => CipherType::None,
            1 => CipherType::Ecb,
            2 => CipherType::Ctr,
            _ => CipherType::Cbc,
        }
    }
}

// The byte of a cipher.
impl From<CipherType> for u8 {
    ghost from_gives = { λ cipher byte. byte ≡ cipher_byte cipher };

    fn from(cipher: CipherType) -> u8 {
        match cipher {
            CipherType::None => 0,
            CipherType::Ecb => 1,
            CipherType::Ctr => 2,
            CipherType::Cbc => 3,
        }
    }
}
