// The kinds of a data packet: where it stands in its message and which key it is encrypted with, and the bits of each; and
// the family of the network that it crosses, which its bytes do not name.

#![tactic(auto)]

ghost use Rattle.std.specs.Prelude.{◌≡◌, ◌<◌};
ghost use Rattle.packet_kinds.specs.Kinds.{location, location_number, encryption, encryption_number, family};

// Where a packet stands in its message, in the order of the two bits.
#[derive(Clone, Copy)]
pub enum PacketLocation {
    Middle,
    Last,
    First,
    Only,
}

// Which key the payload is encrypted with, if it is.
#[derive(Clone, Copy, PartialEq, Eq)]
pub enum DataEncryption {
    None,
    Even,
    Odd,
}

// Which internet protocol carries the packet.
#[derive(Clone, Copy)]
pub enum IpFamily {
    V4,
    V6,
}

// The two bits of a location.
impl From<PacketLocation> for u32 {
    ghost from_gives = { λ place bits. (bits ≡ location_number place) × (bits < 4) };

    fn from(place: PacketLocation) -> u32 {
        match place {
            PacketLocation::Middle => 0,
            PacketLocation::Last => 1,
            PacketLocation::First => 2,
            PacketLocation::Only => 3,
        }
    }
}

// The location of two bits; any other number is Middle.
impl From<u32> for PacketLocation {
    ghost from_gives = { λ bits place. place ≡ location bits };

    #[tactic(auto, unfolding(crate::specs::Kinds::location))]
    fn from(bits: u32) -> PacketLocation {
        match bits {
            2 => PacketLocation::First,
            1 => PacketLocation::Last,
            3 => PacketLocation::Only,
            _ => PacketLocation::Middle,
        }
    }
}

// The two bits of a key.
impl From<DataEncryption> for u32 {
    ghost from_gives = { λ key bits. (bits ≡ encryption_number key) × (bits < 3) };

    fn from(key: DataEncryption) -> u32 {
        match key {
            DataEncryption::None => 0,
            DataEncryption::Even => 1,
            DataEncryption::Odd => 2,
        }
    }
}

// The key of two bits. Both set is refused before this is asked, and is None as any other number is.
impl From<u32> for DataEncryption {
    ghost from_gives = { λ bits key. key ≡ encryption bits };

    #[tactic(auto, unfolding(crate::specs::Kinds::encryption))]
    fn from(bits: u32) -> DataEncryption {
        match bits {
            1 => DataEncryption::Even,
            2 => DataEncryption::Odd,
            _ => DataEncryption::None,
        }
    }
}

// The family of a protocol version; any number but 6 is V4.
impl From<u32> for IpFamily {
    ghost from_gives = { λ version carrier. carrier ≡ family version };

    #[tactic(auto, unfolding(crate::specs::Kinds::family))]
    fn from(version: u32) -> IpFamily {
        match version {
            6 => IpFamily::V6,
            _ => IpFamily::V4,
        }
    }
}
