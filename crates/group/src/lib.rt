// The group extension: type 8.

#![tactic(auto)]

ghost use Rattle.std.specs.Prelude.{◌≡◌, length};
ghost use Rattle.group.specs.Group.{group_type, group_type_byte, msg_sync, group_read, group_written, group_bytes};
ghost use Rattle.wire.specs.Lent.{Wrote};

use copy::put;
use refusal::{Field, Refusal};

#[derive(Clone, Copy)]
pub enum GroupType {
    Undefined,
    Broadcast,
    MainBackup,
    Balancing,
    Multicast,
    Unrecognized(u8),
}

//   0                   1                   2                   3
//   0 1 2 3 4 5 6 7 8 9 0 1 2 3 4 5 6 7 8 9 0 1 2 3 4 5 6 7 8 9 0 1
//  +-+-+-+-+-+-+-+-|-+-+-+-+-+-+-+-|-+-+-+-+-+-+-+-|-+-+-+-+-+-+-+-+
//  |     type      | |S|  dropped  |    weight, little-endian      |
//  +-+-+-+-+-+-+-+-|-+-+-+-+-+-+-+-|-+-+-+-+-+-+-+-|-+-+-+-+-+-+-+-+
//
// The draft puts a 32-bit group identifier before these; the crate reads none.
#[derive(Clone, Copy)]
pub struct Group {
    pub ty: GroupType,
    // MSG_SYNC, which is 0x40, or 0; what is wider is refused, so it is a number.
    pub flags: u8,
    pub weight: u16,
}

impl From<u8> for GroupType {
    ghost from_gives = { λ byte ty. ty ≡ group_type byte };

    fn from(byte: u8) -> GroupType {
        match byte {
            0 => GroupType::Undefined,
            1 => GroupType::Broadcast,
            2 => GroupType::MainBackup,
            3 => GroupType::Balancing,
            4 => GroupType::Multicast,
            _ => GroupType::Unrecognized(byte),
        }
    }
}

impl From<GroupType> for u8 {
    ghost from_gives = { λ ty byte. byte ≡ group_type_byte ty };

    fn from(ty: GroupType) -> u8 {
        match ty {
            GroupType::Undefined => 0,
            GroupType::Broadcast => 1,
            GroupType::MainBackup => 2,
            GroupType::Balancing => 3,
            GroupType::Multicast => 4,
            GroupType::Unrecognized(byte) => byte,
        }
    }
}

// The one flag that is kept, 0x40.
fn msg_sync(flags: u8) -> u8
    ensures { result ≡ msg_sync flags }
{
    flags / 0x40 % 2 * 0x40
}

impl Group {
    // The length on the wire.
    pub const SIZE: usize = 4;

    // The record, and how many bytes it uses.
    pub fn parse(buf: &[u8]) -> Result<(Group, usize), Refusal>
        ensures { result ≡ group_read buf.now }
    {
        if buf.len() < Group::SIZE {
            return Err(Refusal::NotEnoughData);
        }
        let group = Group {
            ty: GroupType::from(buf[0]),
            flags: msg_sync(buf[1]),
            weight: u16::from_le_bytes([buf[2], buf[3]]),
        };
        Ok((group, Group::SIZE))
    }

    pub fn serialize(self, into: &mut [u8]) -> Result<usize, Refusal>
        ensures { Wrote (group_written self (length into.old)) (group_bytes self) into.old result into.new }
    {
        if msg_sync(self.flags) != self.flags {
            return Err(Refusal::FieldTooWide(Field::GroupFlags));
        }
        if into.len() < Group::SIZE {
            return Err(Refusal::NoRoom(Group::SIZE));
        }
        let [low, high] = self.weight.to_le_bytes();
        let bytes = [u8::from(self.ty), self.flags, low, high];
        put(&bytes, into);
        Ok(Group::SIZE)
    }
}
