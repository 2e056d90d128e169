// The key-material extension, types 3 and 4: the message read and written.

#![tactic(auto)]

ghost use Rattle.std.specs.Prelude.{◌≡◌, ◌+◌, ◌≤◌, ◌++◌, length, drop};
ghost use Rattle.wire.specs.Lent.{Wrote};
ghost use Rattle.key_checks.specs.KeyChecks.{key_head, salt_length, key_used, key_judged};
ghost use Rattle.key_material.specs.KeyMaterial.{key_of, key_read, part_from, salt_of, wrapped_of, PartOf, key_length_from, salt_limit, key_written, key_head_bytes, key_bytes};

use copy::put;
use key_checks::{judge, key_count, salt_length, wrapped_length};
use key_kinds::{CipherType, PacketType};
use refusal::{Field, Refusal};
use wire::word_at;

#[derive(Clone, Copy)]
pub enum Auth {
    None,
}

//        0                   1                   2                   3
//        0 1 2 3 4 5 6 7 8 9 0 1 2 3 4 5 6 7 8 9 0 1 2 3 4 5 6 7 8 9 0 1
//       +-+-+-+-+-+-+-+-|-+-+-+-+-+-+-+-|-+-+-+-+-+-+-+-|-+-+-+-+-+-+-+-+
// +0x00 |0|Vers |   PT  |             Sign              |    resv   |KF |
//       +-+-+-+-+-+-+-+-|-+-+-+-+-+-+-+-|-+-+-+-+-+-+-+-|-+-+-+-+-+-+-+-+
// +0x04 |                              KEKI                             |
//       +-+-+-+-+-+-+-+-|-+-+-+-+-+-+-+-|-+-+-+-+-+-+-+-|-+-+-+-+-+-+-+-+
// +0x08 |    Cipher     |      Auth     |      SE       |     Resv1     |
//       +-+-+-+-+-+-+-+-|-+-+-+-+-+-+-+-|-+-+-+-+-+-+-+-|-+-+-+-+-+-+-+-+
// +0x0C |             Resv2             |     Slen/4    |     Klen/4    |
//       +-+-+-+-+-+-+-+-|-+-+-+-+-+-+-+-|-+-+-+-+-+-+-+-|-+-+-+-+-+-+-+-+
// +0x10 |                              Salt                             |
//       |                              ...                              |
//       +-+-+-+-+-+-+-+-|-+-+-+-+-+-+-+-|-+-+-+-+-+-+-+-|-+-+-+-+-+-+-+-+
//       |                              Wrap                             |
//       |                              ...                              |
//       +-+-+-+-+-+-+-+-|-+-+-+-+-+-+-+-|-+-+-+-+-+-+-+-|-+-+-+-+-+-+-+-+
//
// The salt and the wrapped keys stay in the input: the record holds where they stand and how long they are.
#[derive(Clone, Copy)]
pub struct KeyingMaterialMessage {
    pub pt: PacketType,
    // 1 even, 2 odd, 3 both; with 0 a message is neither read nor written, and what is wider than two bits is refused, so it is a number.
    pub key_flags: u8,
    pub keki: u32,
    pub cipher: CipherType,
    pub auth: Auth,
    pub salt_at: usize,
    pub salt_len: usize,
    pub wrapped_keys_at: usize,
    pub wrapped_keys_len: usize,
}

impl KeyingMaterialMessage {
    // The bytes before the salt.
    pub const HEAD: usize = key_checks::HEAD;
    // The longest salt that a count of words in one byte can give.
    pub const SALT_LIMIT: usize = 1020;
    // The letters H, A, I, five bits each.
    pub const SIGN: u16 = key_checks::SIGN;
}

// The key length that the length of the wrapped keys gives, or 0.
// None is 0, as the definition has it, since the byte that is written comes from the same number.
#[tactic(auto, unfolding(crate::specs::KeyMaterial::key_length_from))]
fn key_length(keys: usize, wrapped: usize) -> usize
    requires { keys ≤ 8 }
    ensures { (result ≡ key_length_from keys wrapped) × (result ≤ 32) }
{
    if wrapped == keys * 16 + 8 {
        return 16;
    }
    if wrapped == keys * 24 + 8 {
        return 24;
    }
    if wrapped == keys * 32 + 8 {
        return 32;
    }
    0
}

// Whether a message can be written, by its flags, the lengths of the salt and the wrapped keys, and the room.
fn judge_write(flags: u8, salt: usize, wrapped: usize, room: usize) -> Result<usize, Refusal>
    ensures { result ≡ key_written flags salt wrapped room }
{
    if 3 < flags {
        return Err(Refusal::FieldTooWide(Field::KeyFlags));
    }
    if flags == 0 {
        return Err(Refusal::NoKey);
    }
    if KeyingMaterialMessage::SALT_LIMIT < salt {
        return Err(Refusal::BadSaltLength(salt));
    }
    if salt % 4 != 0 {
        return Err(Refusal::BadSaltLength(salt));
    }
    let key_len = key_length(key_count(flags), wrapped);
    if key_len == 0 {
        return Err(Refusal::BadWrapLength(wrapped));
    }
    let size = KeyingMaterialMessage::HEAD + salt + wrapped;
    if room < size {
        return Err(Refusal::NoRoom(size));
    }
    Ok(size)
}

// The first sixteen bytes of a message that can be written.
fn head(key: KeyingMaterialMessage, salt: usize, wrapped: usize) -> [u8; 16]
    requires { salt ≤ salt_limit }
    ensures { result ≡ key_head_bytes key salt wrapped }
{
    let flags = key.key_flags;
    let kind = u8::from(key.pt);
    let cipher_kind = u8::from(key.cipher);
    let key_len = key_length(key_count(flags), wrapped);
    let keki = key.keki.to_be_bytes();
    // No auth; the encapsulation is SRT's, which is 2.
    [
        16 + kind,
        0x20,
        0x29,
        flags,
        keki[0],
        keki[1],
        keki[2],
        keki[3],
        cipher_kind,
        0,
        2,
        0,
        0,
        0,
        (salt / 4) as u8,
        (key_len / 4) as u8,
    ]
}

// Puts three parts to the front of a buffer, one after the other.
fn put_parts(head: &[u8], salt: &[u8], wrapped: &[u8], into: &mut [u8])
    requires { length head.now + length salt.now + length wrapped.now ≤ length into.old }
    ensures { into.new ≡ (head.now ++ (salt.now ++ wrapped.now)) ++ drop (length head.now + length salt.now + length wrapped.now) into.old }
{
    let start = head.len();
    let middle = start + salt.len();
    let end = middle + wrapped.len();
    put(head, into);
    put(salt, &mut into[start..middle]);
    put(wrapped, &mut into[middle..end]);
}

// The record of a message that passes the checks, all of it: the places of its parts go by its length.
fn fields(buf: &[u8]) -> KeyingMaterialMessage
    requires { key_head ≤ length buf.now }
    ensures { result ≡ key_of buf.now }
{
    let pt = PacketType::from(buf[0] % 16);
    let cipher = CipherType::from(buf[8]);
    let salt_len = salt_length(buf);
    let wrapped_keys_len = wrapped_length(buf);
    KeyingMaterialMessage {
        pt,
        key_flags: buf[3] % 4,
        keki: word_at(buf, 1),
        cipher,
        auth: Auth::None,
        salt_at: KeyingMaterialMessage::HEAD,
        salt_len,
        wrapped_keys_at: KeyingMaterialMessage::HEAD + salt_len,
        wrapped_keys_len,
    }
}

// So many bytes of a message from `start` on, lent on; none where it is refused.
fn part(buf: &[u8], start: usize, len: usize) -> &[u8]
    requires { start + len ≤ key_used buf.now }
    ensures { PartOf buf.entry (part_from (key_judged buf.now) start len buf.now) start result }
{
    match judge(buf) {
        Ok(()) => &buf[start..start + len],
        Err(_) => &buf[..0],
    }
}

impl KeyingMaterialMessage {
    // The record, and how many bytes the message uses.
    pub fn parse(buf: &[u8]) -> Result<(KeyingMaterialMessage, usize), Refusal>
        ensures { result ≡ key_read buf.now }
    {
        judge(buf)?;
        let key = fields(buf);
        let used = key.wrapped_keys_at + key.wrapped_keys_len;
        Ok((key, used))
    }

    // The salt of the message, lent on; none where it is refused.
    pub fn salt(buf: &[u8]) -> &[u8]
        ensures { PartOf buf.entry (salt_of buf.now) key_head result }
    {
        part(buf, KeyingMaterialMessage::HEAD, salt_length(buf))
    }

    // The wrapped keys of the message, lent on; none where it is refused.
    pub fn wrapped_keys(buf: &[u8]) -> &[u8]
        ensures { PartOf buf.entry (wrapped_of buf.now) (key_head + salt_length buf.now) result }
    {
        let start = KeyingMaterialMessage::HEAD + salt_length(buf);
        part(buf, start, wrapped_length(buf))
    }

    // The salt and the wrapped keys are those given: the record's places and lengths are not looked at.
    pub fn serialize(self, salt: &[u8], wrapped: &[u8], into: &mut [u8]) -> Result<usize, Refusal>
        ensures { Wrote (key_written self.key_flags (length salt.now) (length wrapped.now) (length into.old)) (key_bytes self salt.now wrapped.now) into.old result into.new }
    {
        let size = judge_write(self.key_flags, salt.len(), wrapped.len(), into.len())?;
        let head = head(self, salt.len(), wrapped.len());
        put_parts(&head, salt, wrapped, into);
        Ok(size)
    }
}
