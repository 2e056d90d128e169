// A key message's fields as six words of a C program, and the salt and the wrapped keys where they lie.

#![tactic(auto)]

ghost use Rattle.std.specs.Prelude.{◌≡◌, ◌++◌, ◌≤◌, ◌<◌, ◌^◌, length, drop};
ghost use Rattle.key_material.specs.KeyMaterial.{key_read};
ghost use Rattle.key_fields.specs.Key.{key_field_count, key_fields_of, key_answered, key_fields_left, ReadsKey};

use answer::packed;
use key_material::KeyingMaterialMessage;
use refusal::Refusal;

// How many words a message's fields take.
const FIELDS: usize = 6;

fn put_fields(key: KeyingMaterialMessage, into: &mut [u32])
    requires lengths_fit { (key.salt_len < 2 ^ 32) × (key.wrapped_keys_len < 2 ^ 32) }
    requires room { key_field_count ≤ length into.old }
    ensures { into.new ≡ key_fields_of key ++ drop key_field_count into.old }
{
    into[0] = u32::from(u8::from(key.pt));
    into[1] = u32::from(key.key_flags);
    into[2] = key.keki;
    into[3] = u32::from(u8::from(key.cipher));
    into[4] = key.salt_len as u32;
    into[5] = key.wrapped_keys_len as u32;
}

// Reads the fields, and answers how many bytes the message uses.
#[tactic(auto, unfolding(crate::specs::Key::key_answered, crate::specs::Key::key_fields_left))]
fn read_fields(message: &[u8], fields: &mut [u32]) -> Result<usize, Refusal>
    ensures answer { result ≡ key_answered (key_read message.now) (length fields.old) }
    ensures leaves { fields.new ≡ key_fields_left (key_read message.now) fields.old }
{
    let (key, used) = KeyingMaterialMessage::parse(message)?;
    if fields.len() < FIELDS {
        return Err(Refusal::NoRoom(FIELDS));
    }
    put_fields(key, fields);
    Ok(used)
}

pub fn read_key(message: &[u8], fields: &mut [u32]) -> u64
    ensures { ReadsKey message.now fields.old result fields.new }
{
    packed(read_fields(message, fields))
}
