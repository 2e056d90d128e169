// Key material for a C program.
ghost use Rattle.key_fields.specs.Key.{ReadsKey};

pub fn xez_read_key(message: &[u8], fields: &mut [u32]) -> u64
    ensures { ReadsKey message.now fields.old result fields.new }
{
    key_fields::read_key(message, fields)
}
