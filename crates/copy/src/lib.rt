// Copying bytes to the front of a buffer.

#![tactic(auto)]

ghost use Rattle.std.specs.Prelude.{◌≡◌, ◌+◌, ◌≤◌, length};
ghost use Rattle.wire.specs.Lent.{placed};
ghost use Rattle.copy.specs.Pasting.{pasted, block_size, whole_blocks};

// Copies bytes one by one, from `at` on.
// Byte by byte: the library's copy may become a call, and the archive calls no function but its own.
fn put_bytes(bytes: &[u8], into: &mut [u8], at: usize)
    requires { at + length bytes.now ≤ length into.old }
    ensures { into.new ≡ pasted into.old at bytes.now }
{
    for i in 0..bytes.len() {
        into[at + i] = bytes[i];
    }
}

// As many bytes as are read before any is written: few enough for the processor's registers.
const BLOCK: usize = 64;

// Copies one block. The array is no copy of its own: the compiler keeps it in registers.
fn put_block(bytes: &[u8], into: &mut [u8], at: usize)
    requires { (length bytes.now ≡ block_size) × (at + block_size ≤ length into.old) }
    ensures { into.new ≡ pasted into.old at bytes.now }
{
    let mut block = [0; BLOCK];
    put_bytes(bytes, &mut block, 0);
    put_bytes(&block, into, at);
}

// Copies all whole blocks.
fn put_blocks(bytes: &[u8], into: &mut [u8])
    requires { length bytes.now ≤ length into.old }
    ensures { into.new ≡ pasted into.old 0 (whole_blocks bytes.now) }
{
    for i in 0..bytes.len() / BLOCK {
        let from = i * BLOCK;
        put_block(&bytes[from..from + BLOCK], into, from);
    }
}

// Copies bytes to the front of a buffer; to one that is too short for them, none. The last block goes first, then all
// whole blocks, so that no bytes are left to be taken one by one.
pub fn put(bytes: &[u8], into: &mut [u8])
    ensures { into.new ≡ placed bytes.now into.old }
{
    if into.len() < bytes.len() {
        return;
    }
    if bytes.len() < BLOCK {
        put_bytes(bytes, into, 0);
        return;
    }
    let rest = bytes.len() - BLOCK;
    put_block(&bytes[rest..], into, rest);
    put_blocks(bytes, into);
}
