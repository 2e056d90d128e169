// Words and bytes: how numbers stand on the wire, the highest byte first, and what writing to a lent buffer answers.
//
// A word is read and stored with its lowest byte first, and turned: LLVM makes one load or store of the four bytes
// and one instruction of the turning before it looks at loops, and so takes several words at a time. The tests of the
// length cost nothing where the caller has made the same one, or lends a part of a known length.

#![tactic(auto)]

ghost use Rattle.std.specs.Prelude.{◌≡◌};
ghost use Rattle.wire.specs.Bytes.{byte_at, number16, bytes32, word_at};
ghost use Rattle.wire.specs.Lent.{placed};

// The number of two bytes, the higher first.
pub fn big16(high: u8, low: u8) -> u16
    ensures { result ≡ number16 high low }
{
    u16::from_be_bytes([high, low])
}

// The byte at an offset; 0 past the end, as the definition has it, and no Option.
pub fn byte_at(bytes: &[u8], i: usize) -> u8
    ensures { result ≡ byte_at bytes.now i }
{
    if i < bytes.len() {
        return bytes[i];
    }
    0
}

// The word at place i, counted in words; 0 past the last whole one, as the definition has it.
pub fn word_at(bytes: &[u8], i: usize) -> u32
    ensures { result ≡ word_at bytes.now i }
{
    if i < bytes.len() / 4 {
        let at = 4 * i;
        let little = [bytes[at], bytes[at + 1], bytes[at + 2], bytes[at + 3]];
        return u32::from_le_bytes(little).swap_bytes();
    }
    0
}

// Writes a word to the front of a buffer; to one that is too short for it, nothing.
pub fn put_word(word: u32, into: &mut [u8])
    ensures { into.new ≡ placed (bytes32 word) into.old }
{
    if into.len() < 4 {
        return;
    }
    let little = word.swap_bytes().to_le_bytes();
    into[0] = little[0];
    into[1] = little[1];
    into[2] = little[2];
    into[3] = little[3];
}
