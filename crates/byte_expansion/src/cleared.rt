// Lists of which no range has more than two numbers: each word is a number once its flag is cleared.
ghost use Rattle.std.specs.Prelude.{◌≡◌, ◌++◌, ◌*◌, ◌≤◌, length, drop};
ghost use Rattle.wire.specs.Bytes.{in_bytes, in_words};
ghost use Rattle.byte_expansion.specs.Quick.{cleared, all_cleared};

use loss_list::FLAG;
use wire::{put_word, word_at};

fn clear(word: u32) -> u32
    ensures { result ≡ cleared word }
{
    word % FLAG
}

// Writes the words without their flags, which is all where no range has more than two numbers.
pub(crate) fn clear_into(list: &[u8], into: &mut [u8])
    requires { 4 * length (in_words list.now) ≤ length into.old }
    ensures { into.new ≡ in_bytes (all_cleared (in_words list.now)) ++ drop (4 * length (in_words list.now)) into.old }
{
    let n = list.len() / 4;
    'words: for i in 0..n {
        let at = 4 * i;
        put_word(clear(word_at(list, i)), &mut into[at..at + 4]);
    }
}
