// The answers' lines: how they are written out, and how bytes, refusals and calls' results stand in them.
ghost use Rattle.std.specs.Prelude.{◌≡◌, ◌≤◌, length};

use refusal::Refusal;
use std::fmt::{self, Write};

const STDOUT: i32 = 1;

// Standard output. What it does not take is dropped, and all that comes after is tried.
#[derive(Clone, Copy)]
pub struct Out;

impl Out {
    fn put(&mut self, text: &[u8]) -> fmt::Result {
        io::write_all(STDOUT, text);
        Ok(())
    }

    // Bytes as hex digits, `-` for none: not each by Display, which takes many times the steps of bin/wrong's interpreter.
    pub fn hex(&mut self, bytes: &[u8]) -> fmt::Result {
        if bytes.is_empty() {
            return self.put(b"-");
        }
        let mut room = [0; 2048];
        for some in bytes.chunks(1024) {
            let n = room.len().min(2 * some.len());
            digits(some, &mut room[..n]);
            self.put(&room[..n])?;
        }
        Ok(())
    }

    pub fn ok_hex(&mut self, bytes: &[u8]) -> fmt::Result {
        self.put(b"ok ")?;
        self.hex(bytes)
    }
}

impl Write for Out {
    fn write_str(&mut self, text: &str) -> fmt::Result {
        self.put(text.as_bytes())
    }
}

// Two for each byte.
fn digits(bytes: &[u8], room: &mut [u8])
    ensures { length room.new ≡ length room.old }
{
    for (i, two) in room.as_chunks_mut::<2>().0.iter_mut().enumerate() {
        if let Some(byte) = bytes.get(i) {
            *two = [digit(*byte >> 4), digit(*byte & 15)];
        }
    }
}

// Of a number below 16.
fn digit(n: u8) -> u8 {
    match n {
        0..=9 => b'0' + n,
        10..=15 => b'a' + (n - 10),
        _ => b'?',
    }
}

// A refusal by its number, and what it carries, as a call answers it or packed for C: each program says that by itself, since the library prints nothing.
#[derive(Clone, Copy)]
pub struct Refused {
    number: u64,
    carried: u64,
}

impl From<Refusal> for Refused {
    fn from(why: Refusal) -> Refused {
        Refused {
            number: why.number(),
            carried: why.carried(),
        }
    }
}

impl fmt::Display for Refused {
    fn fmt<W: Write>(&self, f: &mut fmt::Formatter<W>) -> fmt::Result {
        let number = self.number;
        let carried = self.carried;
        write!(f, "refused {number} {carried}")
    }
}

// What a call answered: a number, or why it refused.
#[derive(Clone, Copy)]
pub struct Answer(pub Result<usize, Refused>);

impl fmt::Display for Answer {
    fn fmt<W: Write>(&self, f: &mut fmt::Formatter<W>) -> fmt::Result {
        match self.0 {
            Ok(n) => write!(f, "ok {n}"),
            Err(why) => write!(f, "{why}"),
        }
    }
}

// What a C function packed into one number.
pub fn unpacked(packed: u64) -> Result<usize, Refused> {
    let value = packed & 0xffff_ffff;
    match packed >> 32 {
        0 => Ok(value as usize),
        number => Err(Refused {
            number,
            carried: value,
        }),
    }
}

// What a call answered that wrote into a buffer, with all of the buffer where the question gave its bytes, else with what
// was written. Says how many bytes may be others now.
pub fn wrote<E: Into<Refused>>(
    answer: Result<usize, E>,
    given: bool,
    into: &[u8],
    out: &mut Out,
) -> Result<usize, fmt::Error> {
    let answer = answer.map_err(|why| why.into());
    if given {
        write!(out, "{} ", Answer(answer))?;
        out.hex(into)?;
        return Ok(into.len());
    }
    match answer {
        Ok(n) => {
            match into.get(..n) {
                Some(written) => out.ok_hex(written)?,
                None => write!(out, "ok more than the room")?,
            }
            Ok(n)
        }
        Err(why) => {
            write!(out, "{why}")?;
            Ok(0)
        }
    }
}
