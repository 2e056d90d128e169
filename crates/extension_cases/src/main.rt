// Runs the extensions on the key messages of RULES 6 and on damaged ones, and prints each answer: 0 and the bytes used
// or written, or the refusal's number and what it carries. tests/models/extension_cases.py says what it must print.

#![tactic(auto)]

ghost use Rattle.std.specs.Prelude.{◌<◌, ◌≤◌, length};

use extension::SrtControlPacket;
use group::{Group, GroupType};
use handshake::SrtHandshake;
use key_kinds::{CipherType, PacketType};
use key_material::{Auth, KeyingMaterialMessage};
use refusal::Refusal;
use std::fmt::{self, Write};

const STDOUT: i32 = 1;

// Standard output, by the kit's io: over the runtime of std this takes more than twenty million steps of the interpreter.
// What it does not take is dropped, and all that comes after is tried.
#[derive(Clone, Copy)]
struct Out;

impl Write for Out {
    fn write_str(&mut self, text: &str) -> fmt::Result {
        io::write_all(STDOUT, text.as_bytes());
        Ok(())
    }
}

// The bytes used or written, or why there are none.
#[derive(Clone, Copy, PartialEq, Eq)]
struct Answer(Result<usize, Refusal>);

impl From<SrtControlPacket> for Answer {
    fn from(packet: SrtControlPacket) -> Answer {
        Answer(match packet {
            SrtControlPacket::Reject { used }
            | SrtControlPacket::HandshakeRequest { used, .. }
            | SrtControlPacket::HandshakeResponse { used, .. }
            | SrtControlPacket::KeyRefreshRequest { used, .. }
            | SrtControlPacket::KeyRefreshResponse { used, .. }
            | SrtControlPacket::Group { used, .. } => Ok(used),
            SrtControlPacket::Refused { refusal, .. } => Err(refusal),
        })
    }
}

impl Answer {
    fn number(self) -> u64 {
        match self.0 {
            Ok(_) => 0,
            Err(why) => why.number(),
        }
    }

    fn carried(self) -> u64 {
        match self.0 {
            Ok(count) => count as u64,
            Err(why) => why.carried(),
        }
    }
}

impl fmt::Display for Answer {
    fn fmt<W: Write>(&self, f: &mut fmt::Formatter<W>) -> fmt::Result {
        write!(f, "{} {}", self.number(), self.carried())
    }
}

fn key_answer(buf: &[u8]) -> Answer {
    Answer(KeyingMaterialMessage::parse(buf).map(|(_, used)| used))
}

// The message of RULES 6: 12202901 00000000 02000200 00000404, a salt of 16 bytes and one wrapped key of 16.
const GOOD: [u8; 56] = [
    0x12, 0x20, 0x29, 1, 0, 0, 0, 0, 2, 0, 2, 0, 0, 0, 4, 4, 1, 2, 3, 4, 5, 6, 7, 8, 9, 10, 11, 12,
    13, 14, 15, 16, 17, 18, 19, 20, 21, 22, 23, 24, 25, 26, 27, 28, 29, 30, 31, 32, 33, 34, 35, 36,
    37, 38, 39, 40,
];

fn cut() -> fmt::Result {
    let m = GOOD;
    for n in 0..=m.len() {
        writeln!(Out, "{n} {}", key_answer(&m[..n]))?;
    }
    Ok(())
}

// Nearly every line is one of these. By Display each would take two thirds more steps of the interpreter, and all together too many.
fn damaged(at: usize, v: u8, answer: Answer) {
    for number in [at as u64, u64::from(v), answer.number()] {
        io::print_decimal(STDOUT, number);
        io::write_all(STDOUT, b" ");
    }
    io::print_decimal(STDOUT, answer.carried());
    io::write_all(STDOUT, b"\n");
}

// Byte `at` made each of 256 values: a line where the answer changes.
fn damage(at: usize)
    requires { at < 56 }
{
    let mut m = GOOD;
    let mut last = None;
    for v in 0..=255u8 {
        m[at] = v;
        let answer = key_answer(&m);
        if last != Some(answer) {
            damaged(at, v, answer);
        }
        last = Some(answer);
    }
}

fn damage_all() {
    for at in 0..56 {
        damage(at);
    }
}

// A fault of a message: so many bytes are left of it, or of the byte at a place some bits are kept and some set.
#[derive(Clone, Copy)]
enum Fault {
    Cut(usize),
    Byte(usize, u8, u8),
}

// One fault of each check, in the order of RULES 6.4: under sixteen bytes, the version, the packet type, the sign, the key
// flags, the cipher, the auth, the encapsulation twice, the key length, one byte short at the end.
const FAULTS: [Fault; 11] = [
    Fault::Cut(15),
    Fault::Byte(0, 0x0F, 0x20),
    Fault::Byte(0, 0xF0, 3),
    Fault::Byte(1, 0, 0x29),
    Fault::Byte(3, 0, 0xFC),
    Fault::Byte(8, 0, 4),
    Fault::Byte(9, 0, 1),
    Fault::Byte(10, 0, 3),
    Fault::Byte(10, 0, 1),
    Fault::Byte(15, 0, 5),
    Fault::Cut(55),
];

impl Fault {
    // Does it to a message, and says how many of its bytes are left.
    fn damage(self, m: &mut [u8; 56]) -> usize
        ensures { result ≤ 56 }
    {
        match self {
            Fault::Cut(length) => length.min(m.len()),
            Fault::Byte(at, kept, set) => {
                if let Some(byte) = m.get_mut(at) {
                    *byte = *byte & kept | set;
                }
                m.len()
            }
        }
    }
}

fn pair(i: usize, first: Fault, j: usize, second: Fault) -> fmt::Result {
    let mut m = GOOD;
    let length = first.damage(&mut m).min(second.damage(&mut m));
    writeln!(Out, "{i} {j} {}", key_answer(&m[..length]))
}

fn pairs() -> fmt::Result {
    for (i, first) in FAULTS.iter().enumerate() {
        for (j, second) in FAULTS.iter().enumerate().skip(i + 1) {
            pair(i, *first, j, *second)?;
        }
    }
    Ok(())
}

// How many bytes are no longer 0xEE, which each buffer is filled with. By `for`, where `filter` takes many more steps of the interpreter.
fn touched(buf: &[u8]) -> usize {
    let mut count = 0;
    for b in buf {
        if *b != 0xEE && count < buf.len() {
            count += 1;
        }
    }
    count
}

fn dump(buf: &[u8]) -> fmt::Result {
    for b in buf {
        write!(Out, " {b:02x}")?;
    }
    writeln!(Out)
}

// What a call writes into a buffer's first `room` bytes, and what the buffer then holds.
fn leaving<F>(into: &mut [u8], room: usize, call: F) -> fmt::Result
where
    F: FnOnce(&mut [u8]) -> Result<usize, Refusal>,
    requires callable { F.IsAlwaysCallable call }
    requires fits { room ≤ length into.now }
{
    writeln!(Out, "{}", Answer(call(&mut into[..room])))?;
    dump(into)
}

fn key(flags: u8) -> KeyingMaterialMessage {
    KeyingMaterialMessage {
        pt: PacketType::KeyingMaterial,
        key_flags: flags,
        keki: 0x01020304,
        cipher: CipherType::Ctr,
        auth: Auth::None,
        salt_at: 0,
        salt_len: 0,
        wrapped_keys_at: 0,
        wrapped_keys_len: 0,
    }
}

// Writing by flags, lengths and room: the answer, and how many bytes of the buffer it touched.
fn write_key(flags: u8, salt: usize, wrapped: usize, room: usize) -> fmt::Result
    requires lengths { (salt ≤ 1100) × (wrapped ≤ 300) }
    requires fits { room ≤ 1200 }
{
    let salts = [0xAAu8; 1100];
    let keys = [0xBBu8; 300];
    let mut into = [0xEEu8; 1200];
    let written = key(flags).serialize(&salts[..salt], &keys[..wrapped], &mut into[..room]);
    let answer = Answer(written);
    writeln!(
        Out,
        "{flags} {salt} {wrapped} {room} {} {answer}",
        touched(&into)
    )
}

fn write_keys() -> fmt::Result {
    write_key(4, 1024, 9, 0)?;
    write_key(255, 1024, 9, 0)?;
    write_key(0, 1024, 9, 0)?;
    write_key(1, 1024, 9, 0)?;
    write_key(1, 1021, 24, 1200)?;
    write_key(1, 3, 9, 0)?;
    write_key(1, 16, 9, 0)?;
    write_key(1, 16, 24, 0)?;
    write_key(1, 16, 24, 55)?;
    write_key(1, 16, 24, 56)?;
    write_key(1, 16, 24, 1200)?;
    write_key(2, 16, 32, 64)?;
    write_key(3, 16, 24, 1200)?;
    write_key(3, 16, 40, 71)?;
    write_key(3, 16, 40, 72)?;
    write_key(3, 0, 56, 72)?;
    write_key(3, 1020, 72, 1107)?;
    write_key(3, 1020, 72, 1108)?;
    write_key(1, 16, 8, 1200)
}

// What reading a message and writing it again gives.
fn written_again(m: &[u8]) -> fmt::Result {
    match KeyingMaterialMessage::parse(m) {
        Ok((key, _)) => {
            let salt = KeyingMaterialMessage::salt(m);
            let wrapped = KeyingMaterialMessage::wrapped_keys(m);
            leaving(
                &mut [0xEE; 60],
                60,
                |into| key.serialize(salt, wrapped, into),
            )
        }
        Err(why) => writeln!(Out, "{}", Answer(Err(why))),
    }
}

// The good message, the same with every reserved bit set, and one with both keys. One with no key is not read.
fn write_again() -> fmt::Result {
    written_again(&GOOD)?;
    let mut reserved = GOOD;
    reserved[3] = 0xFD;
    reserved[11] = 0xFF;
    reserved[12] = 0xFF;
    reserved[13] = 0xFF;
    written_again(&reserved)?;
    let mut keyless = GOOD;
    keyless[3] = 0;
    written_again(&keyless)?;
    let mut both = GOOD;
    both[3] = 3;
    writeln!(Out, "{}", key_answer(&both))?;
    both[14] = 0;
    written_again(&both)
}

// The longest message, and one byte less of it.
fn longest() -> fmt::Result {
    let mut m = [0u8; 1108];
    m[0] = 0x11;
    m[1] = 0x20;
    m[2] = 0x29;
    m[3] = 3;
    m[10] = 2;
    m[14] = 255;
    m[15] = 8;
    writeln!(Out, "{}", key_answer(&m))?;
    writeln!(Out, "{}", key_answer(&m[..1107]))
}

// A type on the beginnings of a message: a line where the answer's number changes.
fn choice(kind: u16) -> fmt::Result {
    let m = GOOD;
    let mut last = None;
    for n in 0..=m.len() {
        let packet = SrtControlPacket::parse(kind, &m[..n]);
        let answer = Answer::from(packet);
        let number = answer.0.err().map(Refusal::number);
        if last != Some(number) {
            let id = packet.type_id();
            let words = packet.size_words();
            writeln!(Out, "{kind} {n} {id} {words} {answer}")?;
        }
        last = Some(number);
    }
    Ok(())
}

fn choices() -> fmt::Result {
    for kind in 0..12 {
        choice(kind)?;
    }
    choice(65535)
}

fn write_handshake(flags: u32, room: usize) -> fmt::Result
    requires { room ≤ 16 }
{
    let handshake = SrtHandshake {
        version: 0x00010301,
        flags,
        send_latency: 120,
        recv_latency: 0x1234,
    };
    leaving(&mut [0xEE; 16], room, |into| handshake.serialize(into))
}

fn read_handshake() -> fmt::Result {
    let m = [0x7F, 1, 3, 1, 0xAA, 0xBB, 0xCC, 0xFF, 0, 120, 0x12, 0x34];
    match SrtHandshake::parse(&m) {
        Ok((handshake, used)) => writeln!(
            Out,
            "{} {} {} {} {}",
            handshake.version,
            handshake.flags,
            handshake.send_latency,
            handshake.recv_latency,
            Answer(Ok(used))
        ),
        Err(why) => writeln!(Out, "{}", Answer(Err(why))),
    }
}

fn handshakes() -> fmt::Result {
    read_handshake()?;
    write_handshake(256, 11)?;
    write_handshake(256, 16)?;
    write_handshake(255, 11)?;
    write_handshake(255, 12)?;
    write_handshake(0, 16)
}

// The type's part of the line is 1 and its byte where it has a name, and else 0 and its byte.
fn read_group(ty: u8, flags: u8) -> fmt::Result {
    match Group::parse(&[ty, flags, 0x34, 0x12]) {
        Ok((group, used)) => writeln!(
            Out,
            "{} {} {} {} {}",
            u8::from(!matches!(group.ty, GroupType::Unrecognized(_))),
            u8::from(group.ty),
            group.flags,
            group.weight,
            Answer(Ok(used))
        ),
        Err(why) => writeln!(Out, "{}", Answer(Err(why))),
    }
}

fn write_group(ty: GroupType, flags: u8, room: usize) -> fmt::Result
    requires { room ≤ 6 }
{
    let group = Group {
        ty,
        flags,
        weight: 0x1234,
    };
    leaving(&mut [0xEE; 6], room, |into| group.serialize(into))
}

fn groups() -> fmt::Result {
    read_group(0, 0)?;
    read_group(1, 0x40)?;
    read_group(2, 0xFF)?;
    read_group(3, 0xBF)?;
    read_group(4, 0x80)?;
    read_group(5, 0x41)?;
    read_group(255, 0)?;
    write_group(GroupType::Multicast, 0x80, 3)?;
    write_group(GroupType::Multicast, 0x41, 6)?;
    write_group(GroupType::Multicast, 0x40, 3)?;
    write_group(GroupType::Multicast, 0x40, 4)?;
    write_group(GroupType::Unrecognized(3), 0, 6)?;
    write_group(GroupType::Unrecognized(9), 0, 6)
}

fn run() -> fmt::Result {
    cut()?;
    damage_all();
    pairs()?;
    longest()?;
    write_keys()?;
    write_again()?;
    choices()?;
    handshakes()?;
    groups()
}

fn main() {
    // It goes to its end whatever standard output takes: `Out` does not fail.
    let _ = run();
}
