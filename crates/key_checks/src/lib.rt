// What a key message must be: the checks of its bytes, in their order, and how long its parts are.

#![tactic(auto)]

ghost use Rattle.std.specs.Prelude.{◌≡◌, ◌*◌, ◌≤◌, length};
ghost use Rattle.key_checks.specs.KeyChecks.{unless, sound, unsound, key_head, is_packet_type, is_key_length, salt_length, key_count, wrapped_length, kinds_judged, lengths_judged, key_judged};

use refusal::Refusal;
use wire::{big16, byte_at};

// Why a message fails the checks.
#[derive(Clone, Copy)]
pub struct Fault {
    pub refusal: Refusal,
    // The offset of the last byte that the failed check looked at. A message that has too few bytes is looked at nowhere.
    pub looked: Option<usize>,
}

impl From<Fault> for Refusal {
    ghost from_gives = { λ fault refusal. refusal ≡ fault.refusal };

    fn from(fault: Fault) -> Refusal {
        fault.refusal
    }
}

// The bytes before the salt.
pub const HEAD: usize = 16;

// The letters H, A, I, five bits each.
pub const SIGN: u16 = 0x2029;

fn is_packet_type(bits: u8) -> bool
    ensures { result ≡ is_packet_type bits }
{
    matches!(bits, 1 | 2)
}

fn is_key_length(length: usize) -> bool
    ensures { result ≡ is_key_length length }
{
    matches!(length, 16 | 24 | 32)
}

// The bytes in a count of four-byte words.
fn words(count: u8) -> usize
    ensures { (result ≡ count * 4) × (result ≤ 1020) }
{
    usize::from(count) * 4
}

// As many keys as the two key flags have bits set.
pub fn key_count(flags: u8) -> usize
    ensures { (result ≡ key_count flags) × (result ≤ 8) }
{
    u8::count_ones(flags) as usize
}

// How long the salt is.
pub fn salt_length(buf: &[u8]) -> usize
    ensures { (result ≡ salt_length buf.now) × (result ≤ 1020) }
{
    words(byte_at(buf, 14))
}

// How long the wrapped keys are: the keys, and 8 bytes of wrap.
pub fn wrapped_length(buf: &[u8]) -> usize
    ensures { (result ≡ wrapped_length buf.now) × (result ≤ 8168) }
{
    key_count(byte_at(buf, 3) % 4) * words(byte_at(buf, 15)) + 8
}

// One check of several: `?` hands on its fault where it does not hold.
fn check(holds: bool, refusal: Refusal, looked: Option<usize>) -> Result<(), Fault>
    ensures { result ≡ unless holds (unsound refusal looked) sound }
{
    if holds {
        Ok(())
    } else {
        Err(Fault { refusal, looked })
    }
}

// The checks, in the order of RULES 6.4: first those of the version, the packet type, the sign and the key flags.
#[tactic(auto, unfolding(crate::specs::KeyChecks::key_judged))]
pub fn judge(buf: &[u8]) -> Result<(), Fault>
    ensures { result ≡ key_judged buf.now }
{
    check(HEAD <= buf.len(), Refusal::NotEnoughData, None)?;
    let vers_pt = buf[0];
    check(vers_pt / 16 == 1, Refusal::BadSrtExtensionMessage, Some(0))?;
    let pt = vers_pt % 16;
    check(is_packet_type(pt), Refusal::BadKeyPacketType(pt), Some(0))?;
    let sign = big16(buf[1], buf[2]);
    check(sign == SIGN, Refusal::BadKeySign(sign), Some(2))?;
    let flags = buf[3] % 4;
    check(flags != 0, Refusal::NoKey, Some(3))?;
    judge_kinds(buf)
}

// Then those of the cipher, the auth and the stream encapsulation.
// The whole message, and no head of sixteen bytes: the last check looks at its length.
fn judge_kinds(buf: &[u8]) -> Result<(), Fault>
    requires { key_head ≤ length buf.now }
    ensures { result ≡ kinds_judged buf.now (lengths_judged buf.now) }
{
    let cipher = buf[8];
    check(cipher <= 3, Refusal::BadCipherKind(cipher), Some(8))?;
    let auth = buf[9];
    check(auth == 0, Refusal::BadAuth(auth), Some(9))?;
    let se = buf[10];
    check(se != 1, Refusal::StreamEncapsulationNotSrt, Some(10))?;
    check(se == 2, Refusal::BadStreamEncapsulation(se), Some(10))?;
    judge_lengths(buf)
}

// And last those of the key length and of the bytes that are left for the salt and the wrapped keys, for which the whole message is looked at. Inlined, since a
// call hands its answer on through memory, and reading a message then takes longer.
#[inline(always)]
fn judge_lengths(buf: &[u8]) -> Result<(), Fault>
    requires { key_head ≤ length buf.now }
    ensures { result ≡ lengths_judged buf.now }
{
    let key_len = words(buf[15]);
    let refusal = Refusal::BadCryptoLength(key_len as u32);
    check(is_key_length(key_len), refusal, Some(15))?;
    let used = HEAD + salt_length(buf) + wrapped_length(buf);
    check(used <= buf.len(), Refusal::NotEnoughData, Some(15))
}
