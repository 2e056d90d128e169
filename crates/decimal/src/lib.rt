// Decimal numbers as text: no sign, and no leading zero but for 0 itself.

#![tactic(auto)]

ghost use Rattle.std.specs.Prelude.{◌≡◌, true, ◌+◌, ◌-◌, ◌*◌, ◌^◌, ◌≤◌, length};
ghost use Rattle.std.specs.Char.{is_ascii_digit};
ghost use Rattle.std.specs.List.{take_while};
ghost use Rattle.wire.specs.Lent.{placed};
ghost use Rattle.decimal.specs.Decimal.{is_digit, numeral, capped, NumberAt};

// How many digits a number has.
pub fn digits(n: u64) -> usize
    ensures { result ≡ length (numeral n) }
{
    match n.checked_ilog10() {
        Some(power) => power as usize + 1,
        None => 1,
    }
}

// Writes a number to the front of a buffer; to one that is too short for it, nothing. The last digit goes first.
pub fn put_number(n: u64, into: &mut [u8])
    ensures { into.new ≡ placed (numeral n) into.old }
{
    let count = digits(n);
    if into.len() < count {
        return;
    }
    let mut rest = n;
    // The place is asked for: after `iter_mut().rev()` the proof would know nothing of what was written.
    for i in (1..count).rev() {
        into[i] = b'0' + (rest % 10) as u8;
        rest = rest / 10;
    }
    into[0] = b'0' + rest as u8;
}

// A number that was read, and where it ends.
#[derive(Clone, Copy)]
pub struct Number {
    // 2^32 for a number of more than 32 bits, and no Option: the number was read, and where it ends counts.
    pub value: u64,
    // The place after its last digit.
    pub next: usize,
}

// A number with one digit more.
fn longer(value: u64, byte: u8) -> u64
    requires { (value ≤ 2 ^ 32) × (is_digit byte ≡ true) }
    ensures { result ≡ capped (10 * value + (byte - 48)) }
{
    (10 * value + u64::from(byte - b'0')).min(0x1_0000_0000)
}

// How many digits some bytes begin with.
fn leading_digits(bytes: &[u8]) -> usize
    ensures { result ≡ length (take_while is_ascii_digit bytes.now) }
{
    bytes
        .iter()
        .take_while(|byte| byte.is_ascii_digit())
        .count()
}

// How many digits a number has that begins with 0.
const ALONE: usize = 1;

// The number at a place. One that begins with 0 is 0 alone.
pub fn number_at(bytes: &[u8], at: usize) -> Option<Number>
    ensures { NumberAt bytes.now at result }
{
    let rest = bytes.get(at..)?;
    let digits = &rest[..leading_digits(rest)];
    let first = digits.first()?;
    if *first == b'0' && ALONE < digits.len() {
        return None;
    }
    let mut value = 0;
    for digit in digits {
        value = longer(value, *digit);
    }
    Some(Number {
        value,
        next: at + digits.len(),
    })
}
