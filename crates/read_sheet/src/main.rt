// Reads a gap sheet from standard input and prints the numbers that it stands for, a line each, or why it is refused:
//
//     refused 26      1
//
// with a tab between the refusal's number and what it carries. Nothing is printed before the sheet is accepted.

#![tactic(auto)]

ghost use Rattle.std.specs.Prelude.{◌+◌, ◌≤◌};

use decimal::{digits, put_number};
use loss_list::LIMIT;
use refusal::Refusal;

const STDIN: i32 = 0;

const STDOUT: i32 = 1;

// The most bytes that are read: 64 KiB.
const ROOM: usize = 65536;

// The longest line: ten digits and a line feed.
const LINE: usize = 11;

// It prints one line, once, so it is written part by part, by the kit's `io`.
fn refused(why: Refusal) {
    io::write_all(STDOUT, b"refused\t");
    io::print_decimal(STDOUT, why.number());
    io::write_all(STDOUT, b"\t");
    io::print_decimal(STDOUT, why.carried());
    io::write_all(STDOUT, b"\n");
}

// What is to be written out next: the bytes that a page holds, from its front on.
// By the page, with a buffer of its own and digits put in place: nothing is printed number by number.
#[derive(Drop)]
struct Page {
    bytes: [u8; 4096],
    held: usize,
    ghost within: { held ≤ 4096 },
}

impl Page {
    fn empty() -> Page {
        Page {
            bytes: [0; 4096],
            held: 0,
        }
    }

    fn write_out(&self) {
        io::write_all(STDOUT, &self.bytes[..self.held]);
    }

    // Writes the page out where it has no room for a line more.
    fn make_room(&mut self)
        ensures { self.new.held + 11 ≤ 4096 }
    {
        if self.bytes.len() - self.held < LINE {
            self.write_out();
            self.held = 0;
        }
    }

    // Adds a number's line.
    fn add(&mut self, number: u32) {
        self.make_room();
        let end = self.held + digits(u64::from(number));
        if end < self.bytes.len() {
            put_number(u64::from(number), &mut self.bytes[self.held..end]);
            self.bytes[end] = b'\n';
            self.held = end + 1;
        }
    }
}

// Prints the numbers that a sheet stands for, or nothing where it is refused.
// The calls write into room that they are lent.
fn print(sheet: &[u8]) -> Result<(), Refusal> {
    let mut list = [0; LIMIT];
    let words = sheet_reading::read_sheet(sheet, &mut list)?;
    let mut numbers = [0; LIMIT];
    let count = loss_expansion::decompress_loss_list(&list[..words], &mut numbers)?;
    let mut page = Page::empty();
    for number in &numbers[..count] {
        page.add(*number);
    }
    page.write_out();
    Ok(())
}

fn main() {
    let mut sheet = io::large_buffer();
    let n = io::read_full(STDIN, &mut sheet);
    let mut more = [0; 1];
    if n == ROOM && io::read_full(STDIN, &mut more) == 1 {
        refused(Refusal::TooLong(ROOM));
        return;
    }
    if let Err(why) = print(&sheet[..n]) {
        refused(why);
    }
}
