// Runs the list cases of RULES 3 and prints each answer, a line for each. What it must print is what
// tests/models/list_cases.py prints, which shares nothing with it. The cases marked P are proved besides, as one table:
// specs/Cases.antt.

#![tactic(auto)]

use loss_compression::compress_loss_list;
use loss_expansion::decompress_loss_list;
use loss_list::FLAG;
use merge::merge_loss_lists;
use refusal::Refusal;
use std::{fmt, io};
use why_lost::why_lost;

// As many words as a list may stand for.
const ROOM: usize = 65536;

// Prints on standard output. What that does not take is dropped, and each later line is tried.
#[derive(Drop)]
struct Out(HostRuntime);

impl Print for Out {
    fn print<D: fmt::Display + Drop>(&self, value: D) -> io::Result<()> {
        let _ = self.0.print(value);
        Ok(())
    }

    fn println<D: fmt::Display + Drop>(&self, value: D) -> io::Result<()> {
        let _ = self.0.println(value);
        Ok(())
    }

    fn write_all(&self, bytes: &[u8]) -> io::Result<()> {
        let _ = self.0.write_all(bytes);
        Ok(())
    }
}

// Words, each after a space.
#[derive(Clone, Copy)]
struct Words<'a>(&'a [u32]);

impl fmt::Display for Words<'_> {
    fn fmt<W: fmt::Write>(&self, f: &mut fmt::Formatter<W>) -> fmt::Result {
        for word in self.0 {
            write!(f, " {word}")?;
        }
        Ok(())
    }
}

// A refusal by its number, with what it carries: each program says that by itself, since the library prints nothing.
#[derive(Clone, Copy)]
struct Refused(Refusal);

impl fmt::Display for Refused {
    fn fmt<W: fmt::Write>(&self, f: &mut fmt::Formatter<W>) -> fmt::Result {
        let why = self.0;
        write!(f, "refused {} {}", why.number(), why.carried())
    }
}

// What a call writes in room for a whole list.
fn whole<F>(rt: &impl Print, called: &str, call: F) -> io::Result<()>
where
    F: FnOnce(&mut [u32]) -> Result<usize, Refusal>,
    requires { F.IsAlwaysCallable call }
{
    let mut room = [0u32; ROOM];
    match call(&mut room) {
        Ok(count) => println!(rt; "{called}{}", Words(&room[..count.min(ROOM)])),
        Err(why) => println!(rt; "{called} {}", Refused(why)),
    }
}

// How much a call writes in a small room, and what the room then holds.
fn leaving<F>(rt: &impl Print, called: &str, room: &mut [u32], call: F) -> io::Result<()>
where
    F: FnOnce(&mut [u32]) -> Result<usize, Refusal>,
    requires { F.IsAlwaysCallable call }
{
    match call(room) {
        Ok(count) => print!(rt; "{called} {count}")?,
        Err(why) => print!(rt; "{called} {}", Refused(why))?,
    }
    println!(rt; " leaving{}", Words(room))
}

fn compress(rt: &impl Print, list: &[u32]) -> io::Result<()> {
    whole(rt, "compress", |room| compress_loss_list(list, room))
}

fn expand(rt: &impl Print, list: &[u32]) -> io::Result<()> {
    whole(rt, "expand", |room| decompress_loss_list(list, room))
}

fn expand_in_two(rt: &impl Print, list: &[u32]) -> io::Result<()> {
    leaving(rt, "expand in 2", &mut [111, 222], |room| {
        decompress_loss_list(list, room)
    })
}

// The count and the last two words.
fn expand_at_the_limit(rt: &impl Print, list: &[u32]) -> io::Result<()> {
    let mut room = [0u32; ROOM];
    match decompress_loss_list(list, &mut room) {
        Ok(count) => println!(rt; "expand {count} numbers to{}", Words(&room[ROOM - 2..])),
        Err(why) => println!(rt; "expand {}", Refused(why)),
    }
}

fn after(number: u32, steps: u32) -> u32 {
    number.wrapping_add(steps) & (FLAG - 1)
}

// So many steps from `number` on: in the first, a middle and the last place of numbers, and of a list as a range.
fn far(rt: &impl Print, number: u32, steps: u32) -> io::Result<()> {
    let there = after(number, steps);
    let back = after(number, 0x7fff_fff0);
    compress(rt, &[number, there, after(there, 2), after(there, 4)])?;
    compress(rt, &[back, number, there, after(there, 2)])?;
    compress(rt, &[after(back, 2), after(back, 4), number, there])?;
    expand(rt, &[number | FLAG, there, 7, 9])?;
    expand(rt, &[7, number | FLAG, there, 9])?;
    expand(rt, &[7, 9, number | FLAG, there])
}

fn about_half_the_ring(rt: &impl Print, number: u32) -> io::Result<()> {
    for steps in [0x3fff_ffff, 0x4000_0000, 0x4000_0001] {
        far(rt, number, steps)?;
    }
    Ok(())
}

fn why(rt: &impl Print, list: &[u32], asked: u32) -> io::Result<()> {
    match why_lost(list, asked) {
        Ok(Some(place)) => println!(rt; "lost at {place}"),
        Ok(None) => println!(rt; "lost not"),
        Err(why) => println!(rt; "lost {}", Refused(why)),
    }
}

// The numbers at both ends of a range, beside them and inside it.
fn about(rt: &impl Print, list: &[u32], first: u32, end: u32) -> io::Result<()> {
    for steps in [0x7fff_ffff, 0, 1, 2] {
        why(rt, list, after(first, steps))?;
    }
    for steps in [0x7fff_ffff, 0, 1] {
        why(rt, list, after(end, steps))?;
    }
    Ok(())
}

// A range, before and after a number of its own, and after others.
fn covered(rt: &impl Print, first: u32, steps: u32) -> io::Result<()> {
    let start = first | FLAG;
    let end = after(first, steps);
    about(rt, &[start, end, first], first, end)?;
    about(rt, &[first, start, end], first, end)?;
    about(rt, &[after(first, 200), end, start, end], first, end)
}

fn ranges(rt: &impl Print, first: u32) -> io::Result<()> {
    for steps in [1, 2, 100] {
        covered(rt, first, steps)?;
    }
    Ok(())
}

// About a sequence number, and about a word that is none.
fn both(rt: &impl Print, list: &[u32]) -> io::Result<()> {
    why(rt, list, 5)?;
    why(rt, list, 0x8000_0005)
}

fn merge(rt: &impl Print, oldest: u32, first: &[u32], second: &[u32]) -> io::Result<()> {
    leaving(rt, "merge", &mut [111, 222, 333], |room| {
        merge_loss_lists(oldest, first, second, room)
    })
}

// Both ways, and each with itself.
fn merged(rt: &impl Print, oldest: u32, one: &[u32], other: &[u32]) -> io::Result<()> {
    merge(rt, oldest, one, other)?;
    merge(rt, oldest, other, one)?;
    merge(rt, oldest, one, one)?;
    merge(rt, oldest, other, other)
}

// As they stand, from an oldest number on across the wrap too.
fn from(rt: &impl Print, oldest: u32) -> io::Result<()> {
    let on = |steps| after(oldest, steps);
    merged(rt, oldest, &[], &[on(5)])?;
    merged(rt, oldest, &[on(5)], &[on(6), on(7)])?;
    merged(rt, oldest, &[on(9), on(3)], &[on(3), oldest])?;
    merged(rt, oldest, &[oldest | FLAG, on(4)], &[on(2), on(5)])?;
    merged(rt, oldest, &[on(7), on(5), on(6)], &[on(9)])?;
    merged(rt, oldest, &[on(0x3fff_ffff)], &[on(0x4000_0000)])?;
    merged(rt, oldest, &[on(0x7fff_fffe) | FLAG, on(2)], &[on(3)])?;
    merged(rt, oldest, &[oldest, on(2)], &[on(4), on(6)])
}

fn main(rt: HostRuntime) -> io::Result<()> {
    let rt = Out(rt);
    let too_long = [0u32; ROOM + 1];
    compress(&rt, &[])?;
    compress(&rt, &[5])?;
    compress(&rt, &[5, 6])?;
    compress(&rt, &[5, 6, 7])?;
    compress(&rt, &[5, 6, 7, 9])?;
    compress(&rt, &[0x7fff_fffe, 0x7fff_ffff, 0, 1])?;
    compress(&rt, &[0, 0x3fff_ffff])?;
    compress(&rt, &[0, 0x4000_0000])?;
    compress(&rt, &[0, 0x4000_0001])?;
    compress(&rt, &[5, 5])?;
    compress(&rt, &[7, 0x8000_0000])?;
    compress(&rt, &too_long)?;
    expand(&rt, &[])?;
    expand(&rt, &[0xffff_fffe, 1])?;
    expand(&rt, &[0x8000_0005, 6])?;
    expand(&rt, &[0x8000_0005, 5])?;
    expand(&rt, &[0x8000_0005])?;
    expand(&rt, &[0x8000_0005, 0x8000_0007])?;
    expand(&rt, &[9, 3])?;
    expand(&rt, &[0x8000_0000, 0x7fff_ffff])?;
    expand(&rt, &[0x8000_0000, 0x4000_0000])?;
    expand(&rt, &[0x8000_0000, 0x3fff_ffff])?;
    expand(&rt, &too_long)?;
    expand_in_two(&rt, &[0x8000_0005, 7])?;
    expand_in_two(&rt, &[0x8000_0005, 6])?;
    expand_in_two(&rt, &[4, 0x8000_0005, 5])?;
    expand_at_the_limit(&rt, &[0x8000_0000, 65535])?;
    expand_at_the_limit(&rt, &[0x8000_0000, 65536])?;
    for number in [0, 1, 0x3fff_ffff, 0x4000_0000, 0x4000_0001, 0x7fff_ffff] {
        about_half_the_ring(&rt, number)?;
    }
    for first in [0, 1, 0x3fff_ffff, 0x4000_0000, 0x7fff_fffe, 0x7fff_ffff] {
        ranges(&rt, first)?;
    }
    both(&rt, &[])?;
    both(&rt, &[5])?;
    both(&rt, &[5, 0x8000_0005])?;
    both(&rt, &[0x8000_0005, 4])?;
    both(&rt, &[0x8000_0000, 65536])?;
    both(&rt, &too_long)?;
    for oldest in [0, 1, 0x4000_0000, 0x7fff_fffc, 0x7fff_ffff, 0x8000_0000] {
        from(&rt, oldest)?;
    }
    merged(&rt, 0, &[0x8000_0005], &[0x8000_0005, 5])?;
    merged(&rt, 0, &[5, 0x8000_0005, 0x8000_0007], &[0x4000_0000])?;
    merged(&rt, 0, &[0x8000_0000, 65535], &[65536])?;
    merged(&rt, 0, &too_long, &[5])
}
