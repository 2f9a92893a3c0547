// Prints lines of a list that the commands of standard input fill, a command a line:
//   1 PLACE NID KIND SORT OP1 OP2 OP3 IMM AREA AT LEN MARK ADDRESS   puts a record into a list of 128 records and three words
//   2 LINES FROM COUNT ROOM                                          prints a run into an output of ROOM bytes, all full stops before
// Command 2 writes the length and the text, or the refusal, and then how many full stops are left after the text.
// tools/print_cases.py made the commands and what is to be written; the text is what the unchanged Rust prints.
#![tactic(auto)]

use cases::{Commands, Placed, read_full};
use line_text::{Areas, Listing};
use std::io;

fn main(rt: HostRuntime) -> io::Result<()> {
    let mut buffer = [0u8; 262144];
    let n = read_full(&mut rt.stdin(), &mut buffer)?;
    let mut list = [0u64; 643];
    let mut commands = Commands::new(&buffer[..n]);
    // Each command takes a byte at least.
    for _ in 0..n {
        if commands.is_empty() {
            break;
        }
        run_command(&rt, &mut commands, &mut list)?;
    }
    Ok(())
}

fn run_command(rt: &impl Print, commands: &mut Commands, list: &mut [u64]) -> io::Result<()> {
    if commands.number() == 1 {
        let Placed { place, line } = commands.record();
        btor2_list::put(list, place, line);
        return Ok(());
    }
    let lines = commands.number();
    let from = commands.number();
    let count = commands.number();
    let room = commands.number();
    let mut out = [b'.'; 16384];
    let listing = Listing {
        list,
        lines: lines as usize,
        areas: Areas {
            host: b"x1x31 counter-max\xce\xbb",
            ours: b"flagunimplemented-pc-10000",
        },
    };
    // Where there are not so many bytes, nothing is printed.
    match out.get_mut(..room as usize) {
        Some(part) => show_run(rt, &listing, from as usize, count as usize, part),
        None => Ok(()),
    }
}

fn show_run(
    rt: &impl Print,
    listing: &Listing,
    from: usize,
    count: usize,
    out: &mut [u8],
) -> io::Result<()> {
    match print::print(listing, from, count, out) {
        Err(refusal) => {
            println!(rt; "refused {}", refusal.number())?;
            show_left(rt, out)
        }
        Ok(n) => {
            println!(rt; "written {n}")?;
            let (text, left) = out.split_at(n.min(out.len()));
            rt.write_all(text)?;
            show_left(rt, left)
        }
    }
}

// How many bytes are full stops.
fn show_left(rt: &impl Print, out: &[u8]) -> io::Result<()> {
    // The count is folded, since `filter` and `count` take twice the time here, and a run counts up to 16,384 bytes a command.
    let left = out.iter().fold(
        0u64,
        |left, byte| left.wrapping_add(u64::from(*byte == b'.')),
    );
    println!(rt; "left {left}")
}
