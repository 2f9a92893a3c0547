// Runs the bench on the commands of standard input, a line each:
//   1 COUNT HEAD A B C                  appends COUNT lines of these four words and a fifth that is 0
//   2 COUNT HEAD A B C                  the same, with the line's own place added to A, B and C, modulo 2^64
//   3 NODE VALUE                        appends a record of a value
//   4 NODE ADDRESS WORD                 appends a record of memory
//   5 WORDS VALUES MEMORY LINES PLACE   lends as many words of the list, of the values and of the memory, or all that there are, and asks for
//                                       the node at PLACE in a list of LINES lines
//   6 LIST VALUES MEMORY                keeps as many words of each in use, or all that are; any other number is taken as 6
// The areas hold 4,100 lines, 128 records of values and 128 of memory, all 0 at first. What does not fit is dropped whole. A line's own place is
// the count of whole lines in use before it. Words that are no longer in use stay as they are, and command 5 lends them too.
// Command 5 writes the value and the visits, or `refused` and the number. tools/evaluation_cases.py made the commands and what is to be written.
#![tactic(auto)]

use btor2::NodeRef;
use btor2_list::STRIDE;
use cases::{Commands, read_full};
use evaluation_calls::evaluate;
use std::io;

// Words, of which some at the front are in use.
#[derive(Drop)]
struct Area<const N: usize> {
    words: [u64; N],
    used: usize,
}

#[derive(Drop)]
struct Areas {
    list: Area<20500>,
    values: Area<256>,
    memory: Area<384>,
}

impl<const N: usize> Area<N> {
    fn new() -> Self {
        Area {
            words: [0; N],
            used: 0,
        }
    }

    // Puts words after those in use, where all of them fit, and tells whether they did.
    fn append(&mut self, words: &[u64]) -> bool {
        let Some(end) = self.used.checked_add(words.len()) else {
            return false;
        };
        let Some(room) = self.words.get_mut(self.used..end) else {
            return false;
        };
        room.copy_from_slice(words);
        self.used = end;
        true
    }

    fn keep(&mut self, n: u64) {
        self.used = self.used.min(n as usize);
    }

    // As many words as are asked for, or all that there are.
    fn lend(&self, n: u64) -> &[u64] {
        self.words.get(..n as usize).unwrap_or(&self.words)
    }
}

fn main(rt: HostRuntime) -> io::Result<()> {
    let mut buffer = [0u8; 262144];
    let n = read_full(&mut rt.stdin(), &mut buffer)?;
    let mut areas = Areas {
        list: Area::new(),
        values: Area::new(),
        memory: Area::new(),
    };
    let mut commands = Commands::new(&buffer[..n]);
    // Each command takes a byte at least.
    for _ in 0..n {
        if commands.is_empty() {
            break;
        }
        run_command(&rt, &mut commands, &mut areas)?;
    }
    Ok(())
}

fn run_command(rt: &impl Print, commands: &mut Commands, areas: &mut Areas) -> io::Result<()> {
    match commands.number() {
        1 => append_lines(commands, &mut areas.list, false),
        2 => append_lines(commands, &mut areas.list, true),
        3 => {
            let node = commands.number();
            let value = commands.number();
            areas.values.append(&[node, value]);
        }
        4 => {
            let node = commands.number();
            let address = commands.number();
            let word = commands.number();
            areas.memory.append(&[node, address, word]);
        }
        5 => show_asked(rt, commands, areas)?,
        _ => {
            areas.list.keep(commands.number());
            areas.values.keep(commands.number());
            areas.memory.keep(commands.number());
        }
    }
    Ok(())
}

// Appends lines until there are as many or one does not fit; `placed` tells whether their own place is added to the words after the first.
fn append_lines<const N: usize>(commands: &mut Commands, list: &mut Area<N>, placed: bool) {
    let count = commands.number();
    let head = commands.number();
    let a = commands.number();
    let b = commands.number();
    let c = commands.number();
    for _ in 0..count {
        let place = if placed {
            (list.used / STRIDE) as u64
        } else {
            0
        };
        let words = [
            head,
            a.wrapping_add(place),
            b.wrapping_add(place),
            c.wrapping_add(place),
            0,
        ];
        if !list.append(&words) {
            break;
        }
    }
}

fn show_asked(rt: &impl Print, commands: &mut Commands, areas: &Areas) -> io::Result<()> {
    let words = commands.number();
    let values = commands.number();
    let memory = commands.number();
    let lines = commands.number();
    let place = commands.number();
    let answer = evaluate(
        areas.list.lend(words),
        lines as usize,
        areas.values.lend(values),
        areas.memory.lend(memory),
        NodeRef(place as usize),
    );
    match answer {
        Ok(evaluated) => println!(rt; "{} {}", evaluated.value, evaluated.visits),
        Err(refusal) => println!(rt; "refused {}", refusal.number()),
    }
}
