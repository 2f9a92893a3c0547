// Checks the starts that standard input describes, and writes what each is refused with, 0 for none. A command a line:
//   1 PLACE NID KIND SORT OP1 OP2 OP3 IMM AREA AT LEN MARK ADDRESS   puts a record
//   2 LINES NID NAMES EDGES DISPATCHES BADS                          sets the tally and the counts
//   3 ROLE PLACE                                                     sets a role
//   4 WORDS HOST NAMES EDGES DISPATCHES BADS                         lends as much of each list and area, and checks the start
// What a command sets stays for those after it. tools/start_cases.py made the commands and what is to be written.
#![tactic(auto)]

use btor2::NodeRef;
use builder::Tally;
use cases::{Commands, Placed, read_full};
use refusals::number_or_zero;
use state::{Counts, ROLES, State};
use std::io;

fn main(rt: HostRuntime) -> io::Result<()> {
    let mut buffer = [0u8; 262144];
    let n = read_full(&mut rt.stdin(), &mut buffer)?;
    let mut list = [0u64; 500];
    let mut state = empty();
    let mut commands = Commands::new(&buffer[..n]);
    // Each command takes a byte at least.
    for _ in 0..n {
        if commands.is_empty() {
            break;
        }
        state = run_command(&rt, &mut commands, &mut list, state)?;
    }
    Ok(())
}

fn empty() -> State {
    State {
        tally: Tally { lines: 0, nid: 0 },
        counts: Counts {
            names: 0,
            edges: 0,
            dispatches: 0,
            bads: 0,
        },
        roles: [NodeRef(0); ROLES],
    }
}

// One command; the answer is the state after it.
fn run_command(
    rt: &impl Print,
    commands: &mut Commands,
    list: &mut [u64],
    state: State,
) -> io::Result<State> {
    match commands.number() {
        1 => {
            let Placed { place, line } = commands.record();
            btor2_list::put(list, place, line);
            Ok(state)
        }
        2 => Ok(commands.counts(state)),
        3 => Ok(commands.role(state)),
        _ => {
            show_checked(rt, commands, list, state)?;
            Ok(state)
        }
    }
}

fn show_checked(
    rt: &impl Print,
    commands: &mut Commands,
    list: &[u64],
    state: State,
) -> io::Result<()> {
    let words = commands.number();
    let host = commands.number();
    let names = commands.number();
    let edges = commands.number();
    let dispatches = commands.number();
    let bads = commands.number();
    let bytes = [0u8; 64];
    let numbers = [0u64; 64];
    let checked = start::check_start(
        first(list, words),
        first(&bytes, host),
        first(&bytes, names),
        first(&numbers, edges),
        first(&numbers, dispatches),
        first(&numbers, bads),
        state,
    );
    println!(rt; "{}", number_or_zero(checked))
}

// As many as are asked for, or all that there are.
fn first<T>(s: &[T], n: u64) -> &[T] {
    s.get(..n as usize).unwrap_or(s)
}
