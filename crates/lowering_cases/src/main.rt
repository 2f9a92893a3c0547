// Lowers the instructions of standard input, on the listing's start or on one that it is handed, and writes what each appends. A command a
// line:
//   1 ADDRESS KIND RD RS1 RS2 IMM FLAG                               lowers an instruction; FLAG is a place, IMM a word of 64 bits
//   2                                                                takes a fresh start
//   3 LINES NID NAMES EDGES DISPATCHES BADS                          sets the tally and the counts
//   4 ROLE PLACE                                                     sets a role
//   5 PLACE NID KIND SORT OP1 OP2 OP3 IMM AREA AT LEN MARK ADDRESS   puts a line, for another start
//   6 PLACE                                                          shows the line at a place, as command 1 shows its own
// Command 1 writes its lines as the twelve numbers of their records, a bad line's name after it, then edges, dispatches, bads, the tally and
// the counts, and the places of the 40 flows; or its refusal. Places are those of the list: on the listing's start identifier 20 stands at 0.
// tools/lowering_cases.py made the commands and what is to be written.
#![tactic(auto)]

ghost use Rattle.std.specs.Prelude.{◌<◌};

use btor2::NodeRef;
use cases::{Commands, Placed, read_full, show_counts, show_lines};
use edges::{DISPATCH, EDGE};
use lowering::{Lent, LowerCall};
use state::{Counts, REGISTER_FLOWS, State};
use std::io;

// The flow of x1, the first.
const FIRST_FLOW: usize = REGISTER_FLOWS + 1;

fn main(rt: HostRuntime) -> io::Result<()> {
    let mut buffer = [0u8; 65536];
    let n = read_full(&mut rt.stdin(), &mut buffer)?;
    let mut lent = Lent {
        list: &mut [0; 4000],
        names: &mut [0; 1024],
        edges: &mut [0; 12],
        dispatches: &mut [0; 4],
        bads: &mut [0; 32],
    };
    listing_start::put_start(lent.list);
    let mut state = listing_start::start_state();
    let mut commands = Commands::new(&buffer[..n]);
    // Each command takes a byte at least.
    for _ in 0..n {
        if commands.is_empty() {
            break;
        }
        state = run_command(&rt, &mut commands, &mut lent, state)?;
    }
    Ok(())
}

// One command; the answer is the state after it.
fn run_command(
    rt: &impl Print,
    commands: &mut Commands,
    lent: &mut Lent,
    state: State,
) -> io::Result<State> {
    match commands.number() {
        1 => run_lower(rt, commands, lent, state),
        2 => {
            listing_start::put_start(lent.list);
            Ok(listing_start::start_state())
        }
        3 => Ok(commands.counts(state)),
        4 => Ok(commands.role(state)),
        5 => {
            let Placed { place, line } = commands.record();
            btor2_list::put(lent.list, place, line);
            Ok(state)
        }
        _ => {
            show_line(rt, lent, commands.number() as usize)?;
            Ok(state)
        }
    }
}

fn show_line(rt: &impl Print, lent: &Lent, place: usize) -> io::Result<()> {
    if place < lent.list.len() {
        show_lines(rt, lent.list, lent.names, place, place + 1)?;
    }
    Ok(())
}

fn run_lower(
    rt: &impl Print,
    commands: &mut Commands,
    lent: &mut Lent,
    state: State,
) -> io::Result<State> {
    let address = commands.number();
    let instruction = commands.instruction();
    let flag = NodeRef(commands.number() as usize);
    let call = LowerCall {
        instruction,
        address,
        flag,
    };
    match lowering_calls::lower(lent, state, call) {
        Ok(after) => {
            show_lowered(rt, lent, state, after)?;
            Ok(without_edges(after))
        }
        Err(refusal) => {
            println!(rt; "refused {}", refusal.number())?;
            Ok(without_edges(state))
        }
    }
}

// The next call writes its edges and dispatches from the front again.
fn without_edges(state: State) -> State {
    State {
        counts: Counts {
            edges: 0,
            dispatches: 0,
            ..state.counts
        },
        ..state
    }
}

// What a call changed: the state before it says where it wrote.
fn show_lowered(rt: &impl Print, lent: &Lent, before: State, after: State) -> io::Result<()> {
    let from = before.counts;
    let to = after.counts;
    show_lines(
        rt,
        lent.list,
        lent.names,
        before.tally.lines,
        after.tally.lines,
    )?;
    show_records(rt, "edge", lent.edges, EDGE, from.edges, to.edges)?;
    show_records(
        rt,
        "dyn",
        lent.dispatches,
        DISPATCH,
        from.dispatches,
        to.dispatches,
    )?;
    show_records(rt, "bad", lent.bads, 1, from.bads, to.bads)?;
    show_counts(rt, after.tally, to)?;
    print!(rt; "flows")?;
    for place in &after.roles[FIRST_FLOW..] {
        print!(rt; " {}", place.0)?;
    }
    println!(rt)
}

// The records of so many words each from one place up to another, as far as there are any.
fn show_records(
    rt: &impl Print,
    title: &str,
    words: &[u64],
    each: usize,
    from: usize,
    to: usize,
) -> io::Result<()>
    requires { 0 < each }
{
    for record in words.chunks_exact(each).take(to).skip(from) {
        print!(rt; "{title}")?;
        for word in record {
            print!(rt; " {word}")?;
        }
        println!(rt)?;
    }
    Ok(())
}
