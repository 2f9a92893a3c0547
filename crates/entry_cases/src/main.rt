// Lowers the instructions of standard input on the listing's start with the in-edges in a slice of records, and writes all that each call
// leaves. There are five records, of which a call is lent the first few. A command a line:
//   1 ROOM ADDRESS KIND RD RS1 RS2 IMM FLAG         lowers an instruction with ROOM records, at most five, lent
//   2                                               takes a fresh start, with records that no call makes
//   3 LINES NID NAMES EDGES DISPATCHES BADS         sets the tally and the counts
//   4 ROLE PLACE                                    sets a role
// Command 1 writes its refusal, 0 for none; the words of the lines, dispatches and bads that it appended, and its bytes of names; the tally and
// the counts; the roles; and the five records. tools/entry_cases.py made the commands and what is to be written.
#![tactic(auto)]

ghost use Rattle.std.specs.Prelude.{◌<◌, ◌≤◌};

use btor2::NodeRef;
use btor2_list::STRIDE;
use cases::{Commands, read_full, show_counts};
use edges::{DISPATCH, InEdge};
use lowering::{Lent, LowerCall};
use refusals::Refusal;
use state::State;
use std::io;

const RECORDS: usize = 5;

// What is lent, and the state after the commands so far.
#[derive(Drop)]
struct Desk {
    list: [u64; 500],
    names: [u8; 64],
    records: [InEdge; RECORDS],
    dispatches: [u64; 4],
    bads: [u64; 2],
    state: State,
}

fn main(rt: HostRuntime) -> io::Result<()> {
    let mut buffer = [0u8; 65536];
    let n = read_full(&mut rt.stdin(), &mut buffer)?;
    let mut desk = Desk {
        list: [0; 500],
        names: [0; 64],
        records: unused_records(),
        dispatches: [0; 4],
        bads: [0; 2],
        state: listing_start::start_state(),
    };
    listing_start::put_start(&mut desk.list);
    let mut commands = Commands::new(&buffer[..n]);
    // Each command takes a byte at least.
    for _ in 0..n {
        if commands.is_empty() {
            break;
        }
        run_command(&rt, &mut commands, &mut desk)?;
    }
    Ok(())
}

// Records that tell each other apart, and that no call makes.
fn unused_records() -> [InEdge; RECORDS] {
    let mut records = [unused_record(0); RECORDS];
    for place in 1..RECORDS {
        records[place] = unused_record(place);
    }
    records
}

fn unused_record(place: usize) -> InEdge
    requires { place ≤ 5 }
{
    let n = place as u64;
    InEdge {
        to: 10 * n + 1,
        from: 10 * n + 2,
        origin: 10 * n + 3,
        condition: NodeRef(10 * place + 4),
    }
}

fn run_command(rt: &impl Print, commands: &mut Commands, desk: &mut Desk) -> io::Result<()> {
    match commands.number() {
        1 => run_lower(rt, commands, desk)?,
        2 => {
            listing_start::put_start(&mut desk.list);
            desk.state = listing_start::start_state();
            desk.records = unused_records();
        }
        3 => desk.state = commands.counts(desk.state),
        _ => desk.state = commands.role(desk.state),
    }
    Ok(())
}

fn run_lower(rt: &impl Print, commands: &mut Commands, desk: &mut Desk) -> io::Result<()> {
    let room = commands.number();
    let address = commands.number();
    let instruction = commands.instruction();
    let flag = NodeRef(commands.number() as usize);
    let call = LowerCall {
        instruction,
        address,
        flag,
    };
    let before = desk.state;
    match lower_with(desk, room, call) {
        Ok(after) => {
            desk.state = after;
            println!(rt; "refusal 0")?;
        }
        Err(refusal) => println!(rt; "refusal {}", refusal.number())?,
    }
    show_appended(rt, desk, before)
}

// The call, with the first `room` records lent, or all of them.
fn lower_with(desk: &mut Desk, room: u64, call: LowerCall) -> Result<State, Refusal> {
    let state = desk.state;
    let records = &mut desk.records[..];
    let count = RECORDS.min(room as usize);
    let mut lent = Lent {
        list: &mut desk.list,
        names: &mut desk.names,
        edges: &mut records[..count],
        dispatches: &mut desk.dispatches,
        bads: &mut desk.bads,
    };
    lowering_entry::lower(&mut lent, state, call)
}

// What a call changed: the state before it says where it wrote.
fn show_appended(rt: &impl Print, desk: &Desk, before: State) -> io::Result<()> {
    let after = desk.state;
    let from = before.counts;
    let to = after.counts;
    show_words(
        rt,
        "lines",
        &desk.list,
        STRIDE,
        before.tally.lines,
        after.tally.lines,
    )?;
    show_words(
        rt,
        "dispatches",
        &desk.dispatches,
        DISPATCH,
        from.dispatches,
        to.dispatches,
    )?;
    show_words(rt, "bads", &desk.bads, 1, from.bads, to.bads)?;
    print!(rt; "names ")?;
    rt.write_all(desk.names.get(from.names..to.names).unwrap_or(b""))?;
    println!(rt)?;
    show_counts(rt, after.tally, to)?;
    print!(rt; "roles")?;
    for place in &after.roles {
        print!(rt; " {}", place.0)?;
    }
    println!(rt)?;
    for edge in &desk.records {
        println!(rt;
            "record {} {} {} {}",
            edge.to, edge.from, edge.origin, edge.condition.0
        )?;
    }
    Ok(())
}

// The words of the elements from one place up to another, of so many words each.
fn show_words(
    rt: &impl Print,
    title: &str,
    words: &[u64],
    each: usize,
    from: usize,
    to: usize,
) -> io::Result<()>
    requires { 0 < each }
{
    print!(rt; "{title}")?;
    for element in words.chunks(each).take(to).skip(from) {
        for word in element {
            print!(rt; " {word}")?;
        }
    }
    println!(rt)
}
