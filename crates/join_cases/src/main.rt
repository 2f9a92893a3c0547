// Joins edges and dispatches that standard input describes into flows, with the edges in a slice of records, and writes all that each call
// leaves. A command a line:
//   1 FLOW                                                           joins what the commands before gave; FLOW is a place
//   2 PLACE NID KIND SORT OP1 OP2 OP3 IMM AREA AT LEN MARK ADDRESS   puts a line
//   3 LINES NID NAMES EDGES DISPATCHES BADS                          sets the tally and the counts of the state
//   4 ROLE PLACE                                                     sets a role
//   5 COUNT WORDS WORD..                                             gives edges: the records that these words hold are lent, and COUNT are in use
//   6 COUNT WORDS WORD..                                             gives dispatches: these words are lent, and COUNT records are in use
//   7 COUNT WORDS WORD..                                             gives the table of flags
//   8 COUNT WORDS WORD..                                             gives the dynamic flags, whose COUNT is not used; one that is not there is no place
//   9 MODE NOT                                                       sets the kernel-mode and the kernel-not node
//   10 LIST NAMES SEQUENTIALS COUNT                                  lends so many words of the list, bytes of our area and words of the sequentials, of
//                                                                    which COUNT are in use
//   11 WORDS                                                         lends so many of the words that a call may use; before it all of them
// What a command sets stays for those after it. Command 1 writes its refusal, 0 for none; of an accepted call the lines as the twelve numbers of
// their records, a State's name after it, the sequentials that it added and the new flow; then the tally, the counts and the sequentials in use,
// and a number each for the whole list, our area, the sequentials, the roles and the words that a call may use, whatever of them is lent or in
// use.
// tools/join_cases.py made the commands and what is to be written.
#![tactic(auto)]

ghost use Rattle.std.specs.Prelude.{◌≡◌, length};

use btor2::NodeRef;
use builder::Tally;
use cases::{Commands, read_full, show_lines};
use edges::{EDGE, InEdge};
use join::{Asked, JoinHeld, JoinInput, JoinLent, Joined};
use refusals::Refusal;
use state::{Counts, ROLES, State};
use std::io;

const LIST: usize = 4000;

const NAMES: usize = 2048;

const SEQUENTIALS: usize = 64;

// The words that a call may use: more than those of the edges, so that one which is put after them shows.
const SCRATCH: usize = 68;

// The words of an area, and the edges that they hold.
const AREA: usize = 64;

const RECORDS: usize = 16;

// The dynamic flags of a call, and a place that no list reaches.
const FLAGGED: usize = 31;

const NO_PLACE: u64 = 0xffff_ffff_ffff_ffff;

// Words of one kind that are given: how many of them are lent, and how many records are in use.
#[derive(Drop)]
struct Area {
    words: [u64; AREA],
    lent: usize,
    count: usize,
}

// How much a call is lent of the list, our name area, the sequentials and the words that it may use.
#[derive(Clone, Copy)]
struct Lengths {
    list: usize,
    names: usize,
    sequentials: usize,
    scratch: usize,
}

// All that stays from command to command.
#[derive(Drop)]
struct Desk {
    list: [u64; LIST],
    names: [u8; NAMES],
    sequentials: [u64; SEQUENTIALS],
    scratch: [u64; SCRATCH],
    lent: Lengths,
    held: JoinHeld,
    mode: NodeRef,
    none: NodeRef,
    edges: Area,
    dispatches: Area,
    flags: Area,
    dynamics: Area,
}

fn main(rt: HostRuntime) -> io::Result<()> {
    let mut buffer = [0u8; 262144];
    let n = read_full(&mut rt.stdin(), &mut buffer)?;
    // Full of a number that no call puts everywhere, so that a word which a call clears shows.
    let mut desk = Desk {
        list: [46; LIST],
        names: [46; NAMES],
        sequentials: [46; SEQUENTIALS],
        scratch: [46; SCRATCH],
        lent: Lengths {
            list: 0,
            names: 0,
            sequentials: 0,
            scratch: SCRATCH,
        },
        held: nothing_held(),
        mode: NodeRef(0),
        none: NodeRef(0),
        edges: Area::new(),
        dispatches: Area::new(),
        flags: Area::new(),
        dynamics: Area::new(),
    };
    let mut commands = Commands::new(&buffer[..n]);
    // Each command takes a byte at least.
    for _ in 0..n {
        if commands.is_empty() {
            break;
        }
        run_command(&rt, &mut commands, &mut desk)?;
    }
    Ok(())
}

fn nothing_held() -> JoinHeld {
    JoinHeld {
        state: State {
            tally: Tally { lines: 0, nid: 0 },
            counts: Counts {
                names: 0,
                edges: 0,
                dispatches: 0,
                bads: 0,
            },
            roles: [NodeRef(0); ROLES],
        },
        sequentials: 0,
    }
}

fn run_command(rt: &impl Print, commands: &mut Commands, desk: &mut Desk) -> io::Result<()> {
    match commands.number() {
        1 => run_join(rt, commands, desk)?,
        2 => {
            let read = commands.record();
            btor2_list::put(&mut desk.list, read.place, read.line);
        }
        3 => desk.held.state = commands.counts(desk.held.state),
        0 | 4 => desk.held.state = commands.role(desk.held.state),
        5 => desk.edges.read(commands),
        6 => desk.dispatches.read(commands),
        7 => desk.flags.read(commands),
        8 => desk.dynamics.read(commands),
        9 => {
            desk.mode = NodeRef(commands.number() as usize);
            desk.none = NodeRef(commands.number() as usize);
        }
        10 => {
            desk.lent.list = commands.number() as usize;
            desk.lent.names = commands.number() as usize;
            desk.lent.sequentials = commands.number() as usize;
            desk.held.sequentials = commands.number() as usize;
        }
        _ => desk.lent.scratch = commands.number() as usize,
    }
    Ok(())
}

impl Area {
    fn new() -> Area {
        Area {
            words: [0; AREA],
            lent: 0,
            count: 0,
        }
    }

    // COUNT WORDS WORD..; a word that there is no room for is passed over.
    fn read(&mut self, commands: &mut Commands) {
        self.count = commands.number() as usize;
        let lent = commands.number();
        for n in 0..lent {
            let word = commands.number();
            if n < AREA as u64 {
                self.words[n as usize] = word;
            } else if commands.is_empty() {
                // A command may say that it has far more words than the text has. After the text's end each is 0, and there is no room for it.
                break;
            }
        }
        self.lent = lent as usize;
    }

    // As many words as are lent; none where there are not so many.
    fn lend(&self) -> &[u64] {
        self.words.get(..self.lent).unwrap_or(&[])
    }
}

fn run_join(rt: &impl Print, commands: &mut Commands, desk: &mut Desk) -> io::Result<()> {
    let flow = NodeRef(commands.number() as usize);
    match join_with(desk, flow) {
        Ok(joined) => {
            println!(rt; "refusal 0")?;
            show_joined(rt, desk, joined)?;
            desk.held = joined.held;
        }
        Err(refusal) => println!(rt; "refusal {}", refusal.number())?,
    }
    show_left(rt, desk)
}

// The call, with the first words and bytes of each list lent, and as many records as the words of the edges hold.
fn join_with(desk: &mut Desk, flow: NodeRef) -> Result<Joined, Refusal> {
    let Lengths {
        list,
        names,
        sequentials,
        scratch,
    } = desk.lent;
    let words = desk.edges.lend();
    let records = in_edges(words);
    let whole = RECORDS.min(words.len() / EDGE);
    let dynamics = dynamic_flags(desk.dynamics.lend());
    let input = JoinInput {
        edges: &records[..whole],
        dispatches: desk.dispatches.lend(),
        flags: desk.flags.lend(),
        dynamics: &dynamics,
        asked: Asked {
            edges: desk.edges.count,
            dispatches: desk.dispatches.count,
            flags: desk.flags.count,
            mode: desk.mode,
            none: desk.none,
            flow,
        },
    };
    let all_lines = &mut desk.list[..];
    let all_names = &mut desk.names[..];
    let all_sequentials = &mut desk.sequentials[..];
    let all_scratch = &mut desk.scratch[..];
    let mut lent = JoinLent {
        list: &mut all_lines[..LIST.min(list)],
        names: &mut all_names[..NAMES.min(names)],
        sequentials: &mut all_sequentials[..SEQUENTIALS.min(sequentials)],
    };
    let scratch = &mut all_scratch[..SCRATCH.min(scratch)];
    join_entry::join(&mut lent, &input, scratch, desk.held)
}

// The edges that these words hold; after them records that are not lent.
fn in_edges(words: &[u64]) -> [InEdge; RECORDS] {
    let none = InEdge {
        to: NO_PLACE,
        from: NO_PLACE,
        origin: NO_PLACE,
        condition: NodeRef(NO_PLACE as usize),
    };
    let mut records = [none; RECORDS];
    for (record, edge) in records.iter_mut().zip(words.chunks_exact(EDGE)) {
        *record = in_edge(edge);
    }
    records
}

fn in_edge(words: &[u64]) -> InEdge
    requires { length words.now ≡ 4 }
{
    InEdge {
        to: words[0],
        from: words[1],
        origin: words[2],
        condition: NodeRef(words[3] as usize),
    }
}

// The dynamic flags among these words; where there are fewer, places that no list reaches.
fn dynamic_flags(words: &[u64]) -> [u64; FLAGGED] {
    let mut flags = [NO_PLACE; FLAGGED];
    for (flag, word) in flags.iter_mut().zip(words) {
        *flag = *word;
    }
    flags
}

// What an accepted call appended: the desk before it says where it wrote.
fn show_joined(rt: &impl Print, desk: &Desk, joined: Joined) -> io::Result<()> {
    let before = desk.held;
    let after = joined.held;
    show_lines(
        rt,
        &desk.list,
        &desk.names,
        before.state.tally.lines,
        after.state.tally.lines,
    )?;
    print!(rt; "sequentials")?;
    for place in desk
        .sequentials
        .iter()
        .take(after.sequentials)
        .skip(before.sequentials)
    {
        print!(rt; " {place}")?;
    }
    println!(rt)?;
    println!(rt; "flow {}", joined.flow.0)
}

// The tally, the counts and the sequentials in use; then a number for each list, which a change of any one word changes.
fn show_left(rt: &impl Print, desk: &Desk) -> io::Result<()> {
    let state = desk.held.state;
    let Tally { lines, nid } = state.tally;
    let Counts {
        names,
        edges,
        dispatches,
        bads,
    } = state.counts;
    println!(rt;
        "counts {lines} {nid} {names} {edges} {dispatches} {bads} {}",
        desk.held.sequentials
    )?;
    println!(rt;
        "left {} {} {} {} {}",
        digest(&desk.list),
        digest_bytes(&desk.names),
        digest(&desk.sequentials),
        digest_places(&desk.held.state.roles),
        digest(&desk.scratch)
    )
}

fn digest(words: &[u64]) -> u64 {
    words.iter().fold(0, |sum, word| five_times_and(sum, *word))
}

fn digest_bytes(bytes: &[u8]) -> u64 {
    bytes
        .iter()
        .fold(0, |sum, byte| five_times_and(sum, u64::from(*byte)))
}

fn digest_places(places: &[NodeRef]) -> u64 {
    places
        .iter()
        .fold(0, |sum, place| five_times_and(sum, place.0 as u64))
}

// Modulo 2^64.
fn five_times_and(sum: u64, word: u64) -> u64 {
    sum.wrapping_mul(5).wrapping_add(word)
}
