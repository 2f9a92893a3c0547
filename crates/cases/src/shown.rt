// What the programs that run cases write: numbers, lines of the list, the counts of a state.
use btor2::NodeRef;
use btor2_list::{Line, is_named};
use builder::Tally;
use state::Counts;
use std::io;

// Numbers on a line of their own.
pub fn show_numbers(rt: &impl Print, numbers: &[u64]) -> io::Result<()> {
    for (at, n) in numbers.iter().enumerate() {
        if 0 < at {
            print!(rt; " ")?;
        }
        print!(rt; "{n}")?;
    }
    println!(rt)
}

// The fields of a record, the mark of an address and the address last.
pub fn show_record(rt: &impl Print, line: Line) -> io::Result<()> {
    let numbers = [
        line.nid.0,
        line.kind,
        line.sort,
        line.op1.0 as u64,
        line.op2.0 as u64,
        line.op3.0 as u64,
        line.imm,
        line.name.area,
        line.name.at,
        line.name.len,
        u64::from(line.address.is_some()),
        line.address.unwrap_or(0),
    ];
    show_numbers(rt, &numbers)
}

// The lines of the list from one place up to another, each with its name in our area after it, where lines of its kind have names.
pub fn show_lines(
    rt: &impl Print,
    list: &[u64],
    names: &[u8],
    from: usize,
    to: usize,
) -> io::Result<()> {
    for place in from..to {
        match btor2_list::get(list, NodeRef(place)) {
            Some(line) => show_line(rt, names, line)?,
            None => println!(rt; "outside")?,
        }
    }
    Ok(())
}

fn show_line(rt: &impl Print, names: &[u8], line: Line) -> io::Result<()> {
    show_record(rt, line)?;
    if is_named(line.kind) {
        rt.write_all(btor2_list::name_bytes(b"", names, line.name))?;
        println!(rt)?;
    }
    Ok(())
}

pub fn show_counts(rt: &impl Print, tally: Tally, counts: Counts) -> io::Result<()> {
    let Tally { lines, nid } = tally;
    let Counts {
        names,
        edges,
        dispatches,
        bads,
    } = counts;
    println!(rt; "counts {lines} {nid} {names} {edges} {dispatches} {bads}")
}
