// Runs the lent list, the lookup and the names on the commands of standard input, a line each:
//   1 PLACE NID KIND SORT OP1 OP2 OP3 IMM AREA AT LEN MARK ADDRESS   puts a record into a list of four records and three words
//   2 PLACE                                                          gets one
//   3 LINES PLACE                                                    looks a place up
//   4 AREA AT LEN                                                    finds a name in `host` or in `own area`
//   5 LINES PLACE                                                    tells the address of the line at a place
#![tactic(auto)]

use btor2::{Name, NodeRef, get_sort};
use cases::{Commands, Placed, read_full, show_record};
use std::io;

fn main(rt: HostRuntime) -> io::Result<()> {
    let mut buffer = [0u8; 65536];
    let n = read_full(&mut rt.stdin(), &mut buffer)?;
    let mut list = [0u64; 23];
    let mut commands = Commands::new(&buffer[..n]);
    // Each command takes a byte at least.
    for _ in 0..n {
        if commands.is_empty() {
            break;
        }
        run_command(&rt, &mut commands, &mut list)?;
    }
    Ok(())
}

fn run_command(rt: &impl Print, commands: &mut Commands, list: &mut [u64]) -> io::Result<()> {
    match commands.number() {
        1 => show_put(rt, commands.record(), list),
        2 => {
            let place = commands.number();
            show_got(rt, NodeRef(place as usize), list)
        }
        3 => {
            let lines = commands.number();
            let place = commands.number();
            show_looked(rt, lines as usize, NodeRef(place as usize), list)
        }
        4 => {
            let area = commands.number();
            let at = commands.number();
            let len = commands.number();
            show_name(rt, Name { area, at, len })
        }
        _ => {
            let lines = commands.number();
            let place = commands.number();
            show_address(rt, lines as usize, NodeRef(place as usize), list)
        }
    }
}

fn show_put(rt: &impl Print, read: Placed, list: &mut [u64]) -> io::Result<()> {
    if btor2_list::put(list, read.place, read.line) {
        println!(rt; "put")
    } else {
        println!(rt; "outside")
    }
}

fn show_got(rt: &impl Print, place: NodeRef, list: &[u64]) -> io::Result<()> {
    match btor2_list::get(list, place) {
        Some(line) => show_record(rt, line),
        None => println!(rt; "outside"),
    }
}

fn show_looked(rt: &impl Print, lines: usize, place: NodeRef, list: &[u64]) -> io::Result<()> {
    let looked = btor2_list::look(list, lines, place);
    let nid = looked.nid.0;
    match looked.sort {
        None => println!(rt; "{nid} no value"),
        Some(sort) => println!(rt; "{nid} value of sort {}", get_sort(sort)),
    }
}

fn show_name(rt: &impl Print, name: Name) -> io::Result<()> {
    print!(rt; "[")?;
    rt.write_all(btor2_list::name_bytes(b"host", b"own area", name))?;
    println!(rt; "]")
}

fn show_address(rt: &impl Print, lines: usize, place: NodeRef, list: &[u64]) -> io::Result<()> {
    match btor2_list::address_at(list, lines, place) {
        Some(address) => println!(rt; "{address}"),
        None => println!(rt; "no address"),
    }
}
