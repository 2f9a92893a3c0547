// Runs the instruction check on the records of standard input, a line each: kind, rd, rs1, rs2 and imm. Writes each record with its
// refusal, 0 where there is none. tools/riscv_cases.py made the records and what is to be written.
#![tactic(auto)]

use cases::{Commands, read_full, show_numbers};
use refusals::number_or_zero;
use riscv::Instruction;
use std::io;

fn main(rt: HostRuntime) -> io::Result<()> {
    let mut buffer = [0u8; 65536];
    let n = read_full(&mut rt.stdin(), &mut buffer)?;
    let mut commands = Commands::new(&buffer[..n]);
    // Each record takes a byte at least.
    for _ in 0..n {
        if commands.is_empty() {
            break;
        }
        show_checked(&rt, commands.instruction())?;
    }
    Ok(())
}

fn show_checked(rt: &impl Print, i: Instruction) -> io::Result<()> {
    let refusal = number_or_zero(riscv_rows::check(i));
    show_numbers(rt, &[i.kind, i.rd, i.rs1, i.rs2, i.imm, refusal])
}
