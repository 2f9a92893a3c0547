// The lines of an instruction, from what it reads of the roles, with the name of Jalr's bad line.
ghost use Rattle.std.specs.Prelude.{◌≡◌};
ghost use Rattle.btor2_list.specs.Node.{no_name};
ghost use Rattle.builder.specs.Prog.{ran};
ghost use Rattle.builder.specs.Append.{at, run_for};
ghost use Rattle.models.specs.Places as P;
ghost use Rattle.models.specs.Code.{flows_of, outcome_of};
ghost use Rattle.lowering.specs.Lines.{name_for, program_with};

use btor2::Name;
use builder::{Builder, Tally};
use models::{Flows, Immediate, Outcome};
use riscv::{Class, Instruction, Zeros};
use riscv_rows::has_bad;
use state::Reads;

// What an instruction's lines give: the tally after them, the flows that they set, and the outcome.
#[derive(Clone, Copy)]
pub struct Lines {
    pub tally: Tally,
    pub flows: Flows,
    pub outcome: Outcome,
}

// The lines of an instruction, each with its address; with the name of its bad line and with which of its fields are zero.
pub fn lower_lines(
    list: &mut [u64],
    t: Tally,
    name: Name,
    zeros: Zeros,
    e: Reads,
    i: Instruction,
    address: u64,
) -> Lines
    ensures { ran (at list.new result.tally) (P.gives (flows_of result.flows) (outcome_of result.outcome)) ≡ run_for address list.old t (program_with name zeros e i address) }
{
    let imm = riscv_rows::constant_of(i.kind, i.imm, address);
    let mut b = Builder::new(list, t);
    let m = translate::translate_lines(&mut b, e, Immediate { imm, zeros }, name, i.kind);
    let tally = b.tally();
    btor2_list::address_lines(list, t.lines, tally.lines, address);
    Lines {
        tally,
        flows: m.flows,
        outcome: m.outcome,
    }
}

// The name of Jalr's bad line, which is put after `at` bytes of our area.
pub fn name_for(class: Class, z: Zeros, at: usize, address: u64) -> Name
    ensures { result ≡ name_for class z at address }
{
    if has_bad(class, z) {
        let len = text::bad_name_len(address);
        return Name {
            area: btor2_list::OUR_AREA,
            at: at as u64,
            len: len as u64,
        };
    }
    no_name()
}

fn no_name() -> Name
    ensures { result ≡ no_name }
{
    Name {
        area: 0,
        at: 0,
        len: 0,
    }
}
