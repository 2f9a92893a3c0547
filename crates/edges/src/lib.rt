// In-edges: as a record, and as numbers in a slice that the host lends.
#![tactic(auto)]

mod records;

ghost use Rattle.std.specs.Prelude.{◌≡◌, ◌+◌, ◌≤◌, slice_get};
ghost use Rattle.models.specs.Code.{outcome_of};
ghost use Rattle.btor2_list.specs.Records.{put_record};
ghost use Rattle.edges.specs.Edges.{edge, edges_after, edge_count, taken_condition, other_condition};
ghost use Rattle.edges.specs.Origins.{origins, origin_number};

use btor2::NodeRef;
use models::Outcome;
use records::put_edge;
pub use records::{DISPATCH, EDGE, go_to_anywhere, put_place};
use riscv::Class;

// The origins of an in-edge.
#[derive(Clone, Copy, Debug, PartialEq, Eq)]
pub enum Origin {
    Regular,
    Branch,
    Syscall,
}

impl Origin {
    pub fn number(self) -> u64
        ensures { result ≡ origin_number self }
    {
        self as u64
    }

    // The origin of a number, where there is one.
    pub fn numbered(number: u64) -> Option<Origin>
        ensures { result ≡ slice_get origins number }
    {
        match number {
            0 => Some(Origin::Regular),
            1 => Some(Origin::Branch),
            2 => Some(Origin::Syscall),
            _ => None,
        }
    }
}

// The condition of an edge that has none: a place that no list reaches.
pub const NO_CONDITION: u64 = 0xffff_ffff_ffff_ffff;

// An in-edge as a record: the address it leads to, the one it comes from, its origin and its condition's place. The origin stays a number, since a
// record from a host may hold any: which one a join refuses, the definition `edge_out` says.
#[derive(Clone, Copy)]
pub struct InEdge {
    pub to: u64,
    pub from: u64,
    pub origin: u64,
    pub condition: NodeRef,
}

// How many edges a kind of a class adds.
pub fn edge_count(class: Class) -> usize
    ensures counted { result ≡ edge_count class }
    ensures most { result ≤ 2 }
{
    match class {
        Class::Plain | Class::Access | Class::Addi | Class::Jal | Class::Ecall => 1,
        Class::Branch => 2,
        Class::Jalr => 0,
    }
}

// The edges of an instruction, after `count` others: the second `match` of unicorn's `translate_to_model`.
pub fn go_to_instructions(
    edges: &mut [u64],
    count: usize,
    class: Class,
    address: u64,
    imm: u64,
    outcome: Outcome,
)
    ensures { edges.new ≡ edges_after edges.old count class address imm (outcome_of outcome) }
{
    let next = InEdge {
        to: address.wrapping_add(4),
        from: address,
        origin: Origin::Regular.number(),
        condition: NodeRef(NO_CONDITION as usize),
    };
    let target = InEdge {
        to: address.wrapping_add(imm),
        ..next
    };
    match class {
        Class::Plain | Class::Access | Class::Addi => put_edge(edges, count, next),
        Class::Branch => put_branch(edges, count, target, next, outcome),
        Class::Jal => put_edge(edges, count, target),
        Class::Jalr => {}
        Class::Ecall => put_edge(
            edges,
            count,
            InEdge {
                origin: Origin::Syscall.number(),
                ..next
            },
        ),
    }
}

// The taken edge first, then the other.
fn put_branch(edges: &mut [u64], count: usize, target: InEdge, next: InEdge, outcome: Outcome)
    ensures { edges.new ≡ put_record 4 (put_record 4 edges.old count (edge target.to target.from 1 (taken_condition (outcome_of outcome)))) (count + 1) (edge next.to next.from 1 (other_condition (outcome_of outcome))) }
{
    let (taken, other) = conditions(outcome);
    put_edge(
        edges,
        count,
        InEdge {
            origin: Origin::Branch.number(),
            condition: taken,
            ..target
        },
    );
    put_edge(
        edges,
        count.saturating_add(1),
        InEdge {
            origin: Origin::Branch.number(),
            condition: other,
            ..next
        },
    );
}

// The conditions of the taken edge and of the other.
fn conditions(outcome: Outcome) -> (NodeRef, NodeRef)
    ensures taken { result.0.0 ≡ taken_condition (outcome_of outcome) }
    ensures other { result.1.0 ≡ other_condition (outcome_of outcome) }
{
    if let Outcome::Branch(taken, other) = outcome {
        return (taken, other);
    }
    let none = NodeRef(NO_CONDITION as usize);
    (none, none)
}
