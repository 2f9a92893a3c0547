// What the lent records give for a state or an input.
ghost use Rattle.std.specs.Prelude.{◌≡◌, ◌%◌, ◌^◌, ◌≤◌};
ghost use Rattle.btor2.specs.Sort.{width};
ghost use Rattle.btor2.specs.Value.{of_sort};
ghost use Rattle.evaluation.specs.Given.{given_value, given_cell};

use btor2::{NodeRef, NodeType, bitsize};

// The words of a record of a value: node, value.
const VALUE: usize = 2;

// The words of a record of memory: node, address, word.
const CELL: usize = 3;

// The bits of a word.
const WORD_BITS: u64 = 64;

// The value of a state or an input of a sort: the first record's for its place, modulo 2 to the width. A memory, which has no width, has 0.
pub(crate) fn given(values: &[u64], place: NodeRef, s: NodeType) -> u64
    ensures { result ≡ given_value values.now place.0 % 2 ^ width s }
{
    narrow(first_value(values, place), bitsize(s))
}

// Modulo 2 to this many bits.
fn narrow(x: u64, bits: u64) -> u64
    requires { bits ≤ 64 }
    ensures { result ≡ x % 2 ^ bits }
{
    if bits < WORD_BITS { x % (1 << bits) } else { x }
}

// The value of the first record for a place. The word of a memory is looked for apart: its records have three words and a test more, and one function
// over both would take closures for what they differ in.
fn first_value(values: &[u64], place: NodeRef) -> u64
    ensures { result ≡ given_value values.now place.0 }
{
    for record in values.chunks_exact(VALUE) {
        if record[0] == place.0 as u64 {
            return record[1];
        }
    }
    0
}

// The word of a memory at an address: the first record's for its place and the address. A value of another sort, which has no words, has 0.
pub(crate) fn given_cell(memory: &[u64], place: NodeRef, s: NodeType, address: u64) -> u64
    ensures { result ≡ (of_sort s (record { num = 0; mem = given_cell memory.now place.0 })).mem address }
{
    match s {
        NodeType::Memory => first_cell(memory, place, address),
        _ => 0,
    }
}

fn first_cell(memory: &[u64], place: NodeRef, address: u64) -> u64
    ensures { result ≡ given_cell memory.now place.0 address }
{
    for record in memory.chunks_exact(CELL) {
        if record[0] == place.0 as u64 && record[1] == address {
            return record[2];
        }
    }
    0
}
