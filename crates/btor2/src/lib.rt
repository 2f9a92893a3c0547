// Sorts, identifiers and places of BTOR2 node lines (the types of unicorn's mod.rs).
#![tactic(auto)]

ghost use Rattle.std.specs.Prelude.{◌≡◌};
ghost use Rattle.btor2.specs.Sort.{sort_number, sort_numbered, width};
ghost use Rattle.btor2.specs.SortTable.{padding};

// The identifier that a line is printed under. A State with an init takes two, so identifiers and places drift apart.
#[derive(Clone, Copy)]
pub struct Nid(pub u64);

// A place in the list of lines.
#[derive(Clone, Copy)]
pub struct NodeRef(pub usize);

// A sort, and the number that it is printed as, to be laid beside a file's sort lines (document 02, R-5).
#[derive(Clone, Copy, PartialEq, Eq)]
pub enum NodeType {
    Bit = 1,
    Word = 2,
    Memory = 3,
    Input1Byte = 11,
    Input2Byte = 12,
    Input3Byte = 13,
    Input4Byte = 14,
    Input5Byte = 15,
    Input6Byte = 16,
    Input7Byte = 17,
}

// What `get_sort` gives for the sorts of the builder's own lines.
pub const BIT: u64 = NodeType::Bit as u64;

pub const WORD: u64 = NodeType::Word as u64;

pub const MEMORY: u64 = NodeType::Memory as u64;

// Where the bytes of a name lie: area 1 is the host's, 2 ours, and a missing name has area 0. The area is a number and no enum, since a record may
// hold any other, and `get_at` of btor2_list/specs/Record promises that very number.
#[derive(Clone, Copy)]
pub struct Name {
    pub area: u64,
    pub at: u64,
    pub len: u64,
}

// The number that a sort is printed as. `From` would be no plainer: the name is that of unicorn's function.
pub fn get_sort(sort: NodeType) -> u64
    ensures { result ≡ sort_number sort }
{
    sort as u64
}

// The sort that is printed as a number. `TryFrom` would be no plainer: it needs an error type, where None says as much.
pub fn sort_of(number: u64) -> Option<NodeType>
    ensures { result ≡ sort_numbered number }
{
    match number {
        1 => Some(NodeType::Bit),
        2 => Some(NodeType::Word),
        3 => Some(NodeType::Memory),
        11 => Some(NodeType::Input1Byte),
        12 => Some(NodeType::Input2Byte),
        13 => Some(NodeType::Input3Byte),
        14 => Some(NodeType::Input4Byte),
        15 => Some(NodeType::Input5Byte),
        16 => Some(NodeType::Input6Byte),
        17 => Some(NodeType::Input7Byte),
        _ => None,
    }
}

// The bits of a value of a sort; a Memory has no width, and gives 0.
pub fn bitsize(sort: NodeType) -> u64
    ensures { result ≡ width sort }
{
    match sort {
        NodeType::Bit => 1,
        NodeType::Word => 64,
        NodeType::Memory => 0,
        NodeType::Input1Byte => 8,
        NodeType::Input2Byte => 16,
        NodeType::Input3Byte => 24,
        NodeType::Input4Byte => 32,
        NodeType::Input5Byte => 40,
        NodeType::Input6Byte => 48,
        NodeType::Input7Byte => 56,
    }
}

// By how many bits `uext` extends a value of a sort to a Word: a case for each, to be laid beside a file's sort lines (document 02, R-5). None from
// Memory is printed.
pub fn padding(from: NodeType) -> u64
    ensures { result ≡ padding from }
{
    match from {
        NodeType::Bit => 63,
        NodeType::Word => 0,
        NodeType::Memory => 64,
        NodeType::Input1Byte => 56,
        NodeType::Input2Byte => 48,
        NodeType::Input3Byte => 40,
        NodeType::Input4Byte => 32,
        NodeType::Input5Byte => 24,
        NodeType::Input6Byte => 16,
        NodeType::Input7Byte => 8,
    }
}
