// The records that a join is given, in words that the host lends.
ghost use Rattle.std.specs.Prelude.{◌≡◌, length};
ghost use Rattle.edges.specs.Edges.{edge_stride, dispatch_stride};
ghost use Rattle.join.specs.Given.{edge_in, dispatch_in, flag_stride, flag_in, flag_for, dynamic_for};
ghost use Rattle.join_calls.specs.Records.{edge_record, dispatch_record, flag_record, all_flags};

use btor2::NodeRef;
use edges::InEdge;

// The words of an entry of the table of flags: address, place.
pub(crate) const FLAG: usize = 2;

// The place of a flag that is not there: no list reaches it. It is a place and no Option, since the definitions `flag_for` and `dynamic_for` give
// one in every case.
const NO_FLAG: NodeRef = NodeRef(0xffff_ffff_ffff_ffff);

// A dispatch: the register, and the place of the address node.
#[derive(Clone, Copy)]
pub(crate) struct Dispatch {
    pub register: u64,
    pub address: NodeRef,
}

// An entry of the table of flags: an address, and the place of its flag.
#[derive(Clone, Copy)]
pub(crate) struct Flag {
    pub address: u64,
    pub place: NodeRef,
}

// The edge in its four words: to, from, origin, condition.
pub(crate) fn edge_in(words: &[u64]) -> InEdge
    requires { length words.now ≡ edge_stride }
    ensures { edge_record result ≡ edge_in words.now }
{
    InEdge {
        to: words[0],
        from: words[1],
        origin: words[2],
        condition: NodeRef(words[3] as usize),
    }
}

// The dispatch in its two words: register, address.
pub(crate) fn dispatch_in(words: &[u64]) -> Dispatch
    requires { length words.now ≡ dispatch_stride }
    ensures { dispatch_record result ≡ dispatch_in words.now }
{
    Dispatch {
        register: words[0],
        address: NodeRef(words[1] as usize),
    }
}

// The flag in its two words: address, place.
pub(crate) fn flag_in(words: &[u64]) -> Flag
    requires { length words.now ≡ flag_stride }
    ensures { flag_record result ≡ flag_in words.now }
{
    Flag {
        address: words[0],
        place: NodeRef(words[1] as usize),
    }
}

// The first flag that the table has for an address.
pub(crate) fn find_flag(flags: &[u64], address: u64) -> NodeRef
    ensures { result.0 ≡ flag_for (all_flags flags.now) address }
{
    match flags
        .chunks_exact(FLAG)
        .find(|words| flag_in(words).address == address)
    {
        Some(words) => flag_in(words).place,
        None => NO_FLAG,
    }
}

// The dynamic flag of a register, x1 to x31.
pub(crate) fn dynamic_flag(dynamics: &[u64; 31], register: u64) -> NodeRef
    ensures { result.0 ≡ dynamic_for dynamics.now register }
{
    if register == 0 {
        return NO_FLAG;
    }
    match dynamics.get(register as usize - 1) {
        Some(place) => NodeRef(*place as usize),
        None => NO_FLAG,
    }
}
