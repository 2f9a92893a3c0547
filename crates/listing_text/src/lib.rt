// The listing's remarks on dispatches and refusals as text; those on edges are in in_edges.rt.
#![tactic(auto)]

mod in_edges;

ghost use Rattle.text.specs.Put.{Put};
ghost use Rattle.listing_text.specs.Remarks.{dispatch_text, refused_text, dispatches_text};

pub use in_edges::put_edges;

fn put_dispatch(out: &mut [u8], at: usize, register: u64, from: u64) -> usize
    ensures { Put out.old at (dispatch_text register from) out.new result }
{
    let at = text::put_bytes(out, at, b"; dyn ");
    let at = text::put_decimal(out, at, register);
    let at = text::put_byte(out, at, b' ');
    let at = text::put_decimal(out, at, from);
    text::put_byte(out, at, b'\n')
}

// The first `count` dispatches. `put_edges` goes over its records in the same way, with the list besides: one function over a closure would be no
// plainer.
pub fn put_dispatches(out: &mut [u8], at: usize, records: &[u64], count: usize) -> usize
    ensures { Put out.old at (dispatches_text records.now count) out.new result }
{
    let mut p = at;
    for record in records.chunks_exact(edges::DISPATCH).take(count) {
        p = put_dispatch(out, p, record[0], record[1]);
    }
    p
}

// That a line of input is refused with a number.
pub fn put_refused(out: &mut [u8], at: usize, line: u64, number: u64) -> usize
    ensures { Put out.old at (refused_text line number) out.new result }
{
    let at = text::put_bytes(out, at, b"; refused ");
    let at = text::put_decimal(out, at, line);
    let at = text::put_byte(out, at, b' ');
    let at = text::put_decimal(out, at, number);
    text::put_byte(out, at, b'\n')
}
