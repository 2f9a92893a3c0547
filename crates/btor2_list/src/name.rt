// The bytes of a name, in the host's area or in ours.
ghost use Rattle.std.specs.Prelude.{◌≡◌, [], MatchOption};
ghost use Rattle.btor2_list.specs.NameBytes.{name_bytes, part_of};

use btor2::Name;

// The area marks of a name. Any other mark is a missing name's.
pub const HOST_AREA: u64 = 1;

pub const OUR_AREA: u64 = 2;

// The very bytes of a name, a part of one of the two areas. A missing name, or one that does not lie within its area, gives the host's
// first 0 bytes.
pub fn name_bytes<'a>(host: &'a [u8], ours: &'a [u8], name: Name) -> &'a [u8]
    ensures { result.now ≡ name_bytes host.now ours.now name }
{
    let part = match name.area {
        HOST_AREA => part_of(host, name),
        OUR_AREA => part_of(ours, name),
        _ => None,
    };
    part.unwrap_or(&host[..0])
}

// The part of an area where the bytes of a name lie, if they lie within it.
fn part_of<'a>(area: &'a [u8], name: Name) -> Option<&'a [u8]>
    ensures { MatchOption result (part_of area.now name.at name.len ≡ []) (λ part. part.now ≡ part_of area.now name.at name.len) }
{
    let rest = area.get(name.at as usize..)?;
    rest.get(..name.len as usize)
}
