// What a join writes beside the list.
ghost use Rattle.std.specs.Prelude.{◌≡◌, ◌+◌, [], ◌∷◌, length};
ghost use Rattle.std.proofs.lemmas.List.Edits.{sets};
ghost use Rattle.btor2_list.specs.Records.{put_record};
ghost use Rattle.join.specs.FlagName.{flag_name, name_at};
ghost use Rattle.join_calls.specs.Steps.{SameAreas, RoomForName, RoomForNext};

use crate::names::{flag_name_len, put_flag_name};
use btor2::{Name, NodeRef};

// Our name area and the sequentials, and how much of each is in use.
#[derive(Drop)]
pub(crate) struct Areas<'a> {
    pub names: &'a mut [u8],
    pub named: usize,
    pub sequentials: &'a mut [u64],
    pub listed: usize,
}

impl<'a> Areas<'a> {
    // Puts the name of the State of a syscall edge from this address.
    pub(crate) fn put_flag_name(&mut self, address: u64) -> Name
        requires { RoomForName self.now address }
        ensures is { result ≡ name_at self.old.named address }
        ensures puts { self.new.names.now ≡ sets self.old.names.now self.old.named (flag_name address) }
        ensures next { self.new.named ≡ self.old.named + length (flag_name address) }
        ensures same { SameAreas self.old self.new }
        ensures sequentials { self.new.sequentials.now ≡ self.old.sequentials.now }
        ensures listed { self.new.listed ≡ self.old.listed }
    {
        let at = self.named;
        let len = flag_name_len(address);
        put_flag_name(self.names, at, address);
        self.named = at + len;
        Name {
            area: btor2_list::OUR_AREA,
            at: at as u64,
            len: len as u64,
        }
    }

    // Lists the place of a Next.
    pub(crate) fn list_next(&mut self, place: NodeRef)
        requires { RoomForNext self.now }
        ensures puts { self.new.sequentials.now ≡ put_record 1 self.old.sequentials.now self.old.listed (place.0 ∷ []) }
        ensures next { self.new.listed ≡ self.old.listed + 1 }
        ensures same { SameAreas self.old self.new }
        ensures names { self.new.names.now ≡ self.old.names.now }
        ensures named { self.new.named ≡ self.old.named }
    {
        edges::put_place(self.sequentials, self.listed, place);
        self.listed += 1;
    }
}
