use nvme_entry::Sqe;
use nvme_lane::GetEnd;

/// A submission region: the front's end of its ring, and how many commands were fetched.
#[derive(Drop)]
pub struct SqRegion {
    pub end: GetEnd<Sqe>,
    pub fetched: u32,
}

/// A command that was got from a ring: its index among the fetches of its region, and its entry.
#[derive(Clone, Copy, Debug, PartialEq, Eq)]
pub struct Got {
    pub index: u32,
    pub entry: Sqe,
}

impl SqRegion {
    ghost use Rattle.std.specs.Prelude.{◌≡◌, ◌+◌, ◌^◌, ◌<◌, [], ◌∷◌, ◌++◌, length};
    ghost use Rattle.nvme_lane.specs.View.{SameGet};

    /// Gets the next command of the ring, which is known to come.
    pub fn get(&mut self) -> Got
        requires known { 0 < length self.old.end.known }
        requires few { self.old.fetched + 1 < 2 ^ 32 }
        ensures index { result.index ≡ self.old.fetched }
        ensures got { self.new.end.got ≡ self.old.end.got ++ result.entry ∷ [] }
        ensures end { SameGet self.old.end self.new.end }
        ensures known { self.old.end.known ≡ result.entry ∷ self.new.end.known }
        ensures fetched { self.new.fetched ≡ self.old.fetched + 1 }
    {
        let entry = self.end.get_known();
        let index = self.fetched;
        self.fetched += 1;
        Got { index, entry }
    }
}
