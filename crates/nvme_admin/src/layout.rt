// What a table is made of in memory. Each pattern of bits of these types says something, so that a table can lie where
// others write. Contracts see what it says.
ghost use Rattle.std.specs.Prelude.{◌≡◌, ◌≤◌, ◌<◌, ◌++◌, ◌∷◌, [], length, slice_set};
ghost use Rattle.nvme_admin.specs.Layout.{up, allotted_in, settings_in, sq_of_place, cq_of_place, regions_in};

use crate::bounds::{MAX_IO_QUEUES, MAX_REGIONS};
use crate::region::Region;
use crate::verdict::SqEntry;
use nvme_arbiter::{Class, Settings};

/// A flag.
#[repr(C)]
#[derive(Clone, Copy, Drop)]
pub struct Flag {
    number: u8,
}

impl Flag {
    /// A flag that is set, or cleared.
    pub fn of(is_up: bool) -> Flag
        ensures { up result ≡ is_up }
    {
        Flag {
            number: u8::from(is_up),
        }
    }

    /// Whether it is set.
    pub fn is_up(self) -> bool
        ensures { result ≡ up self }
    {
        self.number != 0
    }
}

/// An allotted number of I/O queues, 1 to `MAX_IO_QUEUES`.
#[repr(C)]
#[derive(Clone, Copy, Drop)]
pub struct Allotted {
    number: u16,
}

impl Allotted {
    /// This number.
    pub fn of(number: u16) -> Allotted
        requires some { 1 ≤ number }
        requires few { number ≤ MAX_IO_QUEUES }
        ensures { allotted_in result ≡ number }
    {
        Allotted { number }
    }

    /// The number.
    pub fn get(self) -> u16
        ensures number { result ≡ allotted_in self }
        ensures some { 1 ≤ result }
        ensures few { result ≤ MAX_IO_QUEUES }
    {
        if self.number == 0 {
            1
        } else if self.number > MAX_IO_QUEUES {
            MAX_IO_QUEUES
        } else {
            self.number
        }
    }
}

/// The settings of the Arbitration feature, by their CDW11.
#[repr(C)]
#[derive(Clone, Copy, Drop)]
pub struct SettingsWord {
    cdw11: u32,
}

impl SettingsWord {
    /// The word of these settings.
    pub fn of(settings: Settings) -> SettingsWord
        ensures { settings_in result ≡ settings }
    {
        SettingsWord {
            cdw11: settings.to_cdw11(),
        }
    }

    /// The settings.
    pub fn get(self) -> Settings
        ensures { result ≡ settings_in self }
    {
        Settings::from_cdw11(self.cdw11)
    }
}

/// A place of submission queues.
#[repr(C)]
#[derive(Clone, Copy, Drop)]
pub struct SqPlace {
    // 0 for no queue, otherwise the number of its class plus 1.
    class: u16,
    cqid: u16,
    region: u8,
    closing: Flag,
}

impl SqPlace {
    /// The place of a queue, or of none.
    pub fn of(queue: Option<SqEntry>) -> SqPlace
        ensures { sq_of_place result ≡ queue }
    {
        match queue {
            Some(queue) => SqPlace {
                class: queue.class.number() + 1,
                cqid: queue.cqid,
                region: queue.region,
                closing: Flag::of(queue.closing),
            },
            None => SqPlace {
                class: 0,
                cqid: 0,
                region: 0,
                closing: Flag::of(false),
            },
        }
    }

    /// The queue that is there.
    pub fn get(self) -> Option<SqEntry>
        ensures { result ≡ sq_of_place self }
    {
        if self.class == 0 {
            return None;
        }
        let class = Class::of_number(self.class - 1)?;
        Some(SqEntry {
            region: self.region,
            cqid: self.cqid,
            class,
            closing: self.closing.is_up(),
        })
    }
}

/// A place of completion queues.
#[repr(C)]
#[derive(Clone, Copy, Drop)]
pub struct CqPlace {
    open: Flag,
    region: u8,
}

impl CqPlace {
    /// The place of an open queue by the number of its region, or of none.
    pub fn of(region: Option<u8>) -> CqPlace
        ensures { cq_of_place result ≡ region }
    {
        CqPlace {
            open: Flag::of(region.is_some()),
            region: region.unwrap_or(0),
        }
    }

    /// The number of the region of the queue that is open there.
    pub fn get(self) -> Option<u8>
        ensures { result ≡ cq_of_place self }
    {
        if self.open.is_up() {
            Some(self.region)
        } else {
            None
        }
    }
}

/// Regions of a kind by their numbers, `MAX_REGIONS` at most.
#[repr(C)]
#[derive(Drop)]
pub struct Regions {
    places: [Region; MAX_REGIONS],
    // How many places from the first on have a region.
    count: u8,
}

impl Regions {
    /// No region.
    pub fn new() -> Regions
        ensures { regions_in result ≡ [] }
    {
        Regions {
            places: [Region::default(); MAX_REGIONS],
            count: 0,
        }
    }

    /// The regions by their numbers.
    pub fn as_slice(&self) -> &[Region]
        ensures regions { result.now ≡ regions_in self.now }
        ensures few { length result.now ≤ MAX_REGIONS }
    {
        let count = usize::from(self.count);
        if count < MAX_REGIONS {
            &self.places[..count]
        } else {
            &self.places
        }
    }

    /// Appends a region.
    pub fn push(&mut self, region: Region)
        requires { length (regions_in self.old) < MAX_REGIONS }
        ensures { regions_in self.new ≡ regions_in self.old ++ region ∷ [] }
    {
        self.places[usize::from(self.count)] = region;
        self.count += 1;
    }

    /// Puts a region in the place of another.
    pub fn put(&mut self, number: usize, region: Region)
        requires { number < length (regions_in self.old) }
        ensures { regions_in self.new ≡ slice_set (regions_in self.old) number region }
    {
        self.places[number] = region;
    }
}
