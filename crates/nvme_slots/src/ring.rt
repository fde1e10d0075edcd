// The ring of a queue, by its slots.
ghost use Rattle.std.specs.Prelude.{◌≡◌, ◌<◌, ◌^◌};
ghost use Rattle.nvme_ctrl_log.specs.Doorbells.{gap};
ghost use Rattle.nvme_slots.specs.Rings.{next_slot};

/// The ring of a queue: its slots, the one that is read next (head) and the one that is written next (tail). It counts
/// nothing, so it never runs out. Contracts see the numbers of entries that were read and written so far.
#[repr(C)]
#[derive(Clone, Copy, Drop)]
pub struct Ring {
    pub slots: u16,
    pub head: u16,
    pub tail: u16,
}

// The slot after one.
fn next_slot(slots: u16, slot: u16) -> u16
    ensures { result ≡ next_slot slots slot }
{
    if u32::from(slot) + 1 < u32::from(slots) {
        slot + 1
    } else {
        0
    }
}

// How many slots it is from one on to another.
fn gap(slots: u16, from: u16, to: u16) -> u32
    ensures value { result ≡ gap slots from to }
    ensures few { result < 2 ^ 17 }
{
    if from <= to {
        u32::from(to - from)
    } else {
        (u32::from(to) + u32::from(slots)).saturating_sub(u32::from(from))
    }
}

impl Ring {
    ghost use Rattle.std.specs.Prelude.{◌≡◌, ℕ, ◌+◌, ◌<◌, ◌≤◌, ◌%◌, ◌^◌, nat_lt, nat_le, ◌&&◌, true, false};
    ghost use Rattle.nvme_ctrl_log.specs.Doorbells.{gap};
    ghost use Rattle.nvme_slots.specs.Rings.{HasCounts, first_ring};

    /// An empty ring, of which nothing was read or written.
    pub fn new(slots: u16) -> Ring
        requires { 0 < slots }
        ensures counts { HasCounts result 0 0 }
        ensures value { result ≡ first_ring slots }
    {
        Ring {
            slots,
            head: 0,
            tail: 0,
        }
    }

    /// How many entries were written and not read.
    pub fn filled(&self) -> u32
        ensures counts { (read written : ℕ) → HasCounts self.now read written → result + read ≡ written }
        ensures value { result ≡ gap self.now.slots self.now.head self.now.tail }
        ensures few { result < 2 ^ 17 }
    {
        gap(self.slots, self.head, self.tail)
    }

    /// No slot is free to be written: a full ring has one entry less than it has slots. (Base Specification, Full Queue)
    pub fn is_full(&self) -> bool
        ensures full { result ≡ true → self.now.slots ≤ gap self.now.slots self.now.head self.now.tail + 1 }
        ensures room { result ≡ false → gap self.now.slots self.now.head self.now.tail + 1 < self.now.slots }
    {
        self.filled() + 1 >= u32::from(self.slots)
    }

    /// The entry at the head was read.
    pub fn read(&mut self)
        ensures counts { (read written : ℕ) → HasCounts self.old read written → read < written → HasCounts self.new (read + 1) written }
        ensures tail { self.new.tail ≡ self.old.tail }
        ensures slots { self.new.slots ≡ self.old.slots }
    {
        self.head = next_slot(self.slots, self.head);
    }

    /// The slot at the tail was written.
    pub fn write(&mut self)
        ensures counts { (read written : ℕ) → HasCounts self.old read written → written + 1 < read + self.old.slots → HasCounts self.new read (written + 1) }
        ensures head { self.new.head ≡ self.old.head }
        ensures slots { self.new.slots ≡ self.old.slots }
    {
        self.tail = next_slot(self.slots, self.tail);
    }

    /// A tail doorbell: all slots up to this one were written. False where it is no slot, or where the ring hasn't as
    /// many free. Nothing changes then. (PCIe Transport Specification, Submission Queue y Tail Doorbell)
    pub fn write_to(&mut self, slot: u16) -> bool
        ensures counts { (read written : ℕ) → HasCounts self.old read written → result ≡ true → HasCounts self.new read (written + gap self.old.slots (written % self.old.slots) slot) }
        ensures answer { (read written : ℕ) → HasCounts self.old read written → result ≡ (nat_lt slot self.old.slots && nat_lt (written + gap self.old.slots (written % self.old.slots) slot) (read + self.old.slots)) }
        ensures slot { result ≡ true → slot < self.old.slots }
        ensures refused { result ≡ false → self.new ≡ self.old }
        ensures head { self.new.head ≡ self.old.head }
        ensures slots { self.new.slots ≡ self.old.slots }
    {
        if slot >= self.slots {
            return false;
        }
        let more = gap(self.slots, self.tail, slot);
        if self.filled() + more >= u32::from(self.slots) {
            return false;
        }
        self.tail = slot;
        true
    }

    /// A head doorbell: all slots up to this one were read. False where it is no slot, or where not as many are filled.
    /// Nothing changes then. (PCIe Transport Specification, Completion Queue y Head Doorbell)
    pub fn read_to(&mut self, slot: u16) -> bool
        ensures counts { (read written : ℕ) → HasCounts self.old read written → result ≡ true → HasCounts self.new (read + gap self.old.slots (read % self.old.slots) slot) written }
        ensures answer { (read written : ℕ) → HasCounts self.old read written → result ≡ (nat_lt slot self.old.slots && nat_le (read + gap self.old.slots (read % self.old.slots) slot) written) }
        ensures slot { result ≡ true → slot < self.old.slots }
        ensures refused { result ≡ false → self.new ≡ self.old }
        ensures tail { self.new.tail ≡ self.old.tail }
        ensures slots { self.new.slots ≡ self.old.slots }
    {
        if slot >= self.slots {
            return false;
        }
        if gap(self.slots, self.head, slot) > self.filled() {
            return false;
        }
        self.head = slot;
        true
    }
}
