// The tags of the commands that the device has. (profile)
//
// Decided: a tag is a slot and its generation, since devices complete twice or late, and a slot alone would let that
// end another command. A making keeps the generations in the slots, so that a reset doesn't begin again. It takes any,
// so slots needn't be cleared.
ghost use Rattle.std.specs.Prelude.{◌≡◌};
ghost use Rattle.nvme_slots.specs.Generations.{tag_at, slot_of, number_of, tag_of};

use crate::slot::{Slot, slot_at};

/// The tag of a command that the device took: the slot of its pool, and the slot's generation. Each command that the device
/// takes gives its slot the next of 65,536 generations, so a tag that was kept too long names no other command until its
/// slot was taken as often again.
#[derive(Clone, Copy, Debug, PartialEq, Eq)]
pub struct Tag {
    pub slot: u16,
    pub generation: u16,
}

impl Tag {
    /// The tag of the command in a slot.
    pub fn at(slots: &[Slot], slot: u16) -> Tag
        ensures { result ≡ tag_at slots.now slot }
    {
        Tag {
            slot,
            generation: slot_at(slots, slot).generation,
        }
    }

    /// Its slot. None where the tag is used up: the slot has another generation.
    pub fn slot_in(self, slots: &[Slot]) -> Option<u16>
        ensures { result ≡ slot_of slots.now self }
    {
        if slot_at(slots, self.slot).generation == self.generation {
            Some(self.slot)
        } else {
            None
        }
    }

    /// The tag as one number: the slot in bits 15:0, and the generation in bits 31:16.
    pub fn number(self) -> u32
        ensures value { result ≡ number_of self }
        ensures back { tag_of result ≡ self }
    {
        u32::from(self.slot) + 0x1_0000 * u32::from(self.generation)
    }

    /// The tag of such a number.
    pub fn of_number(number: u32) -> Tag
        ensures { result ≡ tag_of number }
    {
        Tag {
            slot: (number % 0x1_0000) as u16,
            generation: (number / 0x1_0000) as u16,
        }
    }
}
