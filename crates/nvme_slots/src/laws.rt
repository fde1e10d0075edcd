//! Laws of tags, over the definitions alone. Each function does nothing: its contract is the law.
ghost use Rattle.std.specs.Prelude.{◌≡◌, [], Some, None};
ghost use Rattle.nvme_slots.specs.Examples.{taken_thrice};
ghost use Rattle.nvme_ctrl_log.specs.Examples.{told};
ghost use Rattle.nvme_slots.specs.Generations.{TagsAreUsedUp, TagsComeAgain, tag_at, tag_of, number_of, slot_of};

/// A tag is used up once the command of its slot was taken again, and comes again with the 65,536th such command.
pub fn tags_are_used_up()
    ensures used_up { TagsAreUsedUp }
    ensures again { TagsComeAgain }
{}

/// Worked: the tag of slot 7 in generation 3, and one of a slot whose command was taken three times.
pub fn worked_tags()
    ensures number { tag_of 0x00030007 ≡ record { slot = 7; generation = 3 } }
    ensures back { number_of (record { slot = 7; generation = 3 }) ≡ 0x00030007 }
    ensures told { tag_at taken_thrice 0 ≡ record { slot = 0; generation = 3 } }
    ensures current { slot_of taken_thrice (record { slot = 0; generation = 3 }) ≡ Some 0 }
    ensures used_up { slot_of taken_thrice (record { slot = 0; generation = 2 }) ≡ None }
    ensures later { slot_of taken_thrice (record { slot = 0; generation = 4 }) ≡ None }
{}
