// The results of exports.

/// The call was done.
pub const OK: u32 = 0;

/// There is nothing to answer: no command waits, or there is no such queue. Nothing changed.
pub const NOTHING: u32 = 1;

/// The call doesn't accept an argument. Nothing changed.
pub const BAD_ARGUMENT: u32 = 2;

/// No call made this state. Nothing changed.
pub const BAD_STATE: u32 = 3;

/// The address is that of another region. Nothing changed.
pub const USED: u32 = 4;

/// There is no room for another region of this kind. Nothing changed.
pub const TOO_MANY: u32 = 5;

/// The number of slots is out of range for a region, 2 to 4,096. Nothing changed.
pub const BAD_SIZE: u32 = 6;

/// Nothing can be picked yet: picked commands are to be taken.
pub const BUSY: u32 = 7;

/// Nothing can be picked yet: the device has room for no command.
pub const NOROOM: u32 = 8;

/// The entry of another slot of the ring is to be fetched next. Nothing changed.
pub const OTHER_SLOT: u32 = 9;
