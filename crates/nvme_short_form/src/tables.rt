// The keys that each kind of table may have.
use crate::key::Key;

/// The keys of the file's own table.
pub const FILE_KEYS: [Key; 10] = [
    Key::Version,
    Key::Mechanism,
    Key::Burst,
    Key::Weights,
    Key::Namespaces,
    Key::Patience,
    Key::AdminDepth,
    Key::AdminCqDepth,
    Key::Queue,
    Key::Admin,
];

/// The keys of `weights`.
pub const WEIGHT_KEYS: [Key; 3] = [Key::High, Key::Medium, Key::Low];

/// The keys of a queue.
pub const QUEUE_KEYS: [Key; 5] = [Key::Class, Key::Depth, Key::Cq, Key::CqDepth, Key::Script];

/// The keys of a queue that shares another's completion queue.
pub const SHARED_KEYS: [Key; 4] = [Key::Class, Key::Depth, Key::Cq, Key::Script];

/// The keys of a Read or a Write.
pub const ACCESS_KEYS: [Key; 6] = [
    Key::Op,
    Key::Nsid,
    Key::Slba,
    Key::Blocks,
    Key::Count,
    Key::Spread,
];

/// The keys of a Flush.
pub const FLUSH_KEYS: [Key; 3] = [Key::Op, Key::Nsid, Key::Count];

/// The keys of an item of an opcode.
pub const RAW_KEYS: [Key; 8] = [
    Key::Op,
    Key::Flags,
    Key::Nsid,
    Key::Prp1,
    Key::Cdw10,
    Key::Cdw11,
    Key::Cdw12,
    Key::Count,
];

/// The keys of an item that repeats a script.
pub const REPEAT_KEYS: [Key; 2] = [Key::Repeat, Key::Script];

/// The keys of `create` and `delete`.
pub const QUEUE_OP_KEYS: [Key; 2] = [Key::Op, Key::Number];

/// The keys of `abort`.
pub const ABORT_KEYS: [Key; 3] = [Key::Op, Key::Target, Key::Cid];

/// The keys of `set-arbitration`.
pub const SET_KEYS: [Key; 3] = [Key::Op, Key::Burst, Key::Weights];

/// The keys of `get-features`.
pub const GET_KEYS: [Key; 2] = [Key::Op, Key::Feature];
