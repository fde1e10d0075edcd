// The version of the library, and the sizes of its states.
//
// Decided: the header isn't made from `nvme_version`, so that it serves from the source alone; `tests/capi`,
// `tests/words` and `tests/files` compare them.
//
// Decided: a making call can't see its caller's header, so `nvmearb_is_of_this_header` compares version and sizes; the
// makers in Rust and Python do so themselves.
ghost use Rattle.std.specs.Prelude.{◌≡◌, ◌+◌, ◌*◌, ◌^◌, ◌<◌};
ghost use Rattle.nvme_version.specs.declared.TheConstants.{MAJOR, MINOR, PATCH};

use nvme_version::{MAJOR, MINOR, PATCH};

/// The version without its patch number. Whenever a struct or a call of the header changes, it does: so the marks of
/// states have it.
pub const INTERFACE: u64 = ((MAJOR as u64) << 16) + ((MINOR as u64) << 8);

// The numbers of the states in the header.
const ARBITER: u32 = 1;

const BOARD: u32 = 2;

const TABLE: u32 = 3;

const CTRL: u32 = 4;

const SLOT: u32 = 5;

/// The bytes of the states in the header.
pub const ARBITER_BYTES: u32 = 40;

/// Those of a board.
pub const BOARD_BYTES: u32 = 344;

/// Those of a queue table.
pub const TABLE_BYTES: u32 = 2768;

/// Those of a controller.
pub const CTRL_BYTES: u32 = 6016;

/// Those of a slot of a controller.
pub const SLOT_BYTES: u32 = 88;

/// The version of the library in one number, as `NVMEARB_VERSION` is that of the header: the major number from bit 16
/// up, the minor number in bits 8 to 15, and the patch number in bits 0 to 7.
#[unsafe(no_mangle)]
pub extern "C" fn nvmearb_version() -> u32
    ensures { result ≡ MAJOR * 2 ^ 16 + MINOR * 2 ^ 8 + PATCH }
{
    (MAJOR << 16) + (MINOR << 8) + PATCH
}

/// The bytes of a state, by the state's number in the header: 0 where there is no state of this number.
#[unsafe(no_mangle)]
pub extern "C" fn nvmearb_size(state: u32) -> u32
    ensures arbiter { state ≡ ARBITER → result ≡ ARBITER_BYTES }
    ensures board { state ≡ BOARD → result ≡ BOARD_BYTES }
    ensures table { state ≡ TABLE → result ≡ TABLE_BYTES }
    ensures ctrl { state ≡ CTRL → result ≡ CTRL_BYTES }
    ensures slot { state ≡ SLOT → result ≡ SLOT_BYTES }
    ensures other { SLOT < state → result ≡ 0 }
{
    match state {
        ARBITER => ARBITER_BYTES,
        BOARD => BOARD_BYTES,
        TABLE => TABLE_BYTES,
        CTRL => CTRL_BYTES,
        SLOT => SLOT_BYTES,
        _ => 0,
    }
}
