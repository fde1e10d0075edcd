// Whether a controller of C was written into.
ghost use Rattle.std.specs.Prelude.{◌≡◌, ◌⊎◌, ◌↔◌, IsTrue};
ghost use Rattle.nvme_ctrl.specs.Ranges.{is_in_range};
ghost use Rattle.nvme_capi.specs.Controllers.{is_ctrl, has_slots, IsKept};

use crate::ctrl::state::{CtrlState, has_slots, is_ctrl};
use crate::results::{BAD_STATE, OK};
use nvme_ctrl::Slot;

/// Tests whether the numbers of a controller and its slots are within their ranges, as those that these calls kept are.
/// It asks nothing of its caller, and changes nothing. BAD_STATE where they aren't, no call made the state, or these
/// aren't as many slots as it was made with.
#[unsafe(no_mangle)]
pub extern "C" fn nvmearb_ctrl_verify(state: &CtrlState, slots: &[Slot]) -> u32
    ensures answer { (result ≡ OK) ⊎ (result ≡ BAD_STATE) }
    ensures in_range { (result ≡ OK) ↔ (IsTrue (is_ctrl state.now) × (IsTrue (has_slots state.now slots.now) × IsTrue (is_in_range state.now.ctrl slots.now))) }
    ensures kept { IsKept state.now slots.now → IsTrue (is_ctrl state.now) → IsTrue (has_slots state.now slots.now) → result ≡ OK }
{
    if is_ctrl(state) && has_slots(state, slots) && state.ctrl.is_in_range(slots) {
        OK
    } else {
        BAD_STATE
    }
}
