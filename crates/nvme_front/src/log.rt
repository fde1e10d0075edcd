// The log, the only list that grows in a turn.
ghost use Rattle.std.specs.Prelude.{◌≡◌, ◌⊎◌, ◌+◌, ◌<◌, ◌≤◌, [], ◌∷◌, ◌++◌, length, OnOk, IfErr, vec_capacity};
ghost use Rattle.nvme_front.specs.declared.front.FrontError.TheVariants.{NoMemory, LogFull};

use crate::front::FrontError;
use nvme_log::Event;

/// Makes room for the given number of further events. `LogFull` where they exceed the limit, otherwise `NoMemory` where
/// memory was refused. The events stay as they were.
pub fn make_room(log: &mut Vec<Event>, limit: u32, events: u32) -> Result<(), FrontError>
    ensures same { log.new.items ≡ log.old.items }
    ensures within { OnOk result (length log.old.items + events ≤ limit) }
    ensures room { OnOk result (length log.old.items + events ≤ vec_capacity log.new) }
    ensures full { result ≡ Err LogFull → limit < length log.old.items + events }
    ensures no_stray { IfErr result (λ e. (e ≡ LogFull) ⊎ (e ≡ NoMemory)) }
{
    if log.len() + events as usize > limit as usize {
        return Err(FrontError::LogFull);
    }
    if log.reserve(events as usize).is_err() {
        return Err(FrontError::NoMemory);
    }
    Ok(())
}

/// Appends an event, for which room was made.
pub fn note(log: &mut Vec<Event>, event: Event)
    requires { length log.old.items < vec_capacity log.old }
    ensures items { log.new.items ≡ log.old.items ++ event ∷ [] }
    ensures room { vec_capacity log.old ≤ vec_capacity log.new }
{
    log.push_reserved(event);
}
