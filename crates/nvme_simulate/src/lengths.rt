// Whether a run would take longer than the clock goes, by the mean times of its commands.
use crate::loads::{mean_service, part};
use nvme_load::Arrivals;
use nvme_model::{Model, Queue};

// The times of a run are below so many picoseconds.
const CLOCK: u128 = 0x1_0000_0000_0000_0000;

// How many commands of a queue come until the clock ends, by their mean times: those of a closed host follow one another by
// its thinking and their services at the earliest.
fn until_end(queue: &Queue) -> u128 {
    match &queue.arrivals {
        Arrivals::Poisson(mean) => part(CLOCK, 1, u128::from(mean.picoseconds)),
        Arrivals::Regular(gap) => part(CLOCK, 1, u128::from(gap.picoseconds)),
        Arrivals::OnOff(phases) => {
            let cycle = u128::from(phases.on).saturating_add(u128::from(phases.off));
            let on = part(CLOCK, u128::from(phases.on), cycle);
            part(on, 1, u128::from(phases.mean.picoseconds))
        }
        Arrivals::Closed(host) => {
            let turn = u128::from(host.think).saturating_add(mean_service(queue));
            let turns = CLOCK.checked_div(turn).unwrap_or(u128::MAX);
            turns.saturating_mul(u128::from(host.depth))
        }
        Arrivals::Replay(list) => list.requests.len() as u128,
    }
}

// Whether all commands are those of lists: no more come once these have ended.
fn are_lists(model: &Model) -> bool {
    let mut queues = model.queues.iter();
    queues.all(|queue| matches!(&queue.arrivals, Arrivals::Replay(_)))
}

// Whether fewer commands come until the clock ends, by their mean times, than are to come.
pub(crate) fn is_too_long(model: &Model) -> bool {
    if model.end.time.is_some() || are_lists(model) {
        return false;
    }
    let mut sum = 0u128;
    for queue in &model.queues {
        sum = sum.saturating_add(until_end(queue));
    }
    sum < u128::from(model.end.commands)
}
