// Takes the commands of a pick, and adds their jobs.
ghost use Rattle.std.specs.Prelude.{◌≡◌, ℕ, ◌+◌, ◌^◌, ◌<◌, ◌≤◌, Bool, List, length, map};
ghost use Rattle.nvme_log.specs.Rules.{FrontRules};
ghost use Rattle.nvme_log.specs.Dispatches.{place_at};
ghost use Rattle.nvme_ctrl_log.specs.Notes.{Notes};
ghost use Rattle.nvme_engine.specs.Standing.{StandsBut, IsEngine};
ghost use Rattle.nvme_front.specs.inside.Dispatching.{HasDispatched};

use nvme_engine::Engine;
use nvme_jobs::Jobs;
use nvme_log::Place;

/// Takes the `n` commands of a pick of the queue on this region. Their jobs are then to be handed over to the workers.
pub fn dispatch(engine: &mut Engine, jobs: &mut Jobs, region: u8, n: u16)
    requires engine { IsEngine engine.old }
    requires room { length jobs.old.hands.unhanded + n ≤ jobs.old.room }
    requires few { jobs.old.tickets + n < 2 ^ 32 }
    ensures engine { IsEngine engine.new }
    ensures dispatched { (rules : FrontRules) (late : Bool) (notes : Notes) (indexes : List ℕ) → StandsBut rules late notes (map (place_at region) indexes) engine.old → length indexes ≡ n → HasDispatched rules late notes region indexes jobs.old jobs.new engine.new }
{
    for _ in 0..n {
        if let Some(taking) = engine.take() {
            let place = Place {
                region,
                index: taking.index,
            };
            jobs.add(taking.tag, place, taking.entry);
        }
    }
}
