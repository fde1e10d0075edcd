// The end of a deletion. (Base Specification, Delete I/O Submission Queue)
use crate::front::FrontError;
use crate::log::{make_room, note};
use crate::state::FrontState;
use nvme_log::Event;

impl FrontState {
    ghost use Rattle.std.specs.Prelude.{◌≡◌, ◌≢◌, ℕ, ◌+◌, ◌<◌, [], ◌∷◌, ◌++◌, length, Option, Some, None, true, false, ◌⊎◌, IfErr, OnErr};
    ghost use Rattle.nvme_log.specs.declared.event.Event.TheVariants.{ClosedSq};
    ghost use Rattle.nvme_log.specs.Queues.{Deletion, pending};
    ghost use Rattle.nvme_log.specs.Histories.{picks_in};
    ghost use Rattle.nvme_front.specs.inside.State.{past_of};
    ghost use Rattle.nvme_front.specs.inside.Room.{IsConsistent};
    ghost use Rattle.nvme_front.specs.inside.Goes.{Goes, IsSame, HasAdmin};
    ghost use Rattle.nvme_front.specs.View.{HasUnposted};
    ghost use Rattle.nvme_front.specs.inside.Turn.{Finishes};
    ghost use Rattle.nvme_front.specs.declared.front.FrontError.TheVariants.{NoMemory, LogFull};

    /// Finishes the pending deletion, if all places of its queue are posted. The completion of the Delete is then ready.
    pub fn finish(&mut self) -> Result<bool, FrontError>
        requires consistent { IsConsistent self.old }
        requires admin { HasAdmin self.old }
        ensures consistent { IsConsistent self.new }
        ensures goes { Goes self.old self.new }
        ensures jobs { self.new.jobs ≡ self.old.jobs }
        ensures sqs { self.new.sqs.items ≡ self.old.sqs.items }
        ensures cqs { self.new.cqs.items ≡ self.old.cqs.items }
        ensures closed { result ≡ Ok true → Finishes self.old self.new }
        ensures unclosed { OnErr result (self.new.log.items ≡ self.old.log.items) }
        ensures picks { picks_in self.new.log.items ≡ picks_in self.old.log.items }
        ensures more { result ≡ Ok true → length self.new.log.items ≡ length self.old.log.items + 1 }
        ensures still { result ≡ Ok false → IsSame self.old self.new × ((d : Deletion) → pending (past_of self.old) ≡ Some d → HasUnposted (past_of self.old) d.region) }
        ensures full { result ≡ Err LogFull → self.new.config.max_events < length self.new.log.items + 1 }
        ensures no_stray { IfErr result (λ e. (e ≡ LogFull) ⊎ (e ≡ NoMemory)) }
    {
        let Some(deletion) = self.engine.finishing() else {
            return Ok(false);
        };
        make_room(&mut self.log, self.config.max_events, 1)?;
        self.engine.finish();
        note(
            &mut self.log,
            Event::ClosedSq {
                qid: deletion.qid,
                region: deletion.region,
            },
        );
        Ok(true)
    }
}
