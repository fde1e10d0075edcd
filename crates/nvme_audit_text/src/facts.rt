// What stood before an event.
use nvme_audit::{Command, Cq, Event, Judge, Sq};

/// What stood before an event: the facts of its queues and of its command.
#[derive(Clone, Copy)]
pub struct Facts {
    /// Of a completion the queue that it names.
    pub sq: Option<Sq>,
    /// The completion queue of a head and of a completion.
    pub cq: Option<Cq>,
    /// The outstanding command of the name that a fetch or a completion has.
    pub command: Option<Command>,
}

impl Facts {
    ghost use Rattle.std.specs.Prelude.{◌≡◌};
    ghost use Rattle.nvme_audit.specs.declared.facts.Start.{Start};
    ghost use Rattle.nvme_audit.specs.Lives.{Past};
    ghost use Rattle.nvme_audit.specs.Standing.{StandsAt};
    ghost use Rattle.nvme_audit_text.specs.Audits.{facts_of};

    /// What a judge keeps before an event.
    pub(crate) fn of(judge: &Judge, event: &Event) -> Facts
        ensures { (start : Start) (past : Past) → StandsAt start past judge.now → result ≡ facts_of start past event.now }
    {
        let none = Facts {
            sq: None,
            cq: None,
            command: None,
        };
        match *event {
            Event::Tail { sq, .. } => Facts {
                sq: Some(judge.sq(sq)),
                ..none
            },
            Event::Head { cq, .. } => Facts {
                cq: Some(judge.cq(cq)),
                ..none
            },
            Event::Fetch { sq, cid, .. } => Facts {
                sq: Some(judge.sq(sq)),
                command: judge.command(sq, cid),
                ..none
            },
            Event::Post { cq, completion, .. } => Facts {
                sq: Some(judge.sq(completion.sq)),
                cq: Some(judge.cq(cq)),
                command: judge.command(completion.sq, completion.cid),
            },
        }
    }
}
