// What the rules read at an event, and which of them ask something of it.
ghost use Rattle.std.specs.Prelude.{◌≡◌, OnOk, IfOk, map, ◌+◌};
ghost use Rattle.nvme_audit.specs.Laws.{one_if};
ghost use Rattle.nvme_audit.specs.Coverage.{is_counted, is_named, is_owed, says_aborted_one, has_statuses, is_of_a_command, create_asks, delete_asks, sets_numbers, fetch_asks, post_asks, scene_asks, command_of, counted};

use crate::answers::{answered, is_cq_within, is_specific, is_sq_within, mark_in, told_of};
use crate::event::Completion;
use crate::facts::{Admin, Command, Cq, Sq, Tells};
use crate::judge::{AuditError, next};
use crate::verdict::Rule;
use nvme_entry::{AdminCommand, Status};

// The feature identifier of Number of Queues.
const NUMBER_OF_QUEUES: u8 = 0x07;

/// What the rules read at a fetch.
#[derive(Clone, Copy)]
pub struct FetchScene {
    pub tells: Tells,
    /// The submission queue.
    pub sq: Sq,
    pub slot: Option<u16>,
}

/// What the rules read at a completion.
#[derive(Clone, Copy)]
pub struct PostScene {
    pub tells: Tells,
    /// The completion queue.
    pub cq: Cq,
    /// The completion queue that the answered command names.
    pub own_cq: Cq,
    /// The submission queue.
    pub sq: Sq,
    /// The submission queue that the answered command names.
    pub own_sq: Sq,
    pub admin: Admin,
    /// The outstanding command of the name.
    pub command: Option<Command>,
    pub slot: Option<u16>,
    pub completion: Completion,
}

/// What the rules for the controller read at an event.
#[derive(Clone, Copy)]
pub enum Scene {
    /// A doorbell, which is the host's, or an event that is passed over.
    Unjudged,
    Fetched(FetchScene),
    Posted(PostScene),
}

/// How often a rule asked something.
#[derive(Clone, Copy, Debug, PartialEq, Eq)]
pub struct Count {
    pub rule: Rule,
    pub times: u64,
}

// Whether a status of a Create is one that something is asked of.
fn create_asks(cq: &Cq, admin: &Admin, mark: u64, status: Status, command: AdminCommand) -> bool
    ensures { result ≡ create_asks cq.now admin.now mark status command }
{
    let is_success = status == Status::SUCCESS;
    let numbers = admin.numbers;
    match command {
        AdminCommand::CreateSq { qid, cqid, .. } => {
            is_success
                || (is_specific(status, 0x00) && cqid != 0 && cq.asked <= mark)
                || (is_specific(status, 0x01)
                    && is_sq_within(numbers, qid)
                    && is_cq_within(numbers, cqid))
        }
        AdminCommand::CreateCq { qid, .. } => {
            is_success || (is_specific(status, 0x01) && is_cq_within(numbers, qid))
        }
        _ => false,
    }
}

// Whether one of a Delete is.
fn delete_asks(admin: &Admin, mark: u64, status: Status, command: AdminCommand) -> bool
    ensures { result ≡ delete_asks admin.now mark status command }
{
    let is_success = status == Status::SUCCESS;
    match command {
        AdminCommand::DeleteSq { qid } => is_success || (is_specific(status, 0x01) && qid != 0),
        AdminCommand::DeleteCq { qid } => {
            is_success
                || (is_specific(status, 0x01) && qid != 0)
                || (is_specific(status, 0x0c) && qid != 0 && admin.asked <= mark)
        }
        _ => false,
    }
}

// Whether it is known which command specific statuses a command has.
fn has_statuses(command: AdminCommand) -> bool
    ensures { result ≡ has_statuses command }
{
    !matches!(
        command,
        AdminCommand::SetFeatures { .. } | AdminCommand::GetFeatures { .. } | AdminCommand::Other
    )
}

// Whether a command sets the number of queues.
fn sets_numbers(command: AdminCommand) -> bool
    ensures { result ≡ sets_numbers command }
{
    matches!(
        command,
        AdminCommand::SetFeatures {
            fid: NUMBER_OF_QUEUES,
            ..
        }
    )
}

impl FetchScene {
    // Whether a rule asks something of the fetch.
    fn asks(&self, rule: Rule) -> bool
        ensures { result ≡ fetch_asks self.now rule }
    {
        let is_open = !self.sq.excused && self.sq.ring.is_some();
        match rule {
            Rule::FetchClosed => !self.sq.excused,
            Rule::FetchBeyondTail => is_open && self.tells.tails,
            Rule::FetchSlot => is_open && self.slot.is_some(),
            _ => false,
        }
    }
}

impl PostScene {
    // Whether name and status are judged.
    fn is_named(&self) -> bool
        ensures { result ≡ is_named self.now }
    {
        let is_late = !self.tells.posts && self.sq.deleted;
        !self.cq.excused && !self.sq.excused && !is_late
    }

    // The command that is answered.
    fn command(&self) -> AdminCommand
        ensures { result ≡ command_of self.now }
    {
        answered(self.command, &self.completion)
    }

    // Whether an Abort says of the command that it was aborted.
    fn is_owed(&self) -> bool
        ensures { result ≡ is_owed self.now.command }
    {
        self.command.is_some_and(|command| command.owed)
    }

    // Whether the completion of an Abort says that it aborted a command of a queue that is judged.
    fn says_aborted_one(&self) -> bool
        ensures { result ≡ says_aborted_one self.now }
    {
        let is_late = !self.tells.posts && self.own_sq.deleted;
        matches!(self.command(), AdminCommand::Abort { .. })
            && told_of(self.own_sq.stirred, mark_in(self.command), &self.completion)
            && !self.own_sq.excused
            && !is_late
    }

    // Whether a rule asks something of the completion.
    fn asks(&self, rule: Rule) -> bool
        ensures { result ≡ post_asks self.now rule }
    {
        let (completion, status) = (&self.completion, self.completion.status);
        let mark = mark_in(self.command);
        let is_counted = !self.cq.excused && self.cq.qsize.is_some() && !self.cq.early;
        let has_ring = self.sq.ring.is_some();
        match rule {
            Rule::FetchClosed | Rule::FetchBeyondTail | Rule::FetchSlot => false,
            Rule::PostClosed => !self.cq.excused,
            Rule::Slot => is_counted && self.slot.is_some(),
            Rule::Phase => is_counted && completion.phase.is_some(),
            Rule::CqFull => is_counted && self.tells.heads,
            _ if !self.is_named() => false,
            Rule::CqWrong => has_ring,
            Rule::Life => has_ring || !self.sq.deleted,
            Rule::Sqhd => has_ring && self.command.is_some() && completion.sqhd.is_some(),
            Rule::SqdelUnasked => status == Status::ABORTED_BY_DELETION,
            Rule::AbortUnasked => self.command.is_some() && status == Status::ABORT_REQUESTED,
            Rule::AbortUntrue => self.is_owed() || self.says_aborted_one(),
            Rule::StatusForeign => {
                has_statuses(self.command()) && status.sct() == 1 && status.sc() < 0xc0
            }
            Rule::StatusCreate => {
                !self.admin.met
                    && create_asks(&self.own_cq, &self.admin, mark, status, self.command())
            }
            Rule::StatusDelete => {
                !self.admin.met && delete_asks(&self.admin, mark, status, self.command())
            }
            Rule::Features => sets_numbers(self.command()) && status == Status::SUCCESS,
        }
    }
}

impl Scene {
    /// Whether a rule asks something of the event: it could break the rule, or it does.
    pub fn asks(&self, rule: Rule) -> bool
        ensures { result ≡ scene_asks self.now rule }
    {
        match self {
            Scene::Unjudged => false,
            Scene::Fetched(scene) => scene.asks(rule),
            Scene::Posted(scene) => scene.asks(rule),
        }
    }
}

// A count that one more event raises, where a rule asks something of it.
fn next_if(asks: bool, count: u64) -> Result<u64, AuditError>
    ensures { IfOk result (λ n. n ≡ count + one_if asks) }
{
    if asks { next(count) } else { Ok(count) }
}

/// Counts an event with each rule that asks something of it.
pub fn count_asked(counts: &mut [Count], scene: &Scene) -> Result<(), AuditError>
    ensures { OnOk result (counts.new ≡ map (counted scene.now) counts.old) }
{
    for count in counts.iter_mut() {
        count.times = next_if(scene.asks(count.rule), count.times)?;
    }
    Ok(())
}
