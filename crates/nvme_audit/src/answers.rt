// The rules for the status of a completion, over the facts of the queues, of the admin commands and of the command.
ghost use Rattle.std.specs.Prelude.{◌≡◌};
ghost use Rattle.nvme_audit.specs.Turns.{asking, sq_named, cq_named, cid_named, creates, numbers_by};
ghost use Rattle.nvme_audit.specs.declared.verdict.Verdict.TheVariants.{Broken};
ghost use Rattle.nvme_audit.specs.Aborts.{told_of};
ghost use Rattle.nvme_audit.specs.Answers.{has_specific, is_foreign, is_specific, is_within, is_sq_within, is_cq_within, is_untrue_of_create_sq, is_untrue_of_create_cq, is_untrue_of_delete_sq, is_untrue_of_delete_cq, are_numbers, is_untrue_of_features, broken_if, status_rules, own_rules, is_undoomed, is_unnamed, is_not_as_told, is_untrue_abort, answered_in, mark_in, answer_verdict};

use crate::event::Completion;
use crate::facts::{Admin, Command, Cq, Sq, Tells};
use crate::verdict::{Rule, Verdict};
use nvme_entry::{AdminCommand, Status};

// The feature identifier of Number of Queues.
const NUMBER_OF_QUEUES: u8 = 0x07;

/// The admin command that is fetched from a queue: an entry of another than the admin queue is none.
pub fn asking(sq: u16, command: AdminCommand) -> AdminCommand
    ensures { result ≡ asking sq command }
{
    if sq == 0 {
        command
    } else {
        AdminCommand::Other
    }
}

/// The admin command that a completion answers.
pub fn answered(command: Option<Command>, completion: &Completion) -> AdminCommand
    ensures { result ≡ answered_in command completion.now }
{
    match command {
        Some(command) if completion.sq == 0 => command.command,
        _ => AdminCommand::Other,
    }
}

/// Whether a command creates an I/O queue.
pub fn creates(command: AdminCommand) -> bool
    ensures { result ≡ creates command }
{
    matches!(
        command,
        AdminCommand::CreateSq { .. } | AdminCommand::CreateCq { .. }
    )
}

/// What the first Set Features of Number of Queues was answered, after a command that succeeds with this Dword 0.
pub fn numbers_by(command: AdminCommand, dw0: Option<u32>, before: Option<u32>) -> Option<u32>
    ensures { result ≡ numbers_by command dw0 before }
{
    match command {
        AdminCommand::SetFeatures {
            fid: NUMBER_OF_QUEUES,
            ..
        } => before.or(dw0),
        _ => before,
    }
}

// Whether a command specific status is one of the command.
fn has_specific(command: AdminCommand, sc: u8) -> bool
    ensures { result ≡ has_specific command sc }
{
    match command {
        AdminCommand::DeleteSq { .. } => sc == 0x01,
        AdminCommand::CreateSq { .. } => sc <= 0x02,
        AdminCommand::DeleteCq { .. } => sc == 0x01 || sc == 0x0c,
        AdminCommand::CreateCq { .. } => sc == 0x01 || sc == 0x02 || sc == 0x08,
        AdminCommand::Abort { .. } => sc == 0x03,
        _ => true,
    }
}

fn is_foreign(command: AdminCommand, status: Status) -> bool
    ensures { result ≡ is_foreign command status }
{
    status.sct() == 1 && status.sc() < 0xc0 && !has_specific(command, status.sc())
}

/// Whether a status is the command specific one with this code.
pub fn is_specific(status: Status, sc: u8) -> bool
    ensures { result ≡ is_specific status sc }
{
    status.sct() == 1 && status.sc() == sc
}

fn is_within(last: u32, qid: u16) -> bool
    ensures { result ≡ is_within last qid }
{
    0 < qid && u64::from(qid) <= u64::from(last) + 1
}

/// Whether an identifier of a submission queue is within the number that was told.
pub fn is_sq_within(numbers: Option<u32>, qid: u16) -> bool
    ensures { result ≡ is_sq_within numbers qid }
{
    match numbers {
        Some(numbers) => is_within(numbers % 0x1_0000, qid),
        None => false,
    }
}

/// Whether one of a completion queue is.
pub fn is_cq_within(numbers: Option<u32>, qid: u16) -> bool
    ensures { result ≡ is_cq_within numbers qid }
{
    match numbers {
        Some(numbers) => is_within(numbers / 0x1_0000, qid),
        None => false,
    }
}

/// The submission queue that a command names.
pub fn sq_named(command: AdminCommand) -> u16
    ensures { result ≡ sq_named command }
{
    match command {
        AdminCommand::DeleteSq { qid } | AdminCommand::CreateSq { qid, .. } => qid,
        AdminCommand::Abort { sqid, .. } => sqid,
        _ => 0,
    }
}

/// The identifier of the command that an Abort names.
pub fn cid_named(command: AdminCommand) -> u16
    ensures { result ≡ cid_named command }
{
    match command {
        AdminCommand::Abort { cid, .. } => cid,
        _ => 0,
    }
}

/// The completion queue that a command names.
pub fn cq_named(command: AdminCommand) -> u16
    ensures { result ≡ cq_named command }
{
    match command {
        AdminCommand::CreateSq { cqid, .. } => cqid,
        AdminCommand::DeleteCq { qid } | AdminCommand::CreateCq { qid, .. } => qid,
        _ => 0,
    }
}

fn is_untrue_of_create_sq(
    sq: &Sq,
    cq: &Cq,
    numbers: Option<u32>,
    mark: u64,
    qid: u16,
    qsize: u16,
    cqid: u16,
    status: Status,
) -> bool
    ensures { result ≡ is_untrue_of_create_sq sq.now cq.now numbers mark qid qsize cqid status }
{
    let settled = cq.asked <= mark;
    if status == Status::SUCCESS {
        sq.ring.is_some() || qsize == 0 || (settled && cq.qsize.is_none())
    } else if is_specific(status, 0x00) {
        cqid != 0 && settled && cq.qsize.is_some()
    } else {
        is_specific(status, 0x01)
            && is_sq_within(numbers, qid)
            && sq.ring.is_none()
            && is_cq_within(numbers, cqid)
    }
}

fn is_untrue_of_create_cq(
    cq: &Cq,
    numbers: Option<u32>,
    qid: u16,
    qsize: u16,
    status: Status,
) -> bool
    ensures { result ≡ is_untrue_of_create_cq cq.now numbers qid qsize status }
{
    if status == Status::SUCCESS {
        cq.qsize.is_some() || qsize == 0
    } else {
        is_specific(status, 0x01) && is_cq_within(numbers, qid) && cq.qsize.is_none()
    }
}

fn is_untrue_of_delete_sq(sq: &Sq, qid: u16, status: Status) -> bool
    ensures { result ≡ is_untrue_of_delete_sq sq.now qid status }
{
    if status == Status::SUCCESS {
        qid == 0 || sq.ring.is_none()
    } else {
        is_specific(status, 0x01) && qid != 0 && sq.ring.is_some()
    }
}

fn is_untrue_of_delete_cq(cq: &Cq, asked: u64, mark: u64, qid: u16, status: Status) -> bool
    ensures { result ≡ is_untrue_of_delete_cq cq.now asked mark qid status }
{
    let settled = asked <= mark;
    let attached = cq.parted < cq.joined;
    if status == Status::SUCCESS {
        qid == 0 || cq.qsize.is_none() || (settled && attached)
    } else if is_specific(status, 0x01) {
        qid != 0 && cq.qsize.is_some()
    } else {
        is_specific(status, 0x0c) && qid != 0 && settled && !attached
    }
}

// Whether an answer to Set Features of Number of Queues has possible numbers, those of the first answer.
fn are_numbers(numbers: Option<u32>, dw0: Option<u32>) -> bool
    ensures { result ≡ are_numbers numbers dw0 }
{
    match (numbers, dw0) {
        (_, None) => true,
        (None, Some(dw0)) => dw0 % 0x1_0000 < 0xffff && dw0 / 0x1_0000 < 0xffff,
        (Some(numbers), Some(dw0)) => numbers == dw0,
    }
}

fn is_untrue_of_features(
    numbers: Option<u32>,
    mark: u64,
    fid: u8,
    dw0: Option<u32>,
    status: Status,
) -> bool
    ensures { result ≡ is_untrue_of_features numbers mark fid dw0 status }
{
    fid == NUMBER_OF_QUEUES && status == Status::SUCCESS && (0 < mark || !are_numbers(numbers, dw0))
}

fn broken_if(fails: bool, rule: Rule) -> Verdict
    ensures { result ≡ broken_if fails (Broken rule) }
{
    if fails {
        Verdict::Broken(rule)
    } else {
        Verdict::Kept
    }
}

// What is said of the status of an admin command.
fn status_rules(
    sq: &Sq,
    cq: &Cq,
    admin: &Admin,
    mark: u64,
    completion: &Completion,
    command: AdminCommand,
) -> Verdict
    ensures { result ≡ status_rules sq.now cq.now admin.now mark completion.now command }
{
    let status = completion.status;
    let numbers = admin.numbers;
    match command {
        AdminCommand::DeleteSq { qid } => broken_if(
            !admin.met && is_untrue_of_delete_sq(sq, qid, status),
            Rule::StatusDelete,
        ),
        AdminCommand::CreateSq {
            qid,
            qsize,
            cqid,
            ..
        } => broken_if(
            !admin.met && is_untrue_of_create_sq(sq, cq, numbers, mark, qid, qsize, cqid, status),
            Rule::StatusCreate,
        ),
        AdminCommand::DeleteCq { qid } => broken_if(
            !admin.met && is_untrue_of_delete_cq(cq, admin.asked, mark, qid, status),
            Rule::StatusDelete,
        ),
        AdminCommand::CreateCq { qid, qsize, .. } => broken_if(
            !admin.met && is_untrue_of_create_cq(cq, numbers, qid, qsize, status),
            Rule::StatusCreate,
        ),
        AdminCommand::SetFeatures { fid, .. } => broken_if(
            is_untrue_of_features(numbers, mark, fid, completion.dw0, status),
            Rule::Features,
        ),
        _ => Verdict::Kept,
    }
}

fn own_rules(
    sq: &Sq,
    cq: &Cq,
    admin: &Admin,
    mark: u64,
    completion: &Completion,
    command: AdminCommand,
) -> Verdict
    ensures { result ≡ own_rules sq.now cq.now admin.now mark completion.now command }
{
    if is_foreign(command, completion.status) {
        Verdict::Broken(Rule::StatusForeign)
    } else {
        status_rules(sq, cq, admin, mark, completion, command)
    }
}

// Whether a command is aborted by a deletion of its queue that nobody asked.
fn is_undoomed(sq: &Sq, status: Status) -> bool
    ensures { result ≡ is_undoomed sq.now status }
{
    status == Status::ABORTED_BY_DELETION && !sq.doomed
}

/// Whether an Abort is answered that it aborted a command, and no command of the queue ended so since its fetch.
pub fn told_of(stirred: u64, mark: u64, completion: &Completion) -> bool
    ensures { result ≡ told_of stirred mark completion.now }
{
    completion.status == Status::SUCCESS
        && completion.dw0.is_some_and(|dw0| dw0 % 2 == 0)
        && stirred == mark
}

// Whether a command is aborted that no Abort named.
fn is_unnamed(command: Option<Command>, status: Status) -> bool
    ensures { result ≡ is_unnamed command status }
{
    match command {
        Some(command) => status == Status::ABORT_REQUESTED && !command.named,
        None => false,
    }
}

// Whether a command that an Abort says was aborted ends otherwise.
fn is_not_as_told(command: Option<Command>, status: Status) -> bool
    ensures { result ≡ is_not_as_told command status }
{
    match command {
        Some(command) => command.owed && status != Status::ABORT_REQUESTED,
        None => false,
    }
}

// Whether an Abort says that it aborted a command, and there is none.
fn is_untrue_abort(
    tells: &Tells,
    sq: &Sq,
    target: Option<Command>,
    mark: u64,
    completion: &Completion,
    command: AdminCommand,
) -> bool
    ensures { result ≡ is_untrue_abort tells.now sq.now target mark completion.now command }
{
    matches!(command, AdminCommand::Abort { .. })
        && target.is_none()
        && told_of(sq.stirred, mark, completion)
        && !(sq.excused || (!tells.posts && sq.deleted))
}

/// What was noted of a command at its fetch.
pub fn mark_in(command: Option<Command>) -> u64
    ensures { result ≡ mark_in command }
{
    match command {
        Some(command) => command.mark,
        None => 0,
    }
}

/// What is said of a completion by its status. `own_cq`, `own_sq` and `target` are what its command names.
pub fn answer_verdict(
    tells: &Tells,
    cq: &Cq,
    own_cq: &Cq,
    sq: &Sq,
    own_sq: &Sq,
    admin: &Admin,
    command: Option<Command>,
    target: Option<Command>,
    completion: &Completion,
) -> Verdict
    ensures { result ≡ answer_verdict tells.now cq.now own_cq.now sq.now own_sq.now admin.now command target completion.now }
{
    if cq.excused || sq.excused || (!tells.posts && sq.deleted) {
        return Verdict::Kept;
    }
    if is_undoomed(sq, completion.status) {
        return Verdict::Broken(Rule::SqdelUnasked);
    }
    if is_unnamed(command, completion.status) {
        return Verdict::Broken(Rule::AbortUnasked);
    }
    let asked = answered(command, completion);
    let mark = mark_in(command);
    if is_not_as_told(command, completion.status)
        || is_untrue_abort(tells, own_sq, target, mark, completion, asked)
    {
        return Verdict::Broken(Rule::AbortUntrue);
    }
    own_rules(own_sq, own_cq, admin, mark, completion, asked)
}
