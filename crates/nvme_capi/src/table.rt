// The queue table, over a state that the caller owns.
ghost use Rattle.std.specs.Prelude.{◌≡◌, ◌≢◌, ◌≤◌, ◌<◌, ◌==◌, ◌⊎◌, ◌↔◌, if◌then◌else◌, true, false, ℕ, [], ◌∷◌, ◌++◌, length, Some, None, IsTrue, IsFalse, IsSomeAnd, IfSome};
ghost use Rattle.nvme_entry.specs.Submission.{IsSubmissionEntry};
ghost use Rattle.nvme_entry.specs.AdminCommand.{admin_command_of};
ghost use Rattle.nvme_entry.specs.declared.submission.Sqe.{Sqe};
ghost use Rattle.nvme_arbiter.specs.Settings.{settings_of};
ghost use Rattle.nvme_admin.specs.declared.region.AdminError.TheVariants.{Used, TooMany, Size};
ghost use Rattle.nvme_admin.specs.History.{Start, TableHistory, RegionAdded, EntryApplied, DeletionFinished, Submission, Completion};
ghost use Rattle.nvme_admin.specs.Accepted.{verdict_of};
ghost use Rattle.nvme_admin.specs.Checks.{status_over, verdict_by, is_success};
ghost use Rattle.nvme_admin.specs.Layout.{view_of};
ghost use Rattle.nvme_admin.specs.Changes.{admin_queue};
ghost use Rattle.nvme_admin.specs.Steps.{empty_table, table_after};
ghost use Rattle.nvme_admin.specs.Standing.{Shows, StandsAt, table_of, sq_of, cq_of, region_fault};
ghost use Rattle.nvme_capi.specs.Fields.{settings_fields_of, code_of};
ghost use Rattle.nvme_capi.specs.Tables.{is_limit, is_table, answer_of, queue_answer_of};

use crate::answers::{AnswerFields, QueueAnswer, answer_of, queue_answer_of};
use crate::fields::SettingsFields;
use crate::results::{BAD_ARGUMENT, BAD_SIZE, BAD_STATE, NOTHING, OK, TOO_MANY, USED};
use crate::settings::nvmearb_settings_of;
use crate::version::{INTERFACE, TABLE_BYTES};
use nvme_admin::{AdminError, Limits, MAX_IO_QUEUES, TableFields};
use nvme_arbiter::Settings;
use nvme_entry::{Sqe, submission_layout_is_exact};

// What `nvmearb_table_init` of this interface writes before a table, and nothing else does.
const MARK: u64 = 0x6e76_6d65_7400_0000 + INTERFACE;

/// `nvmearb_table`: a mark, and a queue table. Any content behind the mark is some table, so only the mark is checked.
#[repr(C)]
#[derive(Drop)]
pub struct TableState {
    pub mark: u64,
    pub table: TableFields,
}

const _: () = prove!(size_of::<TableState>() == TABLE_BYTES as usize);

// Whether a queue table was made here.
fn is_table(state: &TableState) -> bool
    ensures { result ≡ is_table state.now }
{
    state.mark == MARK
}

/// Whether this number of queues of a kind can be allotted.
pub fn is_limit(number: u16) -> bool
    ensures { result ≡ is_limit number }
{
    number >= 1 && number <= MAX_IO_QUEUES
}

/// Makes a queue table with no region. It allots at most `nsq` I/O submission queues and `ncq` I/O completion queues,
/// 1 to 64 each. The settings are those of `cdw11`.
#[unsafe(no_mangle)]
pub extern "C" fn nvmearb_table_init(state: &mut TableState, nsq: u16, ncq: u16, cdw11: u32) -> u32
    ensures refused { (result ≡ BAD_ARGUMENT) ↔ (IsFalse (is_limit nsq) ⊎ IsFalse (is_limit ncq)) }
    ensures answer { (result ≡ OK) ⊎ (result ≡ BAD_ARGUMENT) }
    ensures stands { result ≡ OK → StandsAt (record { nsq = nsq; ncq = ncq; settings = settings_of cdw11 }) (view_of state.new.table) [] }
    ensures empty { result ≡ OK → Shows (view_of state.new.table) (empty_table (record { nsq = nsq; ncq = ncq; settings = settings_of cdw11 })) }
    ensures kept { result ≡ OK → IsTrue (is_table state.new) }
    ensures unchanged { result ≢ OK → state.new ≡ state.old }
{
    if !is_limit(nsq) || !is_limit(ncq) {
        return BAD_ARGUMENT;
    }
    state.mark = MARK;
    state.table = TableFields::new(Limits { nsq, ncq }, Settings::from_cdw11(cdw11));
    OK
}

/// The result where a region can't be added.
pub fn refusal(error: AdminError) -> u32
    ensures used { (result ≡ USED) ↔ (error ≡ Used) }
    ensures too_many { (result ≡ TOO_MANY) ↔ (error ≡ TooMany) }
    ensures size { (result ≡ BAD_SIZE) ↔ (error ≡ Size) }
    ensures refused { (result ≡ USED) ⊎ ((result ≡ TOO_MANY) ⊎ (result ≡ BAD_SIZE)) }
{
    match error {
        AdminError::Used => USED,
        AdminError::TooMany => TOO_MANY,
        AdminError::Size => BAD_SIZE,
    }
}

/// Adds a submission region, and writes its number, which counts from 0. Region 0 is the admin queue's. The refusals,
/// in this order: a region of either kind has the address, 65 regions of this kind exist, or the number of slots is
/// outside 2 to 4,096.
#[unsafe(no_mangle)]
pub extern "C" fn nvmearb_table_add_sq_region(
    state: &mut TableState,
    address: u64,
    slots: u16,
    number: &mut u16,
) -> u32
    ensures bad_state { (result ≡ BAD_STATE) ↔ IsFalse (is_table state.old) }
    ensures answer { (result ≡ OK) ⊎ ((result ≡ BAD_STATE) ⊎ ((result ≡ USED) ⊎ ((result ≡ TOO_MANY) ⊎ (result ≡ BAD_SIZE)))) }
    ensures used { result ≡ USED → region_fault (view_of state.old.table) (view_of state.old.table).sq_regions address slots ≡ Some Used }
    ensures too_many { result ≡ TOO_MANY → region_fault (view_of state.old.table) (view_of state.old.table).sq_regions address slots ≡ Some TooMany }
    ensures size { result ≡ BAD_SIZE → region_fault (view_of state.old.table) (view_of state.old.table).sq_regions address slots ≡ Some Size }
    ensures added { result ≡ OK → region_fault (view_of state.old.table) (view_of state.old.table).sq_regions address slots ≡ None }
    ensures number { result ≡ OK → number.new ≡ length (view_of state.old.table).sq_regions }
    ensures stands { result ≡ OK → (start : Start) (h : TableHistory) → StandsAt start (view_of state.old.table) h → StandsAt start (view_of state.new.table) (RegionAdded Submission address slots ∷ h) }
    ensures regions { result ≡ OK → (view_of state.new.table).sq_regions ≡ (view_of state.old.table).sq_regions ++ record { address = address; slots = slots } ∷ [] }
    ensures queues { result ≡ OK → (q : ℕ) → sq_of (view_of state.new.table) q ≡ (if q == 0 then Some admin_queue else sq_of (view_of state.old.table) q) }
    ensures rest { result ≡ OK → view_of state.new.table ≡ record (view_of state.old.table) { sq_regions = (view_of state.new.table).sq_regions; sqs = (view_of state.new.table).sqs } }
    ensures kept { result ≡ OK → IsTrue (is_table state.new) }
    ensures unchanged { result ≢ OK → (state.new ≡ state.old) × (number.new ≡ number.old) }
{
    if !is_table(state) {
        return BAD_STATE;
    }
    match state.table.add_sq_region(address, slots) {
        Ok(added) => {
            *number = u16::from(added);
            OK
        }
        Err(error) => refusal(error),
    }
}

/// Adds a completion region, as `nvmearb_table_add_sq_region` adds a submission region.
#[unsafe(no_mangle)]
pub extern "C" fn nvmearb_table_add_cq_region(
    state: &mut TableState,
    address: u64,
    slots: u16,
    number: &mut u16,
) -> u32
    ensures bad_state { (result ≡ BAD_STATE) ↔ IsFalse (is_table state.old) }
    ensures answer { (result ≡ OK) ⊎ ((result ≡ BAD_STATE) ⊎ ((result ≡ USED) ⊎ ((result ≡ TOO_MANY) ⊎ (result ≡ BAD_SIZE)))) }
    ensures used { result ≡ USED → region_fault (view_of state.old.table) (view_of state.old.table).cq_regions address slots ≡ Some Used }
    ensures too_many { result ≡ TOO_MANY → region_fault (view_of state.old.table) (view_of state.old.table).cq_regions address slots ≡ Some TooMany }
    ensures size { result ≡ BAD_SIZE → region_fault (view_of state.old.table) (view_of state.old.table).cq_regions address slots ≡ Some Size }
    ensures added { result ≡ OK → region_fault (view_of state.old.table) (view_of state.old.table).cq_regions address slots ≡ None }
    ensures number { result ≡ OK → number.new ≡ length (view_of state.old.table).cq_regions }
    ensures stands { result ≡ OK → (start : Start) (h : TableHistory) → StandsAt start (view_of state.old.table) h → StandsAt start (view_of state.new.table) (RegionAdded Completion address slots ∷ h) }
    ensures regions { result ≡ OK → (view_of state.new.table).cq_regions ≡ (view_of state.old.table).cq_regions ++ record { address = address; slots = slots } ∷ [] }
    ensures queues { result ≡ OK → (q : ℕ) → cq_of (view_of state.new.table) q ≡ (if q == 0 then Some 0 else cq_of (view_of state.old.table) q) }
    ensures rest { result ≡ OK → view_of state.new.table ≡ record (view_of state.old.table) { cq_regions = (view_of state.new.table).cq_regions; cqs = (view_of state.new.table).cqs } }
    ensures kept { result ≡ OK → IsTrue (is_table state.new) }
    ensures unchanged { result ≢ OK → (state.new ≡ state.old) × (number.new ≡ number.old) }
{
    if !is_table(state) {
        return BAD_STATE;
    }
    match state.table.add_cq_region(address, slots) {
        Ok(added) => {
            *number = u16::from(added);
            OK
        }
        Err(error) => refusal(error),
    }
}

/// Applies the admin entry in 64 bytes, and writes its verdict, its status and its Dword 0. A command whose
/// status isn't success leaves the table as it was.
#[unsafe(no_mangle)]
pub extern "C" fn nvmearb_table_apply(
    state: &mut TableState,
    bytes: &[u8; 64],
    answer: &mut AnswerFields,
) -> u32
    ensures bad_state { (result ≡ BAD_STATE) ↔ IsFalse (is_table state.old) }
    ensures answer { (result ≡ OK) ⊎ (result ≡ BAD_STATE) }
    ensures verdict { result ≡ OK → (entry : Sqe) → IsSubmissionEntry bytes.now entry → (start : Start) (h : TableHistory) → StandsAt start (view_of state.old.table) h → answer.new ≡ answer_of (verdict_of start h entry) }
    ensures stands { result ≡ OK → (entry : Sqe) → IsSubmissionEntry bytes.now entry → (start : Start) (h : TableHistory) → StandsAt start (view_of state.old.table) h → StandsAt start (view_of state.new.table) (EntryApplied entry ∷ h) }
    ensures answered { result ≡ OK → (entry : Sqe) → IsSubmissionEntry bytes.now entry → answer.new ≡ answer_of (verdict_by (status_over (table_of (view_of state.old.table)) entry) (table_of (view_of state.new.table)) (admin_command_of entry)) }
    ensures accepted { result ≡ OK → (entry : Sqe) → IsSubmissionEntry bytes.now entry → is_success (status_over (table_of (view_of state.old.table)) entry) ≡ true → Shows (view_of state.new.table) (table_after (table_of (view_of state.old.table)) (admin_command_of entry)) }
    ensures refused { result ≡ OK → (entry : Sqe) → IsSubmissionEntry bytes.now entry → is_success (status_over (table_of (view_of state.old.table)) entry) ≡ false → state.new ≡ state.old }
    ensures kept { result ≡ OK → IsTrue (is_table state.new) }
    ensures unchanged { result ≢ OK → (state.new ≡ state.old) × (answer.new ≡ answer.old) }
{
    if !is_table(state) {
        return BAD_STATE;
    }
    submission_layout_is_exact();
    *answer = answer_of(state.table.apply(&Sqe::from_bytes(bytes)));
    OK
}

/// Finishes the deletion of a closing submission queue. Its identifier is then free.
#[unsafe(no_mangle)]
pub extern "C" fn nvmearb_table_finish_delete(state: &mut TableState, qid: u16) -> u32
    ensures bad_state { (result ≡ BAD_STATE) ↔ IsFalse (is_table state.old) }
    ensures answer { (result ≡ OK) ⊎ ((result ≡ BAD_ARGUMENT) ⊎ (result ≡ BAD_STATE)) }
    ensures closing { result ≡ OK → IsSomeAnd (sq_of (view_of state.old.table) qid) (λ queue. IsTrue queue.closing) }
    ensures stands { result ≡ OK → (start : Start) (h : TableHistory) → StandsAt start (view_of state.old.table) h → StandsAt start (view_of state.new.table) (DeletionFinished qid ∷ h) }
    ensures gone { result ≡ OK → (q : ℕ) → sq_of (view_of state.new.table) q ≡ (if qid == q then None else sq_of (view_of state.old.table) q) }
    ensures rest { result ≡ OK → view_of state.new.table ≡ record (view_of state.old.table) { sqs = (view_of state.new.table).sqs } }
    ensures refused { result ≡ BAD_ARGUMENT → IfSome (sq_of (view_of state.old.table) qid) (λ queue. IsFalse queue.closing) }
    ensures kept { result ≡ OK → IsTrue (is_table state.new) }
    ensures unchanged { result ≢ OK → state.new ≡ state.old }
{
    if !is_table(state) {
        return BAD_STATE;
    }
    match state.table.sq(qid) {
        Some(queue) if queue.closing => {
            state.table.finish_delete(qid);
            OK
        }
        _ => BAD_ARGUMENT,
    }
}

/// Writes the fields of the submission queue of an identifier, where it is open or closing.
#[unsafe(no_mangle)]
pub extern "C" fn nvmearb_table_sq(state: &TableState, qid: u16, queue: &mut QueueAnswer) -> u32
    ensures bad_state { (result ≡ BAD_STATE) ↔ IsFalse (is_table state.now) }
    ensures answer { (result ≡ OK) ⊎ ((result ≡ NOTHING) ⊎ (result ≡ BAD_STATE)) }
    ensures nothing { result ≡ NOTHING → sq_of (view_of state.now.table) qid ≡ None }
    ensures found { result ≡ OK → IsSomeAnd (sq_of (view_of state.now.table) qid) (λ it. queue.new ≡ queue_answer_of it) }
    ensures unchanged { result ≢ OK → queue.new ≡ queue.old }
{
    if !is_table(state) {
        return BAD_STATE;
    }
    match state.table.sq(qid) {
        Some(it) => {
            *queue = queue_answer_of(it);
            OK
        }
        None => NOTHING,
    }
}

/// Writes the number of the region of the completion queue of an identifier, where it is open.
#[unsafe(no_mangle)]
pub extern "C" fn nvmearb_table_cq(state: &TableState, qid: u16, region: &mut u16) -> u32
    ensures bad_state { (result ≡ BAD_STATE) ↔ IsFalse (is_table state.now) }
    ensures answer { (result ≡ OK) ⊎ ((result ≡ NOTHING) ⊎ (result ≡ BAD_STATE)) }
    ensures nothing { result ≡ NOTHING → cq_of (view_of state.now.table) qid ≡ None }
    ensures found { result ≡ OK → cq_of (view_of state.now.table) qid ≡ Some region.new }
    ensures unchanged { result ≢ OK → region.new ≡ region.old }
{
    if !is_table(state) {
        return BAD_STATE;
    }
    match state.table.cq(qid) {
        Some(it) => {
            *region = u16::from(it);
            OK
        }
        None => NOTHING,
    }
}

/// Writes how many I/O queues of each kind were allotted, 1 to 64.
#[unsafe(no_mangle)]
pub extern "C" fn nvmearb_table_allotted(state: &TableState, nsq: &mut u16, ncq: &mut u16) -> u32
    ensures bad_state { (result ≡ BAD_STATE) ↔ IsFalse (is_table state.now) }
    ensures answer { (result ≡ OK) ⊎ (result ≡ BAD_STATE) }
    ensures nsq { result ≡ OK → nsq.new ≡ (view_of state.now.table).nsq }
    ensures ncq { result ≡ OK → ncq.new ≡ (view_of state.now.table).ncq }
    ensures unchanged { result ≢ OK → (nsq.new ≡ nsq.old) × (ncq.new ≡ ncq.old) }
{
    if !is_table(state) {
        return BAD_STATE;
    }
    let allotted = state.table.allotted();
    *nsq = allotted.nsq;
    *ncq = allotted.ncq;
    OK
}

/// Writes the settings of the Arbitration feature.
#[unsafe(no_mangle)]
pub extern "C" fn nvmearb_table_settings(state: &TableState, settings: &mut SettingsFields) -> u32
    ensures bad_state { (result ≡ BAD_STATE) ↔ IsFalse (is_table state.now) }
    ensures answer { (result ≡ OK) ⊎ (result ≡ BAD_STATE) }
    ensures settings { result ≡ OK → settings.new ≡ settings_fields_of (view_of state.now.table).settings }
    ensures unchanged { result ≢ OK → settings.new ≡ settings.old }
{
    if !is_table(state) {
        return BAD_STATE;
    }
    nvmearb_settings_of(state.table.settings().to_cdw11(), settings);
    OK
}
