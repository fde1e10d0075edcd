// A table by regions in which each identifier has a region of its own, under a token in the place of its address.
ghost use Rattle.std.specs.Prelude.{◌≡◌, ◌≢◌, ◌<◌, ◌≤◌, ℕ, ◌+◌, ◌*◌, ◌==◌, if◌then◌else◌, true, false, [], ◌∷◌, ◌++◌, length, Some};
ghost use Rattle.nvme_entry.specs.Status.{invalid_field};
ghost use Rattle.nvme_admin.specs.History.{Placing};
ghost use Rattle.nvme_admin.specs.Checks.{status_in, is_success};
ghost use Rattle.nvme_admin.specs.Changes.{admin_queue};
ghost use Rattle.nvme_admin.specs.Effects.{verdict_in};
ghost use Rattle.nvme_admin.specs.Layout.{view_of};
ghost use Rattle.nvme_admin.specs.Standing.{IsSized, sq_of, cq_of, sq_renewed, cq_renewed};
ghost use Rattle.nvme_placing.specs.Telling.{AreTokens, HasTokens, is_ring_size, placing_by};
ghost use Rattle.nvme_placing.specs.inside.Carrying.{Carries, IsPlaced, IsNewTable};

use crate::placement::Placement;
use nvme_admin::{Effect, Limits, MAX_QSIZE, MAX_REGIONS, MAX_SLOTS, MIN_SLOTS, TableFields};
use nvme_arbiter::Settings;
use nvme_entry::{AdminCommand, Sqe, Status, admin_of};

/// Whether a region may have this number of slots.
pub fn is_size(slots: u16) -> bool
    ensures { result ≡ is_ring_size slots }
{
    slots >= MIN_SLOTS && slots <= MAX_SLOTS
}

// Adds the submission region of an identifier, after those of the identifiers below.
fn add_sq(table: &mut TableFields, number: u64, slots: u16)
    requires sqs { AreTokens 0 (view_of table.old).sq_regions }
    requires cqs { AreTokens 1 (view_of table.old).cq_regions }
    requires next { length (view_of table.old).sq_regions ≡ number }
    requires room { number < MAX_REGIONS }
    requires size { is_ring_size slots ≡ true }
    ensures regions { (view_of table.new).sq_regions ≡ (view_of table.old).sq_regions ++ record { address = 2 * number; slots = slots } ∷ [] }
    ensures queues { (q : ℕ) → sq_of (view_of table.new) q ≡ (if q == 0 then Some admin_queue else sq_of (view_of table.old) q) }
    ensures rest { view_of table.new ≡ record (view_of table.old) { sq_regions = (view_of table.new).sq_regions; sqs = (view_of table.new).sqs } }
{
    match table.add_sq_region(2 * number, slots) {
        Ok(_) => {}
        Err(_) => unreachable!(),
    }
}

// Adds the completion region of an identifier, after those of the identifiers below.
fn add_cq(table: &mut TableFields, number: u64, slots: u16)
    requires sqs { AreTokens 0 (view_of table.old).sq_regions }
    requires cqs { AreTokens 1 (view_of table.old).cq_regions }
    requires next { length (view_of table.old).cq_regions ≡ number }
    requires room { number < MAX_REGIONS }
    requires size { is_ring_size slots ≡ true }
    ensures regions { (view_of table.new).cq_regions ≡ (view_of table.old).cq_regions ++ record { address = 2 * number + 1; slots = slots } ∷ [] }
    ensures queues { (q : ℕ) → cq_of (view_of table.new) q ≡ (if q == 0 then Some 0 else cq_of (view_of table.old) q) }
    ensures rest { view_of table.new ≡ record (view_of table.old) { cq_regions = (view_of table.new).cq_regions; cqs = (view_of table.new).cqs } }
{
    match table.add_cq_region(2 * number + 1, slots) {
        Ok(_) => {}
        Err(_) => unreachable!(),
    }
}

/// A table with all regions under their tokens. The regions of I/O queues are renewed by each Create.
pub fn new_table(limits: Limits, settings: Settings, sq_slots: u16, cq_slots: u16) -> TableFields
    requires sq_size { is_ring_size sq_slots ≡ true }
    requires cq_size { is_ring_size cq_slots ≡ true }
    ensures { IsNewTable (view_of result) limits settings }
{
    let mut table = TableFields::new(limits, settings);
    for number in 0..MAX_REGIONS as u64 {
        add_sq(&mut table, number, sq_slots);
        add_cq(&mut table, number, cq_slots);
    }
    table
}

// Whether an effect is the status Invalid Field in Command.
fn is_invalid_field(effect: &Effect) -> bool
    ensures yes { result ≡ true → status_in (verdict_in effect.now) ≡ invalid_field }
    ensures no { result ≡ false → status_in (verdict_in effect.now) ≢ invalid_field }
{
    match *effect {
        Effect::Done(status, _) => status == Status::INVALID_FIELD,
        _ => false,
    }
}

// Whether a Create was refused for its region alone: with PC and a QSIZE that fits, no other check comes to Invalid Field.
fn lacks_region(effect: &Effect, qsize: u16, pc: bool) -> bool
    ensures yes { result ≡ true → (pc ≡ true) × (qsize ≤ MAX_QSIZE) × (status_in (verdict_in effect.now) ≡ invalid_field) }
    ensures no { result ≡ false → pc ≡ true → qsize ≤ MAX_QSIZE → status_in (verdict_in effect.now) ≢ invalid_field }
{
    if !pc || qsize > MAX_QSIZE {
        return false;
    }
    is_invalid_field(effect)
}

// Renews the submission region of an identifier.
fn renew_sq(table: &mut TableFields, qid: u16, slots: u16)
    ensures { qid < MAX_REGIONS → view_of table.new ≡ sq_renewed (view_of table.old) qid slots }
{
    if usize::from(qid) < MAX_REGIONS {
        table.renew_sq_region(qid as u8, slots);
    }
}

// Renews the completion region of an identifier.
fn renew_cq(table: &mut TableFields, qid: u16, slots: u16)
    ensures { qid < MAX_REGIONS → view_of table.new ≡ cq_renewed (view_of table.old) qid slots }
{
    if usize::from(qid) < MAX_REGIONS {
        table.renew_cq_region(qid as u8, slots);
    }
}

// Create I/O Submission Queue: where all but the region is right, the region of the identifier is renewed for it.
fn create_sq(table: &mut TableFields, entry: &Sqe, qid: u16, qsize: u16, pc: bool) -> Effect
    ensures carries { (p : Placing) (prp1 cqid qprio : ℕ) → IsPlaced (view_of table.old) p entry.now (AdminCommand.CreateSq qid qsize prp1 cqid qprio pc)
        → Carries (view_of table.old) (view_of table.new) p entry.now (verdict_in result) }
    ensures unchanged { (p : Placing) (prp1 cqid qprio : ℕ) → IsPlaced (view_of table.old) p entry.now (AdminCommand.CreateSq qid qsize prp1 cqid qprio pc)
        → is_success (status_in (verdict_in result)) ≡ false → table.new ≡ table.old }
{
    let mut placed = *entry;
    placed.prp1 = 2 * u64::from(qid);
    let effect = table.execute(&placed);
    if lacks_region(&effect, qsize, pc) {
        renew_sq(table, qid, qsize + 1);
        table.execute(&placed)
    } else {
        effect
    }
}

// Create I/O Completion Queue, as Create I/O Submission Queue.
fn create_cq(table: &mut TableFields, entry: &Sqe, qid: u16, qsize: u16, pc: bool) -> Effect
    ensures carries { (p : Placing) (prp1 : ℕ) → IsPlaced (view_of table.old) p entry.now (AdminCommand.CreateCq qid qsize prp1 pc)
        → Carries (view_of table.old) (view_of table.new) p entry.now (verdict_in result) }
    ensures unchanged { (p : Placing) (prp1 : ℕ) → IsPlaced (view_of table.old) p entry.now (AdminCommand.CreateCq qid qsize prp1 pc)
        → is_success (status_in (verdict_in result)) ≡ false → table.new ≡ table.old }
{
    let mut placed = *entry;
    placed.prp1 = 2 * u64::from(qid) + 1;
    let effect = table.execute(&placed);
    if lacks_region(&effect, qsize, pc) {
        renew_cq(table, qid, qsize + 1);
        table.execute(&placed)
    } else {
        effect
    }
}

/// Applies an admin entry where queues may lie anywhere.
pub fn execute(table: &mut TableFields, placement: Placement, entry: &Sqe) -> Effect
    ensures carries { HasTokens (view_of table.old) → IsSized (view_of table.old) → Carries (view_of table.old) (view_of table.new) (placing_by placement) entry.now (verdict_in result) }
    ensures unchanged { HasTokens (view_of table.old) → is_success (status_in (verdict_in result)) ≡ false → table.new ≡ table.old }
{
    if entry.fuse() != 0 {
        return table.execute(entry);
    }
    if let Some(status) = placement.check(entry) {
        return Effect::Done(status, 0);
    }
    match admin_of(entry) {
        AdminCommand::CreateSq { qid, qsize, pc, .. } => create_sq(table, entry, qid, qsize, pc),
        AdminCommand::CreateCq { qid, qsize, pc, .. } => create_cq(table, entry, qid, qsize, pc),
        _ => table.execute(entry),
    }
}
