// Admin commands by their fields.
ghost use Rattle.std.specs.Prelude.{◌≡◌};
ghost use Rattle.nvme_entry.specs.AdminCommand.{admin_command_of};
ghost use Rattle.nvme_capi.specs.Fields.{admin_fields_of, no_fields};

use crate::fields::AdminFields;
use nvme_entry::{AdminCommand, Sqe, admin_of};

// An admin command with all fields 0.
const fn no_fields() -> AdminFields
    ensures { result ≡ no_fields }
{
    AdminFields {
        kind: 0,
        cdw11: 0,
        prp1: 0,
        qid: 0,
        qsize: 0,
        cqid: 0,
        qprio: 0,
        pc: 0,
        fid: 0,
        sv: 0,
        cid: 0,
    }
}

// The fields of a command of this kind that only names a queue.
fn fields_of_delete(kind: u32, qid: u16) -> AdminFields
    ensures { result ≡ record no_fields { kind = kind; qid = qid } }
{
    AdminFields {
        kind,
        qid,
        ..no_fields()
    }
}

// The fields of a Create of a submission queue.
fn fields_of_create_sq(
    qid: u16,
    qsize: u16,
    prp1: u64,
    cqid: u16,
    qprio: u8,
    pc: bool,
) -> AdminFields
    ensures { result ≡ admin_fields_of (AdminCommand.CreateSq qid qsize prp1 cqid qprio pc) }
{
    AdminFields {
        kind: 2,
        qid,
        qsize,
        prp1,
        cqid,
        qprio,
        pc: u8::from(pc),
        ..no_fields()
    }
}

// The fields of a Create of a completion queue.
fn fields_of_create_cq(qid: u16, qsize: u16, prp1: u64, pc: bool) -> AdminFields
    ensures { result ≡ admin_fields_of (AdminCommand.CreateCq qid qsize prp1 pc) }
{
    AdminFields {
        kind: 4,
        qid,
        qsize,
        prp1,
        pc: u8::from(pc),
        ..no_fields()
    }
}

// The fields of an admin command.
fn fields_of_admin(command: AdminCommand) -> AdminFields
    ensures { result ≡ admin_fields_of command }
{
    match command {
        AdminCommand::DeleteSq { qid } => fields_of_delete(1, qid),
        AdminCommand::CreateSq {
            qid,
            qsize,
            prp1,
            cqid,
            qprio,
            pc,
        } => fields_of_create_sq(qid, qsize, prp1, cqid, qprio, pc),
        AdminCommand::DeleteCq { qid } => fields_of_delete(3, qid),
        AdminCommand::CreateCq {
            qid,
            qsize,
            prp1,
            pc,
        } => fields_of_create_cq(qid, qsize, prp1, pc),
        AdminCommand::SetFeatures { fid, sv, cdw11 } => AdminFields {
            kind: 5,
            fid,
            sv: u8::from(sv),
            cdw11,
            ..no_fields()
        },
        AdminCommand::GetFeatures { fid } => AdminFields {
            kind: 6,
            fid,
            ..no_fields()
        },
        AdminCommand::Abort { sqid, cid } => AdminFields {
            kind: 7,
            qid: sqid,
            cid,
            ..no_fields()
        },
        AdminCommand::Other => no_fields(),
    }
}

/// Decodes an admin command: its kind and its fields. Every entry has one.
#[unsafe(no_mangle)]
pub extern "C" fn nvmearb_admin_of(entry: &Sqe, command: &mut AdminFields)
    ensures { command.new ≡ admin_fields_of (admin_command_of entry.now) }
{
    *command = fields_of_admin(admin_of(entry));
}
