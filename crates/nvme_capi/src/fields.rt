// The structs of C, but for a submission entry, which is `nvme_entry::Sqe` as it lies in memory. Every bit pattern is a
// value of each of them.
ghost use Rattle.std.specs.Prelude.{◌≡◌, ◌<◌, ◌≤◌, ◌⊎◌, ◌↔◌, IsNone, IfSome};
ghost use Rattle.nvme_capi.specs.Fields.{code_of, completion_of, FitsCompletion};

use nvme_entry::{Cqe, Status};

/// `nvmearb_status`: a status code type and a status code.
#[repr(C)]
#[derive(Clone, Copy, Drop)]
pub struct StatusFields {
    pub sct: u8,
    pub sc: u8,
}

/// `nvmearb_cqe`: the fields of a completion entry. The phase tag is 0 or 1.
#[repr(C)]
#[derive(Clone, Copy, Drop)]
pub struct CompletionFields {
    pub dw0: u32,
    pub sqhd: u16,
    pub sqid: u16,
    pub cid: u16,
    pub phase: u8,
    pub status: StatusFields,
}

/// `nvmearb_admin`: an admin command by its kind, with the fields that the controller reads of it. A field that a
/// command of this kind doesn't have is 0.
#[repr(C)]
#[derive(Clone, Copy, Drop)]
pub struct AdminFields {
    pub kind: u32,
    pub cdw11: u32,
    pub prp1: u64,
    pub qid: u16,
    pub qsize: u16,
    pub cqid: u16,
    pub qprio: u8,
    pub pc: u8,
    pub fid: u8,
    pub sv: u8,
    pub cid: u16,
}

/// `nvmearb_settings`: the fields of a CDW11 of the Arbitration feature. A burst of 0 is no limit.
#[repr(C)]
#[derive(Clone, Copy, Drop)]
pub struct SettingsFields {
    pub cdw11: u32,
    pub burst: u16,
    pub high: u16,
    pub medium: u16,
    pub low: u16,
}

/// The fields of a status.
pub fn fields_of_status(status: Status) -> StatusFields
    ensures same { code_of result ≡ status }
    ensures fits { result.sct ≤ 7 }
{
    StatusFields {
        sct: status.sct(),
        sc: status.sc(),
    }
}

/// The fields of a completion entry.
pub fn fields_of_completion(entry: &Cqe) -> CompletionFields
    ensures same { completion_of result ≡ entry.now }
    ensures fits { FitsCompletion result }
{
    CompletionFields {
        dw0: entry.dw0,
        sqhd: entry.sqhd,
        sqid: entry.sqid,
        cid: entry.cid,
        phase: u8::from(entry.phase),
        status: fields_of_status(entry.status),
    }
}

/// The completion entry of these fields, where they fit one.
pub fn completion_of(fields: &CompletionFields) -> Option<Cqe>
    ensures none { IsNone result ↔ ((1 < fields.now.phase) ⊎ (7 < fields.now.status.sct)) }
    ensures some { IfSome result (λ entry. entry ≡ completion_of fields.now) }
{
    if fields.phase > 1 {
        return None;
    }
    let status = Status::new(fields.status.sct, fields.status.sc)?;
    Some(Cqe {
        dw0: fields.dw0,
        sqhd: fields.sqhd,
        sqid: fields.sqid,
        cid: fields.cid,
        phase: fields.phase == 1,
        status,
    })
}
