// The flags of completions, as C gives them and has them in the bytes of a completion.
ghost use Rattle.std.specs.Prelude.{◌≡◌, ◌<◌, ◌≤◌, ◌↔◌, IsNone, IfSome};
ghost use Rattle.nvme_entry.specs.Bits.{bits_of, dword};
ghost use Rattle.nvme_entry.specs.Completion.{IsCompletionEntry};
ghost use Rattle.nvme_entry.specs.declared.completion.Cqe.{Cqe};
ghost use Rattle.nvme_capi.specs.Controllers.{flags_by, flags_number, IsFlaggedEntry};

use nvme_ctrl::StatusFlags;

// The highest flags: NVMEARB_DNR and NVMEARB_MORE.
const ALL_FLAGS: u8 = 3;

/// The flags that a number says. None exactly where it has another bit.
pub fn flags_by(flags: u8) -> Option<StatusFlags>
    ensures none { IsNone result ↔ (3 < flags) }
    ensures some { IfSome result (λ it. it ≡ flags_by flags) }
{
    if flags > ALL_FLAGS {
        return None;
    }
    Some(StatusFlags {
        more: flags / 2 == 1,
        do_not_retry: flags % 2 == 1,
    })
}

/// The bytes of a completion with its flags.
pub fn flagged(plain: [u8; 16], flags: StatusFlags) -> [u8; 16]
    ensures { (cqe : Cqe) → IsCompletionEntry plain cqe → IsFlaggedEntry result cqe flags }
{
    // (the other bytes of Dword 3 are read for their range)
    let _others = [plain[12], plain[13], plain[14]];
    let more = if flags.more { 0x40 } else { 0 };
    let do_not_retry = if flags.do_not_retry { 0x80 } else { 0 };
    let mut bytes = plain;
    bytes[15] = plain[15] % 0x10 + more + do_not_retry;
    bytes
}

/// The flags in the bytes of a completion, as a number.
pub fn flags_in(bytes: &[u8; 16]) -> u8
    ensures number { result ≡ flags_number bytes.now }
    ensures few { result ≤ 3 }
{
    // (the other bytes of Dword 3 are read for their range)
    let _others = [bytes[12], bytes[13], bytes[14]];
    bytes[15] / 0x80 + bytes[15] / 0x40 % 2 * 2
}

/// The bytes of a completion without its flags.
pub fn unflagged(bytes: [u8; 16]) -> [u8; 16]
    ensures layout { (cqe : Cqe) → IsCompletionEntry result cqe → IsFlaggedEntry bytes cqe (flags_by (flags_number bytes)) }
    ensures dw1 { dword 1 result ≡ dword 1 bytes }
    ensures crd { bits_of 31 28 (dword 3 result) ≡ bits_of 29 28 (dword 3 bytes) }
{
    // (the other bytes of Dword 3 are read for their range)
    let _others = [bytes[12], bytes[13], bytes[14]];
    let mut plain = bytes;
    plain[15] = bytes[15] % 0x40;
    plain
}
