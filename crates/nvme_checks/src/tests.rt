// Each call on its happy path, and on commands of the devices that it is for.
use crate::laws::{
    accepted_ranges_fit, active_is_outcome, blocks_are_in_range, other_opcodes, worked_commands,
    worked_ranges,
};
use crate::{check, range};
use nvme_entry::{Sqe, Status};

// Namespace 2 is inactive.
const SIZES: [u64; 3] = [1000, 0, 1 << 32];

fn command(opcode: u8, flags: u8, nsid: u32, slba: u32, nlb: u32) -> Sqe {
    Sqe {
        opcode,
        flags,
        nsid,
        cdw10: slba,
        cdw12: nlb,
        ..Sqe::default()
    }
}

#[test]
fn commands_of_the_profile(rt: HostRuntime) {
    let cases = [
        (0x00, 0x00, 0xffff_ffff, Status::SUCCESS),
        (0x00, 0x00, 2, Status::INVALID_FIELD),
        (0x01, 0x00, 1, Status::SUCCESS),
        (0x02, 0x00, 2, Status::INVALID_FIELD),
        (0x02, 0x00, 4, Status::INVALID_NAMESPACE),
        (0x02, 0x40, 1, Status::INVALID_FIELD),
        (0x02, 0xc0, 1, Status::INVALID_FIELD),
        (0x05, 0x00, 1, Status::INVALID_OPCODE),
    ];
    for (opcode, flags, nsid, want) in cases {
        let entry = command(opcode, flags, nsid, 992, 7);
        assert!(rt;
            check(&entry, &SIZES) == want,
            "opcode {opcode}, flags {flags}, namespace {nsid}"
        );
    }
    let past = command(0x02, 0, 1, 992, 8);
    assert!(rt; check(&past, &SIZES) == Status::LBA_OUT_OF_RANGE);
}

// As many namespaces as 17, and a Compare that would be fused with a Write.
#[test]
fn ranges_of_other_opcodes(rt: HostRuntime) {
    let compare = command(0x05, 0x01, 17, 0, 0);
    assert!(rt; range(&compare, &[1; 17]) == Status::SUCCESS);
    assert!(rt; range(&compare, &[1; 16]) == Status::INVALID_NAMESPACE);
    let zeroes = command(0x08, 0, 3, 0xffff_0001, 0xfffe);
    assert!(rt; range(&zeroes, &SIZES) == Status::SUCCESS);
}

#[test]
fn laws_are_there(_rt: HostRuntime) {
    active_is_outcome();
    blocks_are_in_range();
    other_opcodes();
    accepted_ranges_fit();
    worked_commands();
    worked_ranges();
}
