// The use, played.
use crate::board::{doorbell, opened, serve};
use nvme_arbiter::{Pick, Settings};
use std::test::*;

// A pick.
fn pick(qid: u16, n: u16, fresh: bool) -> Pick {
    Pick { qid, n, fresh }
}

#[test]
fn urgent_before_low(rt: HostRuntime) -> Result<(), Fail> {
    let mut board = opened(Settings::from_cdw11(1));
    let mut picks = Vec::new(rt.alloc());
    assert!(rt; doorbell(&mut board, 2, 2));
    assert!(rt; doorbell(&mut board, 1, 3));
    assert!(rt; !doorbell(&mut board, 3, 1));
    serve(&mut board, 10, &mut picks)?;
    assert_eq!(rt;
        picks.as_slice(),
        [
            pick(1, 2, false),
            pick(1, 1, false),
            pick(2, 1, false),
            pick(2, 1, true),
        ]
        .as_slice()
    );
    Ok(())
}
