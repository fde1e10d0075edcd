// What arbitration is shown and what it answers, as C holds it.
ghost use Rattle.std.specs.Prelude.{◌≡◌, ◌≤◌};
ghost use Rattle.nvme_capi.specs.States.{seen_of_fields, pick_of_fields};

use nvme_arbiter::{Class, Pick, Seen};

/// `nvmearb_seen`: a submission queue as arbitration sees it. The classes are 0 admin, 1 urgent, 2 high, 3 medium and
/// 4 low.
#[repr(C)]
#[derive(Clone, Copy, Drop)]
pub struct SeenFields {
    pub qid: u16,
    pub class: u16,
    pub count: u16,
}

/// `nvmearb_pick`: the next `n` commands of a submission queue, and whether a round of the weighted levels starts.
#[repr(C)]
#[derive(Clone, Copy, Drop)]
pub struct PickFields {
    pub qid: u16,
    pub n: u16,
    pub fresh: u16,
}

/// A submission queue as arbitration sees it. A queue with an unknown class can't be seen.
pub fn seen_of_fields(queue: &SeenFields) -> Seen
    ensures { result ≡ seen_of_fields queue.now }
{
    match Class::of_number(queue.class) {
        Some(class) => Seen {
            qid: queue.qid,
            class,
            count: queue.count,
        },
        None => Seen {
            qid: 0xffff,
            class: Class::Low,
            count: 0,
        },
    }
}

/// The fields of a submission queue as arbitration sees it.
pub fn fields_of_seen(seen: Seen) -> SeenFields
    ensures { seen_of_fields result ≡ seen }
{
    SeenFields {
        qid: seen.qid,
        class: seen.class.number(),
        count: seen.count,
    }
}

/// The fields of a pick.
pub fn fields_of_pick(pick: Pick) -> PickFields
    ensures same { pick_of_fields result ≡ pick }
    ensures fits { result.fresh ≤ 1 }
{
    PickFields {
        qid: pick.qid,
        n: pick.n,
        fresh: u16::from(pick.fresh),
    }
}
