// The states with which a judge may begin: those that some history leaves.
ghost use Rattle.std.specs.Prelude.{◌≡◌};
ghost use Rattle.nvme_judge.specs.Starts.{can_serve, can_be_last, last_fits, can_use, used_fits, StartsHavePriors, StatesCanBegin};

use nvme_arbiter::{Class, HIGHEST_QID, Last, Mechanism, Settings, Used};

// Whether a queue of a class can have the identifier, where there is one.
fn can_serve(class: Class, qid: Option<u16>) -> bool
    ensures { result ≡ can_serve class qid }
{
    match (qid, class) {
        (None, _) => true,
        (Some(qid), Class::Admin) => qid == 0,
        (Some(qid), _) => qid >= 1 && qid <= HIGHEST_QID,
    }
}

// Whether a queue of any class can have the identifier, where there is one.
fn can_be_last(qid: Option<u16>) -> bool
    ensures { result ≡ can_be_last qid }
{
    match qid {
        None => true,
        Some(qid) => qid <= HIGHEST_QID,
    }
}

/// Whether an arbiter of this mechanism can have served these queues last: round robin keeps one, the weighted mechanism
/// one of each class, each with an identifier that a queue of it has.
pub fn last_fits(mechanism: Mechanism, last: &Last) -> bool
    ensures { result ≡ last_fits mechanism last.now }
{
    let by_class = &last.by_class;
    match mechanism {
        Mechanism::RoundRobin => {
            can_be_last(last.all)
                && by_class.admin.is_none()
                && by_class.urgent.is_none()
                && by_class.high.is_none()
                && by_class.medium.is_none()
                && by_class.low.is_none()
        }
        Mechanism::Weighted => {
            last.all.is_none()
                && can_serve(Class::Admin, by_class.admin)
                && can_serve(Class::Urgent, by_class.urgent)
                && can_serve(Class::High, by_class.high)
                && can_serve(Class::Medium, by_class.medium)
                && can_serve(Class::Low, by_class.low)
        }
    }
}

// Whether so many commands of a level can be used in a round.
fn can_use(weight: u16, last: Option<u16>, used: u16) -> bool
    ensures { result ≡ can_use weight last used }
{
    used <= weight && (used == 0 || last.is_some())
}

/// Whether so much can be used in a round after such picks: of a level no more than its weight, and nothing where none
/// of its queues was served. Round robin has no rounds.
pub fn used_fits(mechanism: Mechanism, settings: &Settings, last: &Last, used: &Used) -> bool
    ensures { result ≡ used_fits mechanism settings.now last.now used.now }
{
    let by_class = &last.by_class;
    match mechanism {
        Mechanism::RoundRobin => used.high == 0 && used.medium == 0 && used.low == 0,
        Mechanism::Weighted => {
            can_use(settings.weight(Class::High), by_class.high, used.high)
                && can_use(settings.weight(Class::Medium), by_class.medium, used.medium)
                && can_use(settings.weight(Class::Low), by_class.low, used.low)
        }
    }
}

/// Each such state is that of some lawful history.
pub fn starts_have_priors()
    ensures { StartsHavePriors }
{}

/// Each state that lawful picks leave is such a state.
pub fn states_can_begin()
    ensures { StatesCanBegin }
{}
