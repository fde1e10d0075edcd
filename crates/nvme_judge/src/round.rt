// What is used of the levels in a round.
ghost use Rattle.std.specs.Prelude.{◌≡◌, ◌+◌, ◌≤◌, ◌<◌, ◌&&◌, not, MatchOption};
ghost use Rattle.std.specs.List.{list_any};
ghost use Rattle.nvme_arbiter.specs.Observation.{class_in};
ghost use Rattle.nvme_arbiter.specs.Specified.{is_of_level, has_credit, starts_round};
ghost use Rattle.nvme_arbiter.specs.Standing.{used_before, used_with};
ghost use Rattle.nvme_arbiter.specs.Settings.{weight_of, IsLevel};
ghost use Rattle.nvme_judge.specs.Standing.{left_of};
ghost use Rattle.nvme_judge.specs.inside.Steps.{taken_of, IsWithinWeights};

use nvme_arbiter::{Class, Pick, Seen, Settings, Used, class_in};

/// The settings, and the commands of each level that were picked in the round.
#[derive(Clone, Copy)]
pub struct Round {
    pub settings: Settings,
    pub used: Used,
}

// Whether a class is a level.
fn is_level(class: Option<Class>) -> bool
    ensures { result ≡ is_of_level class }
{
    matches!(class, Some(Class::High | Class::Medium | Class::Low))
}

// How many commands a pick of a class takes of a level.
fn taken_of(level: Class, class: Option<Class>, n: u16) -> u16
    ensures { result ≡ taken_of level class n }
{
    if class == Some(level) { n } else { 0 }
}

// What is used of a level with some commands more. `None` where that is more than its weight.
fn used_of_level(settings: &Settings, level: Class, used: u16, more: u16) -> Option<u16>
    requires { IsLevel level }
    ensures { MatchOption result (weight_of settings.now level < used + more) (λ n. (n ≡ used + more) × (n ≤ weight_of settings.now level)) }
{
    let weight = settings.weight(level);
    let used = used.checked_add(more)?;
    if used <= weight { Some(used) } else { None }
}

// What is used with the commands of a pick. `None` where that is more of a level than its weight.
fn used_with(settings: &Settings, used: Used, class: Option<Class>, n: u16) -> Option<Used>
    ensures { MatchOption result (IsWithinWeights settings.now (used_with used class n) → ⊥) (λ after. (after ≡ used_with used class n) × IsWithinWeights settings.now after) }
{
    let high = used_of_level(
        settings,
        Class::High,
        used.high,
        taken_of(Class::High, class, n),
    )?;
    let medium = used_of_level(
        settings,
        Class::Medium,
        used.medium,
        taken_of(Class::Medium, class, n),
    )?;
    let low = used_of_level(
        settings,
        Class::Low,
        used.low,
        taken_of(Class::Low, class, n),
    )?;
    Some(Used { high, medium, low })
}

impl Round {
    ghost use Rattle.nvme_arbiter.specs.Standing.{nothing_used};
    ghost use Rattle.nvme_judge.specs.inside.Steps.{used_after};

    /// A round in which nothing was picked yet.
    pub fn new(settings: Settings) -> Round
        ensures settings { result.settings ≡ settings }
        ensures used { result.used ≡ nothing_used }
    {
        Round {
            settings,
            used: Used {
                high: 0,
                medium: 0,
                low: 0,
            },
        }
    }

    // Whether a queue is ready and of a level that has credit left.
    fn has_credit(&self, queue: &Seen) -> bool
        ensures { result ≡ has_credit self.now.settings self.now.used queue.now }
    {
        queue.count > 0
            && match queue.class {
                Class::Admin | Class::Urgent => false,
                Class::High => self.used.high < self.settings.weight(Class::High),
                Class::Medium => self.used.medium < self.settings.weight(Class::Medium),
                Class::Low => self.used.low < self.settings.weight(Class::Low),
            }
    }

    // Whether some queue is ready and of a level that has credit left.
    fn some_has_credit(&self, seen: &[Seen]) -> bool
        ensures { result ≡ list_any (has_credit self.now.settings self.now.used) seen.now }
    {
        for queue in seen {
            if self.has_credit(queue) {
                return true;
            }
        }
        false
    }

    // What is used before a pick: nothing where it starts a round.
    fn used_before(&self, seen: &[Seen], class: Option<Class>) -> Used
        ensures { result ≡ used_before (is_of_level class && not (list_any (has_credit self.now.settings self.now.used) seen.now)) self.now.used }
    {
        if is_level(class) && !self.some_has_credit(seen) {
            Round::new(self.settings).used
        } else {
            self.used
        }
    }

    /// How many commands of the level of a pick are left in its round. `None` for a pick of no level.
    pub fn left(&self, seen: &[Seen], pick: &Pick) -> Option<u16>
        ensures { result ≡ left_of self.now.settings (used_before (starts_round self.now.settings self.now.used seen.now pick.now) self.now.used) (class_in seen.now pick.now.qid) }
    {
        let class = class_in(seen, pick.qid);
        let used = self.used_before(seen, class);
        match class {
            None | Some(Class::Admin | Class::Urgent) => None,
            Some(Class::High) => Some(self.settings.weight(Class::High).saturating_sub(used.high)),
            Some(Class::Medium) => Some(
                self.settings
                    .weight(Class::Medium)
                    .saturating_sub(used.medium),
            ),
            Some(Class::Low) => Some(self.settings.weight(Class::Low).saturating_sub(used.low)),
        }
    }

    /// What is used after a pick. `None` where that is more of a level than its weight.
    pub fn used_after(&self, seen: &[Seen], pick: &Pick) -> Option<Used>
        ensures { MatchOption result (IsWithinWeights self.now.settings (used_after self.now.settings self.now.used seen.now pick.now) → ⊥) (λ used. (used ≡ used_after self.now.settings self.now.used seen.now pick.now) × IsWithinWeights self.now.settings used) }
    {
        let class = class_in(seen, pick.qid);
        let used = self.used_before(seen, class);
        used_with(&self.settings, used, class, pick.n)
    }
}
