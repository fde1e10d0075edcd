// Writes the text of a check's answer.
use crate::judge::Finding;
use crate::judges::{Breach, Reason};
use crate::survey::{Counts, Difference, Survey};
use crate::verdicts::{Checked, Refusal};
use nvme_arbiter::specified::Rule;
use nvme_arbiter::{Class, Kept, Mechanism, Pick, Settings};
use std::fmt;

/// Settings in words: the burst, and under the weighted mechanism the weights.
#[derive(Clone, Copy, Debug, PartialEq, Eq)]
pub struct SettingsInWords {
    /// The arbitration mechanism.
    pub mechanism: Mechanism,
    /// The settings.
    pub settings: Settings,
}

impl fmt::Display for SettingsInWords {
    fn fmt<W: fmt::Write>(&self, f: &mut fmt::Formatter<W>) -> fmt::Result {
        let settings = &self.settings;
        match settings.burst() {
            Some(burst) => write!(f, "burst {burst}")?,
            None => write!(f, "no burst limit")?,
        }
        if self.mechanism == Mechanism::RoundRobin {
            return Ok(());
        }
        let high = settings.weight(Class::High);
        let medium = settings.weight(Class::Medium);
        let low = settings.weight(Class::Low);
        write!(f, ", high {high}, medium {medium}, low {low}")
    }
}

// Writes a pick as words.
fn put_pick<W: fmt::Write>(pick: &Pick, f: &mut fmt::Formatter<W>) -> fmt::Result {
    let (qid, n) = (pick.qid, pick.n);
    let fresh = if pick.fresh { " fresh" } else { "" };
    write!(f, "q{qid} {n}{fresh}")
}

// The name of the case of arbitration that the lawful pick is.
fn case_of(mechanism: Mechanism, class: Option<Class>, lawful: Option<Pick>) -> &'static str {
    let Some(pick) = lawful else {
        return "nothing is ready";
    };
    match (mechanism, class) {
        (Mechanism::RoundRobin, _) => "round robin, the next ready queue after the latest pick",
        (Mechanism::Weighted, Some(Class::Admin)) => "case 1, the admin queue is ready",
        (Mechanism::Weighted, Some(Class::Urgent)) => "case 2, an urgent queue is ready",
        (Mechanism::Weighted, _) if pick.fresh => {
            "case 4, no ready level has credit, so a round starts"
        }
        (Mechanism::Weighted, _) => "case 3, the first level that is ready and has credit",
    }
}

// Writes a queue that was served last.
fn put_last<W: fmt::Write>(
    name: &str,
    last: Option<u16>,
    f: &mut fmt::Formatter<W>,
) -> fmt::Result {
    match last {
        Some(qid) => write!(f, "{name} q{qid}"),
        None => write!(f, "{name} none"),
    }
}

// Writes the queues that were served last.
fn put_served<W: fmt::Write>(kept: &Kept, f: &mut fmt::Formatter<W>) -> fmt::Result {
    write!(f, "\nserved last:")?;
    if kept.mechanism == Mechanism::RoundRobin {
        return put_last(" of all", kept.last.all, f);
    }
    let last = &kept.last.by_class;
    put_last(" admin", last.admin, f)?;
    put_last(", urgent", last.urgent, f)?;
    put_last(", high", last.high, f)?;
    put_last(", medium", last.medium, f)?;
    put_last(", low", last.low, f)
}

// Writes what is used in the round, beside the weights.
fn put_used<W: fmt::Write>(kept: &Kept, f: &mut fmt::Formatter<W>) -> fmt::Result {
    if kept.mechanism == Mechanism::RoundRobin {
        return Ok(());
    }
    let high = kept.settings.weight(Class::High);
    let medium = kept.settings.weight(Class::Medium);
    let low = kept.settings.weight(Class::Low);
    let used = &kept.used;
    write!(f, "\nused in the round: high {} of {high}", used.high)?;
    write!(
        f,
        ", medium {} of {medium}, low {} of {low}",
        used.medium, used.low
    )
}

// How many commands of a level may be picked, where the class of a pick is a level.
fn credit_of(kept: &Kept, class: Option<Class>, fresh: bool) -> Option<u16> {
    match (kept.mechanism, class) {
        (Mechanism::Weighted, Some(Class::High)) => Some(kept.credit(Class::High, fresh)),
        (Mechanism::Weighted, Some(Class::Medium)) => Some(kept.credit(Class::Medium, fresh)),
        (Mechanism::Weighted, Some(Class::Low)) => Some(kept.credit(Class::Low, fresh)),
        _ => None,
    }
}

// Writes a bound of a number, unless there is none.
fn put_bound<W: fmt::Write>(
    name: &str,
    bound: Option<u16>,
    f: &mut fmt::Formatter<W>,
) -> fmt::Result {
    match bound {
        Some(number) => write!(f, "{name} {number}, "),
        None => Ok(()),
    }
}

// Writes why the lawful pick takes as many commands as it does.
fn put_number<W: fmt::Write>(finding: &Finding, f: &mut fmt::Formatter<W>) -> fmt::Result {
    let (Some(pick), Some(waiting)) = (finding.lawful, finding.waiting) else {
        return Ok(());
    };
    if pick.qid == 0 {
        return write!(f, "\nnumber: n is 1, one command of the admin queue");
    }
    let kept = &finding.kept;
    write!(f, "\nnumber: n is the least of ")?;
    put_bound("burst", kept.settings.burst(), f)?;
    put_bound("credit", credit_of(kept, finding.class, pick.fresh), f)?;
    put_bound("room", finding.room, f)?;
    write!(f, "waiting {waiting}")
}

// Why a lawful pick starts a round, or starts none.
fn reason_for_fresh(mechanism: Mechanism, class: Option<Class>, fresh: bool) -> &'static str {
    match (mechanism, class) {
        (Mechanism::RoundRobin, _) => "round robin has no rounds",
        (Mechanism::Weighted, Some(Class::Admin | Class::Urgent)) => {
            "no pick of the admin queue or of an urgent one starts a round"
        }
        (Mechanism::Weighted, _) if fresh => "no ready level has credit left, so a round starts",
        (Mechanism::Weighted, _) => "the level has credit left, so the round goes on",
    }
}

// Writes whether the lawful pick starts a round, where that is the difference at all.
fn put_fresh<W: fmt::Write>(finding: &Finding, f: &mut fmt::Formatter<W>) -> fmt::Result {
    let picked = &finding.picked;
    match finding.lawful {
        Some(pick) if pick.qid == picked.qid && pick.n == picked.n => {
            let answer = if pick.fresh { "yes" } else { "no" };
            let reason = reason_for_fresh(finding.kept.mechanism, finding.class, pick.fresh);
            write!(f, "\nfresh: {answer}: {reason}")
        }
        _ => Ok(()),
    }
}

// Writes what was picked, what the lawful pick is, and why.
fn put_finding<W: fmt::Write>(finding: &Finding, f: &mut fmt::Formatter<W>) -> fmt::Result {
    let kept = &finding.kept;
    write!(f, "\npicked: ")?;
    put_pick(&finding.picked, f)?;
    write!(f, "\nexpected: ")?;
    match &finding.lawful {
        Some(pick) => put_pick(pick, f)?,
        None => write!(f, "none")?,
    }
    put_fresh(finding, f)?;
    let case = case_of(kept.mechanism, finding.class, finding.lawful);
    write!(f, "\nwhy: {case}")?;
    put_served(kept, f)?;
    put_used(kept, f)?;
    put_number(finding, f)?;
    put_settings(kept.mechanism, kept.settings, f)
}

// Writes settings in words.
fn put_settings<W: fmt::Write>(
    mechanism: Mechanism,
    settings: Settings,
    f: &mut fmt::Formatter<W>,
) -> fmt::Result {
    let words = SettingsInWords {
        mechanism,
        settings,
    };
    write!(f, "\nsettings: {words}")
}

/// The sentence of a rule.
pub fn sentence_of(rule: Rule) -> &'static str {
    match rule {
        Rule::Candidates => "a pick takes at least one command, and only such as wait in its queue",
        Rule::Burst => "a pick takes no more commands than the Arbitration Burst",
        Rule::Priority => {
            "no queue of a higher strict priority class is ready: admin, then urgent, then the weighted levels"
        }
        Rule::Credit => "no more commands of a level are picked in a round than its weight",
        Rule::Turn => {
            "no queue is picked twice while another of its class or level, or of all under round robin, is ready throughout"
        }
    }
}

// Writes the numbers that a pick of a queue may take, which are bound by what waits and by what its level has left.
fn put_range<W: fmt::Write>(
    breach: &Breach,
    waiting: u16,
    f: &mut fmt::Formatter<W>,
) -> fmt::Result {
    write!(f, "\nnumber: n is from 1 to the least of ")?;
    put_bound("burst", breach.settings.burst(), f)?;
    write!(f, "waiting {waiting}")?;
    match breach.left {
        Some(left) => write!(f, ", weight left {left}"),
        None => Ok(()),
    }
}

/// Writes a line on how many commands a pick of a queue may take. Where the queue itself is the wrong one, no number helps.
pub fn put_limits<W: fmt::Write>(breach: &Breach, f: &mut fmt::Formatter<W>) -> fmt::Result {
    let qid = breach.picked.qid;
    match (breach.rule, breach.waiting, breach.left) {
        (Rule::Priority | Rule::Turn, _, _) => Ok(()),
        (_, None, _) => write!(f, "\nnumber: nothing, since q{qid} isn't seen"),
        (_, Some(0), _) => write!(f, "\nnumber: nothing, since nothing waits in q{qid}"),
        (_, _, Some(0)) => write!(f, "\nnumber: nothing, since its level has no weight left"),
        (_, Some(waiting), _) => put_range(breach, waiting, f),
    }
}

// Writes what was picked, and the rule that it breaks.
fn put_breach<W: fmt::Write>(breach: &Breach, f: &mut fmt::Formatter<W>) -> fmt::Result {
    write!(f, "\npicked: ")?;
    put_pick(&breach.picked, f)?;
    let sentence = sentence_of(breach.rule);
    write!(f, "\nrule: {sentence}")?;
    put_limits(breach, f)?;
    put_settings(breach.mechanism, breach.settings, f)
}

// Writes a line of a trace.
fn put_line<W: fmt::Write>(line: &[u8], f: &mut fmt::Formatter<W>) -> fmt::Result {
    match std::str::from_utf8(line) {
        Ok(text) => {
            let text = text.trim();
            write!(f, "\nline: {text}")
        }
        Err(_) => Ok(()),
    }
}

impl fmt::Display for Refusal {
    fn fmt<W: fmt::Write>(&self, f: &mut fmt::Formatter<W>) -> fmt::Result {
        let line = self.line;
        match &self.reason {
            Reason::Differs(finding) => {
                write!(f, "differs: line {line}")?;
                put_finding(finding, f)?;
            }
            Reason::Breaks(breach) => {
                write!(f, "unlawful: line {line}")?;
                put_breach(breach, f)?;
            }
        }
        put_line(&self.quoted, f)
    }
}

impl fmt::Display for Difference {
    fn fmt<W: fmt::Write>(&self, f: &mut fmt::Formatter<W>) -> fmt::Result {
        let line = self.line;
        write!(f, "differs: line {line}")?;
        put_finding(&self.finding, f)?;
        put_line(&self.quoted, f)
    }
}

// Writes how many picks differ in one way, unless none does.
fn put_count<W: fmt::Write>(name: &str, count: u64, f: &mut fmt::Formatter<W>) -> fmt::Result {
    if count == 0 {
        return Ok(());
    }
    write!(f, "\n{name}: {count}")
}

// Writes how many picks differ, by kind.
fn put_counts<W: fmt::Write>(counts: &Counts, f: &mut fmt::Formatter<W>) -> fmt::Result {
    put_count("nothing is ready", counts.nothing_ready, f)?;
    put_count("another queue", counts.queue, f)?;
    put_count("another number", counts.number, f)?;
    put_count("fresh or not", counts.fresh, f)
}

impl fmt::Display for Survey {
    fn fmt<W: fmt::Write>(&self, f: &mut fmt::Formatter<W>) -> fmt::Result {
        let (differing, picks) = (self.counts.all(), self.picks);
        let plural = if picks == 1 { "" } else { "s" };
        write!(f, "differs: {differing} of {picks} pick{plural}")?;
        put_counts(&self.counts, f)?;
        for difference in &self.first {
            write!(f, "\n\n{difference}")?;
        }
        Ok(())
    }
}

impl fmt::Display for Checked {
    fn fmt<W: fmt::Write>(&self, f: &mut fmt::Formatter<W>) -> fmt::Result {
        match self {
            Checked::Lawful { picks: 1 } => f.write_str("lawful: 1 pick"),
            Checked::Lawful { picks } => write!(f, "lawful: {picks} picks"),
            Checked::Refused(refusal) => write!(f, "{refusal}"),
        }
    }
}
