// What of a log is looked at.
use nvme_audit::Rule;

/// Which completions of a log count.
#[derive(Clone, Copy, Debug, PartialEq, Eq)]
pub enum Completions {
    /// Those that the controller wrote, where the log tells them, and otherwise those that the host took.
    AsTold,
    /// Those that the controller wrote.
    Posts,
    /// Those that the host took.
    Reads,
}

/// Who looks at a controller.
#[derive(Clone, Copy, Debug, PartialEq, Eq)]
pub enum Observer {
    /// Who sees the memory that both share, and the doorbells.
    Bus,
    /// The driver: it knows what it submitted and took.
    Host,
}

/// What of a log is looked at.
#[derive(Clone, Copy, Debug, PartialEq, Eq)]
pub struct View {
    pub completions: Completions,
    /// Whether what isn't announced by a tail doorbell may not be fetched.
    pub tails: bool,
    /// Whether what isn't released by a head doorbell fills a completion queue.
    pub heads: bool,
    /// Whether the slots of fetches are looked at.
    pub fetch_slots: bool,
    /// Whether the slots of completions are looked at.
    pub post_slots: bool,
    /// Whether phase tags are looked at.
    pub phases: bool,
    /// Whether SQHD is looked at.
    pub sq_heads: bool,
    /// Whether picks are looked at.
    pub picks: bool,
}

impl View {
    ghost use Rattle.std.specs.Prelude.{◌≡◌};
    ghost use Rattle.nvme_audit_text.specs.Views.{whole, view_of, left_out};

    /// All that a log tells.
    pub fn whole() -> View
        ensures { result ≡ whole }
    {
        View {
            completions: Completions::AsTold,
            tails: true,
            heads: true,
            fetch_slots: true,
            post_slots: true,
            phases: true,
            sq_heads: true,
            picks: true,
        }
    }

    /// What an observer sees of it: no picks. The host doesn't see when an entry is fetched, nor from where.
    pub fn of(observer: Observer) -> View
        ensures { result ≡ view_of observer }
    {
        let whole = View::whole();
        match observer {
            Observer::Bus => View {
                completions: Completions::Posts,
                picks: false,
                ..whole
            },
            Observer::Host => View {
                completions: Completions::Reads,
                tails: false,
                fetch_slots: false,
                picks: false,
                ..whole
            },
        }
    }

    /// Looks away from what a rule reads, and no other. Nothing changes for the rules that are always judged: the
    /// others rest on them.
    pub fn leave_out(&mut self, rule: Rule)
        ensures { self.new ≡ left_out rule self.old }
    {
        match rule {
            Rule::FetchBeyondTail => self.tails = false,
            Rule::FetchSlot => self.fetch_slots = false,
            Rule::Slot => self.post_slots = false,
            Rule::Phase => self.phases = false,
            Rule::CqFull => self.heads = false,
            Rule::Sqhd => self.sq_heads = false,
            Rule::FetchClosed | Rule::PostClosed | Rule::CqWrong | Rule::Life => {}
            Rule::SqdelUnasked | Rule::AbortUnasked | Rule::AbortUntrue => {}
            Rule::StatusForeign | Rule::Features => {}
            Rule::StatusCreate | Rule::StatusDelete => {}
        }
    }
}
