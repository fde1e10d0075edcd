//! Gates, which are told of each execution.
ghost use Rattle.std.specs.Prelude.{◌≡◌, ℕ};

/// It is told of each execution, before and after. Contracts see a gate as a value, its view. What it waits
/// for isn't in that view.
pub trait Gate {
    /// The view after `enter`, by the view before it and the ticket.
    ghost entered: { Self → ℕ → Self };

    /// The view after `leave`, by the view before it and the ticket.
    ghost left: { Self → ℕ → Self };

    /// The execution of the job with this ticket begins.
    fn enter(&mut self, ticket: u32)
        ensures { self.new ≡ entered self.old ticket };

    /// The execution of the job with this ticket has ended.
    fn leave(&mut self, ticket: u32)
        ensures { self.new ≡ left self.old ticket };
}

/// A gate that does nothing.
#[derive(Clone, Copy, Debug, PartialEq, Eq)]
pub struct NoGate;

impl Gate for NoGate {
    ghost entered = { λ view ticket. view };

    ghost left = { λ view ticket. view };

    fn enter(&mut self, _ticket: u32) {}

    fn leave(&mut self, _ticket: u32) {}
}
