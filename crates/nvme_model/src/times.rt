// When a command came to each stage of its way.
ghost use Rattle.std.specs.Prelude.{◌≡◌, ◌≤◌, ◌-◌, None, IfSome};

/// The times of a command that is done, in picoseconds. Each is at least the one before it.
#[derive(Clone, Copy, Debug, PartialEq, Eq)]
pub struct Times {
    /// Its host had it to submit.
    pub came: u64,
    /// Its host rang the doorbell of its submission queue.
    pub submitted: u64,
    /// Arbitration picked it, and the device took it.
    pub picked: u64,
    /// It began to run on a channel.
    pub started: u64,
    /// It ended, and its host had its completion.
    pub done: u64,
    ghost submitted_later: { came ≤ submitted },
    ghost picked_later: { submitted ≤ picked },
    ghost started_later: { picked ≤ started },
    ghost done_later: { started ≤ done },
}

impl Times {
    ghost use Rattle.nvme_model.specs.Times.{InOrder};

    /// The times of a command. None where one is before the one in front of it.
    pub fn new(came: u64, submitted: u64, picked: u64, started: u64, done: u64) -> Option<Times>
        ensures value { IfSome result (λ t. (t.came ≡ came) × (t.submitted ≡ submitted) × (t.picked ≡ picked) × (t.started ≡ started) × (t.done ≡ done)) }
        ensures none { result ≡ None → InOrder came submitted picked started done → ⊥ }
    {
        if came <= submitted && submitted <= picked && picked <= started && started <= done {
            Some(Times {
                came,
                submitted,
                picked,
                started,
                done,
            })
        } else {
            None
        }
    }

    /// How long it waited in its host for a slot of the ring.
    pub fn host(&self) -> u64
        ensures { result ≡ self.now.submitted - self.now.came }
    {
        self.submitted - self.came
    }

    /// How long it waited in the ring and in the controller until it was picked.
    pub fn arbitration(&self) -> u64
        ensures { result ≡ self.now.picked - self.now.submitted }
    {
        self.picked - self.submitted
    }

    /// How long it waited in the device for a channel.
    pub fn device(&self) -> u64
        ensures { result ≡ self.now.started - self.now.picked }
    {
        self.started - self.picked
    }

    /// How long it ran.
    pub fn service(&self) -> u64
        ensures { result ≡ self.now.done - self.now.started }
    {
        self.done - self.started
    }

    /// How long all that took.
    pub fn latency(&self) -> u64
        ensures { result ≡ self.now.done - self.now.came }
    {
        self.done - self.came
    }
}
