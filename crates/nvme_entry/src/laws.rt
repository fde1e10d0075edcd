//! Laws and worked examples, over the definitions alone. Each function does nothing: its contract is the law.
ghost use Rattle.std.specs.Prelude.{◌≡◌, List, ℕ};
ghost use Rattle.nvme_entry.specs.Bits.{AreBytes};
ghost use Rattle.nvme_entry.specs.Submission.{IsSubmissionEntry};
ghost use Rattle.nvme_entry.specs.Completion.{IsCompletionEntry};
ghost use Rattle.nvme_entry.specs.Examples.{submission_bytes, submission, completion_bytes, completion, AreRead, admin_commands, AreAnswered, two_namespaces, flushes, checks_in_order, ends_looked_at};
ghost use Rattle.nvme_entry.specs.declared.submission.Sqe.{Sqe};
ghost use Rattle.nvme_entry.specs.declared.completion.Cqe.{Cqe};

/// Bytes hold at most one submission entry, and a submission entry is held by at most one list of
/// bytes: so `Sqe::from_bytes` and `Sqe::to_bytes`, which both give the layout, undo each other.
pub fn submission_layout_is_exact()
    ensures one_entry { (bytes : List ℕ) (a b : Sqe) → IsSubmissionEntry bytes a → IsSubmissionEntry bytes b → a ≡ b }
    ensures one_list { (xs ys : List ℕ) (entry : Sqe) → AreBytes xs → AreBytes ys → IsSubmissionEntry xs entry → IsSubmissionEntry ys entry → xs ≡ ys }
{}

/// The same of completion entries, `Cqe::from_bytes` and `Cqe::to_bytes`.
pub fn completion_layout_is_exact()
    ensures one_entry { (bytes : List ℕ) (a b : Cqe) → IsCompletionEntry bytes a → IsCompletionEntry bytes b → a ≡ b }
    ensures one_list { (xs ys : List ℕ) (entry : Cqe) → AreBytes xs → AreBytes ys → IsCompletionEntry xs entry → IsCompletionEntry ys entry → xs ≡ ys }
{}

/// Worked: bytes, and the entries that they hold.
pub fn worked_layouts()
    ensures submission { IsSubmissionEntry submission_bytes submission }
    ensures completion { IsCompletionEntry completion_bytes completion }
{}

/// Worked: the fields of admin commands.
pub fn worked_admin_commands()
    ensures { AreRead admin_commands }
{}

/// Worked: I/O commands over two namespaces.
pub fn worked_outcomes()
    ensures flushes { AreAnswered two_namespaces flushes }
    ensures order { AreAnswered two_namespaces checks_in_order }
    ensures ends { AreAnswered two_namespaces ends_looked_at }
{}
