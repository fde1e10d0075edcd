// The numbers of a point over its seeds.
ghost use Rattle.std.specs.Prelude.{◌≡◌, IfOk, filter_map, get_or, None};
ghost use Rattle.nvme_points.specs.Rows.{AreRowsFor, AreRowsOver, IsOver, IsRowOver, number_in, numbers_of, class_scopes, first_scopes, member_in, classes_of, scopes_by, queue_scopes, row_in, scopes_of};

use crate::estimates::{Estimate, estimate_of};
use nvme_arbiter::Class;
use nvme_numbers::{Member, Row};
use nvme_simulate::Measured;
use std::alloc::{AllocError, Global};

/// How many numbers a row has.
pub const COUNT: usize = 7;

/// The names of these numbers.
pub const NAMES: [&str; COUNT] = [
    "iops",
    "latency_mean_ps",
    "latency_p50_ps",
    "latency_p95_ps",
    "latency_p99_ps",
    "latency_p999_ps",
    "latency_max_ps",
];

/// The index of the mean of the latencies.
pub const MEAN: usize = 1;

/// The index of the 99th percentile of the latencies.
pub const P99: usize = 4;

/// Of which commands a row tells.
#[derive(Clone, Copy, Debug, PartialEq, Eq)]
pub enum Scope {
    /// Those of the queue at this place among those of the file, from 0 on.
    Queue(usize, Class),
    /// Those of the queues of a class.
    Class(Class),
    /// All.
    All,
}

/// The numbers of the commands of a queue, a class or of all, over the seeds of a point.
#[derive(Clone, Copy, Debug, PartialEq, Eq)]
pub struct SweepRow {
    pub scope: Scope,
    /// Commands a second, and latencies in picoseconds, in the order of `NAMES`.
    pub numbers: [Estimate; COUNT],
}

/// What came of a point with one of its seeds.
#[derive(Drop)]
pub struct Run {
    pub seed: u64,
    pub measured: Measured,
}

// The numbers of a row of one run.
fn numbers_of(row: &Row) -> [Option<u128>; COUNT]
    ensures { result ≡ numbers_of row.now }
{
    let Some(spread) = row.spread else {
        return [row.iops, None, None, None, None, None, None];
    };
    [
        row.iops,
        Some(u128::from(spread.mean)),
        Some(u128::from(spread.p50)),
        Some(u128::from(spread.p95)),
        Some(u128::from(spread.p99)),
        Some(u128::from(spread.p999)),
        Some(u128::from(spread.longest)),
    ]
}

// The member of a class.
fn member_in(members: &[Member], class: Class) -> Option<Member>
    ensures { result ≡ member_in members.now class }
{
    let mut members = members.iter().copied();
    members.find(|member| member.class.number() == class.number())
}

// The row of a scope in a run.
fn row_of(run: &Measured, scope: Scope) -> Option<Row>
    ensures { result ≡ row_in run.now scope }
{
    let member = match scope {
        Scope::Queue(at, _) => run.queues.get(at).copied()?,
        Scope::Class(class) => member_in(&run.classes, class)?,
        Scope::All => return Some(run.all),
    };
    Some(member.row)
}

// The number at an index, where there is one and it is told.
fn told_at(numbers: &[Option<u128>], index: usize) -> Option<u128>
    ensures { result ≡ get_or numbers.now index None }
{
    numbers.get(index).copied().flatten()
}

// The number at an index of a scope in a run.
fn number_of(run: &Run, scope: Scope, index: usize) -> Option<u128>
    ensures { result ≡ number_in index scope run.now }
{
    let row = row_of(&run.measured, scope)?;
    told_at(&numbers_of(&row), index)
}

// The numbers at an index of a scope in runs.
fn numbers_over(
    alloc: Global,
    runs: &[Run],
    scope: Scope,
    index: usize,
) -> Result<Vec<u128>, AllocError>
    ensures { IfOk result (λ numbers. numbers.items ≡ filter_map (number_in index scope) runs.now) }
{
    runs.iter()
        .filter_map(|run| number_of(run, scope, index))
        .collect(alloc)
}

// A number of a scope over runs.
fn estimate_over(
    alloc: Global,
    runs: &[Run],
    scope: Scope,
    index: usize,
) -> Result<Estimate, AllocError>
    ensures { IfOk result (IsOver runs.now scope index) }
{
    let numbers = numbers_over(alloc, runs, scope, index)?;
    Ok(estimate_of(&numbers, runs.len()))
}

// The row of a scope over runs.
fn row_over(alloc: Global, runs: &[Run], scope: Scope) -> Result<SweepRow, AllocError>
    ensures scope { IfOk result (λ row. row.scope ≡ scope) }
    ensures numbers { IfOk result (IsRowOver runs.now scope) }
{
    Ok(SweepRow {
        scope,
        numbers: [
            estimate_over(alloc, runs, scope, 0)?,
            estimate_over(alloc, runs, scope, 1)?,
            estimate_over(alloc, runs, scope, 2)?,
            estimate_over(alloc, runs, scope, 3)?,
            estimate_over(alloc, runs, scope, 4)?,
            estimate_over(alloc, runs, scope, 5)?,
            estimate_over(alloc, runs, scope, 6)?,
        ],
    })
}

// The classes of queues.
fn classes_of(alloc: Global, queues: &[Member]) -> Result<Vec<Class>, AllocError>
    ensures { IfOk result (λ classes. classes.items ≡ classes_of queues.now) }
{
    queues.iter().map(|member| member.class).collect(alloc)
}

// The scopes of queues of these classes.
fn scopes_by(alloc: Global, classes: &[Class]) -> Result<Vec<Scope>, AllocError>
    ensures { IfOk result (λ scopes. scopes.items ≡ scopes_by classes.now) }
{
    let numbered = classes.iter().enumerate();
    numbered
        .map(|(at, class)| Scope::Queue(at, *class))
        .collect(alloc)
}

// The scopes of queues.
fn queue_scopes(alloc: Global, queues: &[Member]) -> Result<Vec<Scope>, AllocError>
    ensures { IfOk result (λ scopes. scopes.items ≡ queue_scopes queues.now) }
{
    scopes_by(alloc, &classes_of(alloc, queues)?)
}

// The scopes of classes.
fn class_scopes(alloc: Global, classes: &[Member]) -> Result<Vec<Scope>, AllocError>
    ensures { IfOk result (λ scopes. scopes.items ≡ class_scopes classes.now) }
{
    classes
        .iter()
        .map(|member| Scope::Class(member.class))
        .collect(alloc)
}

// The scopes of the first run.
fn first_scopes(alloc: Global, runs: &[Run]) -> Result<Vec<Scope>, AllocError>
    ensures { IfOk result (λ scopes. scopes.items ≡ first_scopes runs.now) }
{
    match runs.first() {
        Some(run) => scopes_of(alloc, &run.measured),
        None => Ok(Vec::new(alloc)),
    }
}

// The scopes of a run: its queues, its classes, and all.
fn scopes_of(alloc: Global, run: &Measured) -> Result<Vec<Scope>, AllocError>
    ensures { IfOk result (λ scopes. scopes.items ≡ scopes_of run.now) }
{
    let mut scopes = queue_scopes(alloc, &run.queues)?;
    scopes.extend_from_slice(&class_scopes(alloc, &run.classes)?)?;
    scopes.push(Scope::All)?;
    Ok(scopes)
}

// The rows of scopes over runs.
fn rows_for(alloc: Global, runs: &[Run], scopes: &[Scope]) -> Result<Vec<SweepRow>, AllocError>
    ensures { IfOk result (λ rows. AreRowsFor runs.now scopes.now rows.items) }
{
    let mut rows = Vec::new(alloc);
    for scope in scopes {
        rows.push(row_over(alloc, runs, *scope)?)?;
    }
    Ok(rows)
}

/// The rows of a point, over the runs of its seeds: a row for each queue, for each class that has one, and for all.
pub fn rows_of(alloc: Global, runs: &[Run]) -> Result<Vec<SweepRow>, AllocError>
    ensures { IfOk result (λ rows. AreRowsOver runs.now rows.items) }
{
    let scopes = first_scopes(alloc, runs)?;
    rows_for(alloc, runs, &scopes)
}
