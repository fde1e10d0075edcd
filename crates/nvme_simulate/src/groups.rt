// Which curves a picture of a simulation has.
use nvme_arbiter::Class;
use nvme_latency::Ranked;
use nvme_model::Model;
use nvme_numbers::{Numbers, class_name};
use nvme_plot::LINES;
use std::alloc::{AllocError, Global};

// The classes of I/O queues, from the urgent one down.
const CLASSES: [Class; 4] = [Class::Urgent, Class::High, Class::Medium, Class::Low];

/// The style of the curve of a class, in pictures of runs and of sweeps.
pub fn style_of(class: Class) -> usize {
    match class {
        Class::Urgent => 0,
        Class::High => 1,
        Class::Medium => 2,
        Class::Low => 3,
        Class::Admin => 7,
    }
}

/// The commands of a curve.
#[derive(Clone, Copy, Debug, PartialEq, Eq)]
pub(crate) enum Group {
    /// Those of the queue of this number, from 1 on.
    Queue(usize, Class),
    /// Those of the queues of a class.
    Class(Class),
}

impl Group {
    /// Its name.
    pub(crate) fn name(&self, alloc: Global) -> Result<String, AllocError> {
        match self {
            Group::Queue(number, class) => {
                let (number, name) = (*number, class_name(*class));
                format!(in alloc; "q{number} {name}")
            }
            Group::Class(class) => String::from_str(alloc, class_name(*class)),
        }
    }

    /// The style of its curve.
    pub(crate) fn style(&self) -> usize {
        match self {
            Group::Queue(number, _) => number.saturating_sub(1),
            Group::Class(class) => style_of(*class),
        }
    }

    /// The latencies of its commands.
    pub(crate) fn ranked(&self, numbers: &Numbers) -> Result<Ranked, AllocError> {
        match self {
            Group::Queue(number, _) => numbers.of_queue(*number),
            Group::Class(class) => numbers.of_class(*class),
        }
    }
}

// The classes that have a queue.
fn classes_of(alloc: Global, model: &Model) -> Result<Vec<Group>, AllocError> {
    let mut groups = Vec::new(alloc);
    for class in CLASSES {
        if model.queues.iter().any(|queue| queue.class == class) {
            groups.push(Group::Class(class))?;
        }
    }
    Ok(groups)
}

/// The classes that have a queue. Where there is one class only, its queues, unless these are more than can be told apart.
pub(crate) fn groups_of(alloc: Global, model: &Model) -> Result<Vec<Group>, AllocError> {
    let groups = classes_of(alloc, model)?;
    let count = model.queues.len();
    if groups.len() != 1 || count < 2 || count > LINES {
        return Ok(groups);
    }
    let mut queues = Vec::new(alloc);
    let mut number = 1usize;
    for queue in &model.queues {
        queues.push(Group::Queue(number, queue.class))?;
        number = number.saturating_add(1);
    }
    Ok(queues)
}
