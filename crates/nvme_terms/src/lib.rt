//! The terms of texts: names of classes and mechanisms, settings in words, and counts of things.
#![tactic(auto)]

mod counts;
mod names;
mod settings;

pub use counts::{Counted, count_of, plural};
pub use names::{CLASSES, class_name, mechanism_name};
pub use settings::{PickingWords, SettingsInWords};
