// The options that would stand in place of a swept key.
ghost use Rattle.std.specs.Prelude.{◌≡◌, option_map};
ghost use Rattle.nvme_points.specs.Overridden.{end_option, option_for, overridden};

use crate::axis::Axis;
use crate::place::{COMMANDS, LOAD, SEED, TIME, WARM_UP};
use nvme_model::End;
use nvme_simulate::Overrides;

// The option that said when a simulation ends.
fn end_option(end: &End) -> &'static str
    ensures { result.now ≡ end_option end.now }
{
    match end.time {
        Some(_) => "--time",
        None => "--commands",
    }
}

// The option that stands in the place of a key, where one was given.
fn option_for(options: &Overrides, key: &str) -> Option<&'static str>
    ensures { option_map (λ o. o.now) result ≡ option_for options.now key.now }
{
    match key {
        LOAD => options.load.map(|_| "--load"),
        SEED => options.seed.map(|_| "--seed"),
        WARM_UP => options.warm_up.map(|_| "--warm-up"),
        COMMANDS | TIME => options.end.map(|end| end_option(&end)),
        _ => None,
    }
}

/// The first swept key in whose place an option would stand, behind that option.
pub fn overridden<'a>(options: &Overrides, axes: &[Axis<'a>]) -> Option<(&'static str, &'a str)>
    ensures { option_map (λ p. (p.0.now, p.1.now)) result ≡ overridden options.now axes.now }
{
    for axis in axes {
        if let Some(option) = option_for(options, axis.key) {
            return Some((option, axis.key));
        }
    }
    None
}
