// The device.
ghost use Rattle.std.specs.Prelude.{◌≡◌, ◌≤◌, ◌<◌, Some, IfOk};
ghost use Rattle.toml.specs.View.{view, table_view};
ghost use Rattle.nvme_model.specs.declared.device.TheConstants.{MAX_DEPTH};
ghost use Rattle.nvme_channels.specs.declared.channels.TheConstants.{MAX_CHANNELS};
ghost use Rattle.nvme_model_form.specs.declared.key.Key.TheVariants as key;
ghost use Rattle.nvme_model_form.specs.Readings.{Means, seen, value_in};
ghost use Rattle.nvme_model_form.specs.Views.{placing_of, resting_of, running_of};
ghost use Rattle.nvme_model_form.specs.Devices.{device_at, size_in, striped, pool, placing_in, optional_resting, resting_by, depth_in, device_of};

use crate::error::{Fault, Kind, ModelError, Refusal, refused};
use crate::key::Key;
use crate::place::{Place, Target};
use crate::services::check_service;
use crate::tables::{DEVICE_KEYS, PAUSE_KEYS};
use crate::times::duration_at;
use crate::values::{MOST, bad, number_or, only_keys, table_of, value_at, value_in};
use nvme_channels::{MAX_CHANNELS, Placement, Stripe};
use nvme_load::Operation;
use nvme_model::{Device, MAX_DEPTH, Pauses};
use std::alloc::Global;
use toml::{Table, Value};

/// The table of the device, which a file has to have.
pub(crate) fn device_at(file: &Table) -> Result<&Table, ModelError>
    ensures { Means (seen (λ t. table_view t.now) result) (device_at (table_view file.now)) }
{
    let value = value_at(Place::Top, Key::Device, file)?;
    table_of(Place::Top, Key::Device, value)
}

/// The blocks of the namespace.
pub(crate) fn size_in(device: &Table) -> Result<u64, ModelError>
    ensures { Means result (size_in (table_view device.now)) }
{
    number_or(Place::Device, Key::Size, 0x10_0000, 1, MOST, device)
}

// Stripes on the channels one after another.
#[tactic(auto, unfolding(crate::specs::Devices::striped))]
fn striped(device: &Table) -> Result<Placement, ModelError>
    ensures { Means (seen placing_of result) (striped (table_view device.now)) }
{
    let blocks = number_or(Place::Device, Key::Stripe, 8, 1, MOST, device)?;
    match Stripe::new(blocks) {
        Ok(stripe) => Ok(Placement::Striped(stripe)),
        Err(fault) => Err(refused(Place::Device, Key::Stripe, Refusal::Stripe(fault))),
    }
}

// Any channel. A stripe has no effect then.
fn pool(device: &Table) -> Result<Placement, ModelError>
    ensures { Means (seen placing_of result) (pool (table_view device.now)) }
{
    match value_in(Key::Stripe, device) {
        Some(_) => Err(ModelError::At(Place::Device, Target::Key(Key::Stripe), Fault::NotStriped)),
        None => Ok(Placement::Pool),
    }
}

// On which channels a command may run.
fn placement_in(device: &Table) -> Result<Placement, ModelError>
    ensures { Means (seen placing_of result) (placing_in (table_view device.now)) }
{
    let Some(value) = value_in(Key::Placing, device) else {
        return pool(device);
    };
    match value.as_str() {
        Some("pool") => pool(device),
        Some("striped") => striped(device),
        _ => Err(bad(Place::Device, Key::Placing, Kind::Placing)),
    }
}

// The pauses of each channel.
#[tactic(auto, unfolding(crate::specs::Devices::resting_in))]
fn pauses_of(value: &Value) -> Result<Pauses, ModelError>
    ensures { Means (seen (λ p. resting_of (Some p)) result) (resting_by (view value.now)) }
{
    let table = table_of(Place::Device, Key::Pauses, value)?;
    only_keys(Place::Pauses, &PAUSE_KEYS, table)?;
    let every = duration_at(Place::Pauses, Key::Every, table)?;
    let length = duration_at(Place::Pauses, Key::For, table)?;
    match Pauses::new(every, length) {
        Ok(pauses) => Ok(pauses),
        Err(fault) => Err(refused(Place::Pauses, Key::For, Refusal::Pauses(fault))),
    }
}

// The pauses of each channel, if there are any.
fn pauses_in(device: &Table) -> Result<Option<Pauses>, ModelError>
    ensures { Means (seen resting_of result) (optional_resting (value_in key.Pauses (table_view device.now))) }
{
    match value_in(Key::Pauses, device) {
        Some(value) => Ok(Some(pauses_of(value)?)),
        None => Ok(None),
    }
}

// How many commands the device has at a time: by default as many as it has channels, and at most `MAX_DEPTH`.
fn depth_in(channels: u64, device: &Table) -> Result<u64, ModelError>
    requires { 0 < channels }
    ensures value { Means result (depth_in channels (table_view device.now)) }
    ensures in_range { IfOk result (λ n. (1 ≤ n) × (n ≤ MAX_DEPTH)) }
{
    let most = u64::from(MAX_DEPTH);
    let default = channels.min(most);
    number_or(Place::Device, Key::Depth, default, 1, most, device)
}

// A device of these parts.
fn device_of(
    channels: u64,
    depth: u64,
    placement: Placement,
    pauses: Option<Pauses>,
) -> Result<Device, ModelError>
    requires some { 0 < channels }
    requires at_most { channels ≤ MAX_CHANNELS }
    requires has { 0 < depth }
    requires few { depth ≤ MAX_DEPTH }
    ensures { Means (seen running_of result) (Some (record { channels = channels; depth = depth; placing = placing_of placement; resting = resting_of pauses })) }
{
    match Device::new(channels as usize, depth as u16, placement, pauses) {
        Ok(device) => Ok(device),
        Err(fault) => Err(refused(Place::Top, Key::Device, Refusal::Device(fault))),
    }
}

/// The device that a table says. Its services are looked at, and read for each queue.
#[tactic(auto, unfolding(crate::specs::Devices::device_of))]
pub(crate) fn device_in(alloc: Global, device: &Table) -> Result<Device, ModelError>
    ensures { Means (seen running_of result) (device_of (table_view device.now)) }
{
    only_keys(Place::Device, &DEVICE_KEYS, device)?;
    let most = MAX_CHANNELS as u64;
    let channels = number_or(Place::Device, Key::Channels, 1, 1, most, device)?;
    let depth = depth_in(channels, device)?;
    let placement = placement_in(device)?;
    let _size = size_in(device)?;
    check_service(alloc, Operation::Read, device)?;
    check_service(alloc, Operation::Write, device)?;
    check_service(alloc, Operation::Flush, device)?;
    let pauses = pauses_in(device)?;
    device_of(channels, depth, placement, pauses)
}
