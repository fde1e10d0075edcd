// Reads settings from words.
ghost use Rattle.std.specs.Prelude.{◌≡◌, ◌≤◌, ◌<◌, IfOk, option_map};
ghost use Rattle.nvme_settings.specs.Reading.{burst_in, cut, dword_in, dword_of, number_in, optional_burst, optional_weights, settings_in, weight_in, weights_in};

use thiserror::Error;

/// Why words are no settings.
#[derive(Clone, Copy, Debug, PartialEq, Eq, Error)]
pub enum SettingsFault {
    /// There is no dword, and neither a burst nor weights.
    #[error("expected a dword, or --burst and --weights")]
    Missing,
    /// There is a dword, and a burst or weights beside it.
    #[error("expected either a dword, or --burst and --weights")]
    Both,
    /// The dword is no number of 32 bits.
    #[error("bad dword: expected 0x and hexadecimal digits, or decimal digits, of 32 bits")]
    Dword,
    /// The burst is no power of two that the field has.
    #[error("bad burst: expected one of 1 2 4 8 16 32 64 none")]
    Burst,
    /// The weights aren't three numbers in their range.
    #[error("bad weights: expected HIGH:MEDIUM:LOW, each from 1 to 256, as 8:4:2")]
    Weights,
}

// The weights of the levels, as their fields have them: less 1.
#[derive(Clone, Copy)]
struct WeightFields {
    high: u32,
    medium: u32,
    low: u32,
}

// The number that these digits write, where it has at most 32 bits. A sign is no digit.
fn number(digits: &str, radix: u32) -> Option<u32>
    requires { (2 ≤ radix) × (radix ≤ 36) }
    ensures { result ≡ number_in radix digits.now }
{
    let bytes = digits.as_bytes();
    if !bytes.is_empty() && bytes[0] == b'+' {
        return None;
    }
    match u32::from_str_radix(digits, radix) {
        Ok(number) => Some(number),
        Err(_) => None,
    }
}

// The two parts of a text around the first of these characters.
fn cut(text: &str, separator: char) -> Option<(&str, &str)>
    requires { separator < 128 }
    ensures { option_map (λ parts. (parts.0.now, parts.1.now)) result ≡ cut separator text.now }
{
    text.split_once(separator)
}

// A dword in hexadecimal behind 0x, or in decimal.
fn dword(text: &str) -> Option<u32>
    ensures { result ≡ dword_in text.now }
{
    match cut(text, 'x') {
        Some(("0", digits)) => number(digits, 16),
        Some(_) => None,
        None => number(text, 10),
    }
}

// The field of a burst, of which `none` says that there is no limit.
fn burst(text: &str) -> Option<u32>
    ensures { result ≡ burst_in text.now }
{
    match text {
        "1" => Some(0),
        "2" => Some(1),
        "4" => Some(2),
        "8" => Some(3),
        "16" => Some(4),
        "32" => Some(5),
        "64" => Some(6),
        "none" => Some(7),
        _ => None,
    }
}

// The field of a weight, which is 0's based.
fn weight(text: &str) -> Option<u32>
    ensures { result ≡ weight_in text.now }
{
    match number(text, 10) {
        Some(weight) if 1 <= weight && weight <= 256 => Some(weight - 1),
        _ => None,
    }
}

// The fields of the weights of high, medium and low, with colons between them.
fn weights(text: &str) -> Option<WeightFields>
    ensures { result ≡ weights_in text.now }
{
    let (high, rest) = cut(text, ':')?;
    let (medium, low) = cut(rest, ':')?;
    let high = weight(high)?;
    let medium = weight(medium)?;
    let low = weight(low)?;
    Some(WeightFields { high, medium, low })
}

// The field of a burst, which is 1 where it is left out.
fn burst_or_1(text: Option<&str>) -> Result<u32, SettingsFault>
    ensures value { result ≡ optional_burst (option_map (λ t. t.now) text.entry) }
    ensures in_range { IfOk result (λ code. code < 8) }
{
    let Some(text) = text else {
        return Ok(0);
    };
    match burst(text) {
        Some(code) => Ok(code),
        None => Err(SettingsFault::Burst),
    }
}

// The fields of the weights, which are 1 where they are left out.
fn weights_or_1(text: Option<&str>) -> Result<WeightFields, SettingsFault>
    ensures value { result ≡ optional_weights (option_map (λ t. t.now) text.entry) }
    ensures in_range { IfOk result (λ w. (w.high < 256) × (w.medium < 256) × (w.low < 256)) }
{
    let Some(text) = text else {
        return Ok(WeightFields {
            high: 0,
            medium: 0,
            low: 0,
        });
    };
    match weights(text) {
        Some(weights) => Ok(weights),
        None => Err(SettingsFault::Weights),
    }
}

// The dword of a burst and weights, each of which may be left out.
fn dword_of(burst: Option<&str>, weights: Option<&str>) -> Result<u32, SettingsFault>
    ensures { result ≡ dword_of (optional_burst (option_map (λ t. t.now) burst.entry)) (optional_weights (option_map (λ t. t.now) weights.entry)) }
{
    let burst = burst_or_1(burst)?;
    let weights = weights_or_1(weights)?;
    Ok(burst + 0x100 * weights.low + 0x1_0000 * weights.medium + 0x100_0000 * weights.high)
}

/// Command Dword 11 of Set Features, Arbitration (01h), that words say: by itself, in hexadecimal behind `0x` or in
/// decimal, or by a burst (1, 2, 4, .. 64, or `none`) and the weights of high, medium and low, each from 1 to 256, with
/// colons between them. Where one of these two is left out, it is 1.
pub fn settings_in(
    dword: Option<&str>,
    burst: Option<&str>,
    weights: Option<&str>,
) -> Result<u32, SettingsFault>
    ensures { result ≡ settings_in (option_map (λ t. t.now) dword.entry) (option_map (λ t. t.now) burst.entry) (option_map (λ t. t.now) weights.entry) }
{
    match (dword, burst, weights) {
        (Some(text), None, None) => match self::dword(text) {
            Some(cdw11) => Ok(cdw11),
            None => Err(SettingsFault::Dword),
        },
        (Some(_), _, _) => Err(SettingsFault::Both),
        (None, None, None) => Err(SettingsFault::Missing),
        (None, burst, weights) => dword_of(burst, weights),
    }
}
