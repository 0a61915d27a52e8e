//! The pins of a key, and its own replication factor.
ghost use Rattle.std.specs.Prelude.{◌≡◌, ◌≤◌, true, false, not, All, IfOk, MatchOption};
ghost use Rattle.std.specs.List.{list_any};
ghost use Rattle.std.specs.Option.{option_map_or};
ghost use Rattle.script_reader.specs.Faults.{has_repeat as repeats, is_within as within};
ghost use Rattle.script_reader.specs.Said.{pins_by, factor_by};
ghost use Rattle.script_reader.specs.Words.{has_non_number, AreNumbers, texts};

use crate::words::number;
use indexmap::IndexSet;
use lattice_laws::NoMemory;
use std::alloc::Global;

/// Whether a number lies between two others, these included.
pub(crate) fn is_within(least: u64, greatest: u64, n: u64) -> bool
    ensures { result ≡ within least greatest n }
{
    least <= n && n <= greatest
}

/// The numbers that words write, where each of them writes one.
pub(crate) fn numbers(alloc: Global, words: &[&[u8]]) -> Result<Option<Vec<u64>>, NoMemory>
    ensures { IfOk result (λ numbers. MatchOption numbers
        (has_non_number (texts words.now) ≡ true)
        (λ numbers. AreNumbers (texts words.now) numbers.items)) }
{
    let mut numbers = Vec::new(alloc);
    for word in words {
        let Some(n) = number(word) else {
            return Ok(None);
        };
        numbers.push(n)?;
    }
    Ok(Some(numbers))
}

/// Whether a number stands twice. Takes linear time on average.
pub(crate) fn has_repeat(alloc: Global, numbers: &[u64]) -> Result<bool, NoMemory>
    ensures { IfOk result (λ found. found ≡ repeats numbers.now) }
{
    let mut met = IndexSet::new(alloc);
    for n in numbers {
        if !met.insert(*n)? {
            return Ok(true);
        }
    }
    Ok(false)
}

/// Whether each number is a worker's, from 1 to `workers`.
pub(crate) fn are_workers(workers: u16, numbers: &[u64]) -> bool
    ensures { result ≡ not (list_any (λ n. not (within 1 workers n)) numbers.now) }
{
    numbers.iter().all(|n| is_within(1, u64::from(workers), *n))
}

/// What the numbers of a key say: its pins, or its own replication factor.
pub(crate) fn pins_or_factor(by_factor: bool, numbers: &[u64]) -> (&[u64], Option<u64>)
    ensures pins { result.0.now ≡ pins_by by_factor numbers.now }
    ensures factor { result.1 ≡ factor_by by_factor numbers.now }
{
    if by_factor {
        (&[], numbers.first().copied())
    } else {
        (numbers, None)
    }
}

/// Whether a key may live at so many workers, where it says so itself.
pub(crate) fn is_factor(workers: u16, factor: Option<u64>) -> bool
    ensures { result ≡ not (option_map_or (λ n. not (within 1 workers n)) factor false) }
{
    match factor {
        Some(factor) => is_within(1, u64::from(workers), factor),
        None => true,
    }
}

/// The numbers as workers.
pub(crate) fn pins(alloc: Global, numbers: &[u64]) -> Result<Vec<u16>, NoMemory>
    requires { All (λ n. n ≤ 8) numbers.now }
    ensures { IfOk result (λ pins. pins.items ≡ numbers.now) }
{
    let mut pins = Vec::new(alloc);
    for n in numbers {
        pins.push(*n as u16)?;
    }
    Ok(pins)
}
