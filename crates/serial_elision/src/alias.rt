// Places that are given twice.
ghost use Rattle.std.specs.Prelude.{◌≡◌, ℕ, false, not, ◌&&◌, ◌==◌, Some, if◌then◌else◌, IfOk, OnOk};
ghost use Rattle.std.specs.BTreeMap.{get};
ghost use Rattle.std.specs.List.{list_any};
ghost use Rattle.std.specs.Option.{option_map_or};
ghost use Rattle.std.specs.Ordering.{nat_cmp};
ghost use Rattle.swan_model.specs.Rights.{clash, is_aliased, is_in};

use std::alloc::Global;
use std::collections::BTreeMap;
use swan_model::{Give, Mode, NoMemory};

/// So many gives are compared one with another, without memory.
const FEW_GIVES: usize = 8;

/// Whether some place stands twice among the gives, and not only to read. `O(gives log gives)`; it
/// takes no memory for 8 gives or fewer.
pub fn is_aliased(alloc: Global, gives: &[Give]) -> Result<bool, NoMemory>
    ensures { IfOk result (λ aliased. aliased ≡ is_aliased gives.now) }
{
    if gives.len() <= FEW_GIVES {
        Ok(is_aliased_of_few(gives))
    } else {
        is_aliased_of_many(alloc, gives)
    }
}

/// The same, by a comparison of each two gives. `O(gives²)`.
fn is_aliased_of_few(gives: &[Give]) -> bool
    ensures { result ≡ is_aliased gives.now }
{
    let mut rest = gives;
    while let Some((give, later)) = rest.split_first() {
        if clashes_later(give, later) {
            return true;
        }
        rest = later;
    }
    false
}

/// Whether a give clashes with a later one. `O(later)`.
fn clashes_later(give: &Give, later: &[Give]) -> bool
    ensures { result ≡ list_any (clash give.now) later.now }
{
    later.iter().any(|other| clash(give, other))
}

/// Whether two gives are of one place, and not both only to read. `O(1)`.
fn clash(first: &Give, second: &Give) -> bool
    ensures { result ≡ clash first.now second.now }
{
    first.place == second.place && !(only_reads(first.mode) && only_reads(second.mode))
}

/// Whether a mode is only to read. `O(1)`.
fn only_reads(mode: Mode) -> bool
    ensures { result ≡ is_in mode }
{
    matches!(mode, Mode::In)
}

/// The same, by what is known of each place. `O(gives log gives)`.
fn is_aliased_of_many(alloc: Global, gives: &[Give]) -> Result<bool, NoMemory>
    ensures { IfOk result (λ aliased. aliased ≡ is_aliased gives.now) }
{
    let mut only_read = BTreeMap::new(alloc);
    for give in gives {
        if clashes(&mut only_read, give)? {
            return Ok(true);
        }
    }
    Ok(false)
}

/// Whether a give clashes with an earlier one of its place, where it is known of each place whether
/// its last give only reads. The give is its place's last one then. `O(log places)`.
fn clashes(only_read: &mut BTreeMap<u32, bool>, give: &Give) -> Result<bool, NoMemory>
    ensures answer { let last = get nat_cmp only_read.old give.now.place in
        IfOk result (λ clashes. clashes ≡ option_map_or (λ earlier. not (earlier && is_in give.now.mode)) last false) }
    ensures last { OnOk result ((place : ℕ) → get nat_cmp only_read.new place
        ≡ (if give.now.place == place then Some (is_in give.now.mode) else get nat_cmp only_read.old place)) }
{
    let reads = only_reads(give.mode);
    match only_read.insert(give.place, reads)? {
        None => Ok(false),
        Some(earlier) => Ok(!(earlier && reads)),
    }
}
