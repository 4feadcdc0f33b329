// What a spawn lends to a child.
ghost use Rattle.std.specs.Prelude.{◌≡◌, IfOk, OnOk, Some, bytes_eq, length};
ghost use Rattle.std.specs.Map.{update};
ghost use Rattle.privilege_check.specs.Checking.{by_name};
ghost use Rattle.privilege_check.specs.Lending.{clashes};
ghost use Rattle.privilege_check.specs.Spawns.{is_lent_twice, lent};

use crate::declaration::Declaration;
use job_reader::Atom;
use std::alloc::Global;
use std::collections::BTreeMap;
use swan_model::{Mode, NoMemory};

/// Whether a name may not be lent by a mode, where it is lent so already.
fn clashes(mode: Mode, other: Option<Mode>) -> bool
    ensures { result ≡ clashes mode other }
{
    match other {
        None => false,
        Some(other) => mode != Mode::In || other != Mode::In,
    }
}

/// Lends a name once more, and whether that clashes with how it was lent last. `O(log names)`.
fn lend<'a>(lent: &mut BTreeMap<&'a str, Mode>, name: &'a str, mode: Mode) -> Result<bool, NoMemory>
    ensures clash { IfOk result (λ clash. clash ≡ clashes mode (by_name lent.old name.now)) }
    ensures lent { OnOk result (by_name lent.new ≡ update bytes_eq (by_name lent.old) name.now (Some mode)) }
{
    let clash = clashes(mode, lent.get(name).copied());
    lent.insert(name, mode)?;
    Ok(clash)
}

/// Whether an object or a queue is given twice, and not only to read. `O(n log n)` for n arguments, and
/// an allocation now and then.
pub fn is_lent_twice(alloc: Global, takes: &[Declaration], args: &[Atom]) -> Result<bool, NoMemory>
    requires { length args.now ≡ length takes.now }
    ensures { IfOk result (λ twice. twice ≡ is_lent_twice (lent takes.now args.now)) }
{
    let mut lent = BTreeMap::new(alloc);
    for index in (0..args.len()).rev() {
        if let (Declaration::Held(mode, _), Atom::Name(name)) = (takes[index], &args[index]) {
            if lend(&mut lent, name.as_str(), mode)? {
                return Ok(true);
            }
        }
    }
    Ok(false)
}
