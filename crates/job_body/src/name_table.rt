// Names in order.
ghost use Rattle.std.specs.Prelude.{◌≡◌, ◌∷◌, ◌++◌, ◌<◌, ◌≤◌, [], length, ℕ, List, IfOk, IfSome, OnErr, OnOk};
ghost use Rattle.job_body.specs.Names.{slot, with_name_at};
ghost use Rattle.std.specs.BTreeMap.{get_by_text};

use std::alloc::Global;
use std::collections::BTreeMap;
use std::marker::Model;
use std::mem;
use swan_model::{NoMemory, Word, Words};

/// The largest number of names of a table, far more than a job has lines. So no job reaches it, and three tables have
/// fewer than 2^32 names together.
pub const NAMES_MOST: u32 = 1_000_000_000;

/// Names in the order in which they were added, and the first place of each. Contracts see it as the
/// list of the names.
#[derive(Drop)]
pub struct NameTable {
    names: Words,
    places: BTreeMap<String, u32>,
}

impl Model for NameTable {
    ghost use Rattle.std.specs.Prelude.{List, ℕ};
    ghost use Rattle.job_body.specs.Names.{IsNameTable};

    ghost Value = { List (List ℕ) };

    ghost view = { λ table. table.names };

    ghost invariant = { λ table. IsNameTable table.names table.places };
}

// The places where a name has this place, unless it has one.
fn places_with(
    alloc: Global,
    mut places: BTreeMap<String, u32>,
    name: &str,
    place: u32,
) -> Result<BTreeMap<String, u32>, NoMemory>
    ensures { IfOk result (λ all. (other : List ℕ) → get_by_text all other ≡ with_name_at (get_by_text places) name.now place other) }
{
    if places.contains_key(name) {
        return Ok(places);
    }
    let key = String::from_str(alloc, name)?;
    places.insert(key, place)?;
    Ok(places)
}

impl NameTable {
    /// No names. It takes no memory. `O(1)`.
    pub fn new(alloc: Global) -> NameTable
        ensures { result ≡ [] }
    {
        NameTable {
            names: Words::new(alloc),
            places: BTreeMap::new(alloc),
        }
    }

    /// How many names there are. `O(1)`.
    pub fn len(&self) -> u32
        ensures len { result ≡ length self.now }
        ensures most { result ≤ NAMES_MOST }
    {
        self.names.len() as u32
    }

    /// The first place at which a name stands. `O(log names)`.
    pub fn place(&self, name: &Word) -> Option<u32>
        ensures place { result ≡ slot self.now name.now }
        ensures few { IfSome result (λ place. place < NAMES_MOST) }
    {
        self.places.get(name.as_str()).copied()
    }

    /// The table with one more name after the others.
    fn with(self, alloc: Global, name: &Word) -> Result<NameTable, NoMemory>
        requires { length self < NAMES_MOST }
        ensures { IfOk result (λ table. table ≡ self ++ name.now ∷ []) }
    {
        let NameTable { mut names, places } = self;
        let place = names.len();
        let text = name.as_str();
        let places = places_with(alloc, places, text, place as u32)?;
        if names.push(Word::of(alloc, text)?).is_err() {
            return Err(NoMemory);
        }
        Ok(NameTable { names, places })
    }

    /// Adds a name after the others. An Err is want of memory, and leaves no name. `O(log names)`, and a few allocations.
    pub fn add(&mut self, alloc: Global, name: &Word) -> Result<(), NoMemory>
        requires { length self.old < NAMES_MOST }
        ensures ok { OnOk result (self.new ≡ self.old ++ name.now ∷ []) }
        ensures err { OnErr result (self.new ≡ []) }
    {
        let before = mem::replace(self, NameTable::new(alloc));
        *self = before.with(alloc, name)?;
        Ok(())
    }
}
