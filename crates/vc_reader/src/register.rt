//! Lists of named things, each found by its name.
ghost use Rattle.std.specs.Prelude.{◌≡◌, ℕ, List, [], ◌∷◌, ◌++◌, length, slice_get, option_map, IfOk};
ghost use Rattle.std.specs.Option.{option_copied};
ghost use Rattle.vc_reader.specs.Names.{position_of, has_name, found_of, AddsNumber};

use sqlite_items::Items;
use std::alloc::Global;
use std::collections::BTreeMap;
use std::marker::Model;
use vc_packets::Memory;

/// What has a name.
pub(crate) trait Named {
    /// The name's bytes.
    ghost name_of: { Self → List ℕ };

    fn name(&self) -> &[u8]
        ensures { result.now ≡ name_of self.now };
}

/// Named things in order. Contracts see the list of them. To find one by its name takes time logarithmic in their number.
pub(crate) struct Register<T: Named> {
    items: Items<T>,
    // by each name the number of the first that has it
    numbers: Numbers,
}

impl<T: Named + Drop> Drop for Register<T> {
    // written, so that the readers need not prove again how all that it holds is dropped
    fn drop(self) {
        let Register {
            items: _,
            numbers: _,
        } = self;
    }
}

type Numbers = BTreeMap<Vec<u8>, usize>;

/// The index, where a name that it lacks has that number.
fn numbered(alloc: Global, numbers: Numbers, name: &[u8], number: usize) -> Result<Numbers, Memory>
    ensures { IfOk result (λ after. AddsNumber numbers after name.now number) }
{
    let mut numbers = numbers;
    if !numbers.contains_key(name) {
        let key = Vec::from_slice(alloc, name)?;
        numbers.insert(key, number)?;
    }
    Ok(numbers)
}

impl<T: Named> Model for Register<T> {
    ghost use Rattle.std.specs.Prelude.{◌≡◌, ℕ, List};
    ghost use Rattle.std.specs.Coded.{coded_list};
    ghost use Rattle.vc_reader.specs.Names.{position_of, number_at};

    ghost Value = { List T };

    ghost coded = { coded_list T.code };

    ghost view = { λ r. r.items };

    ghost invariant = { λ r. (name : List ℕ) →
        number_at r.numbers name ≡ position_of T.name_of r.items name };
}

impl<T: Named + Drop> Register<T> {
    /// A register of nothing.
    pub(crate) fn new(alloc: Global) -> Register<T>
        ensures { result ≡ [] }
    {
        Register {
            items: Items::new(alloc),
            numbers: BTreeMap::new(alloc),
        }
    }

    /// How many things it has.
    pub(crate) fn len(&self) -> usize
        ensures { result ≡ length self.now }
    {
        self.items.len()
    }

    /// The thing of that number.
    pub(crate) fn get(&self, number: usize) -> Option<&T>
        ensures { option_copied result ≡ slice_get self.now number }
    {
        self.items.get(number)
    }

    /// Whether one of them has the name.
    pub(crate) fn has(&self, name: &[u8]) -> bool
        ensures { result ≡ has_name T.name_of self.now name.now }
    {
        self.numbers.contains_key(name)
    }

    /// The first that has the name, after its number.
    pub(crate) fn find(&self, name: &[u8]) -> Option<(usize, &T)>
        ensures { option_map (λ p. (p.0, p.1.now)) result ≡ found_of T.name_of self.now name.now }
    {
        let number = *self.numbers.get(name)?;
        let item = self.items.get(number)?;
        Some((number, item))
    }

    /// The register with one more thing at its end.
    pub(crate) fn with(self, alloc: Global, item: T) -> Result<Register<T>, Memory>
        ensures { IfOk result (λ r. r ≡ self ++ item ∷ []) }
    {
        let Register { mut items, numbers } = self;
        let numbers = numbered(alloc, numbers, item.name(), items.len())?;
        items.push(item)?;
        Ok(Register { items, numbers })
    }

    /// The things alone.
    pub(crate) fn into_items(self) -> Items<T>
        ensures { result ≡ self }
    {
        let Register { items, numbers: _ } = self;
        items
    }
}
