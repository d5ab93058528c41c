//! Fuel, and the words of main and of a routine.

ghost use Rattle.std.specs.Prelude.{◌≡◌, ◌≤◌, ◌+◌, length, OnOk};
ghost use Rattle.cal_base.specs.Memory as memory_of;
ghost use Rattle.cal_base.specs.Stores as stores;
ghost use Rattle.csl_meaning.specs.Runs as spec;
ghost use Rattle.statement_eval.specs.Follows.{Follows, opening_of, stays};
ghost use Rattle.statement_eval.specs.Sums.{Sums};

use crate::halt::Halt;
use cal_base::{Cause, NoMemory, Store, Word, WordKind};
use csl_meaning::World;
use sqlite_items::Items;

/// Takes one unit of fuel.
pub fn take_unit(world: &mut World) -> Result<(), Halt>
    ensures follows { Follows (spec.take_unit world.old) result world.new }
    ensures fuel { OnOk result (world.new.fuel + 1 ≡ world.old.fuel) }
    ensures kept { world.new.fuel ≤ world.old.fuel }
    ensures stays { stays world.new ≡ stays world.old }
{
    if world.fuel == 0 {
        return Err(Halt::Cause(Cause::FuelSpent));
    }
    world.fuel -= 1;
    Ok(())
}

/// The value of a word, and 0 where there is none.
pub fn value_at(memory: &[Word], address: u32) -> i64
    ensures { result ≡ memory_of.value_at memory.now address }
{
    match memory.get(address as usize) {
        Some(word) => word.value,
        None => 0,
    }
}

/// The kind of a word; a word that is not there is ordinary.
pub fn kind_at(memory: &[Word], address: u32) -> WordKind
    ensures { result ≡ memory_of.kind_at memory.now address }
{
    match memory.get(address as usize) {
        Some(word) => word.kind,
        None => WordKind::Ordinary,
    }
}

/// Gives a word another value.
pub fn set_value(memory: &mut Items<Word>, address: u32, value: i64)
    ensures { memory.new ≡ memory_of.with_value memory.old address value }
{
    let kind = match memory.get(address as usize) {
        None => return,
        Some(word) => word.kind,
    };
    memory.set(address as usize, Word { kind, value });
}

/// What a word reads as.
pub fn read_word(store: &Store, address: u32) -> i64
    ensures { result ≡ stores.read_word store.now address }
{
    match store {
        Store::Main(memory) => value_at(memory.as_slice(), address),
        Store::Routine(opening, written) => match written.get(address) {
            Some(value) => value,
            None => value_at(opening.as_slice(), address),
        },
    }
}

/// Writes a word.
fn write_word(store: &mut Store, address: u32, value: i64) -> Result<(), NoMemory>
    ensures written { OnOk result (store.new ≡ stores.write_word store.old address value) }
    ensures opening { opening_of store.new ≡ opening_of store.old }
    ensures words { length (stores.memory_in store.new) ≡ length (stores.memory_in store.old) }
{
    match store {
        Store::Main(memory) => {
            set_value(memory, address, value);
            Ok(())
        }
        Store::Routine(_, written) => written.put(address, value),
    }
}

/// What an adding starts from: the word as it reads, or a routine's running sum of a tally word.
fn base_of(store: &Store, address: u32) -> i64
    ensures { result ≡ stores.base_of store.now address }
{
    match store {
        Store::Main(memory) => value_at(memory.as_slice(), address),
        Store::Routine(opening, written) => match written.get(address) {
            Some(value) => value,
            None => match kind_at(opening.as_slice(), address) {
                WordKind::Ordinary => value_at(opening.as_slice(), address),
                WordKind::Tally => 0,
            },
        },
    }
}

/// Adds to a word.
fn add_word(store: &mut Store, address: u32, value: i64) -> Result<(), Halt>
    ensures sums { Sums (stores.add_word store.old address value) store.old result store.new }
    ensures opening { opening_of store.new ≡ opening_of store.old }
    ensures words { length (stores.memory_in store.new) ≡ length (stores.memory_in store.old) }
{
    match base_of(store, address).checked_add(value) {
        None => Err(Halt::Cause(Cause::Overflow)),
        Some(sum) => {
            write_word(store, address, sum)?;
            Ok(())
        }
    }
}

/// Writes a word.
pub fn put_word(world: &mut World, address: u32, value: i64) -> Result<(), Halt>
    ensures follows { Follows (spec.put_word address value world.old) result world.new }
    ensures fuel { world.new.fuel ≤ world.old.fuel }
    ensures stays { stays world.new ≡ stays world.old }
{
    write_word(&mut world.store, address, value)?;
    Ok(())
}

/// Adds to a word.
pub fn raise_word(world: &mut World, address: u32, value: i64) -> Result<(), Halt>
    ensures follows { Follows (spec.raise_word address value world.old) result world.new }
    ensures fuel { world.new.fuel ≤ world.old.fuel }
    ensures stays { stays world.new ≡ stays world.old }
{
    add_word(&mut world.store, address, value)
}
