//! What names mean: locals, functions, and where shared words lie.

ghost use Rattle.std.specs.Prelude.{◌≡◌, ◌≤◌, ◌+◌, OnOk, List, ℕ, Some, None, if◌then◌else◌};
ghost use Rattle.std.specs.Option.{option_copied, option_or, unwrap_or};
ghost use Rattle.std.specs.Str.{bytes_eq};
ghost use Rattle.csl_meaning.specs.Layout as layout;
ghost use Rattle.csl_meaning.specs.Locals as locals;
ghost use Rattle.csl_meaning.specs.Effect as effect;
ghost use Rattle.csl_meaning.specs.Value as value;
ghost use Rattle.statement_eval.specs.Areas.{area_among};

use cal_base::{NoMemory, Val};
use cal_terms::limits::MOST_WORDS;
use csl_meaning::{Area, Local};
use csl_tree::name::Text;
use csl_tree::program::{ArraySize, Function, Program};
use sqlite_items::Items;
use std::alloc::Global;
use std::collections::BTreeMap;
use std::marker::Model;

fn same_text(a: &Text, b: &Text) -> bool
    ensures { result ≡ bytes_eq a.now b.now }
{
    a.as_slice() == b.as_slice()
}

/// The value of a local, if there is one with this name.
pub fn local_value(all: &[Local], name: &Text) -> Option<Val>
    ensures { result ≡ locals.local_value all.now name.now }
{
    for local in all {
        if same_text(&local.name, name) {
            return Some(local.value);
        }
    }
    None
}

/// Gives a local another value.
pub fn set_local(
    alloc: Global,
    all: &mut Items<Local>,
    name: &Text,
    value: Val,
) -> Result<(), NoMemory>
    ensures { OnOk result (all.new ≡ locals.set_local all.old name.now value) }
{
    for at in 0..all.len() {
        let local = &all.as_slice()[at];
        if same_text(&local.name, name) {
            let name = Text::from_slice(alloc, local.name.as_slice())?;
            all.set(at, Local { name, value });
            return Ok(());
        }
    }
    Ok(())
}

/// The function with this name, if there is one.
fn function_named<'a>(functions: &'a [Function], name: &Text) -> Option<&'a Function>
    ensures { option_copied result ≡ effect.function_named functions.now name.now }
{
    for f in functions {
        if same_text(&f.name.text, name) {
            return Some(f);
        }
    }
    None
}

/// How many words an array has. A size below 0 counts as 0.
pub fn items_in(size: &Option<ArraySize>) -> Option<u32>
    requires { layout.word_count (layout.items_in size.now) ≤ MOST_WORDS }
    ensures { result ≡ layout.items_in size.now }
{
    match size {
        None => None,
        Some(size) => {
            if size.number < 0 {
                Some(0)
            } else {
                Some(size.number as u32)
            }
        }
    }
}

/// A program, and where its shared words lie. Contracts see it as the program.
#[derive(Drop)]
pub struct Names<'a> {
    program: &'a Program,
    areas: BTreeMap<Vec<u8>, Area>,
}

impl<'a> Model for Names<'a> {
    ghost use Rattle.std.specs.Prelude.{◌≡◌, List, ℕ};
    ghost use Rattle.statement_eval.specs.Areas.{area_among};
    ghost use Rattle.csl_tree.specs.declared.program.Program.{Program};
    ghost use Rattle.csl_tree.specs.contracts.program.Program as tree;
    ghost use Rattle.csl_meaning.specs.Layout.{area_of};

    ghost Value = { Program };

    ghost coded = { tree.the_row.coded };

    ghost view = { λ n. n.program.now };

    ghost invariant = { λ n. (name : List ℕ) → area_among n.areas name ≡ area_of n.program.now.shared name };
}

impl<'a> Names<'a> {
    ghost use Rattle.std.specs.Prelude.{◌≡◌, ◌≤◌, ◌+◌, IfOk};
    ghost use Rattle.std.specs.Option.{option_copied, unwrap_or};
    ghost use Rattle.csl_meaning.specs.Layout.{area_of};
    ghost use Rattle.csl_meaning.specs.Value.{declared};
    ghost use Rattle.csl_meaning.specs.Effect.{function_named};
    ghost use Rattle.statement_eval.specs.Fits.{FitsMemory};

    /// The names of this program, each looked up once.
    pub fn of(alloc: Global, program: &'a Program) -> Result<Names<'a>, NoMemory>
        requires { FitsMemory program.now.shared }
        ensures { IfOk result (λ names. names ≡ program.now) }
    {
        let mut areas: BTreeMap<Vec<u8>, Area> = BTreeMap::new(alloc);
        let mut first = 0u32;
        for s in program.shared.as_slice() {
            let items = items_in(&s.size);
            add_area(alloc, &mut areas, &s.name.text, Area { first, items })?;
            first += items.unwrap_or(1);
        }
        Ok(Names { program, areas })
    }

    /// The program.
    pub fn program(&self) -> &Program
        ensures { result.now ≡ self.now }
    {
        self.program
    }

    /// The words of a name that is used.
    pub fn area(&self, name: &Text) -> Area
        requires { FitsMemory self.now.shared }
        ensures area { result ≡ declared (area_of self.now.shared name.now) }
        ensures within { result.first + unwrap_or result.items 0 ≤ MOST_WORDS }
    {
        match self.areas.get(name.as_slice()) {
            Some(area) => *area,
            None => Area {
                first: 0,
                items: None,
            },
        }
    }

    /// The function with this name, if there is one.
    pub fn function(&self, name: &Text) -> Option<&Function>
        ensures { option_copied result ≡ function_named self.now.functions name.now }
    {
        function_named(self.program.functions.as_slice(), name)
    }
}

/// One more shared name with its words. One that is here already keeps its own.
fn add_area(
    alloc: Global,
    areas: &mut BTreeMap<Vec<u8>, Area>,
    name: &Text,
    area: Area,
) -> Result<(), NoMemory>
    ensures { OnOk result
        ((other : List ℕ) → area_among areas.new other ≡ option_or (area_among areas.old other)
        (if bytes_eq name.now other then Some area else None)) }
{
    if areas.get(name.as_slice()).is_some() {
        return Ok(());
    }
    let key = Vec::from_slice(alloc, name.as_slice())?;
    areas.insert(key, area)?;
    Ok(())
}

/// The address of an array's item, if the index is in its range.
pub fn item_at(area: Area, index: i64) -> Option<u32>
    requires { area.first + unwrap_or area.items 0 ≤ MOST_WORDS }
    ensures { result ≡ value.item_at area index }
{
    let items = area.items.unwrap_or(0);
    if index < 0 || index >= i64::from(items) {
        return None;
    }
    Some(area.first + index as u32)
}
