//! What the names of a program stand for in its code.

ghost use Rattle.std.specs.Prelude.{◌≡◌, ◌+◌, IfOk, OnOk, List, ℕ, Some, None, if◌then◌else◌};
ghost use Rattle.std.specs.Option.{option_or};
ghost use Rattle.std.specs.Str.{bytes_eq};
ghost use Rattle.type_check.specs.Places.{place_among};
ghost use Rattle.csl_meaning.specs.Layout as layout;
ghost use Rattle.compiled_code.specs.Values.{function_number};
ghost use Rattle.expression_code.specs.Areas.{area_among, number_among};
ghost use Rattle.expression_code.specs.Counts.{IsSmall, words_in_all};

use crate::writer::{length_of, sum};
use cal_terms::NoMemory;
use csl_meaning::Area;
use csl_tree::name::Text;
use csl_tree::program::{ArraySize, Function, Gives, Program, Shared};
use std::alloc::Global;
use std::collections::BTreeMap;
use std::marker::Model;

/// A program, where its shared words lie, and how many functions stand before each. Contracts see it as the program.
#[derive(Drop)]
pub struct Names<'a> {
    program: &'a Program,
    areas: BTreeMap<Vec<u8>, Area>,
    functions: BTreeMap<Vec<u8>, usize>,
}

impl<'a> Model for Names<'a> {
    ghost use Rattle.std.specs.Prelude.{◌≡◌, List, ℕ, length};
    ghost use Rattle.expression_code.specs.Areas.{area_among, number_among};
    ghost use Rattle.expression_code.specs.Counts.{IsSmall};
    ghost use Rattle.csl_tree.specs.declared.program.Program.{Program};
    ghost use Rattle.csl_tree.specs.contracts.program.Program as tree;
    ghost use Rattle.csl_meaning.specs.Layout.{area_of};
    ghost use Rattle.compiled_code.specs.Values.{function_number};

    ghost Value = { Program };

    ghost coded = { tree.the_row.coded };

    ghost view = { λ n. n.program.now };

    ghost invariant = { λ n. record {
      areas : (name : List ℕ) → area_among n.areas name ≡ area_of n.program.now.shared name;
      functions : (name : List ℕ) → number_among n.functions n.program.now.functions name ≡ function_number n.program.now.functions name;
      few : IsSmall (length n.program.now.functions);
    } };
}

impl<'a> Names<'a> {
    ghost use Rattle.std.specs.Prelude.{◌≡◌, IfOk, length};
    ghost use Rattle.csl_meaning.specs.Layout.{area_of};
    ghost use Rattle.csl_meaning.specs.Value.{declared};
    ghost use Rattle.csl_meaning.specs.Effect.{function_named};
    ghost use Rattle.compiled_code.specs.Sizes.{given_by};
    ghost use Rattle.compiled_code.specs.Values.{function_number};
    ghost use Rattle.expression_code.specs.Counts.{IsSmall, words_in_all};

    /// The names of this program, whose words and functions are fewer than 2^32.
    pub fn of(alloc: Global, program: &'a Program) -> Result<Names<'a>, NoMemory>
        requires words { IsSmall (words_in_all program.now.shared) }
        requires functions { IsSmall (length program.now.functions) }
        ensures { IfOk result (λ n. n ≡ program.now) }
    {
        let areas = areas_of(alloc, program.shared.as_slice())?;
        let functions = numbers_of(alloc, program.functions.as_slice())?;
        Ok(Names {
            program,
            areas,
            functions,
        })
    }

    /// The program.
    pub fn program(&self) -> &Program
        ensures { result.now ≡ self.now }
    {
        self.program
    }

    /// The words of a shared name that is used.
    pub fn area(&self, name: &Text) -> Area
        ensures { result ≡ declared (area_of self.now.shared name.now) }
    {
        match self.areas.get(name.as_slice()) {
            Some(area) => *area,
            None => Area {
                first: 0,
                items: None,
            },
        }
    }

    /// How many functions stand before the one with this name.
    fn place(&self, name: &Text) -> usize
        ensures number { result ≡ function_number self.now.functions name.now }
        ensures few { IsSmall result }
    {
        match self.functions.get(name.as_slice()) {
            Some(place) => *place,
            None => self.program.functions.as_slice().len(),
        }
    }

    /// How many functions stand before the one with this name.
    pub fn function_number(&self, name: &Text) -> u32
        ensures { result ≡ function_number self.now.functions name.now }
    {
        length_of(self.place(name))
    }

    /// What the function with this name gives back.
    pub fn gives(&self, name: &Text) -> Gives
        ensures { result ≡ given_by (function_named self.now.functions name.now) }
    {
        match self.program.functions.get(self.place(name)) {
            Some(f) => f.gives,
            None => Gives::Nothing,
        }
    }
}

/// Where the words of each shared name lie.
fn areas_of(alloc: Global, shared: &[Shared]) -> Result<BTreeMap<Vec<u8>, Area>, NoMemory>
    requires { IsSmall (words_in_all shared.now) }
    ensures { IfOk result (λ areas. (name : List ℕ) → area_among areas name ≡ layout.area_of shared.now name) }
{
    let mut areas: BTreeMap<Vec<u8>, Area> = BTreeMap::new(alloc);
    let mut first = 0u32;
    for s in shared {
        let items = items_in(&s.size);
        add_area(alloc, &mut areas, &s.name.text, Area { first, items })?;
        first = sum(first, items.unwrap_or(1));
    }
    Ok(areas)
}

/// One more shared name with its words. One that is here already keeps its own.
fn add_area(
    alloc: Global,
    areas: &mut BTreeMap<Vec<u8>, Area>,
    name: &Text,
    area: Area,
) -> Result<(), NoMemory>
    ensures { OnOk result ((other : List ℕ) → area_among areas.new other ≡ option_or (area_among areas.old other)
        (if bytes_eq name.now other then Some area else None)) }
{
    if areas.get(name.as_slice()).is_some() {
        return Ok(());
    }
    let key = Vec::from_slice(alloc, name.as_slice())?;
    areas.insert(key, area)?;
    Ok(())
}

/// How many functions stand before each.
fn numbers_of(alloc: Global, functions: &[Function]) -> Result<BTreeMap<Vec<u8>, usize>, NoMemory>
    ensures { IfOk result (λ numbers. (name : List ℕ) → number_among numbers functions.now name ≡ function_number functions.now name) }
{
    let mut numbers: BTreeMap<Vec<u8>, usize> = BTreeMap::new(alloc);
    for (i, f) in functions.iter().enumerate() {
        add_number(alloc, &mut numbers, &f.name.text, i)?;
    }
    Ok(numbers)
}

/// One more function with its number. One that is here already keeps its own.
fn add_number(
    alloc: Global,
    numbers: &mut BTreeMap<Vec<u8>, usize>,
    name: &Text,
    number: usize,
) -> Result<(), NoMemory>
    ensures { OnOk result ((other : List ℕ) → place_among numbers.new other ≡ option_or (place_among numbers.old other)
        (if bytes_eq name.now other then Some number else None)) }
{
    if numbers.get(name.as_slice()).is_some() {
        return Ok(());
    }
    let key = Vec::from_slice(alloc, name.as_slice())?;
    numbers.insert(key, number)?;
    Ok(())
}

/// How many words an array has.
pub fn items_in(size: &Option<ArraySize>) -> Option<u32>
    requires { IsSmall (layout.word_count (layout.items_in size.now)) }
    ensures { result ≡ layout.items_in size.now }
{
    match size {
        None => None,
        Some(size) => Some(natural(size.number)),
    }
}

/// A number that is not negative, and else 0.
fn natural(number: i64) -> u32
    requires { IsSmall (layout.natural number) }
    ensures { result ≡ layout.natural number }
{
    if number < 0 { 0 } else { number as u32 }
}
