//! The machine.

ghost use Rattle.std.specs.Prelude.{◌≡◌, ◌<◌, ◌≤◌, ◌∷◌, ℕ, [], length, IfOk, IsSome, Some, slice_get, slice_index_or, map, ◌+◌, ◌^◌};
ghost use Rattle.std.specs.FinMap.{empty};
ghost use Rattle.cal_base.specs.Memory.{Memory, kinds_of};
ghost use Rattle.cal_base.specs.Pages.{IsLater};
ghost use Rattle.machine_meaning.specs.Machine as machine;
ghost use Rattle.machine_meaning.specs.Runs.{main_beginning, Comes};
ghost use Rattle.machine_meaning.specs.Meaning.{module_memory, main_of, main_at, routine_outcome};
ghost use Rattle.code_verify.specs.Rules.{IsVerified};
ghost use Rattle.routine_vm.specs.Ready.{IsAtEvent};
ghost use Rattle.routine_vm.specs.States.{outcome_from};
ghost use Rattle.routine_vm.specs.Frames.{behind};
ghost use Rattle.routine_vm.specs.Events.{piece_of, AreItemsOf};
ghost use Rattle.routine_vm.specs.Held.{main_state, MayGoOn, event_at, IsTold, OpensBlocks, IsOutcome};

use crate::event::{Item, MainEvent};
use crate::frame::{Body, Frame};
use crate::go::{Stop, go};
use crate::kept::Kept;
use crate::parts::Parts;
use crate::run::{Run, spend};
use crate::site::{InMain, InRoutine};
use crate::taking::{take_items, take_widths};
use crate::waiting::Waiting;
use bytecode::{Instr, Module, PrintItem};
use cal_base::{Cause, Image, NoMemory, RoutineEnd, Words};
use code_verify::Verified;
use std::alloc::Global;
use std::marker::Model;
use std::mem;

/// Runs main of a module from event to event, and its routines. All room is taken when it is made.
#[derive(Drop)]
pub struct Machine {
    run: Run,
    // While a routine runs, main's call; else the frame for a routine's.
    apart: Frame,
    items: Parts<Item>,
    widths: Parts<u32>,
}

impl Model for Machine {
    ghost use Rattle.std.specs.Prelude.{◌≡◌, []};
    ghost use Rattle.routine_vm.specs.Held.{Held};

    ghost Value = { Held };

    ghost view = { λ s. record { call = s.run.call; fuel = s.run.fuel; items = s.items; widths = s.widths } };

    ghost invariant = { λ s. s.run.waiting ≡ [] };
}

impl Machine {
    /// A machine at main's beginning, with these units of fuel for all that main does. It takes all room that its runs ever need, for 66
    /// calls of 64 locals and 1,025 operands, and wants no memory after that.
    pub fn make(alloc: Global, code: &Verified, fuel: u32) -> Result<Machine, NoMemory>
        ensures begins { IfOk result (λ it. (memory : Memory) → main_state code.now it memory ≡ main_beginning code.now memory fuel) }
        ensures may { IfOk result (λ it. MayGoOn code.now it) }
    {
        let mut call = Frame::make(alloc)?;
        call.begin(Body::Main, &code.module().main, &[]);
        let waiting = Waiting::make(alloc)?;
        let run = Run {
            call,
            waiting,
            fuel,
        };
        let apart = Frame::make(alloc)?;
        let items = Parts::make(alloc)?;
        let widths = Parts::make(alloc)?;
        Ok(Machine {
            run,
            apart,
            items,
            widths,
        })
    }

    /// The part of this number, from 0, of the line that main shows.
    pub fn item(&self, i: u32) -> Item
        requires { i < length self.now.items }
        ensures { slice_get self.now.items i ≡ Some result }
    {
        self.items.get(i as usize)
    }

    /// The width of the block of this number, from 0, of the step that main opens.
    pub fn width(&self, i: u32) -> u32
        requires { i < length self.now.widths }
        ensures { slice_get self.now.widths i ≡ Some result }
    {
        self.widths.get(i as usize)
    }

    /// Shows a line.
    fn show(&mut self, m: &Module, line: &[PrintItem]) -> MainEvent
        requires there { IsSome (machine.pieces m.now line.now self.old.call.operands) }
        requires few { length line.now ≤ 64 }
        requires none { self.old.items ≡ [] }
        requires place { self.old.call.place + 1 < 2 ^ 32 }
        ensures event { result ≡ MainEvent.Print (length self.new.items) }
        ensures pieces { machine.pieces m.now line.now self.old.call.operands ≡ Some
            (map (piece_of m.now) self.new.items, self.new.call.operands) }
        ensures named { AreItemsOf line.now self.new.items }
        ensures call { self.new.call ≡ behind self.old.call self.new.call.operands }
        ensures fuel { self.new.fuel ≡ self.old.fuel }
    {
        take_items(m, line, &mut self.run.call.operands, &mut self.items);
        self.run.call.place += 1;
        MainEvent::Print {
            items: line.len() as u32,
        }
    }

    /// Opens a step of so many blocks.
    fn open(&mut self, first: u32, count: u32) -> MainEvent
        requires there { IsSome (machine.many_numbers count self.old.call.operands) }
        requires few { count ≤ 64 }
        requires none { self.old.widths ≡ [] }
        requires place { self.old.call.place + 1 < 2 ^ 32 }
        ensures { OpensBlocks first count self.old result self.new }
    {
        match take_widths(count, &mut self.run.call.operands, &mut self.widths) {
            None => MainEvent::Fault(Cause::BadWidth),
            Some(total) => {
                if !spend(&mut self.run.fuel) {
                    return MainEvent::Fault(Cause::FuelSpent);
                }
                self.run.call.place += 1;
                MainEvent::Par {
                    first_block: first,
                    blocks: count,
                    total,
                }
            }
        }
    }

    /// Does main's next event, at which it is.
    fn event(&mut self, m: &Module) -> MainEvent
        requires verified { IsVerified m.now }
        requires may { MayGoOn m.now self.old }
        requires at { IsAtEvent (main_state m.now self.old (module_memory m.now)) }
        requires items { self.old.items ≡ [] }
        requires widths { self.old.widths ≡ [] }
        ensures next { (memory : Memory) → machine.next m.now (main_state m.now self.old memory) ≡ Some
            (event_at m.now result self.new memory) }
        ensures told { IsTold m.now result self.new }
    {
        match m.main.instrs.get(self.run.call.place as usize) {
            Some(Instr::Print(line)) => self.show(m, line.as_slice()),
            Some(Instr::Par(first, count)) => self.open(*first, *count),
            _ => unreachable!(),
        }
    }

    /// Goes on to main's next event, on the image that main's earlier events and the steps that it opened left. It takes no memory. After
    /// `Halt` or `Fault` main is done, and this is not called again.
    pub fn run_main(&mut self, code: &Verified, image: &mut Image) -> MainEvent
        requires may { MayGoOn code.now self.old }
        requires kinds { kinds_of image.old.memory ≡ kinds_of (module_memory code.now) }
        ensures event { outcome_from code.now (main_state code.now self.old image.old.memory) ≡ Comes
            (event_at code.now result self.new image.new.memory) }
        ensures meaning { (whole steps : ℕ) → main_of code.now whole steps (main_state code.now self.old image.old.memory) ≡ main_at
            code.now whole steps (λ more later. main_of code.now whole more later)
            (Some (event_at code.now result self.new image.new.memory)) }
        ensures told { IsTold code.now result self.new }
        ensures later { IsLater image.old image.new }
    {
        self.items.clear();
        self.widths.clear();
        let m = code.module();
        match go::<Image, InMain>(m, &mut self.run, image) {
            Stop::Event => self.event(m),
            Stop::Ends => {
                self.run.waiting.clear();
                MainEvent::Halt
            }
            Stop::Traps(cause) => {
                self.run.waiting.clear();
                MainEvent::Fault(cause)
            }
        }
    }

    /// Runs a routine of a block to its end, and leaves what it wrote in the words. The routine's number is from 0 and below its width, and
    /// the units of fuel are its own. It takes no memory, and main's state is kept.
    pub fn run_routine<M: Words>(
        &mut self,
        code: &Verified,
        block: u32,
        width: u32,
        id: u32,
        fuel: u32,
        mem: &mut M,
    ) -> RoutineEnd
        requires block { block < length code.now.blocks }
        requires id { id < width }
        requires kinds { kinds_of (M.opening mem.old) ≡ kinds_of (module_memory code.now) }
        requires written { M.written mem.old ≡ empty }
        ensures outcome { IsOutcome (routine_outcome code.now (slice_index_or code.now.blocks block code.now.main) width id
            (M.opening mem.old) fuel) result (M.written mem.new) }
        ensures opening { M.opening mem.new ≡ M.opening mem.old }
        ensures keeps { M.keeps mem.old mem.new }
        ensures main { self.new ≡ self.old }
    {
        let m = code.module();
        mem::swap(&mut self.run.call, &mut self.apart);
        let main_fuel = mem::replace(&mut self.run.fuel, fuel);
        let given = [Kept::int(i64::from(width)), Kept::int(i64::from(id))];
        self.run.call.begin(
            Body::Block(block),
            &m.blocks.as_slice()[block as usize],
            &given,
        );
        let end = match go::<M, InRoutine>(m, &mut self.run, mem) {
            Stop::Ends => RoutineEnd::Ended,
            Stop::Traps(cause) => RoutineEnd::Fault(cause),
            Stop::Event => unreachable!(),
        };
        self.run.waiting.clear();
        self.run.fuel = main_fuel;
        mem::swap(&mut self.run.call, &mut self.apart);
        end
    }
}
