//! Functions.

ghost use Rattle.std.specs.Prelude.{◌≡◌, ◌++◌, ◌&&◌, not, map, OnOk, IfOk};
ghost use Rattle.type_check.specs.Faults as faults;
ghost use Rattle.type_check.specs.Listed.{beyond, fault_if};
ghost use Rattle.type_check.specs.declared.fault.CheckKind.TheVariants.{NoReturn};
ghost use Rattle.type_check.specs.Lists.{positions, some_ends};
ghost use Rattle.type_check.specs.Noted.{noted};

use crate::body::{Body, Here};
use crate::ends::block_ends;
use crate::fault::CheckKind;
use crate::found::Found;
use crate::locals::push_locals;
use crate::names::{Declaration, Signature};
use crate::stmt::{check_block, declare_local, note_many_locals, note_taken};
use crate::table::Table;
use cal_terms::NoMemory;
use csl_tree::program::{Function, Gives, Param};
use sqlite_items::Items;
use std::alloc::Global;

/// The most parameters of a function.
const MOST_PARAMS: usize = 8;

/// What a function's name stands for.
fn signature(alloc: Global, f: &Function, touches: bool) -> Result<Declaration, NoMemory>
    ensures { IfOk result (λ d. d ≡ faults.as_declared f.now touches) }
{
    let mut params = Items::new(alloc);
    let all = f.params.as_slice();
    for q in all {
        params.push(q.ty)?;
    }
    Ok(Declaration::Function(Signature {
        params,
        gives: f.gives,
        touches,
    }))
}

/// Notes the faults of parameters, and declares them.
fn check_params(
    found: &mut Found,
    globals: &Table,
    locals: &mut Table,
    params: &[Param],
) -> Result<(), NoMemory>
    ensures found { OnOk result (found.new ≡ noted found.old (faults.param_faults (globals.now ++ locals.old) params.now)) }
    ensures names { OnOk result (globals.now ++ locals.new ≡ faults.with_params (globals.now ++ locals.old) params.now) }
{
    for q in params {
        note_taken(found, globals, locals, &q.name);
        declare_local(globals, locals, &q.name, q.ty)?;
    }
    Ok(())
}

/// Notes the first parameter after the 8th.
fn note_many_params(found: &mut Found, params: &[Param])
    ensures { found.new ≡ noted found.old (beyond faults.most_params (map (λ q. q.name.at) params.now)) }
{
    match params.get(MOST_PARAMS) {
        Some(q) => found.note(CheckKind::Limit, q.name.at),
        None => {}
    }
}

/// Appends the positions of parameters.
fn push_params(at: &mut Items<u32>, params: &[Param]) -> Result<(), NoMemory>
    ensures { OnOk result (at.new ≡ at.old ++ positions (map (λ q. q.name) params.now)) }
{
    for q in params {
        at.push(q.name.at)?;
    }
    Ok(())
}

fn gives_value(gives: Gives) -> bool
    ensures { result ≡ faults.gives_value gives }
{
    match gives {
        Gives::Nothing => false,
        Gives::Int | Gives::Bool => true,
    }
}

/// Notes a function with a result whose body does not end.
fn note_no_return(found: &mut Found, f: &Function)
    ensures { found.new ≡ noted found.old (fault_if (faults.gives_value f.now.gives && not (some_ends f.now.body)) NoReturn f.now.name.at) }
{
    if gives_value(f.gives) {
        let ended = block_ends(f.body.as_slice());
        found.note_if(!ended, CheckKind::NoReturn, f.name.at);
    }
}

/// Notes the faults inside a function whose name is among the global names, and says whether it touches a tally word.
fn check_inside(
    alloc: Global,
    found: &mut Found,
    globals: &Table,
    f: &Function,
) -> Result<bool, NoMemory>
    ensures found { OnOk result (found.new ≡ noted found.old (faults.inside_faults globals.now f.now)) }
    ensures touches { IfOk result (λ t. t ≡ faults.touches_tally globals.now f.now) }
{
    let mut locals = Table::new(alloc);
    check_params(found, globals, &mut locals, f.params.as_slice())?;
    note_many_params(found, f.params.as_slice());
    let here = Here {
        body: Body::Function(f.gives),
        looped: false,
    };
    check_block(alloc, found, here, globals, &mut locals, f.body.as_slice())?;
    let mut at = Items::new(alloc);
    push_params(&mut at, f.params.as_slice())?;
    push_locals(&mut at, f.body.as_slice())?;
    note_many_locals(found, at.as_slice());
    note_no_return(found, f);
    let touched = touches(alloc, globals, &mut locals, f)?;
    Ok(touched)
}

/// Whether a function touches a tally word: what its body would be refused for in a routine.
fn touches(
    alloc: Global,
    globals: &Table,
    locals: &mut Table,
    f: &Function,
) -> Result<bool, NoMemory>
    requires { globals.now ++ locals.old ≡ faults.with_params globals.now f.now.params }
    ensures { IfOk result (λ t. t ≡ faults.touches_tally globals.now f.now) }
{
    let mut found = Found::new();
    let here = Here {
        body: Body::Routine,
        looped: false,
    };
    check_block(alloc, &mut found, here, globals, locals, f.body.as_slice())?;
    Ok(found.tally)
}

/// Notes the faults of a function, and declares it.
pub fn check_function(
    alloc: Global,
    found: &mut Found,
    globals: &mut Table,
    f: &Function,
) -> Result<(), NoMemory>
    ensures found { OnOk result (found.new ≡ noted found.old (faults.function_faults globals.old f.now)) }
    ensures names { OnOk result (globals.new ≡ faults.with_function globals.old f.now) }
{
    let outer = globals.len();
    let taken = globals.get(&f.name).is_some();
    found.note_if(taken, CheckKind::NameTaken, f.name.at);
    let own = signature(alloc, f, false)?;
    globals.declare(&f.name, own)?;
    let touched = check_inside(alloc, found, globals, f)?;
    globals.truncate(outer);
    let known = signature(alloc, f, touched)?;
    globals.declare(&f.name, known)?;
    Ok(())
}
