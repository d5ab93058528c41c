//! The code of a program as a definition over its tree, and the law that it means what the program means.
#![tactic(auto)]

ghost use Rattle.compiled_code.specs.Laws.{ModuleMeansTheProgram, ModuleOpensTheSteps, RoutinesDoTheSame};
ghost use Rattle.compiled_code.specs.Rows as rows;

/// The module of a program means what the program means, where the module keeps the rules.
pub fn module_means_the_program()
    ensures { ModuleMeansTheProgram }
{}

/// It opens the steps that the program opens, with the same numbers, opening memories and answers.
pub fn module_opens_the_steps()
    ensures { ModuleOpensTheSteps }
{}

/// The routines of its blocks do what those of the program do, and leave the same fuel.
pub fn routines_do_the_same()
    ensures { RoutinesDoTheSame }
{}

/// Small programs have the code that they must.
pub fn worked_rows()
    ensures guarded { rows.GuardedCode }
    ensures leaving { rows.LeavingCode }
    ensures descending { rows.DescendingCode }
    ensures squares { rows.SquaresModule }
{}
