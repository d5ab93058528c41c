//! The laws of parallel steps. Each is the contract of a function that does nothing.
#![tactic(auto)]

ghost use Rattle.step_laws.specs.Laws.{
  PrefixesAreLegal,
  DeliveredGrows,
  WantedShrinks,
  MergedIsMeant,
  LowerAnswersAgree,
  NoSecondFirst,
  EachFirstOnce,
  ClaimsAreBounded,
  ClaimsAreRight,
  CallerDeliversFirst,
  OneWriterEach,
};
ghost use Rattle.step_laws.specs.Caller.{CallerCompletes};
ghost use Rattle.step_laws.specs.Leaves.{TotalsAreLaid, FaultyIsTested, AfterIsRight};
ghost use Rattle.cal_base.specs.Pages.{LaterIsTransitive, WritesAreLater};
ghost use Rattle.step_laws.specs.Rows.{
  DivisionCuts,
  LeastByMinusOne,
  ZeroDivisor,
  ReadsItsWrites,
  SumBeginsAtZero,
  AddsToWhatItReads,
  SumOverflows,
  WordsOfTheirOwn,
  TwoWriters,
  TwoEqualWriters,
  ThreeWriters,
  LeastSharedWord,
  LeastTrap,
  FailedWroteNothing,
  ConflictBelowTrap,
  SumOfNumbers,
  TotalOutside,
  LeastTotal,
  TotalInside,
  Claim35,
  Claim36,
  CallerStillClaims,
  ClaimsGoRound,
  NothingLeft,
  UnaskedIsNoDelivery,
  OlderIsStale,
  Arrival102,
  Arrival103,
  DeliveredTwice,
  DeliveredLate,
  FaultArrivesFirst,
  ConflictInAnyOrder,
  OneStep,
  SecondStepFails,
  StepsAreShown,
  LinesAlone,
  FaultLines,
};

/// What comes first in a legal history is legal. Along it more is delivered and less is wanted.
pub fn prefixes_of_a_history()
    ensures legal { PrefixesAreLegal }
    ensures delivered { DeliveredGrows }
    ensures wanted { WantedShrinks }
{}

/// Whatever was lost, repeated or late: a legal history that is complete leaves what all answers leave.
pub fn merge_of_a_complete_history()
    ensures merged { MergedIsMeant }
    ensures lower_answers { LowerAnswersAgree }
{}

/// Each answer that counts is merged exactly once.
pub fn first_deliveries()
    ensures no_second { NoSecondFirst }
    ensures each_once { EachFirstOnce }
{}

/// A legal history ends.
pub fn number_of_claims()
    ensures { ClaimsAreBounded }
{}

/// The answers to claims are those of the rule in words, and the caller can end each step.
pub fn answers_to_claims()
    ensures right { ClaimsAreRight }
    ensures caller { CallerDeliversFirst }
{}

/// The caller completes each step by itself, by as many pairs of a claim and a delivery as the step has routines at most.
pub fn caller_completes()
    ensures { CallerCompletes }
{}

/// What the answers leave in a tally word is its total: with no answer its value, with one more exactly that answer's entry more.
pub fn totals_of_a_word()
    ensures { TotalsAreLaid }
{}

/// What a step leaves is right: the fault of the least faulty number, or the least total outside 64 bits, or the memory
/// in which each ordinary word has its one writer's value and each tally word its total.
pub fn what_a_step_leaves()
    ensures faulty { FaultyIsTested }
    ensures right { AfterIsRight }
{}

/// Where nothing is faulty, each ordinary word has one writer at most.
pub fn writers_of_a_word()
    ensures { OneWriterEach }
{}

/// Writes make an image later.
pub fn later_images()
    ensures transitive { LaterIsTransitive }
    ensures writes { WritesAreLater }
{}

/// Worked examples of numbers and words.
pub fn worked_words()
    ensures division { DivisionCuts }
    ensures least { LeastByMinusOne }
    ensures zero { ZeroDivisor }
    ensures reads { ReadsItsWrites }
    ensures sums { SumBeginsAtZero }
    ensures adds { AddsToWhatItReads }
    ensures overflow { SumOverflows }
{}

/// Worked examples of what a step leaves.
pub fn worked_steps()
    ensures apart { WordsOfTheirOwn }
    ensures conflict { TwoWriters }
    ensures equal_values { TwoEqualWriters }
    ensures three_writers { ThreeWriters }
    ensures least_word { LeastSharedWord }
    ensures least_trap { LeastTrap }
    ensures failed { FailedWroteNothing }
    ensures conflict_first { ConflictBelowTrap }
    ensures sum { SumOfNumbers }
    ensures total { TotalOutside }
    ensures least_total { LeastTotal }
    ensures inside { TotalInside }
{}

/// Worked examples of claims and arrivals.
pub fn worked_claims()
    ensures granted { Claim35 }
    ensures spent { Claim36 }
    ensures caller { CallerStillClaims }
    ensures round { ClaimsGoRound }
    ensures done { NothingLeft }
    ensures unasked { UnaskedIsNoDelivery }
    ensures stale { OlderIsStale }
    ensures taken { Arrival102 }
    ensures full { Arrival103 }
{}

/// Worked examples of whole histories.
pub fn worked_histories()
    ensures twice { DeliveredTwice }
    ensures late { DeliveredLate }
    ensures fault_first { FaultArrivesFirst }
    ensures any_order { ConflictInAnyOrder }
{}

/// Worked examples of what a run means and of its text.
pub fn worked_texts()
    ensures step { OneStep }
    ensures fails { SecondStepFails }
    ensures shown { StepsAreShown }
    ensures lines { LinesAlone }
    ensures faults { FaultLines }
{}
