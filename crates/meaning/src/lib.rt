// What a rule means, its code, and the theorems that hold the two together. Each function below does nothing: its
// contract is a theorem, and what it says is in specs/.
#![tactic(auto)]

ghost use Rattle.meaning.specs.Accepted.{AcceptedIsSound, UnbrokenIsAccepted, AcceptedIsSmall};
ghost use Rattle.meaning.specs.Agreement.{MeaningAgrees, AcceptedTreesAgree, ChargesAreInstructions};
ghost use Rattle.meaning.specs.Cases.{WorkedCases};
ghost use Rattle.meaning.specs.Halves.{ObjectsAgree, AddressesAgree};
ghost use Rattle.meaning.specs.Lawful.{AcceptedIsLawful};
ghost use Rattle.meaning.specs.Laws.{RunLaws};
ghost use Rattle.meaning.specs.MeaningLaws.{MeaningLaws};
ghost use Rattle.meaning.specs.Short.{CodeIsShort};
ghost use Rattle.meaning.specs.Typing.{AcceptedIsTyped, TypedIsAccepted};
ghost use Rattle.meaning.specs.Lives.{LivesAgree, JudgedRulesSound, BudgetsFree, RunsBounded, StepsSpend, LoadCarries, OpenCarries, StepCarries};

// For every tree that the checks accept, every memory, host and n: the meaning cut off at n and n instructions of the
// rule's code agree in standing, count, output, waiting input, and outermost variables once they have cells. Every fault
// is one of 21 to 27. While the meaning goes on, each charge is one instruction.
pub fn accepted_trees_agree()
    ensures agree { AcceptedTreesAgree }
    ensures charges { ChargesAreInstructions }
{}

// The same for every sound rule, whatever tree it came from.
pub fn meaning_stands()
    ensures { MeaningAgrees }
{}

// The first half of it: variables that are objects of their own come to the same as variables in cells at addresses.
pub fn objects_stand()
    ensures { ObjectsAgree }
{}

// The second half: the evaluation over addresses comes to the same as the run of the code.
pub fn addresses_stand()
    ensures { AddressesAgree }
{}

// A rule that the checks accept is sound: each name stands for a thing of the right kind and size, at most
// 8 procedures nest, and no evaluation needs more than 128 operands.
pub fn accepted_is_sound()
    ensures { AcceptedIsSound }
{}

// A tree is accepted exactly if it is well typed, rule by rule, and no stage finds a break of depth, names or sizes.
pub fn accepted_is_typed()
    ensures typed { AcceptedIsTyped }
    ensures accepted { TypedIsAccepted }
{}

// A tree is accepted exactly if no stage finds a break in it, and one that is not accepted has a break to show.
pub fn unbroken_is_accepted()
    ensures { UnbrokenIsAccepted }
{}

// In a rule that the checks accept no size, offset or frame is over 65,536 cells.
pub fn accepted_is_small()
    ensures { AcceptedIsSmall }
{}

// Every instruction of an accepted rule's code is lawful, so that a shelf takes it.
pub fn accepted_is_lawful()
    ensures { AcceptedIsLawful }
{}

// The code of an accepted rule has at most six instructions for each node of the tree, and three.
pub fn code_is_short()
    ensures { CodeIsShort }
{}

// The laws of runs, whatever the code: a run of a + b instructions is one of a and then one of b, an ended run stays as it
// is, a going one counts each instruction and spends its budget whole unless it ends within it, memory keeps its length,
// output grows only at its end, and waiting input shrinks only at its front.
pub fn run_laws_stand()
    ensures { RunLaws }
{}

// The laws of the meaning: cut off later it only goes further and makes no other charge, its faults are 21 to 27, and the
// rank that its definition needs to end has no effect.
pub fn meaning_laws_stand()
    ensures { MeaningLaws }
{}

// The agreement over whole lives: after any list of load, open and step calls, carried out or refused, a run whose code is
// that of an accepted source cannot be told from the meaning of the source's rule, cut off at the run's count. A step that
// is not refused spends its whole budget or ends the run within it.
pub fn lives_agree_stands()
    ensures agree { LivesAgree }
    ensures sound { JudgedRulesSound }
    ensures free { BudgetsFree }
    ensures bounded { RunsBounded }
    ensures spend { StepsSpend }
    ensures loads { LoadCarries }
    ensures opens { OpenCarries }
    ensures steps { StepCarries }
{}

// Worked cases, on the checks, the meaning and the run alike: the recursive sum takes 113 instructions and prints 6 where
// 19 cells suffice, and 18 give fault 27 at count 87; each operand is read before the next is evaluated; siblings share cells
// that are new for each; a name declared twice and types that do not fit are refused at their places.
pub fn worked_cases_stand()
    ensures { WorkedCases }
{}
