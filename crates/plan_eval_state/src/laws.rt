//! Laws of evaluations over one stack. Each is the contract of a function without a body, so that a contract or a proof can
//! name it.
ghost use Rattle.plan_eval_state.specs.Laws as laws;

/// An operation evaluates its operands in order, each behind the values of those before, and makes something of all.
pub fn operands()
    ensures pays { laws.PaysFirst }
    ensures first { laws.BeginsFirst }
    ensures bare { laws.BeginsBare }
    ensures next { laws.GoesOn }
    ensures last { laws.MakesLast }
{}

/// What each form makes of the values of its operands goes on with another expression, or ends.
pub fn forms()
    ensures branches { laws.Chooses }
    ensures lets { laws.Binds }
    ensures calls { laws.Calls }
    ensures folds { laws.Folds }
    ensures evals { laws.Evals }
{}

/// A fold goes on step by step.
pub fn fold_steps()
    ensures steps { laws.FoldSteps }
    ensures further { laws.FoldGoesOn }
    ensures ends { laws.FoldEnds }
{}

/// What is raised goes out to the innermost `try` of which a clause catches it, and every other stop goes out of the whole.
pub fn stops()
    ensures tries { laws.Tries }
    ensures catches { laws.Catches }
    ensures none { laws.CatchesNone }
    ensures others { laws.Stops }
{}

/// Where a spot waits, the next one sees its environment on the stack, and a walk finds it; more programs change nothing.
pub fn steps()
    ensures sees { laws.StepSees }
    ensures walks { laws.StepWalks }
    ensures grown { laws.WaitsOn }
{}

/// The value of a name that a body sees stands at the place of its last binding.
pub fn names()
    ensures there { laws.NamesStand }
    ensures nowhere { laws.NoNameStands }
{}

/// What waits leads from the innermost spot to the whole.
pub fn turns()
    ensures begins { laws.BeginsOnto }
    ensures passes { laws.PassesOut }
    ensures ends { laws.WholeEnds }
{}

/// An evaluation spends what it leaves to be done, so that every turn of the loop leaves less.
pub fn work()
    ensures begun { laws.LastsSpends }
    ensures parts { laws.SpendsLasts }
    ensures settled { laws.SettledLasts }
    ensures wakes { laws.WakesLess }
    ensures goes { laws.GoesLess }
{}
