//! The laws of well-formed worlds. A function without a body does nothing: its contract is the law.
ghost use Rattle.std.specs.Prelude.{ℕ, List};
ghost use Rattle.ash_host.specs.Records.{HostRecord};
ghost use Rattle.ash_meaning.specs.Answers.{Answerers, AreValid};
ghost use Rattle.ash_soundness.specs.WellFormed.{Context, IsContext, AreAnswers};
ghost use Rattle.ash_soundness.specs.WellFormedLaws.{ExpressionsKeep, StatementsKeep, BlocksKeep};
ghost use Rattle.ash_soundness.specs.WellFormedLaws.{CallsKeep, MethodsKeep};
ghost use Rattle.ash_soundness.specs.WellFormedLaws.{RunsKeep, LoadsKeep, CallsComeToAnEnd};
ghost use Rattle.ash_soundness.specs.WellFormedLaws.{LoadsComeToAnEnd, MoreModulesKeep, FewerModulesKeep};
ghost use Rattle.ash_soundness.specs.WellFormedLaws.{ValuesAreOfTheirModule, ValuesKeepTheirTypes};

use ash_host::HostObject;

/// A phrase of a sound module leaves what is well-formed, at each of its ends: an expression gives a value of its type,
/// and so does a call; a statement is left by a jump that its scope allows, with what its function gives. A phrase has
/// no step only where the host offers something to scripts.
pub fn sound_stays_sound()
    ensures expressions { (c : Context) (depth : ℕ) → IsContext c → ExpressionsKeep c depth }
    ensures statements { (c : Context) (depth : ℕ) → IsContext c → StatementsKeep c depth }
    ensures blocks { (c : Context) (depth : ℕ) → IsContext c → BlocksKeep c depth }
    ensures calls { (c : Context) (depth : ℕ) → IsContext c → CallsKeep c depth }
    ensures methods { (c : Context) (depth : ℕ) → IsContext c → MethodsKeep c depth }
{}

/// A run of a sound module, however it ends, leaves a well-formed world in which every object can be reached.
pub fn runs_leave_settled_worlds()
    ensures calls { (c : Context) → IsContext c → RunsKeep c }
    ensures loads { (c : Context) → IsContext c → LoadsKeep c }
{}

/// Where the host offers nothing to scripts, a call of a function of a sound module has an outcome, from any
/// well-formed world and within any budget, and so have the initializers of one.
pub fn runs_come_to_an_end()
    ensures calls { (c : Context) → IsContext c → CallsComeToAnEnd c }
    ensures loads { (c : Context) → IsContext c → LoadsComeToAnEnd c }
{}

/// Objects stay well-formed where modules are loaded and where they go, and words of other modules keep their types.
pub fn modules_come_and_go()
    ensures more { MoreModulesKeep }
    ensures fewer { FewerModulesKeep }
    ensures own { ValuesAreOfTheirModule }
    ensures others { ValuesKeepTheirTypes }
{}

/// What hosts answer is as a well-formed world has it, if each record is valid for the object that it is of.
pub fn valid_answers_fit<B: HostObject>()
    ensures fit { (answerers : Answerers B) (records : List HostRecord)
        → AreValid B.HostObject answerers records → AreAnswers records }
{}
