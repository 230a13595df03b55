//! Runs over requests with host objects, whose replies are computed from the definitions. These functions do nothing
//! when they run.
ghost use Rattle.std.specs.Prelude.{◌≡◌, [], ◌∷◌, pos, true, codes, Some, None};
ghost use Rattle.ash_host.specs.declared.word.Word.{Word};
ghost use Rattle.ash_host.specs.declared.answer.HostAnswer.{HostAnswer};
ghost use Rattle.ash_host.specs.declared.event.Event.TheVariants.{Drew, Called, Dropped};
ghost use Rattle.ash_host.specs.declared.event.Target.{Target};
ghost use Rattle.ash_meaning.specs.declared.exception.Exception.{Exception};
ghost use Rattle.ash_meaning.specs.Ends.{Finished, Threw, Aborted};
ghost use Rattle.ash_meaning.specs.ExampleParts.{started, added, f};
ghost use Rattle.ash_meaning.specs.ObjectExamples as phrase_objects;
ghost use Rattle.ash_meaning.specs.ObjectExamples.{answered};
ghost use Rattle.ash_meaning.specs.ReleaseExamples.{value_read};
ghost use Rattle.ash_requests.specs.Requests.{Load, Call, Discard, Get, Object, Seq};
ghost use Rattle.ash_requests.specs.Requests.{Answered, Value, ShownAs, Number};
ghost use Rattle.ash_requests.specs.Requests.{Refused, NoModule, NoObject};
ghost use Rattle.ash_requests.specs.StepExamples.{m, with_counter, counter_shown};
ghost use Rattle.ash_requests.specs.RunExamples.{RepliesOf, RepliesFrom, begin};
ghost use Rattle.ash_requests.specs.HostRuns as hosts;
ghost use Rattle.ash_requests.specs.ObjectRuns as objects;

/// What requests reply whose modules have host objects: what a load, a call or a discard drops, and in which order.
pub fn worked_host_runs()
    ensures failed_load { RepliesOf (hosts.failing_load ∷ [])
        (Load m (0 ∷ []) ∷ Object 1 ∷ Object 2 ∷ Get m (codes "g") ∷ Seq ∷ []) 2
        (started 1 1 ∷ started 2 2 ∷ value_read 2 2 ∷ [])
        (Answered (Threw Exception.DivideByZero (codes "(init)") 1) 1
        (Drew 1 ∷ Drew 2 ∷ Dropped 2 ∷ Dropped 1 ∷ [])
        ∷ Refused NoObject ∷ Refused NoObject ∷ Refused NoModule ∷ Number 1 ∷ []) }
    ensures after_a_failed_load { RepliesOf (hosts.failing_load ∷ with_counter ∷ [])
        (Load m (0 ∷ []) ∷ Load m (1 ∷ []) ∷ Object 3 ∷ []) 3
        (started 1 1 ∷ started 2 2 ∷ value_read 2 2 ∷ started 3 7 ∷ [])
        (Answered (Threw Exception.DivideByZero (codes "(init)") 1) 1
        (Drew 1 ∷ Drew 2 ∷ Dropped 2 ∷ Dropped 1 ∷ [])
        ∷ Answered (Finished None) 2 (Drew 3 ∷ []) ∷ ShownAs (counter_shown 3 1 7) ∷ []) }
    ensures aborted_load { RepliesFrom begin (hosts.long_load ∷ []) 1
        (Load m (0 ∷ []) ∷ Object 1 ∷ []) 1 (started 1 1 ∷ [])
        (Answered (Aborted (codes "(init)") 1) 1 (Drew 1 ∷ Dropped 1 ∷ []) ∷ Refused NoObject
        ∷ []) }
    ensures discarded { RepliesOf (hosts.two_counters ∷ [])
        (Load m (0 ∷ []) ∷ Discard m ∷ Object 1 ∷ Object 2 ∷ []) 2 (started 1 1 ∷ started 2 2 ∷ [])
        (Answered (Finished None) 1 (Drew 1 ∷ Drew 2 ∷ [])
        ∷ Answered (Finished None) 2 (Dropped 1 ∷ Dropped 2 ∷ []) ∷ Refused NoObject
        ∷ Refused NoObject ∷ []) }
    ensures aborted_call { RepliesFrom begin (hosts.written_twice ∷ []) 2
        (Load m (0 ∷ []) ∷ Call m f [] ∷ Get m (codes "n") ∷ []) 0 []
        (Answered (Finished None) 1 [] ∷ Answered (Aborted f 1) 2 [] ∷ Value (Word.Int (pos 1))
        ∷ []) }
    ensures numbers_rise { RepliesOf (objects.drawing ∷ [])
        (Load m (0 ∷ []) ∷ Call m f [] ∷ Call m f [] ∷ []) 2 (started 1 1 ∷ started 2 1 ∷ [])
        (Answered (Finished None) 1 [] ∷ Answered (Finished None) 2 (Drew 1 ∷ Dropped 1 ∷ [])
        ∷ Answered (Finished None) 3 (Drew 2 ∷ Dropped 2 ∷ []) ∷ []) }
    ensures overwritten_in_an_argument { RepliesOf (phrase_objects.overwritten_in_an_argument.tree
        ∷ [])
        (Load m (0 ∷ []) ∷ Call m f [] ∷ []) 2
        (started 1 1 ∷ started 2 5 ∷ added 2 1 5 6 ∷ added 2 1 6 7 ∷ [])
        (Answered (Finished None) 1 [] ∷ Answered (Finished (Some (Word.Int (pos 6)))) 2
        (Drew 1 ∷ Drew 2 ∷ Called (Target.Object 2) 1 ∷ Dropped 1 ∷ Called (Target.Object 2) 1
        ∷ Dropped 2 ∷ [])
        ∷ []) }
    ensures shared { RepliesOf (phrase_objects.shared.tree ∷ [])
        (Load m (0 ∷ []) ∷ Call m f [] ∷ []) 2 (started 3 1 ∷ started 5 2 ∷ [])
        (Answered (Finished None) 1 []
        ∷ Answered (Finished None) 2 (Drew 3 ∷ Drew 5 ∷ Dropped 3 ∷ Dropped 5 ∷ []) ∷ []) }
    ensures raised { RepliesOf (phrase_objects.failing.tree ∷ [])
        (Load m (0 ∷ []) ∷ Call m f [] ∷ []) 1
        (started 1 1 ∷ answered 2 9 (HostAnswer.Raise 9) ∷ [])
        (Answered (Finished None) 1 [] ∷ Answered (Threw (Exception.Raised 9) f 1) 2
        (Drew 1 ∷ Called (Target.Object 1) 2 ∷ Dropped 1 ∷ []) ∷ []) }
    ensures bad_answer { RepliesOf (phrase_objects.adding.tree ∷ [])
        (Load m (0 ∷ []) ∷ Call m f [] ∷ []) 1
        (started 1 1 ∷ answered 1 1 (HostAnswer.Value (Word.Bool true)) ∷ [])
        (Answered (Finished None) 1 [] ∷ Answered (Threw Exception.BadHostAnswer f 1) 2
        (Drew 1 ∷ Called (Target.Object 1) 1 ∷ Dropped 1 ∷ []) ∷ []) }
{}
