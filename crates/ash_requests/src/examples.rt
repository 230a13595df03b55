//! Runs over requests, whose replies are computed from the definitions. These functions do nothing when they run.
ghost use Rattle.std.specs.Prelude.{◌≡◌, ◌^◌, ◌-◌, [], ◌∷◌, pos, negsuc, true, false, codes};
ghost use Rattle.std.specs.Prelude.{replicate, Some, None};
ghost use Rattle.ash_host.specs.declared.word.Word.{Word};
ghost use Rattle.ash_host.specs.declared.event.Event.TheVariants.{Drew, Called, Dropped};
ghost use Rattle.ash_host.specs.declared.event.Target.{Target};
ghost use Rattle.ash_host.specs.Ints.{int_bytes};
ghost use Rattle.ash_meaning.specs.declared.exception.Exception.{Exception};
ghost use Rattle.ash_meaning.specs.Ends.{Finished, Threw, Aborted};
ghost use Rattle.ash_meaning.specs.ExampleParts.{started, added, tallied_by, totalled, f};
ghost use Rattle.ash_meaning.specs.Examples as phrases;
ghost use Rattle.ash_meaning.specs.ObjectExamples as phrase_objects;
ghost use Rattle.ash_meaning.specs.ReleaseExamples.{value_read};
ghost use Rattle.ash_meaning.specs.PointExamples as points;
ghost use Rattle.ash_requests.specs.declared.argument.Arg.{Arg};
ghost use Rattle.ash_requests.specs.Requests.{Load, Call, Discard, Get, Object, Seq, Snapshot};
ghost use Rattle.ash_requests.specs.Requests.{Answered, Value, ShownAs, Number, Done, Refused};
ghost use Rattle.ash_requests.specs.Requests.{BadName, BadSource, ModuleTaken, NoModule};
ghost use Rattle.ash_requests.specs.Requests.{NoFunction, NotCallable};
ghost use Rattle.ash_requests.specs.Requests.{BadArguments, NoGlobal, NoObject};
ghost use Rattle.ash_requests.specs.Requests.{TooManyModules, SequenceSpent};
ghost use Rattle.ash_requests.specs.StepExamples.{RepliesInTurn, m, k, adding, with_counter, counter_shown};
ghost use Rattle.ash_requests.specs.RunExamples.{RepliesOf, RepliesFrom, begin};
ghost use Rattle.ash_requests.specs.IntegerRuns as integers;
ghost use Rattle.ash_requests.specs.IntegerRuns.{full_of_modules, spent};
ghost use Rattle.ash_requests.specs.ObjectRuns as objects;
ghost use Rattle.ash_requests.specs.ObjectRuns.{class_shown, array_shown, numbers_spent, with_objects};

/// What a few runs over requests reply.
pub fn worked_runs()
    ensures loaded_and_called { RepliesInTurn
        (Load m (4 ∷ []) ∷ Call m (codes "f") (Arg.Number (pos 5) ∷ []) ∷ Get m (codes "n")
        ∷ Call m (codes "f") [] ∷ Call m (codes "f") (Arg.Number (pos (2 ^ 31)) ∷ []) ∷ Seq
        ∷ []) 0 []
        (Answered (Finished None) 1 [] ∷ Answered (Finished (Some (Word.Int (pos 7)))) 2 []
        ∷ Value (Word.Int (pos 7)) ∷ Refused BadArguments ∷ Refused BadArguments ∷ Number 2 ∷ []) }
    ensures shown_and_discarded { RepliesInTurn
        (Load m (1 ∷ []) ∷ Object 1 ∷ Discard m ∷ Object 1 ∷ []) 1 (started 1 7 ∷ [])
        (Answered (Finished None) 1 (Drew 1 ∷ []) ∷ ShownAs (counter_shown 1 1 7)
        ∷ Answered (Finished None) 2 (Dropped 1 ∷ []) ∷ Refused NoObject ∷ []) }
    ensures held_by_another_module { RepliesInTurn
        (Load m (1 ∷ []) ∷ Load k (2 ∷ []) ∷ Call k (codes "f") [] ∷ Get m (codes "g") ∷ []) 1
        (started 1 7 ∷ [])
        (Answered (Finished None) 1 (Drew 1 ∷ []) ∷ Answered (Finished None) 2 []
        ∷ Answered (Finished (Some (Word.Int (pos 21)))) 3 [] ∷ Value (Word.Object 1) ∷ []) }
    ensures not_finished { RepliesInTurn
        (Load m (3 ∷ []) ∷ Call m (codes "f") [] ∷ Seq ∷ []) 0 (tallied_by 3 0 3 ∷ [])
        (Answered (Threw Exception.DivideByZero (codes "(init)") 1) 1
        (Called (Target.Service 0) 1 ∷ [])
        ∷ Refused NoModule ∷ Number 1 ∷ []) }
    ensures in_order { RepliesInTurn
        (Load (57 ∷ []) [] ∷ Load m [] ∷ Load m (2 ∷ []) ∷ Load m [] ∷ Call m (codes "g") []
        ∷ Call m (codes "pick") [] ∷ Seq ∷ []) 0 []
        (Refused BadName ∷ Refused (BadSource tt) ∷ Answered (Finished None) 1 []
        ∷ Refused ModuleTaken
        ∷ Refused NoFunction ∷ Refused NotCallable ∷ Number 1 ∷ []) }
{}

/// What requests reply that load and call small modules of integers.
pub fn worked_integer_runs()
    ensures wrapped_sum { RepliesOf (integers.dividing ∷ [])
        (Load m (0 ∷ []) ∷ Call m (codes "a") [] ∷ []) 0 []
        (Answered (Finished None) 1 []
        ∷ Answered (Finished (Some (Word.Int (negsuc (2 ^ 31 - 1))))) 2 [] ∷ []) }
    ensures quotients { RepliesOf (integers.dividing ∷ [])
        (Load m (0 ∷ []) ∷ Call m (codes "q")
        (Arg.Number (negsuc 6) ∷ Arg.Number (pos 2) ∷ [])
        ∷ Call m (codes "r") (Arg.Number (negsuc 6) ∷ Arg.Number (pos 2) ∷ []) ∷ []) 0 []
        (Answered (Finished None) 1 [] ∷ Answered (Finished (Some (Word.Int (negsuc 2)))) 2 []
        ∷ Answered (Finished (Some (Word.Int (negsuc 0)))) 3 [] ∷ []) }
    ensures least_by_minus_one { RepliesOf (integers.dividing ∷ [])
        (Load m (0 ∷ []) ∷ Call m (codes "q")
        (Arg.Number (negsuc (2 ^ 31 - 1)) ∷ Arg.Number (negsuc 0) ∷ [])
        ∷ Call m (codes "r") (Arg.Number (negsuc (2 ^ 31 - 1)) ∷ Arg.Number (negsuc 0)
        ∷ [])
        ∷ Call m (codes "q") (Arg.Number (pos 5) ∷ Arg.Number (pos 0) ∷ []) ∷ []) 0 []
        (Answered (Finished None) 1 []
        ∷ Answered (Threw Exception.DivideOverflow (codes "q") 1) 2 []
        ∷ Answered (Threw Exception.DivideOverflow (codes "r") 1) 3 []
        ∷ Answered (Threw Exception.DivideByZero (codes "q") 1) 4 [] ∷ []) }
    ensures bits_before_comparison { RepliesOf (integers.bits_first ∷ [])
        (Load m (0 ∷ []) ∷ Call m (codes "p") [] ∷ []) 0 []
        (Answered (Finished None) 1 [] ∷ Answered (Finished (Some (Word.Bool false))) 2 [] ∷ []) }
    ensures effects_stay { RepliesOf (integers.failing_late ∷ [])
        (Load m (0 ∷ []) ∷ Call m f (Arg.Number (pos 0) ∷ []) ∷ Get m (codes "n")
        ∷ Call m (codes "t") [] ∷ [])
        0 (tallied_by 4 0 4 ∷ totalled 4 ∷ [])
        (Answered (Finished None) 1 []
        ∷ Answered (Threw Exception.DivideByZero f 4) 2 (Called (Target.Service 0) 1 ∷ [])
        ∷ Value (Word.Int (pos 1))
        ∷ Answered (Finished (Some (Word.Int (pos 4)))) 3 (Called (Target.Service 0) 2 ∷ []) ∷ []) }
    ensures another_load { RepliesOf (phrase_objects.unfinished.tree ∷ integers.totalling ∷ [])
        (Load m (0 ∷ []) ∷ Load m (1 ∷ []) ∷ Call m (codes "t") [] ∷ []) 0
        (tallied_by 3 0 3 ∷ totalled 3 ∷ [])
        (Answered (Threw Exception.DivideByZero (codes "(init)") 1) 1
        (Called (Target.Service 0) 1 ∷ [])
        ∷ Answered (Finished None) 2 []
        ∷ Answered (Finished (Some (Word.Int (pos 3)))) 3 (Called (Target.Service 0) 2 ∷ []) ∷ []) }
    ensures empty_module { RepliesOf (integers.nothing ∷ []) (Load m (0 ∷ []) ∷ []) 0 []
        (Answered (Finished None) 1 [] ∷ []) }
    ensures refusals { RepliesOf (adding ∷ [])
        (Load m (0 ∷ []) ∷ Call m (codes "nope") []
        ∷ Call m f (Arg.Number (pos 1) ∷ Arg.Number (pos 2) ∷ [])
        ∷ Call m f (Arg.Number (pos (2 ^ 31)) ∷ []) ∷ Call (codes "z") f []
        ∷ Discard (codes "z")
        ∷ Get m (codes "q") ∷ Object 9 ∷ Load m (0 ∷ []) ∷ Load (codes "9x") (0 ∷ []) ∷ Seq
        ∷ Snapshot ∷ []) 0 []
        (Answered (Finished None) 1 [] ∷ Refused NoFunction ∷ Refused BadArguments
        ∷ Refused BadArguments
        ∷ Refused NoModule ∷ Refused NoModule ∷ Refused NoGlobal ∷ Refused NoObject
        ∷ Refused ModuleTaken
        ∷ Refused BadName ∷ Number 1 ∷ Done ∷ []) }
{}

/// What small modules reply that compute in the greatest number, in several integer types, and by shifts.
pub fn worked_number_runs()
    ensures greatest_number { RepliesOf (integers.greatest ∷ [])
        (Load m (0 ∷ []) ∷ Get m (codes "x") ∷ []) 0 []
        (Answered (Finished None) 1 [] ∷ Value (Word.Uint64 (2 ^ 64 - 1)) ∷ []) }
    ensures signs_that_meet { RepliesOf (integers.signs ∷ [])
        (Load m (0 ∷ []) ∷ Call m f [] ∷ Call m (codes "g") [] ∷ Call m (codes "h") [] ∷ []) 0 []
        (Answered (Finished None) 1 [] ∷ Answered (Finished (Some (Word.Uint 2000000000))) 2 []
        ∷ Answered (Finished (Some (Word.Bool false))) 3 []
        ∷ Answered (Finished (Some (Word.Int64 (negsuc (2 ^ 31 - 1))))) 4 [] ∷ []) }
    ensures shifts { RepliesOf (integers.shifting ∷ [])
        (Load m (0 ∷ []) ∷ Call m (codes "a") (Arg.Number (negsuc 0) ∷ [])
        ∷ Call m (codes "b") (Arg.Number (negsuc 0) ∷ [])
        ∷ Call m (codes "c") (Arg.Number (pos 1) ∷ []) ∷ [])
        0 []
        (Answered (Finished None) 1 [] ∷ Answered (Finished (Some (Word.Int (pos 15)))) 2 []
        ∷ Answered (Finished (Some (Word.Int (negsuc 0)))) 3 []
        ∷ Answered (Finished (Some (Word.Int (pos 2)))) 4 [] ∷ []) }
{}

/// What requests reply that load and call small modules with objects, and show these.
pub fn worked_object_runs()
    ensures right_side_first { RepliesOf (phrases.right_side_first.tree ∷ [])
        (Load m (0 ∷ []) ∷ Call m f [] ∷ Object 1 ∷ Call m (codes "pick") [] ∷ []) 0 []
        (Answered (Finished None) 1 [] ∷ Answered (Finished (Some (Word.Int (pos 21)))) 2 []
        ∷ ShownAs (class_shown 1 (codes "m.P") 1 ((codes "v", Word.Int (pos 2)) ∷ []))
        ∷ Refused NotCallable ∷ []) }
    ensures assigned_to_itself { RepliesOf (points.assigned_to_itself.tree ∷ [])
        (Load m (0 ∷ []) ∷ Call m f [] ∷ []) 1
        (started 1 1 ∷ added 1 1 1 2 ∷ [])
        (Answered (Finished None) 1 []
        ∷ Answered (Finished (Some (Word.Int (pos 2)))) 2
        (Drew 1 ∷ Called (Target.Object 1) 1 ∷ Dropped 1 ∷ []) ∷ []) }
    ensures empty_pool { RepliesOf (objects.drawing ∷ [])
        (Load m (0 ∷ []) ∷ Call m f [] ∷ Call m f [] ∷ []) 1
        (started 1 1 ∷ [])
        (Answered (Finished None) 1 [] ∷ Answered (Finished None) 2 (Drew 1 ∷ Dropped 1 ∷ [])
        ∷ Answered (Threw Exception.PoolEmpty f 1) 3 [] ∷ []) }
    ensures through_null { RepliesOf (phrases.through_null.tree ∷ [])
        (Load m (0 ∷ []) ∷ Call m f [] ∷ Get m (codes "g") ∷ []) 0 []
        (Answered (Finished None) 1 [] ∷ Answered (Threw Exception.NullPointerAccess f 1) 2 []
        ∷ Value Word.Null ∷ []) }
    ensures shown_with_snapshot { RepliesOf (with_counter ∷ [])
        (Load m (0 ∷ []) ∷ Object 1 ∷ Snapshot ∷ Object 1 ∷ Discard m ∷ []) 1 (started 1 7 ∷ [])
        (Answered (Finished None) 1 (Drew 1 ∷ []) ∷ ShownAs (counter_shown 1 1 7) ∷ Done
        ∷ ShownAs (counter_shown 1 1 7) ∷ Answered (Finished None) 2 (Dropped 1 ∷ []) ∷ []) }
    ensures counts { RepliesOf (phrase_objects.constructed.tree ∷ [])
        (Load m (0 ∷ []) ∷ Call m f [] ∷ Get m (codes "g") ∷ Object 1 ∷ Object 2 ∷ []) 0 []
        (Answered (Finished None) 1 [] ∷ Answered (Finished (Some (Word.Int (pos 7)))) 2 []
        ∷ Value (Word.Object 1)
        ∷ ShownAs (class_shown 1 (codes "m.P") 1
        ((codes "q", Word.Object 2) ∷ (codes "r", Word.Object 2) ∷ (codes "v", Word.Int (pos 7))
        ∷ []))
        ∷ ShownAs (class_shown 2 (codes "m.Q") 2 ((codes "w", Word.Int (pos 1)) ∷ [])) ∷ []) }
    ensures two_modules { RepliesOf (adding ∷ [])
        (Load m (0 ∷ []) ∷ Load k (0 ∷ []) ∷ Call m f (Arg.Number (pos 5) ∷ [])
        ∷ Get k (codes "n")
        ∷ Discard m ∷ Get m (codes "n") ∷ []) 0 []
        (Answered (Finished None) 1 [] ∷ Answered (Finished None) 2 []
        ∷ Answered (Finished (Some (Word.Int (pos 7)))) 3 [] ∷ Value (Word.Int (pos 2))
        ∷ Answered (Finished None) 4 [] ∷ Refused NoModule ∷ []) }
    ensures let_go_early { RepliesOf (objects.let_go_early ∷ [])
        (Load m (0 ∷ []) ∷ Call m f [] ∷ []) 3
        (started 1 1 ∷ started 2 2 ∷ started 3 3 ∷ [])
        (Answered (Finished None) 1 []
        ∷ Answered (Finished None) 2
        (Drew 1 ∷ Drew 2 ∷ Dropped 1 ∷ Drew 3 ∷ Dropped 2 ∷ Dropped 3 ∷ []) ∷ []) }
{}

/// What requests reply that call through interfaces and use arrays.
pub fn worked_interface_and_array_runs()
    ensures through_an_interface { RepliesOf (objects.through_an_interface ∷ [])
        (Load m (0 ∷ []) ∷ Call m (codes "c") [] ∷ Call m f [] ∷ Call m (codes "c") [] ∷ Object 1
        ∷ Call m (codes "h") [] ∷ Call m (codes "c") [] ∷ []) 0 []
        (Answered (Finished None) 1 [] ∷ Answered (Finished (Some (Word.Bool true))) 2 []
        ∷ Answered (Finished (Some (Word.Int (pos 3)))) 3 []
        ∷ Answered (Finished (Some (Word.Bool false))) 4 []
        ∷ ShownAs (class_shown 1 (codes "m.A") 1 ((codes "k", Word.Int (pos 3)) ∷ []))
        ∷ Answered (Finished (Some (Word.Int (pos 7)))) 5 []
        ∷ Answered (Finished (Some (Word.Bool true))) 6 [] ∷ []) }
    ensures in_an_array { RepliesOf (phrase_objects.in_an_array.tree ∷ [])
        (Load m (0 ∷ []) ∷ Call m f (Arg.Number (pos 5) ∷ []) ∷ Object 1
        ∷ Call m (codes "h") (Arg.Number (pos 0) ∷ [])
        ∷ Call m (codes "h") (Arg.Number (pos 1) ∷ [])
        ∷ Call m (codes "g") [] ∷ Call m (codes "g") [] ∷ []) 1 (started 2 5 ∷ value_read 2 5 ∷ [])
        (Answered (Finished None) 1 []
        ∷ Answered (Finished (Some (Word.Int (pos 1)))) 2 (Drew 2 ∷ [])
        ∷ ShownAs (array_shown 1 1 (Word.Object 2 ∷ []))
        ∷ Answered (Finished (Some (Word.Int (pos 5)))) 3 []
        ∷ Answered (Threw Exception.IndexOutOfBounds (codes "h") 1) 4 []
        ∷ Answered (Finished None) 5 (Dropped 2 ∷ [])
        ∷ Answered (Threw Exception.IndexOutOfBounds (codes "g") 1) 6 [] ∷ []) }
{}

/// What requests reply at the limits: of ticks, modules, answers, the length of arrays, numbers and objects.
pub fn worked_limit_runs()
    ensures enough_ticks { RepliesFrom begin (integers.giving_one ∷ []) 2
        (Load m (0 ∷ []) ∷ Call m f [] ∷ []) 0 []
        (Answered (Finished None) 1 [] ∷ Answered (Finished (Some (Word.Int (pos 1)))) 2 [] ∷ []) }
    ensures one_tick_too_few { RepliesFrom begin (integers.giving_one ∷ []) 1
        (Load m (0 ∷ []) ∷ Call m f [] ∷ []) 0 []
        (Answered (Finished None) 1 [] ∷ Answered (Aborted f 1) 2 [] ∷ []) }
    ensures unending_loop { RepliesFrom begin (integers.unending ∷ []) 100
        (Load m (0 ∷ []) ∷ Call m (codes "g") [] ∷ []) 0 []
        (Answered (Finished None) 1 [] ∷ Answered (Aborted (codes "g") 1) 2 [] ∷ []) }
    ensures seventeenth_module { RepliesFrom (full_of_modules begin) (integers.nothing ∷ []) 20
        (Load (codes "q") (0 ∷ []) ∷ Load (codes "p") (0 ∷ []) ∷ Discard (codes "p")
        ∷ Load (codes "q") (0 ∷ []) ∷ [])
        0 []
        (Refused TooManyModules ∷ Refused ModuleTaken ∷ Answered (Finished None) 1 []
        ∷ Answered (Finished None) 2 [] ∷ []) }
    ensures last_answer { RepliesFrom (spent begin) (integers.nothing ∷ []) 20
        (Load m (0 ∷ []) ∷ Call m f [] ∷ Discard m ∷ Get m (codes "q") ∷ Seq ∷ []) 0 []
        (Refused SequenceSpent ∷ Refused SequenceSpent ∷ Refused SequenceSpent ∷ Refused NoModule
        ∷ Number (2 ^ 64 - 1) ∷ []) }
    ensures longest_array { RepliesOf (objects.resizing ∷ [])
        (Load m (0 ∷ []) ∷ Call m f (Arg.Number (pos 4096) ∷ [])
        ∷ Call m f (Arg.Number (pos 4097) ∷ [])
        ∷ Object 1 ∷ []) 0 []
        (Answered (Finished None) 1 [] ∷ Answered (Finished None) 2 []
        ∷ Answered (Threw Exception.ArrayLimit f 1) 3 []
        ∷ ShownAs (array_shown 1 1 (replicate 4096 (Word.Int (pos 0)))) ∷ []) }
    ensures last_number { RepliesFrom (numbers_spent begin) (objects.drawing ∷ []) 20
        (Load m (0 ∷ []) ∷ Call m f [] ∷ []) 0 []
        (Answered (Finished None) 1 [] ∷ Answered (Threw Exception.NumbersSpent f 1) 2 [] ∷ []) }
    ensures all_objects_taken { RepliesFrom (with_objects 4096 begin) (objects.drawing ∷ []) 20
        (Call m f [] ∷ []) 1 []
        (Answered (Threw Exception.ObjectLimit f 1) 1 [] ∷ []) }
    ensures one_object_fewer { RepliesFrom (with_objects 4095 begin) (objects.drawing ∷ []) 20
        (Call m f [] ∷ []) 0 []
        (Answered (Threw Exception.PoolEmpty f 1) 1 [] ∷ []) }
{}
