//! Phrases whose meaning is computed from the definitions. These functions do nothing when they run.
ghost use Rattle.std.specs.Prelude.{◌≡◌, ◌^◌, ◌-◌, [], ◌∷◌, pos, negsuc, true, false, codes};
ghost use Rattle.ash_host.specs.declared.word.Word.{Word};
ghost use Rattle.ash_host.specs.declared.answer.HostAnswer.{HostAnswer};
ghost use Rattle.ash_host.specs.declared.event.Event.TheVariants.{Drew, Called, Dropped};
ghost use Rattle.ash_host.specs.declared.event.Target.{Target};
ghost use Rattle.ash_host.specs.Ints.{int_bytes};
ghost use Rattle.ash_host.specs.Objects.{Script};
ghost use Rattle.ash_meaning.specs.declared.exception.Exception.{Exception};
ghost use Rattle.ash_meaning.specs.Ends.{call_function, load_module};
ghost use Rattle.ash_meaning.specs.ControlExamples as control;
ghost use Rattle.ash_meaning.specs.Examples as examples;
ghost use Rattle.ash_meaning.specs.ObjectExamples as objects;
ghost use Rattle.ash_meaning.specs.ObjectExamples.{with_answer, with_object_of};
ghost use Rattle.ash_meaning.specs.ReleaseExamples as releases;
ghost use Rattle.ash_meaning.specs.ReleaseExamples.{value_read, one_counter};
ghost use Rattle.ash_meaning.specs.ExampleParts.{FinishesWith, Throws, Aborts, HasNoStep};
ghost use Rattle.ash_meaning.specs.ExampleParts.{HasEvents, HasServices};
ghost use Rattle.ash_meaning.specs.ExampleParts.{ThrowsAt, AbortsAt};
ghost use Rattle.ash_meaning.specs.ExampleParts.{empty_world, loaded, counters, with_counters};
ghost use Rattle.ash_meaning.specs.ExampleParts.{started, added, f};

/// What functions of integers come to, with loops, `switch` and calls.
pub fn worked_examples()
    ensures sum { FinishesWith (call_function examples.sum 0 [] 2 empty_world) (Word.Int (pos 3)) }
    ensures refused_tick { Aborts (call_function examples.sum 0 [] 1 empty_world) f }
    ensures toward_zero { FinishesWith
        (call_function examples.quotient 0 (Word.Int (negsuc 6) ∷ Word.Int (pos 2) ∷ []) 2
        empty_world)
        (Word.Int (negsuc 2)) }
    ensures zero_divisor { Throws
        (call_function examples.quotient 0 (Word.Int (pos 5) ∷ Word.Int (pos 0) ∷ []) 2 empty_world)
        Exception.DivideByZero f }
    ensures through_null { Throws (call_function examples.through_null 0 [] 2
        (loaded examples.through_null))
        Exception.NullPointerAccess f }
    ensures first_label { FinishesWith
        (call_function examples.falling 0 (Word.Int (pos 1) ∷ []) 9 empty_world)
        (Word.Int (pos 111)) }
    ensures second_label { FinishesWith
        (call_function examples.falling 0 (Word.Int (pos 2) ∷ []) 9 empty_world)
        (Word.Int (pos 102)) }
    ensures last_label { FinishesWith
        (call_function examples.falling 0 (Word.Int (pos 3) ∷ []) 9 empty_world)
        (Word.Int (pos 0)) }
    ensures looping { FinishesWith (call_function examples.looping 0 [] 19 empty_world)
        (Word.Int (pos 2)) }
    ensures ticks_of_a_loop { Aborts (call_function examples.looping 0 [] 18 empty_world) f }
    ensures at_least_once { FinishesWith (call_function examples.at_least_once 0 [] 10 empty_world)
        (Word.Int (pos 3)) }
    ensures ticks_of_a_do { Aborts (call_function examples.at_least_once 0 [] 9 empty_world) f }
    ensures only_what_decides { FinishesWith
        (call_function examples.only_what_decides 2 [] 4 (loaded examples.only_what_decides))
        (Word.Int (pos 0)) }
    ensures frames { Throws (call_function examples.endless 0 [] 512 empty_world)
        Exception.StackOverflow f }
    ensures frames_and_ticks { Aborts (call_function examples.endless 0 [] 511 empty_world) f }
    ensures least_by_minus_one { Throws (call_function examples.quotient 0
        (Word.Int (negsuc (2 ^ 31 - 1)) ∷ Word.Int (negsuc 0) ∷ []) 2 empty_world)
        Exception.DivideOverflow f }
    ensures before_and_after { FinishesWith
        (call_function examples.counting 0 (Word.Int (pos 1) ∷ []) 2 empty_world)
        (Word.Int (pos 13)) }
    ensures line_of_the_entry { AbortsAt (call_function examples.on_lines 0 [] 0 empty_world) f 1 }
    ensures line_of_a_declaration { AbortsAt (call_function examples.on_lines 0 [] 1 empty_world) f
        3 }
    ensures one_tick_for_two_variables { AbortsAt (call_function examples.on_lines 0 [] 2
        empty_world) f 4 }
    ensures line_of_an_exception { ThrowsAt (call_function examples.on_lines 0 [] 3 empty_world)
        Exception.DivideByZero f 4 }
{}

/// What functions do to objects of the embedding program.
pub fn worked_host_examples()
    ensures held_until_the_expression_ends { HasEvents (call_function
        objects.overwritten_in_an_argument 1 [] 9
        (counters 2 (started 1 1 ∷ started 2 5 ∷ added 2 1 5 6 ∷ added 2 1 6 7 ∷ [])))
        (Drew 1 ∷ Drew 2 ∷ Called (Target.Object 2) 1 ∷ Dropped 1 ∷ Called (Target.Object 2) 1
        ∷ Dropped 2 ∷ []) }
    ensures in_ascending_number { HasEvents
        (call_function objects.shared 0 [] 20 (counters 2 (started 3 1 ∷ started 5 2 ∷ [])))
        (Drew 3 ∷ Drew 5 ∷ Dropped 3 ∷ Dropped 5 ∷ []) }
    ensures blocks_left_together { HasEvents (call_function objects.blocks_left_together 0 [] 9
        (counters 3 (started 1 1 ∷ started 2 2 ∷ started 3 3 ∷ [])))
        (Drew 1 ∷ Drew 2 ∷ Dropped 1 ∷ Dropped 2 ∷ Drew 3 ∷ Dropped 3 ∷ []) }
    ensures empty_pool { Throws
        (call_function objects.shared 0 [] 20 (counters 1 (started 3 1 ∷ []))) Exception.PoolEmpty
        f }
    ensures no_answer { HasNoStep (call_function objects.shared 0 [] 20
        (counters 2 (started 3 1 ∷ []))) }
    ensures another_answer { HasNoStep
        (call_function objects.shared 0 [] 20 (counters 2 (started 3 7 ∷ started 5 2 ∷ []))) }
    ensures raised { Throws (with_answer objects.failing 2 9 (HostAnswer.Raise 9))
        (Exception.Raised 9) f }
    ensures raised_events { HasEvents (with_answer objects.failing 2 9 (HostAnswer.Raise 9))
        (Drew 1 ∷ Called (Target.Object 1) 2 ∷ Dropped 1 ∷ []) }
    ensures another_type { Throws (with_answer objects.adding 1 1
        (HostAnswer.Value (Word.Bool true)))
        Exception.BadHostAnswer f }
    ensures no_result { Throws (with_answer objects.adding 1 1 HostAnswer.Nothing)
        Exception.BadHostAnswer f }
    ensures no_memory { HasNoStep (with_answer objects.adding 1 1 HostAnswer.NoMemory) }
    ensures initializers { Throws objects.unfinished_load Exception.DivideByZero (codes "(init)") }
    ensures effects_stay { HasServices objects.unfinished_load (int_bytes (pos 3) ∷ []) }
{}

/// What functions do to objects of classes, through interfaces, and to arrays.
pub fn worked_object_examples()
    ensures right_side_first { FinishesWith
        (call_function examples.right_side_first 2 [] 20 (loaded examples.right_side_first))
        (Word.Int (pos 21)) }
    ensures constructed { (loaded objects.constructed).objects
        ≡ (1, Script (codes "m") 1 (Word.Object 2 ∷ Word.Object 2 ∷ Word.Int (pos 7) ∷ []))
        ∷ (2, Script (codes "m") 0 (Word.Int (pos 1) ∷ [])) ∷ [] }
    ensures own_method { FinishesWith
        (call_function objects.through_an_interface 0 [] 9 (loaded objects.through_an_interface))
        (Word.Int (pos 7)) }
    ensures cast_to_its_class { FinishesWith
        (call_function objects.through_an_interface 1 [] 9 (with_object_of 1))
        (Word.Bool false) }
    ensures cast_to_another { FinishesWith
        (call_function objects.through_an_interface 1 [] 9 (with_object_of 2))
        (Word.Bool true) }
    ensures inserted { FinishesWith (call_function objects.in_an_array 0 (Word.Int (pos 5) ∷ []) 9
        (with_counters 1 (started 2 5 ∷ []) (loaded objects.in_an_array)))
        (Word.Int (pos 1)) }
    ensures removed { Throws (call_function objects.in_an_array 1 [] 9 (loaded objects.in_an_array))
        Exception.IndexOutOfBounds (codes "g") }
    ensures index { Throws (call_function objects.in_an_array 2 (Word.Uint 0 ∷ []) 9
        (loaded objects.in_an_array))
        Exception.IndexOutOfBounds (codes "h") }
    ensures resized { FinishesWith
        (call_function objects.resized 0 (Word.Uint 2 ∷ []) 9 (loaded objects.resized))
        (Word.Int (pos 0)) }
    ensures too_long { Throws (call_function objects.resized 0 (Word.Uint 4097 ∷ []) 9
        (loaded objects.resized))
        Exception.ArrayLimit f }
    ensures no_element { Throws (call_function objects.resized 0 (Word.Uint 0 ∷ []) 9
        (loaded objects.resized))
        Exception.IndexOutOfBounds f }
{}

/// Where objects go, and in which order.
pub fn worked_release_examples()
    ensures condition { HasEvents (call_function releases.after_a_condition 0 [] 9
        (counters 2 (started 1 1 ∷ value_read 1 1 ∷ started 2 2 ∷ [])))
        (Drew 1 ∷ Dropped 1 ∷ Drew 2 ∷ Dropped 2 ∷ []) }
    ensures blocks { HasEvents (call_function releases.after_blocks 0 [] 9
        (counters 3 (started 1 1 ∷ started 2 2 ∷ started 3 3 ∷ [])))
        (Drew 1 ∷ Drew 2 ∷ Dropped 2 ∷ Dropped 1 ∷ Drew 3 ∷ Dropped 3 ∷ []) }
    ensures continued { HasEvents (call_function releases.after_continue 0 [] 19
        (counters 4 (started 1 1 ∷ started 2 1 ∷ started 3 1 ∷ started 4 1 ∷ [])))
        (Drew 1 ∷ Drew 2 ∷ Dropped 1 ∷ Dropped 2 ∷ Drew 3 ∷ Drew 4 ∷ Dropped 3 ∷ Dropped 4 ∷ []) }
    ensures returned { HasEvents (call_function releases.after_a_return 1 [] 9
        (counters 2 (started 1 1 ∷ started 2 2 ∷ added 1 1 1 2 ∷ [])))
        (Drew 1 ∷ Drew 2 ∷ Dropped 2 ∷ Called (Target.Object 1) 1 ∷ Dropped 1 ∷ []) }
    ensures exception { HasEvents
        (call_function releases.after_an_exception 1 [] 9
        (counters 2 (started 1 2 ∷ started 2 1 ∷ [])))
        (Drew 1 ∷ Drew 2 ∷ Dropped 1 ∷ Dropped 2 ∷ []) }
    ensures function_of_the_exception { Throws (call_function releases.after_an_exception 1 [] 9
        (counters 2 (started 1 2 ∷ started 2 1 ∷ [])))
        Exception.DivideByZero (codes "g") }
    ensures construction { HasEvents
        (call_function releases.in_a_construction 0 [] 9
        (counters 2 (started 2 1 ∷ started 3 2 ∷ [])))
        (Drew 2 ∷ Drew 3 ∷ Dropped 2 ∷ Dropped 3 ∷ []) }
    ensures refused_entry { Aborts (call_function releases.in_a_construction 0 [] 2
        (counters 2 [])) (codes "A.A") }
    ensures overwritten { HasEvents (call_function releases.overwritten 2 [] 9
        (counters 2 (started 1 1 ∷ started 2 2 ∷ [])))
        (Drew 1 ∷ Drew 2 ∷ Dropped 2 ∷ Dropped 1 ∷ []) }
    ensures read_before { HasEvents (call_function releases.read_before 1 [] 9 one_counter)
        (Called (Target.Object 1) 1 ∷ Dropped 1 ∷ []) }
    ensures switch_value { HasEvents (call_function releases.after_a_switch_value 0 [] 9
        (counters 2 (started 1 1 ∷ value_read 1 1 ∷ started 2 2 ∷ [])))
        (Drew 1 ∷ Dropped 1 ∷ Drew 2 ∷ Dropped 2 ∷ []) }
    ensures each_variable { HasEvents (call_function releases.after_each_variable 0 [] 9
        (counters 2 (started 1 1 ∷ value_read 1 1 ∷ started 2 2 ∷ value_read 2 2 ∷ [])))
        (Drew 1 ∷ Dropped 1 ∷ Drew 2 ∷ Dropped 2 ∷ []) }
    ensures each_global { HasEvents (load_module releases.after_each_global 9
        (counters 2 (started 1 1 ∷ value_read 1 1 ∷ started 2 2 ∷ value_read 2 2 ∷ [])))
        (Drew 1 ∷ Dropped 1 ∷ Drew 2 ∷ Dropped 2 ∷ []) }
    ensures argument { HasEvents
        (call_function releases.held_by_an_argument 1 [] 9 (counters 1 (started 1 1 ∷ [])))
        (Drew 1 ∷ Dropped 1 ∷ []) }
    ensures exception_of_an_argument { Throws
        (call_function releases.held_by_an_argument 1 [] 9 (counters 1 (started 1 1 ∷ [])))
        Exception.DivideByZero f }
{}

/// Where jumps lead in nested statements, and which function and line an exception names. A line is that of the last
/// tick: the steps of a `for` take none.
pub fn worked_control_examples()
    ensures inner_switch { FinishesWith (call_function control.inner_switch 0 [] 9 empty_world)
        (Word.Int (pos 11)) }
    ensures continue_in_a_switch { FinishesWith
        (call_function control.continue_in_a_switch 0 [] 30 empty_world) (Word.Int (pos 2)) }
    ensures break_in_a_switch { FinishesWith
        (call_function control.break_in_a_switch 0 [] 30 empty_world) (Word.Int (pos 3)) }
    ensures break_of_the_inner_loop { FinishesWith
        (call_function control.break_of_the_inner_loop 0 [] 40 empty_world) (Word.Int (pos 3)) }
    ensures in_a_field { ThrowsAt (call_function control.failing_field 0 [] 9 empty_world)
        Exception.DivideByZero (codes "A.A") 3 }
    ensures in_a_constructor { ThrowsAt (call_function control.failing_constructor 0 [] 9
        empty_world)
        Exception.DivideByZero (codes "A.A") 4 }
    ensures in_an_argument { ThrowsAt (call_function control.failing_argument 0 [] 9 empty_world)
        Exception.DivideByZero f 1 }
    ensures in_a_condition { ThrowsAt (call_function control.failing_condition 0 [] 9 empty_world)
        Exception.DivideByZero f 2 }
    ensures in_a_step { ThrowsAt (call_function control.failing_step 0 [] 9 empty_world)
        Exception.DivideByZero f 3 }
{}
