//! Outcomes of small modules, with what they leave, computed from the definitions. These functions do nothing when
//! they run.
ghost use Rattle.std.specs.Prelude.{◌≡◌, [], ◌∷◌, pos, true, false, codes};
ghost use Rattle.ash_host.specs.declared.word.Word.{Word};
ghost use Rattle.ash_host.specs.declared.answer.HostAnswer.{HostAnswer};
ghost use Rattle.ash_host.specs.declared.event.Event.TheVariants.{Drew, Called, Dropped};
ghost use Rattle.ash_host.specs.declared.event.Target.{Target};
ghost use Rattle.ash_host.specs.Ints.{int_bytes};
ghost use Rattle.ash_host.specs.Objects.{Script, Array, Ints};
ghost use Rattle.ash_typed.specs.declared.tree.operations.Lazy.{Lazy};
ghost use Rattle.ash_meaning.specs.declared.exception.Exception.{Exception};
ghost use Rattle.ash_meaning.specs.Ends.{call_function, load_module};
ghost use Rattle.ash_meaning.specs.ExampleParts.{FinishesWith, Throws, ThrowsAt, Aborts, HasNoStep};
ghost use Rattle.ash_meaning.specs.ExampleParts.{HasEvents, HasServices, HasGlobals};
ghost use Rattle.ash_meaning.specs.ExampleParts.{HasObjects, HasLast};
ghost use Rattle.ash_meaning.specs.ExampleParts.{empty_world, numbers_spent, loaded};
ghost use Rattle.ash_meaning.specs.ExampleParts.{counters, with_counters};
ghost use Rattle.ash_meaning.specs.ExampleParts.{started, added, tallied_by, f};
ghost use Rattle.ash_meaning.specs.Examples as examples;
ghost use Rattle.ash_meaning.specs.ObjectExamples as objects;
ghost use Rattle.ash_meaning.specs.ObjectExamples.{with_answer};
ghost use Rattle.ash_meaning.specs.ReleaseExamples as releases;
ghost use Rattle.ash_meaning.specs.ReleaseExamples.{value_read, one_counter};
ghost use Rattle.ash_meaning.specs.AnswerExamples as answers;
ghost use Rattle.ash_meaning.specs.AnswerExamples.{answering, found_at, value_written};
ghost use Rattle.ash_meaning.specs.AnswerExamples.{with_tally, other_box, counter_box, with_boxes};
ghost use Rattle.ash_meaning.specs.ArrayExamples as arrays;
ghost use Rattle.ash_meaning.specs.ArrayExamples.{with_elements};
ghost use Rattle.ash_meaning.specs.OrderExamples as orders;
ghost use Rattle.ash_meaning.specs.PointExamples as points;
ghost use Rattle.ash_meaning.specs.PointExamples.{held_outside};
ghost use Rattle.ash_meaning.specs.ExceptionExamples as exceptions;

/// What is made of the answers of hosts: an answer is taken for the call that it is of alone, and a value is of the
/// declared type.
pub fn worked_answer_examples()
    ensures own_answer { HasEvents (call_function answers.two_counters 0 [] 9
        (counters 2 (started 1 1 ∷ started 2 1 ∷ added 1 1 1 2 ∷ [])))
        (Drew 1 ∷ Drew 2 ∷ Called (Target.Object 1) 1 ∷ Dropped 1 ∷ Dropped 2 ∷ []) }
    ensures another_target { HasNoStep (call_function answers.two_counters 0 [] 9
        (counters 2 (started 1 1 ∷ started 2 1 ∷ added 2 1 1 2 ∷ []))) }
    ensures another_state { HasNoStep (call_function answers.two_counters 0 [] 9
        (counters 2 (started 1 1 ∷ started 2 1 ∷ found_at 5 (added 1 1 1 2) ∷ []))) }
    ensures other_arguments { HasNoStep (call_function answers.two_counters 0 [] 9
        (counters 2 (started 1 1 ∷ started 2 1 ∷ added 1 2 1 3 ∷ []))) }
    ensures value_for_none { Throws
        (with_answer objects.failing 2 9 (HostAnswer.Value (Word.Int (pos 1))))
        Exception.BadHostAnswer f }
    ensures value_of_a_start { Throws (call_function answers.drawing 0 [] 9
        (counters 1 (answering (HostAnswer.Value (Word.Int (pos 7))) (started 1 1) ∷ [])))
        Exception.BadHostAnswer f }
    ensures raise_of_a_start { Throws (call_function answers.drawing 0 [] 9
        (counters 1 (answering (HostAnswer.Raise 9) (started 1 1) ∷ [])))
        (Exception.Raised 9) f }
    ensures drawn_and_dropped { HasEvents (call_function answers.drawing 0 [] 9
        (counters 1 (answering (HostAnswer.Raise 9) (started 1 1) ∷ [])))
        (Drew 1 ∷ Dropped 1 ∷ []) }
    ensures property_of_another_type { Throws (call_function answers.reading 0 [] 9
        (counters 1 (started 1 1 ∷ answering (HostAnswer.Value (Word.Bool true)) (value_read 1 1)
        ∷ [])))
        Exception.BadHostAnswer f }
    ensures property_without_a_value { Throws (call_function answers.reading 0 [] 9
        (counters 1 (started 1 1 ∷ answering HostAnswer.Nothing (value_read 1 1) ∷ [])))
        Exception.BadHostAnswer f }
    ensures property_written { FinishesWith (call_function answers.writing 0 [] 9
        (counters 1 (started 1 1 ∷ value_written 1 1 5 ∷ value_read 1 5 ∷ [])))
        (Word.Int (pos 5)) }
    ensures property_updated { FinishesWith (call_function answers.updating 0 [] 9
        (counters 1 (started 1 1 ∷ value_read 1 1 ∷ value_written 1 1 5 ∷ [])))
        (Word.Int (pos 5)) }
{}

/// What a service leaves that raises, and which boxes are drawn from the pool.
pub fn worked_pool_examples()
    ensures raise_of_a_service { Throws (call_function answers.tallying 0 [] 9
        (with_tally (answering (HostAnswer.Raise 9) (tallied_by 4 0 4) ∷ [])))
        (Exception.Raised 9) f }
    ensures its_state_stays { HasServices (call_function answers.tallying 0 [] 9
        (with_tally (answering (HostAnswer.Raise 9) (tallied_by 4 0 4) ∷ [])))
        (int_bytes (pos 4) ∷ []) }
    ensures its_event_stays { HasEvents (call_function answers.tallying 0 [] 9
        (with_tally (answering (HostAnswer.Raise 9) (tallied_by 4 0 4) ∷ [])))
        (Called (Target.Service 0) 1 ∷ []) }
    ensures first_of_its_kind { HasEvents (call_function answers.drawing_two 0 [] 9
        (with_boxes (other_box ∷ counter_box 0 ∷ counter_box 3 ∷ [])
        (started 1 1 ∷ found_at 3 (started 2 2) ∷ [])))
        (Drew 1 ∷ Drew 2 ∷ Dropped 1 ∷ Dropped 2 ∷ []) }
    ensures none_of_its_kind { Throws
        (call_function answers.drawing 0 [] 9 (with_boxes (other_box ∷ []) [])) Exception.PoolEmpty
        f }
    ensures number_before_box { Throws
        (call_function answers.drawing 0 [] 9 numbers_spent) Exception.NumbersSpent f }
{}

/// What functions do to arrays: what is tested first, and what stays where an array would be too long.
pub fn worked_array_examples()
    ensures index_before_null { Throws
        (call_function arrays.through_no_array 0 (Word.Int (pos 0) ∷ []) 9
        (loaded arrays.through_no_array))
        Exception.DivideByZero f }
    ensures null_before_bounds { Throws
        (call_function arrays.through_no_array 0 (Word.Int (pos 1) ∷ []) 9
        (loaded arrays.through_no_array))
        Exception.NullPointerAccess f }
    ensures too_long_changes_nothing { HasObjects
        (call_function objects.resized 0 (Word.Uint 4097 ∷ []) 9 (loaded objects.resized))
        ((1, Array Ints []) ∷ []) }
    ensures inserted_last { HasObjects (call_function arrays.inserting 0 [] 9 (with_elements 2))
        ((1, Array Ints (Word.Int (pos 0) ∷ Word.Int (pos 0) ∷ Word.Int (pos 1) ∷ [])) ∷ []) }
    ensures no_room { Throws
        (call_function arrays.inserting 0 [] 9 (with_elements 4096)) Exception.ArrayLimit f }
    ensures taken_away { HasEvents (call_function arrays.shortened 0 [] 9
        (with_counters 4 (started 2 1 ∷ started 3 2 ∷ started 4 3 ∷ started 5 4 ∷ [])
        (loaded arrays.shortened)))
        (Drew 2 ∷ Drew 3 ∷ Drew 4 ∷ Dropped 3 ∷ Dropped 4 ∷ Drew 5 ∷ Dropped 5 ∷ []) }
    ensures too_many_elements { Throws
        (call_function arrays.making 0 (Word.Uint 4097 ∷ []) 9 empty_world) Exception.ArrayLimit f }
    ensures no_number_is_taken { HasLast
        (call_function arrays.making 0 (Word.Uint 4097 ∷ []) 9 empty_world) 0 }
    ensures number_before_length { Throws
        (call_function arrays.making 0 (Word.Uint 4097 ∷ []) 9 numbers_spent)
        Exception.NumbersSpent f }
{}

/// In which order phrases are computed, what a call through an interface runs, and how many frames there are.
pub fn worked_order_examples()
    ensures arguments { FinishesWith
        (call_function orders.two_arguments 2 [] 20 (loaded orders.two_arguments))
        (Word.Int (pos 12)) }
    ensures arguments_before_null { Throws
        (call_function orders.through_null 0 (Word.Int (pos 0) ∷ []) 9 (loaded orders.through_null))
        Exception.DivideByZero f }
    ensures null_after_them { Throws
        (call_function orders.through_null 0 (Word.Int (pos 1) ∷ []) 9 (loaded orders.through_null))
        Exception.NullPointerAccess f }
    ensures updated_place { FinishesWith
        (call_function orders.updated 2 [] 20 (loaded orders.updated)) (Word.Int (pos 21)) }
    ensures counted_place { FinishesWith
        (call_function orders.counted 2 [] 20 (loaded orders.counted)) (Word.Int (pos 1)) }
    ensures left_operand_first { FinishesWith
        (call_function orders.read_first 0 (Word.Int (pos 1) ∷ []) 9 empty_world)
        (Word.Int (pos 6)) }
    ensures updated_place_last { FinishesWith
        (call_function orders.read_last 0 (Word.Int (pos 1) ∷ []) 9 empty_world)
        (Word.Int (pos 10)) }
    ensures decided_by_true { FinishesWith (call_function (orders.deciding Lazy.Or true) 1 [] 9
        (loaded (orders.deciding Lazy.Or true)))
        (Word.Int (pos 0)) }
    ensures left_open_by_false { FinishesWith (call_function (orders.deciding Lazy.Or false) 1 [] 9
        (loaded (orders.deciding Lazy.Or false)))
        (Word.Int (pos 1)) }
    ensures left_open_by_true { FinishesWith (call_function (orders.deciding Lazy.And true) 1 [] 9
        (loaded (orders.deciding Lazy.And true)))
        (Word.Int (pos 1)) }
    ensures methods_in_another_order { FinishesWith
        (call_function orders.in_another_order 0 [] 9 (loaded orders.in_another_order))
        (Word.Int (pos 12)) }
    ensures interface_that_is_not_listed { FinishesWith
        (call_function orders.not_listed 0 [] 9 (loaded orders.not_listed)) (Word.Bool true) }
    ensures frame_of_the_caller { Throws
        (call_function orders.in_turn 0 [] 512 empty_world) Exception.StackOverflow (codes "g") }
    ensures frame_of_a_load { Throws
        (load_module orders.endless_load 511 empty_world) Exception.StackOverflow f }
    ensures ticks_of_a_load { Aborts (load_module orders.endless_load 510 empty_world) f }
{}

/// Objects that go with a full expression, with blocks and with a frame: at the first release point after the last
/// handle, those of one point by ascending number.
pub fn worked_point_examples()
    ensures each_statement { HasEvents (call_function points.after_each_statement 0 [] 9
        (counters 2 (started 1 1 ∷ started 2 2 ∷ [])))
        (Drew 1 ∷ Dropped 1 ∷ Drew 2 ∷ Dropped 2 ∷ []) }
    ensures each_member { HasEvents (call_function points.after_each_member 0 [] 9
        (counters 2 (started 2 1 ∷ value_read 2 1 ∷ started 3 2 ∷ value_read 3 2 ∷ [])))
        (Drew 2 ∷ Dropped 2 ∷ Drew 3 ∷ Dropped 3 ∷ []) }
    ensures each_turn { HasEvents (call_function points.after_each_turn 0 [] 9
        (counters 2 (started 1 1 ∷ value_read 1 1 ∷ started 2 1 ∷ value_read 2 1 ∷ [])))
        (Drew 1 ∷ Dropped 1 ∷ Drew 2 ∷ Dropped 2 ∷ []) }
    ensures head { HasEvents (call_function points.after_a_head 0 [] 9
        (counters 2 (started 1 1 ∷ started 2 2 ∷ value_read 2 2 ∷ [])))
        (Drew 1 ∷ Dropped 1 ∷ Drew 2 ∷ Dropped 2 ∷ []) }
    ensures each_step { HasEvents (call_function points.after_each_step 0 [] 9
        (counters 2 (started 1 1 ∷ started 2 2 ∷ [])))
        (Drew 1 ∷ Dropped 1 ∷ Drew 2 ∷ Dropped 2 ∷ []) }
    ensures assignment { HasEvents (call_function points.after_an_assignment 0 [] 9
        (with_counters 2 (started 2 2 ∷ started 3 3 ∷ []) one_counter))
        (Drew 2 ∷ Dropped 1 ∷ Drew 3 ∷ Dropped 3 ∷ []) }
    ensures assigned_to_itself { FinishesWith (call_function points.assigned_to_itself 0 [] 9
        (counters 1 (started 1 1 ∷ added 1 1 1 2 ∷ [])))
        (Word.Int (pos 2)) }
    ensures blocks_of_a_switch { HasEvents (call_function points.after_a_switch 0 [] 9
        (counters 3 (started 1 1 ∷ started 2 2 ∷ started 3 3 ∷ [])))
        (Drew 1 ∷ Drew 2 ∷ Dropped 1 ∷ Dropped 2 ∷ Drew 3 ∷ Dropped 3 ∷ []) }
    ensures returned_value { HasEvents (call_function points.with_a_value 1 [] 9
        (counters 2 (started 1 1 ∷ started 2 2 ∷ value_read 2 2 ∷ [])))
        (Drew 1 ∷ Drew 2 ∷ Dropped 1 ∷ Dropped 2 ∷ []) }
    ensures blocks_of_a_frame { HasEvents (call_function points.from_blocks 1 [] 9
        (counters 2 (started 1 1 ∷ started 2 2 ∷ [])))
        (Drew 1 ∷ Drew 2 ∷ Dropped 1 ∷ Dropped 2 ∷ []) }
    ensures body { HasEvents (call_function points.after_a_body 1 [] 9
        (counters 3 (started 1 1 ∷ started 2 2 ∷ started 3 3 ∷ [])))
        (Drew 1 ∷ Drew 2 ∷ Dropped 1 ∷ Dropped 2 ∷ Drew 3 ∷ Dropped 3 ∷ []) }
    ensures parameter { HasEvents (call_function points.after_a_parameter 1 [] 9
        (counters 2 (started 1 1 ∷ started 2 2 ∷ [])))
        (Drew 1 ∷ Dropped 1 ∷ Drew 2 ∷ Dropped 2 ∷ []) }
    ensures aborted_frames { HasEvents (call_function releases.after_an_exception 1 [] 5
        (counters 2 (started 1 2 ∷ started 2 1 ∷ [])))
        (Drew 1 ∷ Drew 2 ∷ Dropped 1 ∷ Dropped 2 ∷ []) }
    ensures held_outside { HasEvents (call_function examples.sum 0 [] 2 held_outside) [] }
{}

/// Exceptions in each form of phrase, with the function and the line of the last tick.
pub fn worked_exception_examples()
    ensures local { ThrowsAt
        (call_function exceptions.in_a_local 0 [] 9 empty_world) Exception.DivideByZero f 3 }
    ensures if_condition { ThrowsAt
        (call_function exceptions.in_an_if 0 [] 9 empty_world) Exception.DivideByZero f 3 }
    ensures do_condition { ThrowsAt
        (call_function exceptions.in_a_do 0 [] 9 empty_world) Exception.DivideByZero f 3 }
    ensures for_condition { ThrowsAt
        (call_function exceptions.in_a_for 0 [] 9 empty_world) Exception.DivideByZero f 3 }
    ensures for_head { ThrowsAt
        (call_function exceptions.in_a_head 0 [] 9 empty_world) Exception.DivideByZero f 3 }
    ensures switch_value { ThrowsAt
        (call_function exceptions.in_a_switch 0 [] 9 empty_world) Exception.DivideByZero f 3 }
    ensures after_a_member { ThrowsAt
        (call_function exceptions.after_a_member 0 [] 9 (counters 1 (started 2 1 ∷ [])))
        Exception.DivideByZero (codes "A.A") 4 }
    ensures second_member { ThrowsAt
        (call_function exceptions.in_a_second_member 0 [] 9 (counters 1 (started 2 1 ∷ [])))
        Exception.DivideByZero (codes "A.A") 3 }
    ensures argument_of_a_construction { Throws
        (call_function exceptions.before_a_construction 0 [] 9 empty_world) Exception.DivideByZero
        f }
    ensures argument_of_a_draw { Throws
        (call_function exceptions.before_a_draw 0 [] 9 (counters 1 [])) Exception.DivideByZero f }
    ensures condition { Throws (call_function exceptions.with_a_condition 0 [] 9
        (counters 1 (started 1 1 ∷ value_read 1 1 ∷ [])))
        Exception.DivideByZero f }
    ensures step { Throws (call_function exceptions.with_a_head 0 [] 9
        (counters 2 (started 1 1 ∷ started 2 2 ∷ [])))
        Exception.DivideByZero f }
    ensures global { Throws
        (load_module exceptions.in_a_call_of_a_global 9 empty_world) Exception.DivideByZero f }
{}

/// What is left where a run ends by an exception, or is aborted: what was done stays, and what only its frames held
/// goes.
pub fn worked_effect_examples()
    ensures of_a_constructor { HasEvents
        (call_function exceptions.after_a_member 0 [] 9 (counters 1 (started 2 1 ∷ [])))
        (Drew 2 ∷ Dropped 2 ∷ []) }
    ensures no_object_is_left { HasObjects
        (call_function exceptions.after_a_member 0 [] 9 (counters 1 (started 2 1 ∷ []))) [] }
    ensures its_number_is_taken { HasLast
        (call_function exceptions.after_a_member 0 [] 9 (counters 1 (started 2 1 ∷ []))) 2 }
    ensures of_a_member { HasEvents
        (call_function exceptions.in_a_second_member 0 [] 9 (counters 1 (started 2 1 ∷ [])))
        (Drew 2 ∷ Dropped 2 ∷ []) }
    ensures before_a_construction { HasLast
        (call_function exceptions.before_a_construction 0 [] 9 empty_world) 0 }
    ensures before_a_draw { HasEvents (call_function exceptions.before_a_draw 0 [] 9
        (counters 1 [])) [] }
    ensures escaped { HasObjects (call_function exceptions.escaped 0 [] 9
        (loaded exceptions.escaped))
        ((1, Script (codes "m") 0 (Word.Int (pos 1) ∷ [])) ∷ []) }
    ensures of_a_condition { HasEvents (call_function exceptions.with_a_condition 0 [] 9
        (counters 1 (started 1 1 ∷ value_read 1 1 ∷ [])))
        (Drew 1 ∷ Dropped 1 ∷ []) }
    ensures of_a_step { HasEvents (call_function exceptions.with_a_head 0 [] 9
        (counters 2 (started 1 1 ∷ started 2 2 ∷ [])))
        (Drew 1 ∷ Drew 2 ∷ Dropped 2 ∷ Dropped 1 ∷ []) }
    ensures of_an_exception { HasGlobals
        (call_function exceptions.written_before 0 [] 9 (loaded exceptions.written_before))
        (Word.Int (pos 1) ∷ []) }
    ensures of_an_abort { HasGlobals
        (call_function exceptions.written_before 0 [] 2 (loaded exceptions.written_before))
        (Word.Int (pos 1) ∷ []) }
{}
