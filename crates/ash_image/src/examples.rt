//! Images that were written by hand, byte by byte, and bytes that differ from an image in one thing and are the image
//! of nothing. These functions do nothing when they run.
ghost use Rattle.std.specs.Prelude.{◌++◌, ◌∷◌, [], take, replicate, codes};
ghost use Rattle.ash_image.specs.Rules.{IsImage};
ghost use Rattle.ash_image.specs.ImageExamples.{IsSomeImage, IsDamaged, without_text};
ghost use Rattle.ash_image.specs.ImageExamples.{with_text, with_one_type};
ghost use Rattle.ash_image.specs.ImageExamples.{nothing, nothing_rest, of_each, of_each_rest};
ghost use Rattle.ash_image.specs.ImageExamples.{without_arrays, without_arrays_rest};
ghost use Rattle.ash_image.specs.ImageExamples.{of_types, of_types_rest};
ghost use Rattle.ash_image.specs.ImageExamples.{none2, none4, none8, null};
ghost use Rattle.ash_image.specs.ImageExamples.{handle_to, empty_object};
ghost use Rattle.ash_image.specs.Damage.{repeated, other_text, modules_named};
ghost use Rattle.ash_image.specs.Damage.{so_many_modules, one_named};
ghost use Rattle.ash_image.specs.Damage.{so_many_services, one_global, one_object};
ghost use Rattle.ash_image.specs.Damage.{two_objects, two_numbers};
ghost use Rattle.ash_image.specs.Damage.{script, array, of_class, of_kind, seven};
ghost use Rattle.ash_image.specs.declared.version.Version.TheVariants.{One, Two};

/// What a few bytes are the image of.
pub fn worked_images()
    ensures nothing_loaded { IsImage (without_text 2 nothing_rest) Two nothing }
    ensures nothing_loaded_before { IsImage (without_text 1 nothing_rest) One nothing }
    ensures object_of_each { IsImage (with_text 2 of_each_rest) Two of_each }
    ensures without_arrays { IsImage (with_text 2 without_arrays_rest) Two without_arrays }
    ensures without_arrays_before { IsImage (with_text 1 without_arrays_rest) One without_arrays }
    ensures word_of_each { IsImage (with_one_type of_types_rest) Two of_types }
{}

/// Versions, texts and lengths.
pub fn worked_frames()
    ensures no_bytes { IsDamaged [] }
    ensures version_zero { IsDamaged (without_text 0 nothing_rest) }
    ensures another_version { IsDamaged (without_text 3 nothing_rest) }
    ensures text_of_no_text { IsDamaged other_text }
    ensures left_over { IsDamaged (without_text 2 (nothing_rest ++ 0 ∷ [])) }
    ensures cut { IsDamaged (without_text 2 (take 22 nothing_rest)) }
    ensures array_before_arrays { IsDamaged (with_text 1 of_each_rest) }
{}

/// Modules, services and words.
pub fn worked_modules()
    ensures in_order { IsSomeImage (without_text 2 (modules_named (97 ∷ 98 ∷ []))) }
    ensures order_of_modules { IsDamaged (without_text 2 (modules_named (98 ∷ 97 ∷ []))) }
    ensures one_name { IsDamaged (without_text 2 (modules_named (97 ∷ 97 ∷ []))) }
    ensures sixteen_modules { IsSomeImage (without_text 2 (so_many_modules 16)) }
    ensures seventeen_modules { IsDamaged (without_text 2 (so_many_modules 17)) }
    ensures name { IsSomeImage (without_text 2 (one_named (codes "a1"))) }
    ensures name_of_a_digit { IsDamaged (without_text 2 (one_named (codes "1a"))) }
    ensures no_name { IsDamaged (without_text 2 (one_named [])) }
    ensures longest_name { IsSomeImage (without_text 2 (one_named (replicate 64 97))) }
    ensures name_too_long { IsDamaged (without_text 2 (one_named (replicate 65 97))) }
    ensures sixteen_services { IsSomeImage (without_text 2 (so_many_services 16)) }
    ensures seventeen_services { IsDamaged (without_text 2 (so_many_services 17)) }
    ensures truth { IsSomeImage (without_text 2 (one_global (0 ∷ 1 ∷ []))) }
    ensures truth_of_two { IsDamaged (without_text 2 (one_global (0 ∷ 2 ∷ []))) }
    ensures unknown_tag { IsDamaged (without_text 2 (one_global (7 ∷ []))) }
    ensures unknown_tag_1 { IsDamaged (without_text 2 (one_global (7 ∷ 0 ∷ []))) }
    ensures unknown_tag_4 { IsDamaged (without_text 2 (one_global (7 ∷ none4))) }
    ensures unknown_tag_8 { IsDamaged (without_text 2 (one_global (7 ∷ none8))) }
{}

/// Objects, and what their fields and elements are.
pub fn worked_objects()
    ensures one { IsSomeImage (without_text 2 (one_object 1 (script 0 0 []))) }
    ensures no_such_module { IsDamaged (without_text 2 (one_object 1 (script 1 0 []))) }
    ensures above_the_last { IsDamaged (without_text 2 (one_object 0 (script 0 0 []))) }
    ensures tag_zero { IsDamaged (without_text 2 (one_object 1 (0 ∷ []))) }
    ensures tag_zero_4 { IsDamaged (without_text 2 (one_object 1 (0 ∷ none4))) }
    ensures tag_four { IsDamaged (without_text 2 (one_object 1 (4 ∷ []))) }
    ensures tag_four_4 { IsDamaged (without_text 2 (one_object 1 (4 ∷ none4))) }
    ensures fields { IsSomeImage (without_text 2 (one_object 1 (script 0 32 (repeated 32 null)))) }
    ensures field_too_many { IsDamaged (without_text 2
        (one_object 1 (script 0 33 (repeated 33 null)))) }
    ensures elements { IsSomeImage (without_text 2 (one_object 1 (array (1 ∷ []) seven))) }
    ensures word_of_another_type { IsDamaged (without_text 2 (one_object 1 (array (1 ∷ []) null))) }
    ensures element_of_another_type { IsDamaged (without_text 2
        (one_object 1 (array (2 ∷ []) seven))) }
    ensures handles { IsSomeImage (without_text 2 (one_object 1 (array (of_class 0) null))) }
    ensures elements_of_no_module { IsDamaged (without_text 2
        (one_object 1 (array (of_class 1) null))) }
    ensures unknown_element { IsDamaged (without_text 2 (one_object 1 (array (7 ∷ []) null))) }
    ensures unknown_element_2 { IsDamaged (without_text 2 (one_object 1 (array (7 ∷ none2) null))) }
{}

/// Numbers, handles, and what can be reached.
pub fn worked_numbers()
    ensures in_order { IsSomeImage (without_text 2 (two_numbers 1 2 1 2)) }
    ensures order_of_objects { IsDamaged (without_text 2 (two_numbers 1 2 2 1)) }
    ensures one_number { IsDamaged (without_text 2 (two_numbers 1 1 1 1)) }
    ensures number_zero { IsDamaged (without_text 2 (two_numbers 0 1 0 1)) }
    ensures above_the_last { IsDamaged (without_text 2 (two_numbers 1 3 1 3)) }
    ensures never_reached { IsDamaged (without_text 2 (two_numbers 1 1 1 2)) }
    ensures no_such_object { IsDamaged (without_text 2 (one_global (handle_to 1))) }
    ensures by_field { IsSomeImage (without_text 2
        (two_objects (script 0 1 (handle_to 2)) empty_object)) }
    ensures no_object_of_field { IsDamaged (without_text 2
        (one_object 1 (script 0 1 (handle_to 2)))) }
    ensures by_element { IsSomeImage (without_text 2
        (two_objects (array (of_class 0) (handle_to 2)) empty_object)) }
    ensures no_object_of_element { IsDamaged (without_text 2
        (one_object 1 (array of_kind (handle_to 2)))) }
    ensures by_nothing { IsDamaged (without_text 2 (two_objects (script 0 1 null) empty_object)) }
    ensures by_itself { IsDamaged (without_text 2
        (two_objects (script 0 1 null) (script 0 1 (handle_to 2)))) }
{}
