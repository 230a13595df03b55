//! Tables of integers and of ticks, computed from the definitions. These functions do nothing when they run.
ghost use Rattle.std.specs.Prelude.{◌≡◌, [], ◌∷◌, ◌++◌, true, false, pos};
ghost use Rattle.std.specs.Prelude.{negsuc, codes, Some, Ok, Err};
ghost use Rattle.ash_host.specs.declared.word.Word.{Word};
ghost use Rattle.ash_integers.specs.declared.arithmetic.DivisionFault.{DivisionFault};
ghost use Rattle.ash_integers.specs.declared.int_type.IntType.{IntType};
ghost use Rattle.ash_typed.specs.declared.tree.operations.Calculator.{Calculator};
ghost use Rattle.ash_typed.specs.declared.tree.operations.Comparator.{Comparator};
ghost use Rattle.ash_meaning.specs.Ends.{Finished};
ghost use Rattle.ash_meaning.specs.ExampleParts.{f};
ghost use Rattle.ash_meaning.specs.Tables.{made_of, signed_pairs, unsigned_pairs};
ghost use Rattle.ash_meaning.specs.Tables.{conversions_to, every_statement};
ghost use Rattle.ash_meaning.specs.Tables.{compared_of, compared_truths, changed_of};
ghost use Rattle.ash_meaning.specs.Tables.{every_jump, every_frame};
ghost use Rattle.ash_meaning.specs.Tables.{ends_within, aborted_at, aborted_in};

/// Every operator on `int`, at its extremes.
pub fn worked_int_table()
    ensures products { made_of Calculator.Multiply IntType.Int (signed_pairs 32)
        ≡ (Ok (negsuc 2147483647) ∷ Ok (negsuc 2147483647) ∷ Ok (pos 1) ∷ Ok (negsuc 13) ∷
        Ok (negsuc 13) ∷ Ok (pos 0) ∷ Ok (pos 33) ∷ []) }
    ensures quotients { made_of Calculator.Divide IntType.Int (signed_pairs 32)
        ≡ (Err DivisionFault.Overflow ∷ Ok (negsuc 0) ∷ Ok (pos 1) ∷ Ok (negsuc 2) ∷
        Ok (negsuc 2) ∷ Err DivisionFault.ByZero ∷ Ok (pos 0) ∷ []) }
    ensures remainders { made_of Calculator.Remainder IntType.Int (signed_pairs 32)
        ≡ (Err DivisionFault.Overflow ∷ Ok (negsuc 0) ∷ Ok (pos 0) ∷ Ok (negsuc 0) ∷ Ok (pos 1) ∷
        Err DivisionFault.ByZero ∷ Ok (pos 1) ∷ []) }
    ensures sums { made_of Calculator.Add IntType.Int (signed_pairs 32)
        ≡ (Ok (pos 2147483647) ∷ Ok (negsuc 0) ∷ Ok (negsuc 1) ∷ Ok (negsuc 4) ∷ Ok (pos 5) ∷
        Ok (pos 5) ∷ Ok (pos 34) ∷ []) }
    ensures differences { made_of Calculator.Subtract IntType.Int (signed_pairs 32)
        ≡ (Ok (negsuc 2147483646) ∷ Ok (pos 1) ∷ Ok (pos 0) ∷ Ok (negsuc 8) ∷ Ok (pos 9) ∷
        Ok (pos 5) ∷ Ok (negsuc 31) ∷ []) }
    ensures shifted_left { made_of Calculator.ShiftLeft IntType.Int (signed_pairs 32)
        ≡ (Ok (pos 0) ∷ Ok (pos 0) ∷ Ok (negsuc 2147483647) ∷ Ok (negsuc 27) ∷
        Ok (negsuc 1073741823) ∷ Ok (pos 5) ∷ Ok (pos 2) ∷ []) }
    ensures shifted_right { made_of Calculator.ShiftRight IntType.Int (signed_pairs 32)
        ≡ (Ok (pos 1) ∷ Ok (pos 1) ∷ Ok (pos 0) ∷ Ok (pos 1073741822) ∷ Ok (pos 0) ∷ Ok (pos 5) ∷
        Ok (pos 0) ∷ []) }
    ensures shifted_with_sign { made_of Calculator.ShiftRightArithmetic IntType.Int
        (signed_pairs 32)
        ≡ (Ok (negsuc 0) ∷ Ok (negsuc 0) ∷ Ok (pos 0) ∷ Ok (negsuc 1) ∷ Ok (pos 0) ∷ Ok (pos 5) ∷
        Ok (pos 0) ∷ []) }
    ensures ands { made_of Calculator.BitAnd IntType.Int (signed_pairs 32)
        ≡ (Ok (negsuc 2147483647) ∷ Ok (pos 0) ∷ Ok (pos 2147483647) ∷ Ok (pos 0) ∷ Ok (pos 6) ∷
        Ok (pos 0) ∷ Ok (pos 1) ∷ []) }
    ensures exclusive_ors { made_of Calculator.BitXor IntType.Int (signed_pairs 32)
        ≡ (Ok (pos 2147483647) ∷ Ok (negsuc 0) ∷ Ok (pos 0) ∷ Ok (negsuc 4) ∷ Ok (negsuc 6) ∷
        Ok (pos 5) ∷ Ok (pos 32) ∷ []) }
    ensures ors { made_of Calculator.BitOr IntType.Int (signed_pairs 32)
        ≡ (Ok (negsuc 0) ∷ Ok (negsuc 0) ∷ Ok (pos 2147483647) ∷ Ok (negsuc 4) ∷ Ok (negsuc 0) ∷
        Ok (pos 5) ∷ Ok (pos 33) ∷ []) }
{}

/// Every operator on `uint`, at its extremes.
pub fn worked_uint_table()
    ensures products { made_of Calculator.Multiply IntType.Uint (unsigned_pairs 32)
        ≡ (Ok (pos 1) ∷ Ok (pos 4294967294) ∷ Ok (pos 14) ∷ Ok (pos 14) ∷ Ok (pos 0) ∷ Ok (pos 0) ∷
        Ok (pos 33) ∷ []) }
    ensures quotients { made_of Calculator.Divide IntType.Uint (unsigned_pairs 32)
        ≡ (Ok (pos 1) ∷ Ok (pos 2147483647) ∷ Ok (pos 3) ∷ Ok (pos 0) ∷ Ok (pos 0) ∷
        Err DivisionFault.ByZero ∷ Ok (pos 0) ∷ []) }
    ensures remainders { made_of Calculator.Remainder IntType.Uint (unsigned_pairs 32)
        ≡ (Ok (pos 0) ∷ Ok (pos 1) ∷ Ok (pos 1) ∷ Ok (pos 2) ∷ Ok (pos 0) ∷
        Err DivisionFault.ByZero ∷ Ok (pos 1) ∷ []) }
    ensures sums { made_of Calculator.Add IntType.Uint (unsigned_pairs 32)
        ≡ (Ok (pos 4294967294) ∷ Ok (pos 1) ∷ Ok (pos 9) ∷ Ok (pos 9) ∷ Ok (pos 4294967295) ∷
        Ok (pos 5) ∷ Ok (pos 34) ∷ []) }
    ensures differences { made_of Calculator.Subtract IntType.Uint (unsigned_pairs 32)
        ≡ (Ok (pos 0) ∷ Ok (pos 4294967293) ∷ Ok (pos 5) ∷ Ok (pos 4294967291) ∷ Ok (pos 1) ∷
        Ok (pos 5) ∷ Ok (pos 4294967264) ∷ []) }
    ensures shifted_left { made_of Calculator.ShiftLeft IntType.Uint (unsigned_pairs 32)
        ≡ (Ok (pos 2147483648) ∷ Ok (pos 4294967292) ∷ Ok (pos 28) ∷ Ok (pos 256) ∷ Ok (pos 0) ∷
        Ok (pos 5) ∷ Ok (pos 2) ∷ []) }
    ensures shifted_right { made_of Calculator.ShiftRight IntType.Uint (unsigned_pairs 32)
        ≡ (Ok (pos 1) ∷ Ok (pos 1073741823) ∷ Ok (pos 1) ∷ Ok (pos 0) ∷ Ok (pos 0) ∷ Ok (pos 5) ∷
        Ok (pos 0) ∷ []) }
    ensures shifted_with_sign { made_of Calculator.ShiftRightArithmetic IntType.Uint
        (unsigned_pairs 32)
        ≡ (Ok (pos 4294967295) ∷ Ok (pos 4294967295) ∷ Ok (pos 1) ∷ Ok (pos 0) ∷ Ok (pos 0) ∷
        Ok (pos 5) ∷ Ok (pos 0) ∷ []) }
    ensures ands { made_of Calculator.BitAnd IntType.Uint (unsigned_pairs 32)
        ≡ (Ok (pos 4294967295) ∷ Ok (pos 2) ∷ Ok (pos 2) ∷ Ok (pos 2) ∷ Ok (pos 0) ∷ Ok (pos 0) ∷
        Ok (pos 1) ∷ []) }
    ensures exclusive_ors { made_of Calculator.BitXor IntType.Uint (unsigned_pairs 32)
        ≡ (Ok (pos 0) ∷ Ok (pos 4294967293) ∷ Ok (pos 5) ∷ Ok (pos 5) ∷ Ok (pos 4294967295) ∷
        Ok (pos 5) ∷ Ok (pos 32) ∷ []) }
    ensures ors { made_of Calculator.BitOr IntType.Uint (unsigned_pairs 32)
        ≡ (Ok (pos 4294967295) ∷ Ok (pos 4294967295) ∷ Ok (pos 7) ∷ Ok (pos 7) ∷
        Ok (pos 4294967295) ∷ Ok (pos 5) ∷ Ok (pos 33) ∷ []) }
{}

/// Every operator on `int64`, at its extremes.
pub fn worked_int64_table()
    ensures products { made_of Calculator.Multiply IntType.Int64 (signed_pairs 64)
        ≡ (Ok (negsuc 9223372036854775807) ∷ Ok (negsuc 9223372036854775807) ∷ Ok (pos 1) ∷
        Ok (negsuc 13) ∷ Ok (negsuc 13) ∷ Ok (pos 0) ∷ Ok (pos 65) ∷ []) }
    ensures quotients { made_of Calculator.Divide IntType.Int64 (signed_pairs 64)
        ≡ (Err DivisionFault.Overflow ∷ Ok (negsuc 0) ∷ Ok (pos 1) ∷ Ok (negsuc 2) ∷
        Ok (negsuc 2) ∷ Err DivisionFault.ByZero ∷ Ok (pos 0) ∷ []) }
    ensures remainders { made_of Calculator.Remainder IntType.Int64 (signed_pairs 64)
        ≡ (Err DivisionFault.Overflow ∷ Ok (negsuc 0) ∷ Ok (pos 0) ∷ Ok (negsuc 0) ∷ Ok (pos 1) ∷
        Err DivisionFault.ByZero ∷ Ok (pos 1) ∷ []) }
    ensures sums { made_of Calculator.Add IntType.Int64 (signed_pairs 64)
        ≡ (Ok (pos 9223372036854775807) ∷ Ok (negsuc 0) ∷ Ok (negsuc 1) ∷ Ok (negsuc 4) ∷
        Ok (pos 5) ∷ Ok (pos 5) ∷ Ok (pos 66) ∷ []) }
    ensures differences { made_of Calculator.Subtract IntType.Int64 (signed_pairs 64)
        ≡ (Ok (negsuc 9223372036854775806) ∷ Ok (pos 1) ∷ Ok (pos 0) ∷ Ok (negsuc 8) ∷ Ok (pos 9) ∷
        Ok (pos 5) ∷ Ok (negsuc 63) ∷ []) }
    ensures shifted_left { made_of Calculator.ShiftLeft IntType.Int64 (signed_pairs 64)
        ≡ (Ok (pos 0) ∷ Ok (pos 0) ∷ Ok (negsuc 9223372036854775807) ∷ Ok (negsuc 27) ∷
        Ok (negsuc 4611686018427387903) ∷ Ok (pos 5) ∷ Ok (pos 2) ∷ []) }
    ensures shifted_right { made_of Calculator.ShiftRight IntType.Int64 (signed_pairs 64)
        ≡ (Ok (pos 1) ∷ Ok (pos 1) ∷ Ok (pos 0) ∷ Ok (pos 4611686018427387902) ∷ Ok (pos 0) ∷
        Ok (pos 5) ∷ Ok (pos 0) ∷ []) }
    ensures shifted_with_sign { made_of Calculator.ShiftRightArithmetic IntType.Int64
        (signed_pairs 64)
        ≡ (Ok (negsuc 0) ∷ Ok (negsuc 0) ∷ Ok (pos 0) ∷ Ok (negsuc 1) ∷ Ok (pos 0) ∷ Ok (pos 5) ∷
        Ok (pos 0) ∷ []) }
    ensures ands { made_of Calculator.BitAnd IntType.Int64 (signed_pairs 64)
        ≡ (Ok (negsuc 9223372036854775807) ∷ Ok (pos 0) ∷ Ok (pos 9223372036854775807) ∷
        Ok (pos 0) ∷ Ok (pos 6) ∷ Ok (pos 0) ∷ Ok (pos 1) ∷ []) }
    ensures exclusive_ors { made_of Calculator.BitXor IntType.Int64 (signed_pairs 64)
        ≡ (Ok (pos 9223372036854775807) ∷ Ok (negsuc 0) ∷ Ok (pos 0) ∷ Ok (negsuc 4) ∷
        Ok (negsuc 6) ∷ Ok (pos 5) ∷ Ok (pos 64) ∷ []) }
    ensures ors { made_of Calculator.BitOr IntType.Int64 (signed_pairs 64)
        ≡ (Ok (negsuc 0) ∷ Ok (negsuc 0) ∷ Ok (pos 9223372036854775807) ∷ Ok (negsuc 4) ∷
        Ok (negsuc 0) ∷ Ok (pos 5) ∷ Ok (pos 65) ∷ []) }
{}

/// Every operator on `uint64`, at its extremes.
pub fn worked_uint64_table()
    ensures products { made_of Calculator.Multiply IntType.Uint64 (unsigned_pairs 64)
        ≡ (Ok (pos 1) ∷ Ok (pos 18446744073709551614) ∷ Ok (pos 14) ∷ Ok (pos 14) ∷ Ok (pos 0) ∷
        Ok (pos 0) ∷ Ok (pos 65) ∷ []) }
    ensures quotients { made_of Calculator.Divide IntType.Uint64 (unsigned_pairs 64)
        ≡ (Ok (pos 1) ∷ Ok (pos 9223372036854775807) ∷ Ok (pos 3) ∷ Ok (pos 0) ∷ Ok (pos 0) ∷
        Err DivisionFault.ByZero ∷ Ok (pos 0) ∷ []) }
    ensures remainders { made_of Calculator.Remainder IntType.Uint64 (unsigned_pairs 64)
        ≡ (Ok (pos 0) ∷ Ok (pos 1) ∷ Ok (pos 1) ∷ Ok (pos 2) ∷ Ok (pos 0) ∷
        Err DivisionFault.ByZero ∷ Ok (pos 1) ∷ []) }
    ensures sums { made_of Calculator.Add IntType.Uint64 (unsigned_pairs 64)
        ≡ (Ok (pos 18446744073709551614) ∷ Ok (pos 1) ∷ Ok (pos 9) ∷ Ok (pos 9) ∷
        Ok (pos 18446744073709551615) ∷ Ok (pos 5) ∷ Ok (pos 66) ∷ []) }
    ensures differences { made_of Calculator.Subtract IntType.Uint64 (unsigned_pairs 64)
        ≡ (Ok (pos 0) ∷ Ok (pos 18446744073709551613) ∷ Ok (pos 5) ∷
        Ok (pos 18446744073709551611) ∷ Ok (pos 1) ∷ Ok (pos 5) ∷ Ok (pos 18446744073709551552)
        ∷ []) }
    ensures shifted_left { made_of Calculator.ShiftLeft IntType.Uint64 (unsigned_pairs 64)
        ≡ (Ok (pos 9223372036854775808) ∷ Ok (pos 18446744073709551612) ∷ Ok (pos 28) ∷
        Ok (pos 256) ∷ Ok (pos 0) ∷ Ok (pos 5) ∷ Ok (pos 2) ∷ []) }
    ensures shifted_right { made_of Calculator.ShiftRight IntType.Uint64 (unsigned_pairs 64)
        ≡ (Ok (pos 1) ∷ Ok (pos 4611686018427387903) ∷ Ok (pos 1) ∷ Ok (pos 0) ∷ Ok (pos 0) ∷
        Ok (pos 5) ∷ Ok (pos 0) ∷ []) }
    ensures shifted_with_sign { made_of Calculator.ShiftRightArithmetic IntType.Uint64
        (unsigned_pairs 64)
        ≡ (Ok (pos 18446744073709551615) ∷ Ok (pos 18446744073709551615) ∷ Ok (pos 1) ∷
        Ok (pos 0) ∷ Ok (pos 0) ∷ Ok (pos 5) ∷ Ok (pos 0) ∷ []) }
    ensures ands { made_of Calculator.BitAnd IntType.Uint64 (unsigned_pairs 64)
        ≡ (Ok (pos 18446744073709551615) ∷ Ok (pos 2) ∷ Ok (pos 2) ∷ Ok (pos 2) ∷ Ok (pos 0) ∷
        Ok (pos 0) ∷ Ok (pos 1) ∷ []) }
    ensures exclusive_ors { made_of Calculator.BitXor IntType.Uint64 (unsigned_pairs 64)
        ≡ (Ok (pos 0) ∷ Ok (pos 18446744073709551613) ∷ Ok (pos 5) ∷ Ok (pos 5) ∷
        Ok (pos 18446744073709551615) ∷ Ok (pos 5) ∷ Ok (pos 64) ∷ []) }
    ensures ors { made_of Calculator.BitOr IntType.Uint64 (unsigned_pairs 64)
        ≡ (Ok (pos 18446744073709551615) ∷ Ok (pos 18446744073709551615) ∷ Ok (pos 7) ∷
        Ok (pos 7) ∷ Ok (pos 18446744073709551615) ∷ Ok (pos 5) ∷ Ok (pos 65) ∷ []) }
{}

/// Every comparison of integers, at their extremes, and of truth values.
pub fn worked_comparisons()
    ensures of_int { compared_of IntType.Int (signed_pairs 32)
        ≡ ((true ∷ true ∷ false ∷ true ∷ false ∷ false ∷ true ∷ [])
        ∷ (true ∷ true ∷ true ∷ true ∷ false ∷ false ∷ true ∷ [])
        ∷ (false ∷ false ∷ false ∷ false ∷ true ∷ true ∷ false ∷ [])
        ∷ (false ∷ false ∷ true ∷ false ∷ true ∷ true ∷ false ∷ [])
        ∷ (false ∷ false ∷ true ∷ false ∷ false ∷ false ∷ false ∷ [])
        ∷ (true ∷ true ∷ false ∷ true ∷ true ∷ true ∷ true ∷ []) ∷ []) }
    ensures of_uint { compared_of IntType.Uint (unsigned_pairs 32)
        ≡ ((false ∷ false ∷ false ∷ true ∷ true ∷ false ∷ true ∷ [])
        ∷ (true ∷ false ∷ false ∷ true ∷ true ∷ false ∷ true ∷ [])
        ∷ (false ∷ true ∷ true ∷ false ∷ false ∷ true ∷ false ∷ [])
        ∷ (true ∷ true ∷ true ∷ false ∷ false ∷ true ∷ false ∷ [])
        ∷ (true ∷ false ∷ false ∷ false ∷ false ∷ false ∷ false ∷ [])
        ∷ (false ∷ true ∷ true ∷ true ∷ true ∷ true ∷ true ∷ []) ∷ []) }
    ensures of_int64 { compared_of IntType.Int64 (signed_pairs 64)
        ≡ ((true ∷ true ∷ false ∷ true ∷ false ∷ false ∷ true ∷ [])
        ∷ (true ∷ true ∷ true ∷ true ∷ false ∷ false ∷ true ∷ [])
        ∷ (false ∷ false ∷ false ∷ false ∷ true ∷ true ∷ false ∷ [])
        ∷ (false ∷ false ∷ true ∷ false ∷ true ∷ true ∷ false ∷ [])
        ∷ (false ∷ false ∷ true ∷ false ∷ false ∷ false ∷ false ∷ [])
        ∷ (true ∷ true ∷ false ∷ true ∷ true ∷ true ∷ true ∷ []) ∷ []) }
    ensures of_uint64 { compared_of IntType.Uint64 (unsigned_pairs 64)
        ≡ ((false ∷ false ∷ false ∷ true ∷ true ∷ false ∷ true ∷ [])
        ∷ (true ∷ false ∷ false ∷ true ∷ true ∷ false ∷ true ∷ [])
        ∷ (false ∷ true ∷ true ∷ false ∷ false ∷ true ∷ false ∷ [])
        ∷ (true ∷ true ∷ true ∷ false ∷ false ∷ true ∷ false ∷ [])
        ∷ (true ∷ false ∷ false ∷ false ∷ false ∷ false ∷ false ∷ [])
        ∷ (false ∷ true ∷ true ∷ true ∷ true ∷ true ∷ true ∷ []) ∷ []) }
    ensures equal_truths { compared_truths Comparator.Equal ≡ (true ∷ false ∷ false ∷ true ∷ []) }
    ensures different_truths { compared_truths Comparator.NotEqual
        ≡ (false ∷ true ∷ true ∷ false ∷ []) }
    ensures exclusive_truths { compared_truths Comparator.Xor ≡ (false ∷ true ∷ true ∷ false ∷ []) }
{}

/// What unary `-` and `~`, `++` and `--` make of integers, at their extremes: one list for each operator.
pub fn worked_changes()
    ensures of_int { changed_of IntType.Int
        (negsuc 2147483647 ∷ negsuc 0 ∷ pos 0 ∷ pos 2147483647 ∷ [])
        ≡ ((negsuc 2147483647 ∷ pos 1 ∷ pos 0 ∷ negsuc 2147483646 ∷ [])
        ∷ (pos 2147483647 ∷ pos 0 ∷ negsuc 0 ∷ negsuc 2147483647 ∷ [])
        ∷ (negsuc 2147483646 ∷ pos 0 ∷ pos 1 ∷ negsuc 2147483647 ∷ [])
        ∷ (pos 2147483647 ∷ negsuc 1 ∷ negsuc 0 ∷ pos 2147483646 ∷ []) ∷ []) }
    ensures of_uint { changed_of IntType.Uint (pos 0 ∷ pos 1 ∷ pos 4294967295 ∷ [])
        ≡ ((pos 0 ∷ pos 4294967295 ∷ pos 1 ∷ [])
        ∷ (pos 4294967295 ∷ pos 4294967294 ∷ pos 0 ∷ [])
        ∷ (pos 1 ∷ pos 2 ∷ pos 0 ∷ [])
        ∷ (pos 4294967295 ∷ pos 0 ∷ pos 4294967294 ∷ []) ∷ []) }
    ensures of_int64 { changed_of IntType.Int64
        (negsuc 9223372036854775807 ∷ negsuc 0 ∷ pos 0 ∷ pos 9223372036854775807 ∷ [])
        ≡ ((negsuc 9223372036854775807 ∷ pos 1 ∷ pos 0 ∷ negsuc 9223372036854775806 ∷ [])
        ∷ (pos 9223372036854775807 ∷ pos 0 ∷ negsuc 0 ∷ negsuc 9223372036854775807 ∷ [])
        ∷ (negsuc 9223372036854775806 ∷ pos 0 ∷ pos 1 ∷ negsuc 9223372036854775807 ∷ [])
        ∷ (pos 9223372036854775807 ∷ negsuc 1 ∷ negsuc 0 ∷ pos 9223372036854775806 ∷ []) ∷ []) }
    ensures of_uint64 { changed_of IntType.Uint64 (pos 0 ∷ pos 1 ∷ pos 18446744073709551615 ∷ [])
        ≡ ((pos 0 ∷ pos 18446744073709551615 ∷ pos 1 ∷ [])
        ∷ (pos 18446744073709551615 ∷ pos 18446744073709551614 ∷ pos 0 ∷ [])
        ∷ (pos 1 ∷ pos 2 ∷ pos 0 ∷ [])
        ∷ (pos 18446744073709551615 ∷ pos 0 ∷ pos 18446744073709551614 ∷ []) ∷ []) }
{}

/// Every conversion, which leaves the low bits.
pub fn worked_conversions()
    ensures to_int { conversions_to IntType.Int
        ≡ (Word.Int (negsuc 2147483647) ∷ Word.Int (negsuc 0) ∷ Word.Int (pos 2147483647) ∷
        Word.Int (negsuc 0) ∷ Word.Int (pos 0) ∷ Word.Int (pos 2147483647) ∷ Word.Int (negsuc 0) ∷
        Word.Int (negsuc 0) ∷ Word.Int (pos 7) ∷ []) }
    ensures to_uint { conversions_to IntType.Uint
        ≡ (Word.Uint 2147483648 ∷ Word.Uint 4294967295 ∷ Word.Uint 2147483647 ∷
        Word.Uint 4294967295 ∷ Word.Uint 0 ∷ Word.Uint 2147483647 ∷ Word.Uint 4294967295 ∷
        Word.Uint 4294967295 ∷ Word.Uint 7 ∷ []) }
    ensures to_int64 { conversions_to IntType.Int64
        ≡ (Word.Int64 (negsuc 2147483647) ∷ Word.Int64 (negsuc 0) ∷ Word.Int64 (pos 2147483647) ∷
        Word.Int64 (pos 4294967295) ∷ Word.Int64 (negsuc 9223372036854775807) ∷
        Word.Int64 (negsuc 2147483648) ∷ Word.Int64 (pos 9223372036854775807) ∷
        Word.Int64 (negsuc 0) ∷ Word.Int64 (pos 4294967303) ∷ []) }
    ensures to_uint64 { conversions_to IntType.Uint64
        ≡ (Word.Uint64 18446744071562067968 ∷ Word.Uint64 18446744073709551615 ∷
        Word.Uint64 2147483647 ∷ Word.Uint64 4294967295 ∷ Word.Uint64 9223372036854775808 ∷
        Word.Uint64 18446744071562067967 ∷ Word.Uint64 9223372036854775807 ∷
        Word.Uint64 18446744073709551615 ∷ Word.Uint64 4294967303 ∷ []) }
{}

/// The line of each tick of a function with each form of statement: with as many ticks as are before it, the function
/// is aborted there, and with all of them it comes to its end.
pub fn worked_ticks()
    ensures lines { ends_within every_statement 25
        ≡ aborted_at (1 ∷ 2 ∷ 3 ∷ 4 ∷ 5 ∷ 6 ∷ 7 ∷ 8 ∷ 10 ∷ 10 ∷ 11 ∷ 10 ∷ 11 ∷
        10 ∷ 12 ∷ 13 ∷ 12 ∷ 14 ∷ 14 ∷ 15 ∷ 14 ∷ 16 ∷ 17 ∷ 18 ∷ [])
        ++ Some (Finished (Some (Word.Int (pos 9)))) ∷ [] }
{}

/// The line of each tick of a loop that is left by a `continue` and a `break`, and the number that is returned.
pub fn worked_jump_ticks()
    ensures lines { ends_within every_jump 10
        ≡ aborted_at (1 ∷ 2 ∷ 2 ∷ 3 ∷ 4 ∷ 2 ∷ 3 ∷ 5 ∷ 6 ∷ [])
        ++ Some (Finished (Some (Word.Int (pos 1)))) ∷ [] }
{}

/// The function and the line of each tick where objects are constructed and a method is called. An entry has the line
/// of the function's name, or of the class's where no constructor is written.
pub fn worked_frame_ticks()
    ensures functions_and_lines { ends_within every_frame 10
        ≡ aborted_in ((f, 9) ∷ (f, 10) ∷ (codes "A.A", 5) ∷ (codes "A.A", 6) ∷ (f, 10)
        ∷ (codes "B.B", 1)
        ∷ (f, 11) ∷ (codes "A.m", 7) ∷ (codes "A.m", 8) ∷ [])
        ++ Some (Finished (Some (Word.Int (pos 2)))) ∷ [] }
{}
