//! Examples of the definitions: public functions that do nothing, whose contracts state them. `negsuc n` is -(n + 1).

ghost use Rattle.std.specs.Prelude.{◌≡◌, true, false, [], ◌∷◌, pos, negsuc, Some, None};
ghost use Rattle.dt_values.specs.declared.width.Width.TheVariants.{W16, W32, W64};
ghost use Rattle.c_subset.specs.Examples.{nop_program};
ghost use Rattle.c_exprs.specs.Exprs.{constant, deposit, cast, function, applied};
ghost use Rattle.c_subset.specs.Programs.{done, call, extract, or_load_case};
ghost use Rattle.dt_host.specs.Examples.{imm, rd, shift_name, size_name};
ghost use Rattle.c_eval.specs.ArgumentExamples.{both, imm_first, imm_last, names_set, rd_alone, to_unknown};
ghost use Rattle.c_eval.specs.ArgumentExamples.{call_jr, call_lb, extract_load, jump, lb, load, unknown};
ghost use Rattle.c_eval.specs.ArgumentExamples.{lb_call, no_call, one_call, stuck_run};
ghost use Rattle.c_eval.specs.ArgumentExamples.{live_bits, low_bits, set_jump, set_number, set_size, set_to};
ghost use Rattle.c_eval.specs.ArgumentExamples.{run_after_false, run_at_width, run_with_32, run_with_set, set_unknown};
ghost use Rattle.c_eval.specs.Examples.{argument_program, nop_call, nop_call_then, nop_program_with};
ghost use Rattle.c_eval.specs.Examples.{other_extraction, other_program, other_set, two_calls, two_tests};
ghost use Rattle.c_eval.specs.Examples.{run_with, scripted_run};
ghost use Rattle.c_eval.specs.ExprExamples.{deposit_at, sign_above_four, value_on};
ghost use Rattle.c_eval.specs.ExprExamples.{extract_bits, extract_low, no_bits, sextract_bits, sextract_low};
ghost use Rattle.c_eval.specs.LoadExamples.{bytes_alone, eight_bytes, loaded_by, loads_none, one_case, two_bytes_then};
ghost use Rattle.c_eval.specs.Loads.{load_of};
ghost use Rattle.c_eval.specs.SwitchExamples.{calling, run_before_call, run_nested, run_switch, sticking, two_cases};
ghost use Rattle.c_eval.specs.Runs.{ended_true, ended_false, stuck};

/// Runs with their calls, their end, the number of tests and that of calls.
pub fn examples()
    ensures matched { scripted_run nop_program [] [] [] 0 ≡ run_with (nop_call ∷ []) ended_true 1 1 }
    ensures unmatched { scripted_run nop_program [] [] [] 1 ≡ run_with [] ended_false 1 0 }
    ensures after_true { scripted_run two_tests [] (true ∷ []) [] 0 ≡ run_with (nop_call ∷ []) ended_true 1 1 }
    ensures after_false { scripted_run two_tests [] (false ∷ []) [] 0
        ≡ run_with (nop_call ∷ nop_call ∷ []) ended_true 2 2 }
    ensures no_live_set { scripted_run (nop_program_with (nop_call_then done)) [] [] [] 0 ≡ run_with [] stuck 0 0 }
    ensures lost_by_call { scripted_run two_calls [] (false ∷ []) [] 0 ≡ run_with (nop_call ∷ []) stuck 0 1 }
    ensures lost_argument { scripted_run argument_program [] [] [] 0 ≡ run_with [] stuck 1 0 }
    ensures set_outside { scripted_run other_program (other_set ∷ []) [] [] 0 ≡ run_with [] ended_false 0 0 }
    ensures set_undeclared { scripted_run other_program [] [] [] 0 ≡ run_with [] stuck 0 0 }
    ensures of_another_set { scripted_run (nop_program_with other_extraction) (other_set ∷ []) [] [] 0
        ≡ run_with [] stuck 0 0 }
{}

/// What expressions of bits are, with helpers of 32 or of 64 bits. None is stuck.
pub fn examples_of_bits()
    ensures number { value_on 32 0 (constant (negsuc 3)) ≡ Some (negsuc 3) }
    ensures low { value_on 32 0x80000007 (extract_bits 0 4) ≡ Some (pos 7) }
    ensures top { value_on 32 0x80000007 (sextract_bits 31 1) ≡ Some (negsuc 0) }
    ensures all { value_on 64 0xffffffffffffffff (sextract_bits 0 64) ≡ Some (negsuc 0) }
    ensures none { value_on 32 0x80000007 no_bits ≡ None }
    ensures bit_32_of_32 { value_on 32 0x80000007 (extract_bits 32 1) ≡ None }
    ensures bit_32_of_64 { value_on 64 0x180000007 (extract_bits 32 1) ≡ Some (pos 1) }
    ensures past_32 { value_on 32 0x80000007 (extract_bits 31 2) ≡ None }
    ensures of_argument { value_on 32 0 (extract_low imm 4) ≡ Some (pos 7) }
    ensures signed_of_argument { value_on 32 0 (sextract_low imm 5) ≡ Some (negsuc 8) }
    ensures reduced_to_32 { value_on 32 0 (extract_low imm 32) ≡ Some (pos 4294967287) }
    ensures reduced_to_64 { value_on 64 0 (extract_low imm 64) ≡ Some (pos 18446744073709551607) }
    ensures of_lost_argument { value_on 32 0 (extract_low rd 4) ≡ None }
    ensures cast_to_32 { value_on 32 0x80000007 (cast (extract_bits 0 32)) ≡ Some (negsuc 2147483640) }
    ensures cast_to_64 { value_on 64 0x80000007 (cast (extract_bits 0 32)) ≡ Some (pos 2147483655) }
    ensures cast_of_none { value_on 32 7 (cast no_bits) ≡ None }
{}

/// What deposits are.
pub fn examples_of_deposits()
    ensures sign { value_on 32 0x80000007 sign_above_four ≡ Some (pos 4294967287) }
    ensures sign_cast { value_on 32 0x80000007 (cast sign_above_four) ≡ Some (negsuc 8) }
    ensures low { value_on 32 7 (deposit_at 0 2) ≡ Some (pos 7) }
    ensures middle { value_on 32 7 (deposit_at 2 4) ≡ Some (pos 31) }
    ensures top { value_on 32 7 (deposit_at 31 1) ≡ Some (pos 2147483655) }
    ensures no_place { value_on 32 7 (deposit_at 4 0) ≡ None }
    ensures past_32 { value_on 32 7 (deposit_at 4 29) ≡ None }
    ensures in_64 { value_on 64 7 (deposit_at 4 29) ≡ Some (pos 119) }
    ensures past_64 { value_on 64 7 (deposit_at 60 5) ≡ None }
    ensures into_none { value_on 32 7 (deposit no_bits 4 4 (extract_bits 0 4)) ≡ None }
    ensures none_into { value_on 32 7 (deposit (extract_bits 0 4) 4 4 no_bits) ≡ None }
{}

/// What functions are asked in an expression, and what they answer.
pub fn examples_of_functions()
    ensures without_number { value_on 32 7 (function size_name) ≡ Some (pos 2) }
    ensures without_answer { value_on 32 7 (function shift_name) ≡ Some (pos 0) }
    ensures signed_number { value_on 32 0x80000000 (applied shift_name (sextract_bits 31 1)) ≡ Some (pos 5) }
    ensures reduced_to_32 { value_on 64 0xffffffff (applied shift_name (extract_bits 0 32)) ≡ Some (pos 5) }
    ensures other_number { value_on 32 7 (applied shift_name (extract_bits 0 4)) ≡ Some (pos 7) }
    ensures of_none { value_on 32 7 (applied shift_name no_bits) ≡ None }
{}

/// Calls that hand over what extractions and assignments gave to the arguments, as their types store it.
pub fn examples_of_arguments()
    ensures extracted { run_with_32 (extract_load both ∷ call_lb ∷ []) ≡ one_call (pos 21) (negsuc 0) }
    ensures assigned { run_with_32 (extract_load rd_alone ∷ set_number imm (pos 255) ∷ call_lb ∷ [])
        ≡ one_call (pos 21) (negsuc 0) }
    ensures assigned_again { run_with_32 (extract_load both ∷ set_number imm (pos 5) ∷ call_lb ∷ [])
        ≡ one_call (pos 21) (pos 5) }
    ensures assigned_alone { run_with_32 (set_number rd (pos 1) ∷ set_number imm (negsuc 1) ∷ call_lb ∷ [])
        ≡ one_call (pos 1) (negsuc 1) }
    ensures assigned_before { run_with_32 (set_number imm (pos 5) ∷ extract_load rd_alone ∷ call_lb ∷ [])
        ≡ one_call (pos 21) (pos 5) }
    ensures read { run_with_32 (extract_load both ∷ set_to rd (live_bits imm) ∷ call_lb ∷ [])
        ≡ one_call (pos 255) (negsuc 0) }
    ensures read_by_extraction { run_with_32 (extract_load imm_first ∷ call_lb ∷ [])
        ≡ one_call (pos 255) (negsuc 0) }
    ensures read_before { run_with_32 (set_number imm (pos 5) ∷ extract_load imm_last ∷ call_lb ∷ [])
        ≡ one_call (pos 5) (negsuc 0) }
    ensures asked_after_call { run_after_false (extract_load both ∷ set_size ∷ call_lb
        ∷ extract_load both ∷ set_size ∷ call_lb ∷ [])
        ≡ run_with (lb_call (pos 2) (negsuc 0) ∷ lb_call (pos 3) (negsuc 0) ∷ []) ended_true 0 2 }
    ensures set_outside { run_with_set (set_unknown ∷ []) ≡ no_call }
    ensures bit_32_at_64 { run_at_width W64 (set_to rd (extract_bits 32 1) ∷ []) ≡ no_call }
    ensures bit_31_at_16 { run_at_width W16 (set_to rd (extract_bits 31 1) ∷ []) ≡ no_call }
{}

/// Runs that are stuck: at once, but for one that is stuck after a call.
pub fn examples_of_stuck_runs()
    ensures lost_handed { run_with_32 (extract_load rd_alone ∷ call_lb ∷ []) ≡ stuck_run }
    ensures lost_by_call { run_after_false (extract_load both ∷ call_lb ∷ set_number imm (pos 5) ∷ call_lb ∷ [])
        ≡ run_with (lb_call (pos 21) (negsuc 0) ∷ []) stuck 0 1 }
    ensures lost_by_set { run_with_32 (extract_load both ∷ set_jump ∷ set_number imm (pos 5) ∷ call_lb ∷ [])
        ≡ stuck_run }
    ensures lost_read { run_with_32 (extract_load rd_alone ∷ set_to rd (live_bits imm) ∷ []) ≡ stuck_run }
    ensures lost_read_by_extraction { run_with_32 (extract_load imm_last ∷ []) ≡ stuck_run }
    ensures read_of_set_not_live { run_with_32 (set_jump ∷ set_to imm (live_bits rd) ∷ []) ≡ stuck_run }
    ensures set_not_live { run_with_32 (extract_load both ∷ call_jr ∷ []) ≡ stuck_run }
    ensures set_in_extraction { run_with_32 (extract_load names_set ∷ []) ≡ stuck_run }
    ensures no_set_in_decoder { run_with_32 (extract_load both ∷ set_to rd (low_bits imm) ∷ []) ≡ stuck_run }
    ensures no_argument { run_with_32 (set_number unknown (pos 1) ∷ []) ≡ stuck_run }
    ensures no_argument_of_extraction { run_with_32 (extract_load to_unknown ∷ []) ≡ stuck_run }
    ensures format_undeclared { run_with_32 (extract_load unknown ∷ []) ≡ stuck_run }
    ensures format_of_another_set { run_with_32 (extract both jump ∷ []) ≡ stuck_run }
    ensures pattern_undeclared { run_with_32 (extract_load both ∷ call unknown load ∷ []) ≡ stuck_run }
    ensures pattern_of_another_set { run_with_32 (set_jump ∷ call lb jump ∷ []) ≡ stuck_run }
    ensures set_undeclared { run_with_32 (set_unknown ∷ []) ≡ stuck_run }
    ensures no_bits { run_with_32 (set_to rd no_bits ∷ []) ≡ stuck_run }
    ensures bit_32_at_32 { run_with_32 (set_to rd (extract_bits 32 1) ∷ []) ≡ stuck_run }
    ensures bit_64_at_64 { run_at_width W64 (set_to rd (extract_bits 64 1) ∷ []) ≡ stuck_run }
{}

/// A switch runs the block of its first case that fits, and counts one test.
pub fn examples_of_switches()
    ensures first_case { run_switch (two_cases 0 calling 1 done) 4 ≡ run_with (nop_call ∷ []) ended_true 1 1 }
    ensures second_case { run_switch (two_cases 0 calling 1 done) 5 ≡ run_with [] ended_false 1 0 }
    ensures second_case_calls { run_switch (two_cases 0 done 1 calling) 5 ≡ run_with (nop_call ∷ []) ended_true 1 1 }
    ensures no_case { run_switch (two_cases 0 calling 1 calling) 6 ≡ run_with [] ended_false 1 0 }
    ensures goes_on { run_before_call (two_cases 0 sticking 1 sticking) 6 ≡ run_with (nop_call ∷ []) ended_true 1 1 }
    ensures one_value { run_switch (two_cases 0 calling 0 sticking) 0 ≡ run_with (nop_call ∷ []) ended_true 1 1 }
    ensures one_value_stuck { run_switch (two_cases 0 sticking 0 calling) 0 ≡ run_with [] stuck 1 0 }
    ensures nested { run_nested (two_cases 0 calling 1 done) 4 ≡ run_with (nop_call ∷ []) ended_true 2 1 }
    ensures not_nested { run_nested (two_cases 0 calling 1 done) 0 ≡ run_with [] ended_false 1 0 }
{}

/// What load functions load of the bytes 1 to 8: the word, and how many bytes.
pub fn examples_of_loads()
    ensures one_load { loaded_by W32 (bytes_alone 0 2) ≡ Some (0x01020000, 2) }
    ensures all_of_16 { loaded_by W16 (bytes_alone 0 2) ≡ Some (0x0102, 2) }
    ensures all_of_64 { loaded_by W64 (bytes_alone 0 8) ≡ Some (0x0102030405060708, 8) }
    ensures no_load { loaded_by W32 loads_none ≡ Some (0, 0) }
    ensures two_loads { loaded_by W32 (two_bytes_then 0xff000000 (one_case 0x01000000 (bytes_alone 2 4)))
        ≡ Some (0x01020304, 4) }
    ensures no_case { loaded_by W32 (two_bytes_then 0xff000000 (one_case 0x02000000 (bytes_alone 2 4)))
        ≡ Some (0x01020000, 2) }
    ensures first_case { loaded_by W32 (two_bytes_then 0 (or_load_case 0 loads_none (one_case 0 (bytes_alone 2 4))))
        ≡ Some (0x01020000, 2) }
    ensures not_from_start { loaded_by W32 (bytes_alone 1 2) ≡ None }
    ensures from_again { loaded_by W32 (two_bytes_then 0 (one_case 0 (bytes_alone 0 4))) ≡ None }
    ensures with_gap { loaded_by W32 (two_bytes_then 0 (one_case 0 (bytes_alone 3 4))) ≡ None }
    ensures nothing { loaded_by W32 (bytes_alone 0 0) ≡ None }
    ensures backwards { loaded_by W32 (two_bytes_then 0 (one_case 0 (bytes_alone 2 1))) ≡ None }
    ensures past_32 { loaded_by W32 (bytes_alone 0 5) ≡ None }
    ensures past_16 { loaded_by W16 (bytes_alone 0 3) ≡ None }
    ensures past_64 { loaded_by W64 (bytes_alone 0 9) ≡ None }
    ensures no_function { load_of nop_program eight_bytes ≡ None }
{}
