//! The version of a text: which there are, and which limits a text of each has.

ghost use Rattle.std.specs.Prelude.{◌≡◌, ◌++◌, Some, None, [], ◌∷◌, true, false, codes, replicate};
ghost use Rattle.model_core.specs.declared.static_kind.StaticKind.TheVariants as rules;
ghost use Rattle.model_core.specs.Text.Canonical.{canonical};
ghost use Rattle.model_core.specs.Text.VersionNeeded.{needs_version_two};
ghost use Rattle.model_core.specs.Static.VersionFaults.{is_version_two, number_faults, cells_faults, version_faults};
ghost use Rattle.model_core.specs.Static.ModelFaults.{first_fault};
ghost use Rattle.worked_runs.specs.Building.{whole, schedule, urgent};
ghost use Rattle.worked_runs.specs.DrawnModels.{after_draw, one_to_six};
ghost use Rattle.worked_runs.specs.LargeTexts.{of_targets, of_parameters, everything, with_later_parts};
ghost use Rattle.worked_runs.specs.VersionTexts.{array_at, saying, second, of_sizes};
ghost use Rattle.worked_runs.specs.WrittenModels.{n_variable};
ghost use Rattle.worked_runs.specs.WrittenParts.{figure, huge, sized, static_fault};

/// There are the versions 1 and 2, and no other. A text that says none is of version 1.
pub fn versions_are_known()
    ensures none { is_version_two None ≡ false }
    ensures first { number_faults (figure 1 8) ≡ [] }
    ensures second { number_faults (figure 2 8) ≡ [] }
    ensures of_the_second { is_version_two second ≡ true }
    ensures not_the_first { is_version_two (Some (figure 1 8)) ≡ false }
    ensures not_the_third { is_version_two (Some (figure 3 8)) ≡ false }
    ensures not_too_large { is_version_two (Some (huge 8)) ≡ false }
    ensures zero { number_faults (figure 0 8) ≡ static_fault rules.VersionUnknown 8 ∷ [] }
    ensures third { first_fault (saying (Some (figure 3 8)) [])
        ≡ Some (static_fault rules.VersionUnknown 8) }
    ensures too_large { first_fault (saying (Some (huge 8)) [])
        ≡ Some (static_fault rules.LiteralTooLarge 8) }
{}

/// Only a text of version 2 has the greater limits; one of an unknown version has those of version
/// 1.
pub fn versions_have_their_limits()
    ensures first { first_fault (saying None (array_at 9 4096 ∷ [])) ≡ None }
    ensures beyond_the_first { first_fault (saying None (array_at 9 4097 ∷ []))
        ≡ Some (static_fault rules.SizeOutside 15) }
    ensures declared_to_be_the_first { first_fault (saying (Some (figure 1 8)) (array_at 20 4097 ∷ []))
        ≡ Some (static_fault rules.SizeOutside 26) }
    ensures second { first_fault (saying second (array_at 20 65536 ∷ [])) ≡ None }
    ensures beyond_the_second { first_fault (saying second (array_at 20 65537 ∷ []))
        ≡ Some (static_fault rules.SizeOutside 26) }
    ensures unknown { version_faults (saying (Some (figure 3 8)) (array_at 20 4097 ∷ []))
        ≡ static_fault rules.VersionUnknown 8 ∷ static_fault rules.SizeOutside 26 ∷ [] }
{}

/// Version 1 has 8 targets, 8 parameters and no drawn delay, in each variable, vertex, change and
/// edge. A text of version 2 has none of these limits here.
pub fn version_1_has_limits_everywhere()
    ensures most_targets { version_faults (of_targets None 8) ≡ [] }
    ensures one_target_more { version_faults (of_targets None 9)
        ≡ static_fault rules.TooMany 54 ∷ [] }
    ensures of_the_first { version_faults (of_targets (Some (figure 1 8)) 9)
        ≡ static_fault rules.TooMany 54 ∷ [] }
    ensures of_the_second { version_faults (of_targets second 9) ≡ [] }
    ensures most_parameters { version_faults (of_parameters None 8) ≡ [] }
    ensures one_parameter_more { version_faults (of_parameters None 9)
        ≡ static_fault rules.TooMany 38 ∷ [] }
    ensures parameters_of_the_second { version_faults (of_parameters second 9) ≡ [] }
    ensures everywhere { version_faults (everything None)
        ≡ static_fault rules.SizeOutside 46 ∷ static_fault rules.TooMany 238
        ∷ static_fault rules.TooMany 254 ∷ static_fault rules.VersionNeeded 140 ∷ [] }
    ensures nowhere_in_the_second { version_faults (everything second) ≡ [] }
{}

/// The cells of all arrays together have a limit of their own: the first array that passes it is
/// reported, and one over its own limit doesn't count.
pub fn cells_together_have_a_limit()
    ensures as_many { cells_faults 0 (replicate 256 (array_at 20 65536)) ≡ [] }
    ensures one_more { cells_faults 0
        (replicate 256 (array_at 20 65536) ++ array_at 50 1 ∷ array_at 80 1 ∷ [])
        ≡ static_fault rules.TooMany 50 ∷ [] }
    ensures scalars_have_none { cells_faults 0
        (replicate 256 (array_at 20 65536) ++ n_variable ∷ []) ≡ [] }
    ensures unknown_sizes_have_none { cells_faults 0
        (replicate 256 (array_at 20 65536) ++ sized (huge 60) n_variable ∷ []) ≡ [] }
    ensures of_the_whole { version_faults
        (saying second (replicate 256 (array_at 20 65536) ++ array_at 50 1 ∷ []))
        ≡ static_fault rules.TooMany 50 ∷ [] }
    ensures too_large_alone { cells_faults 0
        (replicate 256 (array_at 20 65536) ++ array_at 50 65537 ∷ []) ≡ [] }
{}

/// The canonical text says its version exactly where the model passes a limit of version 1.
pub fn texts_say_a_version_where_they_need_it()
    ensures no_more { needs_version_two (of_sizes 4096 8 8) ≡ false }
    ensures cells { needs_version_two (of_sizes 4097 0 0) ≡ true }
    ensures parameters { needs_version_two (of_sizes 0 9 0) ≡ true }
    ensures targets { needs_version_two (of_sizes 0 0 9) ≡ true }
    ensures later_array { needs_version_two (with_later_parts 4097 0 0 []) ≡ true }
    ensures later_parameters { needs_version_two (with_later_parts 4096 9 8 []) ≡ true }
    ensures later_targets { needs_version_two (with_later_parts 4096 8 9 []) ≡ true }
    ensures later_delay { needs_version_two
        (with_later_parts 4096 8 8 (schedule 0 (whole 1) ∷ after_draw 0 one_to_six ∷ [])) ≡ true }
    ensures nothing_later { needs_version_two
        (with_later_parts 4096 8 8 (schedule 0 (whole 1) ∷ urgent 0 ∷ [])) ≡ false }
    ensures without { canonical (of_sizes 4 0 1)
        ≡ codes "model W;\nvar A[4] : 0..9 = 0;\nvertex RUN {\n  set A := 1;\n}\nend\n" }
    ensures line { canonical (of_sizes 5000 0 1)
        ≡ codes "version 2;\nmodel W;\nvar A[5000] : 0..9 = 0;\nvertex RUN {\n  set A := 1;\n}\nend\n" }
{}
