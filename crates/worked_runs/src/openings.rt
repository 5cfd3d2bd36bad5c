//! Parts and openings: which tokens count, in which part, and the first one that is too many.

ghost use Rattle.std.specs.Prelude.{◌≡◌, ◌++◌, Some, None, codes, replicate};
ghost use Rattle.sig_base.specs.declared.limits.TheConstants.{OPENINGS_MAX};
ghost use Rattle.worked_runs.specs.GrammarTexts.{IsRefusedAt, deep_in, deep_in_front};

/// Operators, `if`, `min`, `max` and opening brackets count, at every place, and nothing else does.
pub fn openings_are_counted()
    ensures within_the_limit { deep_in 3 (codes "A + B * C - D") ≡ None }
    ensures one_too_many { deep_in 2 (codes "A + B * C - D") ≡ Some 10 }
    ensures all_of_them { deep_in 18 (codes "or and not if min max = <> < <= > >= + - * / % ( [")
        ≡ Some 49 }
    ensures no_more { deep_in 19 (codes "or and not if min max = <> < <= > >= + - * / % ( [")
        ≡ None }
    ensures no_others { deep_in 0 (codes "X 5 true false clk then else end when := : , .. ) ] # +")
        ≡ None }
    ensures sign { deep_in 0 (codes "0..-5") ≡ Some 3 }
    ensures bracket { deep_in 0 (codes "var N[4]") ≡ Some 5 }
    ensures call { deep_in 0 (codes "0 min") ≡ Some 2 }
{}

/// Openings count for each part alone. Parts end at `;`, `{` and `}`, and at a front's end.
pub fn parts_are_apart()
    ensures semicolons { deep_in 1 (codes "A + B; C - D; E") ≡ None }
    ensures braces { deep_in 1 (codes "(A { B + C } D [") ≡ None }
    ensures commas { deep_in 1 (codes "A + B, C - D") ≡ Some 9 }
    ensures first_part { deep_in 1 (codes "A; B - - C; D - - - E") ≡ Some 7 }
    ensures whole { deep_in 1 (codes "A + B end - C") ≡ Some 10 }
    ensures front { deep_in_front 1 (codes "A + B end - C") ≡ None }
    ensures without_end { deep_in_front 1 (codes "A + B - C") ≡ Some 6 }
{}

/// A part may have 256 openings: a text that goes on so is refused at its end, and one more is too
/// deep.
pub fn a_part_has_256_openings()
    ensures none_too_deep { deep_in OPENINGS_MAX
        (codes "model M; vertex A { set X := " ++ replicate 256 40) ≡ None }
    ensures refused_at_its_end { IsRefusedAt
        (codes "model M; vertex A { set X := " ++ replicate 256 40) 285 }
    ensures too_deep { deep_in OPENINGS_MAX
        (codes "model M; vertex A { set X := " ++ replicate 257 40) ≡ Some 285 }
{}
