//! From the bytes of a text to its first static fault, or to the text that it is printed as.

ghost use Rattle.std.specs.Prelude.{◌≡◌, ◌++◌, [], ◌∷◌, Some, None, codes};
ghost use Rattle.model_core.specs.declared.static_kind.StaticKind.TheVariants as rules;
ghost use Rattle.worked_runs.specs.Texts.{desk_text};
ghost use Rattle.worked_runs.specs.WrittenParts.{static_fault};
ghost use Rattle.worked_runs.specs.WholeTexts.{fault_in, printed_as, expressions_text};

/// The fault of a text is at the byte of its text.
pub fn texts_have_first_faults()
    ensures kind { fault_in (codes "model M; var B : bool = 2; vertex RUN { } end")
        ≡ Some (static_fault rules.KindMismatch 24) }
    ensures range { fault_in (codes "model M; var B : 3..2 = 3; vertex RUN { } end")
        ≡ Some (static_fault rules.EmptyRange 17) }
    ensures twice { fault_in (codes "model M; vertex RUN { } vertex RUN { } end")
        ≡ Some (static_fault rules.DuplicateName 31) }
    ensures priority { fault_in (codes "model M; vertex RUN { schedule RUN priority 0; } end")
        ≡ Some (static_fault rules.PriorityOutside 44) }
    ensures initial { fault_in (codes "model M; var N : 0..3 = 5; vertex RUN { set Q := 1; } end")
        ≡ Some (static_fault rules.InitialOutside 24) }
    ensures parenthesis { fault_in (codes "model M; vertex RUN { schedule RUN after (1 < 2); } end")
        ≡ Some (static_fault rules.KindMismatch 41) }
    ensures chain { fault_in
        (codes "model M; vertex RUN { schedule RUN after 1 + 2 when 3 + 4; } end")
        ≡ Some (static_fault rules.KindMismatch 52) }
    ensures large_number { fault_in
        (codes "model M; vertex RUN { schedule RUN after 9223372036854775808; } end")
        ≡ Some (static_fault rules.LiteralTooLarge 41) }
    ensures none { fault_in
        (codes "model M; vertex RUN { schedule RUN after 9223372036854775807; } end") ≡ None }
    ensures none_in_the_desk { fault_in desk_text ≡ None }
{}

/// Parts that are left out by default aren't printed, and a text in its printed form stays so.
pub fn texts_are_printed()
    ensures defaults { printed_as
        (codes "model M;vertex RUN{schedule RUN after(0)priority 5 when true;}end")
        ≡ Some (codes "model M;" ++ 10 ∷ codes "vertex RUN {" ++ 10 ∷ codes "  schedule RUN;" ++ 10
        ∷ codes "}" ++ 10 ∷ codes "end" ++ 10 ∷ []) }
    ensures parentheses { printed_as
        (codes "model M; vertex RUN { schedule RUN after ((1) + (2)) * 3; } end")
        ≡ Some (codes "model M;" ++ 10 ∷ codes "vertex RUN {" ++ 10
        ∷ codes "  schedule RUN after (1 + 2) * 3;" ++ 10 ∷ codes "}" ++ 10
        ∷ codes "end" ++ 10 ∷ []) }
    ensures desk { printed_as desk_text ≡ Some desk_text }
    ensures expressions { printed_as expressions_text ≡ Some expressions_text }
{}
