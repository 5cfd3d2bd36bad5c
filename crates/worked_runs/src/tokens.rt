//! Tokens: the longest one each time, what may be between them, and the first byte that begins
//! none.

ghost use Rattle.std.specs.Prelude.{◌≡◌, pos, Some, None, Ok, Err, [], ◌∷◌, length, map, codes};
ghost use Rattle.model_core.specs.declared.token.Word.TheVariants as words;
ghost use Rattle.model_core.specs.declared.token.Symbol.TheVariants as symbols;
ghost use Rattle.model_core.specs.Text.Lexing.{tokens_of, reserved_words, all_symbols, NameOf, Reserved, NumberOf, Mark};
ghost use Rattle.worked_runs.specs.Tokens.{token, kinds_of};

/// The longest token is taken each time.
pub fn longest_tokens_are_taken()
    ensures reserved { tokens_of (codes "end") ≡ Ok (token 0 3 (Reserved words.End) ∷ []) }
    ensures names { tokens_of (codes "end1 end_")
        ≡ Ok (token 0 4 (NameOf (codes "end1")) ∷ token 5 9 (NameOf (codes "end_")) ∷ []) }
    ensures capital { tokens_of (codes "End") ≡ Ok (token 0 3 (NameOf (codes "End")) ∷ []) }
    ensures number_first { tokens_of (codes "1end")
        ≡ Ok (token 0 1 (NumberOf (Some (pos 1)) 1) ∷ token 1 4 (Reserved words.End) ∷ []) }
    ensures range { tokens_of (codes "0..9")
        ≡ Ok (token 0 1 (NumberOf (Some (pos 0)) 0) ∷ token 1 3 (Mark symbols.To)
        ∷ token 3 4 (NumberOf (Some (pos 9)) 9) ∷ []) }
    ensures colons { tokens_of (codes ":==:")
        ≡ Ok (token 0 2 (Mark symbols.Becomes) ∷ token 2 3 (Mark symbols.Equal)
        ∷ token 3 4 (Mark symbols.Colon) ∷ []) }
    ensures comparisons { tokens_of (codes "<><=>=<")
        ≡ Ok (token 0 2 (Mark symbols.NotEqual) ∷ token 2 4 (Mark symbols.AtMost)
        ∷ token 4 6 (Mark symbols.AtLeast) ∷ token 6 7 (Mark symbols.Below) ∷ []) }
{}

/// Each reserved word and each symbol has its spelling, and there is no other.
pub fn words_and_symbols_are_spelled_so()
    ensures words { kinds_of
        (tokens_of (codes "model var bool clip table watch vertex set draw from in by schedule urgent cancel all after priority when end not and or if then else true false clk min max version certificate prune settle drop merge slice")) ≡ map Reserved (words.Model ∷ words.Var ∷ words.Bool ∷ words.Clip ∷ words.Table ∷ words.Watch ∷ words.Vertex ∷ words.Set ∷ words.Draw ∷ words.From ∷ words.In ∷ words.By ∷ words.Schedule ∷ words.Urgent ∷ words.Cancel ∷ words.All ∷ words.After ∷ words.Priority ∷ words.When ∷ words.End ∷ words.Not ∷ words.And ∷ words.Or ∷ words.If ∷ words.Then ∷ words.Else ∷ words.True ∷ words.False ∷ words.Clk ∷ words.Min ∷ words.Max ∷ words.Version ∷ words.Certificate ∷ words.Prune ∷ words.Settle ∷ words.Drop ∷ words.Merge ∷ words.Slice ∷ []) }
    ensures no_other_word { length reserved_words ≡ 38 }
    ensures symbols { kinds_of
        (tokens_of (codes ":= .. <> <= >= ; , : = < > + - * / % ( ) [ ] { }"))
        ≡ map Mark (symbols.Becomes ∷ symbols.To ∷ symbols.NotEqual ∷ symbols.AtMost
        ∷ symbols.AtLeast ∷ symbols.Semicolon ∷ symbols.Comma ∷ symbols.Colon ∷ symbols.Equal
        ∷ symbols.Below ∷ symbols.Above ∷ symbols.Plus ∷ symbols.Minus ∷ symbols.Times
        ∷ symbols.Over ∷ symbols.Percent ∷ symbols.OpenParenthesis ∷ symbols.CloseParenthesis
        ∷ symbols.OpenBracket ∷ symbols.CloseBracket ∷ symbols.OpenBrace
        ∷ symbols.CloseBrace ∷ []) }
    ensures no_other_symbol { length all_symbols ≡ 22 }
{}

/// Spaces, tabs, line ends and comments may be between tokens.
pub fn blanks_and_comments_are_no_tokens()
    ensures nothing { tokens_of [] ≡ Ok [] }
    ensures blanks { tokens_of (32 ∷ 9 ∷ 13 ∷ 10 ∷ []) ≡ Ok [] }
    ensures comment { tokens_of (codes "# all of it. @") ≡ Ok [] }
    ensures comment_between { tokens_of (codes "or#.\n if")
        ≡ Ok (token 0 2 (Reserved words.Or) ∷ token 6 8 (Reserved words.If) ∷ []) }
{}

/// A number has a value up to 2^63 - 1. What its digits write is kept, however great.
pub fn numbers_have_a_limit()
    ensures zeros { tokens_of (codes "007") ≡ Ok (token 0 3 (NumberOf (Some (pos 7)) 7) ∷ []) }
    ensures last { tokens_of (codes "9223372036854775807")
        ≡ Ok (token 0 19 (NumberOf (Some (pos 9223372036854775807)) 9223372036854775807) ∷ []) }
    ensures beyond { tokens_of (codes "9223372036854775808")
        ≡ Ok (token 0 19 (NumberOf None 9223372036854775808) ∷ []) }
{}

/// The first byte that begins no token is reported, by its place.
pub fn bad_bytes_have_places()
    ensures one_point { tokens_of (codes "a.b") ≡ Err 1 }
    ensures three_points { tokens_of (codes "a...b") ≡ Err 3 }
    ensures low_line { tokens_of (codes "_a") ≡ Err 0 }
    ensures first_of_two { tokens_of (codes "or ! @") ≡ Err 3 }
    ensures at_the_end { tokens_of (codes "model ; $") ≡ Err 8 }
    ensures point_in_a_bound { tokens_of (codes "model M; var X : 0.5 = 0;") ≡ Err 18 }
    ensures after_a_comment { tokens_of (35 ∷ 255 ∷ 10 ∷ 255 ∷ []) ≡ Err 3 }
{}
