//! The arguments that the words of a command line give, and how the values of options are read.

ghost use Rattle.std.specs.Prelude.{◌≡◌, pos, neg_ℤ, true, false, [], ◌∷◌, Some, None, codes};
ghost use Rattle.command_words.specs.Arguments.{CommandWord, Setting, TwoDashes, NameWithValue, NameAlone, OtherForm, form_of, is_value, arguments_of, command_words, values_of, has_only_options};
ghost use Rattle.command_words.specs.ArgumentValues.{number_within, whole_number, starting_values, needed, besides};
ghost use Rattle.worked_reports.specs.CommandLines.{words_in};

/// Two dashes alone, before a name, or before a name with a value, which begins after the first
/// `=`; any other word is of no such form.
pub fn words_have_forms()
    ensures two_dashes { form_of (codes "--") ≡ TwoDashes }
    ensures name { form_of (codes "--until") ≡ NameAlone (codes "until") }
    ensures name_with_value { form_of (codes "--until=12")
        ≡ NameWithValue (codes "until") (codes "12") }
    ensures first_equals { form_of (codes "--a=b=c") ≡ NameWithValue (codes "a") (codes "b=c") }
    ensures no_name { form_of (codes "--=12") ≡ NameWithValue [] (codes "12") }
    ensures no_value { form_of (codes "--until=") ≡ NameWithValue (codes "until") [] }
    ensures three_dashes { form_of (codes "---") ≡ NameAlone (codes "-") }
    ensures one_dash { form_of (codes "-until") ≡ OtherForm }
    ensures dash_alone { form_of (codes "-") ≡ OtherForm }
    ensures nothing { form_of [] ≡ OtherForm }
    ensures plain { form_of (codes "run") ≡ OtherForm }
    ensures dashes_after { form_of (codes "run--until=1") ≡ OtherForm }
{}

/// A name takes the next word as its value, unless that begins with `-`. The first `--` counts for
/// nothing, and each word after it is to be the command.
pub fn words_give_arguments()
    ensures nothing { arguments_of [] ≡ [] }
    ensures each { arguments_of (words_in (codes "run --until 5 --seed=1 check"))
        ≡ CommandWord (codes "run") ∷ Setting (codes "until") (codes "5")
        ∷ Setting (codes "seed") (codes "1") ∷ CommandWord (codes "check") ∷ [] }
    ensures command_as_value { arguments_of (words_in (codes "--until run check"))
        ≡ Setting (codes "until") (codes "run") ∷ CommandWord (codes "check") ∷ [] }
    ensures empty_value { arguments_of (codes "--until" ∷ [] ∷ codes "run" ∷ [])
        ≡ Setting (codes "until") [] ∷ CommandWord (codes "run") ∷ [] }
    ensures dash_after { arguments_of (words_in (codes "--until -5 run"))
        ≡ CommandWord (codes "--until") ∷ CommandWord (codes "-5")
        ∷ CommandWord (codes "run") ∷ [] }
    ensures option_after { arguments_of (words_in (codes "--until --seed=1"))
        ≡ CommandWord (codes "--until") ∷ Setting (codes "seed") (codes "1") ∷ [] }
    ensures last { arguments_of (words_in (codes "run --until"))
        ≡ CommandWord (codes "run") ∷ CommandWord (codes "--until") ∷ [] }
    ensures last_with_value { arguments_of (words_in (codes "run --until=5"))
        ≡ CommandWord (codes "run") ∷ Setting (codes "until") (codes "5") ∷ [] }
    ensures last_dashes { arguments_of (words_in (codes "run --"))
        ≡ CommandWord (codes "run") ∷ [] }
    ensures after_dashes { arguments_of (words_in (codes "--until=5 -- run --seed=1 --room 3 --"))
        ≡ Setting (codes "until") (codes "5") ∷ CommandWord (codes "run")
        ∷ CommandWord (codes "--seed=1") ∷ CommandWord (codes "--room") ∷ CommandWord (codes "3")
        ∷ CommandWord (codes "--") ∷ [] }
    ensures dashes_as_no_value { arguments_of (words_in (codes "--until -- run"))
        ≡ CommandWord (codes "--until") ∷ CommandWord (codes "run") ∷ [] }
    ensures empty_word_is_value { is_value [] ≡ true }
    ensures dash_is_none { is_value (codes "-1") ≡ false }
{}

/// Words and values are in the order in which they are given. An option is one of those that are
/// named, each time.
pub fn arguments_are_looked_up()
    ensures commands { command_words
        (CommandWord (codes "a") ∷ Setting (codes "x") (codes "1") ∷ CommandWord (codes "b") ∷ [])
        ≡ codes "a" ∷ codes "b" ∷ [] }
    ensures values { values_of (codes "x")
        (Setting (codes "x") (codes "1") ∷ CommandWord (codes "x") ∷ Setting (codes "y") (codes "2")
        ∷ Setting (codes "x") (codes "3") ∷ []) ≡ codes "1" ∷ codes "3" ∷ [] }
    ensures longer_name { values_of (codes "x") (Setting (codes "xx") (codes "1") ∷ []) ≡ [] }
    ensures only { has_only_options (codes "x" ∷ codes "y" ∷ [])
        (Setting (codes "y") (codes "1") ∷ CommandWord (codes "z")
        ∷ Setting (codes "x") (codes "2") ∷ []) ≡ true }
    ensures another_first { has_only_options (codes "x" ∷ codes "y" ∷ [])
        (Setting (codes "z") (codes "1") ∷ Setting (codes "x") (codes "2") ∷ []) ≡ false }
    ensures another_later { has_only_options (codes "x" ∷ codes "y" ∷ [])
        (Setting (codes "x") (codes "1") ∷ Setting (codes "z") (codes "2") ∷ []) ≡ false }
    ensures no_name { has_only_options (codes "x" ∷ []) (Setting [] (codes "1") ∷ []) ≡ false }
    ensures none { has_only_options [] (CommandWord (codes "x") ∷ []) ≡ true }
{}

/// A number is one or more digits, leading zeros allowed, from the lowest to the highest that there
/// may be. A starting value is a whole number inside 64 bits, and may have a `-`.
pub fn values_are_read()
    ensures lowest { number_within 3 7 (codes "3") ≡ Some 3 }
    ensures highest { number_within 3 7 (codes "7") ≡ Some 7 }
    ensures below { number_within 3 7 (codes "2") ≡ None }
    ensures above { number_within 3 7 (codes "8") ≡ None }
    ensures zeros { number_within 3 700 (codes "00420") ≡ Some 420 }
    ensures no_digit { number_within 0 7 [] ≡ None }
    ensures plus { number_within 0 7 (codes "+1") ≡ None }
    ensures minus { number_within 0 7 (codes "-1") ≡ None }
    ensures letter_after { number_within 0 7 (codes "1x") ≡ None }
    ensures before_the_digits { number_within 0 7 (codes "/") ≡ None }
    ensures after_the_digits { number_within 0 70 (codes "1:") ≡ None }
    ensures least_whole { whole_number (codes "-9223372036854775808")
        ≡ Some (neg_ℤ (pos 9223372036854775808)) }
    ensures whole_below { whole_number (codes "-9223372036854775809") ≡ None }
    ensures greatest_whole { whole_number (codes "9223372036854775807")
        ≡ Some (pos 9223372036854775807) }
    ensures whole_above { whole_number (codes "9223372036854775808") ≡ None }
    ensures minus_zero { whole_number (codes "-00") ≡ Some (pos 0) }
    ensures minus_alone { whole_number (codes "-") ≡ None }
    ensures two_minuses { whole_number (codes "--1") ≡ None }
    ensures one_start { starting_values (codes "5") ≡ Some (pos 5 ∷ []) }
    ensures three_starts { starting_values (codes "5,-1,06")
        ≡ Some (pos 5 ∷ neg_ℤ (pos 1) ∷ pos 6 ∷ []) }
    ensures no_start { starting_values [] ≡ None }
    ensures comma_after { starting_values (codes "5,") ≡ None }
    ensures comma_before { starting_values (codes ",5") ≡ None }
    ensures two_commas { starting_values (codes "5,,6") ≡ None }
    ensures blank { starting_values (codes "5, 6") ≡ None }
    ensures bad_first { starting_values (codes "x,6") ≡ None }
{}

/// What is needed is given once, and what may be given at most once.
pub fn options_are_given_once()
    ensures needed_once { needed (number_within 0 9) (codes "5" ∷ []) ≡ Some 5 }
    ensures needed_never { needed (number_within 0 9) [] ≡ None }
    ensures needed_twice { needed (number_within 0 9) (codes "5" ∷ codes "5" ∷ []) ≡ None }
    ensures besides_once { besides 7 (number_within 0 9) (codes "5" ∷ []) ≡ Some 5 }
    ensures besides_never { besides 7 (number_within 0 9) [] ≡ Some 7 }
    ensures besides_twice { besides 7 (number_within 0 9) (codes "5" ∷ codes "5" ∷ []) ≡ None }
    ensures besides_badly { besides 7 (number_within 0 9) (codes "x" ∷ []) ≡ None }
{}
