//! The words of a stream, and the draws by them.

ghost use Rattle.std.specs.Prelude.{◌≡◌, [], ◌∷◌, map, pos, negsuc};
ghost use Rattle.sig_base.specs.Stream.{word, uniform_pick, weighted_pick};
ghost use Rattle.worked_runs.specs.Building.{first_six};

/// Stream 54 under seed 42, as PCG32's authors print it, other streams and seeds, and draws from
/// 1..6.
#[tactic(auto, unfolding(rand_pcg::specs::Lcg::state_after))]
pub fn stream_gives()
    ensures words { map (λ k. word 42 54 k) first_six
        ≡ 0xa15c02b7 ∷ 0x7b47f409 ∷ 0xba1d3330 ∷ 0x83d2f293 ∷ 0xbfa4784b ∷ 0xcbed606e ∷ [] }
    ensures first_words_of_other_streams { map (λ stream. word 42 stream 0) (0 ∷ 62 ∷ 63 ∷ [])
        ≡ 0x21b756ee ∷ 0xbb4595d9 ∷ 0x1061a226 ∷ [] }
    ensures first_words_of_other_seeds { map (λ seed. word seed 54 0)
        (0 ∷ 0xffff_ffff_ffff_ffff ∷ []) ≡ 0x47c28b93 ∷ 0x11526277 ∷ [] }
    ensures uniform_draws { map (λ k. uniform_pick (pos 1) (pos 6) (word 42 54 k)) first_six
        ≡ pos 4 ∷ pos 3 ∷ pos 5 ∷ pos 4 ∷ pos 5 ∷ pos 5 ∷ [] }
{}

/// The least word takes the first value and the greatest word the last, and each weight has its
/// share of the words.
pub fn words_are_shared()
    ensures least_word { uniform_pick (negsuc 1) (pos 3) 0 ≡ negsuc 1 }
    ensures greatest_word { uniform_pick (negsuc 1) (pos 3) 0xffffffff ≡ pos 3 }
    ensures one_value { uniform_pick (pos 7) (pos 7) 0xffffffff ≡ pos 7 }
    ensures a_value_a_word { uniform_pick (pos 0) (pos 0xffffffff) 0xa15c02b7 ≡ pos 0xa15c02b7 }
    ensures last_of_the_first_row { weighted_pick (1 ∷ 1 ∷ 2 ∷ []) 0x3fffffff ≡ 0 }
    ensures first_of_the_second_row { weighted_pick (1 ∷ 1 ∷ 2 ∷ []) 0x40000000 ≡ 1 }
    ensures last_of_the_second_row { weighted_pick (1 ∷ 1 ∷ 2 ∷ []) 0x7fffffff ≡ 1 }
    ensures first_of_the_last_row { weighted_pick (1 ∷ 1 ∷ 2 ∷ []) 0x80000000 ≡ 2 }
    ensures last_of_the_last_row { weighted_pick (1 ∷ 1 ∷ 2 ∷ []) 0xffffffff ≡ 2 }
{}
