//! Certificates and documents: which applications and models they spell, and where they are
//! refused.

ghost use Rattle.std.specs.Prelude.{[], ◌∷◌, codes};
ghost use Rattle.model_core.specs.Rules.Reduction.{Prune, Settle, Drop, Merge, Slice};
ghost use Rattle.model_core.specs.Text.CertificateText.{certificate_format};
ghost use Rattle.model_core.specs.Static.Reading.{ReadsDocument};
ghost use Rattle.worked_runs.specs.GrammarTexts.{IsSpelled};
ghost use Rattle.worked_runs.specs.CertificateTexts.{IsNoCertificateText, two_vertices, one_vertex, dropping, two_models};

use static_laws::accepted_or_one_fault;

/// A certificate spells its applications, and a number too large for an edge is none's.
pub fn certificates_are_spelled()
    ensures none { IsSpelled certificate_format (codes "certificate end") [] }
    ensures each { IsSpelled certificate_format
        (codes "certificate prune RUN 1 settle A 02 drop B C merge RUN A slice X end # so")
        (Prune (codes "RUN") 1 ∷ Settle (codes "A") 2 ∷ Drop (codes "B" ∷ codes "C" ∷ [])
        ∷ Merge (codes "RUN") (codes "A") ∷ Slice (codes "X" ∷ []) ∷ []) }
    ensures largest { IsSpelled certificate_format
        (codes "certificate prune A 9223372036854775807 end")
        (Prune (codes "A") 9223372036854775807 ∷ []) }
    ensures too_large { IsSpelled certificate_format
        (codes "certificate prune A 9223372036854775808 end") (Prune (codes "A") 0 ∷ []) }
{}

/// A text that is no certificate is refused at the first token that can't be there, or at its end.
pub fn certificates_are_refused()
    ensures empty { IsNoCertificateText [] 0 }
    ensures no_end { IsNoCertificateText (codes "certificate prune RUN 1") 23 }
    ensures after_end { IsNoCertificateText (codes "certificate end end") 16 }
    ensures no_name { IsNoCertificateText (codes "certificate drop end") 17 }
    ensures no_number { IsNoCertificateText (codes "certificate prune A B end") 20 }
    ensures three_names { IsNoCertificateText (codes "certificate merge A B C end") 22 }
{}

/// A document reads as its two models and its applications.
pub fn documents_are_read()
    ensures { ReadsDocument two_models two_vertices dropping one_vertex }
{
    accepted_or_one_fault();
}
