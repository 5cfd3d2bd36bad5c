//! The headline over two calls of the program: what `print` and `reduce` write of one text.

ghost use Rattle.std.specs.Prelude.{◌≡◌, ℕ, List, [], ◌∷◌, ◌++◌, codes, map, vec_items, Some};
ghost use Rattle.std.specs.Process.{exit_status};
ghost use Rattle.std.specs.String.{string_bytes};
ghost use Rattle.sig_base.specs.Sink.{Outlet, GrowsBy};
ghost use Rattle.sig_base.specs.Source.{Inlet};
ghost use Rattle.model_core.specs.EventGraph.{EventGraph};
ghost use Rattle.model_core.specs.Text.Canonical.{canonical};
ghost use Rattle.answer_laws.specs.PrintedAndReduced.{HasText, ShowTheSame, certificate_of};
ghost use Rattle.sigma_top.specs.Promises.{PromisesOf};

use round_trip::{canonical_texts_read_back, validity_is_by_parts};
use sig_base::{Sink, Source};
use sigma_top::program;
use std::alloc::Global;
use std::process::ExitCode;
use text_laws::{texts_have_one_reading, texts_read_as_one_model};

/// The headline. Take what `program` promises of two calls that have ended: one with the word `print` and one with the word
/// `reduce`, on inputs with the same bytes, both with exit status 0. Then the two outputs show two models that are the same.
///
/// The function does nothing: what it ensures follows from the promises alone, whatever made the two calls.
pub fn printed_and_reduced_models_are_the_same()
    ensures { (text : List ℕ) (one other : ℕ) (first second : Inlet)
        (print_before print_after reduce_before reduce_after : Outlet)
        → PromisesOf (codes "print" ∷ []) one first print_before print_after
        → PromisesOf (codes "reduce" ∷ []) other second reduce_before reduce_after
        → first.left ≡ Some text → second.left ≡ Some text → one ≡ 0 → other ≡ 0
        → (a b : List ℕ) × ShowTheSame a b
        × GrowsBy print_before.written print_after.written a
        × GrowsBy reduce_before.written reduce_after.written b }
{
    texts_read_as_one_model();
    validity_is_by_parts();
}

/// Prints a text, and then reduces the same text, each by a call of the program. Returns both exit statuses. It is an
/// example of the headline: its clause is what that says of these two calls.
pub fn print_and_reduce<S: Source, K: Sink, E: Sink>(
    alloc: Global,
    print: Vec<String>,
    reduce: Vec<String>,
    first: &mut S,
    second: &mut S,
    printed: &mut K,
    reduced: &mut K,
    errors: &mut E,
) -> (ExitCode, ExitCode)
    // Where the words are `print` and `reduce`, both inputs give the same bytes, and both exit statuses are 0, the outputs
    // grew by bytes that show two models, which are the same.
    ensures { map string_bytes (vec_items print) ≡ codes "print" ∷ []
        → map string_bytes (vec_items reduce) ≡ codes "reduce" ∷ []
        → (text : List ℕ) → (S.seen first.old).left ≡ Some text
        → (S.seen second.old).left ≡ Some text
        → exit_status result.0 ≡ 0 → exit_status result.1 ≡ 0
        → (a b : List ℕ) × ShowTheSame a b
        × GrowsBy (K.seen printed.old).written (K.seen printed.new).written a
        × GrowsBy (K.seen reduced.old).written (K.seen reduced.new).written b }
{
    printed_and_reduced_models_are_the_same();
    let first_status = program(alloc, Ok(print), first, printed, errors);
    let second_status = program(alloc, Ok(reduce), second, reduced, errors);
    (first_status, second_status)
}

/// No two models that have a text have one canonical text, nor one with a certificate after it. The function does nothing: what it
/// ensures holds of all models.
pub fn canonical_texts_determine_models()
    ensures alone { (g h : EventGraph) → HasText g → HasText h → canonical g ≡ canonical h → g ≡ h }
    ensures certified { (g h : EventGraph) (a b : List ℕ) → HasText g → HasText h
        → canonical g ++ certificate_of a ≡ canonical h ++ certificate_of b → g ≡ h }
{
    texts_have_one_reading();
    canonical_texts_read_back();
}
