//! What the clause of the export excludes: calls over bytes in memory fail only where a room is full.

ghost use Rattle.std.specs.Prelude.{◌≡◌, ◌⊎◌, ℕ, List, [], length};
ghost use Rattle.answer_delivery.specs.declared.status.Status.TheVariants as statuses;
ghost use Rattle.answer_delivery.specs.declared.status.Failure.{Failure};
ghost use Rattle.answer_delivery.specs.FailureStatus.{status_of_failure};
ghost use Rattle.answer_delivery.specs.Statuses.{failure_line};
ghost use Rattle.sigma_page.specs.PageCall.{EndsOverBytes};

/// No read fails, so status 3 never comes. A write fails only if the room is full, so status 4 comes with a full room alone.
/// The error output is exactly the line of the failure, unless its room is full, and is empty if the job is done.
///
/// The function does nothing: what it ensures holds of all calls. Out of memory is the one answer that stays free.
pub fn full_rooms_alone_fail()
    ensures no_read_fails { (words : List (List ℕ)) (input output errors : List ℕ) (room errors_room : ℕ)
        → EndsOverBytes words input room errors_room output errors statuses.ReadFault → ⊥ }
    ensures output_is_full { (words : List (List ℕ)) (input output errors : List ℕ) (room errors_room : ℕ)
        → EndsOverBytes words input room errors_room output errors statuses.WriteFault → length output ≡ room }
    ensures line { (words : List (List ℕ)) (input output errors : List ℕ) (room errors_room : ℕ) (failure : Failure)
        → EndsOverBytes words input room errors_room output errors (status_of_failure failure)
        → (length errors ≡ errors_room) ⊎ (errors ≡ failure_line failure) }
    ensures no_line { (words : List (List ℕ)) (input output errors : List ℕ) (room errors_room : ℕ)
        → EndsOverBytes words input room errors_room output errors statuses.Done → errors ≡ [] }
{}
