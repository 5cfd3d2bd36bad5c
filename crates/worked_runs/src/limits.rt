//! The limits, each with its number. Most are the subject of a rule of the text or of a command.

ghost use Rattle.std.specs.Prelude.{◌≡◌, ◌^◌, pos};
ghost use Rattle.sig_base.specs.declared.limits.TheConstants.{TEXT_MAX, DOCUMENT_MAX, NAME_MAX, VERTICES_MAX, VARIABLES_MAX, ARRAY_CELLS_MAX, ARRAY_CELLS_MAX_VERSION_1, CELLS_MAX, CHANGES_MAX, EDGES_MAX, PARAMETERS_MAX, PARAMETERS_MAX_VERSION_1, TARGETS_MAX, TARGETS_MAX_VERSION_1, TABLES_MAX, ROWS_MAX, OPENINGS_MAX, LITERAL_MAX, WEIGHTS_MAX, STOP_MAX, EVENTS_MAX, RUNS_MAX};

/// The numbers that a model, a text and a run may have at most.
pub fn limits_have_these_numbers()
    ensures bytes_of_a_text { TEXT_MAX ≡ 4_194_304 }
    ensures bytes_of_a_document { DOCUMENT_MAX ≡ 25_165_824 }
    ensures bytes_of_a_name { NAME_MAX ≡ 32 }
    ensures vertices { VERTICES_MAX ≡ 2_000 }
    ensures variables { VARIABLES_MAX ≡ 2_000 }
    ensures cells_of_an_array { ARRAY_CELLS_MAX ≡ 65_536 }
    ensures cells_of_an_array_of_version_1 { ARRAY_CELLS_MAX_VERSION_1 ≡ 4_096 }
    ensures cells_of_all_arrays { CELLS_MAX ≡ 16_777_216 }
    ensures changes_of_a_vertex { CHANGES_MAX ≡ 1_000 }
    ensures edges_of_a_vertex { EDGES_MAX ≡ 1_000 }
    ensures parameters_of_a_vertex { PARAMETERS_MAX ≡ 16 }
    ensures parameters_of_a_vertex_of_version_1 { PARAMETERS_MAX_VERSION_1 ≡ 8 }
    ensures targets_of_a_set { TARGETS_MAX ≡ 16 }
    ensures targets_of_a_set_of_version_1 { TARGETS_MAX_VERSION_1 ≡ 8 }
    ensures tables { TABLES_MAX ≡ 100 }
    ensures rows_of_a_table { ROWS_MAX ≡ 1_000 }
    ensures openings_of_a_part { OPENINGS_MAX ≡ 256 }
    ensures magnitude_of_a_bound { LITERAL_MAX ≡ pos (2 ^ 62) }
    ensures sum_of_weights { WEIGHTS_MAX ≡ 2 ^ 32 }
    ensures stop_time { STOP_MAX ≡ 2 ^ 48 }
    ensures events_of_a_run { EVENTS_MAX ≡ 2 ^ 40 }
    ensures runs_of_one_replication { RUNS_MAX ≡ 65_536 }
{}
