// The laws are functions that do nothing: what they say is proved, and that they can be called is seen here.
use tm_gf256::Gf;

#[test]
fn laws_of_the_outer_code(_rt: HostRuntime) {
    tm_gf256::field_laws();
    tm_gf256::product_law();
    tm_gf256::basis_laws();
    tm_gf256::see_range(&[Gf(1)]);
    tm_rs_code::distance_law();
    tm_rs_code::systematic_codeword_law();
    tm_rs_code::nearest_law();
    tm_rs_code::nearest_erased_law();
    tm_rs_code::pattern_law();
    tm_workers::schedule_law();
    tm_workers::one_outcome_law();
    tm_records::nearest_records_law();
    tm_codeblock::masked_twice(&[0]);
}

#[test]
fn laws_of_markers(_rt: HostRuntime) {
    tm_sync::one_polarity_law();
    tm_sync::polarity_law();
    tm_sync::marked_law();
    tm_sync::clean_law();
    tm_sync::longer_law();
    tm_sync::few_places_law();
    tm_sync::no_verify_law();
    tm_sync::rescan_law();
    tm_sync::found_law();
    tm_sync::marked_inside_law();
    tm_sync::difference_law();
}

#[test]
fn laws_of_the_inner_code(_rt: HostRuntime) {
    tm_conv::clean_symbols_law();
    tm_conv::complement_law();
    tm_conv::six_pairs_law();
    tm_conv::best_path_law();
    tm_conv::columns_law();
    tm_viterbi::one_list_law();
    tm_viterbi::due_law();
    tm_viterbi::closed_windows_law();
    tm_viterbi::clean_blocks_law();
    tm_viterbi::complemented_blocks_law();
    tm_windows::phase_law();
    tm_windows::whole_window_law();
    tm_windows::slip_law();
    tm_inner::inner_law();
    tm_inner::clean_inner_law();
    tm_inner::due_bits_law();
    tm_inner::metric_law();
}

#[test]
fn laws_of_what_is_received(_rt: HostRuntime) {
    tm_channel::items_law();
    tm_channel::due_items_law();
    tm_channel::first_items_law();
    tm_channel::received_law();
    tm_channel::clean_law();
    tm_channel::disturbed_law();
    tm_channel::disturbed_octets_law();
    tm_channel::found_law();
    tm_channel::polarity_law();
}
