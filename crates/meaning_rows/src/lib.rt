//! Worked rows: small programs, worked out by hand, which show what the definitions of `lus_meaning` say. Each row is a
//! law, a function without a body whose contract is the row.
#![tactic(auto)]

mod accepted_rows;
mod body_rows;
mod call_rows;
mod clock_rows;
mod constant_rows;
mod contract_rows;
mod fit_rows;
mod item_rows;
mod mode_rows;
mod need_rows;
mod number_rows;
mod operator_rows;
mod owed_rows;
mod pair_rows;
mod refusal_rows;
mod run_rows;
mod sampling_rows;
mod slot_rows;
mod sort_rows;
mod squeeze_rows;
mod trace_rows;
mod weight_rows;

pub use accepted_rows::{
    accepted_equation_rows, accepted_limit_rows, accepted_name_rows, accepted_type_rows,
};
pub use body_rows::{assertion_row, broken_row, free_name_row, toggle_alternates, toggle_row};
pub use call_rows::{
    calls_everywhere_row, deep_call_row, inner_condact_row, merge_branches_row, sampled_call_row,
    several_outputs_row, slow_operands_row,
};
pub use clock_rows::{held_output_row, merge_of_clocks_row, slow_pre_row};
pub use constant_rows::constants_row;
pub use contract_rows::{callee_assumption_row, import_row};
pub use fit_rows::{fitting_row, places_misfit_row, values_misfit_row, words_misfit_row};
pub use item_rows::{items_row, label_row};
pub use mode_rows::{empty_mode_row, mode_memory_row, three_modes_row};
pub use need_rows::{chained_order_row, circles_row, late_circle_row, least_order_row, needs_row};
pub use number_rows::{first_token_row, numbered_row, unnumbered_row};
pub use operator_rows::{division_row, flag_row, number_row, operand_row, order_row};
pub use owed_rows::{
    breaks_row, deep_assertion_row, direct_caller_row, end_row, first_break_row, impossible_row,
    lawless_row, two_calls_row,
};
pub use pair_rows::{against_row, circle_row};
pub use refusal_rows::{equation_rows, limit_rows, name_rows, type_rows, valueless_rows};
pub use run_rows::{run_row, unbalanced_row, unshaped_row, untyped_row};
pub use sampling_rows::{clock_of_clock_row, sampling_row};
pub use slot_rows::{layout_row, variables_row};
pub use sort_rows::{first_sorts_row, no_call_row};
pub use squeeze_rows::{squeezed_call_row, squeezed_row};
pub use trace_rows::{nested_trace_row, other_frame_row, way_row};
pub use weight_rows::{
    branch_weights_row, constant_values_row, plain_weights_row, product_weights_row, unweighed_row,
};
