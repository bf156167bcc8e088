//! Derivations of goals, the program that one stands for, and what it is for a program to be correct:
//! definitions and laws.
#![tactic(auto)]

mod laws;
mod meaning;
mod normal_rules;
mod rules;
mod steady;

pub use laws::{
    bound_grows, bound_in_one_line, lower_measure_is_bounded, program_of_derivation_is_closed,
};
pub use meaning::{
    formed_goal_is_ready, normal_form_is_ready, normal_form_is_steady, normal_form_keeps_bodies,
    normal_form_keeps_meaning, numbering_keeps_meaning, side_depends_on_its_variables,
    sorts_are_needed, steps_keep_meaning,
};
pub use normal_rules::rules_are_sound_in_normal_form;
pub use rules::{call_rule_is_sound, flat_rules_are_sound, unfolding_rules_are_sound};
pub use steady::{nodes_stay_steady, normal_existentials_stand, rules_leave_steady};
