//! What every run of completion's machine keeps: laws over `uc_machine`'s definitions, each the contract of a function that
//! does nothing.
#![tactic(auto)]

mod laws;

pub use laws::{
    chains_replay, continued_go_further, ends_stay_ground, events_are_recorded, facts_are_numbered,
    facts_are_small, facts_within_budget, fronts_are_earlier, goals_are_apart, goals_at_rest,
    large_overlap_of_live, live_over_signature, meetings_are_whole, mores_go_on, one_final,
    one_result, origins_known, proved_goal_meets, saturated_by_final_pass, stays_over_signature,
    verdicts_have_causes,
};
