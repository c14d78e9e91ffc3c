//! What it means that the record of a call over many sessions is settled, said in pieces.
#![tactic(auto)]

mod laws;

pub use laws::{
    closing_is_no_part, cutting_is_unique, direction_waits_where_left,
    each_session_comes_to_something, record_shows_who_waits, session_comes_to_its_part,
    session_ends_alike, small_records_are_settled, visit_pauses_little, wrong_records_are_refused,
};
