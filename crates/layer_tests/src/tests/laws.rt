//! Each law holds: of the events of a run, of the two machines, and of the past of an event.

use cdb_alpha::laws as alpha;
use cdb_base::Event;
use cdb_causal::{laws, past};
use cdb_leader::laws as leader;

#[test]
fn laws_of_events() {
    laws::dependence_is_symmetric();
    laws::free_to_end::<Event>();
    laws::rollback_to_end::<Event>();
    laws::rolled_back_exactly::<Event>();
    laws::consequences_exactly::<Event>();
    laws::same_order_exchanged::<Event>();
    laws::exchanged_same_order::<Event>();
    laws::exchange_is_equivalence::<Event>();
    laws::exchanged_reach_the_same::<bool, Event>();
    laws::free_without_effects::<Event>();
    laws::direct_causes_stay::<Event>();
    laws::direct_by_list::<Event>();
    laws::rollback_by_undo::<Event>();
    // What led to an event, and what it led to, is one relation of the events of a history.
    past::past_is_consequences_turned_round::<Event>();
    past::past_by_direct_causes::<Event>();
}

/// What a process of the leader machine sends rests on what it received, and majorities meet. A process of the Alpha
/// machine has rounds of its own, and chooses the latest value that it sees.
#[test]
fn laws_of_the_machines() {
    leader::sent_messages_are_founded();
    leader::received_messages_are_brought();
    leader::no_value_is_made();
    leader::majorities_meet();
    alpha::rounds_are_entered_once();
    alpha::cells_left_never_fall();
    alpha::own_is_what_was_left();
    alpha::chooses_the_latest_write();
    alpha::reached_states_hold();
    alpha::rounds_are_of_one_process();
    alpha::each_input_is_a_step();
    alpha::no_value_is_made();
}
