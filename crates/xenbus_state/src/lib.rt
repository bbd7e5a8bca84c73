//! The negotiation of both ends of a block ring over the keys of xenstore (`io/xenbus.h`,
//! `io/blkif.h`): the states, each key's name and text, what each end does on reading the other's
//! state, and a machine for each end whose asks are completed one by one. The front end
//! and the back end stand on it.
#![tactic(auto)]

mod back;
mod front;
mod keys;
mod laws;
mod numbers;
mod offer;
mod programs;
mod reading;
mod stage;
mod state;
mod table;
mod values;

pub use back::{BackBus, BackBusAsk};
pub use front::{FrontBus, FrontBusAsk, FrontNews};
pub use keys::{BackKey, FrontKey, back_path, front_path, state_path};
pub use laws::{
    a_back_connects_in_order, a_back_offers_in_order, a_broken_front_has_its_cause,
    a_front_asks_for_one_port, a_front_leaves_in_order, a_front_makes_its_ring_in_order,
    a_halt_has_its_cause, a_halted_back_gives_all_up_in_order, a_halted_back_holds_nothing,
    a_number_is_read_where_it_is_a_numeral, each_end_waits_in_these_cases_alone,
    news_follows_what_is_written, the_back_connects_after_it_has_mapped_the_ring,
    the_disk_is_read_as_it_is_set, the_offer_is_read_as_it_is_set, the_states_of_the_back_rise,
    the_states_of_the_front_rise, the_tables_are_obeyed, the_terms_are_read_as_they_are_set,
    the_terms_come_from_the_front_alone,
};
pub use numbers::{read_long, read_number};
pub use offer::{DiskFacts, Features};
pub use stage::{BackBusStage, FrontBusStage};
pub use state::{BusState, read_state};
pub use table::{BackAction, BackHalt, FrontAction, back_action, front_action};
pub use values::{FrontTerms, KeyValue, back_value, front_value};
