// What is true of each end, whatever the other end's keys say.
ghost use Rattle.xenbus_state.specs.Agreement.{NumbersAreNumerals, TermsAreRead, OfferIsRead, FactsAreRead};
ghost use Rattle.xenbus_state.specs.Orders.{HaltsInOrder, AsksForOnePort, StartsInOrder, LeavesInOrder, OffersInOrder, ConnectsInOrder};
ghost use Rattle.xenbus_state.specs.Laws.{FrontStatesRise, BackStatesRise, TermsComeFromTheFront, ConnectsOnlyMapped, HaltedHoldsNothing, NewsFollows, TablesAreObeyed, HaltsByCause, BreaksByCause, WaitsInTheseCases};

/// In an epoch each state that the front writes is above those that it wrote before, whatever it is
/// told: none is written twice.
pub fn the_states_of_the_front_rise()
    ensures { FrontStatesRise }
{}

/// In an epoch each state that the back writes is above those that it wrote before, whatever it is
/// told: none is written twice.
pub fn the_states_of_the_back_rise()
    ensures { BackStatesRise }
{}

/// The back writes Connected only after it has mapped all pages of the ring and bound the port.
pub fn the_back_connects_after_it_has_mapped_the_ring()
    ensures { ConnectsOnlyMapped }
{}

/// A back that has halted holds no mapping of the ring and no port, and its state is Closed.
pub fn a_halted_back_holds_nothing()
    ensures { HaltedHoldsNothing }
{}

/// The front is ready exactly with its writing of Connected, closed exactly with that of Closed, and
/// begins to close once.
pub fn news_follows_what_is_written()
    ensures { NewsFollows }
{}

/// From a read of the other end's state, each end does what its table says.
pub fn the_tables_are_obeyed()
    ensures { TablesAreObeyed }
{}

/// The back halts exactly by its causes: a state by its table, this key missing or malformed, this map
/// or this port refused.
pub fn a_halt_has_its_cause()
    ensures { HaltsByCause }
{}

/// Each end waits where nothing is begun and nothing is due, and where it has ended; nowhere else.
pub fn each_end_waits_in_these_cases_alone()
    ensures { WaitsInTheseCases }
{}

/// The number of a key is read exactly where its text is 1 to so many digits, leading zeros allowed,
/// that say a number up to the limit.
pub fn a_number_is_read_where_it_is_a_numeral()
    ensures { NumbersAreNumerals }
{}

/// Each key that a front sets is read as what it says.
pub fn the_terms_are_read_as_they_are_set()
    ensures { TermsAreRead }
{}

/// A front that reads the keys of a back has exactly what the back offers, whatever it had before.
pub fn the_offer_is_read_as_it_is_set()
    ensures { OfferIsRead }
{}

/// Each fact of the disk that a back sets is read as what it says.
pub fn the_disk_is_read_as_it_is_set()
    ensures { FactsAreRead }
{}

/// A halted back unmaps the mappings of its jobs, then the pages of the ring in order, closes its
/// port if it has one, writes Closing unless it has written that, and writes Closed.
pub fn a_halted_back_gives_all_up_in_order()
    ensures { HaltsInOrder }
{}

/// In an epoch a front asks for one port at most, whatever completes its asks.
pub fn a_front_asks_for_one_port()
    ensures { AsksForOnePort }
{}

/// A front that has read what the back offers writes the ring's first words, grants its pages, makes
/// a port, publishes its keys in order, and is Initialised.
pub fn a_front_makes_its_ring_in_order()
    ensures { StartsInOrder }
{}

/// A closing front whose back is gone ends the grants of the ring's pages, and all others, closes its
/// port, and writes Closed.
pub fn a_front_leaves_in_order()
    ensures { LeavesInOrder }
{}

/// A back publishes what it offers in order, writes InitWait, and sets its watch.
pub fn a_back_offers_in_order()
    ensures { OffersInOrder }
{}

/// A back that has read the front's keys maps the pages of the ring, binds the port, publishes what
/// the disk is, and is connected.
pub fn a_back_connects_in_order()
    ensures { ConnectsInOrder }
{}

/// The front is broken by what it reads exactly by its causes: a state by its table, a key of the back
/// missing or malformed.
pub fn a_broken_front_has_its_cause()
    ensures { BreaksByCause }
{}

/// The layout, the order and the references that the back goes by come from what it read of the front
/// alone: they would be the same whatever it offered and whatever its disk was.
pub fn the_terms_come_from_the_front_alone()
    ensures { TermsComeFromTheFront }
{}
