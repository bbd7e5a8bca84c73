//! Both ends of a negotiation over one directory of keys (`io/xenbus.h`, `io/blkif.h`), in place of
//! the machine between them: a move of an end reads and writes the directory, and a waiting end
//! takes its watch. Each end alone is `xenbus_state`'s machine over any answers; here the answers are
//! the other's.
//!
//! The laws are over every run of an epoch (`NegotiationRun`): moves of both ends in any order, and
//! closes at any moment, with any front at its beginning, any offer and any disk. No map and no port
//! is refused. The front's requests stand outside: each of its moves says whether any is unfinished.
#![tactic(auto)]

ghost use Rattle.negotiation_laws.specs.Run.{NegotiationRun, now};
ghost use Rattle.negotiation_laws.specs.Laws.{AreStatesSaid, TermsAreSaid, FeaturesAreSaid, FactsAreSaid, BackReadsTheFront, FrontReadsTheBack, MapsByTheTerms, GoesByTheTerms, GoesByTheOffer, GoesByTheDisk, KeepsTheOffer, BackHaltsAsTheFrontIsGone, FrontBreaksOnlyUnserved, FrontIsUnbroken, ConnectsToAConnectedBack, IsConnectedAfter, BackConnectsAfter, BackMapsAfterTheGrants, ConnectedStaysGranted, TheRingOutlastsTheBack, LeavesAfterTheBack, AgreeAtRest, ConnectedAtRest, BusyFrontsConnect, OnlyACloseCloses, NoFrontWatchIsLost, NoBackWatchIsLost, EpochsBegin, MovesLower, SettlingIsBounded, RestsWhereNothingGoes};

/// The directory says which state each end wrote last. From its state Initialised on the front's
/// terms stand in it as it said them, with the port that it made; from InitWait on the back's
/// features, and from Connected on what its disk is.
pub fn the_directory_says_the_states()
    ensures states { (r : NegotiationRun) → AreStatesSaid (now r) }
    ensures terms { TermsAreSaid }
    ensures features { FeaturesAreSaid }
    ensures facts { FactsAreSaid }
{}

/// At each read of a key an end finds what the other has to say by it. So the back goes by the
/// front's terms and references from its first map on, the front by the back's features from its
/// state Initialised on and by its disk from Connected on, whatever happens later.
pub fn each_end_reads_what_the_other_set()
    ensures back { BackReadsTheFront }
    ensures front { FrontReadsTheBack }
    ensures mapping { MapsByTheTerms }
    ensures terms { GoesByTheTerms }
    ensures features { GoesByTheOffer }
    ensures disk { GoesByTheDisk }
    ensures offer { KeepsTheOffer }
{}

/// The back halts only where the front has written Closing, and for no other reason. The front is
/// broken only by a closed back, once it has written Closing itself, while requests are unfinished:
/// so never where none is from then on.
pub fn no_honest_end_breaks_the_negotiation()
    ensures halts { BackHaltsAsTheFrontIsGone }
    ensures breaks { FrontBreaksOnlyUnserved }
    ensures unbroken { FrontIsUnbroken }
{}

/// The front writes Connected only to a back that has mapped the whole ring, bound the port and
/// written Connected; the back only after the front has written Initialised. The back maps the pages
/// in order, by the front's references, only after the front has granted all of them and made the
/// port; and they all stay granted, and the port stays, as long as the back has any of them.
pub fn the_front_connects_only_to_a_connected_back()
    ensures front { ConnectsToAConnectedBack }
    ensures later { IsConnectedAfter }
    ensures back { BackConnectsAfter }
    ensures maps { BackMapsAfterTheGrants }
    ensures granted { ConnectedStaysGranted }
    ensures outlasts { TheRingOutlastsTheBack }
{}

/// The front ends its grants, closes its port and writes Closed only once the back has unmapped every
/// page of the ring, closed its port and written Closed.
pub fn the_front_leaves_after_the_back()
    ensures { LeavesAfterTheBack }
{}

/// Where both ends wait and no watch is pending, both are connected or both are closed; or a closing
/// front waits for requests that are unfinished, before it writes Closing. Where nobody was asked to
/// close, no end closes, and at rest both are connected. A front whose requests are unfinished at
/// each of its moves of the epoch has written Connected at rest, or a later state, also where it is
/// closing.
pub fn at_rest_both_agree()
    ensures agree { AgreeAtRest }
    ensures closes { OnlyACloseCloses }
    ensures connected { ConnectedAtRest }
    ensures busy { BusyFrontsConnect }
{}

/// An epoch has at most 483 moves of both ends but those that wait in vain, whatever happens in
/// between: each lowers what is left to do, and nothing raises it. Where no other move is left both
/// ends are at rest.
pub fn the_negotiation_comes_to_rest()
    ensures lower { MovesLower }
    ensures bounded { SettlingIsBounded }
    ensures rest { RestsWhereNothingGoes }
{}

/// No watch is lost: an end that has set its watch, isn't about to read and hasn't ended has a watch
/// pending, or has read last what the other wrote last.
pub fn no_watch_is_lost()
    ensures front { NoFrontWatchIsLost }
    ensures back { NoBackWatchIsLost }
{}

/// The first epoch of a front is one that the laws speak of, and so is each one after a suspend, but
/// where the front was closed or broken, and does nothing more.
pub fn each_epoch_begins_so()
    ensures { EpochsBegin }
{}
