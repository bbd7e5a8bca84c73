//! Laws of the front's end of a block ring alone (`blk_front`; `io/ring.h`, `io/blkif.h`,
//! `grant_table.h`), for whoever answers its asks: nothing is known of the other end.
//!
//! The laws are over every history of a front from its construction on: answers of any value to its
//! asks, submissions, states that it enters and suspends, in any order. The trace of a history has a
//! line for each ask with its answer and with what is told then, and each rule speaks of a line in
//! sight of the lines before it. One law is of a front that keeps its grants, the others are of one that
//! keeps none.
#![tactic(auto)]

ghost use Rattle.front_laws.specs.Samples.{AreTellingsRefused, AreTouchesRefused, AreUntruthsRefused, AnswersTwiceRefused};
ghost use Rattle.front_laws.specs.Left.{EachAnswerLowersWhatIsLeft};
ghost use Rattle.front_laws.specs.Kept.{MakesEachOnce, KeepsWhatWasMade, UsesKeptGrants, PushesKeptGrants, EndsAsItLeaves, EndsTheRingFirst, LeavesNone, BeginsWithNone, KeepsNoneElsewhere};
ghost use Rattle.front_laws.specs.Laws.{EachTellsWhereDue, EachTellsAsRead, EachTouchIsRight, EachAnswersOnce, HonestBreaksNothing, UnbrokenIsHonest, EachBringsItsAnswer};

/// After each move exactly what is due is told: the answer that three words of a response bring, once
/// its request's grants are ended; a sector, once its 128 words are read; and the word that breaks the
/// front, where a read of the producer, of a response or of a grant shows what no honest back leaves.
pub fn each_move_tells_what_is_due()
    ensures { EachTellsWhereDue }
{}

/// Each answer is that of three words of a response that were read, and each sector is the words that
/// were read.
pub fn each_is_told_as_it_was_read()
    ensures { EachTellsAsRead }
{}

/// Each ask on memory is of a word of the frames 0 to 1017. The words of a response are read in their
/// order at the consumer, those of an entry are written so at the producer, and the words of a sector
/// are read from the frames of its request in order. Each grant is that of a frame of the front's own.
/// The producer goes on by one entry, of a request that isn't answered, nor issued in this epoch.
pub fn each_touch_is_right()
    ensures { EachTouchIsRight }
{}

/// No number is answered twice, whatever the answers are and however often the domain is suspended.
pub fn no_number_is_answered_twice()
    ensures { EachAnswersOnce }
{}

/// A response of a request that was issued in this epoch and isn't answered yet, with a status, brings
/// that answer: at once where the request has no frames, and else as the last of its grants is ended.
pub fn a_response_brings_its_answer()
    ensures { EachBringsItsAnswer }
{}

/// Where each answer is honest, nothing breaks the front: a producer between its consumer and its own
/// producer, responses that were asked for, each with a status, and grants that are mapped no more.
/// And each other answer breaks it, at that very move.
pub fn exactly_dishonest_answers_break()
    ensures honest { HonestBreaksNothing }
    ensures unbroken { UnbrokenIsHonest }
{}

/// A front that keeps its grants (`feature-persistent` of `io/blkif.h`) makes each once, whatever it is
/// answered and its negotiation calls for. It writes the flags of a frame of its pool only where that
/// frame's grant isn't kept, for reading and writing, and keeps it from then on: a grant is kept exactly
/// where it was made since the last suspend and wasn't ended since. Where it writes a request's entry
/// and where it pushes it, the grant of each of the request's frames is kept. It ends a grant only as it
/// leaves, with no request left, after those of the ring, and only one that is kept. As it closes its
/// port it keeps none, nor after a suspend, nor where one of both ends doesn't publish the key.
pub fn a_front_that_keeps_grants_makes_each_once()
    ensures made_once { MakesEachOnce }
    ensures as_made { KeepsWhatWasMade }
    ensures used { UsesKeptGrants }
    ensures pushed { PushesKeptGrants }
    ensures ends_leaving { EndsAsItLeaves }
    ensures ring_first { EndsTheRingFirst }
    ensures leaves_none { LeavesNone }
    ensures begins_anew { BeginsWithNone }
    ensures elsewhere { KeepsNoneElsewhere }
{}

/// Each answer lowers what is left to a sound front, whatever it shows, but for three kinds that raise
/// it by less than their prices: an event, a watch, and a producer that shows responses. The word or
/// the frame that the front is at is one of its request's.
pub fn each_answer_lowers_what_is_left()
    ensures { EachAnswerLowersWhatIsLeft }
{}

/// The rules refuse lines that no front shows.
pub fn wrong_traces_are_refused()
    ensures told { AreTellingsRefused }
    ensures touched { AreTouchesRefused }
    ensures honest { AreUntruthsRefused }
    ensures once { AnswersTwiceRefused }
{}
