//! Laws of the machine whose ends negotiate (`io/xenbus.h`) and then serve a ring (`io/blkif.h`): it
//! is fit whatever happens, each move of an end is what that end asks and is answered, and whatever
//! happens is possible for the machine of the ring, of whose reports the other laws speak, and served
//! until a word or a key is overwritten; until then both ends agree where all is quiet. Each end waits
//! in three cases alone; the back halts, the front is broken and the front shows its states exactly
//! where that is due; and each answer is the response that was read. The runner stands on it.
#![tactic(auto)]

ghost use Rattle.std.specs.Prelude.{◌≡◌, ℕ, ℤ, ◌+◌, ◌^◌, ◌<◌, ◌≤◌, List, ◌++◌, length, Some, None};
ghost use Rattle.blk_base.specs.Options.{Options};
ghost use Rattle.blk_base.specs.declared.parts.End.{End};
ghost use Rattle.schedule_text.specs.declared.line.Line.{Line};
ghost use Rattle.hypervisor.specs.Act.{FrontAct, BackAct};
ghost use Rattle.hypervisor.specs.May.{FrontMay, BackMay};
ghost use Rattle.back_jobs.specs.Hands.{Names};
ghost use Rattle.blk_back.specs.Hands.{hands_of, most_held};
ghost use Rattle.vbd_front.specs.Ask.{ask_of as front_ask, StaysInMemory};
ghost use Rattle.vbd_back.specs.Ask.{ask_of as back_ask};
ghost use Rattle.vbd_model.specs.World.{World, start_of, frontend_of, backend_of};
ghost use Rattle.vbd_model.specs.Happening.{Happening, FrontMoves, BackMoves, front_turn, back_turn, happens, after};
ghost use Rattle.vbd_model.specs.Fit.{IsFit};
ghost use Rattle.vbd_laws.specs.Moves.{IsFrontMove, IsBackMove, IsClose, IsNoMove};
ghost use Rattle.vbd_laws.specs.Served.{RingsPossible, RingsServed, RingGoesByTheTerms, RingIsMadeFirst};
ghost use Rattle.vbd_laws.specs.Quiet.{StatesAgreeAtQuiet, RingsAgreed};
ghost use Rattle.vbd_laws.specs.Waits.{FrontWaits, BackWaits, JobWaits};
ghost use Rattle.vbd_laws.specs.Breaks.{AreBreaksDue, EachReportBreaksWhereDue, EachEndedBreaksWhereDue, IsOverOnce, EachReportIsOverOnce, EachEndedIsOverOnce};
ghost use Rattle.vbd_laws.specs.AnswersRead.{AreRead, EachReportAnswersWhatIsRead, EachEndedAnswersWhatIsRead};
ghost use Rattle.vbd_laws.specs.WrongBreaks.{broken_by_no_response, broken_by_no_word, broken_late, broken_though_through, broken_by_its_own};
ghost use Rattle.vbd_laws.specs.WrongBreaks.{goes_on_too_far, goes_on_mapped, goes_on_broken};
ghost use Rattle.vbd_laws.specs.WrongBreaks.{answered_otherwise, answered_unread, read_further};
ghost use Rattle.vbd_laws.specs.Halts.{HaltsByCauses, EachReportHalts, EachEndedHalts, EachHaltIsWorded};
ghost use Rattle.vbd_laws.specs.WrongHalts.{gone_while_connected, out_of_order_early, on_at_a_beginning, on_at_no_state, halted_by_a_port, on_at_no_port, refused_though_mapped, bad_though_bound, on_though_refused, halted_by_nothing, works_on, reads_of_a_closed_front};
ghost use Rattle.vbd_laws.specs.StateLines.{StandAsSaid, EachReportsStates, EachEndedsStates, EachClosingComes};
ghost use Rattle.vbd_laws.specs.Asked.{ClosingIsAsked};
ghost use Rattle.vbd_laws.specs.WrongStates.{ready_unsaid, closed_unsaid, connected_in_silence, closed_in_silence, on_at_closing, on_at_closed, closing_again, closing_though_broken, closed_at_once};

/// The machine is fit at the start, whatever the options, of which a configuration allows at most 960
/// segments of an indirect request, and stays so, whatever happens: its rings are safe, each negotiation
/// goes with its end of the ring, closes and halts with it, both know the ring's shape, the references
/// of its pages and its port, the back's end of the ring serves what its keys say, and no event is
/// pending where no port is made or bound.
pub fn the_machine_stays_fit()
    ensures start { (config : Options) → config.indirect ≤ 960 → IsFit (start_of config) }
    ensures kept { (w : World) (h : Happening) → IsFit w → IsFit (happens w h) }
    ensures after { (hs : List Happening) (w : World) → IsFit w → IsFit (after hs w) }
{}

/// A move of an end of a fit machine is the act that the end asks for, told to it, with the lines of
/// the move and of what it made happen. Where there is no act, nothing happens. An end that is asked to
/// close begins to, and shows that. None of it calls the disk; the front makes no mapping, the back one
/// at most.
pub fn a_move_is_what_its_end_asks()
    ensures front { (w : World) (a : FrontAct) → IsFit w → front_turn w ≡ Some a → IsFrontMove w a }
    ensures front_none { (w : World) → IsFit w → front_turn w ≡ None → IsNoMove w FrontMoves }
    ensures back { (w : World) (a : BackAct) → IsFit w → back_turn w ≡ Some a → IsBackMove w a }
    ensures back_none { (w : World) → IsFit w → back_turn w ≡ None → IsNoMove w BackMoves }
    ensures closes { (w : World) (at : End) → IsFit w → IsClose w at }
{}

/// While the machine is fit, what its ends ask may be carried out: by the front, a port, each word of
/// its memory, and its keys; by the back, each word through a mapping that it holds, and its keys;
/// and a further mapping while no more are held than may be and its number is below 2^64.
pub fn every_ask_may_be_carried_out()
    ensures front { (w : World) → IsFit w → StaysInMemory (front_ask (frontend_of w)) → FrontMay w.rings.under (front_ask (frontend_of w)) }
    ensures back { (w : World) → IsFit w → Names (hands_of w.rings.back) (back_ask (backend_of w)) → w.rings.under.grants.made + 1 < 2 ^ 64
        → length (hands_of w.rings.back) ≤ most_held → BackMay w.rings.under (Some w.rings.back.jobs.info.sectors) (back_ask (backend_of w)) }
{}

/// Whatever a schedule makes happen is possible for the machine of the ring: each path and text of a
/// key, each reason of a halt and each word that breaks the front is of the grammar, and the front
/// agrees the order of its ring that it wished, since it reads what its back offers only after that is
/// said.
pub fn whatever_happens_is_possible()
    ensures { RingsPossible }
{}

/// What happens before a hostile hand first overwrites a word or a key is served by the machine of the
/// ring, however often the domain is suspended: in each epoch the front connects, closes and leaves in
/// order and is never broken, and leaves after the back; the back takes the front's terms, its first
/// port of the epoch among them, and halts only as its front closes, with no request left, or from the
/// beginning of an epoch whose front was closed before it; and where all is found quiet neither end
/// waits for its negotiation.
pub fn the_honest_part_is_served()
    ensures { RingsServed }
{}

/// The back's end of the ring maps the references, one after the other, and binds the port that its
/// negotiation read of the front's keys (`ring-ref` and `event-channel` of `io/blkif.h`), whatever a
/// hostile hand overwrites. Until it overwrites a key, also after a suspend, the front has made them
/// all before the back's end of the ring has a move, but for those after a halt.
pub fn the_back_maps_what_the_front_granted()
    ensures terms { RingGoesByTheTerms }
    ensures made { RingIsMadeFirst }
{}

/// Where all is quiet, before a hostile hand first overwrites a word or a key, however often the domain
/// is suspended, both ends wrote Connected (4) last, or both wrote Closed (6) (`io/xenbus.h`) and the
/// front closes, and the directory of keys says so. Until then the directory of the ring's machine says
/// so wherever a look finds all quiet.
pub fn at_quiet_both_states_agree()
    ensures agree { StatesAgreeAtQuiet }
    ensures said { RingsAgreed }
{}

/// In each report with moves the front is broken exactly where the lines say so, whatever happens, and
/// by the word that they show. The line after a move of the front is `broken` where it read a producer
/// of responses that is too far ahead (`io/ring.h`), a response whose id is that of no request which it
/// issued in this epoch and hasn't answered, or whose status is none (`io/blkif.h`), a grant's entry
/// whose frame is mapped still, or another word there than before (`grant_table.h`), a state by which
/// its back is gone while an answer is owed, a text that is no state, or another bad key of its back
/// (`io/xenbus.h`, `io/blkif.h`); and `broken` stands nowhere else.
pub fn the_front_is_broken_exactly_by_its_causes()
    ensures report { EachReportBreaksWhereDue }
    ensures ended { EachEndedBreaksWhereDue }
    ensures before { (first more : List Line) → AreBreaksDue (first ++ more) → AreBreaksDue first }
{}

/// Once a line of a report with moves says that the front is closed or broken, the front makes no move
/// in any epoch but that it takes events and watches, tells nothing, and accepts no submission, whatever
/// happens (`io/xenbus.h`).
pub fn a_closed_or_broken_front_does_nothing_more()
    ensures report { EachReportIsOverOnce }
    ensures ended { EachEndedIsOverOnce }
    ensures before { (first more : List Line) → IsOverOnce (first ++ more) → IsOverOnce first }
{}

/// In each report with moves each answer has the id and the status of the three words of the response
/// at the front's consumer, which it read in their order, and no word of an entry after them, whatever
/// happens (`io/ring.h`, RING_GET_RESPONSE; `io/blkif.h`, struct blkif_response).
pub fn each_answer_is_the_response_that_was_read()
    ensures report { EachReportAnswersWhatIsRead }
    ensures ended { EachEndedAnswersWhatIsRead }
    ensures before { (first more : List Line) → AreRead (first ++ more) → AreRead first }
{}

/// The rule refuses a front that is broken by a producer of responses that is its own consumer, by the
/// id of a request that is issued and has no answer, by a back that is closed where no answer is owed,
/// by a word that the read before didn't show, or with another line between; and one that goes on after
/// a producer too far ahead, after a grant's entry that is mapped still, or after it was broken.
pub fn wrong_breaks_are_refused()
    ensures near { (config : Options) → ¬ AreBreaksDue (broken_by_no_response config) }
    ensures own { (config : Options) → ¬ AreBreaksDue (broken_by_its_own config) }
    ensures through { (config : Options) → ¬ AreBreaksDue (broken_though_through config) }
    ensures unshown { (config : Options) → ¬ AreBreaksDue (broken_by_no_word config) }
    ensures late { (config : Options) → ¬ AreBreaksDue (broken_late config) }
    ensures far { (config : Options) → config.start < 2 ^ 32 → ¬ AreBreaksDue (goes_on_too_far config) }
    ensures mapped { (config : Options) → ¬ AreBreaksDue (goes_on_mapped config) }
    ensures over { (config : Options) → ¬ IsOverOnce (goes_on_broken config) }
{}

/// The rule refuses an answer of another status than that of the response that was read, an answer
/// where none was read, and a read of a fourth word of the entry before the answer.
pub fn wrong_answers_are_refused()
    ensures status { (config : Options) → ¬ AreRead (answered_otherwise config) }
    ensures unread { (config : Options) → ¬ AreRead (answered_unread config) }
    ensures further { (config : Options) → ¬ AreRead (read_further config) }
{}

/// The back halts exactly by its causes, whatever happens: after each line of a report with moves the
/// halt stands that is due there, and no halt stands anywhere else, but for overruns, which have a rule
/// of their own. It is due where the back reads a state by which the front is gone, that may not come
/// or that is none, or a key that is malformed or missing, and where its page of the ring can't be
/// mapped, or the port not bound. Nothing that it serves stands after a halt in its epoch, or in an
/// epoch before which the front was closed or broken. A halt for a front that is gone says `unplugged`
/// exactly where the back was asked to close in that epoch.
pub fn the_back_halts_exactly_by_its_causes()
    ensures report { EachReportHalts }
    ensures ended { EachEndedHalts }
    ensures worded { EachHaltIsWorded }
    ensures before { (first more : List Line) → HaltsByCauses (first ++ more) → HaltsByCauses first }
{}

/// The rule refuses a halt as gone after a read of state 4, a halt for a front that begins before the
/// back is connected, a connected back that goes on then, one that goes on after a text that says no
/// state or no port, a halt for a port that is a number, for a map that gave a mapping, for a port that
/// was bound, or after no move, a back that goes on where its map was refused, a map after a halt, and
/// a read in an epoch before which the front was closed.
pub fn wrong_halts_are_refused()
    ensures gone { (config : Options) → ¬ HaltsByCauses (gone_while_connected config) }
    ensures early { (config : Options) → ¬ HaltsByCauses (out_of_order_early config) }
    ensures beginning { (config : Options) → ¬ HaltsByCauses (on_at_a_beginning config) }
    ensures no_state { (config : Options) → ¬ HaltsByCauses (on_at_no_state config) }
    ensures good_port { (config : Options) → ¬ HaltsByCauses (halted_by_a_port config) }
    ensures no_port { (config : Options) → ¬ HaltsByCauses (on_at_no_port config) }
    ensures mapped { (config : Options) (gref : ℕ) (status : ℤ) → ¬ HaltsByCauses (refused_though_mapped config gref status) }
    ensures bound { (config : Options) (number : ℕ) → ¬ HaltsByCauses (bad_though_bound config number) }
    ensures refused { (config : Options) (gref : ℕ) (status : ℤ) → ¬ HaltsByCauses (on_though_refused config gref status) }
    ensures uncaused { (config : Options) → ¬ HaltsByCauses (halted_by_nothing config) }
    ensures works { (config : Options) (gref : ℕ) (status : ℤ) → ¬ HaltsByCauses (works_on config gref status) }
    ensures anew { (config : Options) → ¬ HaltsByCauses (reads_of_a_closed_front config) }
{}

/// Each line of the front's state stands where it is due, whatever happens: `ready` directly after the
/// front said that it is connected, `closed` after it said that it is closed, and both nowhere else;
/// `closing` directly after it read that the back closes, is closed or is gone, once in a run, unless
/// requests are unfinished of a back that is gone, which breaks it; and otherwise only as the front is
/// asked to close, where it always comes unless the front has begun to, is closed or is broken. `closed`
/// stands only after `closing`, and none of them after a line by which the front is closed or broken.
pub fn the_front_shows_its_states_where_they_are_due()
    ensures report { EachReportsStates }
    ensures ended { EachEndedsStates }
    ensures comes { EachClosingComes }
    ensures before { (first more : List Line) → StandAsSaid (first ++ more) → StandAsSaid first }
{}

/// Before a hostile hand first overwrites a word or a key, a happening that shows `closing` is a close of
/// an end, or one happened before it, however often the domain was suspended.
pub fn the_front_closes_only_where_that_was_asked()
    ensures { ClosingIsAsked }
{}

/// The rule refuses `ready` and `closed` of a front that hasn't said so, a front that says so without
/// them, one that reads that the back closes, or is closed, and goes on, and `closing` a second time, or
/// of a front that is broken, and `closed` of one that hasn't begun to close.
pub fn wrong_states_are_refused()
    ensures ready { (config : Options) → ¬ StandAsSaid (ready_unsaid config) }
    ensures closed { (config : Options) → ¬ StandAsSaid (closed_unsaid config) }
    ensures connected { (config : Options) → ¬ StandAsSaid (connected_in_silence config) }
    ensures silent { (config : Options) → ¬ StandAsSaid (closed_in_silence config) }
    ensures closes { (config : Options) → ¬ StandAsSaid (on_at_closing config) }
    ensures leaves { (config : Options) → ¬ StandAsSaid (on_at_closed config) }
    ensures again { (config : Options) → ¬ StandAsSaid (closing_again config) }
    ensures broken { (config : Options) → ¬ StandAsSaid (closing_though_broken config) }
    ensures early { (config : Options) → ¬ StandAsSaid (closed_at_once config) }
{}

/// Each end waits in three cases, and in no other, whatever a hostile hand overwrites. It is
/// before Connected, or the front closes, and the table of `io/xenbus.h` gives nothing more for what
/// it read last of the other's state, or it has read nothing since it set its watch. Or it serves, and
/// is asleep after a final check that found nothing (RING_FINAL_CHECK_FOR_REQUESTS and _RESPONSES of
/// `io/ring.h`). Or it is closed, or broken. A job waits where it is over, where one that was fetched
/// before it holds it up (BLKIF_OP_WRITE_BARRIER of `io/blkif.h`), or where the back has halted.
pub fn each_end_waits_in_three_cases()
    ensures front { FrontWaits }
    ensures back { BackWaits }
    ensures job { JobWaits }
{}
