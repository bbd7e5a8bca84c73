// The rules of a report.
ghost use Rattle.std.specs.Prelude.{◌≡◌, ◌≤◌, length};
ghost use Rattle.checked_rules.specs.Word.{rule_word};

/// A rule of a report, in the order in which they are tested.
#[derive(Clone, Copy, PartialEq, Eq)]
pub enum Rule {
    /// `begin` first and once, `end` last, and moves only where `begin` says so.
    Order,
    /// The states of the front in order, and no break or halt but for a front that is gone.
    State,
    /// A submission has the next number, and is within the limits.
    Submit,
    /// A refusal says the first reason why.
    Refuse,
    /// A sector is moved once in an epoch, for a request that waits, and a read shows what is there.
    Effect,
    /// No write, barrier or discard goes past a barrier, and no barrier past one of them.
    Barrier,
    /// A flush, a discard and a fault are of a request that waits, once in an epoch.
    Service,
    /// A reply says what was done, once in an epoch.
    Reply,
    /// An answer is a reply of this epoch, once.
    Answer,
    /// The sectors of a read are told in order, as they were read.
    Data,
    /// Nothing is left to do only where no request is unfinished.
    Quiet,
    /// A read shows the word that was written last.
    Coherent,
    /// A touch goes through a mapping that stands, and a map is answered as its entry stands.
    Touch,
    /// What the back does follows from the words of entries, which it reads once.
    Fetch,
    /// After a producer that overran nothing is served, and only then the back halts of it.
    Overrun,
}

impl Rule {
    /// The word of the rule in a finding.
    pub fn word(self) -> &'static str
        ensures word { result.now ≡ rule_word self }
        ensures short { length result.now ≤ 8 }
    {
        match self {
            Rule::Order => "order",
            Rule::State => "state",
            Rule::Submit => "submit",
            Rule::Refuse => "refuse",
            Rule::Effect => "effect",
            Rule::Barrier => "barrier",
            Rule::Service => "service",
            Rule::Reply => "reply",
            Rule::Answer => "answer",
            Rule::Data => "data",
            Rule::Quiet => "quiet",
            Rule::Coherent => "coherent",
            Rule::Touch => "touch",
            Rule::Fetch => "fetch",
            Rule::Overrun => "overrun",
        }
    }
}
