//! What a host asks of a browser, and what it is answered, each as one type.
ghost use Rattle.std.specs.Prelude.{◌≡◌};
ghost use Rattle.browser.specs.Answers.{ticket_answer, done_answer, length_answer, shown_answer, step_answer, Unspent, StepUnspent};
ghost use Rattle.rounds.specs.Replies.{answer_of, UnspentReply};

use browser::{LandedTicket, OutwardTicket, Step};
use faults::CallFault;
use page::Shown;

/// A call, with what it takes of its own. A ticket is asked by lending it, and spent by handing it over.
#[derive(Drop)]
pub enum Ask<'a> {
    New(u8),
    Start(&'a [u8]),
    Press(&'a [u8]),
    Target(&'a OutwardTicket),
    Arrive(OutwardTicket),
    GiveUp(OutwardTicket),
    Follow(LandedTicket),
    TypeIn(&'a [u8], &'a [u8]),
    Show,
    Fill(&'a [u8]),
    Value(&'a [u8]),
    Address,
}

/// What a call answers.
#[derive(Drop)]
pub enum Reply {
    Done,
    Standing,
    Outward(OutwardTicket),
    Landed(LandedTicket),
    Wrote(usize),
    Page(Shown),
    Declined(CallFault),
}

impl From<Result<OutwardTicket, CallFault>> for Reply {
    ghost from_gives = { λ answer reply. (answer_of reply ≡ ticket_answer answer) × (Unspent answer → UnspentReply reply) };

    fn from(answer: Result<OutwardTicket, CallFault>) -> Reply {
        match answer {
            Ok(ticket) => Reply::Outward(ticket),
            Err(fault) => Reply::Declined(fault),
        }
    }
}

impl From<Result<(), CallFault>> for Reply {
    ghost from_gives = { λ answer reply. (answer_of reply ≡ done_answer answer) × UnspentReply reply };

    fn from(answer: Result<(), CallFault>) -> Reply {
        match answer {
            Ok(()) => Reply::Done,
            Err(fault) => Reply::Declined(fault),
        }
    }
}

impl From<Result<usize, CallFault>> for Reply {
    ghost from_gives = { λ answer reply. (answer_of reply ≡ length_answer answer) × UnspentReply reply };

    fn from(answer: Result<usize, CallFault>) -> Reply {
        match answer {
            Ok(len) => Reply::Wrote(len),
            Err(fault) => Reply::Declined(fault),
        }
    }
}

impl From<Result<Shown, CallFault>> for Reply {
    ghost from_gives = { λ answer reply. (answer_of reply ≡ shown_answer answer) × UnspentReply reply };

    fn from(answer: Result<Shown, CallFault>) -> Reply {
        match answer {
            Ok(shown) => Reply::Page(shown),
            Err(fault) => Reply::Declined(fault),
        }
    }
}

impl From<Result<Step, CallFault>> for Reply {
    ghost from_gives = { λ answer reply. (answer_of reply ≡ step_answer answer) × (StepUnspent answer → UnspentReply reply) };

    fn from(answer: Result<Step, CallFault>) -> Reply {
        match answer {
            Ok(Step::Standing) => Reply::Standing,
            Ok(Step::Outward(ticket)) => Reply::Outward(ticket),
            Ok(Step::Landed(ticket)) => Reply::Landed(ticket),
            Err(fault) => Reply::Declined(fault),
        }
    }
}
