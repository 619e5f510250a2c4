// Tags, modes, results and kinds of goals by their names, and the number of each in a row.
#![tactic(auto)]

ghost use Rattle.std.specs.Prelude.{◌≡◌};
ghost use Rattle.parlog.specs.Codes.{kind_code, mode_code, result_code, tag_code};
ghost use Rattle.parlog.specs.Named.{kind_named, mode_named, result_named, tag_named};

use crate::codes;

// Tags 1: what a process is for.
#[derive(Clone, Copy)]
pub enum Tag {
    AndPar,
    AndSeq,
    OrPar,
    SeqSearch,
    OrSearch,
    TryClause,
    InputMatch,
    GuardEval,
    Equate,
}

impl Tag {
    // Tables 3b: its number in a row.
    pub fn number(self) -> u8
        ensures { result ≡ tag_code (tag_named self) }
    {
        match self {
            Tag::AndPar => codes::AND_PAR,
            Tag::AndSeq => codes::AND_SEQ,
            Tag::OrPar => codes::OR_PAR,
            Tag::SeqSearch => codes::SEQ_SEARCH,
            Tag::OrSearch => codes::OR_SEARCH,
            Tag::TryClause => codes::TRY_CLAUSE,
            Tag::InputMatch => codes::INPUT_MATCH,
            Tag::GuardEval => codes::GUARD_EVAL,
            Tag::Equate => codes::EQUATE,
        }
    }
}

// Tags 2: how far a process has come.
#[derive(Clone, Copy)]
pub enum Mode {
    Dormant,
    Ready,
    Starting,
    Waiting,
    Reporting,
    Suspended,
}

impl Mode {
    // Tables 3b: its number in a row.
    pub fn number(self) -> u8
        ensures { result ≡ mode_code (mode_named self) }
    {
        match self {
            Mode::Dormant => codes::DORMANT,
            Mode::Ready => codes::READY,
            Mode::Starting => codes::STARTING,
            Mode::Waiting => codes::WAITING,
            Mode::Reporting => codes::REPORTING,
            Mode::Suspended => codes::SUSPENDED,
        }
    }
}

// Tables 3b: what a process has to tell.
#[derive(Clone, Copy)]
pub enum Outcome {
    Nothing,
    Success,
    Failure,
}

impl Outcome {
    // Tables 3b: its number in a row.
    pub fn number(self) -> u8
        ensures { result ≡ result_code (result_named self) }
    {
        match self {
            Outcome::Nothing => codes::NONE,
            Outcome::Success => codes::SUCCESS,
            Outcome::Failure => codes::FAILURE,
        }
    }
}

// Tables 3b: where a process finds its goal: in the image, in a clause's guard, in a body committed to, or in a body as it is written.
#[derive(Clone, Copy)]
pub enum Kind {
    TheGoal,
    TheGuard,
    TheBody,
    AsWritten,
}

impl Kind {
    // Tables 3b: its number in a row.
    pub fn number(self) -> u8
        ensures { result ≡ kind_code (kind_named self) }
    {
        match self {
            Kind::TheGoal => codes::THE_GOAL,
            Kind::TheGuard => codes::THE_GUARD,
            Kind::TheBody => codes::THE_BODY,
            Kind::AsWritten => codes::AS_WRITTEN,
        }
    }
}
