// Each answer of a call as the one word that C is given.
#![tactic(auto)]

ghost use Rattle.std.specs.Prelude.{◌≡◌, ◌≤◌, Ok};
ghost use Rattle.parlog.specs.Numbers.{end_number, refused_as, rule_number, run_numbers, start_numbers, step_numbers, supply_numbers, term_numbers, value_numbers, variable, watch_numbers, word};
ghost use Rattle.words.specs.Fits.{MoveWithin, reached, RefusalFits, RunFits, StartFits, StepFits, SupplyFits, ToldSays, touched_by, ValueFits, ValuesFits};
ghost use Rattle.values.specs.Values.{values_numbers};
ghost use Rattle.words.specs.Nights.{resume_numbers, SaveFits, save_numbers, told_offset, told_refusal};

use parlog::{Answer, End, Move, Refusal, Term, codes};

// The refusal of a call that is accepted.
pub const ACCEPTED: usize = 0;

// What a value is.
const CONSTANT_VALUE: usize = codes::CONSTANT as usize;

const VARIABLE_VALUE: usize = codes::VARIABLE as usize;

// A watch found one.
const SEEN: usize = 1;

// The highest number of 32 bits.
const MOST_NUMBER: usize = 4294967295;

// What a move touched, with its number.
#[derive(Clone, Copy)]
enum Touch {
    Process(usize),
    Variable(u32),
}

// The rule of a move, and what it touched.
#[derive(Clone, Copy)]
struct Told(u8, Touch);

// The numbers of an answer as one word.
#[tactic(auto, unfolding(parlog::specs::Numbers::word))]
pub fn word(refused: usize, a: usize, b: usize, c: usize) -> u64
    requires { (refused ≤ 255) × (a ≤ 255) × (b ≤ 255) × (c ≤ 4294967295) }
    ensures { result ≡ word (record { refused = refused; a = a; b = b; c = c }) }
{
    (refused + 256 * a + 65536 * b + 4294967296 * c) as u64
}

// A refusal as one word.
pub fn refused(r: Refusal) -> u64
    requires { RefusalFits r }
    ensures { result ≡ word (refused_as r) }
{
    word(r.number as usize, 0, 0, r.offset)
}

// ---- the words of the calls

// Kept, a `match` for each call's answer: each call has numbers by a definition of its own (`start_numbers` and so on), and one function for all would take what an `Ok` tells as a closure, whose contract would stand at each call in place of the `match`.

// Of a start: nothing to tell.
pub fn start_word(a: Answer<()>) -> u64
    requires { StartFits a }
    ensures { result ≡ word (start_numbers a) }
{
    match a {
        Ok(()) => word(ACCEPTED, 0, 0, 0),
        Err(r) => refused(r),
    }
}

// ---- a move

// A term is told as a variable.
fn variable(t: Term) -> Touch
    ensures { touched_by result ≡ variable t }
{
    match t {
        Term::Const(k) | Term::Var(k) => Touch::Variable(k),
    }
}

// What there is to tell of a move, rule by rule.
// Kept: a line for each rule; a `From` would be the same match.
fn tell(m: Move) -> Told
    ensures { ToldSays m result.0 result.1 }
{
    match m {
        Move::Ready(p) => Told(1, Touch::Process(p)),
        Move::Wake(p) => Told(2, Touch::Process(p)),
        Move::Stop(p) => Told(3, Touch::Process(p)),
        Move::AndParStart(p) => Told(4, Touch::Process(p)),
        Move::AndParSuccess(p) => Told(5, Touch::Process(p)),
        Move::AndParFailure(p) => Told(6, Touch::Process(p)),
        Move::AndSeqStart(p) => Told(7, Touch::Process(p)),
        Move::AndSeqNext(p) => Told(8, Touch::Process(p)),
        Move::AndSeqSuccess(p) => Told(9, Touch::Process(p)),
        Move::AndSeqFailure(p) => Told(10, Touch::Process(p)),
        Move::OrParStart(p) => Told(11, Touch::Process(p)),
        Move::OrParSpawn(p) => Told(12, Touch::Process(p)),
        Move::OrParSuccess(p) => Told(13, Touch::Process(p)),
        Move::OrParFailure(p) => Told(14, Touch::Process(p)),
        Move::SeqSearchNone(p) => Told(15, Touch::Process(p)),
        Move::SeqSearchStart(p) => Told(16, Touch::Process(p)),
        Move::SeqSearchNext(p) => Told(17, Touch::Process(p)),
        Move::SeqSearchSuccess(p) => Told(18, Touch::Process(p)),
        Move::SeqSearchFailure(p) => Told(19, Touch::Process(p)),
        Move::OrSearchStart(p) => Told(20, Touch::Process(p)),
        Move::OrSearchCommit(p) => Told(21, Touch::Process(p)),
        Move::OrSearchFailure(p) => Told(22, Touch::Process(p)),
        Move::TryClauseStart(p) => Told(23, Touch::Process(p)),
        Move::TryClauseSuccess(p) => Told(24, Touch::Process(p)),
        Move::TryClauseFailure(p) => Told(25, Touch::Process(p)),
        Move::InputMatchBind(t) => Told(26, variable(t)),
        Move::InputMatchSuccess(p) => Told(26, Touch::Process(p)),
        Move::InputMatchFailure(p) => Told(27, Touch::Process(p)),
        Move::InputMatchSuspend(t) => Told(28, variable(t)),
        Move::GuardEvalEmpty(p) => Told(29, Touch::Process(p)),
        Move::GuardEvalStart(p) => Told(30, Touch::Process(p)),
        Move::GuardEvalSuccess(p) => Told(31, Touch::Process(p)),
        Move::GuardEvalFailure(p) => Told(32, Touch::Process(p)),
        Move::EquateBind(t) => Told(33, variable(t)),
        Move::EquateSuccess(p) => Told(33, Touch::Process(p)),
        Move::EquateFailure(p) => Told(34, Touch::Process(p)),
        Move::EquateSuspend(t) => Told(35, variable(t)),
    }
}

// The number of the rule that a move is.
pub fn rule_number(m: Move) -> usize
    ensures { (result ≡ rule_number m) × (result ≤ 255) }
{
    let Told(rule, _) = tell(m);
    usize::from(rule)
}

// A move as one word: C is told 0 of a process and 1 of a variable.
fn move_word(m: Move) -> u64
    requires { MoveWithin 4294967295 m }
    ensures { result ≡ word (step_numbers (Ok m)) }
{
    let Told(rule, touch) = tell(m);
    match touch {
        Touch::Process(p) => word(ACCEPTED, usize::from(rule), 0, p),
        Touch::Variable(v) => word(ACCEPTED, usize::from(rule), 1, v as usize),
    }
}

// Of a step or a turn: the rule, and what it touched.
pub fn step_word(a: Answer<Move>) -> u64
    requires { StepFits a }
    ensures { result ≡ word (step_numbers a) }
{
    match a {
        Ok(m) => move_word(m),
        Err(r) => refused(r),
    }
}

// ---- a run, a supply, a look, a watch

// The number of an end.
// Kept: C is told these numbers, so that each stands beside its case.
fn end_number(e: End) -> u8
    ensures { result ≡ end_number e }
{
    match e {
        End::Success => 1,
        End::Failure => 2,
        End::Waiting => 3,
        End::Room => 4,
        End::Budget => 5,
    }
}

// Of a run: its end, and the moves made.
pub fn run_word(a: Answer<(End, usize)>) -> u64
    requires { RunFits a }
    ensures { result ≡ word (run_numbers a) }
{
    match a {
        Ok((e, n)) => word(ACCEPTED, end_number(e) as usize, 0, n),
        Err(r) => refused(r),
    }
}

// Of a supply: nothing to tell.
pub fn supply_word(a: Answer<usize>) -> u64
    requires { SupplyFits a }
    ensures { result ≡ word (supply_numbers a) }
{
    match a {
        Ok(_) => word(ACCEPTED, 0, 0, 0),
        Err(r) => refused(r),
    }
}

// A term as one word: its sort and its number.
fn term_word(t: Term) -> u64
    ensures { result ≡ word (term_numbers t) }
{
    match t {
        Term::Const(c) => word(ACCEPTED, CONSTANT_VALUE, 0, c as usize),
        Term::Var(v) => word(ACCEPTED, VARIABLE_VALUE, 0, v as usize),
    }
}

// Of a look: what was seen.
pub fn value_word(a: Answer<Term>) -> u64
    requires { ValueFits a }
    ensures { result ≡ word (value_numbers a) }
{
    match a {
        Ok(t) => term_word(t),
        Err(r) => refused(r),
    }
}

// Of a look at all goal variables: how many they are.
pub fn values_word(a: Answer<usize>) -> u64
    requires { ValuesFits a }
    ensures { result ≡ word (values_numbers a) }
{
    match a {
        Ok(n) => word(ACCEPTED, 0, 0, n),
        Err(r) => refused(r),
    }
}

// Of a watch: 1 and the number, where there is one that can be told.
pub fn watch_word(a: Option<usize>) -> u64
    ensures { result ≡ word (watch_numbers (reached a)) }
{
    let Some(i) = a else {
        return word(ACCEPTED, 0, 0, 0);
    };
    if MOST_NUMBER < i {
        return word(ACCEPTED, 0, 0, 0);
    }
    word(ACCEPTED, SEEN, 0, i)
}

// ---- a save and a resume

// A number as it can be told: one over 32 bits becomes the largest.
pub fn told_number(n: usize) -> usize
    ensures { (result ≡ told_offset n) × (result ≤ 4294967295) }
{
    n.min(MOST_NUMBER)
}

// A refusal as it can be told, its offset so.
pub fn told_refusal(r: Refusal) -> Refusal
    ensures { (result ≡ told_refusal r) × (result.offset ≤ 4294967295) }
{
    Refusal {
        number: r.number,
        offset: told_number(r.offset),
    }
}

// Of a save: how many bytes the saved run has.
pub fn save_word(a: Answer<usize>) -> u64
    requires { SaveFits a }
    ensures { result ≡ word (save_numbers a) }
{
    match a {
        Ok(n) => word(ACCEPTED, 0, 0, n),
        Err(r) => refused(r),
    }
}

// Of a resume: nothing to tell.
pub fn resume_word(a: Answer<()>) -> u64
    ensures { result ≡ word (resume_numbers a) }
{
    match a {
        Ok(()) => word(ACCEPTED, 0, 0, 0),
        Err(r) => refused(told_refusal(r)),
    }
}
