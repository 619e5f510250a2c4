// Traces: records of steps and supplies with their stamps, and the tests of a whole trace.
#![tactic(auto)]

ghost use Rattle.std.specs.Prelude.{◌≡◌, ◌+◌, ◌*◌, ◌<◌, ◌≤◌, length};
ghost use Rattle.lay.specs.Lay.{Lays};
ghost use Rattle.parlog.specs.Records.{kind_at};
ghost use Rattle.trace.specs.Trace.{first_gap, following, is_gap, record_bytes, record_fault, stamp_at, TestedSays, trace_size, what_at, who_at};
ghost use Rattle.trace.specs.Kinds.{kind_of, kind_or_supply, number_of};
ghost use Rattle.trace.specs.Trace.{FaultsSay};
ghost use Rattle.saved.specs.Reading.{some_fault};

use parlog::{Answer, Refusal, codes};

// The kinds of a trace's records, each with its number.
#[derive(Clone, Copy)]
pub enum Kind {
    Step = 32,
    Supply = 33,
}

impl Kind {
    // The kind of this number, where there is one.
    fn of(number: usize) -> Option<Kind>
        ensures { result ≡ kind_of number }
    {
        match number {
            32 => Some(Kind::Step),
            33 => Some(Kind::Supply),
            _ => None,
        }
    }

    // Its number.
    fn number(self) -> usize
        ensures { result ≡ number_of self }
    {
        self as usize
    }
}

// How long a record is, and where its three numbers stand.
pub const SIZE: usize = 10;

const WHO: usize = 4;

const WHAT: usize = 6;

const STAMP: usize = 8;

// 19, GAP, and 20, DISAGREES.
const GAP: u8 = 19;

pub const DISAGREES: u8 = 20;

// ---- stamps

// The stamp behind this one.
pub fn following(stamp: u16) -> u16
    ensures { result ≡ following stamp }
{
    std::num::wrapping_add_u16(stamp, 1)
}

// It does not follow the one before.
fn gap(before: u16, stamp: u16) -> bool
    ensures { result ≡ is_gap before stamp }
{
    std::num::wrapping_sub_u16(stamp, before) != 1
}

// ---- a record

// A record of a trace, and where it begins.
#[derive(Clone, Copy)]
pub struct Record<'a> {
    trace: &'a [u8],
    at: usize,
    ghost inside: { at + trace_size ≤ length trace.now },
}

impl<'a> Record<'a> {
    // Record k of a trace.
    pub fn new(trace: &'a [u8], k: usize) -> Self
        requires { k * trace_size + trace_size ≤ length trace.now }
        ensures { (result.trace.now ≡ trace.now) × (result.at ≡ k * trace_size) }
    {
        Record {
            trace,
            at: k * SIZE,
        }
    }

    // The number of its kind.
    // Kept apart, like the three reads below: each is one line, and its name says where.
    pub fn number(&self) -> usize
        ensures { (result ≡ kind_at self.now.trace.now self.now.at) × (result ≤ 65535) }
    {
        place::word_in(self.trace, self.at + codes::RECORD_KIND)
    }

    // What it is; a trace that was tested has no third kind.
    pub fn kind(&self) -> Kind
        ensures { result ≡ kind_or_supply (kind_at self.now.trace.now self.now.at) }
    {
        match Kind::of(self.number()) {
            Some(kind) => kind,
            None => Kind::Supply,
        }
    }

    // The process or the variable.
    pub fn who(&self) -> usize
        ensures { (result ≡ who_at self.now.trace.now self.now.at) × (result ≤ 65535) }
    {
        place::word_in(self.trace, self.at + WHO)
    }

    // The rule or the value.
    pub fn what(&self) -> usize
        ensures { (result ≡ what_at self.now.trace.now self.now.at) × (result ≤ 65535) }
    {
        place::word_in(self.trace, self.at + WHAT)
    }

    // The stamp.
    fn stamp(&self) -> u16
        ensures { result ≡ stamp_at self.now.trace.now self.now.at }
    {
        place::word_in(self.trace, self.at + STAMP) as u16
    }
}

// A record written.
// Kept, a row and a place: the writers of crate `saved` have the line.
pub fn put_record(
    out: &mut [u8],
    at: usize,
    kind: Kind,
    who: usize,
    what: usize,
    stamp: u16,
) -> usize
    requires { at ≤ 4294967280 }
    ensures { Lays out.old out.new at (record_bytes (number_of kind) who what stamp) result }
{
    let at = lay::put2(out, at, SIZE);
    let at = lay::put2(out, at, kind.number());
    let at = lay::put2(out, at, who);
    let at = lay::put2(out, at, what);
    lay::put2(out, at, stamp as usize)
}

// ---- the tests of a trace

// The first of the tests 2, 3 and 4 that a record fails.
#[tactic(auto, using(saved::proofs::Faults::begun))]
fn record_fault(s: &[u8], at: usize) -> Option<u8>
    requires { at < length s.now }
    ensures { result ≡ some_fault (record_fault s.now at) }
{
    if saved::cut(s, at) {
        return Some(codes::CUT);
    }
    let kind = Kind::of(place::word_in(s, at + codes::RECORD_KIND));
    if kind.is_none() {
        return Some(codes::KIND);
    }
    if place::word_in(s, at) != SIZE {
        return Some(codes::BODY);
    }
    None
}

// Record by record: how many there are, or the first that fails a test.
fn faults(s: &[u8]) -> Answer<usize>
    ensures { FaultsSay s.now result }
{
    let n = s.len().div_ceil(SIZE);
    for k in 0..n {
        let at = k * SIZE;
        if let Some(number) = record_fault(s, at) {
            return Err(Refusal { number, offset: at });
        }
    }
    Ok(n)
}

// The first of n records whose stamp does not follow the one before.
fn first_gap(s: &[u8], n: usize) -> Option<usize>
    requires { n * trace_size ≤ length s.now }
    ensures { result ≡ first_gap s.now n }
{
    for k in 1..n {
        let before = Record::new(s, k - 1);
        let here = Record::new(s, k);
        if gap(before.stamp(), here.stamp()) {
            return Some(k);
        }
    }
    None
}

// All tests of a trace: 2, 3 and 4 by record, then 19.
pub fn test_trace(s: &[u8]) -> Answer<usize>
    ensures { TestedSays s.now result }
{
    let n = faults(s)?;
    let g = first_gap(s, n);
    let Some(k) = g else {
        return Ok(n);
    };
    Err(Refusal {
        number: GAP,
        offset: k * SIZE,
    })
}
