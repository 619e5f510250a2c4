// A run as a file in the house form: its records written one behind the other, tested, and read back into tables.
// Processes and variables come as bytes, and the head has their counts: so the C interface lends them.
// Kept, head, processes and variables as three rows: `write` alone reads all three and knows their lengths, and `restore` writes them, so that a struct would be made for one function.
#![tactic(auto)]

ghost use Rattle.std.specs.Prelude.{◌≡◌, cond, false, not, ◌+◌, ◌*◌, ◌≤◌, ◌<◌, eqb, length, Err};
ghost use Rattle.parlog.specs.Records.{cut, kind_at};
ghost use Rattle.parlog.specs.Tables.{cell_size, head_size, lent, proc_count, rows_bytes, row_size, var_count};
ghost use Rattle.lay.specs.Lay.{Lays};
ghost use Rattle.saved.specs.Form.{head_kind, head_record, length_of, numbers, process_record, record_of, saved_bytes, saved_size, variable_record};
ghost use Rattle.saved.specs.Kinds.{number_of, kind_of, number_before};
ghost use Rattle.saved.specs.Reading.{form_fault, kind_behind, kind_wrong, known, read_saved, seen_with, some_fault, TestedSays};
ghost use Rattle.saved.specs.Restored.{cells_in, counts_agree, image_length, RestoreSays, rows_in};

use parlog::{Answer, Refusal, codes};

// ---- the form

// Kinds of records, each with its number.
#[derive(Clone, Copy)]
pub enum Kind {
    Head = 16,
    Process = 17,
    Variable = 18,
}

// The one length of each kind.
pub const HEAD_LENGTH: usize = 18;

pub const PROCESS_LENGTH: usize = 28;

pub const VARIABLE_LENGTH: usize = 8;

// The length of the head's record as long as it had no rule number.
const FORMER_LENGTH: usize = 16;

// The number of the rules by which runs are made.
pub const RULE: usize = 2;

// 18, OLDRULE: the saved run was made by other rules.
pub const OLDRULE: u8 = 18;

// Where the head's counts, the image's length and the rule number stand.
const HEAD_PROCS: usize = codes::RECORD_BODY + codes::HEAD_PROCS;

const HEAD_VARS: usize = codes::RECORD_BODY + codes::HEAD_VARS;

const IMAGE_LENGTH: usize = codes::RECORD_BODY + codes::HEAD_SIZE;

const RULE_AT: usize = IMAGE_LENGTH + 2;

// What is known of a saved run between two records: the kind of the one before, where there is one, and how many processes and variables were read.
#[derive(Clone, Copy)]
struct SoFar {
    kind: Option<Kind>,
    procs: usize,
    vars: usize,
}

impl Kind {
    // The kind of this number, where there is one.
    // Kept, no `TryFrom`, here and in `load_names` and `trace`: it answers a Result, whose Err would have nothing to tell.
    fn of(number: usize) -> Option<Kind>
        ensures { result ≡ kind_of number }
    {
        match number {
            16 => Some(Kind::Head),
            17 => Some(Kind::Process),
            18 => Some(Kind::Variable),
            _ => None,
        }
    }

    // Its number.
    fn number(self) -> usize
        ensures { (result ≡ number_of self) × (result ≤ 18) }
    {
        self as usize
    }

    // The one length of its records.
    fn length(self) -> usize
        ensures { (result ≡ length_of (number_of self)) × (result ≤ 28) }
    {
        match self {
            Kind::Head => HEAD_LENGTH,
            Kind::Process => PROCESS_LENGTH,
            Kind::Variable => VARIABLE_LENGTH,
        }
    }

    // It is the head's.
    fn is_head(self) -> bool
        ensures { result ≡ eqb (number_of self) head_kind }
    {
        matches!(self, Kind::Head)
    }

    // The first record is the head's; a later one is not, and of no lower kind than the one before.
    fn may_follow(self, before: Option<Kind>) -> bool
        ensures { result ≡ not (kind_wrong (number_before before) (number_of self)) }
    {
        match before {
            None => self.is_head(),
            Some(kind) => !self.is_head() & (kind.number() <= self.number()),
        }
    }
}

// How many bytes a saved run of n processes and m variables has.
pub fn size(n: usize, m: usize) -> usize
    requires { (n ≤ 65535) × (m ≤ 65535) }
    ensures { (result ≡ saved_size n m) × (result ≤ 4294967295) }
{
    HEAD_LENGTH + n * PROCESS_LENGTH + m * VARIABLE_LENGTH
}

// ---- writing

// Kept, a row and a place, as in `lay` and `trace::put_record`: each writer answers the place behind what it wrote, which `Lays` says in one fact and the next one begins at;
// a struct of both would have the bound on its place to prove at each writer too.

// The bytes of a row.
fn put_bytes(out: &mut [u8], at: usize, row: &[u8]) -> usize
    requires { at + length row.now ≤ 4294967295 }
    ensures { Lays out.old out.new at row.now result }
{
    let mut next = at;
    for byte in row {
        next = lay::put(out, next, *byte);
    }
    next
}

// A record of this kind, as far as this body.
fn put_record(out: &mut [u8], at: usize, kind: Kind, body: &[u8]) -> usize
    requires { at + length body.now + 4 ≤ 4294967295 }
    ensures { Lays out.old out.new at (record_of (length_of (number_of kind)) (number_of kind) body.now) result }
{
    let second = lay::put2(out, at, kind.length());
    let third = lay::put2(out, second, kind.number());
    put_bytes(out, third, body)
}

// The head's record, at the front of the row.
fn put_head(out: &mut [u8], head: &[u8], image: usize) -> usize
    requires { head_size ≤ length head.now }
    ensures { Lays out.old out.new 0 (head_record head.now image) result }
{
    let last = put_record(out, 0, Kind::Head, &head[..codes::HEAD_SIZE]);
    let rule = lay::put2(out, last, image);
    lay::put2(out, rule, RULE)
}

// The records of the first n processes.
fn put_processes(out: &mut [u8], at: usize, procs: &[u8], n: usize) -> usize
    requires { (at ≤ 65535) × (n ≤ 65535) × (n * row_size ≤ length procs.now) }
    ensures { Lays out.old out.new at (rows_bytes (process_record procs.now) (numbers n)) result }
{
    let mut next = at;
    for i in 0..n {
        let from = i * codes::ROW_SIZE;
        next = put_record(
            out,
            next,
            Kind::Process,
            &procs[from..from + codes::ROW_SIZE],
        );
    }
    next
}

// The records of the first n variables.
// Kept beside that of processes: one for both would take the size and the kind of a row too, under bounds that differ.
fn put_variables(out: &mut [u8], at: usize, vars: &[u8], n: usize) -> usize
    requires { (at ≤ 4194304) × (n ≤ 65535) × (n * cell_size ≤ length vars.now) }
    ensures { Lays out.old out.new at (rows_bytes (variable_record vars.now) (numbers n)) result }
{
    let mut next = at;
    for i in 0..n {
        let from = i * codes::CELL_SIZE;
        next = put_record(
            out,
            next,
            Kind::Variable,
            &vars[from..from + codes::CELL_SIZE],
        );
    }
    next
}

// A run as a saved run, at the front of the row.
pub fn write(out: &mut [u8], head: &[u8], procs: &[u8], vars: &[u8], image: usize) -> usize
    requires { (head_size ≤ length head.now) × (proc_count head.now * row_size ≤ length procs.now) × (var_count head.now * cell_size ≤ length vars.now) }
    ensures { Lays out.old out.new 0 (saved_bytes (lent head.now procs.now vars.now) image) result }
{
    let n = head::proc_count(head);
    let m = head::var_count(head);
    let first = put_head(out, head, image);
    let second = put_processes(out, first, procs, n);
    put_variables(out, second, vars, m)
}

// ---- the tests of the records

// 2, CUT: by what is left of the bytes, so that no place leads past the largest number.
// Kept here, at `tested` and at `trace::record_fault`, that the place is in the row: each is asked once a record, of a place that the loop over the records tests.
pub fn cut(s: &[u8], at: usize) -> bool
    requires { at < length s.now }
    ensures { result ≡ cut s.now at }
{
    let rest = s.len() - at;
    if rest < codes::RECORD_BODY {
        return true;
    }
    let w = place::word_in(s, at);
    (w < codes::RECORD_BODY) | (rest < w)
}

// 3, KIND: the kind of this number, where it may stand behind one of kind `before`.
fn kind_behind(before: Option<Kind>, number: usize) -> Option<Kind>
    ensures { result ≡ kind_behind (number_before before) number }
{
    let kind = Kind::of(number)?;
    kind.may_follow(before).then_some(kind)
}

// 18 where the rule number is another than the current one.
fn rule_fault(rule: usize) -> Option<u8>
    ensures { result ≡ some_fault (cond (not (eqb rule 2)) 18 0) }
{
    (rule != RULE).then_some(OLDRULE)
}

// The form of a whole record of this kind: 18 for the head's in its former length, 4 for another length, 18 for another rule number.
fn form_fault(s: &[u8], at: usize, kind: Kind) -> Option<u8>
    requires { (cut s.now at ≡ false) × (number_of kind ≡ kind_at s.now at) }
    ensures { result ≡ some_fault (form_fault s.now at) }
{
    let size = place::word_in(s, at);
    let former = kind.is_head() & (size == FORMER_LENGTH);
    if former {
        return Some(OLDRULE);
    }
    if size != kind.length() {
        return Some(codes::BODY);
    }
    if !kind.is_head() {
        return None;
    }
    let rule = place::word_in(s, at + RULE_AT);
    rule_fault(rule)
}

// The tests of a record, 2, 3, then those of its form: its kind, or the refusal's number.
fn tested(s: &[u8], at: usize, before: Option<Kind>) -> Result<Kind, u8>
    requires { at < length s.now }
    ensures { TestedSays s.now (number_before before) at result }
{
    if cut(s, at) {
        return Err(codes::CUT);
    }
    let number = place::word_in(s, at + codes::RECORD_KIND);
    let Some(kind) = kind_behind(before, number) else {
        return Err(codes::KIND);
    };
    match form_fault(s, at, kind) {
        None => Ok(kind),
        Some(fault) => Err(fault),
    }
}

// What is known behind a record of this kind.
fn seen_with(g: SoFar, kind: Kind) -> SoFar
    requires { (g.procs < 18446744073709551615) × (g.vars < 18446744073709551615) }
    ensures { known result ≡ seen_with (known g) (number_of kind) }
{
    let g = SoFar {
        kind: Some(kind),
        ..g
    };
    match kind {
        Kind::Head => g,
        Kind::Process => SoFar {
            procs: g.procs + 1,
            ..g
        },
        Kind::Variable => SoFar {
            vars: g.vars + 1,
            ..g
        },
    }
}

// The records of a saved run in their order: how many processes and variables, or the first refusal.
pub fn read(s: &[u8]) -> Answer<(usize, usize)>
    ensures { result ≡ read_saved s.now }
{
    let n = s.len();
    let mut at = 0;
    let mut g = SoFar {
        kind: None,
        procs: 0,
        vars: 0,
    };
    while at < n {
        let kind = match tested(s, at, g.kind) {
            Ok(kind) => kind,
            Err(number) => return Err(Refusal { number, offset: at }),
        };
        g = seen_with(g, kind);
        at += kind.length();
    }
    if g.kind.is_none() {
        return Err(Refusal {
            number: codes::KIND,
            offset: 0,
        });
    }
    Ok((g.procs, g.vars))
}

// ---- reading back

// The length of the image that the run belongs to.
pub fn image_length(s: &[u8]) -> usize
    requires { 16 ≤ length s.now }
    ensures { (result ≡ image_length s.now) × (result ≤ 65535) }
{
    place::word_in(s, IMAGE_LENGTH)
}

// The head's counts are those of the records.
pub fn counts_agree(s: &[u8], a: usize, b: usize) -> bool
    requires { 16 ≤ length s.now }
    ensures { result ≡ counts_agree s.now a b }
{
    let n = usize::from(rows::get_u16(s, HEAD_PROCS));
    let m = usize::from(rows::get_u16(s, HEAD_VARS));
    (n == a) & (m == b)
}

// The rows of the first n processes, and zeros behind them.
fn take_processes(s: &[u8], n: usize, procs: &mut [u8])
    requires { (n ≤ 65535) × (18 + n * 28 ≤ length s.now) × (n * row_size ≤ length procs.old) × (length procs.old ≤ 4194304) }
    ensures { procs.new ≡ rows_in s.now n (length procs.old) }
{
    rows::wipe(procs, 0, procs.len());
    for i in 0..n {
        let from = HEAD_LENGTH + i * PROCESS_LENGTH + codes::RECORD_BODY;
        let to = i * codes::ROW_SIZE;
        procs[to..to + codes::ROW_SIZE].copy_from_slice(&s[from..from + codes::ROW_SIZE]);
    }
}

// The rows of the first n variables, behind a processes, and zeros behind them.
// Kept beside that of processes, for the reason that stands at `put_variables`.
fn take_variables(s: &[u8], a: usize, n: usize, vars: &mut [u8])
    requires { (a ≤ 65535) × (n ≤ 65535) × (18 + a * 28 + n * 8 ≤ length s.now) × (n * cell_size ≤ length vars.old) × (length vars.old ≤ 4194304) }
    ensures { vars.new ≡ cells_in s.now a n (length vars.old) }
{
    rows::wipe(vars, 0, vars.len());
    for i in 0..n {
        let from = HEAD_LENGTH + a * PROCESS_LENGTH + i * VARIABLE_LENGTH + codes::RECORD_BODY;
        let to = i * codes::CELL_SIZE;
        vars[to..to + codes::CELL_SIZE].copy_from_slice(&s[from..from + codes::CELL_SIZE]);
    }
}

// A saved run of a processes and b variables into tables, every byte of them.
pub fn restore(s: &[u8], a: usize, b: usize, head: &mut [u8], procs: &mut [u8], vars: &mut [u8])
    requires { (a ≤ 65535) × (b ≤ 65535) × (18 + a * 28 + b * 8 ≤ length s.now) × (length head.old ≡ head_size) × (a * row_size ≤ length procs.old) × (length procs.old ≤ 4194304) × (b * cell_size ≤ length vars.old) × (length vars.old ≤ 4194304) }
    ensures { RestoreSays s.now a b (length procs.old) (length vars.old) head.new procs.new vars.new }
{
    head.copy_from_slice(&s[codes::RECORD_BODY..codes::RECORD_BODY + codes::HEAD_SIZE]);
    take_processes(s, a, procs);
    take_variables(s, a, b, vars);
}
