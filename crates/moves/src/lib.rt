// The rule that applies to a process, by its tag and mode: it reads the tables and answers a plan.
// Kept, switches by number: tags and modes are raw numbers (docs/ARCHITECTURE.md, of the record `Process`), and each arm hands on other arguments, so that a method of an enum would be the same match.
// Kept, the mover's number and its row apart, here and in the three crates of rules: their definitions name them apart, most moves are named by the number alone, and `p < n` and what the children told tie both to the table.
#![tactic(auto)]

ghost use Rattle.vars.specs.Views.{variables_in};
ghost use Rattle.rows.specs.Views.{processes_in};
ghost use Rattle.program_index.specs.Images.{program_in};
ghost use Rattle.parlog.specs.declared.Term.{Term};
ghost use Rattle.std.specs.Prelude.{◌≡◌, ◌≢◌, List, ◌≤◌, ◌<◌, length, Option};
ghost use Rattle.children.specs.Telling.{Tells};
ghost use Rattle.parlog.specs.Codes.{tag_of};
ghost use Rattle.parlog.specs.Rules.{block_at, members, rule_of, start_rule, wait_rule};
ghost use Rattle.parlog.specs.Tables.{at, State};
ghost use Rattle.move_plan.specs.Plans.{applied_of, new_most, state_in, Within};
ghost use Rattle.moves.specs.Legal.{Able, Legal};

use children::Told;
use move_plan::Plan;
use parlog::{Process, codes};
use program_index::Image;
use rows::Processes;
use vars::Variables;

// A process about to start whose rule binds nothing, by its tag.
fn start_tree(image: &Image, n: usize, m: usize, p: usize, x: Process) -> Plan
    requires { (n ≤ 65535) × (m ≤ 60000) × (p < n) × (x.tag < 9) × (x.tag ≢ 6) × (x.tag ≢ 8) × (length (members (program_in image.now) p x.spot) ≤ new_most) × (length (block_at (program_in image.now) x.spot) ≤ 8) }
    ensures { ((s : State) → length s.procs ≡ n → length s.vars ≡ m → applied_of result ≡ start_rule (tag_of x.tag) (program_in image.now) s p x) × (result.count ≤ new_most) × (result.changes.count ≡ 0) }
{
    let t = x.tag;
    match t {
        codes::AND_PAR => rules_and::start_and_par(image, n, p, x),
        codes::AND_SEQ => rules_and::start_and_seq(image, n, p, x),
        codes::OR_PAR => rules_or::start_or_par(n, p, x),
        codes::SEQ_SEARCH => rules_or::start_seq_search(image, n, p, x),
        codes::OR_SEARCH => rules_or::start_or_search(image, n, m, p, x),
        codes::TRY_CLAUSE => rules_and::start_try_clause(n, p, x),
        _ => rules_and::start_guard_eval(image, n, p, x),
    }
}

// A process about to start, by its tag.
fn start_rule(image: &Image, procs: &Processes, vars: &Variables, p: usize, x: Process) -> Plan
    requires { (procs.now.count ≤ 65535) × (vars.now.count ≤ 60000) × (p < procs.now.count) × Able (program_in image.now) (variables_in vars.now) x }
    ensures { (applied_of result ≡ start_rule (tag_of x.tag) (program_in image.now) (state_in procs.now.bytes.now procs.now.count vars.now.bytes.now vars.now.count) p x) × (result.count ≤ new_most) × (result.changes.count ≤ 4) × Within vars.now.count result.changes.count result.changes.list }
{
    let t = x.tag;
    match t {
        codes::INPUT_MATCH => rules_match::start_input_match(image, vars, p, x),
        codes::EQUATE => rules_match::start_equate(image, procs, vars, p, x),
        _ => start_tree(image, procs.count, vars.count, p, x),
    }
}

// A process that waits, by its tag.
fn wait_rule(image: &Image, procs: &Processes, p: usize, x: Process, told: Told) -> Plan
    requires { (procs.now.count ≤ 65535) × (p < procs.now.count) × (x.tag < 9) × (x.tag ≡ 1 → x.spot.stage < 255) × (x.tag ≡ 3 → x.spot.block < 255) × Tells (processes_in procs.now) p told }
    ensures { ((vs : List (Option Term)) → applied_of result ≡ wait_rule (tag_of x.tag) (program_in image.now) (record { procs = processes_in procs.now; vars = vs }) p x) × (result.count ≤ new_most) × (result.changes.count ≡ 0) }
{
    let t = x.tag;
    match t {
        codes::AND_PAR => rules_and::wait_and_par(told, p, x),
        codes::AND_SEQ => rules_and::wait_and_seq(told, p, x),
        codes::OR_PAR => rules_or::wait_or_par(image, procs, p, x, told),
        codes::SEQ_SEARCH => rules_or::wait_seq_search(image, procs, p, x, told),
        codes::OR_SEARCH => rules_or::wait_or_search(procs, p, x, told),
        codes::TRY_CLAUSE => rules_and::wait_try_clause(told, p, x),
        codes::GUARD_EVAL => rules_and::wait_guard_eval(told, p, x),
        _ => move_plan::none(),
    }
}

// The rule that applies to process p, as a plan; one that waits has to be told of its children.
pub fn rule_of(image: &Image, procs: &Processes, vars: &Variables, p: usize, told: Told) -> Plan
    requires { (procs.now.count ≤ 65535) × (vars.now.count ≤ 60000) × (p < procs.now.count) × Legal (program_in image.now) (state_in procs.now.bytes.now procs.now.count vars.now.bytes.now vars.now.count) p × ((at (processes_in procs.now) p).mode ≡ 3 → Tells (processes_in procs.now) p told) }
    ensures { (applied_of result ≡ rule_of (program_in image.now) (state_in procs.now.bytes.now procs.now.count vars.now.bytes.now vars.now.count) p) × (result.count ≤ new_most) × (result.changes.count ≤ 4) × Within vars.now.count result.changes.count result.changes.list }
{
    let x = procs.get(p);
    let mode = x.mode;
    match mode {
        codes::DORMANT => move_plan::none(),
        codes::READY => rules_and::ready(p, x),
        codes::STARTING => start_rule(image, procs, vars, p, x),
        codes::WAITING => wait_rule(image, procs, p, x, told),
        codes::REPORTING => rules_and::stop(p, x),
        _ => rules_match::wake(vars, p, x),
    }
}
