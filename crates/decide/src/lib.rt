// What an input-match and an equate come to: they fail, suspend, or bind. Nothing is written; the answer tells what is to be bound.
#![tactic(auto)]

ghost use Rattle.vars.specs.Views.{variables_in};
ghost use Rattle.std.specs.Prelude.{◌≡◌, ℕ, ◌+◌, ◌≤◌, ◌<◌, length, get_or, take};
ghost use Rattle.parlog.specs.declared.Term.TheVariants.{Const};
ghost use Rattle.parlog.specs.Program.{out_count};
ghost use Rattle.parlog.specs.Unify.{decide, equate_of, head_side, held_in, input_value, is_var, match_of, out_after, pair_of, pairs_of, shift};
ghost use Rattle.unify.specs.Pending.{Below, no_change, noted_in, pending, top};
ghost use Rattle.decide.specs.Decision.{Decides, held_by, Shifted};

mod arguments;

pub use arguments::Call;
use parlog::{Pair, Term};
use unify::{Changes, Noted};
use vars::Variables;

// What is decided: it fails, suspends on these variables, at least one, or makes these bindings.
#[derive(Clone, Copy)]
pub enum Decision {
    Fails,
    Suspends(Noted),
    Binds(Changes),
}

// Which variables are not to be bound: those below the bar, and the values of a call's input arguments.
#[derive(Clone, Copy)]
struct Held {
    bar: usize,
    call: Call,
}

// The term is the variable v.
// Kept: `matches!` with a guard is no plainer, and has one more case to prove.
fn is_var(x: Term, v: u32) -> bool
    ensures { result ≡ is_var v x }
{
    let Term::Var(w) = x else {
        return false;
    };
    v == w
}

// A term of a clause or goal, in the run's numbering.
fn shift(t: Term, base: u16) -> Term
    requires { top t + base ≤ 65535 }
    ensures { result ≡ shift base t }
{
    let Term::Var(v) = t else {
        return t;
    };
    Term::Var(v + (base as u32))
}

// v is the value of an input argument.
// Kept here and where this is called, that the arguments lie below the count of variables: it ties them to the table that is lent beside them.
fn is_input(vars: &Variables, call: Call, v: u32) -> bool
    requires { (vars.now.count ≤ 65535) × Shifted call.args call.base call.arity vars.now.count }
    ensures { result ≡ input_value (variables_in vars.now) (take call.arity call.modes) (take call.arity call.args) call.base v }
{
    for i in 0..call.arity {
        let t = shift(call.args[i], call.base);
        let x = unify::value_of(vars, t);
        let yes = is_var(x, v);
        if (call.modes[i] == 0) & yes {
            return true;
        }
    }
    false
}

// v is not to be bound.
fn is_held(vars: &Variables, h: Held, v: u32) -> bool
    requires { (vars.now.count ≤ 65535) × Shifted h.call.args h.call.base h.call.arity vars.now.count }
    ensures { result ≡ held_by (variables_in vars.now) h v }
{
    ((v as usize) < h.bar) | is_input(vars, h.call, v)
}

// The variables bound that are not to be bound, in order.
fn needed(vars: &Variables, h: Held, u: Changes) -> Noted
    requires { (vars.now.count ≤ 65535) × Shifted h.call.args h.call.base h.call.arity vars.now.count × ((k : ℕ) → k < length (pending u) → (get_or (pending u) k no_change).var < vars.now.count) }
    ensures { noted_in result ≡ held_in (held_by (variables_in vars.now) h) (pending u) }
{
    let mut s = Noted::none();
    for c in u.made() {
        if is_held(vars, h, c.var) {
            s = s.with(c.var as u16);
        }
    }
    s
}

// The first pairs: a clash fails, a variable bound that is not to be bound suspends, else all is bound.
// Kept, an array and a count: `unify::unify` takes them so.
fn decide(vars: &Variables, pairs: [Pair; 4], count: usize, h: Held) -> Decision
    requires { (vars.now.count ≤ 65535) × (count ≤ 4) × Below vars.now.count count pairs × Shifted h.call.args h.call.base h.call.arity vars.now.count }
    ensures { Decides (decide (variables_in vars.now) (take count pairs) (held_by (variables_in vars.now) h)) result }
{
    let Some(u) = unify::unify(vars, pairs, count) else {
        return Decision::Fails;
    };
    let s = needed(vars, h, u);
    if s.count == 0 {
        return Decision::Binds(u);
    }
    Decision::Suspends(s)
}

// The head's side of a pair: an output argument gives way to its new variable.
// Kept here and below, a bound of out: it keeps a sum in a `u32`.
fn head_side(m: u8, t: Term, first: u16, out: u32) -> Term
    requires { (top t + first ≤ 65535) × (out ≤ 65540) }
    ensures { result ≡ head_side m t first out }
{
    if m == 0 {
        return shift(t, first);
    }
    Term::Var((first as u32) + out)
}

// The number of the next output argument.
fn out_after(m: u8, out: u32) -> u32
    requires { out ≤ 65540 }
    ensures { (result ≡ out_after m out) × (result ≤ out + 1) }
{
    out + u32::from(m != 0)
}

// Argument k of the call with that of the head.
fn pair_at(call: Call, head: [Term; 4], first: u16, k: usize, out: u32) -> Pair
    requires { (k < 4) × (top (get_or call.args k (Const 0)) + call.base ≤ 65535) × (top (get_or head k (Const 0)) + first ≤ 65535) × (out ≤ 65540) }
    ensures { result ≡ pair_of (get_or call.modes k 0) (get_or call.args k (Const 0)) call.base (get_or head k (Const 0)) first out }
{
    Pair {
        left: shift(call.args[k], call.base),
        right: head_side(call.modes[k], head[k], first, out),
    }
}

// The arguments of the call with those of the head, from the left.
fn pairs_of(call: Call, head: [Term; 4], first: u16, own: u32) -> [Pair; 4]
    requires { Shifted call.args call.base 4 65535 × Shifted head first 4 65535 × (own ≤ 65535) }
    ensures { result ≡ pairs_of call.modes call.args call.base head first own }
{
    let o1 = out_after(call.modes[0], own);
    let o2 = out_after(call.modes[1], o1);
    let o3 = out_after(call.modes[2], o2);
    let p0 = pair_at(call, head, first, 0, own);
    let p1 = pair_at(call, head, first, 1, o1);
    let p2 = pair_at(call, head, first, 2, o2);
    let p3 = pair_at(call, head, first, 3, o3);
    [p0, p1, p2, p3]
}

// Input-match: the arguments of a call with those of a head, numbered from first, whose clause has own variables.
pub fn match_of(vars: &Variables, call: Call, head: [Term; 4], first: u16, own: usize) -> Decision
    requires { (vars.now.count ≤ 65535) × Shifted call.args call.base 4 vars.now.count × Shifted head first 4 vars.now.count × (first + own + out_count (take call.arity call.modes) ≤ vars.now.count) }
    ensures { Decides (match_of (variables_in vars.now) (take call.arity call.modes) (take call.arity call.args) call.base (take call.arity head) first own) result }
{
    let pairs = pairs_of(call, head, first, own as u32);
    let h = Held { bar: 0, call };
    decide(vars, pairs, call.arity, h)
}

// Equate: two terms, numbered from base; no variable below the bar is to be bound.
pub fn equate_of(vars: &Variables, t: Term, u: Term, base: u16, bar: usize) -> Decision
    requires { (vars.now.count ≤ 65535) × (top t + base ≤ vars.now.count) × (top u + base ≤ vars.now.count) }
    ensures { Decides (equate_of (variables_in vars.now) t u base bar) result }
{
    let x = shift(t, base);
    let y = shift(u, base);
    let p = Pair { left: x, right: y };
    let call = Call {
        arity: 0,
        modes: [0; 4],
        args: [t; 4],
        base,
    };
    let h = Held { bar, call };
    decide(vars, [p; 4], 1, h)
}
