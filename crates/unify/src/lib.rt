// Values and unifying over the lent variable table. Nothing is written: what a unifier binds is pending, in a struct by value.
#![tactic(auto)]

ghost use Rattle.vars.specs.Views.{variables_in};
ghost use Rattle.std.specs.Prelude.{◌≡◌, ◌+◌, ◌*◌, ◌≤◌, ◌<◌, IfSome, take};
ghost use Rattle.parlog.specs.Tables.{binding_of};
ghost use Rattle.parlog.specs.Unify.{bound, is_bound, joined, meet, meet_vars, some_bound, unify, unify_one, value, value_of};
ghost use Rattle.unify.specs.Pending.{Below, bound_in, bound_vars, latest, newer_of, outcome, pending, top, under};

mod waiting;

use parlog::{Change, Met, Pair, Term, codes};
use vars::Variables;
pub use waiting::{Changes, Noted};

// What one binding makes of the row b of v.
fn newer(c: Change, b: Option<Term>, v: u32) -> Option<Term>
    ensures { result ≡ newer_of c b v }
{
    if c.var == v { Some(c.to) } else { b }
}

// What v is bound to under the pending bindings, where its row has a binding of its own.
fn found_in(u: Changes, row: Option<Term>, v: u32) -> Option<Term>
    ensures { result ≡ latest (pending u) row v }
{
    let mut b = row;
    for c in u.made() {
        b = newer(*c, b, v);
    }
    b
}

// The constant or unbound variable that v's bindings lead to.
fn value_of_var(vars: &Variables, u: Changes, v: u32) -> Term
    requires { v < vars.now.count }
    ensures { result ≡ value_of (under vars.now.bytes.now vars.now.count (pending u)) v }
{
    let mut a = v;
    loop {
        let row = vars.get(a as usize);
        let b = found_in(u, row, a);
        let Some(t) = b else {
            return Term::Var(a);
        };
        let Term::Var(w) = t else {
            return t;
        };
        if a <= w {
            return Term::Var(a);
        }
        a = w;
    }
}

// A term's value under the pending bindings.
fn value_under(vars: &Variables, u: Changes, t: Term) -> Term
    requires { top t ≤ vars.now.count }
    ensures { result ≡ value (under vars.now.bytes.now vars.now.count (pending u)) t }
{
    let Term::Var(v) = t else {
        return t;
    };
    value_of_var(vars, u, v)
}

// A term's value under the table's bindings.
pub fn value_of(vars: &Variables, t: Term) -> Term
    requires { top t ≤ vars.now.count }
    ensures { result ≡ value (variables_in vars.now) t }
{
    let u = Changes::none();
    value_under(vars, u, t)
}

// Two unbound variables: the higher gives way to the lower.
fn meet_vars(v: u32, w: u32) -> Met
    ensures { result ≡ meet_vars v w }
{
    if v < w {
        return Met::Bind(w, Term::Var(v));
    }
    if w < v {
        return Met::Bind(v, Term::Var(w));
    }
    Met::Same
}

// What two values come to.
fn meet(x: Term, y: Term) -> Met
    ensures { result ≡ meet x y }
{
    match x {
        Term::Const(a) => match y {
            Term::Const(b) => if a == b { Met::Same } else { Met::Clash },
            Term::Var(w) => Met::Bind(w, x),
        },
        Term::Var(v) => match y {
            Term::Const(_) => Met::Bind(v, y),
            Term::Var(w) => meet_vars(v, w),
        },
    }
}

// The unifier with what two values more come to; a clash binds nothing.
fn join(u: Changes, m: Met) -> Option<Changes>
    requires { u.count < 4 }
    ensures { (outcome result ≡ joined (pending u) m) × IfSome result (λ r. r.count ≤ u.count + 1) × (bound_in result ≡ bound_vars (outcome result)) }
{
    match m {
        Met::Clash => None,
        Met::Same => Some(u),
        Met::Bind(v, t) => Some(u.with(Change { var: v, to: t })),
    }
}

// One pair more.
fn unify_one(vars: &Variables, u: Changes, p: Pair) -> Option<Changes>
    requires { (top p.left ≤ vars.now.count) × (top p.right ≤ vars.now.count) × (u.count < 4) }
    ensures { (outcome result ≡ unify_one (variables_in vars.now) (bound (pending u)) p) × IfSome result (λ r. r.count ≤ u.count + 1) × (bound_in result ≡ bound_vars (outcome result)) }
{
    let x = value_under(vars, u, p.left);
    let y = value_under(vars, u, p.right);
    join(u, meet(x, y))
}

// The first of these pairs, from the left; it tells the variables bound, in order, and a clash, which stays one, tells none.
// Kept, an array and a count: the caller makes four pairs and knows how many are asked for, which is what the definition takes (`take count pairs`); a slice would be cut at the call.
pub fn unify(vars: &Variables, pairs: [Pair; codes::MOST_ARITY], count: usize) -> Option<Changes>
    requires { (count ≤ 4) × Below vars.now.count count pairs }
    ensures { (outcome result ≡ unify (variables_in vars.now) (take count pairs)) × IfSome result (λ u. u.count ≤ count) × (bound_in result ≡ bound_vars (unify (variables_in vars.now) (take count pairs))) }
{
    let mut u = Changes::none();
    for p in &pairs[..count] {
        u = unify_one(vars, u, *p)?;
    }
    Some(u)
}

// Variable v of the first n is bound.
fn is_bound(vars: &Variables, v: usize) -> bool
    ensures { result ≡ is_bound (binding_of (variables_in vars.now) v) }
{
    if v < vars.count {
        return vars.bytes[v * codes::CELL_SIZE] != codes::UNBOUND;
    }
    false
}

// Some variable of these notes is bound.
pub fn some_bound(vars: &Variables, notes: &[u16]) -> bool
    ensures { result ≡ some_bound (variables_in vars.now) notes.now }
{
    notes.iter().any(|v| is_bound(vars, *v as usize))
}
