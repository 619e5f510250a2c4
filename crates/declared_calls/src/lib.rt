// Whether each call of a text has a mode line, for any number of these: a table of their names, class by class where it is too short for all, and in the order of names where it is too short for a class.
#![tactic(auto)]

ghost use Rattle.std.specs.Prelude.{◌≡◌, ◌+◌, ◌≤◌, length};
ghost use Rattle.std.proofs.Props.{props};
ghost use Rattle.declared_calls.specs.Declares.{all_named, Answers, class_declared, Cleared, declared_for, Declares, Names};
ghost use Rattle.name_index.specs.Index.{Indexed};

use missing_call::{Asked, Search};

// The class that stands for all.
const ALL: usize = missing_call::CLASSES;

// Where the mode lines begin, the class of the names in the table, how many there are, and where the lines begin whose names may not be there.
#[derive(Clone, Copy)]
pub struct Named {
    pub from: usize,
    pub class: usize,
    pub count: usize,
    pub rest: usize,
}

// A text, the places and chains of a table of names of its mode lines, and what is told of that table.
#[derive(Clone, Copy)]
pub struct Table<'a> {
    pub text: &'a [u8],
    pub places: &'a [usize],
    pub links: &'a [u16],
    pub named: Named,
    pub ghost declares: { Declares text.now places.now links.now named } by { Prim.hlevel props },
}

// ---- mode lines

// What is told of a table.
fn told(m: usize, class: usize, n: usize, p: usize) -> Named
    ensures { result ≡ record { from = m; class = class; count = n; rest = p } }
{
    Named {
        from: m,
        class,
        count: n,
        rest: p,
    }
}

// The names of a class in the mode lines from place m on, each once, as long as there is room.
// Kept, like `each_class` and `declared_behind`: text and place apart, with the place's bound asked for, as wherever a text is read from a place on; a struct of both would be made anew for each place.
fn names(s: &[u8], m: usize, class: usize, places: &mut [usize], links: &mut [u16]) -> Named
    requires { (m ≤ length s.now) × Indexed s.now places.old links.old 0 }
    ensures { Names s.now places.old m class places.new links.new result }
{
    let mut p = m;
    let mut n = 0;
    for _ in m..s.len() {
        if !read_names::is_mode_line(s, p) {
            return told(m, class, n, p);
        }
        let name = read_goal::past_name(s, p);
        let word = name_index::name_at(s, name);
        if missing_call::in_class(class, word.chain) {
            let a = name_index::add(s, places, links, n, name, word.chain);
            n = a.count;
            if a.number == n {
                return told(m, class, n, p);
            }
        }
        let line = read_names::mode_line(s, p);
        p = line.end;
    }
    told(m, class, n, p)
}

// No chain has a name.
fn clear(links: &mut [u16])
    requires { 512 ≤ length links.old }
    ensures { Cleared links.old links.new }
{
    links[..name_index::CHAINS].fill(0);
}

// ---- calls

impl Table<'_> {
    // Each call of the table's class in up to `left` clauses from a place on and in the goal behind them has a mode line: the least name that the table does not have is looked for among the lines left over, then the next.
    fn class_declared(&self, from: usize, left: usize) -> bool
        requires { from ≤ length self.now.text.now }
        ensures { result ≡ class_declared self.now.text.now self.now.named.from self.now.named.class from left }
    {
        let Named { class, count, .. } = self.named;
        let mut bound = None;
        loop {
            let search = Search {
                text: self.text,
                places: self.places,
                links: self.links,
                asked: Asked {
                    class,
                    count,
                    bound,
                },
            };
            let Some(at) = search.least(from, left) else {
                return true;
            };
            if read_names::relation(self.text, self.named.rest, at)
                .arity
                .is_none()
            {
                return false;
            }
            bound = Some(at);
        }
    }
}

// Each call in up to `left` clauses from a place on and in the goal behind them has a mode line, by a table of all n names of the mode lines from place m on.
pub fn declared(
    s: &[u8],
    places: &[usize],
    links: &[u16],
    m: usize,
    n: usize,
    from: usize,
    left: usize,
) -> bool
    requires { (from ≤ length s.now) × Declares s.now places.now links.now (all_named s.now m n) }
    ensures { result ≡ declared_for s.now m from left }
{
    let table = Table {
        text: s,
        places,
        links,
        named: told(m, ALL, n, s.len()),
    };
    table.class_declared(from, left)
}

// The same class by class, with the table filled anew for each.
fn each_class(
    s: &[u8],
    m: usize,
    places: &mut [usize],
    links: &mut [u16],
    from: usize,
    left: usize,
) -> bool
    requires { (m ≤ length s.now) × (from ≤ length s.now) × (length links.old ≡ 512 + length places.old) × (length places.old ≤ 65535) }
    ensures { (result ≡ declared_for s.now m from left) × (length places.new ≡ length places.old) × (length links.new ≡ length links.old) }
{
    for k in 0..missing_call::CLASSES {
        clear(links);
        let named = names(s, m, k, places, links);
        let table = Table {
            text: s,
            places,
            links,
            named,
        };
        if !table.class_declared(from, left) {
            return false;
        }
    }
    true
}

// Each call behind the mode lines from place m on has one; the table is for their names.
pub fn declared_behind(s: &[u8], m: usize, places: &mut [usize], links: &mut [u16]) -> bool
    requires { (m ≤ length s.now) × Indexed s.now places.old links.old 0 }
    ensures { Answers s.now m result × (length places.new ≡ length places.old) × (length links.new ≡ length links.old) }
{
    let named = names(s, m, ALL, places, links);
    let rest = read_names::mode_lines(s, named.rest);
    let from = rest.end;
    let left = s.len() - from;
    if rest.count == 0 {
        let table = Table {
            text: s,
            places,
            links,
            named,
        };
        return table.class_declared(from, left);
    }
    each_class(s, m, places, links, from, left)
}
