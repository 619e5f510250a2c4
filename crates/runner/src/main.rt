// Reads an image from standard input, runs it and prints how it ended.
#![tactic(auto)]

ghost use Rattle.std.specs.Prelude.{◌≡◌, ◌++◌, ◌*◌, ◌≤◌, length, Ok};
ghost use Rattle.parlog.specs.Limits.{small};
ghost use Rattle.parlog.specs.Load.{load_of};
ghost use Rattle.parlog.specs.Text.{runner_text, var_lines};
ghost use Rattle.runner_text.specs.Fronting.{Fronted};
ghost use Rattle.vars.specs.Views.{variables_in};
ghost use Rattle.runner_text.specs.Writing.{Fronts, standing};

use parlog::{Term, codes};
use program_index::Image;
use runner_text::Text;
use vars::Variables;

// The numbers of standard input and standard output.
const STDIN: i32 = 0;

const STDOUT: i32 = 1;

// The limit of the runner's one run.
const LIMIT: u16 = 60000;

// The lines of the goal's variables, from the last to the first.
fn lines(vars: &Variables, goal: usize, text: &mut Text)
    requires { (goal ≤ vars.now.count) × (goal ≤ 255) × (12495 ≤ text.old.at) }
    ensures { Fronts text.old 12495 (var_lines (variables_in vars.now) 0 goal ++ standing text.old) text.new }
{
    for v in (0..goal).rev() {
        let t = unify::value_of(vars, Term::Var(v as u32));
        text.line(v, t);
    }
}

// An accepted image started and run over tables of its own, and the text of that.
fn play(image: &[u8], rels: usize, clauses: usize, text: &mut Text)
    requires { (load_of image.now ≡ Ok (rels, clauses)) × (rels ≤ 32) × (clauses ≤ 64) × (text.old.at ≡ length text.old.out.now) × (12534 ≤ text.old.at) }
    ensures { Fronts text.old 12534 (runner_text small image.now) text.new }
{
    let mut ix = [0u16; program_index::SIZE];
    let mut head = [0u8; codes::HEAD_SIZE];
    let mut procs = [0u8; codes::MOST_PROCS * codes::ROW_SIZE];
    let mut vars = [0u8; codes::MOST_VARS * codes::CELL_SIZE];
    let _ = load::load_indexed(image, &mut ix);
    let accepted = Image {
        bytes: image,
        relations: rels,
        clauses,
        index: &ix,
    };
    let goal = program_clause::goal_vars(&accepted);
    let begun = machine::start(image, &mut head, &mut procs, &mut vars);
    let ran = run::run(image, &mut head, &mut procs, &mut vars, LIMIT);
    let Ok((end, steps)) = ran else {
        return;
    };
    let cells = Variables {
        bytes: &vars,
        count: head::var_count(&head),
    };
    lines(&cells, goal, text);
    text.ran(end, steps);
}

// The text for an image, at the buffer's end: where it begins.
fn answer(image: &[u8], out: &mut [u8]) -> usize
    requires { length out.old ≡ 16384 }
    ensures { Fronted out.old 16384 12534 (runner_text small image.now) out.new result }
{
    let mut text = Text::new(out);
    let l = load::load(image);
    let Ok((rels, clauses)) = l else {
        text.refused(load::refusal(l));
        return text.at;
    };
    play(image, rels, clauses, &mut text);
    text.at
}

// An image longer than the buffer is too long as far as it is read.
fn main() {
    let mut bytes = io::large_buffer();
    let n = io::read_full(STDIN, &mut bytes);
    let mut out = [0u8; 16384];
    let p = answer(&bytes[..n], &mut out);
    io::write_all(STDOUT, &out[p..]);
}
