// Names of a text as entries of a names row: each name and a byte 10.
// Kept: a text and a place in it, which is at most its end, come as two (`name`, `entry`, `mode_names`). A struct of both is no plainer, as crates `read_goal` and `read_names` say, whose places these are; nor is a writer for the row and how far its text is, as crate `lay_text` says.
#![tactic(auto)]

ghost use Rattle.std.specs.Prelude.{true, [], ◌++◌, ◌∷◌, ◌≤◌, drop, length};
ghost use Rattle.lay_text.specs.Laying.{Writes};
ghost use Rattle.read_names.specs.Tables.{mode_names, modes_from, names_at};
ghost use Rattle.text_names.specs.Bytes.{front};
ghost use Rattle.text_names.specs.Entries.{entries};

use lay_text::To;

// The name at a place.
fn name(out: &mut [u8], w: To, s: &[u8], from: usize) -> To
    requires { from ≤ length s.now }
    ensures { Writes out.old w (front (drop from s.now)) true out.new result }
{
    let end = text_names::name_end(s, from);
    lay_text::word(out, w, &s[from..end])
}

// The name at a place and a byte 10.
fn entry(out: &mut [u8], w: To, s: &[u8], from: usize) -> To
    requires { from ≤ length s.now }
    ensures { Writes out.old w (front (drop from s.now) ++ (10 ∷ [])) true out.new result }
{
    let a = name(out, w, s, from);
    lay_text::put(out, a, entry_table::LINE_END)
}

// The names of the mode lines from a place on.
pub fn mode_names(out: &mut [u8], w: To, s: &[u8], at: usize) -> To
    requires { at ≤ length s.now }
    ensures { Writes out.old w (entries (mode_names (modes_from s.now at))) true out.new result }
{
    let mut to = w;
    let mut p = at;
    for _ in at..s.len() {
        if !read_names::is_mode_line(s, p) {
            return to;
        }
        let from = read_goal::past_name(s, p);
        let line = read_names::mode_line(s, p);
        to = entry(out, to, s, from);
        p = line.end;
    }
    to
}

// The names at the places of a table.
pub fn table_names(out: &mut [u8], w: To, s: &[u8], table: &[usize]) -> To
    ensures { Writes out.old w (entries (names_at s.now table.now)) true out.new result }
{
    let mut to = w;
    for q in table {
        to = entry(out, to, s, read_names::within(s, *q));
    }
    to
}
