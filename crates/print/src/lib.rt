// The call that writes the text of an image into a lent row.
#![tactic(auto)]

ghost use Rattle.std.specs.Prelude.{◌≡◌, ◌≤◌, Err};
ghost use Rattle.parlog.specs.Load.{refusal};
ghost use Rattle.parlog.specs.Program.{program_of};
ghost use Rattle.print.specs.Says.{PrintSays, Tells};
ghost use Rattle.text_program.specs.Printing.{nameable, program_named, program_text};

use entry_table::Names;
use lay_text::{To, Writer};
use parlog::{Answer, Refusal, codes};
use write_goal::Source;

// A refusal without a place.
fn unwritten(number: u8) -> Answer<usize>
    ensures { result ≡ Err (refusal number 0) }
{
    Err(Refusal { number, offset: 0 })
}

// The text of an accepted image: measured over a byte that nobody sees, then written.
fn accepted<'a>(
    text: &mut [u8],
    image: &'a [u8],
    names: &'a [u8],
    r: usize,
    c: usize,
) -> Answer<usize>
    requires { (r ≤ 32) × (c ≤ 64) }
    ensures { Tells (nameable text.old (program_named names.now (program_of image.now r c)) (program_text names.now (program_of image.now r c))) result text.new }
{
    let mut table = [0usize; entry_table::PLACES];
    let source = Source {
        image,
        names: Names::new(&mut table, names),
        relations: r,
    };
    let mut unseen = [0u8; 1];
    let mut measured = Writer::new(&mut unseen);
    write_text::lines(&mut measured, &source, c);
    let To { at, named } = measured.to;
    if !named {
        return unwritten(text_program::UNDECLARED);
    }
    if text.len() < at {
        return unwritten(codes::ROOM);
    }
    let mut writer = Writer::new(text);
    write_text::lines(&mut writer, &source, c);
    Ok(writer.to.at)
}

// The text of an image, with the names of a names row.
pub fn print(image: &[u8], names: &[u8], text: &mut [u8]) -> Answer<usize>
    ensures { PrintSays image.now names.now text.old result text.new }
{
    let (r, c) = load::load(image)?;
    accepted(text, image, names, r, c)
}
