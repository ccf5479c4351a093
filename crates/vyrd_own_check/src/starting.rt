//! The judge of a log by the specification in front of it.

ghost use Rattle.std.specs.Prelude.{◌≡◌, true, None, IfOk};
ghost use Rattle.vyrd_base.specs.declared.subject.Subject.TheVariants.{Own};
ghost use Rattle.vyrd_base.specs.Starts.{do_follow};
ghost use Rattle.vyrd_base.specs.Own.Reader.{nothing_read, read_lines, written_in};
ghost use Rattle.vyrd_own.specs.Layout.{texts, written};
ghost use Rattle.vyrd_own_check.specs.Checking.{IsMade};

use std::alloc::{AllocError, Global};
use std::sync::Arc;
use vyrd_base::{Header, StartWord};
use vyrd_judge::Judge;
use vyrd_own::Program;
use vyrd_own_spec::{OwnSpec, Specification};
use vyrd_own_text::SpecificationReader;
use vyrd_words::words_at_start;

/// The judge of a log with this specification in front, which begins with these words and has no
/// entry yet. There is none if the words stand for no state.
pub(crate) fn start_judge(
    alloc: Global,
    header: Header,
    lines: &[Vec<u8>],
    start: &[StartWord],
) -> Result<Option<Judge<OwnSpec>>, AllocError>
    requires own { header.subject ≡ Own }
    requires follows { do_follow header None start.now ≡ true }
    ensures { IfOk result (IsMade header (texts lines.now) start.now) }
{
    let words = words_at_start(alloc, header, start)?;
    let specification = read_specification(alloc, lines)?;
    let shared = Arc::new(alloc, specification)?;
    let Some(spec) = OwnSpec::start(alloc, header, shared, &words)? else {
        return Ok(None);
    };
    Ok(Some(Judge::begin(alloc, header, start, &words, spec)?))
}

/// The specification that these lines spell, without their line feeds and without the line `log`.
/// It has lines of its own: the reader of a log goes on with those that it has read.
pub fn read_specification(alloc: Global, lines: &[Vec<u8>]) -> Result<Specification, AllocError>
    ensures { IfOk result (λ specification. specification ≡ texts lines.now) }
{
    let program = read_program(alloc, lines)?;
    let mut copied = Vec::with_capacity(alloc, lines.len())?;
    for line in lines {
        copied.push(Vec::from_slice(alloc, line)?)?;
    }
    Ok(Specification::new(program, copied))
}

/// What runs of the specification that these lines spell.
fn read_program(alloc: Global, lines: &[Vec<u8>]) -> Result<Program, AllocError>
    ensures { IfOk result (λ program. written program ≡ written_in (texts lines.now)) }
{
    let mut reader = SpecificationReader::new(alloc);
    for line in lines {
        let _ = reader.take_line(alloc, line)?;
    }
    Ok(reader.program)
}
