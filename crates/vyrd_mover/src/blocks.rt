//! What is said of the blocks of a history.

ghost use Rattle.std.specs.Prelude.{◌≡◌, ◌++◌, OnOk, OnErr};
ghost use Rattle.vyrd_mover.specs.declared.blocks.Blocks.TheVariants.{Reducible, Broken};
ghost use Rattle.vyrd_mover.specs.BlocksText.{blocks_text};

use std::alloc::AllocError;
use vyrd_text::LineBuffer;

/// The answer about the blocks of a history. A block that doesn't end isn't judged, and isn't
/// counted.
#[derive(Clone, Copy, Debug, PartialEq, Eq)]
pub enum Blocks {
    /// All blocks that end are reducible.
    Reducible {
        /// How many there are.
        blocks: u64,
    },
    /// A block that ends isn't reducible. Of these it is the one that is opened first.
    Broken {
        /// The line of its open in the history's text: the number of the event plus 2.
        open_line: u64,
        /// The line of its break: the first of its events with which those so far don't have the
        /// form of a reducible block.
        at_line: u64,
    },
}

/// Appends the line that says it, with its line feed. A refusal leaves `out` unchanged.
pub fn write_blocks(blocks: Blocks, out: &mut Vec<u8>) -> Result<(), AllocError>
    ensures ok { OnOk result (out.new.items ≡ out.old.items ++ blocks_text blocks) }
    ensures err { OnErr result (out.new.items ≡ out.old.items) }
{
    match blocks {
        Blocks::Reducible { blocks } => write_reducible(blocks, out),
        Blocks::Broken { open_line, at_line } => write_broken(open_line, at_line, out),
    }
}

/// Appends the line about blocks that are all reducible.
fn write_reducible(blocks: u64, out: &mut Vec<u8>) -> Result<(), AllocError>
    ensures ok { OnOk result (out.new.items ≡ out.old.items ++ blocks_text (Reducible blocks)) }
    ensures err { OnErr result (out.new.items ≡ out.old.items) }
{
    let mut text = LineBuffer::new();
    text.push(b"movers: ");
    text.push_number(blocks);
    text.push(b" blocks, all reducible\n");
    out.extend_from_slice(text.as_slice())
}

/// Appends the line about a block that isn't reducible.
fn write_broken(open_line: u64, at_line: u64, out: &mut Vec<u8>) -> Result<(), AllocError>
    ensures ok { OnOk result
        (out.new.items ≡ out.old.items ++ blocks_text (Broken open_line at_line)) }
    ensures err { OnErr result (out.new.items ≡ out.old.items) }
{
    let mut text = LineBuffer::new();
    text.push(b"block at line ");
    text.push_number(open_line);
    text.push(b": not reducible at line ");
    text.push_number(at_line);
    text.push(b"\n");
    out.extend_from_slice(text.as_slice())
}
