//! The end where memory runs out for the words of the command line.

ghost use Rattle.suit_cli.specs.Program.{PutsText};
ghost use Rattle.suit_cli.specs.Texts.{out_of_memory_line};

use suit_cli::SeenSink;
use suit_edge::{Edge, Sink};

/// The status of a command that ran out of memory.
const OUT_OF_MEMORY: u8 = 11;

/// The status of a command whose lines were not put.
const OUTPUT_FAULT: u8 = 9;

/// Puts the line of a command that ran out of memory, and returns its status, or that of a fault of the sink.
pub(crate) fn out_of_memory<K: Sink>(out: &mut K) -> u8
    ensures { PutsText
        (⟦<K as SeenSink>⟧.seen out.old) (⟦<K as SeenSink>⟧.seen out.new)
        OUT_OF_MEMORY out_of_memory_line result }
{
    match out.put(b"out of memory\n") {
        Edge::Done => OUT_OF_MEMORY,
        Edge::Failed => OUTPUT_FAULT,
    }
}
