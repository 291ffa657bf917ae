// Reads a text into node records.
ghost use Rattle.records.specs.Reading.{Reads, RecordLaws};
ghost use Rattle.reader.specs.Examining.{Accepts};
ghost use Rattle.records.specs.Inner.Writing.{Written, completed};
ghost use Rattle.systems.specs.Trees.{System};
ghost use Rattle.std.specs.Prelude.{◌≡◌, map};

use super::record::{Node, Record};
use super::writer::Writer;
use reader::{MOST_NODES, TextFault, examine};
use tokens::tokens;

// The node of a name is completed with the record of its unknown's right side. (One record by itself: with this in the loop below, the
// loop's proof did not close.)
fn complete_one(one: &mut Record, roots: &[usize; 256])
    ensures { one.new ≡ completed roots.now one.old }
{
    if let Node::Name(letter) = one.node {
        one.node = Node::Unknown(roots[usize::from(letter)]);
    }
}

// Once the text has been read, the names are completed, also those that point ahead.
fn complete(records: &mut [Record], roots: &[usize; 256])
    ensures { records.new ≡ map (completed roots.now) records.old }
{
    for record in records.iter_mut() {
        complete_one(record, roots);
    }
}

// The records of a text, with names that are not completed yet.
fn write(text: &[u8]) -> Writer
    ensures { (S : System) → Accepts text.now S → Written S result }
{
    let mut writer = Writer::new();
    for (_, token) in tokens(text) {
        writer.take(token);
    }
    writer
}

// Reads a text into the records that are lent, and answers its number of nodes and of product signs; or refuses it with the fault
// that decides, before a record is written.
// There is one record for each node, at most 64, and there are as many products as product signs; the records represent the text's
// system.
#[tactic(auto, using(crate::proofs::Laws::record_laws))]
pub fn read(text: &[u8], records: &mut [Record; MOST_NODES]) -> Result<(usize, usize), TextFault>
    ensures answer { Reads text.now records.old records.new result }
    ensures laws { RecordLaws }
{
    let counts = examine(text)?;
    let writer = write(text);
    let written = writer.sheet.records.as_slice();
    records[..written.len()].copy_from_slice(written);
    complete(&mut records[..written.len()], &writer.roots);
    Ok(counts)
}
