//! The command `make`: makes the envelope of a description.

ghost use Rattle.std.specs.Prelude.{IfOk, IsTrue, length, string_bytes};
ghost use Rattle.author.specs.FileNames.{file_names};
ghost use Rattle.author.specs.Files.{has_files};
ghost use Rattle.author.specs.Held.{value_of};
ghost use Rattle.suit_cli.specs.declared.reply.Outcome.TheVariants as outcomes;
ghost use Rattle.suit_cli.specs.Replies.{Makes};
ghost use Rattle.suit_cli.specs.Outside.{Flashed};
ghost use Rattle.suit_cli.specs.Stages.{Does, Finds, ending_of};
ghost use Rattle.suit_cli.specs.Authoring.{IsDescriptionLine, description_in, value_or_stop, files_in, made_in, made_line, stores, makes_described};
ghost use Rattle.suit_cli.specs.Commands.{makes};

use crate::device::pointed_line;
use crate::input::{read, read_key};
use crate::json::json_in;
use crate::lines::number_line;
use crate::outside::SeenHost;
use crate::reply::{Object, Outcome, Reply, Stop, declined, refused_by};
use author::{Description, DescriptionFault, FileList, MakeFault, description, make};
use det_cbor::{Bytes, Names, Text};
use std::alloc::{AllocError, Global};
use suit_edge::{Edge, Host};

/// The longest description of an envelope, in bytes.
const LONGEST_DESCRIPTION: u64 = 65_536;

/// The longest file that a description names, in bytes.
const LONGEST_NAMED: u64 = 4_194_304;

// The line that tells what is wrong with a description.
fn fault_line(alloc: Global, fault: DescriptionFault) -> Result<String, AllocError>
    ensures { IfOk result (λ t. IsDescriptionLine fault (string_bytes t)) }
{
    match fault {
        DescriptionFault::BadField(pointer) => pointed_line(alloc, "bad field", pointer.as_str()),
        DescriptionFault::BadHex(pointer) => pointed_line(alloc, "bad hex", pointer.as_str()),
        DescriptionFault::BadUuid(pointer) => pointed_line(alloc, "bad uuid", pointer.as_str()),
        DescriptionFault::TooMany(count) => format!(in alloc; "{count} components\n"),
        DescriptionFault::TwoAlike { first, second } => {
            format!(in alloc; "components {first} and {second} are alike\n")
        }
        DescriptionFault::NoMemory => Err(AllocError),
    }
}

// The description in a file's bytes.
fn description_in(alloc: Global, bytes: &[u8]) -> Result<Description, Stop>
    ensures { Finds (description_in bytes.now) (value_or_stop result) }
{
    let value = json_in(alloc, bytes)?;
    match description(alloc, &value) {
        Ok(description) => Ok(description),
        Err(fault) => Err(refused_by(fault_line(alloc, fault))),
    }
}

// Reads the files of these names, in order.
fn read_files<H: Host>(alloc: Global, names: &Names, host: &mut H) -> Result<FileList, Stop>
    ensures does { (flash : Flashed) → Does (files_in names.now)
        (⟦<H as SeenHost>⟧.seen host.old flash) (⟦<H as SeenHost>⟧.seen host.new flash) result }
    ensures each { IfOk result (λ files. IsTrue (has_files files names.now)) }
{
    let mut files = FileList::new(alloc);
    for name in names.as_slice() {
        let bytes = read(alloc, name.as_str(), LONGEST_NAMED, host)?;
        files.push((Text::from_str(alloc, name.as_str())?, bytes))?;
    }
    Ok(files)
}

// The envelope of a description and its files.
fn made(
    alloc: Global,
    description: &Description,
    files: &FileList,
    key: &[u8],
) -> Result<Bytes, Stop>
    requires { IsTrue (has_files files.now (file_names (value_of description.now))) }
    ensures { Finds (made_in (value_of description.now) files.now key.now) result }
{
    match make(alloc, description, files, key) {
        Ok(envelope) => Ok(envelope),
        Err(MakeFault::TooLong(_)) => Err(declined(Reply::named(
            alloc,
            Outcome::TooLong,
            "too long ",
            "envelope",
        ))),
        Err(MakeFault::NoMemory) => Err(Stop::NoMemory),
    }
}

fn made_reply(alloc: Global, envelope: &[u8]) -> Result<Reply, AllocError>
    ensures { Makes result outcomes.Done (made_line (length envelope.now)) }
{
    let line = number_line(alloc, "made", envelope.len() as u64)?;
    Ok(Reply {
        outcome: Outcome::Done,
        text: Text::from_string(line),
    })
}

// Stores an envelope. The reply is made first, so memory cannot run out after the store.
fn store<H: Host>(alloc: Global, out: &str, envelope: &[u8], host: &mut H) -> Result<Reply, Stop>
    ensures { (flash : Flashed) → stores out.now envelope.now
        (⟦<H as SeenHost>⟧.seen host.old flash) (⟦<H as SeenHost>⟧.seen host.new flash)
        (ending_of result) }
{
    let made = made_reply(alloc, envelope)?;
    match host.store(out, envelope) {
        Edge::Done => Ok(made),
        Edge::Failed => Err(Stop::Fault(Object::Host)),
    }
}

// Reads the key and the files, and stores the envelope.
fn make_described<H: Host>(
    alloc: Global,
    description: &Description,
    key_name: &str,
    out: &str,
    host: &mut H,
) -> Result<Reply, Stop>
    ensures { (flash : Flashed) → makes_described (value_of description.now) key_name.now out.now
        (⟦<H as SeenHost>⟧.seen host.old flash) (⟦<H as SeenHost>⟧.seen host.new flash)
        (ending_of result) }
{
    let key = read_key(alloc, key_name, host)?;
    let files = read_files(alloc, description.files(), host)?;
    let envelope = made(alloc, description, &files, key.as_slice())?;
    store(alloc, out, envelope.as_slice(), host)
}

/// The reply to `make DESCRIPTION KEY OUT`. Everything is judged before the store.
pub(crate) fn make_envelope<H: Host>(
    alloc: Global,
    description: &str,
    key_name: &str,
    out: &str,
    host: &mut H,
) -> Result<Reply, Stop>
    ensures { (flash : Flashed) → makes description.now key_name.now out.now
        (⟦<H as SeenHost>⟧.seen host.old flash) (⟦<H as SeenHost>⟧.seen host.new flash)
        (ending_of result) }
{
    let bytes = read(alloc, description, LONGEST_DESCRIPTION, host)?;
    let description = description_in(alloc, bytes.as_slice())?;
    make_described(alloc, &description, key_name, out, host)
}
