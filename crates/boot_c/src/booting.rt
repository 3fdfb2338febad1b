//! Booting from a flash that stands in memory.

ghost use Rattle.boot_c.specs.BootAnswers.{IsAnswer, boot_answer, cause_answer};
ghost use Rattle.boot_c.specs.Images.{ImageLiesIn, Starts, StartsNone};
ghost use Rattle.flash_layout.specs.Configs.{ConfigOf, Configured, IsAllowed};
ghost use Rattle.std.specs.Prelude.{◌≡◌, ◌≢◌, ◌⊎◌, IfSome, IsNone, None, length};
ghost use Rattle.suit_answers.specs.Answers.{code_of};
ghost use Rattle.suit_answers.specs.declared.answer.Answer.{Answer};
ghost use Rattle.suit_answers.specs.declared.answer.Answer.TheVariants as answers;

use crate::image::{SuitImage, image_in};
use flash_layout::{Frame, Key, Layout, Loaded, load_config};
use flash_view::{NoFiles, ViewDisk, ViewLauncher};
use invoke_proc::{BootBuffer, BootEnd, boot};
use path_model::Cause;
use std::alloc::Global;
use suit_answers::Answer;

/// What is answered, and the image to be started.
#[derive(Drop)]
struct Told {
    answer: Answer,
    image: Option<SuitImage>,
}

impl Told {
    // An answer without an image.
    fn without(answer: Answer) -> Told
        ensures { result ≡ record { answer = answer; image = None } }
    {
        Told {
            answer,
            image: None,
        }
    }
}

// The answer where a directive failed.
fn cause_answer(cause: Cause) -> Answer
    ensures { result ≡ cause_answer cause }
{
    match cause {
        Cause::Missing | Cause::SelfCopy | Cause::TooLarge | Cause::Absent => Answer::Stopped,
        Cause::HostFault => Answer::HostFault,
        Cause::FlashFault => Answer::FlashFault,
        Cause::LaunchFault => Answer::LaunchFault,
    }
}

// The answer of a boot.
fn boot_answer(end: &BootEnd) -> Answer
    ensures { result ≡ boot_answer end.now }
{
    match end {
        BootEnd::Ended => Answer::Done,
        BootEnd::NothingInstalled => Answer::NothingInstalled,
        BootEnd::BadBank(_) => Answer::Refused,
        BootEnd::NotAuthentic(_) => Answer::NotAuthentic,
        BootEnd::UnknownComponent(_) => Answer::UnknownComponent,
        BootEnd::Condition { .. } => Answer::Stopped,
        BootEnd::Stopped { cause, .. } => cause_answer(*cause),
        BootEnd::FlashFault => Answer::FlashFault,
    }
}

// Boots by the configuration of the flash.
fn boot_by(alloc: Global, flash: &[u8], layout: &Layout, frame: Frame, key: &Key) -> Told
    requires allowed { IsAllowed frame (length flash.now) layout.now key.now }
    requires held { ConfigOf (length flash.now) flash.now (Configured layout.now key.now frame) }
    ensures answers { IsAnswer flash.now result.answer }
    ensures image { IfSome result.image (λ image. (result.answer ≡ answers.Done)
        × (image.found ≡ 1) × Starts flash.now image) }
    ensures within { IfSome result.image (ImageLiesIn flash.now) }
    ensures none { result.answer ≡ answers.Done → IsNone result.image → StartsNone flash.now }
{
    let Ok(buffer) = BootBuffer::new(alloc, layout, frame) else {
        return Told::without(Answer::NoMemory);
    };
    let mut disk = ViewDisk::new(flash);
    let mut host = NoFiles::new();
    let mut launcher = ViewLauncher::new(flash);
    let end = boot(
        buffer,
        &mut host,
        &mut disk,
        &mut launcher,
        layout,
        frame,
        key,
    );
    let answer = boot_answer(&end);
    match end {
        BootEnd::Ended => {}
        _ => return Told::without(answer),
    }
    let Some(note) = launcher.noted() else {
        return Told::without(answer);
    };
    match image_in(note, launcher.flash(), flash) {
        Some(image) => Told {
            answer,
            image: Some(image),
        },
        None => Told::without(Answer::LaunchFault),
    }
}

// Boots from the flash.
fn boot_from(alloc: Global, flash: &[u8]) -> Told
    ensures answers { IsAnswer flash.now result.answer }
    ensures image { IfSome result.image (λ image. (result.answer ≡ answers.Done)
        × (image.found ≡ 1) × Starts flash.now image) }
    ensures within { IfSome result.image (ImageLiesIn flash.now) }
    ensures none { result.answer ≡ answers.Done → IsNone result.image → StartsNone flash.now }
{
    let mut disk = ViewDisk::new(flash);
    match load_config(alloc, &mut disk) {
        Loaded::Config(layout, key, frame) => boot_by(alloc, flash, &layout, frame, &key),
        Loaded::Blank | Loaded::BadConfig => Told::without(Answer::Unconfigured),
        Loaded::FlashFault => Told::without(Answer::FlashFault),
        Loaded::NoMemory => Told::without(Answer::NoMemory),
    }
}

/// Boots from a flash in memory, and tells the image to be started. Returns 0 where the invocation procedure of what is installed
/// ran to its end; `out.found` is 1 if it invoked an image. Otherwise returns the program's status for the same, and `out.found`
/// is 0. Nothing is written: a procedure that writes the flash is stopped by a fault of the flash.
#[unsafe(no_mangle)]
pub extern "C" fn suit_boot(alloc: Global, flash: &[u8], out: &mut SuitImage) -> i32
    ensures answers { (answer : Answer) × (result ≡ code_of answer) × IsAnswer flash.now answer }
    ensures no_host { result ≢ code_of answers.HostFault }
    ensures found { out.new.found ≡ 1 → result ≡ code_of answers.Done }
    ensures marked { (out.new.found ≡ 0) ⊎ (out.new.found ≡ 1) }
    ensures starts { out.new.found ≡ 1 → Starts flash.now out.new }
    ensures within { out.new.found ≡ 1 → ImageLiesIn flash.now out.new }
    ensures none { result ≡ code_of answers.Done → out.new.found ≢ 1 → StartsNone flash.now }
{
    let Told { answer, image } = boot_from(alloc, flash);
    match image {
        Some(image) => {
            *out = image;
            Answer::Done.code()
        }
        None => {
            *out = SuitImage::none();
            answer.code()
        }
    }
}
