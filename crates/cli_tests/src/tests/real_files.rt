//! What no clause says of the real objects: what their files hold.

ghost use Rattle.std.specs.Prelude.{◌≡◌, ◌≤◌, IfOk, length};

use crate::bytes::are_same;
use crate::steps::takes;
use std::alloc::{AllocError, Global};
use std::fs;
use suit_edge::{
    Disk, Edge, FileDisk, FileHost, FileLauncher, Host, Image, Label, Launched, Launcher,
    MemoryDisk, Pulled, Sink, Started, StdSink, Taken, take_all,
};

const FLASH: &str = "suit.flash";

// Whether four bytes can be read at a place of the real disk, opened anew, and are these.
fn reads(rt: &HostRuntime, place: u64, bytes: &[u8; 4]) -> bool
    requires { place ≤ 4194300 }
{
    let mut room = [1; 4];
    let mut disk = FileDisk::new(rt);
    disk.read_at(place, &mut room) == Edge::Done && room == *bytes
}

// Whether four bytes can be written at a place of the real disk, opened anew.
fn writes(rt: &HostRuntime, place: u64, bytes: &[u8; 4]) -> bool
    requires { place ≤ 4194300 }
{
    let mut disk = FileDisk::new(rt);
    disk.write_at(place, bytes) == Edge::Done && disk.sync() == Edge::Done
}

// Whether the real disk's file is made of these bytes.
fn lays(rt: &HostRuntime, bytes: &[u8]) -> bool {
    fs::write(rt, FLASH, bytes).is_ok()
}

// Whether it is made of so many bytes, two more than the disk has.
fn lays_longer(rt: &HostRuntime) -> Result<bool, AllocError> {
    let longer = vec![in rt.alloc(); 5u8; 4_194_306]?;
    Ok(lays(rt, longer.as_slice()))
}

// Whether the real disk's file is two bytes longer than the disk, and these are as they were.
fn rest_is_left(rt: &HostRuntime) -> bool {
    match fs::read(rt, FLASH) {
        Ok(file) => file.len() == 4_194_306 && file.ends_with(b"abcd\x05\x05"),
        Err(_) => false,
    }
}

// Whether this file is taken away.
fn removes(rt: &HostRuntime, name: &str) -> bool {
    fs::remove_file(rt, name).is_ok()
}

// Whether a folder is made there.
fn makes_folder(rt: &HostRuntime, name: &str) -> bool {
    fs::create_dir(rt, name).is_ok()
}

// Whether a folder is taken away.
fn removes_folder(rt: &HostRuntime, name: &str) -> bool {
    fs::remove_dir(rt, name).is_ok()
}

#[test]
fn a_real_disk_is_made_filled_and_left_alone(rt: HostRuntime) -> Result<(), AllocError> {
    assert!(rt; reads(&rt, 4_194_300, &[0; 4]), "missing");
    assert!(rt; writes(&rt, 4_194_300, b"abcd"), "made");
    assert!(rt; reads(&rt, 4_194_300, b"abcd"), "kept");
    assert!(rt; lays(&rt, b"xyz"));
    assert!(rt; reads(&rt, 1, b"yz\0\0"), "shorter");
    assert!(rt; lays_longer(&rt)?);
    assert!(rt; writes(&rt, 4_194_300, b"abcd"), "longer");
    assert!(rt; rest_is_left(&rt));
    assert!(rt; removes(&rt, FLASH));
    assert!(rt; makes_folder(&rt, FLASH));
    assert!(rt; !reads(&rt, 0, &[1; 4]), "a folder");
    assert!(rt; removes_folder(&rt, FLASH));
    Ok(())
}

fn is_too_long<H: Host>(alloc: Global, host: &mut H, name: &str, limit: u64) -> bool {
    match take_all(alloc, host, name, limit) {
        Taken::TooLong(told) => told == limit,
        _ => false,
    }
}

fn is_absent<H: Host>(alloc: Global, host: &mut H, name: &str) -> bool {
    matches!(take_all(alloc, host, name, 9), Taken::Absent)
}

fn is_fault<H: Host>(alloc: Global, host: &mut H, name: &str) -> bool {
    matches!(take_all(alloc, host, name, 9), Taken::HostFault)
}

const REAL: &str = "host_test_file";

// Whether bytes are stored and taken again, unless they are too long.
fn stores<H: Host>(alloc: Global, host: &mut H) -> bool {
    host.store(REAL, b"some bytes") == Edge::Done
        && takes(alloc, host, REAL, 10, b"some bytes")
        && is_too_long(alloc, host, REAL, 9)
}

// Whether a file is started, and after one that is absent nothing is pulled.
fn starts<H: Host>(host: &mut H) -> bool {
    let mut room = [0; 4];
    host.start(REAL) == Started::Done
        && host.start("no_such/file") == Started::Absent
        && host.pull(&mut room) == Pulled::Got(0)
}

// Whether what cannot be done is told.
fn tells<H: Host>(alloc: Global, host: &mut H) -> bool {
    is_fault(alloc, host, ".")
        && host.store("no_such/file", b"some bytes") == Edge::Failed
        && host.start("host_test_file/x") == Started::Failed
}

fn goes<H: Host>(alloc: Global, host: &mut H) -> bool {
    stores(alloc, host)
        && is_absent(alloc, host, "no_such/file")
        && starts(host)
        && tells(alloc, host)
}

#[test]
fn real_files_are_stored_and_taken(rt: HostRuntime) {
    assert!(rt; goes(rt.alloc(), &mut FileHost::new(&rt)));
    assert!(rt; removes(&rt, REAL));
}

const LONG: &str = "host_test_long_file";

// The bytes of a file that is pulled in several pieces, of which no two are alike.
fn long_file(alloc: Global) -> Result<Vec<u8>, AllocError> {
    let mut bytes = Vec::new(alloc);
    for i in 0..10_000u32 {
        bytes.push((i % 251) as u8)?;
    }
    Ok(bytes)
}

// Whether these bytes are stored and taken again, unless they are too long.
fn stores_long<H: Host>(alloc: Global, host: &mut H, bytes: &[u8]) -> bool {
    host.store(LONG, bytes) == Edge::Done
        && takes(alloc, host, LONG, 10_000, bytes)
        && is_too_long(alloc, host, LONG, 9_999)
}

fn stores_long_file(rt: &HostRuntime) -> Result<bool, AllocError> {
    let bytes = long_file(rt.alloc())?;
    Ok(stores_long(rt.alloc(), &mut FileHost::new(rt), bytes.as_slice()))
}

#[test]
fn a_real_file_of_several_pieces_is_stored_and_taken(rt: HostRuntime) -> Result<(), AllocError> {
    assert!(rt; stores_long_file(&rt)?);
    assert!(rt; removes(&rt, LONG));
    Ok(())
}

#[test]
fn standard_output_takes_bytes(rt: HostRuntime) {
    let mut sink = StdSink::new(&rt);
    assert!(rt; sink.put(b"some bytes\n") == Edge::Done);
}

// The label of a component whose parameters name nothing.
fn plain(component: u32) -> Label<'static> {
    Label {
        component,
        digest: None,
        size: None,
        args: None,
    }
}

// Whether a file holds these bytes.
fn file_holds(rt: &HostRuntime, name: &str, bytes: &[u8]) -> bool {
    match fs::read(rt, name) {
        Ok(file) => are_same(file.as_slice(), bytes),
        Err(_) => false,
    }
}

// What comes of the disk's image, launched as this component.
fn launched<D: Disk, L: Launcher>(disk: &mut D, launcher: &mut L, component: u32) -> Launched
    requires { 5900 ≤ D.extent disk.old }
    ensures { D.extent disk.new ≡ D.extent disk.old }
{
    let image = Image::Flash {
        place: 900,
        length: 5000,
    };
    launcher.launch(disk, image, plain(component))
}

// Whether the disk's image and another one are launched; a third is not, where a folder has its name.
fn launches<D: Disk, L: Launcher>(rt: &HostRuntime, disk: &mut D, launcher: &mut L) -> bool
    requires { 5900 ≤ D.extent disk.old }
{
    launched(disk, launcher, 3) == Launched::Done
        && makes_folder(rt, "boot-4.img")
        && launched(disk, launcher, 4) == Launched::Failed
        && launcher.launch(disk, Image::Ram(b"xy"), plain(12)) == Launched::Done
}

// A disk with an image.
fn disk_of_sevens(alloc: Global) -> Result<MemoryDisk, AllocError>
    ensures { IfOk result (λ disk. length disk.first ≡ 6000) }
{
    let sevens = vec![in alloc; 7u8; 5000]?;
    let mut disk = MemoryDisk::new(alloc, 6000, &[])?;
    match disk.write_at(900, &sevens) {
        Edge::Done => Ok(disk),
        Edge::Failed => Err(AllocError),
    }
}

fn writes_images(rt: &HostRuntime) -> Result<bool, AllocError> {
    let mut disk = disk_of_sevens(rt.alloc())?;
    Ok(launches(rt, &mut disk, &mut FileLauncher::new(rt)))
}

// Whether a file holds the disk's image.
fn holds_sevens(rt: &HostRuntime, name: &str) -> Result<bool, AllocError> {
    let sevens = vec![in rt.alloc(); 7u8; 5000]?;
    Ok(file_holds(rt, name, sevens.as_slice()))
}

#[test]
fn a_real_launcher_writes_images(rt: HostRuntime) -> Result<(), AllocError> {
    assert!(rt; writes_images(&rt)?);
    assert!(rt; holds_sevens(&rt, "boot-3.img")?);
    assert!(rt; file_holds(&rt, "boot-12.img", b"xy"));
    assert!(rt; removes_folder(&rt, "boot-4.img"));
    assert!(rt; removes(&rt, "boot-3.img"));
    assert!(rt; removes(&rt, "boot-12.img"));
    Ok(())
}
