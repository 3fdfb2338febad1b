//! The outside as contracts see it: host and flash, launcher, and sink, each as one record at a moment.

ghost use Rattle.suit_cli.specs.Launching.{Launching};
ghost use Rattle.suit_cli.specs.Outside.{Outside, Flashed, Sunk};

use suit_edge::{Disk, Host, Launcher, Sink};

/// A host at a moment.
pub trait SeenHost: Host {
    /// Beside a flash: what it tells of its files, of the bytes pulled from them and of the names that were asked for,
    /// and its count of faults.
    ghost seen: { Self → Flashed → Outside };
}

impl<H: Host> SeenHost for H {
    ghost seen = { λ h f. record {
      told = H.told;
      files = H.file h;
      pulled = H.pulled h;
      asked = H.asked h;
      faults = H.faults h;
      flash = f;
    } };
}

/// A flash at a moment.
pub trait SeenDisk: Disk {
    /// Its size, its bytes as it tells them, and its count of faults.
    ghost seen: { Self → Flashed };
}

impl<D: Disk> SeenDisk for D {
    ghost seen = { λ d. record {
      told = D.told;
      size = D.extent d;
      reads = (D.flash d).reads;
      faults = D.faults d;
    } };
}

/// A launcher at a moment.
pub trait SeenLauncher: Launcher {
    /// The launches that it tells of, and its count of faults.
    ghost seen: { Self → Launching };
}

impl<L: Launcher> SeenLauncher for L {
    ghost seen = { λ l. record { told = L.told; launches = L.launches l; faults = L.faults l } };
}

/// A sink at a moment.
pub trait SeenSink: Sink {
    /// The bytes that it tells were put, and its count of faults.
    ghost seen: { Self → Sunk };
}

impl<K: Sink> SeenSink for K {
    ghost seen = { λ k. record { told = K.told; put = K.put_bytes k; faults = K.faults k } };
}
