//! The load: one entry of the spoil log.

ghost use Rattle.std.specs.Prelude.{◌≡◌, Some};
ghost use Rattle.line.specs.Loads.{LoadFits, load_bytes, load_of, load_text};
ghost use Rattle.std.proofs.Common.{rules};

use crate::denial::Denial;
use crate::kind::{LineKind, bytes_in, put};
use std::fmt;

/// What the ship was doing. Values past the four named ones have no name, and are kept as they are.
//
// A byte and no enum: with a variant for the bytes without a name, the byte 2 could be told in two ways, and a load that is written and
// read back would not be equal.
#[derive(Clone, Copy, PartialEq, Eq, Default)]
pub struct Activity(pub u8);

impl Activity {
    pub const SAILING: Activity = Activity(0);

    pub const DREDGING: Activity = Activity(1);

    pub const DUMPING: Activity = Activity(2);

    pub const LYING: Activity = Activity(3);
}

/// One logged load.
#[derive(Clone, Copy, PartialEq, Eq, Default)]
pub struct Load {
    /// In seconds.
    pub time: u32,
    /// In centimetres.
    pub east: i32,
    /// In centimetres.
    pub north: i32,
    pub tonnes: u16,
    pub activity: Activity,
}

/// The bytes of a load, the spare one 0.
impl From<Load> for [u8; 16] {
    ghost from_gives = { λ load bytes. LoadFits load × (bytes ≡ load_bytes load) };

    fn from(load: Load) -> [u8; 16] {
        let mut bytes = [0; 16];
        bytes[0..4].copy_from_slice(&load.time.to_le_bytes());
        bytes[4..8].copy_from_slice(&load.east.to_le_bytes());
        bytes[8..12].copy_from_slice(&load.north.to_le_bytes());
        bytes[12..14].copy_from_slice(&load.tonnes.to_le_bytes());
        bytes[14] = load.activity.0;
        bytes
    }
}

/// The load that the bytes spell. The spare one is not looked at.
impl From<[u8; 16]> for Load {
    ghost from_gives = { λ bytes load. load ≡ load_of bytes };

    fn from(bytes: [u8; 16]) -> Load {
        Load {
            time: u32::from_le_bytes([bytes[0], bytes[1], bytes[2], bytes[3]]),
            east: i32::from_le_bytes([bytes[4], bytes[5], bytes[6], bytes[7]]),
            north: i32::from_le_bytes([bytes[8], bytes[9], bytes[10], bytes[11]]),
            tonnes: u16::from_le_bytes([bytes[12], bytes[13]]),
            activity: Activity(bytes[14]),
        }
    }
}

impl LineKind for Load {
    ghost width = { 16 };

    ghost writing = { load_bytes };

    ghost reading = { load_of };

    ghost fits = { LoadFits };

    ghost wide = { Prim.search rules };

    ghost long = { Prim.search rules };

    ghost back = { Prim.search rules };

    fn width() -> usize {
        16
    }

    fn write_to(&self, buf: &mut [u8]) -> Result<(), Denial> {
        put(<[u8; 16]>::from(*self), buf)
    }

    fn read_from(buf: &[u8]) -> Result<Load, Denial> {
        let bytes: [u8; 16] = bytes_in(buf)?;
        Ok(Load::from(bytes))
    }
}

/// The fields of a load, with a space between them.
impl fmt::Display for Load {
    ghost output = { λ l. Some (load_text l) };

    fn fmt<W: fmt::Write>(&self, f: &mut fmt::Formatter<W>) -> fmt::Result {
        let Load {
            time,
            east,
            north,
            tonnes,
            activity,
        } = *self;
        let activity = activity.0;
        write!(f, "{time} {east} {north} {tonnes} {activity}")
    }
}
