//! Captures and their frames.
ghost use Rattle.std.specs.Prelude.{◌≡◌, ◌++◌, ◌∷◌, [], ◌↔◌, length, IsTrue, OnOk, OnErr};

use crate::bytes::Bytes;
use crate::fault::NoMemory;
use std::alloc::Global;
use std::marker::Model;

/// A captured frame: its time stamp, its length on the network, and the bytes that were captured.
#[derive(Debug, Drop)]
pub struct Taken {
    /// The whole seconds of the time stamp.
    pub seconds: u32,
    /// The rest of the time stamp, in the microseconds or nanoseconds of its capture. It is not
    /// looked at, and may be a second or more.
    pub fraction: u32,
    /// How many bytes the frame had on the network. It is not looked at.
    pub original: u32,
    /// The bytes that were captured.
    pub frame: Bytes,
}

/// The frames of a capture, in the order of the file. Contracts see the list of them.
#[derive(Debug, Drop)]
pub struct Frames {
    items: Vec<Taken>,
}

impl Model for Frames {
    ghost use Rattle.std.specs.Prelude.{List};
    ghost use Rattle.and_capture.specs.declared.capture.Taken.{Taken};

    ghost Value = { List Taken };

    ghost view = { λ f. f.items.items };
}

impl Frames {
    /// No frames yet. Takes no memory.
    pub fn new(alloc: Global) -> Frames
        ensures { result ≡ [] }
    {
        Frames {
            items: Vec::new(alloc),
        }
    }

    /// The frames of a vector.
    pub fn from_vec(items: Vec<Taken>) -> Frames
        ensures { result ≡ items.items }
    {
        Frames { items }
    }

    /// The vector of the frames.
    pub fn into_vec(self) -> Vec<Taken>
        ensures { result.items ≡ self }
    {
        self.items
    }

    /// How many frames there are.
    pub fn len(&self) -> usize
        ensures { result ≡ length self.now }
    {
        self.items.len()
    }

    /// Whether there are none.
    pub fn is_empty(&self) -> bool
        ensures { IsTrue result ↔ (self.now ≡ []) }
    {
        self.items.is_empty()
    }

    /// The frames.
    pub fn as_slice(&self) -> &[Taken]
        ensures { result.now ≡ self.now }
    {
        self.items.as_slice()
    }

    /// Puts a frame at the end. An `Err` leaves the frames as they were.
    pub fn push(&mut self, frame: Taken) -> Result<(), NoMemory>
        ensures ok { OnOk result (self.new ≡ self.old ++ frame ∷ []) }
        ensures err { OnErr result (self.new ≡ self.old) }
    {
        match self.items.push(frame) {
            Ok(()) => Ok(()),
            Err(_) => Err(NoMemory),
        }
    }
}

/// A capture: the unit of its time stamps, and its frames.
#[derive(Debug, Drop)]
pub struct Capture {
    /// Whether the fractions of the time stamps are nanoseconds, and not microseconds.
    pub nanos: bool,
    /// The frames, in the order of the file.
    pub frames: Frames,
}
