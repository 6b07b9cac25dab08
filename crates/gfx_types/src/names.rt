//! Kinds of objects, formats of images, and faults.

ghost use Rattle.std.specs.Prelude.{◌≡◌, ◌≤◌};
ghost use Rattle.gfx_types.specs.Names as names;
ghost use Rattle.gfx_types.specs.Names.{format_of, texel_of, format_name, fault_number, fault_name};

use crate::limits::{MAX_EXTENT, MAX_IMAGE_SIZE};

/// The kind of an object.
#[derive(Clone, Copy, Debug, PartialEq, Eq)]
pub enum Kind {
    Instance,
    Surface,
    Device,
    Queue,
    Memory,
    Buffer,
    Image,
    Pool,
    CommandBuffer,
    Fence,
    Semaphore,
    Swapchain,
}

/// The format of an image.
#[derive(Clone, Copy, Debug, PartialEq, Eq)]
pub enum Format {
    R8Uint,
    R8G8B8A8Unorm,
    R8G8B8A8Uint,
    B8G8R8A8Unorm,
    R32Uint,
}

impl Format {
    /// The format of a Vulkan number; None where it is none of the five.
    pub fn of(number: u32) -> Option<Format>
        ensures { result ≡ format_of number }
    {
        match number {
            13 => Some(Format::R8Uint),
            37 => Some(Format::R8G8B8A8Unorm),
            41 => Some(Format::R8G8B8A8Uint),
            44 => Some(Format::B8G8R8A8Unorm),
            98 => Some(Format::R32Uint),
            _ => None,
        }
    }

    /// The size of a texel, in bytes.
    pub fn texel(self) -> u64
        ensures { result ≡ texel_of self }
    {
        match self {
            Format::R8Uint => 1,
            _ => 4,
        }
    }

    /// The name that programs print.
    pub fn name(self) -> &'static str
        ensures { result.now ≡ format_name self }
    {
        match self {
            Format::R8Uint => "R8_UINT",
            Format::R8G8B8A8Unorm => "R8G8B8A8_UNORM",
            Format::R8G8B8A8Uint => "R8G8B8A8_UINT",
            Format::B8G8R8A8Unorm => "B8G8R8A8_UNORM",
            Format::R32Uint => "R32_UINT",
        }
    }
}

/// The size of a texel of the format of a Vulkan number, in bytes, 0 where it is none of the five.
pub fn texel_size(format: u32) -> u64
    ensures { result ≡ names.texel_size format }
{
    Format::of(format).map_or(0, Format::texel)
}

/// The bytes of an image of this format and extent, tightly packed.
pub fn image_size(format: u32, width: u32, height: u32) -> u64
    requires width { width ≤ MAX_EXTENT }
    requires height { height ≤ MAX_EXTENT }
    ensures size { result ≡ names.image_size format width height }
    ensures small { result ≤ MAX_IMAGE_SIZE }
{
    u64::from(width) * u64::from(height) * texel_size(format)
}

/// Why a file or a call is refused: nine faults of framing, then nineteen of rules, by their numbers.
#[derive(Clone, Copy, Debug, PartialEq, Eq)]
pub enum Fault {
    BadMagic,
    BadVersion,
    BadOption,
    Compressed,
    Truncated,
    BlockTooLarge,
    UnknownBlock,
    BadParams,
    TooManyBlocks,
    StateOrder,
    NotLive,
    IdTaken,
    WrongParent,
    HasChildren,
    BadValue,
    OutOfRange,
    AlreadyBound,
    NotBound,
    MapState,
    PoolRule,
    CommandState,
    UsageMissing,
    LayoutDiffers,
    FormatDiffers,
    SignalState,
    SwapState,
    ResultDiffers,
    LimitReached,
}

impl Fault {
    /// The number that programs print.
    pub fn number(self) -> u32
        ensures { result ≡ fault_number self }
    {
        match self {
            Fault::BadMagic => 1,
            Fault::BadVersion => 2,
            Fault::BadOption => 3,
            Fault::Compressed => 4,
            Fault::Truncated => 5,
            Fault::BlockTooLarge => 6,
            Fault::UnknownBlock => 7,
            Fault::BadParams => 8,
            Fault::TooManyBlocks => 9,
            Fault::StateOrder => 10,
            Fault::NotLive => 11,
            Fault::IdTaken => 12,
            Fault::WrongParent => 13,
            Fault::HasChildren => 14,
            Fault::BadValue => 15,
            Fault::OutOfRange => 16,
            Fault::AlreadyBound => 17,
            Fault::NotBound => 18,
            Fault::MapState => 19,
            Fault::PoolRule => 20,
            Fault::CommandState => 21,
            Fault::UsageMissing => 22,
            Fault::LayoutDiffers => 23,
            Fault::FormatDiffers => 24,
            Fault::SignalState => 25,
            Fault::SwapState => 26,
            Fault::ResultDiffers => 27,
            Fault::LimitReached => 28,
        }
    }

    /// The name that programs print.
    pub fn name(self) -> &'static str
        ensures { result.now ≡ fault_name self }
    {
        match self {
            Fault::BadMagic => "BadMagic",
            Fault::BadVersion => "BadVersion",
            Fault::BadOption => "BadOption",
            Fault::Compressed => "Compressed",
            Fault::Truncated => "Truncated",
            Fault::BlockTooLarge => "BlockTooLarge",
            Fault::UnknownBlock => "UnknownBlock",
            Fault::BadParams => "BadParams",
            Fault::TooManyBlocks => "TooManyBlocks",
            Fault::StateOrder => "StateOrder",
            Fault::NotLive => "NotLive",
            Fault::IdTaken => "IdTaken",
            Fault::WrongParent => "WrongParent",
            Fault::HasChildren => "HasChildren",
            Fault::BadValue => "BadValue",
            Fault::OutOfRange => "OutOfRange",
            Fault::AlreadyBound => "AlreadyBound",
            Fault::NotBound => "NotBound",
            Fault::MapState => "MapState",
            Fault::PoolRule => "PoolRule",
            Fault::CommandState => "CommandState",
            Fault::UsageMissing => "UsageMissing",
            Fault::LayoutDiffers => "LayoutDiffers",
            Fault::FormatDiffers => "FormatDiffers",
            Fault::SignalState => "SignalState",
            Fault::SwapState => "SwapState",
            Fault::ResultDiffers => "ResultDiffers",
            Fault::LimitReached => "LimitReached",
        }
    }
}
