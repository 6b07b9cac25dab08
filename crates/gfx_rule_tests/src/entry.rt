//! An effect in the words of a table: its name, and in brackets the numbers of its fields, those of lists and bytes behind
//! their count. Where numbers are missing they are made up.

use std::test::Fail;

/// The first number that is made up.
const MADE_UP: u64 = 1_000_000;

/// VK_WHOLE_SIZE.
const WHOLE: u64 = u64::MAX;

/// The layout in which images are presented.
const SHOWN: u64 = 1_000_001_002;

/// The greatest number of a frame.
const LAST: u64 = 1 << 62;

/// The names of effects, with the widths of their fields in order: calls in the order of their ids, metadata in that of theirs,
/// and the two markers. A width is `q` eight bytes, `d` four, `Q` and `D` lists of these, `B` bytes, `S` submits, `b` barriers,
/// `r` regions between buffers, `i` between images, `m` between a buffer and an image, `p` presents.
const SHAPES: &str = "\
CreateInstance qd
DestroyInstance q
CreateHeadlessSurfaceEXT qq
DestroySurfaceKHR qq
CreateDevice qq
DestroyDevice q
GetDeviceQueue qq
AllocateMemory qqq
FreeMemory qq
MapMemory qqqq
UnmapMemory qq
CreateBuffer qqqd
DestroyBuffer qq
BindBufferMemory qqqq
CreateImage qqdddd
DestroyImage qq
BindImageMemory qqqq
CreateCommandPool qqd
DestroyCommandPool qq
ResetCommandPool qq
AllocateCommandBuffers qqQ
FreeCommandBuffers qqQ
BeginCommandBuffer qd
EndCommandBuffer q
ResetCommandBuffer q
CmdPipelineBarrier qb
CmdFillBuffer qqqqd
CmdUpdateBuffer qqqB
CmdCopyBuffer qqqr
CmdCopyImage qqdqdi
CmdCopyBufferToImage qqqdm
CmdCopyImageToBuffer qqdqm
CmdClearColorImage qqddddd
CreateFence qqd
DestroyFence qq
ResetFences qQ
WaitForFences qQdd
GetFenceStatus qqd
CreateSemaphore qq
DestroySemaphore qq
QueueSubmit qSq
QueueWaitIdle q
DeviceWaitIdle q
CreateSwapchainKHR qqqddddd
DestroySwapchainKHR qq
GetSwapchainImagesKHR qqQ
AcquireNextImageKHR qqqqdd
QueuePresentKHR qQp
FillMemory qqB
InitImage qdB
SetSwapchainState qD
SetSemaphoreState qd
Begin q
End q
";

/// How many calls there are.
const CALLS: u32 = 48;

/// What kind of an effect it is, with its id.
#[derive(Clone, Copy, Debug, PartialEq, Eq)]
pub enum Kind {
    Call { id: u32 },
    Meta { id: u32 },
    Marker { begin: bool },
}

/// The kind of the effect in this line of names, the first of which is 1.
fn kind_at(line: u32) -> Kind {
    match line {
        1..=48 => Kind::Call { id: line },
        49..=52 => Kind::Meta {
            id: line.wrapping_sub(CALLS).wrapping_add(1),
        },
        _ => Kind::Marker { begin: line == 53 },
    }
}

/// The kind of an effect and the widths of its fields.
pub fn shape_of(effect: &str) -> Result<(Kind, &'static str), Fail> {
    let Some((name, _)) = effect.split_once('(') else {
        return Err(Fail::new("an effect has no fields"));
    };
    let mut line = 0_u32;
    for shape in SHAPES.lines() {
        line = line.wrapping_add(1);
        if let Some((known, widths)) = shape.split_once(' ')
            && known == name
        {
            return Ok((kind_at(line), widths));
        }
    }
    Err(Fail::new("no effect has this name"))
}

/// The numbers that are left of an effect, and how many were made up.
#[derive(Drop)]
pub struct Numbers<'a> {
    left: &'a str,
    made: u64,
}

impl<'a> Numbers<'a> {
    /// Those between the brackets.
    pub fn of(effect: &'a str) -> Self {
        let left = match effect.split_once('(') {
            Some((_, rest)) => rest.trim_end_matches(')'),
            None => "",
        };
        Numbers { left, made: 0 }
    }

    /// The next one.
    pub fn next(&mut self) -> Result<u64, Fail> {
        if self.left.is_empty() {
            self.made = self.made.wrapping_add(1);
            return Ok(MADE_UP.wrapping_add(self.made));
        }
        let (word, rest) = self.left.split_once(", ").unwrap_or((self.left, ""));
        self.left = rest;
        number_of(word)
    }
}

fn number_of(word: &str) -> Result<u64, Fail> {
    match word {
        "WHOLE" => Ok(WHOLE),
        "SHOWN" => Ok(SHOWN),
        "LAST" => Ok(LAST),
        _ => Ok(word.parse::<u64>()?),
    }
}
