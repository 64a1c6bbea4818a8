// The frame view: a frame as one thing, its bytes with shape and layout beside them. Callers that hold no view use
// `read_sample`. Samples are read from luma.
#![tactic(auto)]

ghost use Rattle.std.specs.Prelude.{◌≡◌};
ghost use Rattle.cubemap.specs.Frames.{IsPlace, frame_sample};
ghost use Rattle.view.specs.Views.{shown, frame_of, Readable};

use cubemap::{Layout, Place, Shape};

// A frame: its bytes, and beside them its face size, depth and format (the shape) and its layout.
#[derive(Clone, Copy)]
pub struct FrameView<'a> {
    pub bytes: &'a [u8],
    pub shape: Shape,
    pub layout: Layout,
}

impl<'a> FrameView<'a> {
    // The sample at a place of the frame that is viewed.
    pub fn sample(self, place: Place) -> u64
        requires { Readable (shown self) × IsPlace self.shape.size place }
        ensures { result ≡ frame_sample (shown self.entry) place }
    {
        let size = self.shape.size;
        let luma = frame::luma(self.bytes, size);
        frame::sample(luma, strides::index(size, self.layout, place) as usize)
    }
}

// The sample at a place, through a view of the frame.
pub fn read_sample(bytes: &[u8], shape: Shape, layout: Layout, place: Place) -> u64
    requires { Readable (frame_of shape layout bytes.now) × IsPlace shape.size place }
    ensures { result ≡ frame_sample (frame_of shape layout bytes.now) place }
{
    let frame = FrameView {
        bytes,
        shape,
        layout,
    };
    frame.sample(place)
}
