// Convert: questions 1 to 10 in order, and then every sample of the target.
#![tactic(auto)]

ghost use Rattle.std.specs.Prelude.{◌≡◌, length};
ghost use Rattle.cubemap.specs.Interface.{format_of, sampler_of};
ghost use Rattle.cubemap.specs.Checks.{target_shape};
ghost use Rattle.cubemap.specs.Outcomes.{outcome, converted_bytes, convert_outcome, converted_means};
ghost use Rattle.cubemap.proofs.Passed.{ConvertPassed};
ghost use Rattle.conversion.specs.Asked.{settings_of};

use checks::{ask, depth_ok, layout_ok, length_ok, rotation_in_range, rotation_nonzero, size_ok};
use cubemap::{Format, Refusal, Rotation, Sampler, Shape};
use cubic::Source;
use planes::{Conversion, Target};
use resampling::Reading;
use strides::Plane;

// What a conversion goes by: the source's shape, the target's size and format, the sampler, the layouts of both, and
// the rotation. Both ends share the depth.
#[derive(Clone, Copy)]
pub struct Settings<'a> {
    pub source: Shape,
    pub target_size: u64,
    pub target_format: u64,
    pub sampler: u64,
    pub source_layout: &'a [u8],
    pub target_layout: &'a [u8],
    pub rotation: Rotation,
}

impl<'a> Settings<'a> {
    // The target's shape.
    #[tactic(auto, unfolding(cubemap::specs::Checks::target_shape))]
    fn target(self) -> Shape
        ensures { result ≡ target_shape (settings_of self.entry) }
    {
        Shape {
            size: self.target_size,
            depth: self.source.depth,
            format: self.target_format,
        }
    }
}

// ---- the frames

// The target's samples, where no question ended the call.
fn convert_frame(
    settings: Settings,
    source_format: Format,
    target_format: Format,
    sampler: Sampler,
    source: &[u8],
    target: &mut [u8],
)
    requires passed { ConvertPassed (settings_of settings) (length source.now) (length target.old) source.now }
    requires kinds { (source_format ≡ format_of settings.source.format)
        × (target_format ≡ format_of settings.target_format) × (sampler ≡ sampler_of settings.sampler) }
    ensures { target.new ≡ converted_bytes (settings_of settings.entry) source.now }
{
    let strides = strides::face_strides(
        settings.source.size,
        frame::layout_of(settings.source_layout),
    );
    let plane = Plane {
        size: settings.source.size,
        bytes: frame::luma(source, settings.source.size),
        strides: &strides,
    };
    let read = Source {
        plane,
        depth: settings.source.depth,
    };
    let c = Conversion {
        source: Reading {
            source: read,
            format: source_format,
            sampler,
        },
        target: Target {
            size: settings.target_size,
            format: target_format,
            layout: frame::layout_of(settings.target_layout),
        },
        rotation: settings.rotation,
    };
    let coordinates = geometry::face_coordinates(target_format, settings.target_size);
    let columns = settings.target_size as usize;
    let end = frame::luma_end(settings.target_size);
    planes::convert_plane(c, &coordinates[..columns], &mut target[..end]);
}

// Converts a frame: asks questions 1 to 10 in order, and then writes every sample of the target.
#[tactic(auto, unfolding(cubemap::specs::Checks::first_failed, cubemap::specs::Checks::convert_checks, cubemap::specs::Checks::before_samples, cubemap::specs::Checks::size_checks, cubemap::specs::Checks::setting_checks, cubemap::specs::Checks::length_checks, cubemap::specs::Outcomes::convert_answer, cubemap::specs::Outcomes::convert_outcome))]
pub fn convert(settings: Settings, source: &[u8], target: &mut [u8]) -> Result<(), Refusal>
    ensures { outcome (converted_means result) target.new ≡ convert_outcome (settings_of settings.entry)
        source.now target.old }
{
    ask(size_ok(settings.source.size), Refusal::FaceSize)?;
    ask(size_ok(settings.target_size), Refusal::TargetSize)?;
    ask(depth_ok(settings.source.depth), Refusal::Depth)?;
    let source_format = Format::try_from(settings.source.format)?;
    let target_format = Format::try_from(settings.target_format)?;
    let sampler = Sampler::try_from(settings.sampler)?;
    let layouts = layout_ok(settings.source_layout) & layout_ok(settings.target_layout);
    ask(layouts, Refusal::Layout)?;
    ask(rotation_in_range(settings.rotation), Refusal::RotationRange)?;
    ask(rotation_nonzero(settings.rotation), Refusal::RotationZero)?;
    ask(
        length_ok(settings.source, source.len()),
        Refusal::FirstLength,
    )?;
    ask(
        length_ok(settings.target(), target.len()),
        Refusal::SecondLength,
    )?;
    checks::samples_within(settings.source, source).map_err(Refusal::FirstSample)?;
    convert_frame(
        settings,
        source_format,
        target_format,
        sampler,
        source,
        target,
    );
    Ok(())
}
