// The codes that a call names, and the code that it ends with.
ghost use Rattle.std.specs.Prelude.{◌≡◌};
ghost use Rattle.cubemap.specs.Interface.{format_of, sampler_of, return_code};
ghost use Rattle.cubemap.specs.Outcomes.{format_named, sampler_named, refusal};

use crate::{Format, Refusal, Sampler};

// Code 0 is CMP; question 4 refuses every code but 0 and 1.
pub fn format_of(code: u64) -> Format
    ensures { result ≡ format_of code }
{
    match code {
        0 => Format::Cmp,
        _ => Format::Acp,
    }
}

// Code 0 is nearest; question 4 refuses every code but 0 and 1.
pub fn sampler_of(code: u64) -> Sampler
    ensures { result ≡ sampler_of code }
{
    match code {
        0 => Sampler::Nearest,
        _ => Sampler::Cubic,
    }
}

// Question 4, of a format.
impl TryFrom<u64> for Format {
    type Error = Refusal;

    ghost try_from_gives = { λ code named. named ≡ format_named code };

    #[tactic(auto, unfolding(crate::specs::Checks::code_ok))]
    fn try_from(code: u64) -> Result<Self, Refusal> {
        match code {
            0 | 1 => Ok(format_of(code)),
            _ => Err(Refusal::Code),
        }
    }
}

// Question 4, of a sampler.
impl TryFrom<u64> for Sampler {
    type Error = Refusal;

    ghost try_from_gives = { λ code named. named ≡ sampler_named code };

    #[tactic(auto, unfolding(crate::specs::Checks::code_ok))]
    fn try_from(code: u64) -> Result<Self, Refusal> {
        match code {
            0 | 1 => Ok(sampler_of(code)),
            _ => Err(Refusal::Code),
        }
    }
}

// The code of a refusal: its number plus 256 times the index, which is 0 but for questions 10 and 11.
impl From<Refusal> for u64 {
    ghost from_gives = { λ refused code. code ≡ return_code (refusal refused) };

    fn from(refused: Refusal) -> u64 {
        match refused {
            Refusal::FaceSize => 1,
            Refusal::TargetSize => 2,
            Refusal::Depth => 3,
            Refusal::Code => 4,
            Refusal::Layout => 5,
            Refusal::RotationRange => 6,
            Refusal::RotationZero => 7,
            Refusal::FirstLength => 8,
            Refusal::SecondLength => 9,
            Refusal::FirstSample(i) => 10 + 256 * u64::from(i),
            Refusal::SecondSample(i) => 11 + 256 * u64::from(i),
            Refusal::FoldedRange => 12,
            Refusal::RayRange => 13,
            Refusal::RayZero => 14,
            Refusal::RecordKind => 15,
            Refusal::RecordCut => 16,
        }
    }
}
