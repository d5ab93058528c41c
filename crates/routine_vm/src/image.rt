//! The memory on which main begins.

ghost use Rattle.std.specs.Prelude.{◌≡◌, IfOk, Some, replicate};
ghost use Rattle.cal_base.specs.Pages.{page_count};
ghost use Rattle.machine_meaning.specs.Meaning.{module_memory};

use cal_base::{Image, NoMemory};
use code_verify::Verified;
use std::alloc::Global;

/// The image on which main of the module begins.
pub fn first_image(alloc: Global, code: &Verified) -> Result<Image, NoMemory>
    ensures memory { IfOk result (λ image. image.memory ≡ module_memory code.now) }
    ensures versions { IfOk result (λ image. image.versions ≡ replicate (page_count code.now.words) (Some 0)) }
{
    let m = code.module();
    Image::make(alloc, m.words, m.tallies.as_slice(), m.initial.as_slice())
}
