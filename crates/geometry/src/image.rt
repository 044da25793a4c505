// The size of an image.
ghost use Rattle.std.specs.Prelude.{◌≡◌, ◌<◌};
ghost use Rattle.base.specs.Answers.{all_of};
ghost use Rattle.geometry.specs.Image.{image_rules};

use crate::Geometry;

// An image has so many PEBs at least, and at most.
const MIN_PEBS: usize = 2;

const MAX_PEBS: usize = 4096;

// Is the image 2 to 4,096 whole PEBs?
#[tactic(auto, unfolding(crate::specs::Image::image_rules))]
pub fn image_fits(image: &[u8], g: Geometry) -> bool
    requires { 0 < g.peb_size }
    ensures { result ≡ all_of (image_rules g image.now) }
{
    let size = g.peb_size as usize;
    let n = image.len() / size;
    image.len().is_multiple_of(size) && (MIN_PEBS..=MAX_PEBS).contains(&n)
}
