// In which block a byte of the save lies.
ghost use Rattle.std.specs.Prelude.{◌≡◌, ◌*◌, ◌/◌, ◌<◌};
ghost use Rattle.chip.specs.Figures.{block_len, records};

use chip::Chip;
use mapping::Virtual;

// The virtual block that holds byte `place` of the save.
pub(crate) fn block_of(place: usize) -> Virtual
    requires { place < records * block_len }
    ensures { result.0 ≡ place / block_len }
{
    Virtual((place / Chip::BLOCK) as u8)
}
